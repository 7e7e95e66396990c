// The varispeed: every sample is multiplied by a ÷ b and rounded up, once.
ghost use Rattle.std.specs.Prelude.{◌≡◌, IfOk};
ghost use Rattle.std.specs.Result.{result_err};
ghost use Rattle.timebase.specs.Scale.{scaled, reached};
ghost use Rattle.layers.specs.Layers.{varispeed_refusal};
ghost use Rattle.layers.specs.Pairs.{varispeed_pair};

use crate::change::Change;
use crate::on_samples::OnSamples;
use refusal::Refusal;
use timebase::fraction::Fraction;

// The most that a and b can be.
const MOST: u64 = 1_048_576;

pub type Varispeed<T> = OnSamples<T, Fraction>;

impl<T: Drop> Varispeed<T> {
    // Refused where a or b is 0 or over 2^20.
    pub fn new(lower: T, a: u64, b: u64) -> Result<Self, Refusal>
        ensures cases { result_err result ≡ varispeed_refusal a b }
        ensures made { IfOk result (λ v. (v.lower ≡ lower) × (v.change.n ≡ a) × (v.change.d ≡ b)) }
    {
        let change = Fraction::new(a, b, MOST).ok_or(Refusal::BadMaking)?;
        Ok(OnSamples { lower, change })
    }
}

impl Change for Fraction {
    ghost up = { λ f. scaled f.n f.d };

    ghost back = { λ f. reached f.n f.d };

    ghost pair = { λ f. varispeed_pair f.n f.d f.some f.whole };

    fn up(&self, s: u64) -> u64 {
        self.up(s)
    }

    fn back(&self, s: u64) -> u64 {
        self.reach(s)
    }
}
