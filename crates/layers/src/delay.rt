// The delay: every position falls k samples later.
ghost use Rattle.std.specs.Prelude.{◌≡◌, IfOk};
ghost use Rattle.std.specs.Result.{result_err};
ghost use Rattle.layers.specs.Layers.{delay_refusal};

use crate::on_samples::OnSamples;
use crate::shift::Shift;
use refusal::Refusal;
use timebase::base::LAST_SAMPLE;

pub type Delay<T> = OnSamples<T, Shift>;

impl<T: Drop> Delay<T> {
    // Refused where k is past the last sample.
    pub fn new(lower: T, k: u64) -> Result<Self, Refusal>
        ensures cases { result_err result ≡ delay_refusal k }
        ensures made { IfOk result (λ d. (d.lower ≡ lower) × (d.change.n ≡ k)) }
    {
        let change = Shift::new(k, LAST_SAMPLE)?;
        Ok(OnSamples { lower, change })
    }
}
