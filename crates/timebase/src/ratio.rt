// The ratio base: positions at a steady rate, as frames are.
ghost use Rattle.std.specs.Prelude.{◌≡◌, ℕ, ◌*◌, ◌^◌, ◌<◌, ◌≤◌, IfOk};
ghost use Rattle.std.specs.Result.{result_err};
ghost use Rattle.timebase.specs.Meaning.{last_sample};
ghost use Rattle.timebase.specs.Rates.{frames_of, seconds_of};
ghost use Rattle.timebase.specs.Ratio.{ratio_meaning, ratio_refusal, counter_refusal};
ghost use Rattle.timebase.specs.Scale.{scaled};
ghost use Rattle.timebase.specs.Ratios.{ratio_sound};

use crate::base::{LAST_SAMPLE, Timebase};
use crate::fraction::{Fraction, MOST};
use crate::rates::FrameRate;
use refusal::Refusal;

// The most positions that a ratio base has.
const LONGEST: u64 = 1 << 24;

#[derive(Clone, Copy)]
pub struct Ratio {
    pub(crate) step: Fraction,
    len: u64,
    ghost short: { len ≤ 2 ^ 24 },
    ghost within: { (p : ℕ) → p < len → scaled step.n step.d p ≤ last_sample },
}

impl Ratio {
    // Position p falls on p × n ÷ d samples, rounded up.
    pub fn new(n: u64, d: u64, len: u64) -> Result<Self, Refusal>
        ensures cases { result_err result ≡ ratio_refusal n d len }
        ensures made { IfOk result (λ b. (b.step.n ≡ n) × (b.step.d ≡ d) × (b.len ≡ len)) }
    {
        let step = Fraction::new(n, d, MOST).ok_or(Refusal::BadMaking)?;
        if len > LONGEST {
            return Err(Refusal::BadMaking);
        }
        if len > 0 && step.up(len - 1) > LAST_SAMPLE {
            return Err(Refusal::RatioTooLong);
        }
        Ok(Ratio { step, len })
    }

    // A frame counter: `rate` frames at `sample_rate` samples a second.
    pub fn frames(rate: FrameRate, sample_rate: u64, len: u64) -> Result<Self, Refusal>
        ensures cases { result_err result ≡ counter_refusal rate sample_rate len }
        ensures made { IfOk result (λ b. (b.step.n ≡ sample_rate * seconds_of rate) × (b.step.d ≡ frames_of rate) × (b.len ≡ len)) }
    {
        let row = rate.row();
        let n = sample_rate
            .checked_mul(row.seconds)
            .ok_or(Refusal::BadMaking)?;
        Ratio::new(n, row.frames, len)
    }
}

impl Timebase for Ratio {
    ghost meaning = { λ t. ratio_meaning t.step.n t.step.d t.len };

    ghost sound = { λ t. ratio_sound _ _ _ t.step.some t.step.whole t.short t.within };

    fn len(&self) -> u64 {
        self.len
    }

    fn place(&self, p: u64) -> Result<u64, Refusal> {
        if p >= self.len {
            return Err(Refusal::NoPosition);
        }
        Ok(self.step.up(p))
    }

    #[tactic(auto, using(crate::specs::Ratios::ratio_least, crate::specs::Ratios::ratio_agrees))]
    fn locate(&self, s: u64) -> u64 {
        self.step.reach(s).min(self.len)
    }
}
