// What every base and every layer answers.
ghost use Rattle.std.specs.Prelude.{◌≡◌};
ghost use Rattle.timebase.specs.Meaning.{Meaning, Sound, placed, Least, Agree};

use refusal::Refusal;

// The last sample: samples run from 0 to here.
pub const LAST_SAMPLE: u64 = (1 << 36) - 1;

// The sample after the last, and the longest length.
pub const END: u64 = LAST_SAMPLE + 1;

pub trait Timebase {
    // The length and the rule that a value of the type stands for.
    ghost meaning: { Self → Meaning };

    fn len(&self) -> u64
        ensures { result ≡ (meaning self.now).len };

    // The sample of a position, refused where the position is not below the length.
    fn place(&self, p: u64) -> Result<u64, Refusal>
        ensures { result ≡ placed (meaning self.now) p };

    // The least position whose sample is at least `s`, or the length.
    fn locate(&self, s: u64) -> u64
        ensures least { Least (meaning self.now) s result }
        ensures agrees { Agree (meaning self.now) s result };

    ghost sound: { (t : Self) → Sound (meaning t) };
}
