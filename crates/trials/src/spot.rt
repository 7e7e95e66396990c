// Where a position of a timebase falls, and what is located there.
ghost use Rattle.std.specs.Prelude.{◌≡◌, ◌+◌, ◌-◌, ◌^◌, min, Some, Ok, Err, MatchResult};
ghost use Rattle.timebase.specs.Meaning.{Least, placed};

use refusal::Refusal;
use std::fmt;
use timebase::base::Timebase;

// A position's sample, and what is located on it and on the next.
#[derive(Clone, Copy)]
pub struct Spot {
    pub sample: u64,
    pub back: u64,
    pub next: u64,
}

// What a timebase answers of a position, refused where it has no sample.
pub fn asked<T: Timebase>(base: &T, p: u64) -> Result<Spot, Refusal>
    ensures sample { MatchResult result (λ at. placed (T.meaning base.now) p ≡ Ok at.sample) (λ why. placed (T.meaning base.now) p ≡ Err why) }
    ensures back { MatchResult result (λ at. Least (T.meaning base.now) at.sample at.back) (λ _. Unit {0}) }
    ensures next { MatchResult result (λ at. Least (T.meaning base.now) (min (at.sample + 1) (2 ^ 64 - 1)) at.next) (λ _. Unit {0}) }
{
    let sample = base.place(p)?;
    Ok(Spot {
        sample,
        back: base.locate(sample),
        next: base.locate(sample.saturating_add(1)),
    })
}

impl fmt::Display for Spot {
    ghost use Rattle.trials.specs.Spots.{spot_text};

    ghost output = { λ at. Some (spot_text at.sample at.back at.next) };

    fn fmt<W: fmt::Write>(&self, f: &mut fmt::Formatter<W>) -> fmt::Result {
        write!(
            f,
            "on {}, located {} and {}",
            self.sample, self.back, self.next
        )
    }
}
