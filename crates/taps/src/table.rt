// A table of taps: it owns its copy of the samples, so that the caller may go on changing his.
ghost use Rattle.std.specs.Prelude.{◌≡◌, true};
ghost use Rattle.taps.specs.Rules.{never_falls, short};
ghost use Rattle.taps.specs.Tables.{taps_meaning};
ghost use Rattle.taps.specs.Climbs.{taps_sound};

use crate::finding::first_from;
use refusal::Refusal;
use timebase::base::Timebase;

mod making;

#[derive(Drop)]
pub struct Taps {
    samples: Vec<u64>,
    ghost few: { short samples.items ≡ true },
    ghost climbs: { never_falls 0 samples.items ≡ true },
}

impl Timebase for Taps {
    ghost meaning = { λ t. taps_meaning t.samples.items };

    ghost sound = { λ t. taps_sound _ t.few t.climbs };

    fn len(&self) -> u64 {
        // By `as`, here and below, since no From leads from a usize to a u64 or back.
        self.samples.len() as u64
    }

    fn place(&self, p: u64) -> Result<u64, Refusal> {
        self.samples
            .get(p as usize)
            .copied()
            .ok_or(Refusal::NoPosition)
    }

    fn locate(&self, s: u64) -> u64 {
        first_from(self.samples.as_slice(), s) as u64
    }
}
