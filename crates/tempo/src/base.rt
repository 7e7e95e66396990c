// A tempo map as a timebase: its positions are the ticks up to the last.
ghost use Rattle.tempo.specs.Maps.{tempo_meaning};
ghost use Rattle.tempo.specs.Sounds.{tempo_sound};

use crate::map::TempoMap;
use refusal::Refusal;
use timebase::base::Timebase;

impl Timebase for TempoMap {
    ghost meaning = { tempo_meaning };

    ghost sound = { λ m. tempo_sound m };

    fn len(&self) -> u64 {
        self.ticks()
    }

    fn place(&self, p: u64) -> Result<u64, Refusal> {
        if p >= self.ticks() {
            return Err(Refusal::NoPosition);
        }
        Ok(self.sample_at(p))
    }

    fn locate(&self, s: u64) -> u64 {
        self.tick_reaching(self.reach(s)).min(self.ticks())
    }
}
