// The layers that change samples: each is this one, at its change.
ghost use Rattle.layers.specs.Layers.{on_samples};
ghost use Rattle.layers.specs.Samples.{samples_sound};

use crate::change::{Change, END};
use refusal::Refusal;
use timebase::base::{LAST_SAMPLE, Timebase};

#[derive(Clone, Copy, Drop)]
pub struct OnSamples<T, G> {
    pub(crate) lower: T,
    pub(crate) change: G,
}

impl<T: Timebase, G: Change> Timebase for OnSamples<T, G> {
    ghost meaning = { λ t. on_samples (G.up t.change) (T.meaning t.lower) };

    ghost sound = { λ t. samples_sound (G.pair t.change) (T.sound t.lower) };

    // No position has the sample after the last, so it is located at the length.
    fn len(&self) -> u64 {
        self.locate(END)
    }

    fn place(&self, p: u64) -> Result<u64, Refusal> {
        let s = self.change.up(self.lower.place(p)?);
        if s > LAST_SAMPLE {
            return Err(Refusal::NoPosition);
        }
        Ok(s)
    }

    fn locate(&self, s: u64) -> u64 {
        self.lower.locate(self.change.back(s))
    }
}
