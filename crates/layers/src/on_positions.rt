// The layers that change positions: each is this one, at its change.
ghost use Rattle.layers.specs.Layers.{on_positions};
ghost use Rattle.layers.specs.Positions.{positions_sound};

use crate::change::AheadChange;
use refusal::Refusal;
use timebase::base::{LAST_SAMPLE, Timebase};

#[derive(Clone, Copy, Drop)]
pub struct OnPositions<T, G> {
    pub lower: T,
    pub change: G,
}

impl<T: Timebase, G: AheadChange> Timebase for OnPositions<T, G> {
    ghost meaning = { λ t. on_positions (G.up t.change) (T.meaning t.lower) };

    ghost sound = { λ t. positions_sound (G.pair t.change) (G.ahead t.change) (T.sound t.lower) };

    fn len(&self) -> u64 {
        self.change.back(self.lower.len())
    }

    fn place(&self, p: u64) -> Result<u64, Refusal> {
        // no timebase is longer than 2^36
        if p > LAST_SAMPLE {
            return Err(Refusal::NoPosition);
        }
        self.lower.place(self.change.up(p))
    }

    fn locate(&self, s: u64) -> u64 {
        self.change.back(self.lower.locate(s))
    }
}
