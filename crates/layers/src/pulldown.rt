// The 2:3 pull-down: film frames on video fields, two fields and three in turn.
ghost use Rattle.std.specs.Prelude.{◌≡◌};
ghost use Rattle.layers.specs.Layers.{pulled, pulled_back};
ghost use Rattle.layers.specs.Pairs.{pull_pair, pull_ahead};

use crate::change::{AheadChange, Change, END};
use crate::on_positions::OnPositions;

pub type PullDown<T> = OnPositions<T, TwoThree>;

// From a film frame to the field on which it begins.
#[derive(Clone, Copy)]
pub struct TwoThree;

impl<T> PullDown<T> {
    pub fn new(lower: T) -> Self
        ensures { result.lower ≡ lower }
    {
        OnPositions {
            lower,
            change: TwoThree,
        }
    }
}

impl Change for TwoThree {
    ghost up = { λ _. pulled };

    ghost back = { λ _. pulled_back };

    ghost pair = { λ _. pull_pair };

    fn up(&self, p: u64) -> u64 {
        5 * p.min(END) / 2
    }

    fn back(&self, p: u64) -> u64 {
        (2 * p.min(END) + 4) / 5
    }
}

impl AheadChange for TwoThree {
    ghost ahead = { λ _. pull_ahead };
}
