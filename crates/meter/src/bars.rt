// The bars: position p is the lower timebase's position at which bar p + 1 begins, by a meter table.
ghost use Rattle.std.specs.Prelude.{◌≡◌};
ghost use Rattle.meter.specs.Tables.{bar_tick, bars_to};
ghost use Rattle.meter.specs.Lines.{table_pair, table_ahead};

use crate::table::MeterTable;
use layers::change::{AheadChange, Change, END};
use layers::on_positions::OnPositions;

// From a bar to the tick at which it begins. The change has the layer's name, since an alias of `OnPositions`, a type of
// another crate, can have no `new`.
#[derive(Clone, Copy)]
pub struct Bars {
    meter: MeterTable,
}

impl Bars {
    pub fn new<T>(lower: T, meter: MeterTable) -> OnPositions<T, Self>
        ensures lower { result.lower ≡ lower }
        ensures meter { result.change.meter ≡ meter }
    {
        OnPositions {
            lower,
            change: Bars { meter },
        }
    }
}

impl Change for Bars {
    ghost up = { λ b. bar_tick b.meter };

    ghost back = { λ b. bars_to b.meter };

    ghost pair = { λ b. table_pair b.meter };

    fn up(&self, p: u64) -> u64 {
        self.meter.bar_tick(p)
    }

    fn back(&self, p: u64) -> u64 {
        self.meter.bar_reaching(p.min(END))
    }
}

impl AheadChange for Bars {
    ghost ahead = { λ b. table_ahead b.meter };
}
