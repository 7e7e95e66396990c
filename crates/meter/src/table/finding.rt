// The row of a table in which a bar or a tick lies: the last that has begun.
ghost use Rattle.std.specs.Prelude.{◌≡◌, ◌<◌, slice_index_or};
ghost use Rattle.meter.specs.Counted.{no_counted};
ghost use Rattle.meter.specs.Lies.{BarIn, TickIn};

use crate::beats::Meter;
use crate::table::MeterTable;

impl MeterTable {
    // The row in which bar `p`, counted from 0, lies.
    pub(super) fn row_of_bar(&self, p: u64) -> usize
        ensures { BarIn self.now p result }
    {
        self.rows[..self.len].partition_point(|counted| u64::from(counted.before) <= p) - 1
    }

    // The row in which tick `t` lies.
    pub(super) fn row_of_tick(&self, t: u64) -> usize
        ensures { TickIn self.now t result }
    {
        self.rows[..self.len].partition_point(|counted| u64::from(counted.row.tick) <= t) - 1
    }

    // The meter of row `i`.
    pub(super) fn meter(&self, i: usize) -> Meter
        requires { i < self.now.len }
        ensures division { result.division ≡ self.now.division }
        ensures row { result.row ≡ (slice_index_or self.now.rows i no_counted).row }
    {
        Meter {
            division: self.division,
            row: self.rows[i].row,
        }
    }
}
