// The row of a map in which a tick or a sum lies: the last that has begun.
ghost use Rattle.std.specs.Prelude.{◌≡◌, ◌-◌, ℕ, slice_index_or};
ghost use Rattle.tempo.specs.Micros.{no_sum};
ghost use Rattle.tempo.specs.Lies.{TickIn, MicrosIn};

use crate::map::TempoMap;
use crate::row::SummedRow;
use rows::row::Row;

impl TempoMap {
    // The row in which tick `t` lies.
    pub(super) fn row_of_tick(&self, t: u64) -> SummedRow
        ensures { (i : ℕ) × TickIn self.now t i × (result ≡ slice_index_or self.now.rows.items i no_sum) }
    {
        let begun = self.rows.partition_point(|held| held.row.begins() <= t);
        self.rows[begun - 1]
    }

    // The row in which the sum `x` lies.
    pub(super) fn row_of_sum(&self, x: u64) -> SummedRow
        ensures { (i : ℕ) × MicrosIn self.now x i × (result ≡ slice_index_or self.now.rows.items i no_sum) }
    {
        let begun = self.rows.partition_point(|held| held.sum <= x);
        self.rows[begun - 1]
    }
}
