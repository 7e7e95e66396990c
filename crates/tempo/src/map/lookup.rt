// Ticks, samples and tempos looked up in a tempo map.
ghost use Rattle.std.specs.Prelude.{◌≡◌, ◌+◌, ◌/◌, ◌%◌, ◌^◌, ◌≤◌, min};
ghost use Rattle.tempo.specs.Lies.{Parted};
ghost use Rattle.tempo.specs.Maps.{rows_of, map_micros, samples_of, AddsUp};
ghost use Rattle.tempo.specs.Micros.{row_at};

use crate::map::TempoMap;
use crate::row::TempoRow;

// The fewest ticks of `q` that reach `gap`.
fn ticks_for(gap: u64, q: u32) -> u64
    requires { 1 ≤ q }
    ensures { result ≡ gap / q + min 1 (gap % q) }
{
    gap.div_ceil(u64::from(q))
}

impl TempoMap {
    // The ticks that are positions: from 0 to the last.
    pub(crate) fn ticks(&self) -> u64
        ensures { result ≡ self.now.last + 1 }
    {
        u64::from(self.last) + 1
    }

    // The sample of tick `p`, which is not past the last.
    pub(crate) fn sample_at(&self, p: u64) -> u64
        requires { p ≤ self.now.last }
        ensures { result ≡ samples_of self.now (map_micros self.now p) }
    {
        let held = self.row_of_tick(p);
        self.sample_after(held.sum, held.row.stretch(p))
    }

    // The first tick at or after the sum `x`.
    pub(crate) fn tick_reaching(&self, x: u64) -> u64
        requires { x ≤ 2 ^ 62 }
        ensures { Parted (map_micros self.now) x result }
    {
        let held = self.row_of_sum(x);
        u64::from(held.row.tick) + ticks_for(x - held.sum, held.row.q)
    }

    // The row whose tempo is current at tick `t`.
    pub fn tempo_at(&self, t: u64) -> TempoRow
        ensures value { result ≡ row_at (rows_of self.now) t }
        ensures adds_up { AddsUp self.now }
    {
        self.row_of_tick(t).row
    }
}
