// Bars and ticks looked up in a meter table.
ghost use Rattle.std.specs.Prelude.{◌≡◌, ◌^◌, ◌≤◌, min};
ghost use Rattle.meter.specs.Rules.{beat_of};
ghost use Rattle.meter.specs.BarLines.{FirstAt, row_at};
ghost use Rattle.meter.specs.Lies.{BarIn, TickIn};
ghost use Rattle.meter.specs.Tables.{rows_of, bar_tick, bars_to, Lines};

use crate::row::{CountedRow, MeterRow};
use crate::table::MeterTable;
use timebase::base::END;

impl MeterTable {
    // The tick at which bar `p` + 1 begins, from the row in which it lies.
    fn tick_in_row(&self, i: usize, p: u64) -> u64
        requires { (BarIn self.now p i) × (p ≤ 2 ^ 36) }
        ensures value { result ≡ bar_tick self.now p }
        ensures lines { Lines self.now }
    {
        let CountedRow { row, before } = self.rows[i];
        let bar = u64::from(self.meter(i).bar_ticks());
        u64::from(row.tick) + (p - u64::from(before)) * bar
    }

    // The first bar that begins at or after tick `t`, from the row in which the tick lies.
    fn bar_in_row(&self, i: usize, t: u64) -> u64
        requires { TickIn self.now t i }
        ensures value { result ≡ bars_to self.now t }
        ensures first { FirstAt (bar_tick self.now) t result }
    {
        let CountedRow { row, before } = self.rows[i];
        let bar = u64::from(self.meter(i).bar_ticks());
        u64::from(before) + (t - u64::from(row.tick)).div_ceil(bar)
    }

    // The tick at which bar `p` + 1 begins. No timebase is longer than 2^36, and from there on the answer stays.
    pub fn bar_tick(&self, p: u64) -> u64
        ensures value { result ≡ bar_tick self.now (min p (2 ^ 36)) }
        ensures lines { Lines self.now }
    {
        let p = p.min(END);
        self.tick_in_row(self.row_of_bar(p), p)
    }

    // The first bar, counted from 0, that begins at or after tick `t`.
    pub fn bar_reaching(&self, t: u64) -> u64
        ensures value { result ≡ bars_to self.now t }
        ensures first { FirstAt (bar_tick self.now) t result }
    {
        self.bar_in_row(self.row_of_tick(t), t)
    }

    // The row whose meter is current at tick `t`.
    pub fn meter_at(&self, t: u64) -> MeterRow
        ensures { result ≡ row_at (rows_of self.now) t }
    {
        self.rows[self.row_of_tick(t)].row
    }

    // The beats of a bar, and the ticks of a beat, of the meter that is current at tick `t`. A pair, and no struct, since
    // its one caller takes it apart where it gets it.
    pub fn beats_at(&self, t: u64) -> (u8, u32)
        ensures beats { result.0 ≡ (row_at (rows_of self.now) t).nn }
        ensures value { result.1 ≡ beat_of self.now.division (row_at (rows_of self.now) t) }
        ensures bound { 1 ≤ result.1 }
    {
        let meter = self.meter(self.row_of_tick(t));
        (meter.row.nn, meter.beat_ticks())
    }
}
