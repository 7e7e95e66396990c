// Positions in ticks, written as bar, beat and tick.
ghost use Rattle.std.specs.Prelude.{◌≡◌, ◌+◌, ◌*◌, ◌^◌, ◌<◌, ◌≤◌};
ghost use Rattle.meter.specs.Rules.{beat_of};
ghost use Rattle.meter.specs.Tables.{rows_of, bar_tick, bars_to};
ghost use Rattle.bar_positions.specs.BarPositions.{meter_of, stands_in, tick_in, written_in, position_number, position_count, position_of, position_parts};
ghost use Rattle.bar_positions.specs.Reached.{Reached};
ghost use Rattle.bar_positions.specs.Laws.{position_paired, position_ordered};

use forms::form::WrittenForm;
use meter::table::MeterTable;
use refusal::Refusal;

const LAST_BAR: u64 = 65_535;

// A position as operators write it, bars and beats counted from 1; it may be one that no table has.
#[derive(Clone, Copy, PartialEq, Eq, Debug)]
pub struct BarPosition {
    pub bar: u16,
    pub beat: u8,
    pub tick: u32,
}

// A bar of a meter table: its number, counted from 0, where it begins, its beats, and the ticks of each.
#[derive(Clone, Copy)]
struct Bar {
    number: u64,
    start: u64,
    beats: u8,
    beat_ticks: u32,
    ghost named: { number < 65535 },
    ghost early: { start ≤ 2 ^ 39 },
    ghost some: { 1 ≤ beat_ticks },
}

impl BarPosition {
    // Whether beat and tick stand in a bar.
    fn stands_in(self, bar: Bar) -> bool
        ensures { result ≡ stands_in bar.beats bar.beat_ticks self }
    {
        1 <= self.beat && self.beat <= bar.beats && self.tick < bar.beat_ticks
    }

    // The position's tick, in its bar.
    fn tick_in(self, bar: Bar) -> u64
        requires { 1 ≤ self.beat }
        ensures { result ≡ tick_in bar.start bar.beat_ticks self }
    {
        bar.start + u64::from(self.beat - 1) * u64::from(bar.beat_ticks) + u64::from(self.tick)
    }

    // The position `rest` ticks into a bar.
    fn written_in(bar: Bar, rest: u64) -> BarPosition
        requires { rest < 64 * bar.beat_ticks }
        ensures { result ≡ written_in bar.number bar.beat_ticks rest }
    {
        let beat = u64::from(bar.beat_ticks);
        BarPosition {
            bar: (bar.number + 1) as u16,
            beat: (rest / beat + 1) as u8,
            tick: (rest % beat) as u32,
        }
    }
}

// The written form of a meter table's bars, beats and ticks.
#[derive(Clone, Copy)]
pub struct BarPositions {
    pub meter: MeterTable,
}

impl BarPositions {
    // The tick at which bar `p` + 1 begins.
    fn start_of(&self, p: u64) -> u64
        requires { p ≤ 65535 }
        ensures value { result ≡ bar_tick self.now.meter p }
        ensures bound { result ≤ 2 ^ 39 }
    {
        self.meter.bar_tick(p)
    }

    // The bar of a number. Inlined, since a struct comes back through memory.
    #[inline(always)]
    fn bar(&self, number: u64) -> Bar
        requires { number < 65535 }
        ensures number { result.number ≡ number }
        ensures start { result.start ≡ bar_tick self.now.meter number }
        ensures beats { result.beats ≡ (meter_of self.now.meter.division (rows_of self.now.meter) number).nn }
        ensures beat { result.beat_ticks ≡ beat_of self.now.meter.division (meter_of self.now.meter.division (rows_of self.now.meter) number) }
    {
        let start = self.start_of(number);
        let (beats, beat_ticks) = self.meter.beats_at(start);
        Bar {
            number,
            start,
            beats,
            beat_ticks,
        }
    }

    // The bars that begin at or before tick `n`.
    fn bars_begun(&self, n: u64) -> u64
        requires { n < 2 ^ 39 }
        ensures { result ≡ bars_to self.now.meter (n + 1) }
    {
        self.meter.bar_reaching(n + 1)
    }

    // The bar in which tick `n` lies, counted from 0.
    fn bar_reached(&self, n: u64) -> u64
        requires { n < position_count self.now.meter.division (rows_of self.now.meter) }
        ensures { Reached self.now.meter.division (rows_of self.now.meter) n result }
    {
        self.bars_begun(n) - 1
    }
}

impl WrittenForm for BarPositions {
    type Value = BarPosition;

    ghost count = { λ f. position_count f.meter.division (rows_of f.meter) };

    ghost number = { λ f. position_number f.meter.division (rows_of f.meter) };

    ghost value = { λ f. position_of f.meter.division (rows_of f.meter) };

    ghost parts = { λ _. position_parts };

    ghost paired = { λ f. position_paired f.meter.division (rows_of f.meter) f.meter.lawful };

    ghost ordered = { λ f. position_ordered f.meter.division (rows_of f.meter) f.meter.lawful };

    // The tick at which the bar after the last would begin.
    fn count(&self) -> u64 {
        self.start_of(LAST_BAR)
    }

    fn read(&self, v: BarPosition) -> Result<u64, Refusal> {
        if v.bar < 1 {
            return Err(Refusal::NotWritten);
        }
        let bar = self.bar(u64::from(v.bar - 1));
        if !v.stands_in(bar) {
            return Err(Refusal::NotWritten);
        }
        Ok(v.tick_in(bar))
    }

    fn write(&self, n: u64) -> Result<BarPosition, Refusal> {
        if n >= self.count() {
            return Err(Refusal::NotBelowCount);
        }
        let bar = self.bar(self.bar_reached(n));
        Ok(BarPosition::written_in(bar, n - bar.start))
    }
}
