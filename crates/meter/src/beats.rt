// A meter at a division: the ticks of its beats and of its bars.
ghost use Rattle.std.specs.Prelude.{◌≡◌, ◌^◌, ◌≤◌, true, is_some, IfSome};
ghost use Rattle.meter.specs.Rules.{beat_of, bar_of, row_kept, next_kept, meter_kept};
ghost use Rattle.meter.specs.BarLines.{gap_of};

use crate::row::MeterRow;
use rows::row::{LAST_TICK, MOST_DIVISION};

fn denominator(dd: u8) -> u32
    requires { dd ≤ 6 }
    ensures { result ≡ 2 ^ dd }
{
    1 << dd
}

// A row that is in range on its own, and its beat a whole number of ticks.
#[derive(Clone, Copy)]
pub(crate) struct Meter {
    pub(crate) division: u32,
    pub(crate) row: MeterRow,
    ghost low: { 1 ≤ division },
    ghost high: { division ≤ 32767 },
    ghost kept: { row_kept division row ≡ true },
}

impl Meter {
    // The meter of a row; None where division and row are against the rules.
    pub(crate) fn new(division: u32, row: MeterRow) -> Option<Meter>
        ensures cases { is_some result ≡ meter_kept division row }
        ensures division { IfSome result (λ m. m.division ≡ division) }
        ensures row { IfSome result (λ m. m.row ≡ row) }
    {
        // No `then_some`, which takes a Meter made before the test: its ghost fields hold only behind it.
        if (1..=MOST_DIVISION).contains(&division)
            && (1..=64).contains(&row.nn)
            && row.dd <= 6
            && 4 * division % denominator(row.dd) == 0
            && row.tick <= LAST_TICK
        {
            Some(Meter { division, row })
        } else {
            None
        }
    }

    // The ticks of a beat.
    pub(crate) fn beat_ticks(self) -> u32
        ensures value { result ≡ beat_of self.division self.row }
        ensures bound { 1 ≤ result }
    {
        let whole = 4 * self.division;
        whole / denominator(self.row.dd)
    }

    // The ticks of a bar.
    pub(crate) fn bar_ticks(self) -> u32
        ensures value { result ≡ bar_of self.division self.row }
        ensures bound { 1 ≤ result }
    {
        u32::from(self.row.nn) * self.beat_ticks()
    }

    // How many bars lie before the row after it.
    pub(crate) fn bars_to(self, next: MeterRow) -> u32
        requires { self.row.tick ≤ next.tick }
        ensures { result ≡ gap_of self.division self.row next }
    {
        (next.tick - self.row.tick) / self.bar_ticks()
    }

    // Whether the row after it lies on one of its bar lines.
    pub(crate) fn joins(self, next: MeterRow) -> bool
        ensures { result ≡ next_kept self.division self.row next }
    {
        self.row.tick < next.tick && (next.tick - self.row.tick) % self.bar_ticks() == 0
    }
}
