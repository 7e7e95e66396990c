// A meter table: it owns its rows, and keeps with each how many bars lie before it.
ghost use Rattle.std.specs.Prelude.{◌≡◌, ℕ, ◌<◌, ◌≤◌, true, length, take, slice_index_or};
ghost use Rattle.meter.specs.Rules.{kept};
ghost use Rattle.meter.specs.BarLines.{bars_before};
ghost use Rattle.meter.specs.Counted.{no_counted, rows_in};

use crate::row::CountedRow;

mod finding;
mod lookup;
mod making;

#[derive(Clone, Copy)]
pub struct MeterTable {
    division: u32,
    // A table is Copy and is made without asking for memory, so no Vec: an array, and how much of it is in use.
    rows: [CountedRow; 64],
    len: usize,
    ghost room: { len ≤ 64 },
    ghost held: { length (take len rows) ≡ len },
    ghost lawful: { kept division (rows_in len rows) ≡ true },
    ghost counted: { (k : ℕ) → k < len → (slice_index_or rows k no_counted).before ≡ bars_before division (rows_in len rows) k },
}
