// Making a meter table out of rows that keep the rules, and the division that it was made for.
ghost use Rattle.std.specs.Prelude.{◌≡◌, ℕ, ◌<◌, ◌≤◌, true, length, slice_index_or};
ghost use Rattle.meter.specs.Rules.{kept};
ghost use Rattle.meter.specs.BarLines.{bars_before};
ghost use Rattle.meter.specs.Counted.{no_counted, rows_in};
ghost use Rattle.meter.specs.Tables.{Making};

use crate::beats::Meter;
use crate::row::{CountedRow, MeterRow};
use crate::rules::Draft;
use crate::table::MeterTable;
use refusal::Refusal;

const NO_ROW: CountedRow = CountedRow {
    row: MeterRow {
        tick: 0,
        nn: 0,
        dd: 0,
    },
    before: 0,
};

impl<'a> Draft<'a> {
    // The rows, and with each how many bars lie before it.
    fn counted(&self) -> [CountedRow; 64]
        requires { kept self.now.division self.now.rows.now ≡ true }
        ensures rows { rows_in (length self.now.rows.now) result ≡ self.now.rows.now }
        ensures before { (k : ℕ) → k < length self.now.rows.now → (slice_index_or result k no_counted).before ≡ bars_before self.now.division self.now.rows.now k }
    {
        let Draft { division, rows } = *self;
        let mut held = [NO_ROW; 64];
        // The first row stands before itself, no bar away. The rows go in by place: after a `zip` with `iter_mut` no proof
        // was found of what `held` holds.
        let mut last = CountedRow {
            row: rows[0],
            before: 0,
        };
        for (i, row) in rows.iter().enumerate() {
            let meter = Meter {
                division,
                row: last.row,
            };
            last = CountedRow {
                row: *row,
                before: last.before + meter.bars_to(*row),
            };
            held[i] = last;
        }
        held
    }
}

impl MeterTable {
    // A table of copies of `rows`, refused where they are against the rules.
    pub fn new(division: u32, rows: &[MeterRow]) -> Result<MeterTable, Refusal>
        ensures { Making division rows.now result }
    {
        let draft = Draft { division, rows };
        if !draft.keeps_rules() {
            return Err(Refusal::BadMaking);
        }
        Ok(MeterTable {
            division,
            rows: draft.counted(),
            len: rows.len(),
        })
    }

    // The ticks of a quarter note.
    pub fn division(&self) -> u32
        ensures { result ≡ self.now.division }
    {
        self.division
    }
}
