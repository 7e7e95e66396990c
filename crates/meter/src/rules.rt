// What a meter table is to be made of, tried row by row by the rules.
ghost use Rattle.std.specs.Prelude.{◌≡◌, ◌&&◌, ◌-◌, length};
ghost use Rattle.std.specs.List.{slice_get};
ghost use Rattle.meter.specs.Rules.{meter_kept, next_kept, ends_kept, rows_kept, kept};

use crate::beats::Meter;
use crate::row::MeterRow;

// A table of `rows`, with `division` ticks to a quarter note.
#[derive(Clone, Copy)]
pub(crate) struct Draft<'a> {
    pub(crate) division: u32,
    pub(crate) rows: &'a [MeterRow],
}

impl<'a> Draft<'a> {
    // Whether a row is in range, at a division that is.
    fn keeps(&self, row: MeterRow) -> bool
        ensures { result ≡ meter_kept self.now.division row }
    {
        Meter::new(self.division, row).is_some()
    }

    // Whether a row is in range, and the next lies on a bar line of it.
    fn joins(&self, row: MeterRow, next: MeterRow) -> bool
        ensures { result ≡ (meter_kept self.now.division row && next_kept self.now.division row next) }
    {
        Meter::new(self.division, row).is_some_and(|meter| meter.joins(next))
    }

    fn ends_kept(&self) -> bool
        ensures { result ≡ ends_kept self.now.division (slice_get self.now.rows.now (length self.now.rows.now - 1)) }
    {
        let [.., end] = self.rows else {
            return false;
        };
        self.keeps(*end)
    }

    fn all_kept(&self) -> bool
        ensures { result ≡ rows_kept self.now.division self.now.rows.now }
    {
        self.rows.is_sorted_by(|row, next| self.joins(*row, *next)) && self.ends_kept()
    }

    // Whether a table of these rows keeps every rule.
    pub(crate) fn keeps_rules(&self) -> bool
        ensures { result ≡ kept self.now.division self.now.rows.now }
    {
        let [first, ..] = self.rows else {
            return false;
        };
        if self.rows.len() > 64 || first.tick != 0 {
            return false;
        }
        self.all_kept()
    }
}
