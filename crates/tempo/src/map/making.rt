// Making a tempo map out of rows that keep the rules, and what it was made for.
ghost use Rattle.std.specs.Prelude.{◌≡◌, IfOk};
ghost use Rattle.tempo.specs.Maps.{Making, AddsUp};

use crate::draft::Draft;
use crate::map::TempoMap;
use crate::rates::rate_row;
use crate::row::TempoRow;
use crate::sums::summed_rows;
use refusal::Refusal;
use std::alloc::Global;

impl TempoMap {
    // A map of copies of `rows`, whose last tick is `last`. The rules are tried before any memory is asked for.
    pub fn new(
        heap: Global,
        division: u32,
        rows: &[TempoRow],
        last: u32,
        sample_rate: u32,
    ) -> Result<TempoMap, Refusal>
        ensures cases { Making division rows.now last sample_rate result }
        ensures adds_up { IfOk result (λ m. AddsUp m) }
    {
        let draft = Draft {
            division,
            rows,
            last,
        };
        if !draft.keeps_rules() {
            return Err(Refusal::BadMaking);
        }
        let rate = rate_row(sample_rate).ok_or(Refusal::BadMaking)?;
        let rows = summed_rows(heap, rows)?;
        Ok(TempoMap {
            division,
            rows,
            last,
            rate,
        })
    }

    // The ticks of a quarter note.
    pub fn division(&self) -> u32
        ensures { result ≡ self.now.division }
    {
        self.division
    }
}
