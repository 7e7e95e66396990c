// A tempo map: it owns its rows, and keeps with each how far it lies from tick 0.
ghost use Rattle.std.specs.Prelude.{◌≡◌, true};
ghost use Rattle.tempo.specs.Micros.{rows_in, Summed};
ghost use Rattle.tempo.specs.Rules.{kept};

use crate::rates::SampleRateRow;
use crate::row::SummedRow;

mod finding;
mod lookup;
mod making;
mod scaling;

#[derive(Drop)]
pub struct TempoMap {
    division: u32,
    rows: Vec<SummedRow>,
    last: u32,
    rate: SampleRateRow,
    ghost lawful: { kept division (rows_in rows.items) last ≡ true },
    ghost summed: { Summed rows.items },
}
