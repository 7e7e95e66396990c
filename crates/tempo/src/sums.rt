// The rows of a map with their running sums.
ghost use Rattle.std.specs.Prelude.{◌≡◌, ℕ, ◌^◌, ◌<◌, ◌≤◌, true, Some, IfOk};
ghost use Rattle.tempo.specs.Micros.{rows_in, sum_after, Summed};
ghost use Rattle.tempo.specs.Rules.{rows_kept};

use crate::row::{SummedRow, TempoRow};
use std::alloc::{AllocError, Global};

// The sum at the tick of `row`, which stands after `before`, and does not lie before it.
fn sum_after(before: SummedRow, row: TempoRow) -> u64
    requires later { before.row.tick ≤ row.tick }
    requires fits { sum_after (Some before) row < 2 ^ 64 }
    ensures { result ≡ sum_after (Some before) row }
{
    before.sum + u64::from(row.tick - before.row.tick) * u64::from(before.row.q)
}

// Copies of the rows, each with the sum at its tick: that of the row before it, and what lies between.
pub(crate) fn summed_rows(heap: Global, rows: &[TempoRow]) -> Result<Vec<SummedRow>, AllocError>
    requires { (last : ℕ) × (rows_kept rows.now last ≡ true) }
    ensures rows { IfOk result (λ v. rows_in v.items ≡ rows.now) }
    ensures summed { IfOk result (λ v. Summed v.items) }
{
    let mut summed = Vec::with_capacity(heap, rows.len())?;
    // The sum stays at hand: read back out of `summed`, each would wait for the one before to be stored.
    let mut sum = 0;
    summed.push_reserved(SummedRow { row: rows[0], sum });
    for i in 1..rows.len() {
        let before = SummedRow {
            row: rows[i - 1],
            sum,
        };
        sum = sum_after(before, rows[i]);
        summed.push_reserved(SummedRow { row: rows[i], sum });
    }
    Ok(summed)
}
