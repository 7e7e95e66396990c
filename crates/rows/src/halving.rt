// How many rows have begun.
ghost use Rattle.std.specs.Prelude.{◌≡◌, nat_le};
ghost use Rattle.rows.specs.Begun.{Begun, Climbs, begun};

use crate::row::Row;

fn has_begun<R: Row>(row: R, x: u64) -> bool
    ensures { result ≡ nat_le (R.begins row) x }
{
    row.begins() <= x
}

// How many of the rows, if none begins before the one before it, have begun at `x`: each turn halves what is left. Not by
// `partition_point`, which promises nothing of rows out of order, as `parted` does here.
pub fn begun_by<R: Row>(rows: &[R], x: u64) -> usize
    ensures parted { Begun R.begins rows.now x result }
    ensures value { Climbs R.begins rows.now → result ≡ begun R.begins rows.now x }
{
    let mut low = 0;
    let mut high = rows.len();
    while low < high {
        let mid = low + (high - low) / 2;
        if has_begun(rows[mid], x) {
            low = mid + 1;
        } else {
            high = mid;
        }
    }
    low
}
