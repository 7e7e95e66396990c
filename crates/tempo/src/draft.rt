// What a tempo map is to be made of, tried by the rules before any memory is asked for.
ghost use Rattle.std.specs.Prelude.{◌≡◌, ◌-◌, ◌^◌, ◌<◌, true, length, map, sum};
ghost use Rattle.std.specs.List.{slice_get, zip};
ghost use Rattle.tempo.specs.Micros.{micros, whole_stretch};
ghost use Rattle.tempo.specs.Rules.{row_kept, next_kept, last_kept, ends_kept, chain_kept, rows_kept, kept};

use crate::row::TempoRow;
use rows::row::{LAST_TICK, MOST_DIVISION};

// 24 hours in microseconds.
const DAY: u64 = 86_400_000_000;

// A map of `rows` that ends at tick `last`, with `division` ticks to a quarter note.
#[derive(Clone, Copy)]
pub(crate) struct Draft<'a> {
    pub(crate) division: u32,
    pub(crate) rows: &'a [TempoRow],
    pub(crate) last: u32,
}

fn row_kept(row: TempoRow) -> bool
    ensures { result ≡ row_kept row }
{
    (1..=16_777_215).contains(&row.q)
}

fn next_kept(row: TempoRow, next: TempoRow) -> bool
    ensures { result ≡ next_kept row next }
{
    row_kept(row) && row.tick < next.tick
}

fn last_kept(row: TempoRow, last: u32) -> bool
    ensures { result ≡ last_kept row last }
{
    row_kept(row) && row.tick <= last
}

// What the rows before the last come to, each up to the next; `rest` are the rows after the first.
fn whole_stretches(rows: &[TempoRow], rest: &[TempoRow]) -> u64
    requires { sum (map (λ p. whole_stretch p.0 p.1) (zip rows.now rest.now)) < 2 ^ 64 }
    ensures { result ≡ sum (map (λ p. whole_stretch p.0 p.1) (zip rows.now rest.now)) }
{
    rows.iter()
        .zip(rest)
        .map(|(row, next)| row.up_to(*next))
        .sum()
}

impl<'a> Draft<'a> {
    fn ends_kept(&self) -> bool
        ensures { result ≡ ends_kept (slice_get self.now.rows.now (length self.now.rows.now - 1)) self.now.last }
    {
        let [.., end] = self.rows else {
            return false;
        };
        last_kept(*end, self.last)
    }

    fn all_kept(&self) -> bool
        ensures { result ≡ chain_kept self.now.rows.now self.now.last }
    {
        self.rows.is_sorted_by(|row, next| next_kept(*row, *next)) && self.ends_kept()
    }

    fn rows_kept(&self) -> bool
        ensures { result ≡ rows_kept self.now.rows.now self.now.last }
    {
        let [first, ..] = self.rows else {
            return false;
        };
        self.rows.len() <= 1024 && first.tick == 0 && self.last <= LAST_TICK && self.all_kept()
    }

    // How far the last tick lies from tick 0: the rows before the last up to the next, and the last up to there.
    fn end_micros(&self) -> u64
        requires { rows_kept self.now.rows.now self.now.last ≡ true }
        ensures { result ≡ micros self.now.rows.now self.now.last }
    {
        let [.., end] = self.rows else {
            return 0;
        };
        whole_stretches(self.rows, &self.rows[1..]) + end.stretch(u64::from(self.last))
    }

    // Whether a map made of it keeps every rule.
    pub(crate) fn keeps_rules(&self) -> bool
        ensures { result ≡ kept self.now.division self.now.rows.now self.now.last }
    {
        (1..=MOST_DIVISION).contains(&self.division)
            && self.rows_kept()
            && self.end_micros() <= u64::from(self.division) * DAY
    }
}
