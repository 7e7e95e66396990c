// Trying ticks of a map: each is placed, its sample is located again, and its tempo looked up.
use std::hash::Hasher;
use std::iter::once;
use tempo::map::TempoMap;
use tempo::row::TempoRow;
use timebase::base::Timebase;
use trials::failure::Failure;
use trials::tally::Tally;

// What was tried so far.
#[derive(Clone, Copy, Default)]
pub struct Tried {
    // The first tick not yet tried: none is tried twice.
    due: u64,
    pub tally: Tally,
    pub located: u64,
}

impl Tried {
    // The hash goes over the bytes of the sample and of the tempo, and the sum over the samples.
    fn add(&mut self, tick: u64, sample: u64, q: u32, located: bool) {
        self.due = tick.wrapping_add(1);
        self.tally.hash.write_u64(sample);
        self.tally.hash.write_u64(u64::from(q));
        self.tally.add(sample);
        self.located = self.located.wrapping_add(u64::from(located));
    }
}

// Whether the tick's sample is located on the first tick that falls on it, and the next sample past the tick.
fn located(map: &TempoMap, tick: u64, sample: u64) -> bool {
    let first = map.locate(sample);
    let later = map.locate(sample.wrapping_add(1));
    let falls_earlier = |before| map.place(before).is_ok_and(|s| s < sample);
    first <= tick
        && map.place(first) == Ok(sample)
        && first.checked_sub(1).is_none_or(falls_earlier)
        && tick < later
        && later <= map.len()
}

// The ticks of one row, and how many to try between its first and last; `shown` where some are printed.
#[derive(Clone, Copy)]
struct Stretch {
    from: u64,
    end: u64,
    between: u32,
    shown: bool,
}

impl Stretch {
    // The j-th tick to try: the row's own, the one after it, and on to the last.
    fn spot(self, j: u64) -> u64 {
        let Some(j) = j.checked_sub(1) else {
            return self.from;
        };
        let next = self.from.wrapping_add(1).min(self.end);
        let far = self.end.wrapping_sub(next).wrapping_mul(j);
        next.wrapping_add(far / (u64::from(self.between) + 1))
    }
}

fn try_row(
    rt: &HostRuntime,
    map: &TempoMap,
    row: Stretch,
    tried: &mut Tried,
) -> Result<(), Failure> {
    let most = u64::from(row.between) + 2;
    // No index: j says how far along the row the tick lies.
    for j in 0..=most {
        let tick = row.spot(j);
        if tick >= tried.due {
            let sample = map.place(tick)?;
            if row.shown && (j < 2 || j == most) {
                print!(rt; " {tick}={sample}")?;
            }
            let q = map.tempo_at(tick).q;
            tried.add(tick, sample, q, located(map, tick, sample));
        }
    }
    Ok(())
}

// Tries ticks of every row; prints some of the first two rows and of the last.
pub(crate) fn all_tried(
    rt: &HostRuntime,
    map: &TempoMap,
    rows: &[TempoRow],
    between: u32,
) -> Result<Tried, Failure> {
    let mut tried = Tried::default();
    let nexts = rows.iter().skip(1).map(|row| u64::from(row.tick));
    let ends = nexts.chain(once(map.len()));
    // Where a row stands says whether its ticks are shown.
    for (i, (row, end)) in rows.iter().zip(ends).enumerate() {
        let row = Stretch {
            from: u64::from(row.tick),
            end: end.wrapping_sub(1),
            between,
            shown: i < 2 || i + 1 == rows.len(),
        };
        try_row(rt, map, row, &mut tried)?;
    }
    Ok(tried)
}
