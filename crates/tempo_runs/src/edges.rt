// Maps at the edges of the rules: those against them are refused, and those just within them taken.
use refusal::Refusal;
use std::alloc::{AllocError, Global};
use std::io;
use tempo::map::TempoMap;
use tempo::row::TempoRow;
use timebase::base::{LAST_SAMPLE, Timebase};

const Q: u32 = 500_000;

// Said here again, so that a wrong limit of the engine shows.
const LAST: u32 = 1_073_741_823;

// 24 hours of ticks, each of a second.
const DAY: u32 = 86_400;

fn at(tick: u32, q: u32) -> TempoRow {
    TempoRow { tick, q }
}

fn placed(rt: &HostRuntime, sample: Result<u64, Refusal>) -> io::Result<()> {
    match sample {
        Ok(sample) => print!(rt; " on {sample}"),
        Err(why) => print!(rt; " {why}"),
    }
}

fn edge(
    rt: &HostRuntime,
    name: &str,
    division: u32,
    rows: &[TempoRow],
    last: u32,
    sample_rate: u32,
) -> io::Result<()> {
    match TempoMap::new(rt.alloc(), division, rows, last, sample_rate) {
        Ok(map) => {
            let len = map.len();
            print!(rt; "{name}: length {len}, the last tick")?;
            placed(rt, map.place(u64::from(last)))?;
            print!(rt; ", the next")?;
            placed(rt, map.place(len))?;
            let end = map.locate(LAST_SAMPLE);
            println!(rt; ", the last sample located {end}")
        }
        Err(why) => println!(rt; "{name}: {why}"),
    }
}

// Rows of 480 ticks a quarter, of which the last tick is 10.
fn short(rt: &HostRuntime, name: &str, rows: &[TempoRow]) -> io::Result<()> {
    edge(rt, name, 480, rows, 10, 48_000)
}

fn rows(rt: &HostRuntime) -> io::Result<()> {
    short(rt, "no rows", &[])?;
    short(rt, "a row on 1", &[at(1, Q)])?;
    short(rt, "rows on 0, 5, 5", &[at(0, Q), at(5, Q), at(5, Q)])?;
    short(rt, "rows on 0, 5, 4", &[at(0, Q), at(5, Q), at(4, Q)])?;
    short(rt, "rows on 0, 5, 6", &[at(0, Q), at(5, Q), at(6, Q)])?;
    short(rt, "rows on 0, 10", &[at(0, Q), at(10, Q)])?;
    short(rt, "rows on 0, 11", &[at(0, Q), at(11, Q)])?;
    short(rt, "q 0", &[at(0, Q), at(5, 0)])?;
    short(rt, "q 1", &[at(0, Q), at(5, 1)])?;
    short(rt, "q 16777215", &[at(0, Q), at(5, 16_777_215)])?;
    short(rt, "q 16777216", &[at(0, Q), at(5, 16_777_216)])
}

fn numbers(rt: &HostRuntime) -> io::Result<()> {
    let row = [at(0, Q)];
    edge(rt, "division 0", 0, &row, 10, 48_000)?;
    edge(rt, "division 1", 1, &row, 10, 48_000)?;
    edge(rt, "division 32767", 32_767, &row, 10, 48_000)?;
    edge(rt, "division 32768", 32_768, &row, 10, 48_000)?;
    edge(rt, "sample rate 44100", 480, &row, 10, 44_100)?;
    edge(rt, "sample rate 44101", 480, &row, 10, 44_101)?;
    edge(rt, "sample rate 88200", 480, &row, 10, 88_200)?;
    edge(rt, "sample rate 96000", 480, &row, 10, 96_000)?;
    edge(rt, "last tick 0", 480, &row, 0, 48_000)?;
    let row = [at(0, 1)];
    edge(rt, "last tick 1073741823", 480, &row, LAST, 48_000)?;
    edge(rt, "last tick 1073741824", 480, &row, LAST + 1, 48_000)?;
    let day = [at(0, 1_000_000), at(DAY, 1)];
    edge(rt, "24 hours", 1, &day, DAY, 48_000)?;
    edge(rt, "24 hours and a microsecond", 1, &day, DAY + 1, 48_000)
}

// A row on each tick.
fn dense(heap: Global, count: u32) -> Result<Vec<TempoRow>, AllocError> {
    (0..count).map(|tick| at(tick, Q)).collect(heap)
}

pub(crate) fn edges(rt: &HostRuntime) -> io::Result<()> {
    rows(rt)?;
    numbers(rt)?;
    let most = dense(rt.alloc(), 1024)?;
    edge(rt, "1024 rows", 480, &most, 1024, 48_000)?;
    let more = dense(rt.alloc(), 1025)?;
    edge(rt, "1025 rows", 480, &more, 1024, 48_000)
}
