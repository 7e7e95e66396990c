// Positions worked out by hand, on each layer alone and on a pile of all five.
#![tactic(auto)]

use layers::delay::Delay;
use layers::pulldown::PullDown;
use layers::start::Start;
use layers::varispeed::Varispeed;
use meter::bars::Bars;
use meter::row::MeterRow;
use meter::table::MeterTable;
use refusal::Refusal;
use std::io;
use timebase::base::Timebase;
use timebase::ratio::Ratio;
use trials::answered::Answered;
use trials::failure::Failure;
use trials::spot::asked;

// The length, and what is answered of each position. In each program, since by a rule of this repository a shared function
// has a contract, and one that only prints has nothing for it to say.
fn show<T: Timebase>(rt: &HostRuntime, name: &str, base: &T, positions: &[u64]) -> io::Result<()> {
    println!(rt; "{name}: {} positions", base.len())?;
    for p in positions {
        println!(rt; "{p} {}", Answered(asked(base, *p)))?;
    }
    Ok(())
}

// 3/4, then 4/4 from `tick`, at 480 ticks a quarter; a bar line lies on tick 1,440.
fn meter(tick: u32) -> Result<MeterTable, Refusal> {
    let rows = [
        MeterRow {
            tick: 0,
            nn: 3,
            dd: 2,
        },
        MeterRow { tick, nn: 4, dd: 2 },
    ];
    MeterTable::new(480, &rows)
}

// A table's bars, and one whose second row lies off a bar line.
fn meters(rt: &HostRuntime, table: MeterTable) -> io::Result<()> {
    for t in [1439u32, 1440] {
        let row = table.meter_at(u64::from(t));
        let nn = row.nn;
        let bar = table.bar_reaching(u64::from(t) + 1);
        println!(rt; "tick {t} in a meter of {nn}, the next bar line begins bar {bar} from 0")?;
    }
    let off = meter(1439).map(|_| "taken");
    println!(rt; "a row off a bar line is {}", Answered(off))
}

// Every layer on its own, over positions that are samples.
fn each(rt: &HostRuntime, plain: Ratio, table: MeterTable) -> Result<(), Failure> {
    let delay = Delay::new(plain, 48_000)?;
    show(rt, "delay 48000", &delay, &[0, 1, 99_999, 100_000])?;
    let varispeed = Varispeed::new(plain, 1001, 1000)?;
    show(
        rt,
        "varispeed 1001/1000",
        &varispeed,
        &[0, 1, 24_000, 99_999],
    )?;
    let start = Start::new(plain, 90_000)?;
    show(rt, "start 90000", &start, &[0, 9_999, 10_000])?;
    let film = PullDown::new(plain);
    show(rt, "pull-down", &film, &[0, 1, 2, 3, 4, 39_999, 40_000])?;
    show(rt, "bars", &Bars::new(plain, table), &[0, 1, 2, 3, 52, 53])?;
    Ok(())
}

// Bars on a start on a pull-down on a varispeed on a delay.
fn pile(rt: &HostRuntime, plain: Ratio, table: MeterTable) -> Result<(), Failure> {
    let delay = Delay::new(plain, 1000)?;
    let varispeed = Varispeed::new(delay, 1001, 1000)?;
    let start = Start::new(PullDown::new(varispeed), 100)?;
    let bars = Bars::new(start, table);
    show(rt, "all five", &bars, &[0, 1, 2, 20, 21])?;
    Ok(())
}

fn run(rt: &HostRuntime) -> Result<(), Failure> {
    let frames = Ratio::new(48_048_000, 30_000, 2_589_409)?;
    show(rt, "frames", &frames, &[0, 1, 5, 2_589_408, 2_589_409])?;
    let plain = Ratio::new(1, 1, 100_000)?;
    let table = meter(1440)?;
    meters(rt, table)?;
    each(rt, plain, table)?;
    pile(rt, plain, table)
}

fn main(rt: HostRuntime) -> io::Result<()> {
    run(&rt)?;
    Ok(())
}
