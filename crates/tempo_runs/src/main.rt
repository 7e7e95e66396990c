// Places ticks by many tempo maps and prints what an outside MIDI file library is asked for too: for each map and sample
// rate the samples of some ticks, then of all a hash with their tempos, and the sum; then maps at the edges of the rules.
#![tactic(auto)]

use crate::edges::edges;
use crate::plans::{PLANS, Plan};
use crate::tries::all_tried;
use std::io;
use tempo::map::TempoMap;
use tempo::row::TempoRow;
use trials::failure::Failure;

mod edges;
mod plans;
mod tries;

const SAMPLE_RATES: [u32; 4] = [44_100, 48_000, 88_200, 96_000];

// How many ticks of the plan's map were located.
fn run(rt: &HostRuntime, plan: Plan, rows: &[TempoRow], sample_rate: u32) -> Result<u64, Failure> {
    let seed = plan.seed;
    let count = rows.len();
    let last = rows
        .last()
        .map_or(0, |row| row.tick.wrapping_add(plan.after));
    match TempoMap::new(rt.alloc(), plan.division, rows, last, sample_rate) {
        Ok(map) => {
            let division = map.division();
            print!(rt; "map {seed}, division {division}, rows {count}, at {sample_rate}:")?;
            let tried = all_tried(rt, &map, rows, plan.between)?;
            println!(rt; "; {}", tried.tally)?;
            Ok(tried.located)
        }
        Err(why) => {
            println!(rt; "map {seed} {why}")?;
            Ok(0)
        }
    }
}

fn main(rt: HostRuntime) -> io::Result<()> {
    let mut located: u64 = 0;
    for row in PLANS {
        let plan = Plan::from(row);
        let rows = plan.draw(rt.alloc())?;
        for sample_rate in SAMPLE_RATES {
            located = located.wrapping_add(run(&rt, plan, &rows, sample_rate)?);
        }
    }
    println!(rt; "located {located} ticks")?;
    edges(&rt)
}
