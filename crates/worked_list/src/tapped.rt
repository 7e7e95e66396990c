// Taps: a table that stands still and leaps, and tables that are refused.
use std::io;
use taps::table::Taps;
use timebase::base::{LAST_SAMPLE, Timebase};
use trials::answered::Answered;
use trials::spot::asked;

// A table of these samples, made or refused.
fn table(rt: &HostRuntime, name: &str, samples: &[u64]) -> io::Result<()> {
    let made = Taps::new(rt.alloc(), samples).map(|_| "taken");
    println!(rt; "{name} is {}", Answered(made))
}

// The length, and what is answered of each position. In each program, since by a rule of this repository a shared function
// has a contract, and one that only prints has nothing for it to say.
fn show(rt: &HostRuntime, taps: &Taps, positions: &[u64]) -> io::Result<()> {
    println!(rt; "taps: {} positions", taps.len())?;
    for p in positions {
        println!(rt; "{p} {}", Answered(asked(taps, *p)))?;
    }
    Ok(())
}

// Without memory for the first table the others are tried all the same.
pub(crate) fn tapped(rt: &HostRuntime) -> io::Result<()> {
    if let Ok(taps) = Taps::new(rt.alloc(), &[0, 100, 100, 250, LAST_SAMPLE]) {
        show(rt, &taps, &[0, 1, 2, 3, 4, 5])?;
    }
    table(rt, "a table of no taps", &[])?;
    table(rt, "a table that falls", &[5, 4])?;
    table(rt, "a tap past the last sample", &[0, LAST_SAMPLE + 1])?;
    table(rt, "a table of 4096 taps", &[7; 4096])?;
    table(rt, "a table of 4097 taps", &[7; 4097])
}
