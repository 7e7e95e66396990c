// Positions on taps, and the list of positions worked out by hand, each asked of the engine's calls.
#![tactic(auto)]

mod listed;
mod tapped;

use crate::listed::listed;
use crate::tapped::tapped;
use std::io;

fn main(rt: HostRuntime) -> io::Result<()> {
    tapped(&rt)?;
    listed(&rt)?;
    Ok(())
}
