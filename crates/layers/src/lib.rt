// Layers: each stands on any timebase and is a timebase again.
#![tactic(auto)]

pub mod change;
pub mod delay;
pub mod on_positions;
pub mod on_samples;
pub mod pile;
pub mod pulldown;
pub mod shift;
pub mod start;
pub mod varispeed;
