// Tempo: a tempo map as a timebase, whose positions are ticks.
#![tactic(auto)]

pub mod base;
mod draft;
pub mod map;
pub mod rates;
pub mod row;
mod sums;
