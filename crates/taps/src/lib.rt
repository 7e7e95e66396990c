// Taps: a table of samples that never falls, as a timebase.
#![tactic(auto)]

mod finding;
mod rules;
pub mod table;
