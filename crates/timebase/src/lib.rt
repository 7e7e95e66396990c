// Timebases: a length and a rule that gives each position below it a sample.
#![tactic(auto)]

pub mod base;
pub mod fraction;
pub mod rates;
pub mod ratio;
