// Positions worked out by hand, as a list: proved together, and run by a program.
#![tactic(auto)]

pub mod list;
pub mod worked;
