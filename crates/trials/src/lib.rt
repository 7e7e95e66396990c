// What the programs that try the engine share: a tally of what was tried, answers and what a timebase answers as text, and
// why a program ends early.
#![tactic(auto)]

pub mod answered;
pub mod failure;
pub mod spot;
pub mod tally;
