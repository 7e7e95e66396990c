// Rows that each begin somewhere, in order, as tempos, meters and taps do; and how many have begun, by halving.
#![tactic(auto)]

pub mod halving;
pub mod row;
