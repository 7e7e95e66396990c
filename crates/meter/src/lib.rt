// Meter: the table of meters of a show, the ticks at which its bars begin, and bars as a timebase.
#![tactic(auto)]

pub mod bars;
mod beats;
pub mod row;
mod rules;
pub mod table;
