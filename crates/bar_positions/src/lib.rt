// Bar positions: positions in ticks written as bar, beat and tick of a meter table.
#![tactic(auto)]

pub mod position;
pub mod spelling;
