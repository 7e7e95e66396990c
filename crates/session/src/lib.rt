// Operators' requests carried out on a deck.
#![tactic(auto)]

pub mod carry;
