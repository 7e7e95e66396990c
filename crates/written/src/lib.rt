// Written timebases: a timebase that also says which written form is current at a sample.
#![tactic(auto)]

pub mod base;
