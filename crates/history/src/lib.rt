// A deck's calls as data, and what a list of them means.
#![tactic(auto)]

pub mod call;
