// The cue book and the log, over memory that the host lends.
#![tactic(auto)]

pub mod cue;
pub mod edits;
mod lent;
pub mod pages;
pub mod record;
mod scan;
