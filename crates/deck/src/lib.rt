// The deck: a cue book, a log and a head over any pile for the cues and any written timebase for the log.
#![tactic(auto)]

mod block;
pub mod calls;
pub mod finding;
pub mod playing;
pub mod reading;
pub mod state;
pub mod world;
