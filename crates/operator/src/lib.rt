// What operators ask in lines of text, and how they are answered.
#![tactic(auto)]

pub mod answer;
pub mod line;
pub mod request;
mod words;
