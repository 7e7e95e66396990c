// Text as operators read and write it: plain decimals, and a writer that fills a lent buffer.
#![tactic(auto)]

pub mod decimal;
pub mod line;
pub mod writer;
