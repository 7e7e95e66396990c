// A book and a log, each of memory that the host lends.
use crate::cue::{Cue, Line};
use crate::edits::MOST_CUES;
use crate::lent::Lent;
use crate::record::MOST_LINES;

#[derive(Drop)]
pub struct Book<'m, V> {
    pub(crate) cues: Lent<'m, Cue<V>, MOST_CUES>,
}

#[derive(Drop)]
pub struct Log<'m, L> {
    pub(crate) lines: Lent<'m, Line<L>, MOST_LINES>,
}
