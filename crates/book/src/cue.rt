// What stands in the book and in the log.

// A cue: its number and its written form. The position is the number of the written form, kept beside it
// since the order of written forms is that of their numbers.
#[derive(Clone, Copy)]
pub struct Cue<V> {
    pub position: u64,
    pub number: u64,
    pub at: V,
}

// A line of the log: which cue was crossed, on which sample, and the label current there.
#[derive(Clone, Copy)]
pub struct Line<L> {
    pub cue: u64,
    pub sample: u64,
    pub label: Option<L>,
}
