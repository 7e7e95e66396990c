// A row of a meter table, as handed in: from `tick` on, a bar is `nn` notes of which 2^`dd` make a whole note.
#[derive(Clone, Copy, PartialEq, Eq, Debug)]
pub struct MeterRow {
    pub tick: u32,
    pub nn: u8,
    pub dd: u8,
}

// A row as a table keeps it, with how many bars lie before it.
#[derive(Clone, Copy)]
pub(crate) struct CountedRow {
    pub(crate) row: MeterRow,
    pub(crate) before: u32,
}
