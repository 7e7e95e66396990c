// The requests that a line can make.

// The first word of a line.
#[derive(Clone, Copy, PartialEq, Eq, Debug)]
pub enum Verb {
    Add,
    Strike,
    Seek,
    Play,
    Place,
    Locate,
    Log,
}

#[derive(Clone, Copy)]
pub enum Request<'a> {
    Add { number: u64, label: &'a [u8] },
    Strike { number: u64 },
    Seek { sample: u64 },
    Play { count: u64 },
    Place { position: u64 },
    Locate { sample: u64 },
    Log,
}
