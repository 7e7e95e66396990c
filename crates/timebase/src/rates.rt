// The frame rates of film and video, as a table looked up by row.
ghost use Rattle.std.specs.Prelude.{◌≡◌};
ghost use Rattle.timebase.specs.Rates.{row_of};

#[derive(Clone, Copy, PartialEq, Eq, Debug)]
pub enum FrameRate {
    Film23976,
    Film24,
    Pal25,
    Ntsc2997,
    Video30,
    Field5994,
}

// So many frames in so many seconds, and the frames that a second of labels has.
#[derive(Clone, Copy)]
pub struct RateRow {
    pub frames: u64,
    pub seconds: u64,
    pub labels: u64,
}

const FRAME_RATES: [RateRow; 6] = [
    RateRow {
        frames: 24_000,
        seconds: 1001,
        labels: 24,
    },
    RateRow {
        frames: 24,
        seconds: 1,
        labels: 24,
    },
    RateRow {
        frames: 25,
        seconds: 1,
        labels: 25,
    },
    RateRow {
        frames: 30_000,
        seconds: 1001,
        labels: 30,
    },
    RateRow {
        frames: 30,
        seconds: 1,
        labels: 30,
    },
    // fields: two make a frame, and only frames carry labels
    RateRow {
        frames: 60_000,
        seconds: 1001,
        labels: 0,
    },
];

impl FrameRate {
    // The rate's row of the table.
    pub fn row(self) -> RateRow
        ensures { result ≡ row_of self }
    {
        FRAME_RATES[self as usize]
    }
}
