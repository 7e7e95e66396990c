// The sample rates that a tempo map may have, as a table looked up by row.
ghost use Rattle.std.specs.Prelude.{◌≡◌, true, is_some, IfSome};
ghost use Rattle.tempo.specs.Rates.{known_rate, samples_at, micros_at};

// A sample rate: so many samples in so many microseconds, in lowest terms.
#[derive(Clone, Copy)]
pub struct SampleRateRow {
    pub sample_rate: u32,
    pub samples: u64,
    pub micros: u64,
    ghost known: { known_rate sample_rate ≡ true },
    ghost rated: { samples ≡ samples_at sample_rate },
    ghost timed: { micros ≡ micros_at sample_rate },
}

const SAMPLE_RATES: [SampleRateRow; 4] = [
    SampleRateRow {
        sample_rate: 44_100,
        samples: 441,
        micros: 10_000,
    },
    SampleRateRow {
        sample_rate: 48_000,
        samples: 6,
        micros: 125,
    },
    SampleRateRow {
        sample_rate: 88_200,
        samples: 441,
        micros: 5000,
    },
    SampleRateRow {
        sample_rate: 96_000,
        samples: 12,
        micros: 125,
    },
];

// The rate's row of the table; None where the rate is not one of the four.
pub fn rate_row(sample_rate: u32) -> Option<SampleRateRow>
    ensures cases { is_some result ≡ known_rate sample_rate }
    ensures row { IfSome result (λ row. row.sample_rate ≡ sample_rate) }
    ensures samples { IfSome result (λ row. row.samples ≡ samples_at sample_rate) }
    ensures micros { IfSome result (λ row. row.micros ≡ micros_at sample_rate) }
{
    SAMPLE_RATES
        .iter()
        .copied()
        .find(|row| sample_rate == row.sample_rate)
}
