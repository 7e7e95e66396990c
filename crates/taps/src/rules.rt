// The rules of a table of taps, tried entry by entry.
ghost use Rattle.std.specs.Prelude.{◌≡◌, ◌≤◌, ◌↔◌, IsTrue, EachIndex, slice_index};
ghost use Rattle.std.specs.List.Sorted.{IsNonDecreasing};
ghost use Rattle.timebase.specs.Meaning.{last_sample};
ghost use Rattle.taps.specs.Rules.{never_falls, short};

use timebase::base::LAST_SAMPLE;

const MOST: usize = 4096;

// Whether there are no more entries than a table may have.
pub(crate) fn few(samples: &[u64]) -> bool
    ensures { result ≡ short samples.now }
{
    samples.len() <= MOST
}

fn never_back(samples: &[u64]) -> bool
    ensures { IsTrue result ↔ IsNonDecreasing samples.now }
{
    // By a test of its own, and not `is_sorted`, which proves: the edit that forbids two taps together turns this test, and is
    // to be refused for its meaning.
    samples.is_sorted_by(|before, next| before <= next)
}

// Whether none of the samples, which are in order, is past the last sample: the last of them is the highest.
fn all_exist(samples: &[u64]) -> bool
    requires { IsNonDecreasing samples.now }
    ensures { IsTrue result ↔ EachIndex samples.now (λ k. slice_index samples.now k ≤ last_sample) }
{
    let [.., last] = samples else {
        return true;
    };
    *last <= LAST_SAMPLE
}

// Whether no entry is lower than the one before it or past the last sample.
pub(crate) fn climbs(samples: &[u64]) -> bool
    ensures { result ≡ never_falls 0 samples.now }
{
    never_back(samples) && all_exist(samples)
}
