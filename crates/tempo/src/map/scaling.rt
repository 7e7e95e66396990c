// Sums turned into samples and back, with one rounding.
ghost use Rattle.std.specs.Prelude.{◌≡◌, ◌+◌, ◌*◌, ◌≤◌, min};
ghost use Rattle.tempo.specs.Maps.{samples_of, sum_reaching};

use crate::map::TempoMap;

// 24 hours at the highest rate: no map has a later sample.
const LATEST: u64 = 8_294_400_000;

impl TempoMap {
    // What the rate's microseconds come to in a sum.
    fn span(&self) -> u64
        ensures { result ≡ self.now.division * self.now.rate.micros }
    {
        u64::from(self.division) * self.rate.micros
    }

    // The sample on which a sum falls. Not a `Fraction`: a map's sums pass 2^36, and its division times the rate's
    // microseconds 2^27.
    #[tactic(auto, using(timebase::proofs::Ceiling::ceiling))]
    fn up(&self, x: u64) -> u64
        requires { x ≤ self.now.division * 86400000000 }
        ensures value { result ≡ samples_of self.now x }
        ensures bound { result ≤ 8294400000 }
    {
        (x * self.rate.samples).div_ceil(self.span())
    }

    // The sample of what lies `within` after a row's `sum`: they are added first, and rounded once.
    pub(super) fn sample_after(&self, sum: u64, within: u64) -> u64
        requires { sum + within ≤ self.now.division * 86400000000 }
        ensures { result ≡ samples_of self.now (sum + within) }
    {
        self.up(sum + within)
    }

    // The least sum that falls on `s` or later; an `s` past the latest sample counts as the one after it.
    pub(crate) fn reach(&self, s: u64) -> u64
        ensures { result ≡ sum_reaching self.now (min s 8294400001) }
    {
        if s == 0 {
            return 0;
        }
        (s.min(LATEST + 1) - 1) * self.span() / self.rate.samples + 1
    }
}
