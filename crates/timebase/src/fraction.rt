// A fraction to multiply by, with one rounding, upward.
ghost use Rattle.std.specs.Prelude.{◌≡◌, ◌^◌, ◌<◌, ◌≤◌, min, is_some, IfSome};
ghost use Rattle.timebase.specs.Scale.{scaled, reached, in_range};

use crate::base::END;

// The most that a fraction's two numbers can be: times a sample it still fits 64 bits.
pub(crate) const MOST: u64 = 1 << 27;

#[derive(Clone, Copy)]
pub struct Fraction {
    n: u64,
    d: u64,
    ghost some: { 0 < n },
    ghost small: { n ≤ 2 ^ 27 },
    ghost whole: { 0 < d },
    ghost fine: { d ≤ 2 ^ 27 },
}

impl Fraction {
    // None where a number is 0, over `most` or over 2^27.
    pub fn new(n: u64, d: u64, most: u64) -> Option<Self>
        ensures cases { is_some result ≡ in_range n d (min most (2 ^ 27)) }
        ensures made { IfSome result (λ f. (f.n ≡ n) × (f.d ≡ d)) }
    {
        let most = most.min(MOST);
        if n == 0 || n > most || d == 0 || d > most {
            return None;
        }
        Some(Fraction { n, d })
    }

    // x × n ÷ d rounded up; an x past 2^36 counts as 2^36.
    #[tactic(auto, using(crate::specs::Scales::small_product, crate::proofs::Ceiling::ceiling))]
    pub fn up(&self, x: u64) -> u64
        ensures { result ≡ scaled self.now.n self.now.d (min x (2 ^ 36)) }
    {
        (x.min(END) * self.n).div_ceil(self.d)
    }

    // The least x whose `up` is at least s; an s past 2^36 counts as 2^36.
    #[tactic(auto, using(crate::specs::Scales::small_product))]
    pub fn reach(&self, s: u64) -> u64
        ensures { result ≡ reached self.now.n self.now.d (min s (2 ^ 36)) }
    {
        if s == 0 {
            return 0;
        }
        (s.min(END) - 1) * self.d / self.n + 1
    }
}
