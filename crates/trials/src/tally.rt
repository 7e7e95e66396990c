// What was tried, added up.
ghost use Rattle.std.specs.Prelude.{◌≡◌, ◌+◌, ◌%◌, ◌^◌, Some};
ghost use Rattle.trials.specs.Fnv.{offset};

use std::fmt;
use std::hash::Hasher;

const OFFSET: u64 = 0xcbf2_9ce4_8422_2325;

const PRIME: u64 = 0x100_0000_01b3;

// The hash FNV-1a, of 64 bits, which the outside programs reckon too.
#[derive(Clone, Copy)]
pub struct Fnv1a(u64);

impl Default for Fnv1a {
    ghost is_default = { λ h. h.0 ≡ offset };

    fn default() -> Fnv1a {
        Fnv1a(OFFSET)
    }
}

impl Hasher for Fnv1a {
    ghost use Rattle.trials.specs.Fnv.{after};

    ghost write = { λ h bytes. record { 0 = after h.0 bytes } };

    ghost finish = { λ h. h.0 };

    fn finish(&self) -> u64 {
        self.0
    }

    fn write(&mut self, bytes: &[u8]) {
        self.0 = bytes.iter().fold(self.0, |hash, byte| {
            (hash ^ u64::from(*byte)).wrapping_mul(PRIME)
        });
    }
}

// A hash of what was written, and the sum of the numbers.
#[derive(Clone, Copy, Default)]
pub struct Tally {
    pub hash: Fnv1a,
    pub sum: u64,
}

impl Tally {
    pub fn add(&mut self, n: u64)
        ensures { self.new ≡ record self.old { sum = (self.old.sum + n) % 2 ^ 64 } }
    {
        self.sum = self.sum.wrapping_add(n);
    }
}

// The hash in 16 hexadecimal digits, then the sum.
impl fmt::Display for Tally {
    ghost use Rattle.trials.specs.Tallies.{tally_text};

    ghost output = { λ t. Some (tally_text t.hash.0 t.sum) };

    fn fmt<W: fmt::Write>(&self, f: &mut fmt::Formatter<W>) -> fmt::Result {
        write!(f, "{:016x} {}", self.hash.finish(), self.sum)
    }
}
