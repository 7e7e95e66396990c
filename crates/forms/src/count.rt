// The plain count: a position written as its own number.
ghost use Rattle.std.specs.Prelude.{◌≡◌, ◌^◌};
ghost use Rattle.forms.specs.Count.{plain_number, plain_parts};
ghost use Rattle.std.proofs.Common.{rules};

use crate::form::WrittenForm;
use refusal::Refusal;

// Positions lie below 2^36; said here again, as forms stand on no timebase.
const PLAIN_COUNT: u64 = 1 << 36;

// The number itself, where it is below the count.
fn below_count(n: u64) -> Option<u64>
    ensures { result ≡ plain_number n }
{
    (n < PLAIN_COUNT).then_some(n)
}

#[derive(Clone, Copy)]
pub struct PlainCount;

impl WrittenForm for PlainCount {
    type Value = u64;

    ghost count = { λ _. 2 ^ 36 };

    ghost number = { λ _. plain_number };

    ghost value = { λ _ n. n };

    ghost parts = { λ _. plain_parts };

    ghost paired = { Prim.search rules };

    ghost ordered = { Prim.search rules };

    fn count(&self) -> u64 {
        PLAIN_COUNT
    }

    fn read(&self, v: u64) -> Result<u64, Refusal> {
        below_count(v).ok_or(Refusal::NotWritten)
    }

    fn write(&self, n: u64) -> Result<u64, Refusal> {
        below_count(n).ok_or(Refusal::NotBelowCount)
    }
}
