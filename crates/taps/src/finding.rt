// The first entry that reaches a sample.
ghost use Rattle.std.specs.Prelude.{◌≡◌, ◌-◌, ◌<◌, true};
ghost use Rattle.rows.specs.Begun.{Begun};
ghost use Rattle.timebase.specs.Meaning.{Least};
ghost use Rattle.taps.specs.Rules.{never_falls};
ghost use Rattle.taps.specs.Tables.{taps_meaning};

use rows::halving::begun_by;

// How many entries lie before `s`: those that have begun at the sample before it.
fn lying_before(samples: &[u64], s: u64) -> usize
    requires { 0 < s }
    ensures { Begun (λ n. n) samples.now (s - 1) result }
{
    begun_by(samples, s - 1)
}

// The least index whose entry is at least `s`, or the number of entries.
pub(crate) fn first_from(samples: &[u64], s: u64) -> usize
    requires { never_falls 0 samples.now ≡ true }
    ensures { Least (taps_meaning samples.now) s result }
{
    if s == 0 {
        return 0;
    }
    lying_before(samples, s)
}
