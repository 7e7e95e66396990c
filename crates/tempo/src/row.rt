// The rows of a tempo map, as handed in and as the map holds them.
ghost use Rattle.std.specs.Prelude.{◌≡◌, ◌^◌, ◌<◌};
ghost use Rattle.tempo.specs.Micros.{stretch, whole_stretch};

use rows::row::Row;

// From `tick` on, a quarter note takes `q` microseconds.
#[derive(Clone, Copy, PartialEq, Eq, Debug)]
pub struct TempoRow {
    pub tick: u32,
    pub q: u32,
}

impl Row for TempoRow {
    ghost begins = { λ r. r.tick };

    fn begins(self) -> u64 {
        u64::from(self.tick)
    }
}

impl TempoRow {
    // How far tick `p` lies after the row's own, at the row's tempo, in microseconds times the ticks of a quarter.
    pub(crate) fn stretch(self, p: u64) -> u64
        requires { p < 2 ^ 32 }
        ensures { result ≡ stretch self p }
    {
        p.saturating_sub(self.begins()) * u64::from(self.q)
    }

    // The same up to the row after it.
    pub(crate) fn up_to(self, next: TempoRow) -> u64
        ensures { result ≡ whole_stretch self next }
    {
        u64::from(next.tick.saturating_sub(self.tick)) * u64::from(self.q)
    }
}

// A row in a map, with its running sum: how far its tick lies from tick 0.
#[derive(Clone, Copy)]
pub(crate) struct SummedRow {
    pub(crate) row: TempoRow,
    pub(crate) sum: u64,
}
