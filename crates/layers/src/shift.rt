// A shift: every number falls n later.
ghost use Rattle.std.specs.Prelude.{◌≡◌, ◌^◌, ◌≤◌, IfOk, nat_le};
ghost use Rattle.std.specs.Result.{result_err};
ghost use Rattle.layers.specs.Layers.{made_if, shifted, shifted_back};
ghost use Rattle.layers.specs.Pairs.{shift_pair, shift_ahead};

use crate::change::{AheadChange, Change, END};
use refusal::Refusal;

#[derive(Clone, Copy)]
pub struct Shift {
    pub(crate) n: u64,
    ghost small: { n ≤ 2 ^ 36 },
}

impl Shift {
    // Refused where n is over `most`.
    pub(crate) fn new(n: u64, most: u64) -> Result<Self, Refusal>
        requires { most ≤ 2 ^ 36 }
        ensures cases { result_err result ≡ made_if (nat_le n most) }
        ensures made { IfOk result (λ g. g.n ≡ n) }
    {
        if n > most {
            return Err(Refusal::BadMaking);
        }
        Ok(Shift { n })
    }
}

impl Change for Shift {
    ghost up = { λ g. shifted g.n };

    ghost back = { λ g. shifted_back g.n };

    ghost pair = { λ g. shift_pair g.n };

    fn up(&self, n: u64) -> u64 {
        n.min(END) + self.n
    }

    fn back(&self, n: u64) -> u64 {
        n.min(END).saturating_sub(self.n)
    }
}

impl AheadChange for Shift {
    ghost ahead = { λ g. shift_ahead g.n };
}
