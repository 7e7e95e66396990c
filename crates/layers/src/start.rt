// The start: position 0 is the lower timebase's position m.
ghost use Rattle.std.specs.Prelude.{◌≡◌, IfOk};
ghost use Rattle.std.specs.Result.{result_err};
ghost use Rattle.layers.specs.Layers.{start_refusal};

use crate::change::END;
use crate::on_positions::OnPositions;
use crate::shift::Shift;
use refusal::Refusal;

pub type Start<T> = OnPositions<T, Shift>;

impl<T: Drop> Start<T> {
    // Refused where m is over 2^36, the longest that a timebase can be.
    pub fn new(lower: T, m: u64) -> Result<Self, Refusal>
        ensures cases { result_err result ≡ start_refusal m }
        ensures made { IfOk result (λ t. (t.lower ≡ lower) × (t.change.n ≡ m)) }
    {
        let change = Shift::new(m, END)?;
        Ok(OnPositions { lower, change })
    }
}
