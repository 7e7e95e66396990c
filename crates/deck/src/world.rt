// What the calls of a deck are read with.
ghost use Rattle.history.specs.World.{World};
ghost use Rattle.deck.specs.Runs.{world_of};

use crate::state::Deck;
use forms::form::WrittenForm;
use timebase::base::Timebase;
use written::base::WrittenTimebase;

// The world is a trait's ghost member: a struct that holds a `&mut` can have neither a ghost field nor a Model.
pub trait HasWorld {
    type Written;

    type Shown;

    // Piles, form and memory, as the calls' meaning sees them.
    ghost world: { Self → World Self.Written Self.Shown };
}

impl<'m, C: Timebase, F: WrittenForm, L: WrittenTimebase> HasWorld for Deck<'m, C, F, L> {
    type Written = F::Value;

    type Shown = L::Shown;

    ghost world = { λ d. world_of C.meaning F.number L.meaning L.form d };
}
