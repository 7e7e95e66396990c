// The calls of a deck that change it.
ghost use Rattle.std.specs.Prelude.{◌≡◌, not};
ghost use Rattle.history.specs.declared.call.Call.TheVariants.{Add, Strike, Seek};
ghost use Rattle.history.specs.Accepted.{out_of_range};
ghost use Rattle.deck.specs.Blocks.{position_of};
ghost use Rattle.deck.specs.Runs.{Taken, done};

use crate::state::Deck;
use crate::world::HasWorld;
use book::cue::Cue;
use forms::form::WrittenForm;
use refusal::Refusal;
use timebase::base::{END, Timebase};
use written::base::WrittenTimebase;

// Cue numbers run from 1 to 999,999.
fn in_range(number: u64) -> bool
    ensures { out_of_range number ≡ not result }
{
    (1..=999_999).contains(&number)
}

impl<'m, C: Timebase, F: WrittenForm, L: WrittenTimebase> Deck<'m, C, F, L> {
    // The position of a written form, refused where it is not valid, and then where the pile is too short.
    fn position_of(&self, at: F::Value) -> Result<u64, Refusal>
        ensures { result ≡ position_of (F.number self.now.form at) (C.meaning self.now.pile).len }
    {
        let position = self.form.read(at)?;
        (position < self.pile.len())
            .then_some(position)
            .ok_or(Refusal::NoPosition)
    }

    // A cue put into the book.
    pub fn add(&mut self, number: u64, at: F::Value) -> Result<(), Refusal>
        ensures { Taken (Unit {0}) (⟦<Self as HasWorld>⟧.world self.old) self.old self.new (Add number at) done result }
    {
        if !in_range(number) {
            return Err(Refusal::CueOutOfRange);
        }
        if self.book.has(number) {
            return Err(Refusal::CueAlreadyIn);
        }
        let position = self.position_of(at)?;
        self.book.enter(Cue {
            position,
            number,
            at,
        })
    }

    // A cue taken out of the book by its number.
    pub fn strike(&mut self, number: u64) -> Result<(), Refusal>
        ensures { Taken (Unit {0}) (⟦<Self as HasWorld>⟧.world self.old) self.old self.new (Strike number) done result }
    {
        if !in_range(number) {
            return Err(Refusal::CueOutOfRange);
        }
        self.book.strike(number)
    }

    // The head set to a sample, or to the one after the last.
    pub fn seek(&mut self, head: u64) -> Result<(), Refusal>
        ensures { Taken (Unit {0}) (⟦<Self as HasWorld>⟧.world self.old) self.old self.new (Seek head) done result }
    {
        if head > END {
            return Err(Refusal::HeadPastEnd);
        }
        self.head = head;
        Ok(())
    }
}
