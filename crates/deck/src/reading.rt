// Power-up, and what can be read of a deck.
ghost use Rattle.std.specs.Prelude.{◌≡◌, ℕ, min, List, [], length};
ghost use Rattle.timebase.specs.Meaning.{placed, Least, Agree};
ghost use Rattle.layers.specs.Piles.{PlaceAndLocateAgree};
ghost use Rattle.book.specs.Held.{cues, room, lines as written, log_room};
ghost use Rattle.history.specs.declared.call.Call.{Call};
ghost use Rattle.deck.specs.Runs.{HasHad};
ghost use Rattle.deck.specs.Order.{InWrittenOrder};

use crate::state::Deck;
use crate::world::HasWorld;
use book::cue::{Cue, Line};
use book::pages::{Book, Log};
use forms::form::WrittenForm;
use layers::pile::locate_on;
use refusal::Refusal;
use timebase::base::Timebase;
use written::base::WrittenTimebase;

impl<'m, C: Timebase, F: WrittenForm, L: WrittenTimebase> Deck<'m, C, F, L> {
    // A deck at power-up, over memory that the host lends: book and log are empty, and the head is 0.
    pub fn new(
        pile: C,
        form: F,
        frames: L,
        places: &'m mut [Cue<F::Value>],
        lines: &'m mut [Line<L::Shown>],
    ) -> Self
        ensures starts { HasHad (⟦<Self as HasWorld>⟧.world result) [] result }
        ensures pile { result.pile ≡ pile }
        ensures form { result.form ≡ form }
        ensures frames { result.frames ≡ frames }
        ensures room { room result.book ≡ min (length places.old) 4096 }
        ensures log_room { log_room result.log ≡ min (length lines.old) 65535 }
    {
        Deck {
            pile,
            form,
            frames,
            book: Book::new(places),
            log: Log::new(lines),
            head: 0,
        }
    }

    pub fn head(&self) -> u64
        ensures { result ≡ self.now.head }
    {
        self.head
    }

    // The written form of the cues.
    pub fn form(&self) -> &F
        ensures { result.now ≡ self.now.form }
    {
        &self.form
    }

    // The cues of the book: by written form, part by part from the left, and then by number.
    pub fn cues(&self) -> &[Cue<F::Value>]
        ensures value { result.now ≡ cues self.now.book }
        ensures ordered { (calls : List (Call F.Value)) → HasHad (⟦<Self as HasWorld>⟧.world self.now) calls self.now → InWrittenOrder (F.parts self.now.form) result.now }
    {
        self.book.held()
    }

    // The lines of the log, the oldest first.
    pub fn lines(&self) -> &[Line<L::Shown>]
        ensures { result.now ≡ written self.now.log }
    {
        self.log.held()
    }

    // The sample of a position of the cue pile.
    pub fn place(&self, p: u64) -> Result<u64, Refusal>
        ensures { result ≡ placed (C.meaning self.now.pile) p }
    {
        self.pile.place(p)
    }

    // The least position of the cue pile whose sample is at least `s`, or its length.
    pub fn locate(&self, s: u64) -> u64
        ensures least { Least (C.meaning self.now.pile) s result }
        ensures agrees { Agree (C.meaning self.now.pile) s result }
        ensures law { PlaceAndLocateAgree }
    {
        locate_on(&self.pile, s)
    }
}
