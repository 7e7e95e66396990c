// What can be done with a book.
ghost use Rattle.std.specs.Prelude.{◌≡◌, ◌<◌, ◌≤◌, min, [], length, is_ok, Ok, Err, if◌then◌else◌, MatchOption, nat_lt, slice_index_or};
ghost use Rattle.refusal.specs.declared.Refusal.TheVariants.{NoFreePlace, CueNotIn};
ghost use Rattle.book.specs.declared.cue.Cue.{Cue};
ghost use Rattle.book.specs.Cues.{entered, has, struck, Rising, Splits};
ghost use Rattle.book.specs.Held.{cues, room};

use crate::cue::Cue;
use crate::lent::Lent;
use crate::pages::Book;
use refusal::Refusal;

// How many places a book uses at most.
pub const MOST_CUES: usize = 4096;

impl<'m, V: Copy> Book<'m, V> {
    // An empty book over the lent places.
    pub fn new(places: &'m mut [Cue<V>]) -> Self
        ensures empty { cues result ≡ [] }
        ensures room { room result ≡ min (length places.old) 4096 }
    {
        Book {
            cues: Lent::new(places),
        }
    }

    // The cues, in the book's order.
    pub fn held(&self) -> &[Cue<V>]
        ensures { result.now ≡ cues self.now }
    {
        self.cues.held()
    }

    // The cue at a place, counted from 0.
    pub fn at(&self, i: usize) -> Option<Cue<V>>
        ensures { MatchOption result (length (cues self.now) ≤ i) (λ x. (i < length (cues self.now)) × ((d : Cue V) → x ≡ slice_index_or (cues self.now) i d)) }
    {
        self.held().get(i).copied()
    }

    // Whether a cue of this number is in.
    #[tactic(auto, using(crate::proofs::Found::has_found))]
    pub fn has(&self, number: u64) -> bool
        ensures { result ≡ has number (cues self.now) }
    {
        self.place_of(number).is_some()
    }

    // How many cues stand below a position, found by halving.
    pub fn below(&self, position: u64) -> usize
        ensures bound { result ≤ length (cues self.now) }
        ensures splits { Rising (cues self.now) → Splits V (cues self.now) position result }
    {
        self.held().partition_point(|cue| cue.position < position)
    }

    // One cue more, in its place by the book's order, refused where no place is free.
    pub fn enter(&mut self, cue: Cue<V>) -> Result<(), Refusal>
        ensures value { result ≡ (if nat_lt (length (cues self.old)) (room self.old) then Ok tt else Err NoFreePlace) }
        ensures after { cues self.new ≡ (if is_ok result then entered cue (cues self.old) else cues self.old) }
        ensures room { room self.new ≡ room self.old }
    {
        if self.cues.free() == 0 {
            return Err(Refusal::NoFreePlace);
        }
        let i = self.entry_of(&cue);
        self.cues.insert(i, cue);
        Ok(())
    }

    // The cue of a number taken out, refused where none is in.
    #[tactic(auto, using(crate::proofs::Found::struck_found, crate::proofs::Found::struck_none, crate::proofs::Found::has_found))]
    pub fn strike(&mut self, number: u64) -> Result<(), Refusal>
        ensures value { result ≡ (if has number (cues self.old) then Ok tt else Err CueNotIn) }
        ensures after { cues self.new ≡ struck number (cues self.old) }
        ensures room { room self.new ≡ room self.old }
    {
        let i = self.place_of(number).ok_or(Refusal::CueNotIn)?;
        self.cues.remove(i);
        Ok(())
    }
}
