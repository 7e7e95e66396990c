// Looking through a book from the front.
ghost use Rattle.std.specs.Prelude.{◌≡◌, position};
ghost use Rattle.std.specs.List.{prefix_len};
ghost use Rattle.book.specs.Cues.{earlier, numbered};
ghost use Rattle.book.specs.Held.{cues};

use crate::cue::Cue;
use crate::pages::Book;

// By position, then by number. No comparison of pairs: compiled, that makes both tests for every cue that is walked past.
fn is_earlier<V: Copy>(a: &Cue<V>, b: &Cue<V>) -> bool
    ensures { result ≡ earlier a.now b.now }
{
    a.position < b.position || (a.position == b.position && a.number < b.number)
}

impl<'m, V: Copy> Book<'m, V> {
    // Where a cue enters: behind those in front that are before it. Nothing here says that the cues rise, so no halving.
    pub(crate) fn entry_of(&self, cue: &Cue<V>) -> usize
        ensures { result ≡ prefix_len (λ x. earlier x cue.now) (cues self.now) }
    {
        self.held()
            .iter()
            .take_while(|x| is_earlier(x, cue))
            .count()
    }

    // Where the first cue of a number stands.
    pub(crate) fn place_of(&self, number: u64) -> Option<usize>
        ensures { result ≡ position (numbered number) (cues self.now) }
    {
        self.held().iter().position(|x| x.number == number)
    }
}
