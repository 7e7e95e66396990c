// The cue on a sample.
ghost use Rattle.std.specs.Prelude.{List};
ghost use Rattle.history.specs.Accepted.{accepted};
ghost use Rattle.history.specs.declared.call.Call.{Call};
ghost use Rattle.deck.specs.Finds.{Found};
ghost use Rattle.deck.specs.Runs.{HasHad};

use crate::state::Deck;
use crate::world::HasWorld;
use forms::form::WrittenForm;
use timebase::base::{LAST_SAMPLE, Timebase};
use written::base::WrittenTimebase;

impl<'m, C: Timebase, F: WrittenForm, L: WrittenTimebase> Deck<'m, C, F, L> {
    // The number of a cue whose sample is this one; none exactly if there is no such cue. The cues on a sample are those
    // of a block of that sample alone.
    pub fn find(&self, sample: u64) -> Option<u64>
        ensures { let w = ⟦<Self as HasWorld>⟧.world self.now in (calls : List (Call F.Value)) → HasHad w calls self.now → Found w (accepted w calls) sample result }
    {
        if sample > LAST_SAMPLE {
            return None;
        }
        let row = self.row(sample, sample + 1);
        if row.is_empty() {
            return None;
        }
        self.book.at(row.start).map(|cue| cue.number)
    }
}
