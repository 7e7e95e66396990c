// A block of samples: where it ends, and where its cues stand in the book.
ghost use Rattle.std.specs.Prelude.{◌≡◌};
ghost use Rattle.book.specs.Held.{cues};
ghost use Rattle.deck.specs.Blocks.{block_end, Row};

use crate::state::Deck;
use forms::form::WrittenForm;
use std::ops::Range;
use timebase::base::{END, Timebase};
use written::base::WrittenTimebase;

// Where a block of `count` samples from the head ends, if that is not past the sample after the last.
pub(crate) fn block_end(head: u64, count: u64) -> Option<u64>
    ensures { result ≡ block_end head count }
{
    head.checked_add(count).filter(|until| *until <= END)
}

impl<'m, C: Timebase, F: WrittenForm, L: WrittenTimebase> Deck<'m, C, F, L> {
    // Where the cues from one sample to below another stand in the book. Since samples never fall along positions,
    // they stand in a row, and two halvings at most find its ends.
    pub(crate) fn row(&self, from: u64, until: u64) -> Range<usize>
        ensures { Row F.Value (C.meaning self.now.pile) (cues self.now.book) from until result.start result.end }
    {
        let low = self.pile.locate(from);
        let high = self.pile.locate(until);
        let start = self.book.below(low);
        // Where no position lies between, as in most short blocks, the first halving tells both ends.
        let end = if low == high {
            start
        } else {
            self.book.below(high)
        };
        start..end
    }
}
