// Playing a block: each cue that it crosses is put to the log.
ghost use Rattle.std.specs.Prelude.{◌≡◌, ℕ, ◌-◌, length, nat_le};
ghost use Rattle.book.specs.Held.{lines, log_room};
ghost use Rattle.history.specs.declared.call.Call.TheVariants.{Play};
ghost use Rattle.history.specs.Laws.{EveryCrossingIsLoggedOnce, APlayAnswersItsLines, CuttingAPlayShowsNowhere};
ghost use Rattle.history.specs.World.{World};
ghost use Rattle.written.specs.Current.{current_at};
ghost use Rattle.deck.specs.Blocks.{line_for};
ghost use Rattle.deck.specs.Runs.{Appends, Logs, Taken, lines_added};

use crate::block::block_end;
use crate::state::Deck;
use crate::world::HasWorld;
use book::cue::{Cue, Line};
use book::pages::Log;
use forms::form::WrittenForm;
use refusal::Refusal;
use std::ops::Range;
use timebase::base::Timebase;
use written::base::WrittenTimebase;

// The line of a cue: its sample and the label current there. A cue past the pile's end has none. Over the
// deck's fields, since `log_all` asks for it while the log is written.
fn line_for<C: Timebase, V: Copy, L: WrittenTimebase>(
    pile: &C,
    frames: &L,
    cue: &Cue<V>,
) -> Option<Line<L::Shown>>
    ensures { (w : World V L.Shown) → w.cues ≡ C.meaning pile.now → w.label ≡ current_at (L.meaning frames.now) (L.form frames.now) → result ≡ line_for w cue.now }
{
    let sample = pile.place(cue.position).ok()?;
    Some(Line {
        cue: cue.number,
        sample,
        label: frames.current(sample),
    })
}

// The lines of some cues put to the log; `play` has seen that the log has room for them. Over the deck's fields, since
// the log is written while the piles and the book are read.
fn log_all<C: Timebase, V: Copy, L: WrittenTimebase>(
    pile: &C,
    frames: &L,
    cues: &[Cue<V>],
    log: &mut Log<'_, L::Shown>,
)
    ensures room { log_room log.new ≡ log_room log.old }
    ensures lines { (w : World V L.Shown) → w.cues ≡ C.meaning pile.now → w.label ≡ current_at (L.meaning frames.now) (L.form frames.now) → Appends w cues.now log.old log.new }
{
    for cue in cues {
        if let Some(line) = line_for(pile, frames, cue) {
            let _ = log.append(line);
        }
    }
}

impl<'m, C: Timebase, F: WrittenForm, L: WrittenTimebase> Deck<'m, C, F, L> {
    // Whether the log has so many lines free.
    fn has_lines(&self, count: usize) -> bool
        ensures { result ≡ nat_le count (log_room self.now.log - length (lines self.now.log)) }
    {
        count <= self.log.free()
    }

    // A line for each cue of a row of the book put to the log.
    fn log_row(&mut self, row: Range<usize>)
        ensures { Logs (⟦<Self as HasWorld>⟧.world self.old) row.start row.end self.old self.new }
    {
        if let Some(cues) = self.book.held().get(row) {
            log_all(&self.pile, &self.frames, cues, &mut self.log);
        }
    }

    // The head moved on by a count of samples, with a line for each cue that the block crosses.
    #[tactic(auto, using(history::proofs::Once::every_crossing_is_logged_once, history::proofs::Once::a_play_answers_its_lines, history::proofs::Cutting::cutting))]
    pub fn play(&mut self, count: u64) -> Result<u64, Refusal>
        ensures run { Taken ℕ (⟦<Self as HasWorld>⟧.world self.old) self.old self.new (Play count) lines_added result }
        ensures once { EveryCrossingIsLoggedOnce F.Value L.Shown }
        ensures counts { APlayAnswersItsLines F.Value L.Shown }
        ensures cutting { CuttingAPlayShowsNowhere F.Value L.Shown }
    {
        let until = block_end(self.head, count).ok_or(Refusal::HeadPastEnd)?;
        let row = self.row(self.head, until);
        let crossed = row.len();
        if !self.has_lines(crossed) {
            return Err(Refusal::NoFreeLines);
        }
        self.log_row(row);
        self.head = until;
        // By `as`, since no From leads from a usize to a u64.
        Ok(crossed as u64)
    }
}
