// One request carried out on a deck whose cues are written in any form that has a text.
ghost use Rattle.std.specs.Prelude.{◌≡◌};
ghost use Rattle.layers.specs.Piles.{PlaceAndLocateAgree};
ghost use Rattle.history.specs.Laws.{EveryCrossingIsLoggedOnce, APlayAnswersItsLines, CuttingAPlayShowsNowhere};
ghost use Rattle.operator.specs.Requests.{said};
ghost use Rattle.session.specs.Replies.{Carried};

use deck::state::Deck;
use deck::world::HasWorld;
use forms::form::TextForm;
use operator::answer::{Answer, Fault};
use operator::request::Request;
use refusal::Refusal;
use timebase::base::Timebase;
use written::base::WrittenTimebase;

// The reply to a line that is carried out: one line of text, or the lines of the log.
#[derive(Clone, Copy, PartialEq, Eq, Debug)]
pub enum Reply {
    Answered(Answer),
    Listing,
}

// What one request does to the deck; a line that asks nothing leaves it as it is.
fn carry<'m, C: Timebase, F: TextForm, L: WrittenTimebase>(
    deck: &mut Deck<'m, C, F, L>,
    request: Option<Request<'_>>,
) -> Result<Reply, Fault>
    ensures { Carried (F.spelt deck.old.form) (⟦<Deck<'m, C, F, L> as HasWorld>⟧.world deck.old) deck.old deck.new (said request.entry) result }
{
    let answer = match request.ok_or(Fault::Unreadable)? {
        Request::Add { number, label } => {
            let at = deck.form().value_of(label);
            deck.add(number, at)?;
            Answer::Done
        }
        Request::Strike { number } => {
            deck.strike(number)?;
            Answer::Done
        }
        Request::Seek { sample } => {
            deck.seek(sample)?;
            Answer::Done
        }
        Request::Play { count } => Answer::Lines(deck.play(count)?),
        Request::Place { position } => Answer::Sample(deck.place(position)?),
        Request::Locate { sample } => Answer::Position(deck.locate(sample)),
        Request::Log => return Ok(Reply::Listing),
    };
    Ok(Reply::Answered(answer))
}

// One request carried out, under the laws of the deck and of its piles.
pub fn carry_out<'m, C: Timebase, F: TextForm, L: WrittenTimebase>(
    deck: &mut Deck<'m, C, F, L>,
    request: Option<Request<'_>>,
) -> Result<Reply, Fault>
    ensures carried { Carried (F.spelt deck.old.form) (⟦<Deck<'m, C, F, L> as HasWorld>⟧.world deck.old) deck.old deck.new (said request.entry) result }
    ensures agree { PlaceAndLocateAgree }
    ensures once { EveryCrossingIsLoggedOnce F.Value L.Shown }
    ensures counts { APlayAnswersItsLines F.Value L.Shown }
    ensures cutting { CuttingAPlayShowsNowhere F.Value L.Shown }
{
    carry(deck, request)
}
