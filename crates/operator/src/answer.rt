// What a request is answered, and the line that says so.
ghost use Rattle.std.specs.Prelude.{◌≡◌, ◌≤◌, true, [], ◌∷◌, ◌++◌, length, Ok};
ghost use Rattle.text.specs.Decimal.{digits};
ghost use Rattle.text.specs.Writer.{Appends, has_room};
ghost use Rattle.operator.specs.Answers.{answer_text};
ghost use Rattle.operator.specs.declared.answer.Fault.TheVariants.{Refused};

use refusal::Refusal;
use text::decimal::width;
use text::writer::TextWriter;

// What a request that is carried out is answered.
#[derive(Clone, Copy, PartialEq, Eq, Debug)]
pub enum Answer {
    Done,
    Lines(u64),
    Sample(u64),
    Position(u64),
}

// Why a line is not carried out.
#[derive(Clone, Copy, PartialEq, Eq, Debug)]
pub enum Fault {
    Unreadable,
    Refused(Refusal),
}

impl From<Refusal> for Fault {
    ghost from_gives = { λ why fault. fault ≡ Refused why };

    fn from(why: Refusal) -> Fault {
        Self::Refused(why)
    }
}

// A line of a lead and a number, of which nothing is written where it does not fit whole.
fn write_number(w: &mut TextWriter, lead: &[u8], n: u64) -> Result<(), Refusal>
    requires { length lead.now ≤ 8 }
    ensures value { Appends (lead.now ++ (digits n ++ (10 ∷ []))) w.old w.new result }
    ensures succeeds { has_room 32 w.old ≡ true → result ≡ Ok tt }
{
    if !w.has_room(lead.len() + width(n) + 1) {
        return Err(Refusal::ShortBuffer);
    }
    w.word(lead)?;
    w.number(n)?;
    w.byte(b'\n')
}

// The line of an answer, of which nothing is written where it does not fit whole; 32 bytes are enough for any.
// It is no Display, which would leave the start of a line that does not fit in the host's buffer.
pub fn write_answer(w: &mut TextWriter, answer: Result<Answer, Fault>) -> Result<(), Refusal>
    ensures succeeds { has_room 32 w.old ≡ true → result ≡ Ok tt }
    ensures value { Appends (answer_text answer) w.old w.new result }
{
    match answer {
        Ok(Answer::Done) => w.word(b"ok\n"),
        Ok(Answer::Lines(count)) => write_number(w, b"ok ", count),
        Ok(Answer::Sample(n) | Answer::Position(n)) => write_number(w, b"", n),
        Err(Fault::Refused(why)) => write_number(w, b"refused ", u64::from(why.number())),
        Err(Fault::Unreadable) => w.word(b"unreadable\n"),
    }
}
