// A line of the log as text.
ghost use Rattle.std.specs.Prelude.{◌≡◌, ◌≤◌, true, length};
ghost use Rattle.text.specs.Lines.{LineOffered, MarkOffered, has_mark, line_text, mark_text};
ghost use Rattle.text.specs.Writer.{Appends};

use crate::decimal::width;
use crate::writer::TextWriter;
use book::cue::Line;
use forms::form::{TextForm, WrittenForm};
use refusal::Refusal;

const HYPHEN: u8 = b'-';

// Form and label come as two parameters: over a struct of both, each clause would be longer and two callers would build it.
// Whether the form has the label, if there is one.
fn has_mark<F: WrittenForm>(form: &F, label: Option<F::Value>) -> bool
    ensures { result ≡ has_mark (F.number form.now) label }
{
    label.is_none_or(|label| form.read(label).is_ok())
}

fn mark_width<F: TextForm>(form: &F, label: Option<F::Value>) -> usize
    ensures value { result ≡ length (mark_text (F.text form.now) label) }
    ensures short { result ≤ 32 }
{
    label.map_or(1, |label| form.width(label))
}

// A label, or a hyphen for none.
fn write_mark<F: TextForm>(
    w: &mut TextWriter,
    form: &F,
    label: Option<F::Value>,
) -> Result<(), Refusal>
    ensures { MarkOffered (F.number form.now) (F.text form.now) label w.old w.new result }
{
    // A match, since both cases write to `w` and two closures cannot share it.
    match label {
        None => w.byte(HYPHEN),
        Some(label) => w.label(form, label),
    }
}

// A line whose label the form has, of which nothing is written where it does not fit whole.
fn write_fields<F: TextForm>(
    w: &mut TextWriter,
    form: &F,
    line: &Line<F::Value>,
) -> Result<(), Refusal>
    requires { has_mark (F.number form.now) line.now.label ≡ true }
    ensures { Appends (line_text (F.text form.now) line.now) w.old w.new result }
{
    if !w.has_room(width(line.cue) + width(line.sample) + mark_width(form, line.label) + 3) {
        return Err(Refusal::ShortBuffer);
    }
    w.number_then(line.cue, b' ')?;
    w.number_then(line.sample, b' ')?;
    write_mark(w, form, line.label)?;
    w.byte(b'\n')
}

// Cue, sample and label with one space between; a label that the form lacks is refused.
pub fn write_line<F: TextForm>(
    w: &mut TextWriter,
    form: &F,
    line: &Line<F::Value>,
) -> Result<(), Refusal>
    ensures { LineOffered (F.number form.now) (F.text form.now) line.now w.old w.new result }
{
    if !has_mark(form, line.label) {
        return Err(Refusal::NotWritten);
    }
    write_fields(w, form, line)
}
