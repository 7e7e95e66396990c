// Bar positions as text, `BAR.BEAT.TICK`.
ghost use Rattle.std.specs.Prelude.{◌≡◌, ℕ, ◌≤◌, List, length, Some, None, IfSome};
ghost use Rattle.std.specs.Str.{bytes_eq};
ghost use Rattle.meter.specs.declared.row.MeterRow.{MeterRow};
ghost use Rattle.forms.specs.Texts.{OneWord};
ghost use Rattle.text.specs.Writer.{Appends, has_room};
ghost use Rattle.bar_positions.specs.BarPositions.{no_position, position_number};
ghost use Rattle.bar_positions.specs.Spellings.{Held, position_text, position_spelt};

use crate::position::{BarPosition, BarPositions};
use forms::form::{TextForm, WrittenForm};
use refusal::Refusal;
use text::decimal::{read_number, width};
use text::writer::TextWriter;

// The most bytes that a position's text has: of 5, 3 and 10 digits, and two full stops.
const MOST_TEXT: usize = 20;

impl BarPosition {
    // A position that no table has, to stand for a text that writes none: a deck asks of a cue's number before it asks of
    // its position, so the position must come as one that is refused later.
    pub fn invalid() -> BarPosition
        ensures value { result ≡ no_position }
        ensures refused { (division : ℕ) (rows : List MeterRow) → position_number division rows result ≡ None }
    {
        BarPosition {
            bar: 0,
            beat: 1,
            tick: 0,
        }
    }

    // The position whose parts a text seems to have; its own text is asked for afterwards.
    fn parts_read(text: &[u8]) -> Option<BarPosition>
        ensures own { (v : BarPosition) → Held v → text.now ≡ position_text v → result ≡ Some v }
        ensures held { IfSome result Held }
    {
        // No position has a longer text, and so a long one is not read through.
        if text.len() > MOST_TEXT {
            return None;
        }
        let mut parts = text.splitn(3, |b| *b == b'.');
        let bar = parts.next()?;
        let beat = parts.next()?;
        let tick = parts.next()?;
        Some(BarPosition {
            bar: u16::try_from(read_number(bar)?).ok()?,
            beat: u8::try_from(read_number(beat)?).ok()?,
            tick: u32::try_from(read_number(tick)?).ok()?,
        })
    }

    fn text_width(self) -> usize
        ensures value { result ≡ length (position_text self) }
        ensures short { result ≤ 20 }
        ensures word { OneWord (position_text self) }
    {
        width(u64::from(self.bar)) + width(u64::from(self.beat)) + width(u64::from(self.tick)) + 2
    }

    fn fits(self, w: &TextWriter) -> bool
        ensures { result ≡ has_room (length (position_text self)) w.now }
    {
        w.has_room(self.text_width())
    }

    // The position's text, of which nothing is written where it does not fit whole.
    fn write_text(self, w: &mut TextWriter) -> Result<(), Refusal>
        ensures { Appends (position_text self) w.old w.new result }
    {
        if !self.fits(w) {
            return Err(Refusal::ShortBuffer);
        }
        // There is room for the whole, so no number's digits are counted again with its full stop, as by `number_then`.
        w.number(u64::from(self.bar))?;
        w.byte(b'.')?;
        w.number(u64::from(self.beat))?;
        w.byte(b'.')?;
        w.number(u64::from(self.tick))
    }

    // Whether a text is the position's own.
    fn has_text(self, text: &[u8]) -> bool
        ensures { result ≡ bytes_eq (position_text self) text.now }
    {
        let mut buffer = [0; MOST_TEXT];
        let mut w = TextWriter::new(&mut buffer);
        self.write_text(&mut w).is_ok() && w.text() == text
    }

    // The position that a text writes, or one that no table has. A position has one text, so a text with a leading zero,
    // too few parts or too many writes none.
    fn spelt(text: &[u8]) -> BarPosition
        ensures { result ≡ position_spelt text.now }
    {
        BarPosition::parts_read(text)
            .filter(|position| position.has_text(text))
            .unwrap_or(BarPosition::invalid())
    }
}

impl TextForm for BarPositions {
    ghost text = { λ _. position_text };

    ghost spelt = { λ _. position_spelt };

    fn width(&self, v: BarPosition) -> usize {
        v.text_width()
    }

    fn print(&self, v: BarPosition, out: &mut [u8]) -> Result<usize, Refusal> {
        self.read(v)?;
        v.write_text(&mut TextWriter::new(out))?;
        Ok(self.width(v))
    }

    fn value_of(&self, bytes: &[u8]) -> BarPosition {
        BarPosition::spelt(bytes)
    }
}
