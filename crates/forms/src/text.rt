// Labels as text, `HH:MM:SS:FF`, with a semicolon before the frames where labels are dropped.
ghost use Rattle.std.specs.Prelude.{◌≡◌};
ghost use Rattle.forms.specs.Formats.{values};
ghost use Rattle.forms.specs.LabelText.{ReadsPart, separators, kept, Parses, parsed, Told, label_text, label_written};

use crate::form::TextForm;
use crate::label::{Label, Labels};
use refusal::Refusal;

// How many characters a label's text has.
pub const LABEL_TEXT: usize = 11;

// The part that two characters write, where both are figures.
fn part(tens: u8, ones: u8) -> Option<u8>
    ensures { ReadsPart tens ones result }
{
    match (tens, ones) {
        (b'0'..=b'9', b'0'..=b'9') => Some(10 * (tens - b'0') + (ones - b'0')),
        _ => None,
    }
}

impl Labels {
    // The byte between seconds and frames: one of the two that formats have.
    fn last_separator(&self) -> u8
        ensures { result ≡ (values self.now.format).separator }
    {
        match self.format.separator() {
            ';' => b';',
            _ => b':',
        }
    }

    // Whether three bytes may stand between the parts.
    fn separates(&self, a: u8, b: u8, c: u8) -> bool
        ensures { result ≡ separators self.now.format a b c }
    {
        a == b':' && b == b':' && c == self.last_separator()
    }

    // The label's text, also where the format has not the label.
    fn text(&self, label: Label) -> [u8; LABEL_TEXT]
        ensures { result ≡ label_text self.now.format label }
    {
        let last = self.last_separator();
        [
            b'0' + label.hours / 10,
            b'0' + label.hours % 10,
            b':',
            b'0' + label.minutes / 10,
            b'0' + label.minutes % 10,
            b':',
            b'0' + label.seconds / 10,
            b'0' + label.seconds % 10,
            last,
            b'0' + label.frames / 10,
            b'0' + label.frames % 10,
        ]
    }

    // The label whose figures and separators a text has, also where the format has not the label.
    #[tactic(auto, using(crate::proofs::Telling::told_length))]
    fn spelt(&self, text: &[u8]) -> Option<Label>
        ensures { Told self.now.format text.now (kept self.now.format result) }
    {
        let &[h1, h0, a, m1, m0, b, s1, s0, c, f1, f0] = text else {
            return None;
        };
        let label = Label {
            hours: part(h1, h0)?,
            minutes: part(m1, m0)?,
            seconds: part(s1, s0)?,
            frames: part(f1, f0)?,
        };
        self.separates(a, b, c).then_some(label)
    }

    // The label that a text writes.
    pub fn parse(&self, text: &[u8]) -> Result<Label, Refusal>
        ensures value { result ≡ parsed self.now.format text.now }
        ensures cases { Parses self.now.format text.now result }
    {
        self.spelt(text)
            .filter(|label| self.has(*label))
            .ok_or(Refusal::NotWritten)
    }
}

impl TextForm for Labels {
    ghost text = { λ f. label_text f.format };

    ghost spelt = { λ f. label_written f.format };

    fn width(&self, _v: Label) -> usize {
        LABEL_TEXT
    }

    #[tactic(auto, using(crate::specs::TextLaws::label_had))]
    fn print(&self, v: Label, out: &mut [u8]) -> Result<usize, Refusal> {
        if !self.has(v) {
            return Err(Refusal::NotWritten);
        }
        if out.len() < LABEL_TEXT {
            return Err(Refusal::ShortBuffer);
        }
        out[..LABEL_TEXT].copy_from_slice(&self.text(v));
        Ok(LABEL_TEXT)
    }

    #[tactic(auto, using(crate::proofs::Telling::spells_label))]
    fn value_of(&self, bytes: &[u8]) -> Label {
        self.parse(bytes).unwrap_or(Label::invalid())
    }
}
