// A writer that fills a buffer from its start, and lends what is not filled yet to those who write into it.
ghost use Rattle.std.specs.Prelude.{◌≡◌, ℕ, ◌≤◌, List, [], ◌∷◌, ◌++◌, length, Ok, Result, is_some};
ghost use Rattle.std.specs.Fn.{FnOnceReturnsAtMut};
ghost use Rattle.refusal.specs.declared.Refusal.{Refusal};
ghost use Rattle.text.specs.Decimal.{digits, put_at_start, room_for};
ghost use Rattle.text.specs.Writer.{Appends, Offered, Puts, has_room, written};

use crate::decimal;
use forms::form::{TextForm, WrittenForm};
use refusal::Refusal;

// The host lends the memory, so there is no String here. A struct that holds a `&mut` keeps no invariant, so `has_room`,
// `fill` and `text` test `len` against the buffer.
#[derive(Drop)]
pub struct TextWriter<'b> {
    out: &'b mut [u8],
    len: usize,
}

// Copies a word to the start of `out`, and answers how long it is.
fn copied(out: &mut [u8], word: &[u8]) -> Option<usize>
    ensures value { result ≡ room_for word.now out.old }
    ensures after { out.new ≡ put_at_start word.now out.old }
{
    let count = word.len();
    if out.len() < count {
        return None;
    }
    out[..count].copy_from_slice(word);
    Some(count)
}

impl<'b> TextWriter<'b> {
    pub fn new(out: &'b mut [u8]) -> TextWriter<'b>
        ensures len { result.len ≡ 0 }
        ensures buffer { result.out.now ≡ out.old }
        ensures same { result.out.ghost_name ≡ out.entry.ghost_name }
    {
        TextWriter { out, len: 0 }
    }

    // What is written so far.
    pub fn text(&self) -> &[u8]
        ensures { result.now ≡ written self.now }
    {
        &self.out[..self.len.min(self.out.len())]
    }

    // Whether so many bytes more fit.
    pub fn has_room(&self, count: usize) -> bool
        ensures { result ≡ has_room count self.now }
    {
        self.len <= self.out.len() && count <= self.out.len() - self.len
    }

    // Lends what is not filled yet to `step`, which answers how much of it is filled then.
    fn fill<F: FnOnce(&mut [u8]) -> Result<usize, Refusal> + Drop>(
        &mut self,
        step: F,
    ) -> Result<(), Refusal>
        requires callable { F.IsAlwaysCallable step }
        requires within { (out after : List ℕ) (n : ℕ) → FnOnceReturnsAtMut F.FnOnce step out (Ok n) after → n ≤ length out }
        ensures { (text : List ℕ) → ((out after : List ℕ) (r : Result ℕ Refusal) → FnOnceReturnsAtMut F.FnOnce step out r after → Puts text out after r)
            → Appends text self.old self.new result }
    {
        let from = self.len;
        if from > self.out.len() {
            return Err(Refusal::ShortBuffer);
        }
        let count = step(&mut self.out[from..])?;
        self.len = from + count;
        Ok(())
    }

    pub fn number(&mut self, n: u64) -> Result<(), Refusal>
        ensures { Appends (digits n) self.old self.new result }
    {
        self.fill(|out| decimal::number(out, n).ok_or(Refusal::ShortBuffer))
    }

    pub fn word(&mut self, word: &[u8]) -> Result<(), Refusal>
        ensures { Appends word.now self.old self.new result }
    {
        self.fill(|out| copied(out, word).ok_or(Refusal::ShortBuffer))
    }

    pub fn byte(&mut self, b: u8) -> Result<(), Refusal>
        ensures { Appends (b ∷ []) self.old self.new result }
    {
        self.word(&[b])
    }

    // A number and the byte after it, of which nothing is written where they do not fit whole.
    pub fn number_then(&mut self, n: u64, end: u8) -> Result<(), Refusal>
        ensures { Appends (digits n ++ (end ∷ [])) self.old self.new result }
    {
        if !self.has_room(decimal::width(n) + 1) {
            return Err(Refusal::ShortBuffer);
        }
        self.number(n)?;
        self.byte(end)
    }

    // A value's text; a value that the form has not is refused.
    pub fn label<F: TextForm>(&mut self, form: &F, label: F::Value) -> Result<(), Refusal>
        ensures { Offered (is_some (F.number form.now label)) (F.text form.now label) self.old self.new result }
    {
        form.read(label)?;
        self.fill(|out| form.print(label, out))
    }
}
