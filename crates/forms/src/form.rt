// What every written form answers.
ghost use Rattle.std.specs.Prelude.{◌≡◌, ℕ, ◌^◌, ◌<◌, ◌≤◌, List, length, Some, Option, is_some};
ghost use Rattle.forms.specs.Pairing.{Pairing, InOrder, read_as, written_as};
ghost use Rattle.forms.specs.Texts.{print_text_answer, print_text_after, Spells, OneWord};

use refusal::Refusal;

pub trait WrittenForm {
    type Value: Copy;

    // How many valid values there are.
    ghost count: { Self → ℕ };

    // The number of a value, where it is valid, and the value of a number below the count.
    ghost number: { Self → Self.Value → Option ℕ };

    ghost value: { Self → ℕ → Self.Value };

    // A value's parts, the weightiest first.
    ghost parts: { Self → Self.Value → List ℕ };

    fn count(&self) -> u64
        ensures { result ≡ count self.now };

    // The number of a value, refused where the value is not valid.
    fn read(&self, v: Self::Value) -> Result<u64, Refusal>
        ensures { result ≡ read_as (number self.now v) };

    // The value of a number, refused where the number is not below the count.
    fn write(&self, n: u64) -> Result<Self::Value, Refusal>
        ensures { result ≡ written_as (count self.now) (value self.now) n };

    ghost paired: { (f : Self) → Pairing Self.Value (count f) (number f) (value f) };

    ghost ordered: { (f : Self) → InOrder Self.Value (number f) (parts f) };
}

// A written form whose values have a text, each its own.
pub trait TextForm: WrittenForm {
    // The text of a value, and the value that a text writes, or one that is not valid.
    ghost text: { Self → Self.Value → List ℕ };

    ghost spelt: { Self → List ℕ → Self.Value };

    // How many bytes a value's text has; never many, so that a host knows which buffer is enough. The text of a valid
    // value is one word, so that it can stand in a line of words.
    fn width(&self, v: Self::Value) -> usize
        ensures value { result ≡ length (text self.now v) }
        ensures short { result ≤ 32 }
        ensures word { (n : ℕ) → Self.number self.now v ≡ Some n → OneWord (text self.now v) };

    // Writes a value's text at the front of `out`, and answers its length; refused where the value is not valid.
    fn print(&self, v: Self::Value, out: &mut [u8]) -> Result<usize, Refusal>
        ensures value { result ≡ print_text_answer (is_some (Self.number self.now v)) (text self.now v) (length out.old) }
        ensures after { out.new ≡ print_text_after (is_some (Self.number self.now v)) (text self.now v) out.old };

    // The value that a text writes, or one that is not valid, so that it is refused where it is read.
    fn value_of(&self, bytes: &[u8]) -> Self::Value
        ensures value { result ≡ spelt self.now bytes.now }
        ensures spells { Spells Self.Value (Self.number self.now) (text self.now) bytes.now result };
}
