// Whole numbers as text.
ghost use Rattle.std.specs.Prelude.{◌≡◌, ◌+◌, ◌*◌, ◌^◌, ◌<◌, ◌≤◌, length};
ghost use Rattle.std.specs.Char.{digit_value};
ghost use Rattle.std.specs.Option.{SomeIff};
ghost use Rattle.text.specs.Decimal.{digits, plain, put_at_start, room_for};

use itoa::write_digits;

// The most digits that a plain decimal has.
const MOST_DIGITS: usize = 20;

// A number with one digit more, where it fits.
fn with_digit(n: u64, digit: u8) -> Option<u64>
    ensures { SomeIff result ((digit_value digit < 10) × (n * 10 + digit_value digit < 2 ^ 64)) (n * 10 + digit_value digit) }
{
    let digit = char::from(digit).to_digit(10)?;
    n.checked_mul(10)?.checked_add(u64::from(digit))
}

// The value of a plain decimal: 1 to 20 digits whose number fits 64 bits.
pub fn read_number(word: &[u8]) -> Option<u64>
    ensures { result ≡ plain word.now }
{
    if word.is_empty() || word.len() > MOST_DIGITS {
        return None;
    }
    word.iter().try_fold(0, |n, b| with_digit(n, *b))
}

// How many digits a number has.
pub fn width(n: u64) -> usize
    ensures value { result ≡ length (digits n) }
    ensures short { result ≤ 20 }
{
    1 + n.checked_ilog10().unwrap_or(0) as usize
}

// Writes the digits of a number at the start of `out`, and answers how many there are.
pub fn number(out: &mut [u8], n: u64) -> Option<usize>
    ensures value { result ≡ room_for (digits n) out.old }
    ensures after { out.new ≡ put_at_start (digits n) out.old }
{
    let count = width(n);
    if out.len() < count {
        return None;
    }
    write_digits(n, out, count);
    Some(count)
}
