// What a line asks.
ghost use Rattle.std.specs.Prelude.{◌≡◌, Some};
ghost use Rattle.operator.specs.Words.{without_end, words};
ghost use Rattle.operator.specs.Requests.{said, asks, says, by_words, one_word, two_words, three_words, EveryRequestReadsBack};

use crate::request::{Request, Verb};
use crate::words::{cut, verb};
use std::str;
use text::decimal::read_number;

// A line of one word.
fn one_word(verb: Verb) -> Option<Request<'static>>
    ensures { said result ≡ one_word verb }
{
    match verb {
        Verb::Log => Some(Request::Log),
        _ => None,
    }
}

// A line of a word and a number.
fn two_words(verb: Verb, n: u64) -> Option<Request<'static>>
    ensures { said result ≡ two_words (Some n) verb }
{
    match verb {
        Verb::Strike => Some(Request::Strike { number: n }),
        Verb::Seek => Some(Request::Seek { sample: n }),
        Verb::Play => Some(Request::Play { count: n }),
        Verb::Place => Some(Request::Place { position: n }),
        Verb::Locate => Some(Request::Locate { sample: n }),
        Verb::Add | Verb::Log => None,
    }
}

// A line of a word, a number and a label.
fn three_words<'a>(verb: Verb, number: u64, label: &'a [u8]) -> Option<Request<'a>>
    ensures { said result ≡ three_words verb (Some number) label.now }
{
    match verb {
        Verb::Add if !label.is_empty() => Some(Request::Add { number, label }),
        _ => None,
    }
}

// What a line of text asks by its words.
fn by_words(line: &str) -> Option<Request<'_>>
    ensures { said result ≡ by_words (words line.now) }
{
    let (first, rest) = cut(line);
    let asked = verb(first)?;
    let Some(rest) = rest else {
        return one_word(asked);
    };
    let (second, rest) = cut(rest);
    let number = read_number(second.as_bytes())?;
    let Some(rest) = rest else {
        return two_words(asked, number);
    };
    match cut(rest) {
        (label, None) => three_words(asked, number, label.as_bytes()),
        (_, Some(_)) => None,
    }
}

// What a line asks, given without its line end; one that is not text asks nothing.
fn read_words(line: &[u8]) -> Option<Request<'_>>
    ensures { said result ≡ says line.now }
{
    let line = str::from_utf8(line).ok()?;
    by_words(line)
}

// A line as it is read, without its line end; the last line of an input may have none.
fn without_end(line: &[u8]) -> &[u8]
    ensures { result.now ≡ without_end line.now }
{
    match line {
        [text @ .., b'\n'] => text,
        _ => line,
    }
}

// What a line asks, with its line end or without.
pub fn read_line(line: &[u8]) -> Option<Request<'_>>
    ensures value { said result ≡ asks line.now }
    ensures reads_back { EveryRequestReadsBack }
{
    read_words(without_end(line))
}
