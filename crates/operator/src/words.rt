// The words of a line, parted by single spaces.
ghost use Rattle.std.specs.Prelude.{◌≡◌, ◌∷◌};
ghost use Rattle.operator.specs.Words.{words, rest_words, verb_of};

use crate::request::Verb;

// The first word, and what stands after the space that ends it.
pub(crate) fn cut(line: &str) -> (&str, Option<&str>)
    ensures { words line.now ≡ result.0.now ∷ rest_words result.1 }
{
    match line.bytes().position(|b| b == b' ') {
        Some(end) => (&line[..end], Some(&line[end + 1..])),
        None => (line, None),
    }
}

pub(crate) fn verb(word: &str) -> Option<Verb>
    ensures { result ≡ verb_of word.now }
{
    match word {
        "add" => Some(Verb::Add),
        "strike" => Some(Verb::Strike),
        "seek" => Some(Verb::Seek),
        "play" => Some(Verb::Play),
        "place" => Some(Verb::Place),
        "locate" => Some(Verb::Locate),
        "log" => Some(Verb::Log),
        _ => None,
    }
}
