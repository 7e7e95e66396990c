// What the engine answers, in a line.
ghost use Rattle.trials.specs.Answers.{answer_text};

use refusal::Refusal;
use std::fmt;

// The value, or the refusal.
#[derive(Drop)]
pub struct Answered<T>(pub Result<T, Refusal>);

impl<T: fmt::Display> fmt::Display for Answered<T> {
    ghost output = { λ a. answer_text T.output a.0 };

    fn fmt<W: fmt::Write>(&self, f: &mut fmt::Formatter<W>) -> fmt::Result {
        match &self.0 {
            Ok(value) => write!(f, "{value}"),
            Err(why) => write!(f, "{why}"),
        }
    }
}
