// Every refusal of the engine, one case for each cause, with the number that is answered for it.
#![tactic(auto)]

ghost use Rattle.std.specs.Prelude.{◌≡◌, Some};
ghost use Rattle.refusal.specs.Numbers.{number_of, refused_text};
ghost use Rattle.refusal.specs.declared.Refusal.TheVariants.{NoMemory};

use std::alloc::AllocError;
use std::error::Error;
use std::fmt;

#[derive(Clone, Copy, PartialEq, Eq, Debug)]
pub enum Refusal {
    ShortBuffer = 6,
    BadMaking = 14,
    TapsFall = 15,
    RatioTooLong = 16,
    NoPosition = 17,
    NotWritten = 18,
    NotBelowCount = 19,
    CueOutOfRange = 20,
    CueAlreadyIn = 21,
    NoFreePlace = 22,
    CueNotIn = 23,
    HeadPastEnd = 24,
    NoFreeLines = 25,
    NoMemory = 40,
}

impl Refusal {
    // The number that stands for the refusal outside the engine.
    pub fn number(self) -> u8
        ensures { result ≡ number_of self }
    {
        self as u8
    }
}

// `refused N`, as operators read it, where N is the refusal's number.
impl fmt::Display for Refusal {
    ghost output = { λ why. Some (refused_text why) };

    fn fmt<W: fmt::Write>(&self, f: &mut fmt::Formatter<W>) -> fmt::Result {
        write!(f, "refused {}", self.number())
    }
}

impl Error for Refusal {}

// Want of memory is the refusal NoMemory, so that `?` passes it on.
impl From<AllocError> for Refusal {
    ghost from_gives = { λ _ why. why ≡ NoMemory };

    fn from(_lack: AllocError) -> Refusal {
        Refusal::NoMemory
    }
}
