// Why a program ends early.
ghost use Rattle.std.specs.Prelude.{◌≡◌};
ghost use Rattle.trials.specs.declared.failure.Failure.TheVariants.{Engine, Io};
ghost use Rattle.refusal.specs.declared.Refusal.TheVariants.{NoMemory};

use refusal::Refusal;
use std::alloc::AllocError;
use std::io;

#[derive(Debug, Drop)]
pub enum Failure {
    // The engine refused what the program stands on.
    Engine(Refusal),
    // A line was not written.
    Io(io::Error),
}

// What `main` ends with: a line that was not written says why in the words of the system, as if nothing stood between.
impl From<Failure> for io::Error {
    ghost from_gives = { λ failure why. (cause : _) → failure ≡ Io cause → why ≡ cause };

    fn from(failure: Failure) -> io::Error {
        match failure {
            Failure::Engine(_) => io::Error::other("no pile"),
            Failure::Io(cause) => cause,
        }
    }
}

impl From<Refusal> for Failure {
    ghost from_gives = { λ why failure. failure ≡ Engine why };

    fn from(why: Refusal) -> Failure {
        Failure::Engine(why)
    }
}

impl From<io::Error> for Failure {
    ghost from_gives = { λ why failure. failure ≡ Io why };

    fn from(why: io::Error) -> Failure {
        Failure::Io(why)
    }
}

// Want of memory is the engine's refusal of that name.
impl From<AllocError> for Failure {
    ghost from_gives = { λ _ failure. failure ≡ Engine NoMemory };

    fn from(lack: AllocError) -> Failure {
        Failure::Engine(Refusal::from(lack))
    }
}
