ghost use Rattle.std.specs.Prelude.{◌≡◌, Some};
ghost use Rattle.tasks.specs.declared.failure.Failure.TheVariants.{Refused, Unreadable, Memory};
ghost use Rattle.tasks.specs.Failures.{failure_text, IsMemory};

use finders::refusals::Refusal;
use std::alloc::{AllocError, AllocFailed};
use std::error::Error;
use std::fmt;
use std::num::ParseIntError;

// Why a task is not answered.
#[derive(Clone, Copy, PartialEq, Eq, Debug)]
pub enum Failure {
    // by a finder, or because no set has the name
    Refused(Refusal),
    // a word is missing, or writes no number that fits
    Unreadable,
    // no memory is left
    Memory(AllocError),
}

impl From<Refusal> for Failure {
    ghost from_gives = { λ refusal failure. failure ≡ Refused refusal };

    fn from(refusal: Refusal) -> Failure {
        Failure::Refused(refusal)
    }
}

impl From<ParseIntError> for Failure {
    ghost from_gives = { λ _ failure. failure ≡ Unreadable };

    fn from(_error: ParseIntError) -> Failure {
        Failure::Unreadable
    }
}

impl From<AllocError> for Failure {
    ghost from_gives = { λ error failure. failure ≡ Memory error };

    fn from(error: AllocError) -> Failure {
        Failure::Memory(error)
    }
}

impl<T: Drop> From<AllocFailed<T>> for Failure {
    ghost from_gives = { λ _ failure. IsMemory failure };

    fn from(refused: AllocFailed<T>) -> Failure {
        Failure::Memory(refused.into())
    }
}

impl fmt::Display for Failure {
    ghost output = { λ failure. Some (failure_text failure) };

    fn fmt<W: fmt::Write>(&self, f: &mut fmt::Formatter<W>) -> fmt::Result {
        match self {
            Failure::Refused(refusal) => write!(f, "{refusal}"),
            Failure::Unreadable => write!(f, "unreadable"),
            Failure::Memory(_) => write!(f, "out of memory"),
        }
    }
}

impl Error for Failure {}
