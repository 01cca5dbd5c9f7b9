//! Why a text is no list of roots.
ghost use Rattle.std.specs.Prelude.{◌≡◌};
ghost use Rattle.hg_phaseroots.specs.Refusals.{number};
ghost use Rattle.hg_phaseroots.specs.declared.error.RootsError.TheVariants.{NoMemory};

use std::alloc::{AllocError, AllocFailed};
use std::error::Error;
use std::fmt;

/// Why roots were not read: the first line at fault, where lines count from 1.
#[derive(Clone, Copy, PartialEq, Eq, Debug)]
pub enum RootsError {
    /// This line isn't one to nine digits, a space and 40 hexadecimal digits.
    BadLine(usize),
    /// This line has another number than 0, 1 and 2.
    BadPhase(usize),
    /// The list could not grow.
    NoMemory,
}

impl RootsError {
    /// The number of the refusal. Want of memory has none.
    pub fn number(self) -> Option<u8>
        ensures { result ≡ number self }
    {
        match self {
            RootsError::BadLine(_) => Some(1),
            RootsError::BadPhase(_) => Some(2),
            RootsError::NoMemory => None,
        }
    }
}

impl fmt::Display for RootsError {
    ghost use Rattle.std.specs.Prelude.{Some};
    ghost use Rattle.hg_phaseroots.specs.Refusals.{text};

    ghost output = { λ error. Some (text error) };

    fn fmt<W: fmt::Write>(&self, f: &mut fmt::Formatter<W>) -> fmt::Result {
        match self {
            RootsError::BadLine(line) => write!(f, "BadLine {line}"),
            RootsError::BadPhase(line) => write!(f, "BadPhase {line}"),
            RootsError::NoMemory => f.write_str("NoMemory"),
        }
    }
}

impl Error for RootsError {}

impl From<AllocError> for RootsError {
    ghost from_gives = { λ _ e. e ≡ NoMemory };

    fn from(_error: AllocError) -> RootsError {
        RootsError::NoMemory
    }
}

impl<T: Drop> From<AllocFailed<T>> for RootsError {
    ghost from_gives = { λ _ e. e ≡ NoMemory };

    fn from(_error: AllocFailed<T>) -> RootsError {
        RootsError::NoMemory
    }
}
