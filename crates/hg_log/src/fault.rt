//! Why a history couldn't be drawn whole.
ghost use Rattle.std.specs.Prelude.{◌≡◌};
ghost use Rattle.hg_log.specs.declared.fault.DrawFault.TheVariants.{NoMemory};

use std::alloc::{AllocError, AllocFailed};
use std::error::Error;
use std::fmt;

/// Why a history couldn't be drawn whole. What was drawn before stays written.
#[derive(Clone, Copy, PartialEq, Eq, Debug)]
pub enum DrawFault {
    /// The writer refused a line.
    Write,
    /// There was no memory for a line, for the columns, or for the ids that aren't held.
    NoMemory,
}

impl fmt::Display for DrawFault {
    fn fmt<W: fmt::Write>(&self, f: &mut fmt::Formatter<W>) -> fmt::Result {
        match *self {
            DrawFault::Write => write!(f, "write fault"),
            DrawFault::NoMemory => write!(f, "no memory"),
        }
    }
}

impl Error for DrawFault {}

impl From<AllocError> for DrawFault {
    ghost from_gives = { λ _ fault. fault ≡ NoMemory };

    fn from(_error: AllocError) -> DrawFault {
        DrawFault::NoMemory
    }
}

impl<T: Drop> From<AllocFailed<T>> for DrawFault {
    ghost from_gives = { λ _ fault. fault ≡ NoMemory };

    fn from(_error: AllocFailed<T>) -> DrawFault {
        DrawFault::NoMemory
    }
}
