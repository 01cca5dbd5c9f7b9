//! What ends a script.
ghost use Rattle.std.specs.Prelude.{◌≡◌, Some};
ghost use Rattle.hg_line.specs.declared.fault.RunFault.TheVariants.{NoMemory};
ghost use Rattle.hg_line.specs.Faults.{fault_text, line_fault_text, status_of};

use std::alloc::{AllocError, AllocFailed};
use std::error::Error;
use std::fmt;

/// What is wrong with a line. Faults are tried in this order, each over the whole line.
#[derive(Clone, Copy, PartialEq, Eq, Debug)]
pub enum LineFault {
    TooLong,
    UnknownCommand,
    WordCount,
    BadName,
    BadPhase,
    UnknownName,
    NameTaken,
}

impl LineFault {
    /// The words that a user reads.
    pub fn text(self) -> &'static str
        ensures { result.now ≡ line_fault_text self }
    {
        match self {
            LineFault::TooLong => "line is too long",
            LineFault::UnknownCommand => "unknown command",
            LineFault::WordCount => "wrong number of words",
            LineFault::BadName => "bad name",
            LineFault::BadPhase => "bad phase",
            LineFault::UnknownName => "unknown name",
            LineFault::NameTaken => "name is taken",
        }
    }
}

/// Why a script ended before its last line.
#[derive(Clone, Copy, PartialEq, Eq, Debug)]
pub enum RunFault {
    Line(usize, LineFault),
    ScriptTooLong,
    Read,
    Write,
    NoMemory,
}

impl RunFault {
    /// The exit status.
    pub fn status(&self) -> u8
        ensures { result ≡ status_of self.now }
    {
        match self {
            RunFault::NoMemory => 3,
            _ => 1,
        }
    }
}

impl fmt::Display for RunFault {
    ghost output = { λ fault. Some (fault_text fault) };

    fn fmt<W: fmt::Write>(&self, f: &mut fmt::Formatter<W>) -> fmt::Result {
        match *self {
            RunFault::Line(number, fault) => write!(f, "line {number}: {}", fault.text()),
            RunFault::ScriptTooLong => write!(f, "script is too long"),
            RunFault::Read => write!(f, "read fault"),
            RunFault::Write => write!(f, "write fault"),
            RunFault::NoMemory => write!(f, "no memory"),
        }
    }
}

impl Error for RunFault {}

impl From<AllocError> for RunFault {
    ghost from_gives = { λ _ e. e ≡ NoMemory };

    fn from(_error: AllocError) -> RunFault {
        RunFault::NoMemory
    }
}

impl<T: Drop> From<AllocFailed<T>> for RunFault {
    ghost from_gives = { λ _ e. e ≡ NoMemory };

    fn from(_error: AllocFailed<T>) -> RunFault {
        RunFault::NoMemory
    }
}

impl From<hg_join::NoMemory> for RunFault {
    ghost from_gives = { λ _ e. e ≡ NoMemory };

    fn from(_error: hg_join::NoMemory) -> RunFault {
        RunFault::NoMemory
    }
}
