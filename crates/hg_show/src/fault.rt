//! Why bytes weren't shown, or weren't written.
ghost use Rattle.std.specs.Prelude.{◌≡◌, Some};
ghost use Rattle.hg_show.specs.Faults.{show_fault_text, status_of, write_fault_text, write_status_of};

use hg_message::MessageFault;
use hg_obsstore::StoreFault;
use hg_phaseroots::RootsError;
use std::alloc::{AllocError, AllocFailed};
use std::error::Error;
use std::fmt;

/// Why bytes weren't shown.
#[derive(Clone, Copy, PartialEq, Eq, Debug)]
pub enum ShowFault {
    /// A read failed.
    Read,
    /// There are more than [`INPUT_LIMIT`](crate::INPUT_LIMIT) bytes.
    TooLong,
    /// The bytes are no store: their first fault from the front.
    Store(StoreFault),
    /// The text lists no roots: its first line at fault.
    Roots(RootsError),
    /// The bytes are no message: their first fault from the front.
    Message(MessageFault),
    /// A write failed.
    Write,
    /// There was no memory.
    NoMemory,
}

impl ShowFault {
    /// The exit status.
    pub fn status(&self) -> u8
        ensures { result ≡ status_of self.now }
    {
        match self {
            ShowFault::NoMemory => 3,
            _ => 1,
        }
    }
}

/// The text names the format, then the fault's number and name with its place. Want of memory among the faults of roots
/// has no number.
impl fmt::Display for ShowFault {
    ghost output = { λ fault. Some (show_fault_text fault) };

    fn fmt<W: fmt::Write>(&self, f: &mut fmt::Formatter<W>) -> fmt::Result {
        match *self {
            ShowFault::Read => write!(f, "read fault"),
            ShowFault::TooLong => write!(f, "input is too long"),
            ShowFault::Store(fault) => write!(f, "store: {} {fault}", fault.number()),
            ShowFault::Roots(fault) => match fault.number() {
                Some(number) => write!(f, "roots: {number} {fault}"),
                None => write!(f, "roots: {fault}"),
            },
            ShowFault::Message(fault) => write!(f, "message: {} {fault}", fault.number()),
            ShowFault::Write => write!(f, "write fault"),
            ShowFault::NoMemory => write!(f, "no memory"),
        }
    }
}

impl Error for ShowFault {}

impl From<AllocError> for ShowFault {
    ghost use Rattle.hg_show.specs.declared.fault.ShowFault.TheVariants.{NoMemory};

    ghost from_gives = { λ _ e. e ≡ NoMemory };

    fn from(_error: AllocError) -> ShowFault {
        ShowFault::NoMemory
    }
}

impl<T: Drop> From<AllocFailed<T>> for ShowFault {
    ghost use Rattle.hg_show.specs.declared.fault.ShowFault.TheVariants.{NoMemory};

    ghost from_gives = { λ _ e. e ≡ NoMemory };

    fn from(_error: AllocFailed<T>) -> ShowFault {
        ShowFault::NoMemory
    }
}

/// Why bytes weren't written. A front of them may have been.
#[derive(Clone, Copy, PartialEq, Eq, Debug)]
pub enum WriteFault {
    /// A write failed.
    Write,
    /// There was no memory.
    NoMemory,
}

impl WriteFault {
    /// The exit status.
    pub fn status(&self) -> u8
        ensures { result ≡ write_status_of self.now }
    {
        match self {
            WriteFault::Write => 1,
            WriteFault::NoMemory => 3,
        }
    }
}

impl fmt::Display for WriteFault {
    ghost output = { λ fault. Some (write_fault_text fault) };

    fn fmt<W: fmt::Write>(&self, f: &mut fmt::Formatter<W>) -> fmt::Result {
        match *self {
            WriteFault::Write => write!(f, "write fault"),
            WriteFault::NoMemory => write!(f, "no memory"),
        }
    }
}

impl Error for WriteFault {}

impl From<AllocError> for WriteFault {
    ghost use Rattle.hg_show.specs.declared.fault.WriteFault.TheVariants.{NoMemory};

    ghost from_gives = { λ _ e. e ≡ NoMemory };

    fn from(_error: AllocError) -> WriteFault {
        WriteFault::NoMemory
    }
}
