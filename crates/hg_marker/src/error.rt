//! Why fields make no marker, and why bytes are none.
ghost use Rattle.std.specs.Prelude.{◌≡◌, Some};
ghost use Rattle.hg_marker.specs.Refusals.{marker_error_number, marker_error_name, marker_fault_number};
ghost use Rattle.hg_marker.specs.Refusals.{marker_fault_name};
ghost use Rattle.hg_marker.specs.ReadErrors.{fault_of};
ghost use Rattle.hg_marker.specs.declared.error.ReadError.TheVariants.{NoMemory};

use std::alloc::{AllocError, AllocFailed};
use std::error::Error;
use std::fmt;

/// Why fields make no marker: the first that applies.
#[derive(Clone, Copy, PartialEq, Eq, Debug)]
pub enum MarkerError {
    /// The predecessor is one of the successors.
    SelfSuccessor,
    /// A successor is the null id.
    NullSuccessor,
    /// A key of the metadata holds a colon or a NUL.
    BadKey,
    /// A value of the metadata holds a NUL.
    BadValue,
    /// There are more than [`SUCCESSOR_LIMIT`](crate::SUCCESSOR_LIMIT) successors.
    TooManySuccessors,
    /// The metadata takes more than [`METADATA_LIMIT`](crate::METADATA_LIMIT) bytes as written.
    MetaTooLong,
}

impl MarkerError {
    /// The refusal's number, from 1 in the order in which they are tried.
    pub fn number(self) -> u8
        ensures { result ≡ marker_error_number self }
    {
        match self {
            MarkerError::SelfSuccessor => 1,
            MarkerError::NullSuccessor => 2,
            MarkerError::BadKey => 3,
            MarkerError::BadValue => 4,
            MarkerError::TooManySuccessors => 5,
            MarkerError::MetaTooLong => 6,
        }
    }
}

impl fmt::Display for MarkerError {
    ghost output = { λ refusal. Some (marker_error_name refusal) };

    fn fmt<W: fmt::Write>(&self, f: &mut fmt::Formatter<W>) -> fmt::Result {
        match *self {
            MarkerError::SelfSuccessor => write!(f, "SelfSuccessor"),
            MarkerError::NullSuccessor => write!(f, "NullSuccessor"),
            MarkerError::BadKey => write!(f, "BadKey"),
            MarkerError::BadValue => write!(f, "BadValue"),
            MarkerError::TooManySuccessors => write!(f, "TooManySuccessors"),
            MarkerError::MetaTooLong => write!(f, "MetaTooLong"),
        }
    }
}

impl Error for MarkerError {}

/// Why no marker stands at the front of bytes: the first that applies.
#[derive(Clone, Copy, PartialEq, Eq, Debug)]
pub enum MarkerFault {
    /// Not all bytes that the first six announce are there.
    Truncated,
    /// A successor is the null id.
    NullSuccessor,
    /// The metadata has more than [`METADATA_LIMIT`](crate::METADATA_LIMIT) bytes, or a piece of it has no colon.
    BadMetadata,
}

impl MarkerFault {
    /// The fault's number, from 1 in the order in which they are tried.
    pub fn number(self) -> u8
        ensures { result ≡ marker_fault_number self }
    {
        match self {
            MarkerFault::Truncated => 1,
            MarkerFault::NullSuccessor => 2,
            MarkerFault::BadMetadata => 3,
        }
    }
}

impl fmt::Display for MarkerFault {
    ghost output = { λ fault. Some (marker_fault_name fault) };

    fn fmt<W: fmt::Write>(&self, f: &mut fmt::Formatter<W>) -> fmt::Result {
        match *self {
            MarkerFault::Truncated => write!(f, "Truncated"),
            MarkerFault::NullSuccessor => write!(f, "NullSuccessor"),
            MarkerFault::BadMetadata => write!(f, "BadMetadata"),
        }
    }
}

impl Error for MarkerFault {}

/// Why something was not read from bytes, or not made of its fields. Its text is that of the fault.
#[derive(PartialEq, Eq, Debug, Drop)]
pub enum ReadError<F> {
    /// Memory ran out.
    NoMemory,
    /// The bytes or the fields have this fault.
    Fault(F),
}

impl<F: Copy> ReadError<F> {
    /// The fault; none where memory ran out. Its number is the fault's.
    pub fn fault(&self) -> Option<F>
        ensures { result ≡ fault_of self.now }
    {
        match self {
            ReadError::NoMemory => None,
            ReadError::Fault(fault) => Some(*fault),
        }
    }
}

impl<F: fmt::Display> fmt::Display for ReadError<F> {
    ghost use Rattle.hg_marker.specs.ReadErrors.{read_error_text};

    ghost output = { read_error_text F.output };

    fn fmt<W: fmt::Write>(&self, f: &mut fmt::Formatter<W>) -> fmt::Result {
        match self {
            ReadError::NoMemory => f.write_str("NoMemory"),
            ReadError::Fault(fault) => write!(f, "{fault}"),
        }
    }
}

impl<F: fmt::Debug + fmt::Display + Drop> Error for ReadError<F> {}

impl<F> From<AllocError> for ReadError<F> {
    ghost from_gives = { λ _ e. e ≡ NoMemory };

    fn from(_e: AllocError) -> ReadError<F> {
        ReadError::NoMemory
    }
}

impl<F, T: Drop> From<AllocFailed<T>> for ReadError<F> {
    ghost from_gives = { λ _ e. e ≡ NoMemory };

    fn from(_e: AllocFailed<T>) -> ReadError<F> {
        ReadError::NoMemory
    }
}
