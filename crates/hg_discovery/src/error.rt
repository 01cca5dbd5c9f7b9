//! Why answers were not taken.
ghost use Rattle.std.specs.Prelude.{◌≡◌};
ghost use Rattle.hg_discovery.specs.Refusals.{number};
ghost use Rattle.hg_discovery.specs.declared.error.DiscoveryError.TheVariants.{NoMemory};

use std::alloc::{AllocError, AllocFailed};
use std::error::Error;
use std::fmt;

/// Why the answers to a sample were not taken. The discovery stays as it was.
#[derive(Clone, Copy, PartialEq, Eq, Debug)]
pub enum DiscoveryError {
    /// There aren't as many answers as the sample has changesets.
    WrongCount,
    /// The next sample could not be kept.
    NoMemory,
}

impl DiscoveryError {
    /// The number of the refusal. Want of memory has none.
    pub fn number(self) -> Option<u8>
        ensures { result ≡ number self }
    {
        match self {
            DiscoveryError::WrongCount => Some(1),
            DiscoveryError::NoMemory => None,
        }
    }
}

impl fmt::Display for DiscoveryError {
    ghost use Rattle.std.specs.Prelude.{Some};
    ghost use Rattle.hg_discovery.specs.Refusals.{name};

    ghost output = { λ error. Some (name error) };

    fn fmt<W: fmt::Write>(&self, f: &mut fmt::Formatter<W>) -> fmt::Result {
        match self {
            DiscoveryError::WrongCount => f.write_str("WrongCount"),
            DiscoveryError::NoMemory => f.write_str("NoMemory"),
        }
    }
}

impl Error for DiscoveryError {}

impl From<AllocError> for DiscoveryError {
    ghost from_gives = { λ _ e. e ≡ NoMemory };

    fn from(_error: AllocError) -> DiscoveryError {
        DiscoveryError::NoMemory
    }
}

impl<T: Drop> From<AllocFailed<T>> for DiscoveryError {
    ghost from_gives = { λ _ e. e ≡ NoMemory };

    fn from(_error: AllocFailed<T>) -> DiscoveryError {
        DiscoveryError::NoMemory
    }
}
