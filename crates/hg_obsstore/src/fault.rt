//! Why bytes are no store.
ghost use Rattle.std.specs.Prelude.{◌≡◌, Some};
ghost use Rattle.hg_obsstore.specs.Refusals.{store_fault_number, store_fault_text};

use hg_marker::MarkerFault;
use std::error::Error;
use std::fmt;

/// What is wrong with the bytes of a store: the first fault from the front.
#[derive(Clone, Copy, PartialEq, Eq, Debug)]
pub enum StoreFault {
    /// They begin with this version, and not with 0.
    BadVersion(u8),
    /// The marker whose first byte stands at this place can't be read, for this cause. Places count from the version
    /// byte, which has place 0.
    Bad(usize, MarkerFault),
}

impl StoreFault {
    /// The fault's number, from 1 in the order in which they are tried.
    pub fn number(self) -> u8
        ensures { result ≡ store_fault_number self }
    {
        match self {
            StoreFault::BadVersion(_) => 1,
            StoreFault::Bad(_, _) => 2,
        }
    }
}

impl fmt::Display for StoreFault {
    ghost output = { λ fault. Some (store_fault_text fault) };

    fn fmt<W: fmt::Write>(&self, f: &mut fmt::Formatter<W>) -> fmt::Result {
        match *self {
            StoreFault::BadVersion(version) => write!(f, "BadVersion {version}"),
            StoreFault::Bad(place, cause) => write!(f, "Bad at {place}: {cause}"),
        }
    }
}

impl Error for StoreFault {}
