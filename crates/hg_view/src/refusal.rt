//! Why a pin is not set, or not taken away.
ghost use Rattle.std.specs.Prelude.{◌≡◌, Some};
ghost use Rattle.hg_view.specs.declared.refusal.PinRefusal.TheVariants.{NoMemory};
ghost use Rattle.hg_view.specs.PinRefusals.{pin_refusal_number, pin_refusal_name};

use hg_changeset::Node;
use std::alloc::{AllocError, AllocFailed};
use std::error::Error;
use std::fmt;

/// Why a pin is not set, or not taken away. The pins stay as they were.
#[derive(Clone, Copy, PartialEq, Eq, Debug)]
pub enum PinRefusal {
    /// The node isn't held, so it can't be pinned.
    Unknown(Node),
    /// The node isn't pinned, so no pin of it can be taken away.
    NotPinned(Node),
    /// Memory was wanting.
    NoMemory,
}

impl PinRefusal {
    /// The number that a user reads. Want of memory has none.
    pub fn number(self) -> Option<u8>
        ensures { result ≡ pin_refusal_number self }
    {
        match self {
            PinRefusal::Unknown(_) => Some(1),
            PinRefusal::NotPinned(_) => Some(2),
            PinRefusal::NoMemory => None,
        }
    }
}

impl fmt::Display for PinRefusal {
    ghost output = { λ refusal. Some (pin_refusal_name refusal) };

    fn fmt<W: fmt::Write>(&self, f: &mut fmt::Formatter<W>) -> fmt::Result {
        match *self {
            PinRefusal::Unknown(_) => write!(f, "Unknown"),
            PinRefusal::NotPinned(_) => write!(f, "NotPinned"),
            PinRefusal::NoMemory => write!(f, "NoMemory"),
        }
    }
}

impl Error for PinRefusal {}

impl From<AllocError> for PinRefusal {
    ghost from_gives = { λ _ e. e ≡ NoMemory };

    fn from(_error: AllocError) -> PinRefusal {
        PinRefusal::NoMemory
    }
}

impl<T: Drop> From<AllocFailed<T>> for PinRefusal {
    ghost from_gives = { λ _ e. e ≡ NoMemory };

    fn from(_error: AllocFailed<T>) -> PinRefusal {
        PinRefusal::NoMemory
    }
}
