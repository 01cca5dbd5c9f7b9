//! Why nothing is offered.
ghost use Rattle.std.specs.Prelude.{◌≡◌, Some};
ghost use Rattle.hg_message.specs.declared.refusal.OfferRefusal.TheVariants.{NoMemory};
ghost use Rattle.hg_message.specs.OfferRefusals.{offer_refusal_number, offer_refusal_name};

use hg_changeset::Node;
use std::alloc::{AllocError, AllocFailed};
use std::error::Error;
use std::fmt;

/// Why a replica offers nothing. Refusals are tried in this order.
#[derive(Clone, Copy, PartialEq, Eq, Debug)]
pub enum OfferRefusal {
    /// A common node isn't held: the first of them.
    UnknownCommon(Node),
    /// There is too much to offer: see [`MessageError::TooLarge`](crate::MessageError::TooLarge).
    TooLarge,
    /// Memory was wanting.
    NoMemory,
}

impl OfferRefusal {
    /// The number that a user reads. Want of memory has none.
    pub fn number(self) -> Option<u8>
        ensures { result ≡ offer_refusal_number self }
    {
        match self {
            OfferRefusal::UnknownCommon(_) => Some(1),
            OfferRefusal::TooLarge => Some(2),
            OfferRefusal::NoMemory => None,
        }
    }
}

impl fmt::Display for OfferRefusal {
    ghost output = { λ refusal. Some (offer_refusal_name refusal) };

    fn fmt<W: fmt::Write>(&self, f: &mut fmt::Formatter<W>) -> fmt::Result {
        match *self {
            OfferRefusal::UnknownCommon(_) => write!(f, "UnknownCommon"),
            OfferRefusal::TooLarge => write!(f, "TooLarge"),
            OfferRefusal::NoMemory => write!(f, "NoMemory"),
        }
    }
}

impl Error for OfferRefusal {}

impl From<AllocError> for OfferRefusal {
    ghost from_gives = { λ _ e. e ≡ NoMemory };

    fn from(_error: AllocError) -> OfferRefusal {
        OfferRefusal::NoMemory
    }
}

impl<T: Drop> From<AllocFailed<T>> for OfferRefusal {
    ghost from_gives = { λ _ e. e ≡ NoMemory };

    fn from(_error: AllocFailed<T>) -> OfferRefusal {
        OfferRefusal::NoMemory
    }
}
