//! Why a peer refuses, and a world of peers.
ghost use Rattle.std.specs.Prelude.{◌≡◌, ℕ, Option, Some};
ghost use Rattle.hg_peer.specs.declared.refusal.PeerRefusal.TheVariants.{NoMemory as OutOfMemory};
ghost use Rattle.hg_peer.specs.Refusals.{peer_refusal_number, peer_refusal_text, rewrite_refusal, offer_refusal};
ghost use Rattle.hg_peer.specs.Refusals.{message_refusal, pin_refusal};

use hg_history::Fault;
use hg_marker::ReadError;
use hg_message::{MessageFault, OfferRefusal};
use hg_rewrite::Refusal;
use hg_view::PinRefusal;
use hg_world::EventRefusal;
use std::alloc::AllocError;
use std::error::Error;
use std::fmt;

/// Why a peer refuses an operation, an offer, bytes or a mark. Want of memory is [`NoMemory`](PeerRefusal::NoMemory)
/// for each of them.
#[derive(Clone, Copy, PartialEq, Eq, Debug)]
pub enum PeerRefusal {
    /// The operation is refused.
    Rewrite(Refusal),
    /// Nothing is offered above the common nodes.
    Offer(OfferRefusal),
    /// The bytes are no message.
    Message(MessageFault),
    /// The changeset is not pinned, or its pin not taken away.
    View(PinRefusal),
    /// Memory was wanting.
    NoMemory,
}

impl PeerRefusal {
    /// The number that a user reads: that of the operation's refusal, of the offer's, of the message's fault or of the
    /// pin's refusal. Want of memory has none.
    pub fn number(self) -> Option<u8>
        ensures { result ≡ peer_refusal_number self }
    {
        match self {
            PeerRefusal::Rewrite(refusal) => refusal.number(),
            PeerRefusal::Offer(refusal) => refusal.number(),
            PeerRefusal::Message(fault) => Some(fault.number()),
            PeerRefusal::View(refusal) => refusal.number(),
            PeerRefusal::NoMemory => None,
        }
    }
}

/// A refusal that a user reads by a number.
pub trait Numbered {
    /// Its number, if it has one.
    ghost number_of: { Self → Option ℕ };

    /// The number that a user reads, if it has one.
    fn number(&self) -> Option<u8>
        ensures { result ≡ number_of self.now };
}

/// Of a refused event of peers: 1 where the world has no such node, 2 where it has no such message, and else that of
/// the peer's refusal or of the part's fault. Want of memory has none.
impl Numbered for EventRefusal<PeerRefusal, Fault> {
    ghost use Rattle.hg_peer.specs.Refusals.{event_refusal_number};

    ghost number_of = { event_refusal_number };

    fn number(&self) -> Option<u8> {
        match self {
            EventRefusal::NoNode => Some(1),
            EventRefusal::NoMessage => Some(2),
            EventRefusal::ByActor(refusal) => refusal.number(),
            EventRefusal::ByState(fault) => fault.number(),
        }
    }
}

impl fmt::Display for PeerRefusal {
    ghost output = { λ refusal. Some (peer_refusal_text refusal) };

    fn fmt<W: fmt::Write>(&self, f: &mut fmt::Formatter<W>) -> fmt::Result {
        match self {
            PeerRefusal::Rewrite(refusal) => write!(f, "{refusal}"),
            PeerRefusal::Offer(refusal) => write!(f, "{refusal}"),
            PeerRefusal::Message(fault) => write!(f, "{fault}"),
            PeerRefusal::View(refusal) => write!(f, "{refusal}"),
            PeerRefusal::NoMemory => write!(f, "NoMemory"),
        }
    }
}

impl Error for PeerRefusal {}

impl From<Refusal> for PeerRefusal {
    ghost from_gives = { λ refusal e. e ≡ rewrite_refusal refusal };

    fn from(refusal: Refusal) -> PeerRefusal {
        match refusal {
            Refusal::NoMemory => PeerRefusal::NoMemory,
            _ => PeerRefusal::Rewrite(refusal),
        }
    }
}

impl From<OfferRefusal> for PeerRefusal {
    ghost from_gives = { λ refusal e. e ≡ offer_refusal refusal };

    fn from(refusal: OfferRefusal) -> PeerRefusal {
        match refusal {
            OfferRefusal::NoMemory => PeerRefusal::NoMemory,
            _ => PeerRefusal::Offer(refusal),
        }
    }
}

impl From<ReadError<MessageFault>> for PeerRefusal {
    ghost from_gives = { λ error e. e ≡ message_refusal error };

    fn from(error: ReadError<MessageFault>) -> PeerRefusal {
        match error {
            ReadError::Fault(fault) => PeerRefusal::Message(fault),
            ReadError::NoMemory => PeerRefusal::NoMemory,
        }
    }
}

impl From<PinRefusal> for PeerRefusal {
    ghost from_gives = { λ refusal e. e ≡ pin_refusal refusal };

    fn from(refusal: PinRefusal) -> PeerRefusal {
        match refusal {
            PinRefusal::NoMemory => PeerRefusal::NoMemory,
            _ => PeerRefusal::View(refusal),
        }
    }
}

impl From<AllocError> for PeerRefusal {
    ghost from_gives = { λ _ e. e ≡ OutOfMemory };

    fn from(_error: AllocError) -> PeerRefusal {
        PeerRefusal::NoMemory
    }
}
