//! What calls of a node answer.
ghost use Rattle.std.specs.Prelude.{◌≡◌, Some};
ghost use Rattle.hg_live.specs.NodeRefusals.{call_refusal, call_fault, call_refusal_number, call_refusal_text};
ghost use Rattle.hg_live.specs.NodeRefusals.{look_refusal_number, look_refusal_name, not_offered};
ghost use Rattle.hg_live.specs.NodeRefusals.{not_offered_number, not_offered_text, close_refusal_number};
ghost use Rattle.hg_live.specs.NodeRefusals.{close_refusal_name, no_pass_name};

use hg_history::Fault;
use hg_message::OfferRefusal;
use hg_peer::PeerRefusal;
use std::error::Error;
use std::fmt;

/// Whether the entry of an accepted call is published.
#[derive(Clone, Copy, PartialEq, Eq, Debug)]
pub enum Accepted {
    /// It is, and the pass has seen it.
    Shown,

    /// It is in the journal and in the working replica, and the pass was told so. Memory was wanting to publish it; the
    /// next call that is accepted publishes it too, where it can.
    Later,
}

/// Why a call that would change a node is refused. It changes nothing.
#[derive(Clone, Copy, PartialEq, Eq, Debug)]
pub enum CallRefusal {
    /// [`CALL_LIMIT`](crate::CALL_LIMIT) calls of the node were accepted. It is tried first.
    JournalFull,

    /// The operation or the mark is refused, or the bytes are no message.
    Refused(PeerRefusal),

    /// The message's part can't be taken in.
    Fault(Fault),

    /// Memory was wanting.
    NoMemory,
}

impl CallRefusal {
    /// The number that a user reads: 4 of a full journal, and else that of the peer's refusal or of the part's fault.
    /// Want of memory has none.
    pub fn number(self) -> Option<u8>
        ensures { result ≡ call_refusal_number self }
    {
        match self {
            CallRefusal::JournalFull => Some(4),
            CallRefusal::Refused(refusal) => refusal.number(),
            CallRefusal::Fault(fault) => fault.number(),
            CallRefusal::NoMemory => None,
        }
    }
}

impl fmt::Display for CallRefusal {
    ghost output = { λ refusal. Some (call_refusal_text refusal) };

    fn fmt<W: fmt::Write>(&self, f: &mut fmt::Formatter<W>) -> fmt::Result {
        match self {
            CallRefusal::JournalFull => write!(f, "JournalFull"),
            CallRefusal::Refused(refusal) => write!(f, "{refusal}"),
            CallRefusal::Fault(fault) => write!(f, "{fault}"),
            CallRefusal::NoMemory => write!(f, "NoMemory"),
        }
    }
}

impl Error for CallRefusal {}

impl From<PeerRefusal> for CallRefusal {
    ghost from_gives = { λ refusal e. e ≡ call_refusal refusal };

    fn from(refusal: PeerRefusal) -> CallRefusal {
        match refusal {
            PeerRefusal::NoMemory => CallRefusal::NoMemory,
            _ => CallRefusal::Refused(refusal),
        }
    }
}

impl From<Fault> for CallRefusal {
    ghost from_gives = { λ fault e. e ≡ call_fault fault };

    fn from(fault: Fault) -> CallRefusal {
        match fault {
            Fault::NoMemory => CallRefusal::NoMemory,
            _ => CallRefusal::Fault(fault),
        }
    }
}

/// Why a look at what is published tells nothing.
#[derive(Clone, Copy, PartialEq, Eq, Debug)]
pub enum LookRefusal {
    /// The store gave no guard, or one to a state that is older than what the pass has seen, which it never should. The
    /// pass is as it was.
    NotEntered,

    /// Memory was wanting. The pass may have seen more.
    NoMemory,
}

impl LookRefusal {
    /// The number that a user reads. Want of memory has none.
    pub fn number(self) -> Option<u8>
        ensures { result ≡ look_refusal_number self }
    {
        match self {
            LookRefusal::NotEntered => Some(2),
            LookRefusal::NoMemory => None,
        }
    }
}

impl fmt::Display for LookRefusal {
    ghost output = { λ refusal. Some (look_refusal_name refusal) };

    fn fmt<W: fmt::Write>(&self, f: &mut fmt::Formatter<W>) -> fmt::Result {
        match self {
            LookRefusal::NotEntered => f.write_str("NotEntered"),
            LookRefusal::NoMemory => f.write_str("NoMemory"),
        }
    }
}

impl Error for LookRefusal {}

/// Why nothing is offered.
#[derive(Clone, Copy, PartialEq, Eq, Debug)]
pub enum NotOffered {
    /// As [`LookRefusal::NotEntered`]. The pass is as it was.
    NotEntered,

    /// The state that is published refuses the offer. The pass may have seen more.
    Refused(PeerRefusal),

    /// Memory was wanting. The pass may have seen more.
    NoMemory,
}

impl NotOffered {
    /// The number that a user reads: 2 where there was no guard, and else that of the refused offer. Want of memory has
    /// none.
    pub fn number(self) -> Option<u8>
        ensures { result ≡ not_offered_number self }
    {
        match self {
            NotOffered::NotEntered => Some(2),
            NotOffered::Refused(refusal) => refusal.number(),
            NotOffered::NoMemory => None,
        }
    }
}

impl fmt::Display for NotOffered {
    ghost output = { λ refusal. Some (not_offered_text refusal) };

    fn fmt<W: fmt::Write>(&self, f: &mut fmt::Formatter<W>) -> fmt::Result {
        match self {
            NotOffered::NotEntered => write!(f, "NotEntered"),
            NotOffered::Refused(refusal) => write!(f, "{refusal}"),
            NotOffered::NoMemory => write!(f, "NoMemory"),
        }
    }
}

impl Error for NotOffered {}

impl From<OfferRefusal> for NotOffered {
    ghost from_gives = { λ refusal e. e ≡ not_offered refusal };

    fn from(refusal: OfferRefusal) -> NotOffered {
        match refusal {
            OfferRefusal::NoMemory => NotOffered::NoMemory,
            _ => NotOffered::Refused(PeerRefusal::Offer(refusal)),
        }
    }
}

/// There is no further pass: 16 are out, or [`PASS_LIMIT`](crate::PASS_LIMIT) were made.
#[derive(Clone, Copy, PartialEq, Eq, Debug)]
pub struct NoPass;

impl NoPass {
    /// The number that a user reads.
    pub fn number(self) -> u8
        ensures { result ≡ 1 }
    {
        1
    }
}

impl fmt::Display for NoPass {
    ghost output = { λ _. Some no_pass_name };

    fn fmt<W: fmt::Write>(&self, f: &mut fmt::Formatter<W>) -> fmt::Result {
        f.write_str("NoPass")
    }
}

impl Error for NoPass {}

/// Why a node is not closed.
#[derive(Clone, Copy, PartialEq, Eq, Debug)]
pub enum CloseRefusal {
    /// The accepted calls of the passes that came back aren't as many as the journal's entries: one of a pass that is
    /// missing or was dropped is among these.
    PassesOut,

    /// Memory was wanting for the copy of the replica.
    NoMemory,
}

impl CloseRefusal {
    /// The number that a user reads. Want of memory has none.
    pub fn number(self) -> Option<u8>
        ensures { result ≡ close_refusal_number self }
    {
        match self {
            CloseRefusal::PassesOut => Some(3),
            CloseRefusal::NoMemory => None,
        }
    }
}

impl fmt::Display for CloseRefusal {
    ghost output = { λ refusal. Some (close_refusal_name refusal) };

    fn fmt<W: fmt::Write>(&self, f: &mut fmt::Formatter<W>) -> fmt::Result {
        match self {
            CloseRefusal::PassesOut => f.write_str("PassesOut"),
            CloseRefusal::NoMemory => f.write_str("NoMemory"),
        }
    }
}

impl Error for CloseRefusal {}
