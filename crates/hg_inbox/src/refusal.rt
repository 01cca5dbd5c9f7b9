//! What an inbox refuses.
ghost use Rattle.std.specs.Prelude.{◌≡◌, Some, codes};
ghost use Rattle.hg_inbox.specs.Refusals.{inbox_refusal_number, inbox_refusal_name};

use std::error::Error;
use std::fmt;

/// Why an inbox was not made, gave no seat or was not closed. A full inbox answers [`Full`].
#[derive(Clone, Copy, PartialEq, Eq, Debug)]
pub enum InboxRefusal {
    /// An inbox holds at least one message.
    ZeroCapacity,
    /// Fewer seats came back than were made.
    SeatsOut,
    /// As many seats were made as there may be.
    NoSeat,
    /// Memory was wanting.
    NoMemory,
}

impl InboxRefusal {
    /// The number that a user reads. Want of memory has none.
    pub fn number(self) -> Option<u8>
        ensures { result ≡ inbox_refusal_number self }
    {
        match self {
            InboxRefusal::ZeroCapacity => Some(1),
            InboxRefusal::SeatsOut => Some(3),
            InboxRefusal::NoSeat => Some(4),
            InboxRefusal::NoMemory => None,
        }
    }
}

impl fmt::Display for InboxRefusal {
    ghost output = { λ refusal. Some (inbox_refusal_name refusal) };

    fn fmt<W: fmt::Write>(&self, f: &mut fmt::Formatter<W>) -> fmt::Result {
        match self {
            InboxRefusal::ZeroCapacity => f.write_str("ZeroCapacity"),
            InboxRefusal::SeatsOut => f.write_str("SeatsOut"),
            InboxRefusal::NoSeat => f.write_str("NoSeat"),
            InboxRefusal::NoMemory => f.write_str("NoMemory"),
        }
    }
}

impl Error for InboxRefusal {}

/// The inbox was full. The message comes back.
#[derive(Debug, Drop)]
pub struct Full {
    /// The message that was not put.
    pub message: Vec<u8>,
}

impl Full {
    /// The number that a user reads.
    pub fn number(&self) -> u8
        ensures { result ≡ 2 }
    {
        2
    }
}

impl fmt::Display for Full {
    ghost output = { λ _. Some (codes "Full") };

    fn fmt<W: fmt::Write>(&self, f: &mut fmt::Formatter<W>) -> fmt::Result {
        f.write_str("Full")
    }
}

impl Error for Full {}
