//! Why there is no message, and why bytes are none.
ghost use Rattle.std.specs.Prelude.{◌≡◌, Some};
ghost use Rattle.hg_message.specs.Refusals.{message_error_number, message_error_name, message_fault_number};
ghost use Rattle.hg_message.specs.Refusals.{message_fault_text};

use hg_obsstore::StoreFault;
use std::error::Error;
use std::fmt;

/// Why changesets, bounds and markers make no message.
#[derive(Clone, Copy, PartialEq, Eq, Debug)]
pub enum MessageError {
    /// There are more than 4,294,967,295 changesets or bounds, or the markers take more than so many bytes as written.
    TooLarge,
}

impl MessageError {
    /// The refusal's number.
    pub fn number(self) -> u8
        ensures { result ≡ message_error_number self }
    {
        match self {
            MessageError::TooLarge => 1,
        }
    }
}

impl fmt::Display for MessageError {
    ghost output = { λ refusal. Some (message_error_name refusal) };

    fn fmt<W: fmt::Write>(&self, f: &mut fmt::Formatter<W>) -> fmt::Result {
        match *self {
            MessageError::TooLarge => write!(f, "TooLarge"),
        }
    }
}

impl Error for MessageError {}

/// What is wrong with the bytes of a message: the first fault from the front. Places count from the first byte, and
/// records from the first, which have number 0.
#[derive(Clone, Copy, PartialEq, Eq, Debug)]
pub enum MessageFault {
    /// The field that begins at this place isn't whole.
    Truncated(usize),
    /// They don't begin with `HGFX`.
    BadMagic,
    /// The version is neither 1 nor 2.
    BadVersion,
    /// The node of this record isn't the hash of its parents and its text, or is the null id.
    HashMismatch(u32),
    /// The parents of this record are one changeset.
    BadParents(u32),
    /// The phase of a bound isn't 0, 1 or 2.
    BadPhase,
    /// The store can't be read, for this cause. This is the place of its version byte, or of the first byte of the
    /// marker at fault.
    BadMarker(usize, StoreFault),
    /// Bytes follow the store.
    Trailing,
    /// The text of this record has more than [`TEXT_LIMIT`](hg_changeset::TEXT_LIMIT) bytes.
    TextTooLong(u32),
    /// The scope is neither 0 nor 1. It is told before the count of records is read.
    BadScope,
}

impl MessageFault {
    /// The fault's number, from 1.
    pub fn number(self) -> u8
        ensures { result ≡ message_fault_number self }
    {
        match self {
            MessageFault::Truncated(_) => 1,
            MessageFault::BadMagic => 2,
            MessageFault::BadVersion => 3,
            MessageFault::HashMismatch(_) => 4,
            MessageFault::BadParents(_) => 5,
            MessageFault::BadPhase => 6,
            MessageFault::BadMarker(_, _) => 7,
            MessageFault::Trailing => 8,
            MessageFault::TextTooLong(_) => 9,
            MessageFault::BadScope => 10,
        }
    }
}

impl fmt::Display for MessageFault {
    ghost output = { λ fault. Some (message_fault_text fault) };

    fn fmt<W: fmt::Write>(&self, f: &mut fmt::Formatter<W>) -> fmt::Result {
        match *self {
            MessageFault::Truncated(place) => write!(f, "Truncated at {place}"),
            MessageFault::BadMagic => write!(f, "BadMagic"),
            MessageFault::BadVersion => write!(f, "BadVersion"),
            MessageFault::HashMismatch(index) => write!(f, "HashMismatch in record {index}"),
            MessageFault::BadParents(index) => write!(f, "BadParents in record {index}"),
            MessageFault::BadPhase => write!(f, "BadPhase"),
            MessageFault::BadMarker(place, cause) => write!(f, "BadMarker at {place}: {cause}"),
            MessageFault::Trailing => write!(f, "Trailing"),
            MessageFault::TextTooLong(index) => write!(f, "TextTooLong in record {index}"),
            MessageFault::BadScope => write!(f, "BadScope"),
        }
    }
}

impl Error for MessageFault {}
