//! Which part of its history an offer names.
//!
//! A message tells it by one byte behind its version. Version 1 of the format has no such byte, and its messages are of
//! what is served.
ghost use Rattle.std.specs.Prelude.{◌≡◌, Ok, Err};
ghost use Rattle.hg_marker.specs.Reading.{IsReading};
ghost use Rattle.hg_message.specs.Scope.{scope_number, scope_of};

use crate::error::MessageFault;
use crate::place::truncated;
use hg_marker::read_byte;

/// The version without a field for the scope.
pub(crate) const VERSION_WITHOUT_SCOPE: u8 = 1;

/// Which part of its history an offer names.
#[derive(Clone, Copy, PartialEq, Eq, Debug)]
pub enum Scope {
    /// What is served, and neither secret nor hidden, with the markers that are relevant to it.
    Served,
    /// All that isn't secret, with every marker.
    Whole,
}

impl Scope {
    // Its number in the bytes of a message.
    pub(crate) fn number(self) -> u8
        ensures { result ≡ scope_number self }
    {
        match self {
            Scope::Served => 0,
            Scope::Whole => 1,
        }
    }
}

/// The scope that is told behind this version, at the front of the rest of so many bytes, and the bytes after it.
#[tactic(auto, unfolding(crate::specs::Scope::scope_of, crate::specs::Scope::scope_at))]
pub(crate) fn read_scope(
    total: usize,
    version: u8,
    bytes: &[u8],
) -> Result<(Scope, &[u8]), MessageFault>
    ensures { IsReading (λ x. (x.0, x.1.now)) result (scope_of total version bytes.now) }
{
    if version == VERSION_WITHOUT_SCOPE {
        return Ok((Scope::Served, bytes));
    }
    let (number, rest) = read_byte(bytes, truncated(total, bytes))?;
    match number {
        0 => Ok((Scope::Served, rest)),
        1 => Ok((Scope::Whole, rest)),
        _ => Err(MessageFault::BadScope),
    }
}
