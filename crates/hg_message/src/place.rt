//! Places in a message.
ghost use Rattle.std.specs.Prelude.{◌≡◌};
ghost use Rattle.hg_message.specs.Place.{truncated_at};

use crate::error::MessageFault;

/// The fault of a field that begins where these bytes are left of so many.
pub(crate) fn truncated(total: usize, rest: &[u8]) -> MessageFault
    ensures { result ≡ truncated_at total rest.now }
{
    MessageFault::Truncated(total.saturating_sub(rest.len()))
}
