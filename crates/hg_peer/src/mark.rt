//! What is to be done to what is a peer's own.
use hg_changeset::Node;

/// What is to be done to a peer's pins. They are its own: no part of what it holds, and in no message.
#[derive(Clone, Copy, PartialEq, Eq, Debug)]
pub enum Mark {
    /// A changeset that is held is to be pinned. A second pin of it changes nothing.
    Pin(Node),

    /// The pin of a changeset is to be taken away.
    Unpin(Node),
}
