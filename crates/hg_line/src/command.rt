//! Commands: what a line asks for.
use crate::marking::Marking;
use crate::operation::Operation;
use hg_peer::Scope;

/// A line's command.
#[derive(Clone, Copy)]
pub enum Command<'a> {
    /// A new empty replica of this name.
    Node(&'a [u8]),
    /// An operation at the replica of this name.
    Operation(&'a [u8], Operation<'a>),
    /// A mark of what is the own of the node with this name.
    Mark(&'a [u8], Marking<'a>),
    /// What a replica offers of a scope above the changesets of these labels, kept as the message of this name: scope,
    /// replica, message, labels.
    Offer(Scope, &'a [u8], &'a [u8], &'a [&'a [u8]]),
    /// A replica takes in a message: replica, message.
    Take(&'a [u8], &'a [u8]),
    /// The first replica takes in what the second offers of a scope: what is served above what both have in common, or
    /// the whole of it.
    Pull(Scope, &'a [u8], &'a [u8]),
    /// The report of the replica of this name.
    Report(&'a [u8]),
    /// Whether two replicas agree.
    Agree(&'a [u8], &'a [u8]),
}
