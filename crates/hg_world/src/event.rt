//! What may be asked of a world, and what it answers.
use std::error::Error;
use std::fmt;

/// What is to be done at a node: an operation of its own, an offer, a message of the pool that it is to take, or a
/// mark. `at` is the node's place, and `message` the message's number, both counted from 0.
#[derive(Drop)]
pub enum Event<O, A, M> {
    Local { at: usize, op: O },
    Offer { at: usize, ask: A },
    Take { at: usize, message: usize },

    /// What is to be done to what is the node's own.
    Mark { at: usize, mark: M },
}

/// Why an event was refused. A missing node is told first, and then a missing message. Its text is the name of the
/// missing thing, or that of the node's refusal.
#[derive(Debug, Drop, PartialEq, Eq)]
pub enum EventRefusal<R, F> {
    /// The world has no such node.
    NoNode,

    /// The pool has no such message.
    NoMessage,

    /// The node refuses the operation, the offer, the bytes or the mark.
    ByActor(R),

    /// The node does not absorb the part.
    ByState(F),
}

impl<R: fmt::Display, F: fmt::Display> fmt::Display for EventRefusal<R, F> {
    ghost use Rattle.hg_world.specs.Texts.{refusal_text};

    ghost output = { refusal_text R.output F.output };

    fn fmt<W: fmt::Write>(&self, f: &mut fmt::Formatter<W>) -> fmt::Result {
        match self {
            EventRefusal::NoNode => f.write_str("NoNode"),
            EventRefusal::NoMessage => f.write_str("NoMessage"),
            EventRefusal::ByActor(refusal) => write!(f, "{refusal}"),
            EventRefusal::ByState(fault) => write!(f, "{fault}"),
        }
    }
}

impl<R: fmt::Debug + fmt::Display + Drop, F: fmt::Debug + fmt::Display + Drop> Error
    for EventRefusal<R, F> {}

/// What became of an event.
#[derive(Debug, Drop, PartialEq, Eq)]
pub enum Answer<C, R, F> {
    /// The node took the part in, and this changed.
    Accepted(C),

    /// The offer is the message with this number, counted from 0.
    Offered(usize),

    /// The node marked what is its own. No content and no message changed.
    Marked,

    /// Nothing changed.
    Refused(EventRefusal<R, F>),
}
