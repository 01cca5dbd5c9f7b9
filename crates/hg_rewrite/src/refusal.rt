//! Why an operation is refused.
ghost use Rattle.std.specs.Prelude.{◌≡◌, Some};
ghost use Rattle.hg_rewrite.specs.declared.refusal.Refusal.TheVariants.{NoMemory};
ghost use Rattle.hg_rewrite.specs.Names.{refusal_number, refusal_name};

use hg_changeset::{ChangesetError, EntryError, Node};
use hg_marker::MarkerError;
use std::alloc::{AllocError, AllocFailed};
use std::error::Error;
use std::fmt;

/// What is at fault in what an operation would write.
#[derive(Clone, Copy, PartialEq, Eq, Debug)]
pub enum Cause {
    /// An entry has no text, or the user of a prune is none.
    Entry(EntryError),
    /// There is no such changeset.
    Changeset(ChangesetError),
    /// There is no such marker.
    Marker(MarkerError),
}

/// Why an operation is refused. Refusals are tried in this order, each over the whole operation.
#[derive(Clone, Copy, PartialEq, Eq, Debug)]
pub enum Refusal {
    /// A named node isn't held.
    Unknown(Node),
    /// A parent that a commit or a relocate names is hidden under the pins.
    Hidden(Node),
    /// A node to be rewritten is public.
    Public(Node),
    /// A node to be rewritten is obsolete.
    AlreadyObsolete(Node),
    /// Nodes to be folded are no line of sole parents, or a node would be relocated onto itself or a descendant.
    NotLinear,
    /// A split has fewer than 2 entries or more than 255, or a fold fewer than 2 nodes.
    Count,
    /// An advance names a phase above the present one.
    Raise,
    /// There is no such entry, changeset or marker.
    Fault(Cause),
    /// A new changeset's id is held already, or comes twice.
    Exists(Node),
    /// Memory was wanting.
    NoMemory,
}

impl Refusal {
    /// The number that a user reads. Want of memory has none.
    pub fn number(self) -> Option<u8>
        ensures { result ≡ refusal_number self }
    {
        match self {
            Refusal::Unknown(_) => Some(1),
            Refusal::Hidden(_) => Some(2),
            Refusal::Public(_) => Some(3),
            Refusal::AlreadyObsolete(_) => Some(4),
            Refusal::NotLinear => Some(5),
            Refusal::Count => Some(6),
            Refusal::Raise => Some(7),
            Refusal::Fault(_) => Some(8),
            Refusal::Exists(_) => Some(9),
            Refusal::NoMemory => None,
        }
    }
}

impl fmt::Display for Refusal {
    ghost output = { λ refusal. Some (refusal_name refusal) };

    fn fmt<W: fmt::Write>(&self, f: &mut fmt::Formatter<W>) -> fmt::Result {
        match *self {
            Refusal::Unknown(_) => write!(f, "Unknown"),
            Refusal::Hidden(_) => write!(f, "Hidden"),
            Refusal::Public(_) => write!(f, "Public"),
            Refusal::AlreadyObsolete(_) => write!(f, "AlreadyObsolete"),
            Refusal::NotLinear => write!(f, "NotLinear"),
            Refusal::Count => write!(f, "Count"),
            Refusal::Raise => write!(f, "Raise"),
            Refusal::Fault(_) => write!(f, "Fault"),
            Refusal::Exists(_) => write!(f, "Exists"),
            Refusal::NoMemory => write!(f, "NoMemory"),
        }
    }
}

impl Error for Refusal {}

impl From<AllocError> for Refusal {
    ghost from_gives = { λ _ e. e ≡ NoMemory };

    fn from(_error: AllocError) -> Refusal {
        Refusal::NoMemory
    }
}

impl<T: Drop> From<AllocFailed<T>> for Refusal {
    ghost from_gives = { λ _ e. e ≡ NoMemory };

    fn from(_error: AllocFailed<T>) -> Refusal {
        Refusal::NoMemory
    }
}
