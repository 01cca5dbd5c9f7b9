//! Why a changeset was not added.
ghost use Rattle.std.specs.Prelude.{◌≡◌};
ghost use Rattle.hg_graph.specs.GraphError.{number};
ghost use Rattle.hg_graph.specs.declared.error.GraphError.TheVariants.{NoMemory};

use hg_changeset::Node;
use std::alloc::{AllocError, AllocFailed};
use std::error::Error;
use std::fmt;

/// Why a changeset was not added to a graph, which stays as it was.
#[derive(Clone, Copy, PartialEq, Eq, Debug)]
pub enum GraphError {
    /// This parent isn't held: the first such one, in normal form.
    UnknownParent(Node),
    /// Another changeset with this id is held.
    Collision(Node),
    /// The graph could not grow.
    NoMemory,
}

impl GraphError {
    /// The number of the refusal. Want of memory has none.
    pub fn number(self) -> Option<u8>
        ensures { result ≡ number self }
    {
        match self {
            GraphError::UnknownParent(_) => Some(1),
            GraphError::Collision(_) => Some(2),
            GraphError::NoMemory => None,
        }
    }
}

impl fmt::Display for GraphError {
    ghost use Rattle.std.specs.Prelude.{Some};
    ghost use Rattle.hg_graph.specs.GraphError.{name};

    ghost output = { λ error. Some (name error) };

    fn fmt<W: fmt::Write>(&self, f: &mut fmt::Formatter<W>) -> fmt::Result {
        match self {
            GraphError::UnknownParent(_) => f.write_str("UnknownParent"),
            GraphError::Collision(_) => f.write_str("Collision"),
            GraphError::NoMemory => f.write_str("NoMemory"),
        }
    }
}

impl Error for GraphError {}

impl From<AllocError> for GraphError {
    ghost from_gives = { λ _ e. e ≡ NoMemory };

    fn from(_error: AllocError) -> GraphError {
        GraphError::NoMemory
    }
}

impl<T: Drop> From<AllocFailed<T>> for GraphError {
    ghost from_gives = { λ _ e. e ≡ NoMemory };

    fn from(_error: AllocFailed<T>) -> GraphError {
        GraphError::NoMemory
    }
}
