//! Why a part is refused.
ghost use Rattle.std.specs.Prelude.{◌≡◌};
ghost use Rattle.hg_history.specs.Fault.{number};
ghost use Rattle.hg_history.specs.declared.fault.Fault.TheVariants.{NoMemory};

use hg_changeset::Node;
use std::alloc::{AllocError, AllocFailed};
use std::error::Error;
use std::fmt;

/// Why a part was refused by a history, which stays as it was.
#[derive(Clone, Copy, PartialEq, Eq, Debug)]
pub enum Fault {
    /// This parent of a changeset is neither held nor before it in the part: the first such one, in normal form.
    UnknownParent(Node),
    /// Another changeset with this id is held, or before this one in the part.
    Collision(Node),
    /// This node of a bound is neither held nor in the part.
    UnknownBound(Node),
    /// The node of a bound is the null id.
    NullBound,
    /// The history could not grow.
    NoMemory,
}

impl Fault {
    /// The number of the refusal. Want of memory has none.
    pub fn number(self) -> Option<u8>
        ensures { result ≡ number self }
    {
        match self {
            Fault::UnknownParent(_) => Some(1),
            Fault::Collision(_) => Some(2),
            Fault::UnknownBound(_) => Some(3),
            Fault::NullBound => Some(4),
            Fault::NoMemory => None,
        }
    }
}

impl fmt::Display for Fault {
    ghost use Rattle.std.specs.Prelude.{Some};
    ghost use Rattle.hg_history.specs.Fault.{name};

    ghost output = { λ fault. Some (name fault) };

    fn fmt<W: fmt::Write>(&self, f: &mut fmt::Formatter<W>) -> fmt::Result {
        match self {
            Fault::UnknownParent(_) => f.write_str("UnknownParent"),
            Fault::Collision(_) => f.write_str("Collision"),
            Fault::UnknownBound(_) => f.write_str("UnknownBound"),
            Fault::NullBound => f.write_str("NullBound"),
            Fault::NoMemory => f.write_str("NoMemory"),
        }
    }
}

impl Error for Fault {}

impl From<AllocError> for Fault {
    ghost from_gives = { λ _ e. e ≡ NoMemory };

    fn from(_error: AllocError) -> Fault {
        Fault::NoMemory
    }
}

impl<T: Drop> From<AllocFailed<T>> for Fault {
    ghost from_gives = { λ _ e. e ≡ NoMemory };

    fn from(_error: AllocFailed<T>) -> Fault {
        Fault::NoMemory
    }
}
