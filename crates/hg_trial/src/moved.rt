//! What came to a set of changesets, and what went from it.
ghost use Rattle.std.specs.Prelude.{IfOk, IsTrue, ◌↔◌, ◌≡◌, []};
ghost use Rattle.hg_trial.specs.Moved.{IsMovedBetween};

use hg_changeset::Node;
use std::alloc::AllocError;
use std::collections::BTreeSet;

/// The changesets that came to a kind, and those that went from it.
#[derive(Drop)]
pub struct Moved {
    /// Those that are of the kind and weren't.
    pub came: BTreeSet<Node>,

    /// Those that were of the kind and aren't.
    pub went: BTreeSet<Node>,
}

impl Moved {
    /// What came to a set and went from it, from what it was to what it is. It costs both sets.
    pub fn between(before: &BTreeSet<Node>, after: &BTreeSet<Node>) -> Result<Moved, AllocError>
        ensures { IfOk result (IsMovedBetween before.now.keys after.now.keys) }
    {
        Ok(Moved {
            came: (after - before)?,
            went: (before - after)?,
        })
    }

    /// Whether nothing came and nothing went.
    pub fn is_empty(&self) -> bool
        ensures { IsTrue result ↔ ((self.now.came.keys ≡ []) × (self.now.went.keys ≡ [])) }
    {
        self.came.is_empty() && self.went.is_empty()
    }
}
