//! Roots: the nodes at which a phase begins.
//!
//! The phases of a graph's changesets are kept short by their roots alone. A changeset has the highest phase of a root
//! that it is, or descends from, and it is public where there is none.
ghost use Rattle.std.specs.Prelude.{◌≡◌};

use crate::phase::Phase;
use hg_changeset::Node;
use std::alloc::Global;
use std::marker::Model;

/// Nodes with their phases, in the order in which they were listed. Any list will do: it may be redundant, and it may
/// name nodes that nobody holds. Two are equal where they list the same, in the same order.
#[derive(Debug, Drop)]
pub struct Roots {
    listed: Vec<(Phase, Node)>,
}

impl Model for Roots {
    ghost use Rattle.std.specs.Prelude.{List};
    ghost use Rattle.hg_changeset.specs.declared.node.Node.{Node};
    ghost use Rattle.hg_phases.specs.declared.phase.Phase.{Phase};

    ghost Value = { List (Phase × Node) };

    ghost view = { λ roots. roots.listed.items };
}

impl PartialEq for Roots {
    ghost use Rattle.std.specs.Cmp.{partial_equiv_from_equiv};
    ghost use Rattle.hg_phases.specs.Same.{same_roots, roots_equivalence};

    ghost eq = { same_roots };

    ghost laws = { partial_equiv_from_equiv roots_equivalence };

    fn eq(&self, other: &Roots) -> bool {
        self.listed == other.listed
    }
}

impl Eq for Roots {
    ghost use Rattle.hg_phases.specs.Same.{roots_equivalence};

    ghost laws = { roots_equivalence };
}

impl Roots {
    /// The roots that are listed.
    pub fn new(listed: Vec<(Phase, Node)>) -> Roots
        ensures { result ≡ listed.items }
    {
        Roots { listed }
    }

    /// What is listed.
    pub fn as_slice(&self) -> &[(Phase, Node)]
        ensures { result.now ≡ self.now }
    {
        &self.listed
    }

    /// Where the list's memory comes from.
    pub fn allocator(&self) -> Global {
        *self.listed.allocator()
    }
}
