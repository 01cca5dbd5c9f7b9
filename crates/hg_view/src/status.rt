//! All that is told of one changeset.
ghost use Rattle.std.specs.Prelude.{◌↔◌, IsTrue, Contains, MatchOption};
ghost use Rattle.hg_changeset.specs.declared.node.Node.{Node};
ghost use Rattle.hg_history.specs.Content.{IsHeld};
ghost use Rattle.hg_replica.specs.Content.{content_of};
ghost use Rattle.hg_replica.specs.Evolution.{HasPhase};
ghost use Rattle.hg_view.specs.Status.{IsStatus};

use crate::kept::Kept;
use hg_changeset::Node;
use hg_phases::Phase;
use hg_replica::Replica;
use std::collections::BTreeSet;

/// What is so of one changeset, by the names of Mercurial's instabilities.
#[derive(Clone, Copy, PartialEq, Eq, Debug)]
pub struct Status {
    /// Its phase, where it is held.
    pub phase: Option<Phase>,

    /// Not public, and rewritten or pruned.
    pub obsolete: bool,

    /// Neither public nor obsolete, above something obsolete.
    pub orphan: bool,

    /// Obsolete, below an orphan.
    pub suspended: bool,

    /// Obsolete and not suspended.
    pub extinct: bool,

    /// Neither public nor obsolete, though it rewrites what is public.
    pub phase_divergent: bool,

    /// Neither public nor obsolete, though something that it rewrites was rewritten in another way, too.
    pub content_divergent: bool,

    /// In view: it or a descendant of it is pinned or not obsolete.
    pub visible: bool,
}

impl Kept {
    /// All that is so of a changeset, by look-ups. What isn't held has no phase, is of no kind and isn't visible.
    pub fn status(&self, node: Node) -> Status
        ensures { IsStatus self.now node result }
    {
        let sets = self.instabilities();
        Status {
            phase: phase_in(self.replica(), node),
            obsolete: has(sets.obsolete(), node),
            orphan: has(sets.orphan(), node),
            suspended: has(sets.suspended(), node),
            extinct: has(sets.extinct(), node),
            phase_divergent: has(sets.phase_divergent(), node),
            content_divergent: has(sets.content_divergent(), node),
            visible: self.is_visible(node),
        }
    }
}

// Whether the set has the node.
fn has(set: &BTreeSet<Node>, node: Node) -> bool
    ensures { IsTrue result ↔ Contains set.now.keys node }
{
    set.contains(&node)
}

// Its phase, where it is held. The replica tells that without memory.
fn phase_in(replica: &Replica, node: Node) -> Option<Phase>
    ensures { MatchOption result (¬ (IsHeld (content_of replica.now).0 node)) (HasPhase (content_of replica.now) node) }
{
    match replica.phase_of(node) {
        Ok(phase) => phase,
        Err(_) => None,
    }
}
