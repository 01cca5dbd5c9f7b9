//! What comes to the orphans or leaves them with a change, by a walk up from what the change touched.
//!
//! Parents tell whether a changeset is an orphan.
ghost use Rattle.std.specs.Prelude.{◌≡◌, ◌↔◌, ◌⊎◌, ◌<◌, ℕ, Some, length, Contains, IsTrue, IfOk};
ghost use Rattle.hg_changeset.specs.declared.node.Node.{Node};
ghost use Rattle.hg_graph.specs.Places.{IsAt};
ghost use Rattle.hg_phases.specs.State.{changesets};
ghost use Rattle.hg_replica.specs.State.{ReplicaState, IsValid};
ghost use Rattle.hg_replica.specs.Content.{content_of};
ghost use Rattle.hg_replica.specs.Change.{ChangeValue};
ghost use Rattle.hg_replica.specs.Evolution.{IsObsolete, IsOrphan};
ghost use Rattle.hg_instab.specs.Changed.{Follows, AreSeeded, IsNow};
ghost use Rattle.hg_instab.specs.Local.{IsParentOf, StandsUnstably};

use crate::child_hints::ChildHints;
use crate::query::{is_current, is_obsolete_at};
use crate::settling::{Kind, settle_all};
use crate::turned::has_now;
use crate::waiting::{Beside, waiting_from};
use hg_changeset::Node;
use hg_replica::Replica;
use std::alloc::{AllocError, Global};
use std::collections::BTreeSet;

// The nodes that come to the orphans or leave them with a change to what the replica holds now. The seeds are at the
// places of what the change moved or rewrote, and of no other node than those that are given as turned it differs
// whether it is obsolete.
pub(crate) fn turned_orphans(
    alloc: Global,
    replica: &Replica,
    orphan: &BTreeSet<Node>,
    seeds: &[usize],
    turned_obsolete: &[Node],
) -> Result<BTreeSet<Node>, AllocError>
    requires { (k : ℕ) → Contains seeds.now k → k < length (changesets replica.now.history) }
    ensures { IfOk result (λ turned. (s : ReplicaState) (change : ChangeValue) → IsValid s
        → Follows (content_of s) (content_of replica.now) change replica.now.markers
        → AreSeeded replica.now change seeds.now
        → ((n : Node) → ¬ (Contains turned_obsolete.now n)
        → IsObsolete (content_of replica.now) n ↔ IsObsolete (content_of s) n)
        → ((n : Node) → Contains orphan.now.keys n ↔ IsOrphan (content_of s) n)
        → (n : Node) → IsNow orphan.now.keys turned.keys n ↔ IsOrphan (content_of replica.now) n) }
{
    let graph = replica.graph();
    let others = graph.places_of(turned_obsolete)?;
    let waiting = waiting_from(alloc, graph, seeds, Beside::Children, &others)?;
    settle_all(
        alloc,
        replica,
        Kind::Orphan,
        orphan,
        &mut ChildHints::new(alloc),
        waiting,
    )
}

// Whether it is neither public nor obsolete, and a parent is obsolete, or an orphan now.
pub(crate) fn is_orphan_now(
    replica: &Replica,
    orphan: &BTreeSet<Node>,
    turned: &BTreeSet<Node>,
    place: usize,
    node: Node,
) -> bool
    requires { IsAt (changesets replica.now.history) node place }
    ensures { IsTrue result
        ↔ StandsUnstably (content_of replica.now) (IsNow orphan.now.keys turned.now.keys) node }
{
    is_current(replica, node) && stands_on_unstable(replica, orphan, turned, place, node)
}

// Whether a parent is obsolete, or an orphan now.
pub(crate) fn stands_on_unstable(
    replica: &Replica,
    orphan: &BTreeSet<Node>,
    turned: &BTreeSet<Node>,
    place: usize,
    node: Node,
) -> bool
    requires { IsAt (changesets replica.now.history) node place }
    ensures { IsTrue result ↔ ((p : Node) × IsParentOf (content_of replica.now) p node
        × (IsObsolete (content_of replica.now) p ⊎ IsNow orphan.now.keys turned.now.keys p)) }
{
    let parents = replica.graph().parent_places(place);
    is_unstable_at(replica, orphan, turned, parents.first)
        || is_unstable_at(replica, orphan, turned, parents.second)
}

// Whether there is a place, and what stands there is obsolete, or an orphan now.
fn is_unstable_at(
    replica: &Replica,
    orphan: &BTreeSet<Node>,
    turned: &BTreeSet<Node>,
    place: Option<usize>,
) -> bool
    ensures { IsTrue result
        ↔ ((k : ℕ) × (p : Node) × (place ≡ Some k) × IsAt (changesets replica.now.history) p k
        × (IsObsolete (content_of replica.now) p ⊎ IsNow orphan.now.keys turned.now.keys p)) }
{
    match place {
        Some(place) => match replica.graph().node_at(place) {
            Some(node) => is_obsolete_at(replica, place) || has_now(orphan, turned, node),
            None => false,
        },
        None => false,
    }
}
