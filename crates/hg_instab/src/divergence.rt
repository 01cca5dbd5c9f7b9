//! What became different changesets with the markers that are followed, and what it leaves unstable.
//!
//! It is looked for from where it begins: from the ids of a region that are so, a walk goes on to successors.
ghost use Rattle.std.specs.Prelude.{◌↔◌, Contains, IfOk, IsTrue};
ghost use Rattle.hg_changeset.specs.declared.node.Node.{Node};
ghost use Rattle.hg_replica.specs.Content.{content_of};
ghost use Rattle.hg_replica.specs.Evolution.{IsCurrent};
ghost use Rattle.hg_instab.specs.Instabilities.{IsContentDivergent};
ghost use Rattle.hg_instab.specs.Near.{IsClosed};
ghost use Rattle.hg_instab.specs.Walk.{IsFork, IsReached, IsStep};

use crate::among::current_among;
use crate::walk::{Followed, Way, reached};
use hg_changeset::Node;
use hg_node_set::NodeSet;
use hg_obsstore::Store;
use hg_replica::Replica;
use hg_succ::several_among;
use std::alloc::{AllocError, Global};

// Those of a region that are content-divergent, where with an id all that markers name together with it is in the
// region.
pub(crate) fn divergent_within(
    alloc: Global,
    replica: &Replica,
    region: &[Node],
) -> Result<Vec<Node>, AllocError>
    ensures { IfOk result (λ found. IsClosed (content_of replica.now) (Contains region.now) → (n : Node)
        → Contains found.items n ↔ (Contains region.now n × IsContentDivergent (content_of replica.now) n)) }
{
    let starts = several_among(alloc, replica, region)?;
    current_from(alloc, replica, starts)
}

// What is neither public nor obsolete of the starts and of all that they lead to.
fn current_from(alloc: Global, replica: &Replica, starts: NodeSet) -> Result<Vec<Node>, AllocError>
    ensures { IfOk result (λ found. (n : Node) → Contains found.items n
        ↔ (IsReached (IsStep (Way.ToSuccessors Followed.Every) replica.now.markers) starts.keys n
        × IsCurrent (content_of replica.now) n)) }
{
    let led_to = reached(replica.store(), Way::ToSuccessors(Followed::Every), starts)?;
    current_among(alloc, replica, led_to.as_slice())
}

// Whether an id has two markers or more.
pub(crate) fn is_fork(store: &Store, node: Node) -> bool
    ensures { IsTrue result ↔ IsFork store.now node }
{
    store.mentions(node).as_predecessor().len() > 1
}
