//! What precedes an id, by a walk over markers from successors to predecessors.
//!
//! The ids that it leads to need not be held. They are numbered in a set that is its own queue, so that what is fewer
//! steps away comes first; each is looked at once, and so is each marker.
ghost use Rattle.std.specs.Prelude.{◌↔◌, Contains, IfOk, OnOk, IsTrue};
ghost use Rattle.hg_changeset.specs.declared.node.Node.{Node};
ghost use Rattle.hg_replica.specs.Content.{content_of};
ghost use Rattle.hg_replica.specs.Evolution.{IsBumpedFix, Precedes};
ghost use Rattle.hg_instab.specs.Walk.{Adds};
ghost use Rattle.hg_why.specs.Before.{IsBack, IsOver, LeadsBackTo};

use hg_changeset::Node;
use hg_marker::Marker;
use hg_node_set::NodeSet;
use hg_obsstore::Store;
use hg_replica::Replica;
use std::alloc::{AllocError, Global};

// The flag of a marker whose successors were written in answer to a predecessor that had become public: Mercurial's
// bumpedfix.
const BUMPED_FIX: u8 = 1;

// The markers over which steps go.
#[derive(Clone, Copy)]
pub(crate) enum Steps {
    OverAny,
    OverNoBumpedFix,
}

// What precedes an id, that which is fewer steps away first. It costs the markers that lead to it.
pub(crate) fn preceding(
    alloc: Global,
    replica: &Replica,
    steps: Steps,
    node: Node,
) -> Result<NodeSet, AllocError>
    ensures { IfOk result (λ found. (p : Node)
        → Contains found.keys p ↔ Precedes (content_of replica.now) (IsOver steps) p node) }
{
    let store = replica.store();
    let mut found = NodeSet::with_keys(alloc, replica.keys());
    add_back(store, steps, node, &mut found)?;
    let mut next = 0;
    while next < found.len() {
        let earlier = found.as_slice()[next];
        add_back(store, steps, earlier, &mut found)?;
        next += 1;
    }
    Ok(found)
}

// Adds what one step back leads to.
fn add_back(store: &Store, steps: Steps, node: Node, found: &mut NodeSet) -> Result<(), AllocError>
    ensures { OnOk result (Adds (IsBack steps store.now node) found.old.keys found.new.keys) }
{
    for place in store.with_successor(node) {
        match store.get(*place) {
            Some(marker) => step_back(marker, steps, found)?,
            None => {}
        }
    }
    Ok(())
}

// Adds the predecessor of a marker, if steps go over it.
fn step_back(marker: &Marker, steps: Steps, found: &mut NodeSet) -> Result<(), AllocError>
    ensures { OnOk result (Adds (LeadsBackTo steps marker.now) found.old.keys found.new.keys) }
{
    if is_over(marker, steps) {
        found.insert(marker.predecessor())?;
    }
    Ok(())
}

fn is_over(marker: &Marker, steps: Steps) -> bool
    ensures { IsTrue result ↔ IsOver steps marker.now }
{
    match steps {
        Steps::OverAny => true,
        Steps::OverNoBumpedFix => !is_bumped_fix(marker),
    }
}

fn is_bumped_fix(marker: &Marker) -> bool
    ensures { IsTrue result ↔ IsBumpedFix marker.now }
{
    marker.flags() & BUMPED_FIX != 0
}
