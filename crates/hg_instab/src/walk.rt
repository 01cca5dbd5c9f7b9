//! Steps over markers, from some ids to what they were rewritten to, or from there back as well.
//!
//! The ids that steps lead to need not be held. They are numbered in a set that is its own queue: each is looked at
//! once, and so is each marker.
ghost use Rattle.std.specs.Prelude.{◌↔◌, Contains, IfOk, OnOk, IsTrue};
ghost use Rattle.hg_changeset.specs.declared.node.Node.{Node};
ghost use Rattle.hg_replica.specs.Evolution.{IsBumpedFix};
ghost use Rattle.hg_instab.specs.Walk.{IsFollowed, IsReached, IsNext, IsBefore, IsStep, Adds};

use hg_changeset::Node;
use hg_marker::Marker;
use hg_node_set::NodeSet;
use hg_obsstore::Store;
use std::alloc::AllocError;

// The flag of a marker whose successors were written in answer to a predecessor that had become public: Mercurial's
// bumpedfix.
const BUMPED_FIX: u8 = 1;

// The markers that a walk to successors follows.
#[derive(Clone, Copy)]
pub(crate) enum Followed {
    Every,
    NotBumpedFix,
}

// Which way a walk takes.
#[derive(Clone, Copy)]
pub(crate) enum Way {
    ToSuccessors(Followed),
    Both,
}

// The starts, and all that steps lead to from them.
pub(crate) fn reached(store: &Store, way: Way, starts: NodeSet) -> Result<NodeSet, AllocError>
    ensures { IfOk result (λ seen. (n : Node) → Contains seen.keys n ↔ IsReached (IsStep way store.now) starts.keys n) }
{
    let mut seen = starts;
    let mut next = 0;
    while next < seen.len() {
        let node = seen.as_slice()[next];
        add_next(store, way, node, &mut seen)?;
        next += 1;
    }
    Ok(seen)
}

// Adds what one step from the node leads to.
fn add_next(store: &Store, way: Way, node: Node, seen: &mut NodeSet) -> Result<(), AllocError>
    ensures { OnOk result (Adds (IsStep way store.now node) seen.old.keys seen.new.keys) }
{
    match way {
        Way::ToSuccessors(followed) => add_successors(store, followed, node, seen),
        Way::Both => add_neighbors(store, node, seen),
    }
}

// Adds the successors of the node's markers, and the predecessors of the markers that have it as a successor.
fn add_neighbors(store: &Store, node: Node, seen: &mut NodeSet) -> Result<(), AllocError>
    ensures { OnOk result (Adds (IsStep Way.Both store.now node) seen.old.keys seen.new.keys) }
{
    add_successors(store, Followed::Every, node, seen)?;
    add_predecessors(store, node, seen)
}

// Adds the predecessors of the markers that have the node as a successor.
fn add_predecessors(store: &Store, node: Node, seen: &mut NodeSet) -> Result<(), AllocError>
    ensures { OnOk result (Adds (IsBefore store.now node) seen.old.keys seen.new.keys) }
{
    for place in store.with_successor(node) {
        match store.get(*place) {
            Some(marker) => {
                seen.insert(marker.predecessor())?;
            }
            None => {}
        }
    }
    Ok(())
}

// Adds the successors of those markers of the node that are followed.
pub(crate) fn add_successors(
    store: &Store,
    followed: Followed,
    node: Node,
    seen: &mut NodeSet,
) -> Result<(), AllocError>
    ensures { OnOk result (Adds (IsNext (IsFollowed followed) store.now node) seen.old.keys seen.new.keys) }
{
    for place in store.with_predecessor(node) {
        match store.get(*place) {
            Some(marker) => follow(marker, followed, seen)?,
            None => {}
        }
    }
    Ok(())
}

// Adds the successors of a marker, if it is one that is followed.
pub(crate) fn follow(
    marker: &Marker,
    followed: Followed,
    seen: &mut NodeSet,
) -> Result<(), AllocError>
    ensures { OnOk result (Adds (λ n. IsFollowed followed marker.now × Contains marker.now.successors n) seen.old.keys
        seen.new.keys) }
{
    if is_followed(marker, followed) {
        return add_all(seen, marker.successors());
    }
    Ok(())
}

fn is_followed(marker: &Marker, followed: Followed) -> bool
    ensures { IsTrue result ↔ IsFollowed followed marker.now }
{
    match followed {
        Followed::Every => true,
        Followed::NotBumpedFix => !is_bumped_fix(marker),
    }
}

fn is_bumped_fix(marker: &Marker) -> bool
    ensures { IsTrue result ↔ IsBumpedFix marker.now }
{
    marker.flags() & BUMPED_FIX != 0
}

// Adds the nodes.
pub(crate) fn add_all(seen: &mut NodeSet, nodes: &[Node]) -> Result<(), AllocError>
    ensures { OnOk result (Adds (Contains nodes.now) seen.old.keys seen.new.keys) }
{
    for node in nodes {
        seen.insert(*node)?;
    }
    Ok(())
}
