//! What is asked again of content-divergence after a change: regions of ids that markers name together, near forks.
//!
//! Nothing far from a fork became different changesets with the markers that are followed, so where a change comes near
//! none nothing is asked.
ghost use Rattle.std.specs.Prelude.{◌↔◌, Contains, IfOk, OnOk, IsTrue};
ghost use Rattle.hg_changeset.specs.declared.node.Node.{Node};
ghost use Rattle.hg_replica.specs.Content.{content_of};
ghost use Rattle.hg_instab.specs.Near.{IsNamed, IsRegion};
ghost use Rattle.hg_instab.specs.Region.{IsOneNear, IsTouched, IsStartOf, IsStart, AreStarts};
ghost use Rattle.hg_instab.specs.Walk.{Adds};

use crate::among::{has, inside};
use crate::divergence::is_fork;
use crate::walk::{Way, add_all, reached};
use hg_changeset::Node;
use hg_marker::Marker;
use hg_node_set::NodeSet;
use hg_obsstore::Store;
use hg_replica::{Change, Replica};
use std::alloc::{AllocError, Global};
use std::collections::BTreeSet;

// The ids that are asked again after the change, of which some were near forks.
pub(crate) fn region(
    alloc: Global,
    replica: &Replica,
    change: &Change,
    near: &BTreeSet<Node>,
) -> Result<NodeSet, AllocError>
    ensures { IfOk result (λ region. IsRegion (content_of replica.now) change.now replica.now.markers near.now.keys
        region.keys) }
{
    let starts = region_starts(alloc, replica, change, near)?;
    reached(replica.store(), Way::Both, starts)
}

// Where the region begins: at what those new markers rewrote that make a fork, or name an id that was near one; and at
// what was added and was near one.
fn region_starts(
    alloc: Global,
    replica: &Replica,
    change: &Change,
    near: &BTreeSet<Node>,
) -> Result<NodeSet, AllocError>
    ensures { IfOk result (λ starts. AreStarts replica.now.markers change.now near.now.keys starts.keys) }
{
    let mut starts = NodeSet::with_keys(alloc, replica.keys());
    add_rewritten(replica.store(), &change.markers, near, &mut starts)?;
    let added = inside(alloc, &change.added, near)?;
    add_all(&mut starts, &added)?;
    Ok(starts)
}

// Adds the predecessors of those markers at the places that make a fork, or name an id that was near one.
fn add_rewritten(
    store: &Store,
    places: &[usize],
    near: &BTreeSet<Node>,
    starts: &mut NodeSet,
) -> Result<(), AllocError>
    ensures { OnOk result (Adds (IsStart store.now near.now.keys places.now) starts.old.keys starts.new.keys) }
{
    for place in places {
        match store.get(*place) {
            Some(marker) => add_touched(store, marker, near, starts)?,
            None => {}
        }
    }
    Ok(())
}

// Adds the predecessor of a marker that makes a fork, or names an id that was near one.
fn add_touched(
    store: &Store,
    marker: &Marker,
    near: &BTreeSet<Node>,
    starts: &mut NodeSet,
) -> Result<(), AllocError>
    ensures { OnOk result (Adds (IsStartOf store.now near.now.keys marker.now) starts.old.keys starts.new.keys) }
{
    if is_touched(store, marker, near) {
        starts.insert(marker.predecessor())?;
    }
    Ok(())
}

fn is_touched(store: &Store, marker: &Marker, near: &BTreeSet<Node>) -> bool
    ensures { IsTrue result ↔ IsTouched store.now near.now.keys marker.now }
{
    is_fork(store, marker.predecessor()) || names_near(marker, near)
}

pub(crate) fn names_near(marker: &Marker, near: &BTreeSet<Node>) -> bool
    ensures { IsTrue result ↔ IsOneNear (IsNamed marker.now) near.now.keys }
{
    has(near, marker.predecessor()) || is_one_near(marker.successors(), near)
}

fn is_one_near(nodes: &[Node], near: &BTreeSet<Node>) -> bool
    ensures { IsTrue result ↔ IsOneNear (Contains nodes.now) near.now.keys }
{
    nodes.iter().any(|node| near.contains(node))
}
