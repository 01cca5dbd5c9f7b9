//! What comes to stand after something public where a change was absorbed: a public changeset precedes it, over markers
//! that aren't bumpedfix.
//!
//! What is after something public stays so. So a walk begins where a marker came, or where something became public, and
//! it ends at what was after something public before: it looks at what is new, and at no more.
ghost use Rattle.std.specs.Prelude.{◌↔◌, ◌⊎◌, Contains, IfOk, OnOk, IsTrue};
ghost use Rattle.hg_changeset.specs.declared.node.Node.{Node};
ghost use Rattle.hg_phases.specs.declared.phase.Phase.TheVariants.{Public as public_phase};
ghost use Rattle.hg_replica.specs.State.{ReplicaState, IsValid};
ghost use Rattle.hg_replica.specs.Content.{content_of};
ghost use Rattle.hg_replica.specs.Evolution.{HasPhase};
ghost use Rattle.hg_instab.specs.AfterPublic.{IsSource, HandsOn, IsAfterFresh, IsRewrittenTo, IsAfterAny, IsStart};
ghost use Rattle.hg_instab.specs.AfterPublic.{IsRewrittenBeyond};
ghost use Rattle.hg_instab.specs.Changed.{Follows};
ghost use Rattle.hg_instab.specs.Near.{IsAfterPublic};
ghost use Rattle.hg_instab.specs.Walk.{IsReached, Adds};

use crate::among::{has, outside, set_of};
use crate::query::has_phase;
use crate::walk::{Followed, add_successors, follow};
use hg_changeset::Node;
use hg_marker::Marker;
use hg_node_set::NodeSet;
use hg_obsstore::Store;
use hg_phases::Phase;
use hg_replica::{Change, Replica};
use std::alloc::{AllocError, Global};
use std::collections::BTreeSet;

// What is after something public now and wasn't before, where the set has what was before the change.
pub(crate) fn newly_after_public(
    alloc: Global,
    replica: &Replica,
    change: &Change,
    after_public: &BTreeSet<Node>,
) -> Result<BTreeSet<Node>, AllocError>
    ensures { IfOk result (λ met. (s : ReplicaState) → IsValid s
        → Follows (content_of s) (content_of replica.now) change.now replica.now.markers
        → ((n : Node) → Contains after_public.now.keys n ↔ IsAfterPublic (content_of s) n)
        → (n : Node) → IsAfterPublic (content_of replica.now) n
        ↔ (Contains after_public.now.keys n ⊎ Contains met.keys n)) }
{
    let starts = starts(alloc, replica, change, after_public)?;
    let seen = reached_beyond(replica.store(), after_public, starts)?;
    let met = outside(alloc, seen.as_slice(), after_public)?;
    set_of(alloc, met)
}

// What the change puts right after something public: the successors of fresh markers, and of what is public now and was
// added or lowered.
fn starts(
    alloc: Global,
    replica: &Replica,
    change: &Change,
    known: &BTreeSet<Node>,
) -> Result<NodeSet, AllocError>
    ensures { IfOk result (λ starts. (n : Node) → Contains starts.keys n
        ↔ IsStart (content_of replica.now) change.now replica.now.markers known.now.keys n) }
{
    let mut starts = NodeSet::with_keys(alloc, replica.keys());
    add_after_markers(replica, change, known, &mut starts)?;
    add_after_each(replica, &change.added, &mut starts)?;
    add_after_each(replica, &change.lowered, &mut starts)?;
    Ok(starts)
}

// Adds the successors of those fresh markers that hand on what is after something public.
fn add_after_markers(
    replica: &Replica,
    change: &Change,
    known: &BTreeSet<Node>,
    seen: &mut NodeSet,
) -> Result<(), AllocError>
    ensures { OnOk result (Adds (IsAfterFresh (content_of replica.now) change.now replica.now.markers known.now.keys)
        seen.old.keys seen.new.keys) }
{
    for place in change.markers.as_slice() {
        match replica.store().get(*place) {
            Some(marker) => hand_on(replica, marker, known, seen)?,
            None => {}
        }
    }
    Ok(())
}

// Adds the successors of a marker, unless it is bumpedfix, if its predecessor is public or known.
fn hand_on(
    replica: &Replica,
    marker: &Marker,
    known: &BTreeSet<Node>,
    seen: &mut NodeSet,
) -> Result<(), AllocError>
    ensures { OnOk result (Adds (λ n. HandsOn (content_of replica.now) known.now.keys marker.now
        × Contains marker.now.successors n) seen.old.keys seen.new.keys) }
{
    if is_source(replica, known, marker.predecessor()) {
        return follow(marker, Followed::NotBumpedFix, seen);
    }
    Ok(())
}

fn is_source(replica: &Replica, known: &BTreeSet<Node>, node: Node) -> bool
    ensures { IsTrue result ↔ IsSource (content_of replica.now) known.now.keys node }
{
    has(known, node) || has_phase(replica, node, Phase::Public)
}

// Adds what comes next after those of the nodes that are public.
fn add_after_each(replica: &Replica, nodes: &[Node], seen: &mut NodeSet) -> Result<(), AllocError>
    ensures { OnOk result (Adds (IsAfterAny (content_of replica.now) replica.now.markers nodes.now)
        seen.old.keys seen.new.keys) }
{
    for node in nodes {
        add_after(replica, *node, seen)?;
    }
    Ok(())
}

// Adds what comes next after the node, if it is public.
fn add_after(replica: &Replica, node: Node, seen: &mut NodeSet) -> Result<(), AllocError>
    ensures { OnOk result (Adds (λ n. HasPhase (content_of replica.now) node public_phase
        × IsRewrittenTo replica.now.markers node n) seen.old.keys seen.new.keys) }
{
    if has_phase(replica, node, Phase::Public) {
        return add_successors(replica.store(), Followed::NotBumpedFix, node, seen);
    }
    Ok(())
}

// The starts, and what comes next after any of them that isn't known, and so on.
fn reached_beyond(
    store: &Store,
    known: &BTreeSet<Node>,
    starts: NodeSet,
) -> Result<NodeSet, AllocError>
    ensures { IfOk result (λ seen. (n : Node) → Contains seen.keys n
        ↔ IsReached (IsRewrittenBeyond known.now.keys store.now) starts.keys n) }
{
    let mut seen = starts;
    let mut next = 0;
    while next < seen.len() {
        let node = seen.as_slice()[next];
        add_beyond(store, known, node, &mut seen)?;
        next += 1;
    }
    Ok(seen)
}

// Adds what comes next after the node, unless it is known.
fn add_beyond(
    store: &Store,
    known: &BTreeSet<Node>,
    node: Node,
    seen: &mut NodeSet,
) -> Result<(), AllocError>
    ensures { OnOk result (Adds (IsRewrittenBeyond known.now.keys store.now node) seen.old.keys seen.new.keys) }
{
    if has(known, node) {
        return Ok(());
    }
    add_successors(store, Followed::NotBumpedFix, node, seen)
}
