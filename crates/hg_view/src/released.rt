//! What pins no longer uphold once one of them is taken away.
//!
//! A changeset goes with the pin if no other pin upholds it, and no child that is left. So where one goes its parents
//! are asked. The walk goes down, and asks at the highest place that waits: by then all of its children that go have
//! gone, and each place is asked once.
ghost use Rattle.std.specs.Prelude.{◌≡◌, ◌↔◌, ◌<◌, Some, length, Contains, MatchOption, IsTrue, IfOk, OnOk};
ghost use Rattle.hg_changeset.specs.declared.node.Node.{Node};
ghost use Rattle.hg_graph.specs.Places.{IsAt, IsParentPlace};
ghost use Rattle.hg_graph.specs.Waiting.{Widens};
ghost use Rattle.hg_phases.specs.State.{changesets};
ghost use Rattle.hg_replica.specs.Content.{content_of};
ghost use Rattle.hg_view.specs.Upheld.{AreUpheld};
ghost use Rattle.hg_view.specs.Shown.{IsAtOne};
ghost use Rattle.hg_view.specs.Released.{AreReleased, IsUpheldStill, IsPinnedBut, IsLeft, IsLeftAt};

use crate::pins::Pins;
use hg_changeset::Node;
use hg_graph::{Graph, PlaceQueue};
use hg_node_set::NodeSet;
use hg_replica::Replica;
use std::alloc::{AllocError, Global};
use std::collections::BTreeSet;

// What is upheld no longer once the pin of a changeset is taken away, at the cost of that, of its parents and of the
// children of both.
pub(crate) fn released(
    alloc: Global,
    replica: &Replica,
    pins: &Pins,
    upheld: &BTreeSet<Node>,
    node: Node,
) -> Result<NodeSet, AllocError>
    requires { AreUpheld (content_of replica.now) pins.now upheld.now.keys }
    ensures { IfOk result
        (λ gone. AreReleased (content_of replica.now) pins.now node upheld.now.keys gone.keys) }
{
    let graph = replica.graph();
    let mut gone = NodeSet::with_keys(alloc, replica.keys());
    let mut waiting = PlaceQueue::new(alloc);
    wait_at(graph, upheld, &gone, graph.place(node), &mut waiting)?;
    while let Some(place) = waiting.pop_last() {
        match released_at(replica, pins, upheld, node, &gone, place) {
            Some(one) => {
                gone.insert(one)?;
                wait_parents(graph, upheld, &gone, place, &mut waiting)?;
            }
            None => {}
        }
    }
    Ok(gone)
}

// Takes those out that go.
pub(crate) fn take_out(upheld: &mut BTreeSet<Node>, gone: &NodeSet)
    ensures { (n : Node) → Contains upheld.new.keys n ↔ IsLeft upheld.old.keys gone.now.keys n }
{
    for node in gone.as_slice() {
        upheld.remove(node);
    }
}

// What stands at the place, where neither a pin but the one upholds it nor a child that is left.
fn released_at(
    replica: &Replica,
    pins: &Pins,
    upheld: &BTreeSet<Node>,
    but: Node,
    gone: &NodeSet,
    place: usize,
) -> Option<Node>
    ensures { MatchOption result
        ((n : Node) → IsAt (changesets replica.now.history) n place
        → IsUpheldStill (content_of replica.now) pins.now but upheld.now.keys gone.now.keys n)
        (λ n. IsAt (changesets replica.now.history) n place
        × ¬ (IsUpheldStill (content_of replica.now) pins.now but upheld.now.keys gone.now.keys n)) }
{
    let graph = replica.graph();
    match graph.node_at(place) {
        Some(node) => {
            if is_pinned_but(pins, but, node) {
                return None;
            }
            if has_left(graph, upheld, gone, graph.children(place)) {
                return None;
            }
            Some(node)
        }
        None => None,
    }
}

// Whether a changeset is pinned, and isn't the one.
fn is_pinned_but(pins: &Pins, but: Node, node: Node) -> bool
    ensures { IsTrue result ↔ IsPinnedBut pins.now but node }
{
    node != but && pins.is_pinned(node)
}

// Whether something at the places is left. It begins with the last, since what was added last is the likeliest to be
// pinned, and ends at the first that is left.
fn has_left(graph: &Graph, upheld: &BTreeSet<Node>, gone: &NodeSet, places: &[usize]) -> bool
    ensures { IsTrue result
        ↔ ((n : Node) × IsAtOne graph.now places.now n × IsLeft upheld.now.keys gone.now.keys n) }
{
    for index in (0..places.len()).rev() {
        if is_left_at(graph, upheld, gone, places[index]) {
            return true;
        }
    }
    false
}

// Whether what stands at the place is left.
fn is_left_at(graph: &Graph, upheld: &BTreeSet<Node>, gone: &NodeSet, place: usize) -> bool
    ensures { IsTrue result ↔ IsLeftAt graph.now upheld.now.keys gone.now.keys place }
{
    match graph.node_at(place) {
        Some(node) => is_left(upheld, gone, node),
        None => false,
    }
}

// Whether a changeset is left: it was upheld, and doesn't go.
fn is_left(upheld: &BTreeSet<Node>, gone: &NodeSet, node: Node) -> bool
    ensures { IsTrue result ↔ IsLeft upheld.now.keys gone.now.keys node }
{
    upheld.contains(&node) && !gone.contains(node)
}

// The places of the parents wait, where what stands there is left.
fn wait_parents(
    graph: &Graph,
    upheld: &BTreeSet<Node>,
    gone: &NodeSet,
    place: usize,
    waiting: &mut PlaceQueue,
) -> Result<(), AllocError>
    requires { place < length graph.now }
    ensures { OnOk result (Widens (λ k. IsParentPlace graph.now place k
        × IsLeftAt graph.now upheld.now.keys gone.now.keys k) waiting.old waiting.new) }
{
    let parents = graph.parent_places(place);
    wait_at(graph, upheld, gone, parents.first, waiting)?;
    wait_at(graph, upheld, gone, parents.second, waiting)
}

// The place waits, if there is one and what stands there is left.
fn wait_at(
    graph: &Graph,
    upheld: &BTreeSet<Node>,
    gone: &NodeSet,
    place: Option<usize>,
    waiting: &mut PlaceQueue,
) -> Result<(), AllocError>
    ensures { OnOk result (Widens (λ k. (place ≡ Some k)
        × IsLeftAt graph.now upheld.now.keys gone.now.keys k) waiting.old waiting.new) }
{
    let Some(place) = place else {
        return Ok(());
    };
    if !is_left_at(graph, upheld, gone, place) {
        return Ok(());
    }
    waiting.insert(place)
}
