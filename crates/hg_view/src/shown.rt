//! Whether one changeset is visible under pins, by a walk to what stands on it.
ghost use Rattle.std.specs.Prelude.{◌↔◌, IfOk, OnOk, OnErr, IsTrue};
ghost use Rattle.hg_changeset.specs.declared.node.Node.{Node};
ghost use Rattle.hg_replica.specs.Content.{content_of};
ghost use Rattle.hg_instab.specs.Walk.{Adds};
ghost use Rattle.hg_view.specs.Pins.{CountsAsObsolete, IsVisibleUnder};
ghost use Rattle.hg_view.specs.Shown.{IsChild, IsAtOne};

use crate::pins::{Pins, counts_as_obsolete};
use hg_changeset::Node;
use hg_graph::Graph;
use hg_node_set::NodeSet;
use hg_replica::Replica;
use std::alloc::{AllocError, Global};

/// Whether a changeset is visible under the pins. One that isn't obsolete, or is pinned, costs a few look-ups; for any
/// other the answer costs what the walk to its descendants visits, and that ends at the first that is so.
pub fn is_visible(
    alloc: Global,
    replica: &Replica,
    pins: &Pins,
    node: Node,
) -> Result<bool, AllocError>
    ensures answer { IfOk result (λ answer. IsTrue answer
        ↔ IsVisibleUnder (content_of replica.now) pins.now node) }

    // Memory is wanted only for one that is obsolete and not pinned.
    ensures memory { OnErr result (CountsAsObsolete (content_of replica.now) pins.now node) }
{
    if !counts_as_obsolete(replica, pins, node) {
        return Ok(replica.graph().contains(node));
    }
    has_shown(alloc, replica, pins, node)
}

// Whether a changeset that counts as obsolete has a descendant that doesn't. The set of those that were met is its own
// queue.
fn has_shown(alloc: Global, replica: &Replica, pins: &Pins, node: Node) -> Result<bool, AllocError>
    requires { CountsAsObsolete (content_of replica.now) pins.now node }
    ensures { IfOk result (λ answer. IsTrue answer ↔ IsVisibleUnder (content_of replica.now) pins.now node) }
{
    let graph = replica.graph();
    let mut met = NodeSet::with_keys(alloc, replica.keys());
    met.insert(node)?;
    let mut next = 0;
    while next < met.len() {
        let node = met.as_slice()[next];
        if !counts_as_obsolete(replica, pins, node) {
            return Ok(true);
        }
        add_children(graph, node, &mut met)?;
        next += 1;
    }
    Ok(false)
}

// Adds the children of a changeset.
fn add_children(graph: &Graph, node: Node, met: &mut NodeSet) -> Result<(), AllocError>
    ensures { OnOk result (Adds (IsChild graph.now node) met.old.keys met.new.keys) }
{
    match graph.place(node) {
        Some(place) => add_at(graph, graph.children(place), met),
        None => Ok(()),
    }
}

// Adds what stands at the places.
fn add_at(graph: &Graph, places: &[usize], met: &mut NodeSet) -> Result<(), AllocError>
    ensures { OnOk result (Adds (IsAtOne graph.now places.now) met.old.keys met.new.keys) }
{
    for place in places {
        match graph.node_at(*place) {
            Some(node) => {
                met.insert(node)?;
            }
            None => {}
        }
    }
    Ok(())
}
