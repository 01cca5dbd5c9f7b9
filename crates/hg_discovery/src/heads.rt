//! Heads by a walk.
ghost use Rattle.std.specs.Prelude.{◌↔◌, Contains, IfOk};
ghost use Rattle.hg_phases.specs.State.{changesets};
ghost use Rattle.hg_graph.specs.Places.{IsAt};
ghost use Rattle.hg_view.specs.Common.{AreFree};
ghost use Rattle.hg_discovery.specs.Between.{AreHeadsInCommon};
ghost use Rattle.hg_discovery.specs.declared.finding.PlacedNode.{PlacedNode};

use crate::discovery::nodes;
use crate::finding::PlacedNode;
use crate::order::ascending;
use hg_changeset::Node;
use hg_graph::Graph;
use hg_view::Kept;
use std::alloc::{AllocError, Global};

// The heads of what is in common, ascending, by a walk down from the asker's changesets without a child. It costs what
// the asker holds and the other doesn't serve.
pub(crate) fn heads_by_walk(
    alloc: Global,
    asker: &Kept,
    other: &Kept,
) -> Result<Vec<Node>, AllocError>
    requires { AreFree (changesets asker.now.replica.history) (changesets other.now.replica.history) }
    ensures { IfOk result
        (λ heads. AreHeadsInCommon asker.now.replica other.now.replica other.now.pins heads.items) }
{
    other.replica().is_valid();
    other.tells_what_is_served();
    let places = asker.common_heads(other)?;
    let found = placed_nodes_at(alloc, asker.replica().graph(), &places)?;
    nodes(alloc, &ascending(found))
}

// What stands at the places, with its place.
fn placed_nodes_at(
    alloc: Global,
    graph: &Graph,
    places: &[usize],
) -> Result<Vec<PlacedNode>, AllocError>
    ensures { IfOk result (λ xs. (x : PlacedNode) → Contains xs.items x
        ↔ (Contains places.now x.place × IsAt graph.now x.node x.place)) }
{
    let mut found = Vec::with_capacity(alloc, places.len())?;
    for place in places {
        if let Some(node) = graph.node_at(*place) {
            found.push(PlacedNode {
                node,
                place: *place,
            })?;
        }
    }
    Ok(found)
}
