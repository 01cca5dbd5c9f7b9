//! Placed nodes in the order of their ids.
ghost use Rattle.std.specs.Prelude.{◌↔◌, Contains};
ghost use Rattle.std.specs.List.Sorted.{IsStrictlySortedBy};
ghost use Rattle.hg_discovery.specs.declared.finding.PlacedNode.{PlacedNode};
ghost use Rattle.hg_discovery.specs.Order.{placed_node_cmp};

use crate::finding::PlacedNode;

// The placed nodes ascending, each once.
pub(crate) fn ascending(mut placed_nodes: Vec<PlacedNode>) -> Vec<PlacedNode>
    ensures sorted { IsStrictlySortedBy placed_node_cmp result.items }
    ensures same { (x : PlacedNode) → Contains result.items x ↔ Contains placed_nodes.items x }
{
    placed_nodes.sort_unstable();
    placed_nodes.dedup();
    placed_nodes
}
