//! Changesets in the order in which a replica has them.
ghost use Rattle.std.specs.Prelude.{◌≡◌, ◌↔◌, Contains, IfOk};
ghost use Rattle.hg_changeset.specs.declared.node.Node.{Node as NodeValue};

use hg_changeset::Node;
use hg_graph::Graph;
use std::alloc::{AllocError, Global};
use std::collections::BTreeSet;

/// Puts changesets in the order in which the graph has them, parents before children.
pub(crate) fn put_in_order(graph: &Graph, nodes: &mut Vec<Node>)
    ensures { (n : NodeValue) → Contains nodes.new.items n ↔ Contains nodes.old.items n }
{
    nodes.sort_unstable_by_key(|node| graph.place(*node));
}

/// The changesets of a set.
pub(crate) fn list_of(alloc: Global, set: &BTreeSet<Node>) -> Result<Vec<Node>, AllocError>
    ensures { IfOk result (λ nodes. nodes.items ≡ set.now.keys) }
{
    let mut nodes = Vec::new(alloc);
    for node in set {
        nodes.push(*node)?;
    }
    Ok(nodes)
}
