//! The nodes that some nodes lead to by markers, with numbers.
//!
//! A node has the number of its place among them. The rows follow in the order of the numbers, and writing a row puts
//! the nodes last that had no number yet.
ghost use Rattle.std.specs.Prelude.{◌≡◌, ◌++◌, List, Contains, IfOk, OnOk};
ghost use Rattle.hg_changeset.specs.declared.node.Node.{Node};
ghost use Rattle.hg_replica.specs.Content.{content_of};
ghost use Rattle.hg_succ.specs.Rows.{rows_of};
ghost use Rattle.hg_succ.specs.Numbered.{successors_at, Adds, IsRow, IsNumbered};

use hg_changeset::Node;
use hg_marker::Marker;
use hg_node_set::{IdKeys, NodeSet};
use hg_replica::Replica;
use std::alloc::{AllocError, Global};

/// Nodes with numbers, from 0, and for each of them the numbers of what markers rewrote it to.
#[derive(Drop)]
pub(crate) struct Numbered {
    pub nodes: NodeSet,
    pub rows: Vec<Vec<usize>>,
}

/// The nodes, each once, hashed by these keys.
pub(crate) fn set_of(alloc: Global, keys: IdKeys, nodes: &[Node]) -> Result<NodeSet, AllocError>
    ensures { IfOk result (λ set. (n : Node) → Contains nodes.now n → Contains set.keys n) }
{
    let mut set = NodeSet::with_keys(alloc, keys);
    for node in nodes {
        set.insert(*node)?;
    }
    Ok(set)
}

/// Numbers the roots and all that they lead to.
pub(crate) fn number(
    alloc: Global,
    replica: &Replica,
    roots: NodeSet,
) -> Result<Numbered, AllocError>
    ensures { IfOk result
        (λ numbered. IsNumbered (content_of replica.now) roots.keys numbered.nodes.keys (rows_of numbered.rows.items)) }
{
    let mut nodes = roots;
    let mut rows = Vec::new(alloc);
    'rows: while rows.len() < nodes.len() {
        let node = nodes.as_slice()[rows.len()];
        let row = next_row(alloc, replica, node, &mut nodes)?;
        rows.push(row)?;
    }
    Ok(Numbered { nodes, rows })
}

// The row of a node.
fn next_row(
    alloc: Global,
    replica: &Replica,
    node: Node,
    nodes: &mut NodeSet,
) -> Result<Vec<usize>, AllocError>
    ensures grows { OnOk result ((more : List Node) × (nodes.new.keys ≡ nodes.old.keys ++ more)) }
    ensures row { IfOk result (λ row. IsRow (content_of replica.now) nodes.new.keys node row.items) }
{
    let store = replica.store();
    let markers = store.markers();
    let mut row = Vec::new(alloc);
    for place in store.with_predecessor(node) {
        number_each(successors_at(markers, *place), nodes, &mut row)?;
    }
    Ok(row)
}

/// The successors of the marker at a place; none where there is none.
pub(crate) fn successors_at(markers: &[Marker], place: usize) -> &[Node]
    ensures { result.now ≡ successors_at markers.now place }
{
    match markers.get(place) {
        Some(marker) => marker.successors(),
        None => &[],
    }
}

// Adds the number of each of the nodes.
pub(crate) fn number_each(
    successors: &[Node],
    nodes: &mut NodeSet,
    row: &mut Vec<usize>,
) -> Result<(), AllocError>
    ensures { OnOk result (Adds (Contains successors.now) nodes.old.keys nodes.new.keys row.old.items row.new.items) }
{
    for successor in successors {
        let (number, _) = nodes.insert_full(*successor)?;
        row.push(number)?;
    }
    Ok(())
}
