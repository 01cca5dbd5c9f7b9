//! Those of some changesets of which something holds.
ghost use Rattle.std.specs.Prelude.{◌≡◌, ◌↔◌, ◌⊎◌, ◌∷◌, [], Contains, IfOk, IsTrue, true, false};
ghost use Rattle.hg_changeset.specs.declared.node.Node.{Node};
ghost use Rattle.hg_replica.specs.Content.{content_of};
ghost use Rattle.hg_replica.specs.Evolution.{IsObsolete, IsCurrent};

use crate::query::{is_current, is_obsolete};
use hg_changeset::Node;
use hg_replica::Replica;
use std::alloc::{AllocError, Global};
use std::collections::BTreeSet;

// The obsolete changesets, one for each marker of one.
pub(crate) fn obsolete_nodes(alloc: Global, replica: &Replica) -> Result<Vec<Node>, AllocError>
    ensures { IfOk result (λ found. (n : Node) → Contains found.items n ↔ IsObsolete (content_of replica.now) n) }
{
    let mut found = Vec::new(alloc);
    for marker in replica.store().markers() {
        let node = marker.predecessor();
        if is_obsolete(replica, node) {
            found.push(node)?;
        }
    }
    Ok(found)
}

// Those of the nodes that are obsolete.
pub(crate) fn obsolete_among(
    alloc: Global,
    replica: &Replica,
    nodes: &[Node],
) -> Result<Vec<Node>, AllocError>
    ensures { IfOk result (λ found. (n : Node) → Contains found.items n
        ↔ (Contains nodes.now n × IsObsolete (content_of replica.now) n)) }
{
    among(
        alloc,
        nodes,
        |node|
            ensures { IsTrue result ↔ IsObsolete (content_of replica.entry.now) node }
        { is_obsolete(replica, node) },
    )
}

// Those of the nodes that are neither public nor obsolete.
pub(crate) fn current_among(
    alloc: Global,
    replica: &Replica,
    nodes: &[Node],
) -> Result<Vec<Node>, AllocError>
    ensures { IfOk result (λ found. (n : Node) → Contains found.items n
        ↔ (Contains nodes.now n × IsCurrent (content_of replica.now) n)) }
{
    among(
        alloc,
        nodes,
        |node|
            ensures { IsTrue result ↔ IsCurrent (content_of replica.entry.now) node }
        { is_current(replica, node) },
    )
}

// Those of the nodes that the set has.
pub(crate) fn inside(
    alloc: Global,
    nodes: &[Node],
    set: &BTreeSet<Node>,
) -> Result<Vec<Node>, AllocError>
    ensures { IfOk result (λ found. (n : Node) → Contains found.items n
        ↔ (Contains nodes.now n × Contains set.now.keys n)) }
{
    among(alloc, nodes, |node| has(set, node))
}

pub(crate) fn has(set: &BTreeSet<Node>, node: Node) -> bool
    ensures { IsTrue result ↔ Contains set.now.keys node }
{
    set.contains(&node)
}

// Those of the nodes that the set hasn't.
pub(crate) fn outside(
    alloc: Global,
    nodes: &[Node],
    set: &BTreeSet<Node>,
) -> Result<Vec<Node>, AllocError>
    ensures { IfOk result (λ found. (n : Node) → Contains found.items n
        ↔ (Contains nodes.now n × ¬ (Contains set.now.keys n))) }
{
    among(alloc, nodes, |node| is_missing(set, node))
}

pub(crate) fn is_missing(set: &BTreeSet<Node>, node: Node) -> bool
    ensures { IsTrue result ↔ ¬ (Contains set.now.keys node) }
{
    !set.contains(&node)
}

// Those of the nodes that pass the test.
pub(crate) fn among<F: Fn(Node) -> bool>(
    alloc: Global,
    nodes: &[Node],
    test: F,
) -> Result<Vec<Node>, AllocError>
    requires { F.IsAlwaysCallable test }
    ensures { IfOk result (λ found. (n : Node) → (Contains found.items n → Contains nodes.now n × F.post test n true)
        × (Contains nodes.now n → Contains found.items n ⊎ F.post test n false)) }
{
    let mut found = Vec::new(alloc);
    for node in nodes {
        if test(*node) {
            found.push(*node)?;
        }
    }
    Ok(found)
}

// The nodes as a set.
pub(crate) fn set_of(alloc: Global, nodes: Vec<Node>) -> Result<BTreeSet<Node>, AllocError>
    ensures { IfOk result (λ set. (n : Node) → Contains set.keys n ↔ Contains nodes.items n) }
{
    nodes.into_iter().collect(alloc)
}

// The node alone.
pub(crate) fn one(alloc: Global, node: Node) -> Result<Vec<Node>, AllocError>
    ensures { IfOk result (λ nodes. nodes.items ≡ node ∷ []) }
{
    let mut nodes = Vec::new(alloc);
    nodes.push(node)?;
    Ok(nodes)
}

// The nodes of a set.
pub(crate) fn list_of(alloc: Global, set: &BTreeSet<Node>) -> Result<Vec<Node>, AllocError>
    ensures { IfOk result (λ list. list.items ≡ set.now.keys) }
{
    let mut list = Vec::new(alloc);
    for node in set {
        list.push(*node)?;
    }
    Ok(list)
}
