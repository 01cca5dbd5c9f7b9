//! The successors sets of a node, and which nodes have several.
ghost use Rattle.std.specs.Prelude.{◌↔◌, Contains, IfOk};
ghost use Rattle.hg_changeset.specs.declared.node.Node.{Node};
ghost use Rattle.hg_replica.specs.Content.{content_of};
ghost use Rattle.hg_succ.specs.Successors.{HasSeveral};
ghost use Rattle.hg_succ.specs.Answer.{AreSets};

use crate::families::table_of;
use crate::numbered::set_of;
use crate::plan::Asked;
use crate::sets::Sets;
use hg_changeset::Node;
use hg_node_set::NodeSet;
use hg_replica::Replica;
use std::alloc::{AllocError, Global};

/// The successors sets of a node, held or not: Mercurial's `successorssets`. It costs what the node leads to by
/// markers, beside the sets themselves.
pub fn successors_sets(alloc: Global, replica: &Replica, node: Node) -> Result<Sets, AllocError>
    ensures { IfOk result (AreSets (content_of replica.now) node) }
{
    let mut roots = NodeSet::with_keys(alloc, replica.keys());
    roots.insert(node)?;
    let table = table_of(alloc, replica, roots, Asked::Sets)?;
    table.sets(replica, node)
}

/// Those of the nodes that have more than one successors set or are overfull. It costs what the nodes lead to by
/// markers.
pub fn several_among(
    alloc: Global,
    replica: &Replica,
    nodes: &[Node],
) -> Result<NodeSet, AllocError>
    ensures { IfOk result (λ found. (n : Node) → Contains found.keys n
        ↔ (Contains nodes.now n × HasSeveral (content_of replica.now) n)) }
{
    let table = table_of(
        alloc,
        replica,
        set_of(alloc, replica.keys(), nodes)?,
        Asked::Counts,
    )?;
    let mut found = NodeSet::with_keys(alloc, replica.keys());
    for node in nodes {
        if table.has_several(*node) {
            found.insert(*node)?;
        }
    }
    Ok(found)
}
