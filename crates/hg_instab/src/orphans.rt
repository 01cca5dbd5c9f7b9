//! The orphans, and the suspended changesets, which orphans keep from being hidden.
ghost use Rattle.std.specs.Prelude.{◌↔◌, Contains, IfOk};
ghost use Rattle.hg_changeset.specs.declared.node.Node.{Node};
ghost use Rattle.hg_replica.specs.Content.{content_of};
ghost use Rattle.hg_replica.specs.Evolution.{IsObsolete, IsOrphan, IsSuspended};

use crate::among::{current_among, obsolete_among};
use hg_changeset::Node;
use hg_replica::Replica;
use std::alloc::{AllocError, Global};

// The orphans, where the obsolete changesets are given.
pub(crate) fn orphan_nodes(
    alloc: Global,
    replica: &Replica,
    obsolete: &[Node],
) -> Result<Vec<Node>, AllocError>
    requires { (n : Node) → Contains obsolete.now n ↔ IsObsolete (content_of replica.now) n }
    ensures { IfOk result (λ found. (n : Node) → Contains found.items n ↔ IsOrphan (content_of replica.now) n) }
{
    let above = replica.graph().descendants(obsolete)?;
    current_among(alloc, replica, &above)
}

// The suspended changesets, where the orphans are given.
pub(crate) fn suspended_nodes(
    alloc: Global,
    replica: &Replica,
    orphans: &[Node],
) -> Result<Vec<Node>, AllocError>
    requires { (n : Node) → Contains orphans.now n ↔ IsOrphan (content_of replica.now) n }
    ensures { IfOk result (λ found. (n : Node) → Contains found.items n ↔ IsSuspended (content_of replica.now) n) }
{
    let below = replica.graph().ancestors(orphans)?;
    obsolete_among(alloc, replica, &below)
}
