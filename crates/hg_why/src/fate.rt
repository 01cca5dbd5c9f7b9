//! What became of a changeset that was rewritten.
ghost use Rattle.std.specs.Prelude.{IfOk};
ghost use Rattle.hg_why.specs.Fate.{IsFate};

use hg_changeset::Node;
use hg_instab::is_obsolete;
use hg_replica::Replica;
use hg_succ::{Sets, successors_sets};
use std::alloc::{AllocError, Global};

/// What became of an obsolete changeset.
#[derive(Drop)]
pub struct Fate {
    /// The places of the markers that rewrote it, in the order in which they came.
    pub markers: Vec<usize>,
    /// Its successors sets.
    pub sets: Sets,
}

/// What became of a changeset, where it is obsolete: the markers that rewrote it, by their places in the store, and its
/// successors sets. It costs what it leads to by markers.
pub fn fate_of(alloc: Global, replica: &Replica, node: Node) -> Result<Option<Fate>, AllocError>
    ensures { IfOk result (IsFate replica.now node) }
{
    if !is_obsolete(replica, node) {
        return Ok(None);
    }
    let markers = replica.store().with_predecessor(node).to_vec(alloc)?;
    let sets = successors_sets(alloc, replica, node)?;
    Ok(Some(Fate { markers, sets }))
}
