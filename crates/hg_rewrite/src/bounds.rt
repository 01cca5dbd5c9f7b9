//! The bounds of an operation: the phase that the last new changeset goes to.
ghost use Rattle.std.specs.Prelude.{◌≡◌, IfOk};
ghost use Rattle.hg_rewrite.specs.Reading.{asked};
ghost use Rattle.hg_rewrite.specs.Parts.{new_ids, on_last, last, bounds};

use crate::op::Op;
use crate::query::{highest, phase_in};
use hg_changeset::Node;
use hg_phases::Phase;
use hg_replica::{Bounds, Replica};
use smallvec::SmallVec;
use std::alloc::{AllocError, Global};

// The bounds of an operation that makes changesets with these ids.
#[inline(always)]
pub(crate) fn bounds(
    alloc: Global,
    replica: &Replica,
    op: &Op,
    ids: &[Node],
) -> Result<Bounds, AllocError>
    requires { ids.now ≡ new_ids replica.now.history op.now }
    ensures { IfOk result (λ found. found.items ≡ bounds replica.now.history op.now) }
{
    match op {
        Op::Commit { p, q, secret, .. } => {
            let of_parents = highest(phase_in(replica, *p), phase_in(replica, *q));
            on_last(alloc, ids, highest(asked(*secret), of_parents))
        }
        Op::Amend { node, .. } => on_last(alloc, ids, phase_in(replica, *node)),
        Op::Split { node, .. } => on_last(alloc, ids, phase_in(replica, *node)),
        Op::Fold { nodes, .. } => on_last(alloc, ids, phase_in(replica, last(nodes))),
        Op::Prune { .. } => Ok(SmallVec::new(alloc)),
        Op::Relocate { node, p, q, .. } => {
            let of_parents = highest(phase_in(replica, *p), phase_in(replica, *q));
            on_last(alloc, ids, highest(phase_in(replica, *node), of_parents))
        }
        Op::Advance { node, phase } => SmallVec::from_slice(alloc, &[(*node, *phase)]),
    }
}

// A bound on the last of the ids.
fn on_last(alloc: Global, ids: &[Node], phase: Phase) -> Result<Bounds, AllocError>
    ensures { IfOk result (λ found. found.items ≡ on_last ids.now phase) }
{
    match ids.last() {
        Some(id) => SmallVec::from_slice(alloc, &[(*id, phase)]),
        None => Ok(SmallVec::new(alloc)),
    }
}

// The last of the nodes, or the null id.
fn last(nodes: &[Node]) -> Node
    ensures { result ≡ last nodes.now }
{
    match nodes.last() {
        Some(node) => *node,
        None => Node::NULL,
    }
}

fn asked(secret: bool) -> Phase
    ensures { result ≡ asked secret }
{
    if secret { Phase::Secret } else { Phase::Draft }
}
