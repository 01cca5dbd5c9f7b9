//! Deciding an operation.
ghost use Rattle.std.specs.Prelude.{List, Contains, IfOk, IsErrOf, IsTrue};
ghost use Rattle.hg_changeset.specs.declared.node.Node.{Node};
ghost use Rattle.hg_changeset.specs.Contents.{Contents};
ghost use Rattle.hg_changeset.specs.Changeset.{IsChangeset};
ghost use Rattle.hg_replica.specs.State.{IsValid};
ghost use Rattle.hg_rewrite.specs.Answer.{DecideAnswer};
ghost use Rattle.hg_rewrite.specs.Memory.{MayWantMemory, MayWantMemoryLater};
ghost use Rattle.hg_rewrite.specs.Refusals.{NoneApplies, unknown_nodes, hidden_parents, not_linear};

use crate::bounds::bounds;
use crate::changesets::{ids_of, new_changesets};
use crate::check::{
    check_count, check_known, check_linear, check_new, check_not_obsolete, check_not_public,
    check_pruner, check_raise, check_shown, check_visible, is_clear_relocation,
};
use crate::markers::markers;
use crate::op::Op;
use crate::refusal::Refusal;
use hg_replica::{Part, Replica};
use hg_view::{Kept, Pins};
use std::alloc::Global;

/// Decides an operation at a replica, under the pins of its node: its part by the table of operations, or the first
/// refusal that applies. The pins matter for one refusal alone: a new parent that is pinned, or an ancestor of what is,
/// isn't hidden.
///
/// The replica admits the part, so that it refuses to absorb it only for want of memory, which is also told here only
/// where a growth was refused. The call costs what the operation names and writes, however much the replica holds; a
/// relocation costs what lies between its nodes as well, and a parent that is obsolete and not pinned a walk over its
/// descendants, which ends at the first that isn't obsolete or is pinned.
pub fn decide(alloc: Global, replica: &Replica, pins: &Pins, op: &Op) -> Result<Part, Refusal>
    ensures answer { DecideAnswer replica.now pins.now op.now result }
    ensures memory { IsErrOf result Refusal.NoMemory → MayWantMemory replica.now pins.now op.now }
    ensures changesets { IfOk result (λ part. (c : Contents) → Contains part.history.changesets c → IsChangeset c) }
    ensures valid { IsValid replica.now }
{
    check_known(replica, op)?;
    check_visible(alloc, replica, pins, op)?;
    decide_shown(alloc, replica, op, false)
}

/// Decides an operation as [`decide`] does, at a replica whose instabilities are kept up to date, under the pins that
/// are kept with it.
///
/// Whether a new parent is hidden is told by look-ups, without memory. So the call costs what the operation names and
/// writes, however much the replica holds and whatever stands on a parent; a relocation costs what lies between its
/// nodes as well, but not that of an orphan onto what is neither an orphan nor obsolete, as where a stack is evolved.
pub fn decide_kept(alloc: Global, kept: &Kept, op: &Op) -> Result<Part, Refusal>
    ensures answer { DecideAnswer kept.now.replica kept.now.pins op.now result }
    ensures memory { IsErrOf result Refusal.NoMemory → MayWantMemory kept.now.replica kept.now.pins op.now }

    // It is never wanted to tell whether a new parent is hidden.
    ensures later { IsErrOf result Refusal.NoMemory → MayWantMemoryLater kept.now.replica kept.now.pins op.now }
    ensures changesets { IfOk result (λ part. (c : Contents) → Contains part.history.changesets c → IsChangeset c) }
    ensures valid { IsValid kept.now.replica }
{
    let replica = kept.replica();
    check_known(replica, op)?;
    check_shown(kept, op)?;
    decide_shown(alloc, replica, op, is_clear_relocation(kept, op))
}

// Decides an operation whose nodes are held, under any pins under which its new parents aren't hidden. Whether it is
// known to be clear, as sets that are kept tell of a relocation, spares a walk.
#[inline(always)]
fn decide_shown(
    alloc: Global,
    replica: &Replica,
    op: &Op,
    is_clear_relocation: bool,
) -> Result<Part, Refusal>
    requires known { NoneApplies (unknown_nodes replica.now op.now) }
    requires valid { IsValid replica.now }
    requires clear { IsTrue is_clear_relocation → NoneApplies (not_linear replica.now op.now) }
    ensures answer { (pins : List Node) → NoneApplies (hidden_parents replica.now pins op.now)
        → DecideAnswer replica.now pins op.now result }
    ensures later { (pins : List Node) → NoneApplies (hidden_parents replica.now pins op.now)
        → IsErrOf result Refusal.NoMemory → MayWantMemoryLater replica.now pins op.now }
    ensures changesets { IfOk result (λ part. (c : Contents) → Contains part.history.changesets c → IsChangeset c) }
{
    check_not_public(replica, op)?;
    check_not_obsolete(replica, op)?;
    check_linear(replica, op, is_clear_relocation)?;
    check_count(op)?;
    check_raise(replica, op)?;
    check_pruner(op)?;
    let changesets = new_changesets(alloc, replica, op)?;
    let made = ids_of(alloc, &changesets)?;
    let ids = made.as_slice();
    let markers = markers(alloc, replica, op, ids)?;
    check_new(replica, ids)?;
    let bounds = bounds(alloc, replica, op, ids)?;
    Ok(Part {
        changesets,
        bounds,
        markers,
    })
}
