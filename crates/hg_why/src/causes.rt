//! The reasons why a changeset is unstable.
ghost use Rattle.std.specs.Prelude.{◌≡◌, ◌↔◌, ◌⊎◌, Contains, IfOk, IsTrue, OnOk};
ghost use Rattle.hg_phases.specs.declared.phase.Phase.TheVariants.{Public};
ghost use Rattle.hg_replica.specs.Content.{content_of};
ghost use Rattle.hg_replica.specs.Evolution.{HasPhase};
ghost use Rattle.hg_why.specs.Causes.{Adds, AreReasons, IsByOne, IsByParent, IsByThis, IsCause};
ghost use Rattle.hg_why.specs.Causes.Cause.{public_before, several_before};

use crate::before::{Steps, preceding};
use crate::reason::Reason;
use hg_changeset::Node;
use hg_instab::{has_phase, neighbours_decide_what_is_orphan_and_extinct};
use hg_phases::Phase;
use hg_replica::Replica;
use hg_succ::{several_among, successors_sets};
use hg_view::{Kept, Status};
use std::alloc::{AllocError, Global};

/// The reasons why a changeset is unstable, none where it isn't: as an orphan, each parent that is obsolete or an
/// orphan; as phase-divergent, each public changeset from which markers that aren't bumpedfix lead to it; as
/// content-divergent, each id from which markers lead to it and that has several successors sets or is overfull. Of ids
/// that precede it those that are fewer steps away come first.
///
/// It costs look-ups, and where the changeset is divergent the markers that lead to it, and for content-divergence what
/// the ids that precede it lead to by markers.
pub fn reasons(alloc: Global, kept: &Kept, node: Node) -> Result<Vec<Reason>, AllocError>
    ensures { IfOk result (λ reasons. AreReasons (content_of kept.now.replica) node reasons.items) }
{
    // They tell that the replica is valid, and that an orphan stands on an obsolete parent, or on an orphan.
    kept.replica().is_valid();
    neighbours_decide_what_is_orphan_and_extinct();
    let mut found = Vec::new(alloc);
    add_parents(kept, node, &mut found)?;
    add_public(alloc, kept, node, &mut found)?;
    add_several(alloc, kept, node, &mut found)?;
    Ok(found)
}

// Adds the parents by which an orphan is one.
fn add_parents(kept: &Kept, node: Node, reasons: &mut Vec<Reason>) -> Result<(), AllocError>
    ensures { OnOk result (Adds (content_of kept.now.replica) (IsByParent (content_of kept.now.replica) node)
        reasons.old.items reasons.new.items) }
{
    if !kept.status(node).orphan {
        return Ok(());
    }
    match kept.replica().graph().changeset(node) {
        Some(changeset) => {
            let (first, second) = changeset.parents();
            add_parent(kept, first, reasons)?;
            add_parent(kept, second, reasons)
        }
        None => Ok(()),
    }
}

// Adds a parent, if there is one, and it is obsolete or an orphan.
fn add_parent(kept: &Kept, parent: Node, reasons: &mut Vec<Reason>) -> Result<(), AllocError>
    ensures { OnOk result (Adds (content_of kept.now.replica) (IsByThis (content_of kept.now.replica) parent)
        reasons.old.items reasons.new.items) }
{
    if parent.is_null() {
        return Ok(());
    }
    let status = kept.status(parent);
    if !is_obsolete_or_orphan(status) {
        return Ok(());
    }
    let is_obsolete = status.obsolete;
    reasons.push(Reason::Orphan {
        parent,
        is_obsolete,
    })?;
    Ok(())
}

fn is_obsolete_or_orphan(status: Status) -> bool
    ensures { IsTrue result ↔ (IsTrue status.obsolete ⊎ IsTrue status.orphan) }
{
    status.obsolete || status.orphan
}

// Adds the public changesets by which one is phase-divergent.
fn add_public(
    alloc: Global,
    kept: &Kept,
    node: Node,
    reasons: &mut Vec<Reason>,
) -> Result<(), AllocError>
    ensures { OnOk result (Adds (content_of kept.now.replica) (IsByOne public_before
        (λ p. IsCause (content_of kept.now.replica) node (public_before p))) reasons.old.items reasons.new.items) }
{
    if !kept.status(node).phase_divergent {
        return Ok(());
    }
    let replica = kept.replica();
    let before = preceding(alloc, replica, Steps::OverNoBumpedFix, node)?;
    add_public_among(replica, before.as_slice(), reasons)
}

// Adds those of the ids that are public.
fn add_public_among(
    replica: &Replica,
    nodes: &[Node],
    reasons: &mut Vec<Reason>,
) -> Result<(), AllocError>
    ensures { OnOk result (Adds (content_of replica.now) (IsByOne public_before
        (λ p. Contains nodes.now p × HasPhase (content_of replica.now) p Public))
        reasons.old.items reasons.new.items) }
{
    for node in nodes {
        if has_phase(replica, *node, Phase::Public) {
            reasons.push(Reason::PhaseDivergent { predecessor: *node })?;
        }
    }
    Ok(())
}

// Adds the ids by which a changeset is content-divergent.
fn add_several(
    alloc: Global,
    kept: &Kept,
    node: Node,
    reasons: &mut Vec<Reason>,
) -> Result<(), AllocError>
    ensures { OnOk result (Adds (content_of kept.now.replica) (IsByOne several_before
        (λ p. IsCause (content_of kept.now.replica) node (several_before p))) reasons.old.items reasons.new.items) }
{
    if !kept.status(node).content_divergent {
        return Ok(());
    }
    let replica = kept.replica();
    let before = preceding(alloc, replica, Steps::OverAny, node)?;
    let several = several_among(alloc, replica, before.as_slice())?;
    add_sets(alloc, replica, several.as_slice(), reasons)
}

// Adds the ids with their successors sets.
fn add_sets(
    alloc: Global,
    replica: &Replica,
    nodes: &[Node],
    reasons: &mut Vec<Reason>,
) -> Result<(), AllocError>
    ensures { OnOk result (Adds (content_of replica.now) (IsByOne several_before (Contains nodes.now))
        reasons.old.items reasons.new.items) }
{
    for node in nodes {
        add_sets_of(alloc, replica, *node, reasons)?;
    }
    Ok(())
}

// Adds an id with its successors sets.
fn add_sets_of(
    alloc: Global,
    replica: &Replica,
    predecessor: Node,
    reasons: &mut Vec<Reason>,
) -> Result<(), AllocError>
    ensures { OnOk result (Adds (content_of replica.now) (λ cause. several_before predecessor ≡ cause)
        reasons.old.items reasons.new.items) }
{
    let sets = successors_sets(alloc, replica, predecessor)?;
    reasons.push(Reason::ContentDivergent { predecessor, sets })?;
    Ok(())
}
