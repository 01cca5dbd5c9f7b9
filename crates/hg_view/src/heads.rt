//! The heads of what two replicas have in common, by a walk down from the changesets without children.
//!
//! What is in common is closed under parents: with a changeset its parents are. So what isn't stands at the top of the
//! graph. What isn't in common sends the walk on to its parents; what is ends it, and is a head if none of its children
//! is in common. Nothing below the heads is visited but other parents of what isn't in common.
//!
//! What has no child is nobody's parent, so it is visited first, in any order, and never waits.
ghost use Rattle.std.specs.Prelude.{◌≡◌, ◌↔◌, ◌⊎◌, ◌<◌, ℕ, length, Contains, IsTrue, IfOk, OnOk};
ghost use Rattle.hg_phases.specs.State.{changesets};
ghost use Rattle.hg_view.specs.Common.{IsCommonAt};
ghost use Rattle.hg_view.specs.Descent.{Finds, GoesOn, HasChildIn, IsChildless, IsClosedUnderParents, IsCovered};
ghost use Rattle.hg_view.specs.HeadPlaces.{IsHeadAmong};

use crate::kept::Kept;
use hg_changeset::Node;
use hg_graph::PlaceQueue;
use hg_instab::{Instabilities, has_phase_at};
use hg_phases::Phase;
use hg_replica::Replica;
use std::alloc::{AllocError, Global};
use std::collections::BTreeSet;

/// The places of the changesets that aren't secret here and that the other serves, without a child that is so, in no
/// promised order, where these are the places of the changesets without children.
///
/// It costs these, what isn't in common, and the children of the places in common at which the walk ends.
pub(crate) fn heads_in_common(
    alloc: Global,
    replica: &Replica,
    other: &Kept,
    childless: &[usize],
) -> Result<Vec<usize>, AllocError>
    requires childless { (k : ℕ) → Contains childless.now k ↔ IsChildless (changesets replica.now.history) k }
    requires closed { IsClosedUnderParents (changesets replica.now.history) (IsCommonAt replica.now other.now) }
    ensures exact { IfOk result (λ found. (k : ℕ) → Contains found.items k
        ↔ IsHeadAmong (changesets replica.now.history) (IsCommonAt replica.now other.now) k) }
    ensures covers { IfOk result (λ found. (k : ℕ) → IsCommonAt replica.now other.now k
        → IsCovered (changesets replica.now.history) found.items k) }
{
    replica.is_valid();
    let mut waiting = PlaceQueue::new(alloc);
    let mut found = Vec::new(alloc);
    visit_each(replica, other, childless, &mut waiting, &mut found)?;
    while let Some(place) = waiting.pop_last() {
        visit(replica, other, place, &mut waiting, &mut found)?;
    }
    Ok(found)
}

// Visits each of the places, in their order.
fn visit_each(
    replica: &Replica,
    other: &Kept,
    places: &[usize],
    waiting: &mut PlaceQueue,
    found: &mut Vec<usize>,
) -> Result<(), AllocError>
    requires { (k : ℕ) → Contains places.now k → k < length (changesets replica.now.history) }
    ensures waits { OnOk result (GoesOn (changesets replica.now.history) (IsCommonAt replica.now other.now)
        (Contains places.now) waiting.old waiting.new) }
    ensures finds { OnOk result (Finds (changesets replica.now.history) (IsCommonAt replica.now other.now)
        (Contains places.now) found.old.items found.new.items) }
{
    for place in places {
        visit(replica, other, *place, waiting, found)?;
    }
    Ok(())
}

// Finds the place where it is in common and no child's is. Where it isn't in common, its parents' places wait besides.
fn visit(
    replica: &Replica,
    other: &Kept,
    place: usize,
    waiting: &mut PlaceQueue,
    found: &mut Vec<usize>,
) -> Result<(), AllocError>
    requires { place < length (changesets replica.now.history) }
    ensures waits { OnOk result (GoesOn (changesets replica.now.history) (IsCommonAt replica.now other.now)
        (λ j. place ≡ j) waiting.old waiting.new) }
    ensures finds { OnOk result (Finds (changesets replica.now.history) (IsCommonAt replica.now other.now)
        (λ j. place ≡ j) found.old.items found.new.items) }
{
    if !is_in_common(replica, other, place) {
        waiting.insert_parents(replica.graph(), place)?;
        return Ok(());
    }
    if has_child_in_common(replica, other, place) {
        return Ok(());
    }
    found.push(place)?;
    Ok(())
}

// Whether a child of the changeset at the place is in common.
fn has_child_in_common(replica: &Replica, other: &Kept, place: usize) -> bool
    requires { place < length (changesets replica.now.history) }
    ensures { IsTrue result
        ↔ HasChildIn (changesets replica.now.history) (IsCommonAt replica.now other.now) place }
{
    for child in replica.graph().children(place) {
        if is_in_common(replica, other, *child) {
            return true;
        }
    }
    false
}

// Whether the changeset at the place isn't secret, and the other serves it.
fn is_in_common(replica: &Replica, other: &Kept, place: usize) -> bool
    ensures { IsTrue result ↔ IsCommonAt replica.now other.now place }
{
    match replica.graph().node_at(place) {
        Some(node) => !has_phase_at(replica, place, Phase::Secret)
            && other.is_served_by_guess(place, node),
        None => false,
    }
}

/// Whether what is obsolete stays in view: it is suspended, or upheld.
pub(crate) fn stays_in_view(
    instabilities: &Instabilities,
    upheld: &BTreeSet<Node>,
    node: Node,
) -> bool
    ensures { IsTrue result ↔ (Contains instabilities.now.suspended node ⊎ Contains upheld.now.keys node) }
{
    if instabilities.suspended().contains(&node) {
        return true;
    }
    upheld.contains(&node)
}
