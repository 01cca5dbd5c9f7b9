//! What a change turns, as far as a few look-ups tell: commits and publications turn nothing, and amends, splits and
//! prunes of leaves one changeset, wherever nothing near is unstable.
//!
//! Such a change came with one new marker at most. What was added wasn't held before, and what no marker rewrote before
//! wasn't obsolete. So neither was extinct: that set, which may be large, isn't searched for them. No memory is taken.
ghost use Rattle.std.specs.Prelude.{IfSome, IsTrue};
ghost use Rattle.hg_graph.specs.Places.{IsAt};
ghost use Rattle.hg_phases.specs.State.{changesets};
ghost use Rattle.hg_replica.specs.State.{ReplicaState};
ghost use Rattle.hg_replica.specs.Content.{content_of};
ghost use Rattle.hg_instab.specs.Amend.{IsOnlyFresh};
ghost use Rattle.hg_instab.specs.Changed.{IsChangedTo};
ghost use Rattle.hg_instab.specs.Instabilities.{AreInstabilities};
ghost use Rattle.hg_instab.specs.Quick.{IsInNoSet, IsLeaf, StandsStably, IsStable, IsAway, AreStable};
ghost use Rattle.hg_instab.specs.Quick.{AreUnchanged, IsRewrittenLeaf};
ghost use Rattle.hg_instab.specs.Turns.{IsTurningOf, TurnsTo};

use crate::amend::only_fresh;
use crate::among::is_missing;
use crate::divergence::is_fork;
use crate::instabilities::Instabilities;
use crate::near::names_near;
use crate::orphan_walk::stands_on_unstable;
use crate::query::{has_phase_at, is_predecessor};
use crate::turning::Turning;
use hg_changeset::Node;
use hg_marker::Marker;
use hg_phases::Phase;
use hg_replica::{Change, Replica};
use std::collections::BTreeSet;

// What a change turns in the sets, which were those before it, where a few look-ups tell.
pub(crate) fn quick_turning(
    sets: &Instabilities,
    replica: &Replica,
    change: &Change,
) -> Option<Turning>
    ensures of { IfSome result (IsTurningOf sets.now) }
    ensures told { IfSome result (λ turning. (s : ReplicaState) → IsChangedTo s change.now replica.now
        → AreInstabilities (content_of s) sets.now → TurnsTo (content_of replica.now) sets.now turning) }
{
    replica.is_valid();
    if change.markers.is_empty() {
        if moves_nothing(replica, sets, change) {
            return Some(Turning::Nothing);
        }
        return None;
    }
    match only_fresh(replica.store(), change) {
        Some(marker) => by_marker(sets, replica, change, marker),
        None => None,
    }
}

// The same where this marker is the only new one.
fn by_marker(
    sets: &Instabilities,
    replica: &Replica,
    change: &Change,
    marker: &Marker,
) -> Option<Turning>
    ensures of { IfSome result (IsTurningOf sets.now) }
    ensures told { IsOnlyFresh replica.now.markers change.now marker.now → IfSome result (λ turning. (s : ReplicaState)
        → IsChangedTo s change.now replica.now → AreInstabilities (content_of s) sets.now
        → TurnsTo (content_of replica.now) sets.now turning) }
{
    let node = marker.predecessor();
    match replica.graph().place(node) {
        Some(place) => {
            if is_rewritten_leaf(replica, sets, marker, place)
                && moves_nothing(replica, sets, change)
            {
                return Some(Turning::NewlyExtinct(node));
            }
            None
        }
        None => None,
    }
}

// Whether what was added and what went down turns nothing by itself.
fn moves_nothing(replica: &Replica, sets: &Instabilities, change: &Change) -> bool
    ensures { IsTrue result → AreStable (content_of replica.now) sets.now change.now.added
        × AreUnchanged (content_of replica.now) sets.now change.now.lowered }
{
    are_stable(replica, sets, &change.added) && are_unchanged(replica, sets, &change.lowered)
}

// Whether all that was added is stable, and away from forks. It is looked for where it was put: last in the graph, in
// its order.
fn are_stable(replica: &Replica, sets: &Instabilities, added: &[Node]) -> bool
    ensures { IsTrue result → AreStable (content_of replica.now) sets.now added.now }
{
    let held = replica.graph().len();
    if added.len() > held {
        return false;
    }
    let first = held - added.len();
    for index in 0..added.len() {
        if !is_stable_and_away(replica, sets, first + index, added[index]) {
            return false;
        }
    }
    true
}

// Whether the node stands at the place, and is so.
fn is_stable_and_away(replica: &Replica, sets: &Instabilities, place: usize, node: Node) -> bool
    ensures { IsTrue result → IsStable (content_of replica.now) sets.now node × IsAway sets.now node }
{
    match replica.graph().node_at(place) {
        Some(here) => {
            if here != node || !is_away(sets, node) {
                return false;
            }
            is_stable_at(replica, sets, place, node)
        }
        None => false,
    }
}

// Whether it was neither after something public nor near forks.
fn is_away(sets: &Instabilities, node: Node) -> bool
    ensures { IsTrue result → IsAway sets.now node }
{
    is_missing(sets.after_public(), node) && is_missing(sets.near_forks(), node)
}

// Whether no marker rewrote what stands at the place, and that stands on nothing unstable.
fn is_stable_at(replica: &Replica, sets: &Instabilities, place: usize, node: Node) -> bool
    requires { IsAt (changesets replica.now.history) node place }
    ensures { IsTrue result → IsStable (content_of replica.now) sets.now node }
{
    !is_predecessor(replica, node) && stands_stably(replica, sets, place, node)
}

// Whether no parent is obsolete, or was an orphan.
fn stands_stably(replica: &Replica, sets: &Instabilities, place: usize, node: Node) -> bool
    requires { IsAt (changesets replica.now.history) node place }
    ensures { IsTrue result → StandsStably (content_of replica.now) sets.now.orphan node }
{
    let none = BTreeSet::new(sets.alloc());
    !stands_on_unstable(replica, sets.orphan(), &none, place, node)
}

// Whether all that went down is stable, and was in no set of what is unstable.
fn are_unchanged(replica: &Replica, sets: &Instabilities, lowered: &[Node]) -> bool
    ensures { IsTrue result → AreUnchanged (content_of replica.now) sets.now lowered.now }
{
    for node in lowered {
        if !is_unchanged(replica, sets, *node) {
            return false;
        }
    }
    true
}

// Whether the node is so.
fn is_unchanged(replica: &Replica, sets: &Instabilities, node: Node) -> bool
    ensures { IsTrue result → IsStable (content_of replica.now) sets.now node × IsInNoSet sets.now node }
{
    if !is_in_no_set(sets, node) {
        return false;
    }
    match replica.graph().place(node) {
        Some(place) => is_stable_at(replica, sets, place, node),
        None => false,
    }
}

// Whether it is in none of the sets of what is unstable or suspended, nor after something public.
fn is_in_no_set(sets: &Instabilities, node: Node) -> bool
    ensures { IsTrue result → IsInNoSet sets.now node }
{
    is_missing(sets.orphan(), node)
        && is_missing(sets.suspended(), node)
        && is_missing(sets.after_public(), node)
        && is_missing(sets.content_divergent(), node)
}

// Whether what stands at the place, which this marker rewrote and no other did, is a leaf that was in no set of
// what is unstable, and the marker names nothing that was near forks.
fn is_rewritten_leaf(replica: &Replica, sets: &Instabilities, marker: &Marker, place: usize) -> bool
    requires { IsAt (changesets replica.now.history) marker.now.predecessor place }
    ensures { IsTrue result → IsRewrittenLeaf replica.now sets.now marker.now }
{
    if names_near(marker, sets.near_forks()) {
        return false;
    }
    let node = marker.predecessor();
    if !is_leaf(replica, place, node) || is_fork(replica.store(), node) {
        return false;
    }
    is_in_no_set(sets, node)
}

// Whether it isn't public, and nothing stands on it.
fn is_leaf(replica: &Replica, place: usize, node: Node) -> bool
    requires { IsAt (changesets replica.now.history) node place }
    ensures { IsTrue result → IsLeaf (content_of replica.now) node }
{
    replica.graph().children(place).is_empty() && !has_phase_at(replica, place, Phase::Public)
}
