//! What comes to the extinct changesets or leaves them with a change, by a walk down from what the change touched.
//!
//! Children tell whether a changeset is extinct.
ghost use Rattle.std.specs.Prelude.{◌↔◌, ◌<◌, ◌≤◌, ℕ, length, get_or, Contains, MatchOption, IsTrue, IfOk};
ghost use Rattle.hg_changeset.specs.declared.node.Node.{Node};
ghost use Rattle.hg_graph.specs.Places.{IsAt};
ghost use Rattle.hg_phases.specs.State.{changesets};
ghost use Rattle.hg_replica.specs.State.{ReplicaState, IsValid};
ghost use Rattle.hg_replica.specs.Content.{content_of};
ghost use Rattle.hg_replica.specs.Change.{ChangeValue};
ghost use Rattle.hg_replica.specs.Evolution.{IsExtinct};
ghost use Rattle.hg_instab.specs.Changed.{Follows, AreSeeded, IsNow};
ghost use Rattle.hg_instab.specs.Local.{HoldsNothing};
ghost use Rattle.hg_instab.specs.Settling.{IsSoAt, IsAtEach};

use crate::child_hints::ChildHints;
use crate::query::is_obsolete_at;
use crate::settling::{Kind, settle_all};
use crate::turned::has_now;
use crate::waiting::{Beside, waiting_from};
use hg_changeset::Node;
use hg_replica::Replica;
use std::alloc::{AllocError, Global};
use std::collections::BTreeSet;

// The nodes that come to the extinct changesets or leave them with a change to what the replica holds now. The seeds
// are at the places of what the change moved or rewrote.
pub(crate) fn turned_extinct(
    alloc: Global,
    replica: &Replica,
    extinct: &BTreeSet<Node>,
    hints: &mut ChildHints,
    seeds: &[usize],
) -> Result<BTreeSet<Node>, AllocError>
    requires { (k : ℕ) → Contains seeds.now k → k < length (changesets replica.now.history) }
    ensures { IfOk result (λ turned. (s : ReplicaState) (change : ChangeValue) → IsValid s
        → Follows (content_of s) (content_of replica.now) change replica.now.markers
        → AreSeeded replica.now change seeds.now
        → ((n : Node) → Contains extinct.now.keys n ↔ IsExtinct (content_of s) n)
        → (n : Node) → IsNow extinct.now.keys turned.keys n ↔ IsExtinct (content_of replica.now) n) }
{
    let graph = replica.graph();
    let waiting = waiting_from(alloc, graph, seeds, Beside::Parents, seeds)?;
    settle_all(alloc, replica, Kind::Extinct, extinct, hints, waiting)
}

// Whether it is obsolete, and each child is extinct now.
pub(crate) fn is_extinct_now(
    replica: &Replica,
    extinct: &BTreeSet<Node>,
    hints: &mut ChildHints,
    turned: &BTreeSet<Node>,
    place: usize,
    node: Node,
) -> bool
    requires { IsAt (changesets replica.now.history) node place }
    ensures { IsTrue result
        ↔ HoldsNothing (content_of replica.now) (IsNow extinct.now.keys turned.now.keys) node }
{
    is_obsolete_at(replica, place)
        && are_extinct(
            replica,
            extinct,
            hints,
            turned,
            place,
            replica.graph().children(place),
        )
}

// Whether what stands at each of the places is extinct now: those of the children of what stands at the one place. It
// begins with the one that wasn't when it was asked last.
fn are_extinct(
    replica: &Replica,
    extinct: &BTreeSet<Node>,
    hints: &mut ChildHints,
    turned: &BTreeSet<Node>,
    place: usize,
    places: &[usize],
) -> bool
    ensures { IsTrue result
        ↔ IsAtEach (changesets replica.now.history) places.now (IsNow extinct.now.keys turned.now.keys) }
{
    match holder(
        replica,
        extinct,
        turned,
        places,
        hints.first(place, places.len()),
    ) {
        Some(index) => {
            hints.note(place, index);
            false
        }
        None => true,
    }
}

// Which of the places it is at which something stands that isn't extinct now. So many are looked through first, from
// the last of these down, and then the others: where that is all, what was added last is the least likely to be
// obsolete.
fn holder(
    replica: &Replica,
    extinct: &BTreeSet<Node>,
    turned: &BTreeSet<Node>,
    places: &[usize],
    first: usize,
) -> Option<usize>
    requires { first ≤ length places.now }
    ensures { MatchOption result
        (IsAtEach (changesets replica.now.history) places.now (IsNow extinct.now.keys turned.now.keys))
        (λ i. ¬ (IsAtEach (changesets replica.now.history) places.now (IsNow extinct.now.keys turned.now.keys))) }
{
    match holder_between(replica, extinct, turned, places, 0, first) {
        Some(index) => Some(index),
        None => holder_between(replica, extinct, turned, places, first, places.len()),
    }
}

// The same among the places from one index on, below another, from the last of these down.
fn holder_between(
    replica: &Replica,
    extinct: &BTreeSet<Node>,
    turned: &BTreeSet<Node>,
    places: &[usize],
    low: usize,
    high: usize,
) -> Option<usize>
    requires { high ≤ length places.now }
    ensures { MatchOption result
        ((i : ℕ) → low ≤ i → i < high
        → IsSoAt (changesets replica.now.history) (IsNow extinct.now.keys turned.now.keys) (get_or places.now i 0))
        (λ i. (low ≤ i) × (i < high) × ¬ (IsSoAt (changesets replica.now.history)
        (IsNow extinct.now.keys turned.now.keys) (get_or places.now i 0))) }
{
    for index in (low..high).rev() {
        if !is_extinct_at(replica, extinct, turned, places[index]) {
            return Some(index);
        }
    }
    None
}

// Whether what stands at the place is extinct now, if anything does.
fn is_extinct_at(
    replica: &Replica,
    extinct: &BTreeSet<Node>,
    turned: &BTreeSet<Node>,
    place: usize,
) -> bool
    ensures { IsTrue result
        ↔ IsSoAt (changesets replica.now.history) (IsNow extinct.now.keys turned.now.keys) place }
{
    match replica.graph().node_at(place) {
        Some(node) => has_now(extinct, turned, node),
        None => true,
    }
}
