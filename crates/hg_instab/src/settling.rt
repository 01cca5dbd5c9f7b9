//! Walks that ask at places, one after the other, until none waits.
//!
//! Whether a changeset is an orphan its parents tell, and whether it is extinct its children. So where an answer turned
//! those are asked again to whom it tells something, and no others. The walk to orphans goes up, and asks at the lowest
//! place; that to extinct ones goes down, and asks at the highest. So each place is asked once.
ghost use Rattle.std.specs.Prelude.{◌≡◌, ◌↔◌, ◌<◌, ℕ, [], length, Contains, IsTrue, IfOk, OnOk};
ghost use Rattle.hg_graph.specs.Places.{IsAt};
ghost use Rattle.hg_phases.specs.State.{changesets};
ghost use Rattle.hg_replica.specs.State.{IsValid};
ghost use Rattle.hg_replica.specs.Content.{content_of};
ghost use Rattle.hg_instab.specs.Changed.{IsNow};
ghost use Rattle.hg_instab.specs.Settling.{IsSoBy, beside_of, TakesNext, IsSettling, SettlesAt};

use crate::child_hints::ChildHints;
use crate::extinct_walk::is_extinct_now;
use crate::orphan_walk::is_orphan_now;
use crate::turned::{has_now, turn};
use crate::waiting::{Beside, wait_beside_place};
use hg_changeset::Node;
use hg_graph::PlaceQueue;
use hg_replica::Replica;
use std::alloc::{AllocError, Global};
use std::collections::BTreeSet;

// What is asked of changesets.
#[derive(Clone, Copy)]
pub(crate) enum Kind {
    Orphan,
    Extinct,
}

// Asks at the places that wait, until none does. Only what is asked of extinct ones is begun by what held them.
pub(crate) fn settle_all(
    alloc: Global,
    replica: &Replica,
    kind: Kind,
    set: &BTreeSet<Node>,
    hints: &mut ChildHints,
    starts: PlaceQueue,
) -> Result<BTreeSet<Node>, AllocError>
    requires { (k : ℕ) → Contains starts k → k < length (changesets replica.now.history) }
    ensures { IfOk result (λ turned. IsSettling (changesets replica.now.history)
        (IsSoBy kind (content_of replica.now)) set.now.keys starts turned.keys []) }
{
    let mut turned = BTreeSet::new(alloc);
    let mut waiting = starts;
    while let Some(place) = take_next(kind, &mut waiting) {
        settle_at(replica, kind, set, hints, &mut turned, &mut waiting, place)?;
    }
    Ok(turned)
}

// Takes out the place that is asked next.
fn take_next(kind: Kind, waiting: &mut PlaceQueue) -> Option<usize>
    ensures { TakesNext kind waiting.old waiting.new result }
{
    match kind {
        Kind::Orphan => waiting.pop_first(),
        Kind::Extinct => waiting.pop_last(),
    }
}

// Asks at one place. Where the answer turned those wait to whom it tells something.
fn settle_at(
    replica: &Replica,
    kind: Kind,
    set: &BTreeSet<Node>,
    hints: &mut ChildHints,
    turned: &mut BTreeSet<Node>,
    waiting: &mut PlaceQueue,
    place: usize,
) -> Result<(), AllocError>
    ensures valid { IsValid replica.now }
    ensures settled { OnOk result (SettlesAt (changesets replica.now.history) (beside_of kind)
        (IsSoBy kind (content_of replica.now)) set.now.keys place turned.old.keys waiting.old turned.new.keys
        waiting.new) }
{
    let graph = replica.graph();
    match graph.node_at(place) {
        Some(node) => {
            if is_so_now(replica, kind, set, hints, turned, place, node)
                == has_now(set, turned, node)
            {
                return Ok(());
            }
            turn(turned, node)?;
            wait_beside_place(graph, place, asked_beside(kind), waiting)
        }
        None => Ok(()),
    }
}

// Whether it is so of the node, by those that tell it.
fn is_so_now(
    replica: &Replica,
    kind: Kind,
    set: &BTreeSet<Node>,
    hints: &mut ChildHints,
    turned: &BTreeSet<Node>,
    place: usize,
    node: Node,
) -> bool
    requires { IsAt (changesets replica.now.history) node place }
    ensures { IsTrue result ↔ IsSoBy kind (content_of replica.now) (IsNow set.now.keys turned.now.keys) node }
{
    match kind {
        Kind::Orphan => is_orphan_now(replica, set, turned, place, node),
        Kind::Extinct => is_extinct_now(replica, set, hints, turned, place, node),
    }
}

// Where those stand to whom an answer tells something.
fn asked_beside(kind: Kind) -> Beside
    ensures { result ≡ beside_of kind }
{
    match kind {
        Kind::Orphan => Beside::Children,
        Kind::Extinct => Beside::Parents,
    }
}
