//! How far two replicas were compared.
//!
//! Where no changeset of the one collides with one of the other, what both hold has the same parents on both sides, and
//! a walk down from the asker's heads tells what is common. Replicas only grow, and what comes goes last. So what was
//! compared once stays compared, and two that ask each other often compare each changeset once.
ghost use Rattle.std.specs.Prelude.{◌≡◌, ◌↔◌, ◌≤◌, List, MatchOption, IsTrue, length};
ghost use Rattle.hg_changeset.specs.Changeset.{node_of};
ghost use Rattle.hg_changeset.specs.Contents.{Contents};
ghost use Rattle.hg_graph.specs.Graph.{Holds};
ghost use Rattle.hg_graph.specs.Places.{IsOnlyAt};
ghost use Rattle.hg_view.specs.Common.{AreFree, IsFree};
ghost use Rattle.hg_discovery.specs.Compared.{AreAllCompared, AreCompared, AreFreeFrom};

use hg_changeset::{Changeset, Node};
use hg_graph::Graph;

/// How many changesets of an asker, and how many of another replica, were compared, from the first on: none of these
/// collides with one of those.
#[derive(Clone, Copy, PartialEq, Eq, Debug)]
pub struct Compared {
    ours: usize,
    theirs: usize,
}

impl Compared {
    /// Nothing was compared yet.
    pub fn nothing() -> Compared
        ensures { (ours theirs : List Contents) → AreCompared ours theirs result }
    {
        Compared { ours: 0, theirs: 0 }
    }

    /// Compares what came since, and tells whether still none collides with one of the other side. Where one does,
    /// nothing more counts as compared.
    pub fn go_on(&mut self, ours: &Graph, theirs: &Graph) -> bool
        requires { AreCompared ours.now theirs.now self.old }
        ensures compared { AreCompared ours.now theirs.now self.new }
        ensures free { IsTrue result ↔ AreFree ours.now theirs.now }
        ensures all { IsTrue result → AreAllCompared ours.now theirs.now self.new }
        ensures none { ¬ (IsTrue result) → self.new ≡ self.old }
    {
        let are_free = are_free_from(ours, self.ours, theirs)
            && (self.ours == 0 || are_free_from(theirs, self.theirs, ours));
        if are_free {
            self.ours = ours.len();
            self.theirs = theirs.len();
        }
        are_free
    }
}

// Whether none of the changesets from a place on collides with one of the other graph. Both sides mostly hold what they
// share in the same order, so each is looked for behind the one before.
fn are_free_from(graph: &Graph, from: usize, other: &Graph) -> bool
    requires { from ≤ length graph.now }
    ensures { IsTrue result ↔ AreFreeFrom graph.now from other.now }
{
    let mut guess = from;
    for place in from..graph.len() {
        match graph.changeset_at(place) {
            Some(changeset) => {
                let there = place_from(other, changeset.node(), guess);
                if !is_free_at(changeset, other, there) {
                    return false;
                }
                guess = behind(there, guess);
            }
            None => {}
        }
    }
    true
}

// Whether the changeset doesn't collide with what stands where its id is held, if that is anywhere.
fn is_free_at(changeset: &Changeset, other: &Graph, there: Option<usize>) -> bool
    requires { MatchOption there (¬ (Holds other.now (node_of changeset.now)))
        (IsOnlyAt other.now (node_of changeset.now)) }
    ensures { IsTrue result ↔ IsFree changeset.now other.now }
{
    let Some(there) = there else {
        return true;
    };
    match other.changeset_at(there) {
        Some(held) => changeset.is_same(held),
        None => true,
    }
}

// Where the changeset with this id stands, which may be the place that is guessed.
fn place_from(graph: &Graph, node: Node, guess: usize) -> Option<usize>
    ensures { MatchOption result (¬ (Holds graph.now node)) (IsOnlyAt graph.now node) }
{
    graph.is_valid();
    match graph.node_at(guess) {
        Some(held) if held == node => Some(guess),
        _ => graph.place(node),
    }
}

// The place behind this one, if there is one.
fn behind(place: Option<usize>, guess: usize) -> usize {
    match place {
        Some(place) => place.saturating_add(1),
        None => guess,
    }
}
