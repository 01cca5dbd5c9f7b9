//! What is above some places of a graph and under others, by a walk from children to parents.
//!
//! The places that the walk still has to visit wait in two sets: the fresh ones, each under a head, and the shared
//! ones, under which is all that is common. The greatest fresh one is visited next, once the shared ones that stand
//! after it have given way to their parents. If it waits among the shared ones too, it is common and is dropped. Else
//! it is found, and its parents wait as fresh ones. A parent's place is before its child's, so each place is visited
//! once.
//!
//! The walk ends when no fresh one waits. It costs the heads, the common places, what it finds, and those ancestors of
//! the common places that stand after the last fresh one that it visits, however large the graph is.
ghost use Rattle.std.specs.Prelude.{◌↔◌, ℕ, ◌<◌, ◌≤◌, length, Contains, IsTrue, IfOk, OnOk};
ghost use Rattle.std.specs.List.Sorted.{IsStrictlyIncreasing};
ghost use Rattle.hg_graph.specs.Graph.{IsGraph};
ghost use Rattle.hg_view.specs.Above.{IsUnderOne, IsAbove};

use hg_graph::{Graph, PlaceQueue};
use std::alloc::{AllocError, Global};

/// The places of the heads and their ancestors without those of the common places and theirs, ascending. Doubles change
/// nothing.
pub fn places_above(
    alloc: Global,
    graph: &Graph,
    heads: &[usize],
    common: &[usize],
) -> Result<Vec<usize>, AllocError>
    requires heads { (k : ℕ) → Contains heads.now k → k < length graph.now }
    requires common { (k : ℕ) → Contains common.now k → k < length graph.now }
    ensures exact { IfOk result (λ found. (k : ℕ) → Contains found.items k ↔ IsAbove graph.now heads.now common.now k) }
    ensures ascending { IfOk result (λ found. IsStrictlyIncreasing found.items) }
{
    graph.is_valid();
    let mut fresh = PlaceQueue::of(alloc, heads)?;
    let mut shared = PlaceQueue::of(alloc, common)?;
    let mut found = Vec::new(alloc);
    while let Some(place) = fresh.pop_last() {
        if !is_under(graph, place, &mut shared)? {
            found.push(place)?;
            fresh.insert_parents(graph, place)?;
        }
    }
    found.reverse();
    Ok(found)
}

// Whether the place is under one that waits. Those that wait after it give way to their parents, until none does. What
// is under them, as far as the place, stays.
fn is_under(graph: &Graph, place: usize, waiting: &mut PlaceQueue) -> Result<bool, AllocError>
    requires graph { IsGraph graph.now }
    requires within { (k : ℕ) → Contains waiting.old k → k < length graph.now }
    ensures answer { IfOk result (λ answer. IsTrue answer ↔ IsUnderOne graph.now waiting.old place) }
    ensures within { OnOk result ((k : ℕ) → Contains waiting.new k → k < length graph.now) }
    ensures under { OnOk result ((k : ℕ) → k ≤ place
        → IsUnderOne graph.now waiting.new k ↔ IsUnderOne graph.now waiting.old k) }
{
    while let Some(later) = waiting.pop_after(place) {
        waiting.insert_parents(graph, later)?;
    }
    Ok(waiting.contains(place))
}
