//! Whether one changeset is an ancestor of another, by a walk from parents to parents.
//!
//! The walk takes the last of the places that wait, so it visits each once, and none that stands before the changeset
//! that is looked for. Along a line of sole parents nothing waits, and no memory is taken.
ghost use Rattle.std.specs.Prelude.{◌↔◌, ◌<◌, ℕ, length, IsTrue, IfOk, OnErr};
ghost use Rattle.hg_graph.specs.Graph.{IsGraph, Reaches};
ghost use Rattle.hg_graph.specs.Places.{IsAt, IsAncestorPlace};
ghost use Rattle.hg_graph.specs.Waiting.{Waits, TakesLast};

use crate::graph::Graph;
use crate::place_queue::PlaceQueue;
use hg_changeset::Node;
use std::alloc::AllocError;

impl Graph {
    /// Whether zero or more parent steps lead from `node` to `ancestor`. False where either isn't held. It costs what a
    /// walk up from `node` visits before it comes to the place of `ancestor`, and nothing where `ancestor` has no
    /// children.
    pub fn is_ancestor(&self, ancestor: Node, node: Node) -> Result<bool, AllocError>
        ensures answer { IfOk result (λ answer. IsTrue answer ↔ Reaches self.now ancestor node) }

        // Memory is taken only where the ancestor stands before the node.
        ensures memory { OnErr result ((low : ℕ) × (high : ℕ) × IsAt self.now ancestor low × IsAt self.now node high
            × low < high) }
    {
        match self.place(ancestor) {
            None => Ok(false),
            Some(low) => match self.place(node) {
                None => Ok(false),
                Some(high) => self.is_ancestor_place(low, high),
            },
        }
    }

    // Whether the changeset at `low` is the one at `high`, or an ancestor of it.
    fn is_ancestor_place(&self, low: usize, high: usize) -> Result<bool, AllocError>
        requires graph { IsGraph self.now }
        requires low { low < length self.now }
        requires high { high < length self.now }
        ensures answer { IfOk result (λ answer. IsTrue answer ↔ IsAncestorPlace self.now low high) }
        ensures memory { OnErr result (low < high) }
    {
        if high <= low || self.children(low).is_empty() {
            return Ok(low == high);
        }
        let mut waiting = PlaceQueue::new(self.alloc());
        let mut place = high;
        while low < place {
            match self.next_place(place, &mut waiting)? {
                Some(next) => place = next,
                None => return Ok(false),
            }
        }
        Ok(low == place)
    }

    // The last of the places that wait and of the parents'. The others wait afterwards.
    fn next_place(
        &self,
        place: usize,
        waiting: &mut PlaceQueue,
    ) -> Result<Option<usize>, AllocError>
        requires { place < length self.now }
        ensures { IfOk result (TakesLast (Waits self.now place waiting.old) waiting.new) }
    {
        let parents = self.parent_places(place);
        if parents.second.is_none() && waiting.is_empty() {
            return Ok(parents.first);
        }
        waiting.insert_parents(self, place)?;
        Ok(waiting.pop_last())
    }
}
