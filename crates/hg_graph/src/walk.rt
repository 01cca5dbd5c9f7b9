//! Descendants, by a walk from children to children.
//!
//! The walk takes the first of the places that wait, so it visits each once, in the graph's order. It costs what it
//! visits.
ghost use Rattle.std.specs.Prelude.{◌↔◌, ℕ, Contains, IfOk, OnErr};
ghost use Rattle.hg_changeset.specs.declared.node.Node.{Node};
ghost use Rattle.hg_graph.specs.Graph.{Holds, IsDescendantOfOne, Selects};
ghost use Rattle.hg_graph.specs.Places.{IsPlaceOfOne};

use crate::graph::Graph;
use crate::place_queue::PlaceQueue;
use hg_changeset::Node;
use std::alloc::AllocError;

impl Graph {
    /// The nodes that are held and their descendants, in the graph's order. Doubles, and ids that aren't held, change
    /// nothing. It costs what it finds, however large the graph is.
    pub fn descendants(&self, nodes: &[Node]) -> Result<Vec<Node>, AllocError>
        ensures answer { IfOk result (λ found. Selects self.now (IsDescendantOfOne self.now nodes.now) found.items) }

        // Memory is taken only where one of the nodes is held.
        ensures memory { OnErr result ((n : Node) × Contains nodes.now n × Holds self.now n) }
    {
        let places = self.places_of(nodes)?;
        let mut waiting = PlaceQueue::of(self.alloc(), &places)?;
        let mut found = Vec::new(self.alloc());
        while let Some(place) = waiting.pop_first() {
            if let Some(node) = self.node_at(place) {
                found.push(node)?;
                waiting.insert_each(self.children(place))?;
            }
        }
        Ok(found)
    }

    /// The places of those of the nodes that are held, in the order of the nodes.
    pub fn places_of(&self, nodes: &[Node]) -> Result<Vec<usize>, AllocError>
        ensures answer { IfOk result
            (λ places. (k : ℕ) → Contains places.items k ↔ IsPlaceOfOne self.now nodes.now k) }

        // Memory is taken only where one of the nodes is held.
        ensures memory { OnErr result ((n : Node) × Contains nodes.now n × Holds self.now n) }
    {
        let mut places = Vec::new(self.alloc());
        for node in nodes {
            if let Some(place) = self.place(*node) {
                places.push(place)?;
            }
        }
        Ok(places)
    }
}
