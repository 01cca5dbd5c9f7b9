//! The places that a walk still has to visit.
//!
//! Each waits once. A parent's place is before its child's, so a walk to children that visits the first one next visits
//! each place once, and so does a walk to parents that visits the last one next.
ghost use Rattle.std.specs.Prelude.{◌≡◌, ◌≢◌, ◌↔◌, ◌<◌, ℕ, [], Some, length, Contains, IsTrue, IfOk, OnOk, OnErr};
ghost use Rattle.hg_graph.specs.Places.{IsParentPlace};
ghost use Rattle.hg_graph.specs.Waiting.{Widens, TakesFirst, TakesLast, TakesAfter};

use crate::graph::Graph;
use std::alloc::{AllocError, Global};
use std::collections::BTreeSet;
use std::marker::Model;

/// Places that wait, each once. Contracts see them ascending.
#[derive(Drop)]
pub struct PlaceQueue {
    places: BTreeSet<usize>,
}

impl Model for PlaceQueue {
    ghost use Rattle.std.specs.Prelude.{List, ℕ};

    ghost Value = { List ℕ };

    ghost view = { λ queue. queue.places.keys };
}

impl PlaceQueue {
    /// No place waits.
    pub fn new(alloc: Global) -> PlaceQueue
        ensures { result ≡ [] }
    {
        PlaceQueue {
            places: BTreeSet::new(alloc),
        }
    }

    /// These places wait. They are sorted at once, which costs less than to put in one by one.
    pub fn of(alloc: Global, places: &[usize]) -> Result<PlaceQueue, AllocError>
        ensures answer { IfOk result (λ queue. (k : ℕ) → Contains queue k ↔ Contains places.now k) }
        ensures memory { OnErr result (places.now ≢ []) }
    {
        if places.is_empty() {
            return Ok(PlaceQueue::new(alloc));
        }
        let places = places.iter().copied().collect(alloc)?;
        Ok(PlaceQueue { places })
    }

    /// Whether no place waits.
    pub fn is_empty(&self) -> bool
        ensures { IsTrue result ↔ (self.now ≡ []) }
    {
        self.places.is_empty()
    }

    /// Whether the place waits.
    pub fn contains(&self, place: usize) -> bool
        ensures { IsTrue result ↔ Contains self.now place }
    {
        self.places.contains(&place)
    }

    /// The places that wait.
    pub fn as_set(&self) -> &BTreeSet<usize>
        ensures { result.now.keys ≡ self.now }
    {
        &self.places
    }

    /// The place waits.
    pub fn insert(&mut self, place: usize) -> Result<(), AllocError>
        ensures { OnOk result (Widens (λ k. place ≡ k) self.old self.new) }
    {
        self.places.insert(place)?;
        Ok(())
    }

    /// Each of the places waits.
    pub fn insert_each(&mut self, places: &[usize]) -> Result<(), AllocError>
        ensures { OnOk result (Widens (Contains places.now) self.old self.new) }
    {
        for place in places {
            self.insert(*place)?;
        }
        Ok(())
    }

    /// The places of the parents of the changeset at the place wait.
    pub fn insert_parents(&mut self, graph: &Graph, place: usize) -> Result<(), AllocError>
        requires { place < length graph.now }
        ensures { OnOk result (Widens (IsParentPlace graph.now place) self.old self.new) }
    {
        let parents = graph.parent_places(place);
        self.insert_some(parents.first)?;
        self.insert_some(parents.second)
    }

    // The place waits, if there is one.
    fn insert_some(&mut self, place: Option<usize>) -> Result<(), AllocError>
        ensures { OnOk result (Widens (λ k. place ≡ Some k) self.old self.new) }
    {
        match place {
            Some(place) => self.insert(place),
            None => Ok(()),
        }
    }

    /// Takes the first place, if any waits.
    pub fn pop_first(&mut self) -> Option<usize>
        ensures { TakesFirst (Contains self.old) self.new result }
    {
        self.places.pop_first()
    }

    /// Takes the last place, if any waits.
    pub fn pop_last(&mut self) -> Option<usize>
        ensures { TakesLast (Contains self.old) self.new result }
    {
        self.places.pop_last()
    }

    /// Takes the last place, if it is after `low`.
    pub fn pop_after(&mut self, low: usize) -> Option<usize>
        ensures { TakesAfter low self.old self.new result }
    {
        match self.places.last() {
            Some(last) if low < *last => self.places.pop_last(),
            _ => None,
        }
    }
}
