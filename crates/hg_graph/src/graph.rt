//! The changesets in their order, with the places of their parents.
ghost use Rattle.std.specs.Prelude.{Some, ◌⊎◌, ◌≡◌, ◌≢◌, ◌↔◌, ℕ, [], ◌∷◌, ◌++◌, ◌<◌, slice_get, take, length, Contains};
ghost use Rattle.std.specs.Prelude.{◌^◌, IsTrue, IsNone, IfSome, IfOk, IfErr, OnOk, OnErr, IsErrOf, MatchOption};
ghost use Rattle.std.specs.Option.{option_copied};
ghost use Rattle.std.specs.List.Sorted.{IsStrictlyIncreasing};
ghost use Rattle.hg_changeset.specs.Node.{null_node};
ghost use Rattle.hg_changeset.specs.Contents.{Contents};
ghost use Rattle.hg_changeset.specs.Changeset.{node_of, IsChangeset};
ghost use Rattle.hg_graph.specs.Graph.{nodes, Holds, HoldsParents, IsGraph};
ghost use Rattle.hg_graph.specs.Places.{IsOnlyAt, IsParentPlace, IsPlaceOf, ArePlacesOf};
ghost use Rattle.hg_graph.specs.Answers.{IsFirstMissing, IsNew, AddAnswer, MetAnswer};

use crate::error::GraphError;
use crate::links::Links;
use hg_changeset::{Changeset, Node};
use hg_node_set::{IdKeys, find_if_last, give_back_table};
use indexmap::IndexMap;
use indexmap::map::Entry;
use std::alloc::{AllocError, Global};
use std::marker::Model;

/// What `add` did.
#[derive(Clone, Copy, PartialEq, Eq, Debug)]
pub enum Added {
    /// The changeset now stands last.
    New,
    /// It was held already.
    Known,
}

/// Where the parents of a changeset stand. An absent parent has no place.
#[derive(Clone, Copy, PartialEq, Eq, Debug)]
pub struct ParentPlaces {
    /// Where the first parent stands, in normal form.
    pub first: Option<usize>,
    /// Where the second parent stands.
    pub second: Option<usize>,
}

/// Changesets in an order in which every parent is there and comes first.
pub struct Graph {
    changesets: IndexMap<Node, Changeset, IdKeys>,
    links: Links,
}

// Whoever owns a graph calls this once, and is proved without a look at each collection in it.
impl Drop for Graph {
    fn drop(self) {
        let Graph {
            changesets: _,
            links: _,
        } = self;
    }
}

impl Model for Graph {
    ghost use Rattle.std.specs.Prelude.{◌≡◌, List};
    ghost use Rattle.indexmap.specs.IndexMap.{keys, values};
    ghost use Rattle.hg_changeset.specs.Contents.{Contents};
    ghost use Rattle.hg_graph.specs.Graph.{IsGraph, nodes};
    ghost use Rattle.hg_graph.specs.Places.{ArePlaces};

    ghost Value = { List Contents };

    ghost view = { λ g. values g.changesets };

    ghost invariant = { λ g. (keys g.changesets ≡ nodes (values g.changesets)) × IsGraph (values g.changesets)
        × ArePlaces (values g.changesets) g.links };
}

impl Graph {
    /// The graph without changesets. It hashes ids by the rule that everybody knows.
    pub fn new(alloc: Global) -> Graph
        ensures { result ≡ [] }
    {
        Graph::with_keys(alloc, IdKeys::known())
    }

    /// The graph without changesets, which hashes ids by these keys. Whoever takes in changesets of strangers makes it
    /// with secret ones, so that ids that were chosen to meet cost what others cost.
    pub fn with_keys(alloc: Global, keys: IdKeys) -> Graph
        ensures { result ≡ [] }
    {
        Graph {
            changesets: IndexMap::with_hasher(alloc, keys),
            links: Links::new(alloc),
        }
    }

    /// What ids are hashed by.
    pub fn keys(&self) -> IdKeys {
        *self.changesets.hasher()
    }

    // The allocator that `new` was given. Its clause tells the sweeps, which see no field, that this is a graph.
    pub(crate) fn alloc(&self) -> Global
        ensures { IsGraph self.now }
    {
        *self.changesets.allocator()
    }

    /// It says to proofs that this is a graph, whose places are numbers of 64 bits, and does nothing.
    #[inline(always)]
    pub fn is_valid(&self)
        ensures graph { IsGraph self.now }
        ensures places { length self.now < 2 ^ 64 }
    {
        let _count = self.changesets.len();
    }

    /// How many changesets are held.
    pub fn len(&self) -> usize
        ensures len { result ≡ length self.now }
        ensures graph { IsGraph self.now }
    {
        self.changesets.len()
    }

    /// Whether no changeset is held.
    pub fn is_empty(&self) -> bool
        ensures { IsTrue result ↔ (self.now ≡ []) }
    {
        self.changesets.is_empty()
    }

    /// Whether a changeset with this id is held.
    pub fn contains(&self, node: Node) -> bool
        ensures { IsTrue result ↔ Holds self.now node }
    {
        self.place(node).is_some()
    }

    /// The changeset with this id.
    pub fn changeset(&self, node: Node) -> Option<&Changeset>
        ensures found { IfSome result (λ c. Contains self.now c.now × (node_of c.now ≡ node)) }
        ensures missing { IsNone result → ¬ (Holds self.now node) }
        ensures null { node ≡ null_node → IsNone result }
    {
        match self.place(node) {
            Some(place) => self.changeset_at(place),
            None => None,
        }
    }

    /// Where the changeset with this id stands. What was added last, which most is asked of, is found without a
    /// look-up, and so the null id is answered.
    pub fn place(&self, node: Node) -> Option<usize>
        ensures place { MatchOption result (¬ (Holds self.now node)) (IsOnlyAt self.now node) }
        ensures graph { IsGraph self.now }
    {
        let changesets = &self.changesets;
        if let Some((last, _)) = find_if_last(changesets, node) {
            return Some(last);
        }
        if node.is_null() {
            return None;
        }
        changesets.get_index_of(&node)
    }

    /// The id of the changeset at a place.
    pub fn node_at(&self, place: usize) -> Option<Node>
        ensures { result ≡ slice_get (nodes self.now) place }
    {
        match self.changesets.get_index(place) {
            Some((node, _)) => Some(*node),
            None => None,
        }
    }

    /// The changeset at a place.
    pub fn changeset_at(&self, place: usize) -> Option<&Changeset>
        ensures { option_copied result ≡ slice_get self.now place }
    {
        match self.changesets.get_index(place) {
            Some((_, changeset)) => Some(changeset),
            None => None,
        }
    }

    /// Where the parents of the changeset at a place stand.
    pub fn parent_places(&self, place: usize) -> ParentPlaces
        requires { place < length self.now }
        ensures places { (k : ℕ) → IsParentPlace self.now place k
            ↔ ((result.first ≡ Some k) ⊎ (result.second ≡ Some k)) }
        ensures in_order { IfSome (slice_get self.now place) (λ c. ArePlacesOf self.now c result) }
    {
        self.links.parents(place)
    }

    /// Where the children of the changeset at a place stand, ascending. It takes no memory.
    pub fn children(&self, place: usize) -> &[usize]
        requires { place < length self.now }
        ensures exact { (k : ℕ) → Contains result.now k ↔ IsParentPlace self.now k place }
        ensures ascending { IsStrictlyIncreasing result.now }
    {
        self.links.children(place)
    }

    /// Adds a changeset whose parents are held.
    #[inline(always)]
    pub fn add(&mut self, changeset: Changeset) -> Result<Added, GraphError>
        ensures answer { AddAnswer self.old changeset result self.new }
        ensures memory { IsErrOf result GraphError.NoMemory → IsNew self.old changeset }
    {
        if self.is_last(&changeset) {
            return Ok(Added::Known);
        }
        let parents = match self.places_of_parents(&changeset) {
            Ok(parents) => parents,
            Err(missing) => return Err(GraphError::UnknownParent(missing)),
        };
        match self.changesets.entry(changeset.node())? {
            Entry::Occupied(held) => known_or_collision(held.get(), &changeset),
            Entry::Vacant(vacant) => {
                self.links.push(parents)?;
                vacant.insert(changeset);
                Ok(Added::New)
            }
        }
    }

    /// Adds a copy of a changeset whose parents are held. One that is known is not copied.
    pub fn add_copy(&mut self, changeset: &Changeset) -> Result<Added, GraphError>
        ensures answer { AddAnswer self.old changeset.now result self.new }
        ensures memory { IsErrOf result GraphError.NoMemory → IsNew self.old changeset.now }
    {
        if self.is_last(changeset) {
            return Ok(Added::Known);
        }
        let parents = match self.places_of_parents(changeset) {
            Ok(parents) => parents,
            Err(missing) => return Err(GraphError::UnknownParent(missing)),
        };
        match self.changesets.entry(changeset.node())? {
            Entry::Occupied(held) => known_or_collision(held.get(), changeset),
            Entry::Vacant(vacant) => {
                let copy = changeset.copy()?;
                self.links.push(parents)?;
                vacant.insert(copy);
                Ok(Added::New)
            }
        }
    }

    // Whether an equal changeset was added last. It takes no hash.
    #[inline(always)]
    fn is_last(&self, changeset: &Changeset) -> bool
        ensures { IsTrue result → Contains self.now changeset.now }
    {
        match find_if_last(&self.changesets, changeset.node()) {
            Some((_, last)) => last.is_same(changeset),
            None => false,
        }
    }

    // Where the parents stand, or the first, in normal form, that isn't held.
    #[inline(always)]
    fn places_of_parents(&self, changeset: &Changeset) -> Result<ParentPlaces, Node>
        ensures held { IfOk result
            (λ places. HoldsParents self.now changeset.now × ArePlacesOf self.now changeset.now places) }
        ensures missing { IfErr result (IsFirstMissing self.now changeset.now) }
    {
        let (first, second) = changeset.parents();
        let first = self.place_of_parent(first)?;
        let second = self.place_of_parent(second)?;
        Ok(ParentPlaces { first, second })
    }

    // Where a parent stands, if it isn't absent; the parent itself where it isn't held.
    fn place_of_parent(&self, parent: Node) -> Result<Option<usize>, Node>
        ensures held { IfOk result (IsPlaceOf self.now parent) }
        ensures missing { IfErr result (λ p. (p ≡ parent) × (p ≢ null_node) × ¬ (Holds self.now p)) }
    {
        if parent.is_null() {
            return Ok(None);
        }
        match self.place(parent) {
            Some(place) => Ok(Some(place)),
            None => Err(parent),
        }
    }

    // Puts a new changeset last.
    #[inline(always)]
    fn push(&mut self, changeset: Changeset, parents: ParentPlaces) -> Result<(), AllocError>
        requires new { IsNew self.old changeset }
        requires places { ArePlacesOf self.old changeset parents }
        ensures pushed { OnOk result (self.new ≡ self.old ++ changeset ∷ []) }
        ensures unchanged { OnErr result (self.new ≡ self.old) }
    {
        let node = changeset.node();
        self.links.push(parents)?;
        match self.changesets.insert(node, changeset) {
            Ok(_) => Ok(()),
            Err(refused) => {
                self.links.pop();
                Err(refused.into())
            }
        }
    }

    /// Forgets the changesets from the place `len` on, and gives back the memory that they took. It takes back what a
    /// refused call of a crate above has added, and is for no other use: what is kept beside a graph must be taken back
    /// with it.
    pub fn truncate(&mut self, len: usize)
        ensures { self.new ≡ take len self.old }
    {
        self.changesets.truncate(len);
        self.links.truncate(len);
        give_back_table(&mut self.changesets);
    }

    /// An equal graph.
    pub fn copy(&self) -> Result<Graph, AllocError>
        ensures { IfOk result (λ graph. graph ≡ self.now) }
    {
        let mut graph = Graph {
            changesets: IndexMap::with_capacity_and_hasher(self.alloc(), self.len(), self.keys())?,
            links: Links::with_capacity(self.alloc(), self.len())?,
        };
        for place in 0..self.len() {
            if let Some(changeset) = self.changeset_at(place) {
                graph.push(changeset.copy()?, self.parent_places(place))?;
            }
        }
        Ok(graph)
    }
}

// What is answered to a changeset with the id of one that is held.
fn known_or_collision(held: &Changeset, changeset: &Changeset) -> Result<Added, GraphError>
    ensures { MetAnswer held.now changeset.now result }
{
    if held.is_same(changeset) {
        Ok(Added::Known)
    } else {
        Err(GraphError::Collision(changeset.node()))
    }
}
