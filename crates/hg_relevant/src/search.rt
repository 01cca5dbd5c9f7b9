//! A search along chains of markers.
//!
//! Each marker that is found is put into a queue once. The markers that touch one of the nodes are found first, and
//! then those that touch the predecessor of each marker in the queue, once for all the markers of one predecessor.
ghost use Rattle.std.specs.Prelude.{◌≡◌, ◌<◌, ◌↔◌, ◌⊎◌, ℕ, [], length, replicate, false, Contains, IfOk, OnOk};
ghost use Rattle.hg_obsstore.specs.Markers.{IsAt, ArePlaces};
ghost use Rattle.hg_obsstore.specs.Places.{ListsAll};
ghost use Rattle.hg_relevant.specs.Relevant.{IsPrune, IsRelevant};
ghost use Rattle.hg_relevant.specs.Search.{Expands, Finds, IsMarked, IsSearched, ExpandsPredecessor};

use hg_changeset::Node;
use hg_marker::Marker;
use hg_obsstore::Store;
use std::alloc::{AllocError, Global};

/// The places of the markers that are relevant to the nodes, ascending.
///
/// A marker is relevant to its successors, and one without successors, which tells of a prune, to its predecessor and
/// to the parents that it records. What is relevant to the predecessor of a relevant marker is relevant too: so the
/// whole line of rewrites that led to the nodes is told, and what was pruned from them.
///
/// It costs what the nodes, the markers and their successors are together, however the markers hang together: one
/// look-up by a hash for each node, and for each predecessor. A node that is given twice is looked up twice.
pub fn relevant(alloc: Global, store: &Store, nodes: &[Node]) -> Result<Vec<usize>, AllocError>
    ensures { IfOk result (λ places. ArePlaces (IsRelevant (Contains store.now) (Contains nodes.now)) store.now
        places.items) }
{
    let mut search = Search::of_nodes(alloc, store, nodes)?;
    let mut next = 0;
    while next < search.queue.len() {
        let place = search.queue[next];
        search.expand_predecessor(store, place)?;
        next += 1;
    }
    marked_places(alloc, &search.found)
}

/// For each place whether its marker was found, and whether what touches its predecessor was, and the places that were
/// found, in the order in which they were.
#[derive(Drop)]
struct Search {
    found: Vec<bool>,
    expanded: Vec<bool>,
    queue: Vec<usize>,
}

impl Search {
    // What touches one of the nodes is found.
    fn of_nodes(alloc: Global, store: &Store, nodes: &[Node]) -> Result<Search, AllocError>
        ensures { IfOk result (λ s. IsSearched store.now nodes.now nodes.now s 0) }
    {
        let mut search = Search::new(alloc, store.len())?;
        for node in nodes {
            search.expand(store, *node)?;
        }
        Ok(search)
    }

    // Nothing is found yet.
    fn new(alloc: Global, places: usize) -> Result<Search, AllocError>
        ensures found { IfOk result (λ s. s.found.items ≡ replicate places false) }
        ensures expanded { IfOk result (λ s. s.expanded.items ≡ replicate places false) }
        ensures queue { IfOk result (λ s. s.queue.items ≡ []) }
    {
        let found = vec![in alloc; false; places]?;
        let expanded = vec![in alloc; false; places]?;
        Ok(Search {
            found,
            expanded,
            queue: Vec::new(alloc),
        })
    }

    // Finds the markers that touch the predecessor of the marker at the place, unless they were found.
    fn expand_predecessor(&mut self, store: &Store, place: usize) -> Result<(), AllocError>
        requires found { length self.old.found.items ≡ length store.now }
        requires expanded { length self.old.expanded.items ≡ length store.now }
        requires within { place < length store.now }
        ensures { OnOk result (ExpandsPredecessor store.now place self.old self.new) }
    {
        if self.expanded[place] {
            return Ok(());
        }
        let node = store.markers()[place].predecessor();
        self.expand(store, node)?;
        Ok(())
    }

    // Finds the markers that touch the node.
    fn expand(&mut self, store: &Store, node: Node) -> Result<(), AllocError>
        requires found { length self.old.found.items ≡ length store.now }
        requires expanded { length self.old.expanded.items ≡ length store.now }
        ensures { OnOk result (Expands store.now node self.old self.new) }
    {
        let markers = store.markers();
        let mentions = store.mentions(node);
        self.find_all(mentions.as_successor())?;
        self.find_prunes(markers, mentions.as_predecessor())?;
        self.find_prunes(markers, mentions.as_parent())?;
        self.mark_expanded(mentions.as_predecessor());
        Ok(())
    }

    // What touches the predecessor of the markers at the places was found.
    fn mark_expanded(&mut self, places: &[usize])
        requires within { (i : ℕ) → Contains places.now i → i < length self.old.expanded.items }
        ensures expanded { (i : ℕ) → IsMarked self.new.expanded.items i
            ↔ (IsMarked self.old.expanded.items i ⊎ Contains places.now i) }
        ensures marks { length self.new.expanded.items ≡ length self.old.expanded.items }
        ensures found { self.new.found.items ≡ self.old.found.items }
        ensures queue { self.new.queue.items ≡ self.old.queue.items }
    {
        for place in places {
            self.expanded[*place] = true;
        }
    }

    // Finds the markers at the places.
    fn find_all(&mut self, places: &[usize]) -> Result<(), AllocError>
        requires { (i : ℕ) → Contains places.now i → i < length self.old.found.items }
        ensures { OnOk result (Finds (Contains places.now) self.old self.new) }
    {
        for place in places {
            self.find(*place)?;
        }
        Ok(())
    }

    // Finds the prune markers at the places.
    fn find_prunes(&mut self, markers: &[Marker], places: &[usize]) -> Result<(), AllocError>
        requires marks { length self.old.found.items ≡ length markers.now }
        requires within { (i : ℕ) → Contains places.now i → i < length markers.now }
        ensures { OnOk result (Finds (λ i. Contains places.now i × IsAt IsPrune markers.now i) self.old self.new) }
    {
        for place in places {
            self.find_prune(markers, *place)?;
        }
        Ok(())
    }

    // Finds the marker at the place, if it is a prune marker.
    fn find_prune(&mut self, markers: &[Marker], place: usize) -> Result<(), AllocError>
        requires marks { length self.old.found.items ≡ length markers.now }
        requires within { place < length markers.now }
        ensures { OnOk result (Finds (λ i. (place ≡ i) × IsAt IsPrune markers.now i) self.old self.new) }
    {
        if markers[place].successors().is_empty() {
            self.find(place)?;
        }
        Ok(())
    }

    // Finds the marker at the place.
    fn find(&mut self, place: usize) -> Result<(), AllocError>
        requires { place < length self.old.found.items }
        ensures { OnOk result (Finds (λ i. place ≡ i) self.old self.new) }
    {
        if !self.found[place] {
            self.queue.push(place)?;
            self.found[place] = true;
        }
        Ok(())
    }
}

// The places that are marked, ascending.
fn marked_places(alloc: Global, marks: &[bool]) -> Result<Vec<usize>, AllocError>
    ensures { IfOk result (λ places. ListsAll (IsMarked marks.now) places.items) }
{
    let mut places = Vec::new(alloc);
    for (place, marked) in marks.iter().enumerate() {
        if *marked {
            places.push(place)?;
        }
    }
    Ok(places)
}
