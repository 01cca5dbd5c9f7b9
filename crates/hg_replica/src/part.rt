//! What a replica takes in, and what that changes.
ghost use Rattle.std.specs.Prelude.{IsTrue, ◌≡◌, ◌↔◌};
ghost use Rattle.std.specs.Cow.{cow_slice_items, cow_value};
ghost use Rattle.hg_replica.specs.Change.{IsNothing};

use hg_changeset::{Changeset, Node};
use hg_history::AddedNodes;
use hg_marker::Marker;
use hg_obsstore::NewPlaces;
use hg_phases::Phase;
use smallvec::SmallVec;
use std::borrow::{Cow, CowSlice};
use std::marker::Model;
use std::mem;

/// Bounds on phases. One, as most operations set, takes no memory.
pub type Bounds = SmallVec<(Node, Phase), 1>;

/// What a replica takes in: changesets, bounds on phases, and markers. A bound `(node, phase)` says that the node and
/// its ancestors have at most this phase.
pub struct Part {
    pub changesets: Vec<Changeset>,
    pub bounds: Bounds,
    pub markers: Vec<Marker>,
}

// Whoever owns one calls this once, and is proved without a look at each collection in it.
impl Drop for Part {
    fn drop(self) {
        let Part {
            changesets: _,
            bounds: _,
            markers: _,
        } = self;
    }
}

impl Model for Part {
    ghost use Rattle.std.specs.Coded.{codes};
    ghost use Rattle.hg_marker.specs.Fields.{fields_code};
    ghost use Rattle.hg_replica.specs.Least.{PartValue};

    ghost Value = { PartValue };

    ghost coded = { Prim.hlevel (codes, fields_code) };

    ghost view = { λ part. record {
      history = record { changesets = part.changesets.items; bounds = part.bounds.items };
      markers = part.markers.items;
    } };
}

impl Part {
    // Takes its changesets and its markers out, and leaves its bounds.
    #[inline(always)]
    pub(crate) fn take_lists(&mut self) -> (Vec<Changeset>, Vec<Marker>)
        ensures changesets { result.0.items ≡ self.old.history.changesets }
        ensures markers { result.1.items ≡ self.old.markers }
        ensures bounds { self.new.history.bounds ≡ self.old.history.bounds }
    {
        let alloc = *self.markers.allocator();
        let changesets = mem::replace(&mut self.changesets, Vec::new(alloc));
        let markers = mem::replace(&mut self.markers, Vec::new(alloc));
        (changesets, markers)
    }
}

// Takes the changesets and the markers of a part out, which is lent or moved in, and leaves its bounds.
#[inline(always)]
pub(crate) fn take_lists<'a>(
    part: &mut Cow<'a, Part>,
) -> (CowSlice<'a, Changeset>, CowSlice<'a, Marker>)
    ensures changesets { cow_slice_items result.0 ≡ (cow_value part.old).history.changesets }
    ensures markers { cow_slice_items result.1 ≡ (cow_value part.old).markers }
    ensures bounds { (cow_value part.new).history.bounds ≡ (cow_value part.old).history.bounds }
{
    match part {
        Cow::Borrowed(part) => {
            let part: &'a Part = *part;
            let changesets = CowSlice::Borrowed(&part.changesets);
            (changesets, CowSlice::Borrowed(&part.markers))
        }
        Cow::Owned(part) => {
            let (changesets, markers) = part.take_lists();
            (CowSlice::Owned(changesets), CowSlice::Owned(markers))
        }
    }
}

/// What a part changed: the nodes that were added, in their order; the nodes held before whose phase went down, in no
/// promised order; and the places of the new markers in the store, ascending.
pub struct Change {
    pub added: AddedNodes,
    pub lowered: Vec<Node>,
    pub markers: NewPlaces,
}

// The same of what it changed.
impl Drop for Change {
    fn drop(self) {
        let Change {
            added: _,
            lowered: _,
            markers: _,
        } = self;
    }
}

impl Model for Change {
    ghost use Rattle.hg_replica.specs.Change.{ChangeValue};

    ghost Value = { ChangeValue };

    ghost view = { λ change. record {
      added = change.added.items;
      lowered = change.lowered.items;
      markers = change.markers.items;
    } };
}

impl Change {
    /// Whether nothing changed: nothing was added, no phase went down, and no marker is new.
    pub fn is_empty(&self) -> bool
        ensures { IsTrue result ↔ IsNothing self.now }
    {
        self.added.is_empty() && self.lowered.is_empty() && self.markers.is_empty()
    }
}
