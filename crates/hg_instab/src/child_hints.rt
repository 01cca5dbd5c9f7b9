//! Which child kept a changeset from being extinct when it was asked last: hints, which decide where a question begins
//! and never what it answers. So they are noted as far as there is memory, and no call is refused for want of it.
//!
//! Without them a changeset with many children that cease to hold it one after the other, the last first, would have
//! all of these looked at again each time: what they cost grows with their number, and not with its square.
ghost use Rattle.std.specs.Prelude.{◌≤◌};

use std::alloc::Global;
use std::collections::BTreeMap;

// By the place of a changeset, which of its children it was, in their order.
#[derive(Drop)]
pub(crate) struct ChildHints {
    indexes: BTreeMap<usize, usize>,
}

impl ChildHints {
    // None is known.
    pub(crate) fn new(alloc: Global) -> ChildHints {
        ChildHints {
            indexes: BTreeMap::new(alloc),
        }
    }

    // How many of so many children are asked first: those up to the one that is known, or all.
    pub(crate) fn first(&self, place: usize, children: usize) -> usize
        ensures { result ≤ children }
    {
        match self.indexes.get(&place) {
            Some(index) => up_to(*index, children),
            None => children,
        }
    }

    // Notes which child it was, unless memory is refused.
    pub(crate) fn note(&mut self, place: usize, index: usize) {
        match self.indexes.insert(place, index) {
            Ok(_) => {}
            Err(_) => {}
        }
    }
}

// How many there are up to an index, or all where there are fewer.
fn up_to(index: usize, all: usize) -> usize
    ensures { result ≤ all }
{
    if index < all { index + 1 } else { all }
}
