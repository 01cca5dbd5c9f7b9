//! Ascending places of markers, of which most lists have one.

ghost use Rattle.std.specs.Prelude.{◌≡◌, ◌++◌, ◌∷◌, ◌-◌, [], length, take, OnOk, OnErr, IfOk};
ghost use Rattle.hg_obsstore.specs.Entries.{places_in};
ghost use Rattle.hg_obsstore.specs.Index.{stands_last, with_last, without_last};

use hg_node_set::give_back_list;
use std::alloc::{AllocError, Global};
use std::slice;

/// A list of places that takes memory of its own from the second place on.
#[derive(Drop)]
pub enum Places {
    Empty,
    One(usize),
    Several(Box<Vec<usize>>),
}

impl Places {
    /// The places, in their order.
    pub fn as_slice(&self) -> &[usize]
        ensures { result.now ≡ places_in self.now }
    {
        match self {
            Places::Empty => &[],
            Places::One(place) => slice::from_ref(place),
            Places::Several(places) => places.as_slice(),
        }
    }

    /// Puts the place last, where it doesn't stand last.
    #[tactic(auto, unfolding(crate::specs::Index::with_last))]
    pub fn put_last(&mut self, alloc: Global, place: usize) -> Result<(), AllocError>
        ensures ok { OnOk result (places_in self.new ≡ with_last (places_in self.old) place) }
        ensures err { OnErr result (places_in self.new ≡ places_in self.old) }
    {
        if is_last(self.as_slice(), place) {
            return Ok(());
        }
        self.push(alloc, place)?;
        Ok(())
    }

    /// Takes the place away, where it stands last.
    #[tactic(auto, unfolding(crate::specs::Index::without_last))]
    pub fn take_last(&mut self, place: usize)
        ensures { places_in self.new ≡ without_last (places_in self.old) place }
    {
        if is_last(self.as_slice(), place) {
            self.pop();
        }
    }

    // Puts the place last.
    fn push(&mut self, alloc: Global, place: usize) -> Result<(), AllocError>
        ensures ok { OnOk result (places_in self.new ≡ places_in self.old ++ place ∷ []) }
        ensures err { OnErr result (places_in self.new ≡ places_in self.old) }
    {
        match self {
            Places::Empty => *self = Places::One(place),
            Places::One(first) => {
                let both = two(alloc, *first, place)?;
                *self = Places::Several(both);
            }
            Places::Several(places) => places.push(place)?,
        }
        Ok(())
    }

    // Takes the last place away, if there is one.
    fn pop(&mut self)
        ensures { places_in self.new ≡ take (length (places_in self.old) - 1) (places_in self.old) }
    {
        match self {
            Places::Empty => {}
            Places::One(_) => *self = Places::Empty,
            Places::Several(places) => {
                let _ = places.pop();
                give_back_list(places);
            }
        }
    }
}

// Two places in a list of their own.
fn two(alloc: Global, first: usize, second: usize) -> Result<Box<Vec<usize>>, AllocError>
    ensures { IfOk result (λ b. b.value.items ≡ first ∷ second ∷ []) }
{
    let places = Vec::from_slice(alloc, &[first, second])?;
    let both = Box::new(alloc, places)?;
    Ok(both)
}

// Whether the place stands last.
fn is_last(places: &[usize], place: usize) -> bool
    ensures { result ≡ stands_last places.now place }
{
    match places.last() {
        Some(last) => *last == place,
        None => false,
    }
}
