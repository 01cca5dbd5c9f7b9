//! A set of places that takes no memory to change.
//!
//! All places are listed, those in the set first, and the seat of each in that list is known. A place comes in, or goes
//! out, by changing seats with the one at the border. So neither takes memory, and what is in the set is listed without
//! a look at the other places. The form is Briggs' and Torczon's ("An Efficient Representation for Sparse Sets", 1993).
ghost use Rattle.std.specs.Prelude.{◌≡◌, ◌<◌, ◌≤◌, ◌-◌, ◌↔◌, ◌++◌, [], Some, true, false, ℕ, List, Contains};
ghost use Rattle.std.specs.Prelude.{length, map, replicate, take, slice_get, slice_set, IfOk, OnOk, OnErr};
ghost use Rattle.hg_phases.specs.Seats.{AreSeated, flags_of, swapped};

use hg_node_set::give_back_list;
use std::alloc::{AllocError, Global};
use std::marker::Model;

/// A set of the places before a bound: for each whether it is in the set.
#[derive(Drop)]
pub struct PlaceSet {
    // All places, those in the set first.
    order: Vec<usize>,
    // Where each place stands in the order.
    seats: Vec<usize>,
    // How many places are in the set.
    count: usize,
}

impl Model for PlaceSet {
    ghost use Rattle.std.specs.Prelude.{List, Bool, length, ◌≤◌};
    ghost use Rattle.hg_phases.specs.Seats.{AreSeated, flags_of};

    ghost Value = { List Bool };

    ghost view = { λ set. flags_of set.seats.items set.count };

    ghost invariant = { λ set. AreSeated set.order.items set.seats.items × (set.count ≤ length set.order.items) };
}

impl PlaceSet {
    /// No places.
    pub fn new(alloc: Global) -> PlaceSet
        ensures { result ≡ [] }
    {
        PlaceSet {
            order: Vec::new(alloc),
            seats: Vec::new(alloc),
            count: 0,
        }
    }

    /// An equal set.
    pub fn copy(&self) -> Result<PlaceSet, AllocError>
        ensures { IfOk result (λ set. set ≡ self.now) }
    {
        Ok(PlaceSet {
            order: self.order.clone()?,
            seats: self.seats.clone()?,
            count: self.count,
        })
    }

    /// The places in the set, in no promised order.
    pub fn places(&self) -> &[usize]
        ensures { (p : ℕ) → Contains result.now p ↔ (slice_get self.now p ≡ Some true) }
    {
        &self.order[..self.count]
    }

    /// Moves the bound up. The places that come aren't in the set. It takes no memory where none come.
    pub fn grow(&mut self, bound: usize) -> Result<(), AllocError>
        requires { length self.old ≤ bound }
        ensures grown { OnOk result (self.new ≡ self.old ++ replicate (bound - length self.old) false) }
        ensures unchanged { OnErr result (self.new ≡ self.old) }
        ensures memory { OnErr result (length self.old < bound) }
    {
        let before = self.order.len();
        match seat_places(&mut self.order, &mut self.seats, bound) {
            Ok(()) => Ok(()),
            Err(refused) => {
                self.order.truncate(before);
                self.seats.truncate(before);
                Err(refused)
            }
        }
    }

    /// Adds a place.
    pub fn insert(&mut self, place: usize)
        requires { place < length self.old }
        ensures { self.new ≡ slice_set self.old place true }
    {
        let seat = self.seats[place];
        if self.count <= seat {
            swap_seats(&mut self.order, &mut self.seats, seat, self.count);
            self.count += 1;
        }
    }

    /// Takes a place out.
    pub fn remove(&mut self, place: usize)
        requires { place < length self.old }
        ensures { self.new ≡ slice_set self.old place false }
    {
        let seat = self.seats[place];
        if seat < self.count {
            self.count -= 1;
            swap_seats(&mut self.order, &mut self.seats, seat, self.count);
        }
    }

    /// Moves the bound down.
    pub fn truncate(&mut self, bound: usize)
        requires { bound ≤ length self.old }
        ensures { self.new ≡ take bound self.old }
    {
        while bound < self.order.len() {
            self.forget_last();
        }
        give_back_list(&mut self.order);
        give_back_list(&mut self.seats);
    }

    // Moves the bound down by one.
    fn forget_last(&mut self)
        requires { 0 < length self.old }
        ensures { self.new ≡ take (length self.old - 1) self.old }
    {
        let last = self.order.len() - 1;
        self.remove(last);
        let seat = self.seats[last];
        swap_seats(&mut self.order, &mut self.seats, seat, last);
        self.order.truncate(last);
        self.seats.truncate(last);
    }
}

// Seats each place before the bound that has none at its own number.
fn seat_places(
    order: &mut Vec<usize>,
    seats: &mut Vec<usize>,
    bound: usize,
) -> Result<(), AllocError>
    requires seated { AreSeated order.old.items seats.old.items }
    requires within { length order.old.items ≤ bound }
    ensures seated { OnOk result (AreSeated order.new.items seats.new.items) }
    ensures flags { OnOk result ((count : ℕ) → count ≤ length seats.old.items → flags_of seats.new.items count
        ≡ flags_of seats.old.items count ++ replicate (bound - length seats.old.items) false) }
    ensures order { take (length order.old.items) order.new.items ≡ order.old.items }
    ensures seats { take (length seats.old.items) seats.new.items ≡ seats.old.items }
    ensures memory { OnErr result (length order.old.items < bound) }
{
    for place in order.len()..bound {
        order.push(place)?;
        seats.push(place)?;
    }
    Ok(())
}

// The places at two seats change them.
fn swap_seats(order: &mut Vec<usize>, seats: &mut Vec<usize>, one: usize, other: usize)
    requires seated { AreSeated order.old.items seats.old.items }
    requires one { one < length order.old.items }
    requires other { other < length order.old.items }
    ensures seated { AreSeated order.new.items seats.new.items }
    ensures seats { seats.new.items ≡ map (swapped one other) seats.old.items }
{
    let first = order[one];
    let second = order[other];
    order[one] = second;
    order[other] = first;
    seats[first] = other;
    seats[second] = one;
}
