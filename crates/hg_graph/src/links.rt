//! For each changeset where its parents stand, and where its children do.
//!
//! A place more is a child of its parents' places, and the last one there. So what was added last is taken back at the
//! cost of what it was, and a walk down from some changesets costs what it visits.
ghost use Rattle.std.specs.Prelude.{◌≡◌, ℕ, ◌↔◌, ◌++◌, ◌∷◌, [], ◌<◌, ◌-◌, Some, slice_get, take, length, Contains};
ghost use Rattle.std.specs.Prelude.{IfSome, IfOk, OnOk, OnErr};
ghost use Rattle.std.specs.List.Sorted.{IsStrictlyIncreasing};
ghost use Rattle.std.specs.Vec.{vec_capacity};
ghost use Rattle.hg_graph.specs.Links.{IsChildPlace, IsLinkable, lists_of, put_last, drop_last, changed_at};

use crate::graph::ParentPlaces;
use crate::packed::PackedPlaces;
use hg_node_set::give_back_list;
use smallvec::SmallVec;
use std::alloc::{AllocError, Global};
use std::marker::Model;

// The places of one changeset's children. Nearly every changeset has two at most: these stand in the value itself.
type Children = SmallVec<usize, 2>;

/// The places of each changeset's parents, and of its children. Contracts see the parents'.
#[derive(Drop)]
pub struct Links {
    alloc: Global,
    parents: Vec<PackedPlaces>,
    children: Vec<Children>,
}

impl Model for Links {
    ghost use Rattle.std.specs.Prelude.{List};
    ghost use Rattle.hg_graph.specs.declared.graph.ParentPlaces.{ParentPlaces};
    ghost use Rattle.hg_graph.specs.Links.{AreChildren, lists_of};

    ghost Value = { List ParentPlaces };

    ghost view = { λ l. l.parents.items };

    ghost invariant = { λ l. AreChildren l.parents.items (lists_of l.children.items) };
}

impl Links {
    /// Of no changesets.
    pub fn new(alloc: Global) -> Links
        ensures { result ≡ [] }
    {
        Links {
            alloc,
            parents: Vec::new(alloc),
            children: Vec::new(alloc),
        }
    }

    /// Of no changesets, with room for some.
    pub fn with_capacity(alloc: Global, capacity: usize) -> Result<Links, AllocError>
        ensures { IfOk result (λ links. links ≡ []) }
    {
        Ok(Links {
            alloc,
            parents: Vec::with_capacity(alloc, capacity)?,
            children: Vec::with_capacity(alloc, capacity)?,
        })
    }

    /// Where the parents of the changeset at a place stand.
    pub fn parents(&self, place: usize) -> ParentPlaces
        requires { place < length self.now }
        ensures { slice_get self.now place ≡ Some result }
    {
        self.parents[place].unpack()
    }

    /// Where the children of the changeset at a place stand, ascending.
    pub fn children(&self, place: usize) -> &[usize]
        requires { place < length self.now }
        ensures exact { (k : ℕ) → Contains result.now k ↔ IsChildPlace self.now place k }
        ensures ascending { IsStrictlyIncreasing result.now }
    {
        self.children[place].as_slice()
    }

    /// One changeset more, by where its parents stand.
    #[inline(always)]
    pub fn push(&mut self, parents: ParentPlaces) -> Result<(), AllocError>
        requires { IsLinkable (length self.old) parents }
        ensures pushed { OnOk result (self.new ≡ self.old ++ parents ∷ []) }
        ensures unchanged { OnErr result (self.new ≡ self.old) }
    {
        let place = self.parents.len();
        self.parents.reserve(1)?;
        self.children.reserve(1)?;
        add_child(&mut self.children, parents, place)?;
        self.parents.push(PackedPlaces::pack(parents))?;
        self.children.push(SmallVec::new(self.alloc))?;
        Ok(())
    }

    /// Forgets the last changeset.
    pub fn pop(&mut self)
        ensures { self.new ≡ take (length self.old - 1) self.old }
    {
        if let Some(parents) = self.parents.pop() {
            let parents = parents.unpack();
            forget_last(&mut self.children, parents.first);
            forget_last(&mut self.children, parents.second);
            self.children.truncate(self.parents.len());
        }
    }

    /// Forgets the changesets from the place `len` on. It costs what is forgotten.
    pub fn truncate(&mut self, len: usize)
        ensures { self.new ≡ take len self.old }
    {
        while self.parents.len() > len {
            self.pop();
        }
        give_back_list(&mut self.parents);
        give_back_list(&mut self.children);
    }
}

// Puts a child last for its parents.
#[inline(always)]
fn add_child(
    children: &mut Vec<Children>,
    parents: ParentPlaces,
    child: usize,
) -> Result<(), AllocError>
    requires { IsLinkable (length children.old.items) parents }
    ensures ok { OnOk result
        (lists_of children.new.items ≡ changed_at parents.second (put_last child)
        (changed_at parents.first (put_last child) (lists_of children.old.items))) }
    ensures err { OnErr result (lists_of children.new.items ≡ lists_of children.old.items) }
    ensures capacity { vec_capacity children.new ≡ vec_capacity children.old }
{
    put_child(children, parents.first, child)?;
    match put_child(children, parents.second, child) {
        Ok(()) => Ok(()),
        Err(refused) => {
            forget_last(children, parents.first);
            Err(refused)
        }
    }
}

// Puts a child last for one parent, where there is one.
fn put_child(
    children: &mut Vec<Children>,
    parent: Option<usize>,
    child: usize,
) -> Result<(), AllocError>
    requires { IfSome parent (λ k. k < length children.old.items) }
    ensures ok { OnOk result
        (lists_of children.new.items ≡ changed_at parent (put_last child) (lists_of children.old.items)) }
    ensures err { OnErr result (lists_of children.new.items ≡ lists_of children.old.items) }
    ensures capacity { vec_capacity children.new ≡ vec_capacity children.old }
{
    match parent {
        Some(parent) => {
            children[parent].push(child)?;
            Ok(())
        }
        None => Ok(()),
    }
}

// Forgets the last child of a parent, where there is one.
fn forget_last(children: &mut Vec<Children>, parent: Option<usize>)
    requires { IfSome parent (λ k. k < length children.old.items) }
    ensures lists { lists_of children.new.items ≡ changed_at parent drop_last (lists_of children.old.items) }
    ensures capacity { vec_capacity children.new ≡ vec_capacity children.old }
{
    if let Some(parent) = parent {
        let _ = children[parent].pop();
    }
}
