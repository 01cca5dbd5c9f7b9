//! The unions that one set of each of several families give, and the largest of some sets.
//!
//! Unions are formed as lists in any order. The largest of them are made sets, sorted and once each; then what is
//! within a larger one is dropped. Only a set that is smaller than the largest can be, and only it is compared with the
//! others.
ghost use Rattle.std.specs.Prelude.{◌≡◌, ◌≤◌, ◌<◌, ◌++◌, List, filter, length, map, Contains, IsTrue, IfOk, OnOk};
ghost use Rattle.std.specs.List.Sorted.{IsStrictlySortedBy};
ghost use Rattle.std.specs.Cmp.Lexicographic.{slice_cmp};
ghost use Rattle.hg_changeset.specs.declared.node.Node.{Node};
ghost use Rattle.hg_changeset.specs.Node.{node_cmp};
ghost use Rattle.hg_succ.specs.Answer.{sets_of};
ghost use Rattle.hg_succ.specs.Rows.{At};
ghost use Rattle.hg_succ.specs.Unions.{products, is_largest, IsSetOf, AreSetsOf, AreLargest, AreAscending};
ghost use Rattle.hg_succ.specs.Holders.{Indexes};

use crate::holders::Holders;
use hg_changeset::Node;
use hg_node_set::IdKeys;
use std::alloc::{AllocError, Global};

/// The same sets.
pub(crate) fn copy_of(alloc: Global, sets: &[Vec<Node>]) -> Result<Vec<Vec<Node>>, AllocError>
    ensures { IfOk result (λ copy. sets_of copy.items ≡ sets_of sets.now) }
{
    let mut copy = Vec::new(alloc);
    for set in sets {
        let own = Vec::from_slice(alloc, set)?;
        copy.push(own)?;
    }
    Ok(copy)
}

/// The union of each of the first sets with each of the second.
pub(crate) fn products(
    alloc: Global,
    firsts: &[Vec<Node>],
    seconds: &[Vec<Node>],
) -> Result<Vec<Vec<Node>>, AllocError>
    ensures { IfOk result (λ found. sets_of found.items ≡ products (sets_of firsts.now) (sets_of seconds.now)) }
{
    let mut found = Vec::new(alloc);
    for first in firsts {
        push_unions(alloc, first, seconds, &mut found)?;
    }
    Ok(found)
}

// Adds the union of the set with each of the others.
fn push_unions(
    alloc: Global,
    first: &[Node],
    seconds: &[Vec<Node>],
    found: &mut Vec<Vec<Node>>,
) -> Result<(), AllocError>
    ensures { OnOk result (sets_of found.new.items ≡ sets_of found.old.items ++ map (λ second. first.now ++ second)
        (sets_of seconds.now)) }
{
    for second in seconds {
        let both = union(alloc, first, second)?;
        found.push(both)?;
    }
    Ok(())
}

// The one list and then the other.
fn union(alloc: Global, first: &[Node], second: &[Node]) -> Result<Vec<Node>, AllocError>
    ensures { IfOk result (λ both. both.items ≡ first.now ++ second.now) }
{
    let mut both = Vec::with_capacity(alloc, first.len() + second.len())?;
    both.extend_from_slice(first)?;
    both.extend_from_slice(second)?;
    Ok(both)
}

/// The largest of the sets, which are lists in any order: those that aren't empty and aren't within a larger one, each
/// once, ascending, in lexicographic order. Members are looked up by these keys.
pub(crate) fn largest(
    alloc: Global,
    keys: IdKeys,
    found: Vec<Vec<Node>>,
) -> Result<Vec<Vec<Node>>, AllocError>
    ensures { IfOk result (λ family. AreLargest (sets_of found.items) (sets_of family.items)) }
{
    let mut sets = ascending(alloc, found)?;
    sets.sort_unstable();
    sets.dedup();
    let longest = longest(&sets);
    if are_as_long(&sets, longest) {
        return Ok(sets);
    }
    without_subsets(alloc, keys, &sets, longest)
}

// Each list as a set: ascending, each member once.
fn ascending(alloc: Global, lists: Vec<Vec<Node>>) -> Result<Vec<Vec<Node>>, AllocError>
    ensures { IfOk result (λ sets. AreSetsOf (sets_of lists.items) (sets_of sets.items)) }
{
    let mut sets = Vec::new(alloc);
    for list in lists {
        sets.push(as_set(list))?;
    }
    Ok(sets)
}

// The list ascending, each member once.
fn as_set(list: Vec<Node>) -> Vec<Node>
    ensures { IsSetOf list.items result.items }
{
    let mut list = list;
    list.sort_unstable();
    list.dedup();
    list
}

// A length that none of the sets exceeds.
fn longest(sets: &[Vec<Node>]) -> usize
    ensures { (set : List Node) → Contains (sets_of sets.now) set → length set ≤ result }
{
    let mut longest = 0;
    for set in sets {
        if set.len() > longest {
            longest = set.len();
        }
    }
    longest
}

// Whether none of the sets is empty or shorter than `longest`, which none of them exceeds.
fn are_as_long(sets: &[Vec<Node>], longest: usize) -> bool
    requires { (set : List Node) → Contains (sets_of sets.now) set → length set ≤ longest }
    ensures { IsTrue result → filter (is_largest (sets_of sets.now)) (sets_of sets.now) ≡ sets_of sets.now }
{
    for set in sets {
        if set.is_empty() || set.len() < longest {
            return false;
        }
    }
    true
}

// The sets that aren't empty and aren't within a larger one. None of them is longer than `longest`.
fn without_subsets(
    alloc: Global,
    keys: IdKeys,
    sets: &[Vec<Node>],
    longest: usize,
) -> Result<Vec<Vec<Node>>, AllocError>
    requires longest { (set : List Node) → Contains (sets_of sets.now) set → length set ≤ longest }
    requires ascending { AreAscending (sets_of sets.now) }
    requires different { IsStrictlySortedBy (slice_cmp node_cmp) (sets_of sets.now) }
    ensures { IfOk result (λ kept. sets_of kept.items ≡ filter (is_largest (sets_of sets.now)) (sets_of sets.now)) }
{
    let holders = Holders::of(alloc, keys, sets)?;
    let mut kept = Vec::new(alloc);
    for place in 0..sets.len() {
        if is_largest(sets, place, longest, &holders) {
            let copy = Vec::from_slice(alloc, &sets[place])?;
            kept.push(copy)?;
        }
    }
    Ok(kept)
}

// Whether the set at the place isn't empty and isn't within a larger one. None of them is longer than `longest`.
fn is_largest(sets: &[Vec<Node>], place: usize, longest: usize, holders: &Holders) -> bool
    requires place { place < length sets.now }
    requires longest { (set : List Node) → Contains (sets_of sets.now) set → length set ≤ longest }
    requires ascending { AreAscending (sets_of sets.now) }
    requires different { IsStrictlySortedBy (slice_cmp node_cmp) (sets_of sets.now) }
    requires holders { Indexes (sets_of sets.now) holders.now }
    ensures { (set : List Node) → At (sets_of sets.now) place set → result ≡ is_largest (sets_of sets.now) set }
{
    let set = &sets[place];
    if set.is_empty() {
        return false;
    }
    if set.len() >= longest {
        return true;
    }
    !holders.is_within_another(place)
}
