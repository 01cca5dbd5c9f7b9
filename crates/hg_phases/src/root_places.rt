//! Where the roots of a graph's phases stand, and how they move.
//!
//! A changeset that is added, or goes down, leaves the roots, joins those of its new phase, or stays among them, and so
//! does each child of it. Nothing else changes: these are looked at, and no other place.
ghost use Rattle.std.specs.Prelude.{◌≡◌, ◌<◌, ◌≤◌, ◌↔◌, ◌⊎◌, [], ℕ, Some, All, Contains, length, slice_get, take};
ghost use Rattle.std.specs.Prelude.{IsTrue, IfOk, IfSome, OnOk, OnErr};
ghost use Rattle.hg_phases.specs.declared.phase.Phase.{Phase};
ghost use Rattle.hg_phases.specs.State.{state_of};
ghost use Rattle.hg_phases.specs.Log.{IsLog, restored};
ghost use Rattle.hg_phases.specs.Roots.{AreRoots};
ghost use Rattle.hg_phases.specs.RootPlaces.{HasParentIn, IsRootPlace, AreRootPlaces, IsPlaceOrChild, IsTouched};
ghost use Rattle.hg_phases.specs.RootPlaces.{AreRecomputed};

use crate::lowered::{LoweredPlace, LoweredPlaces};
use crate::phase::Phase;
use crate::phase_map::PhaseMap;
use crate::place_set::PlaceSet;
use crate::roots::Roots;
use hg_graph::{Graph, PlaceQueue};
use std::alloc::{AllocError, Global};
use std::collections::BTreeSet;

/// Moves the roots of the changesets before a place to where they are since the others were added and what was logged
/// went down. A refusal leaves them as they were: it comes before any of them moves.
#[inline(always)]
pub(crate) fn update_roots(
    graph: &Graph,
    phases: &PhaseMap,
    roots: &mut PlaceSet,
    log: &[LoweredPlace],
    before: usize,
) -> Result<(), AllocError>
    requires len { length phases.now ≡ length graph.now }
    requires within { before ≤ length graph.now }
    requires logged { (phase : Phase) × IsLog phase (restored phases.now log.now) phases.now log.now }
    requires rooted { AreRootPlaces (take before graph.now) (take before (restored phases.now log.now)) roots.old }
    ensures updated { OnOk result (AreRootPlaces graph.now phases.now roots.new) }
    ensures unchanged { OnErr result (roots.new ≡ roots.old) }
    ensures memory { OnErr result (before < length graph.now) }
{
    roots.grow(graph.len())?;
    recompute_added(graph, phases, roots, before);
    recompute_logged(graph, phases, roots, log);
    Ok(())
}

/// Takes back what was logged, the last first, and moves the roots with it.
pub(crate) fn take_back_logged(
    graph: &Graph,
    phases: &mut PhaseMap,
    roots: &mut PlaceSet,
    log: &mut LoweredPlaces,
)
    requires len { length phases.old ≡ length graph.now }
    requires logged { All (λ e. e.place < length graph.now) log.old.items }
    requires rooted { AreRootPlaces graph.now phases.old roots.old }
    ensures restored { phases.new ≡ restored phases.old log.old.items }
    ensures rooted { AreRootPlaces graph.now phases.new roots.new }
    ensures emptied { log.new.items ≡ [] }
{
    while let Some(LoweredPlace { place, had }) = log.pop() {
        phases.set(place, had);
        recompute_family(graph, phases, roots, place);
    }
}

// Recomputes the flags of the places from one on.
#[inline(always)]
fn recompute_added(graph: &Graph, phases: &PhaseMap, roots: &mut PlaceSet, before: usize)
    requires len { length phases.now ≡ length graph.now }
    requires seats { length roots.old ≡ length graph.now }
    ensures { AreRecomputed graph.now phases.now (λ p. before ≤ p) roots.old roots.new }
{
    for place in before..graph.len() {
        recompute(graph, phases, roots, place);
    }
}

// Recomputes the flags of the places of what was logged, and of the children of that.
#[inline(always)]
fn recompute_logged(graph: &Graph, phases: &PhaseMap, roots: &mut PlaceSet, log: &[LoweredPlace])
    requires len { length phases.now ≡ length graph.now }
    requires seats { length roots.old ≡ length graph.now }
    requires logged { All (λ e. e.place < length graph.now) log.now }
    ensures { AreRecomputed graph.now phases.now (IsTouched graph.now log.now) roots.old roots.new }
{
    for lowered in log {
        recompute_family(graph, phases, roots, lowered.place);
    }
}

// Recomputes the flags of a place and of those of the children of the changeset there.
fn recompute_family(graph: &Graph, phases: &PhaseMap, roots: &mut PlaceSet, place: usize)
    requires len { length phases.now ≡ length graph.now }
    requires seats { length roots.old ≡ length graph.now }
    requires within { place < length graph.now }
    ensures { AreRecomputed graph.now phases.now (IsPlaceOrChild graph.now place) roots.old roots.new }
{
    recompute(graph, phases, roots, place);
    for child in graph.children(place) {
        recompute(graph, phases, roots, *child);
    }
}

// Makes the place one of the roots exactly where a root stands there.
#[inline(always)]
fn recompute(graph: &Graph, phases: &PhaseMap, roots: &mut PlaceSet, place: usize)
    requires len { length phases.now ≡ length graph.now }
    requires seats { length roots.old ≡ length graph.now }
    requires within { place < length graph.now }
    ensures { AreRecomputed graph.now phases.now (λ p. place ≡ p) roots.old roots.new }
{
    if is_root(graph, phases, place) {
        roots.insert(place);
    } else {
        roots.remove(place);
    }
}

/// The nodes of the roots with their phases, in the graph's order.
pub(crate) fn roots_at(
    graph: &Graph,
    phases: &PhaseMap,
    roots: &PlaceSet,
    alloc: Global,
) -> Result<Roots, AllocError>
    requires len { length phases.now ≡ length graph.now }
    requires rooted { AreRootPlaces graph.now phases.now roots.now }
    ensures { IfOk result (AreRoots (state_of graph.now phases.now)) }
{
    let queue = PlaceQueue::of(alloc, roots.places())?;
    roots_listed(graph, phases, queue.as_set(), alloc)
}

// The nodes of the roots at these places, which are all, with their phases.
fn roots_listed(
    graph: &Graph,
    phases: &PhaseMap,
    places: &BTreeSet<usize>,
    alloc: Global,
) -> Result<Roots, AllocError>
    requires len { length phases.now ≡ length graph.now }
    requires all { (p : ℕ) → Contains places.now.keys p ↔ IsRootPlace graph.now phases.now p }
    ensures { IfOk result (AreRoots (state_of graph.now phases.now)) }
{
    let mut listed = Vec::new(alloc);
    for place in places {
        match graph.node_at(*place) {
            Some(node) => listed.push((phases.at(graph, *place), node))?,
            None => {}
        }
    }
    Ok(Roots::new(listed))
}

// Whether a root stands at the place.
fn is_root(graph: &Graph, phases: &PhaseMap, place: usize) -> bool
    requires len { length phases.now ≡ length graph.now }
    requires within { place < length graph.now }
    ensures { IsTrue result ↔ IsRootPlace graph.now phases.now place }
{
    let phase = phases.at(graph, place);
    if phase == Phase::Public {
        return false;
    }
    !has_parent_in(graph, phases, place, phase)
}

// Whether a parent of the changeset at a place has the phase.
fn has_parent_in(graph: &Graph, phases: &PhaseMap, place: usize, phase: Phase) -> bool
    requires len { length phases.now ≡ length graph.now }
    requires within { place < length graph.now }
    ensures { IsTrue result ↔ HasParentIn graph.now phases.now place phase }
{
    let parents = graph.parent_places(place);
    has_phase(graph, phases, parents.first, phase)
        || has_phase(graph, phases, parents.second, phase)
}

// Whether the phase stands at the place, if there is one.
fn has_phase(graph: &Graph, phases: &PhaseMap, place: Option<usize>, phase: Phase) -> bool
    requires len { length phases.now ≡ length graph.now }
    requires within { IfSome place (λ p. p < length graph.now) }
    ensures { IsTrue result ↔ ((p : ℕ) × (place ≡ Some p) × (slice_get phases.now p ≡ Some phase)) }
{
    match place {
        Some(place) => phases.at(graph, place) == phase,
        None => false,
    }
}
