//! The phases that listed roots give.
//!
//! Each place is marked with the highest phase of a root there. Parents stand before children, so one sweep forward
//! gives each changeset the highest of its own mark and its parents' phases.
ghost use Rattle.std.specs.Prelude.{◌≡◌, ◌<◌, ◌∷◌, ◌++◌, [], List, Some, length, slice_get, IfOk, IfSome, MatchOption};
ghost use Rattle.hg_changeset.specs.declared.node.Node.{Node};
ghost use Rattle.hg_phases.specs.declared.phase.Phase.{Phase};
ghost use Rattle.hg_phases.specs.State.{state_of, IsValid};
ghost use Rattle.hg_phases.specs.Roots.{IsOpened};
ghost use Rattle.hg_phases.specs.Marks.{AreMarked, IsRaised, IsHigher};

use crate::phase::Phase;
use hg_changeset::Node;
use hg_graph::Graph;
use std::alloc::{AllocError, Global};

/// The phase that the listed roots give each changeset of a graph, at its place.
pub(crate) fn phases_under(
    graph: &Graph,
    alloc: Global,
    roots: &[(Phase, Node)],
) -> Result<Vec<Phase>, AllocError>
    ensures opened { IfOk result (λ phases. (length phases.items ≡ length graph.now)
        × IsOpened graph.now roots.now (state_of graph.now phases.items)) }
    ensures valid { IfOk result (λ phases. IsValid (state_of graph.now phases.items)) }
{
    let marks = marks_of(graph, alloc, roots)?;
    let mut phases = Vec::new(alloc);
    for place in 0..graph.len() {
        let parents = graph.parent_places(place);
        let first = phase_at(&phases, parents.first);
        let second = phase_at(&phases, parents.second);
        phases.push(higher(marks[place], higher(first, second)))?;
    }
    Ok(phases)
}

// For each place the highest phase of a root there.
fn marks_of(graph: &Graph, alloc: Global, roots: &[(Phase, Node)]) -> Result<Vec<Phase>, AllocError>
    ensures { IfOk result (λ marks. AreMarked graph.now roots.now marks.items) }
{
    let mut marks = vec![in alloc; Phase::Public; graph.len()]?;
    for root in roots {
        mark(graph, &mut marks, root);
    }
    Ok(marks)
}

// Marks where the root stands, if it is held.
fn mark(graph: &Graph, marks: &mut Vec<Phase>, root: &(Phase, Node))
    requires { length marks.old.items ≡ length graph.now }
    ensures { (roots : List (Phase × Node)) → AreMarked graph.now roots marks.old.items
        → AreMarked graph.now (roots ++ root.now ∷ []) marks.new.items }
{
    match graph.place(root.1) {
        Some(place) => raise(marks, place, root.0),
        None => {}
    }
}

// Gives the place the phase, if it has a lower one.
fn raise(marks: &mut Vec<Phase>, place: usize, phase: Phase)
    requires { place < length marks.old.items }
    ensures { IsRaised place phase marks.old.items marks.new.items }
{
    if marks[place] < phase {
        marks[place] = phase;
    }
}

// The phase at a place, and public where there is no place.
fn phase_at(phases: &[Phase], place: Option<usize>) -> Phase
    requires { IfSome place (λ p. p < length phases.now) }
    ensures { MatchOption place (result ≡ Phase.Public) (λ p. slice_get phases.now p ≡ Some result) }
{
    match place {
        Some(place) => phases[place],
        None => Phase::Public,
    }
}

fn higher(one: Phase, other: Phase) -> Phase
    ensures { IsHigher one other result }
{
    if one < other { other } else { one }
}
