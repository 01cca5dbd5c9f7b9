//! The heads that bounds tell of, by one sweep over the places, or by the heads that are kept.
//!
//! What a scope names is named with all its ancestors, and no parent has a higher phase than its child. So what stands
//! on the way between two named changesets of one phase is named and has that phase, and a named changeset is a head of
//! those with its phase exactly where no named child has its phase: where nothing covers it.
ghost use Rattle.std.specs.Prelude.{◌≡◌, ◌↔◌, ◌++◌, ◌<◌, List, Some, Contains, IfOk, IsTrue, OnOk, length};
ghost use Rattle.std.specs.List.Sorted.{IsStrictlySortedBy};
ghost use Rattle.hg_changeset.specs.declared.node.Node.{Node};
ghost use Rattle.hg_changeset.specs.Node.{node_cmp};
ghost use Rattle.hg_graph.specs.Marks.{IsMarked, MarksAlso};
ghost use Rattle.hg_phases.specs.declared.phase.Phase.TheVariants as phase;
ghost use Rattle.hg_phases.specs.State.{changesets};
ghost use Rattle.hg_replica.specs.State.{IsValid};
ghost use Rattle.hg_replica.specs.Content.{content_of};
ghost use Rattle.hg_view.specs.Pins.{IsServedUnder};
ghost use Rattle.hg_message.specs.Covered.{HasPhaseAt, AreAlike, IsParentAlike, IsCovered, AreCovered};
ghost use Rattle.hg_message.specs.Covered.{IsAtOneIn};
ghost use Rattle.hg_message.specs.Offer.{AreOfferedBounds, IsNamed, bounds_in};
ghost use Rattle.hg_message.specs.Outgoing.{AreMarksOf, AreServedHeads};
ghost use Rattle.hg_message.specs.declared.scope.Scope.{Scope};

use crate::marks::marked_but;
use hg_changeset::Node;
use hg_phases::Phase;
use hg_replica::Replica;
use hg_view::Kept;
use std::alloc::{AllocError, Global};
use std::collections::BTreeSet;

/// Public bounds for the heads of what is marked and public, and then draft ones.
pub(crate) fn head_bounds(
    alloc: Global,
    replica: &Replica,
    named: &[bool],
) -> Result<Vec<(Node, Phase)>, AllocError>
    requires { length named.now ≡ length (changesets replica.now.history) }
    ensures { IfOk result (λ bounds. (pins : List Node) (scope : Scope)
        → AreMarksOf replica.now (IsNamed (content_of replica.now) pins scope) named.now
        → AreOfferedBounds (content_of replica.now) (IsNamed (content_of replica.now) pins scope) bounds.items) }
{
    let covered = covered(alloc, replica, named)?;
    let heads = marked_but(alloc, named, &covered)?;
    let public = nodes_in(alloc, replica, &heads, Phase::Public)?;
    let draft = nodes_in(alloc, replica, &heads, Phase::Draft)?;
    bounds_on(alloc, &public, &draft)
}

/// Public bounds for the heads of what is public, and then draft ones for those of what is served and draft, where the
/// heads of what is served stand at these places. It costs the heads.
pub(crate) fn served_bounds(
    alloc: Global,
    kept: &Kept,
    heads: &[usize],
) -> Result<Vec<(Node, Phase)>, AllocError>
    requires { AreServedHeads kept.now heads.now }
    ensures { IfOk result (λ bounds. AreOfferedBounds (content_of kept.now.replica)
        (IsServedUnder (content_of kept.now.replica) kept.now.pins) bounds.items) }
{
    let replica = kept.replica();
    let public = nodes_in(alloc, replica, kept.public_heads(), Phase::Public)?;
    let draft = nodes_in(alloc, replica, heads, Phase::Draft)?;
    bounds_on(alloc, &public, &draft)
}

// Public bounds on the one nodes, and then draft ones on the others.
fn bounds_on(
    alloc: Global,
    public: &[Node],
    draft: &[Node],
) -> Result<Vec<(Node, Phase)>, AllocError>
    ensures { IfOk result
        (λ bounds. bounds.items ≡ bounds_in phase.Public public.now ++ bounds_in phase.Draft draft.now) }
{
    let mut bounds = Vec::with_capacity(alloc, public.len().saturating_add(draft.len()))?;
    add_bounds(&mut bounds, public, Phase::Public)?;
    add_bounds(&mut bounds, draft, Phase::Draft)?;
    Ok(bounds)
}

// The changesets at these places that have this phase, ascending.
fn nodes_in(
    alloc: Global,
    replica: &Replica,
    places: &[usize],
    phase: Phase,
) -> Result<Vec<Node>, AllocError>
    ensures exact { IfOk result
        (λ nodes. (n : Node) → Contains nodes.items n ↔ IsAtOneIn replica.now.history places.now phase n) }
    ensures ascending { IfOk result (λ nodes. IsStrictlySortedBy node_cmp nodes.items) }
{
    let nodes = set_in(alloc, replica, places, phase)?;
    listed(alloc, nodes)
}

// The same, as a set.
fn set_in(
    alloc: Global,
    replica: &Replica,
    places: &[usize],
    phase: Phase,
) -> Result<BTreeSet<Node>, AllocError>
    ensures { IfOk result
        (λ nodes. (n : Node) → Contains nodes.keys n ↔ IsAtOneIn replica.now.history places.now phase n) }
{
    let graph = replica.graph();
    let mut found = BTreeSet::new(alloc);
    for place in places {
        if is_in(replica, *place, phase) {
            if let Some(node) = graph.node_at(*place) {
                found.insert(node)?;
            }
        }
    }
    Ok(found)
}

// A mark for each place: whether a named child of the changeset there has the same phase.
fn covered(alloc: Global, replica: &Replica, named: &[bool]) -> Result<Vec<bool>, AllocError>
    requires { length named.now ≡ length (changesets replica.now.history) }
    ensures covered { IfOk result (λ covered. AreCovered replica.now.history named.now covered.items) }
    ensures valid { IsValid replica.now }
{
    let mut covered = vec![in alloc; false; replica.graph().len()]?;
    cover(replica, named, &mut covered);
    Ok(covered)
}

// Marks those parents of the named changesets that have the phase of their child.
fn cover(replica: &Replica, named: &[bool], covered: &mut [bool])
    requires { length named.now ≡ length (changesets replica.now.history) }
    ensures { MarksAlso 0 (IsCovered replica.now.history named.now) covered.old covered.new }
{
    for place in 0..named.len() {
        if named[place] {
            cover_parents(replica, place, covered);
        }
    }
}

// Marks those parents of the changeset at a place that have its phase.
fn cover_parents(replica: &Replica, place: usize, covered: &mut [bool])
    requires { place < length (changesets replica.now.history) }
    ensures { MarksAlso 0 (IsParentAlike replica.now.history place) covered.old covered.new }
{
    let parents = replica.graph().parent_places(place);
    cover_parent(replica, place, parents.first, covered);
    cover_parent(replica, place, parents.second, covered);
}

// Marks the place of a parent, where there is one, if the phase there is that of the changeset at the other place.
fn cover_parent(replica: &Replica, place: usize, parent: Option<usize>, covered: &mut [bool])
    ensures { MarksAlso 0 (λ k. (parent ≡ Some k) × AreAlike replica.now.history place k) covered.old covered.new }
{
    if let Some(parent) = parent {
        if parent < covered.len() && are_alike(replica, place, parent) {
            covered[parent] = true;
        }
    }
}

// Whether the changesets at two places have one phase.
fn are_alike(replica: &Replica, place: usize, other: usize) -> bool
    ensures { IsTrue result ↔ AreAlike replica.now.history place other }
{
    match replica.phase_at(place) {
        Some(phase) => is_in(replica, other, phase),
        None => false,
    }
}

// Whether the changeset at a place has this phase.
fn is_in(replica: &Replica, place: usize, phase: Phase) -> bool
    ensures { IsTrue result ↔ HasPhaseAt replica.now.history phase place }
{
    match replica.phase_at(place) {
        Some(its) => its == phase,
        None => false,
    }
}

// The nodes of a set, ascending.
fn listed(alloc: Global, nodes: BTreeSet<Node>) -> Result<Vec<Node>, AllocError>
    ensures all { IfOk result (λ list. list.items ≡ nodes.keys) }
    ensures ascending { IfOk result (λ list. IsStrictlySortedBy node_cmp list.items) }
{
    nodes.into_iter().collect(alloc)
}

// Appends a bound in this phase on each of the nodes.
fn add_bounds(
    bounds: &mut Vec<(Node, Phase)>,
    nodes: &[Node],
    phase: Phase,
) -> Result<(), AllocError>
    ensures { OnOk result (bounds.new.items ≡ bounds.old.items ++ bounds_in phase nodes.now) }
{
    for node in nodes {
        bounds.push((*node, phase))?;
    }
    Ok(())
}
