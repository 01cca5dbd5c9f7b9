//! Samples, and the heads of what is common.
//!
//! Both pick from the placed nodes in their order: one sweep marks what has a child that is decided as it is, and a
//! head is what isn't marked.
ghost use Rattle.std.specs.Prelude.{◌≡◌, ◌↔◌, ℕ, ◌≤◌, ◌<◌, ◌++◌, Some, length, take, vec_len, filter, All, OnOk, IfOk};
ghost use Rattle.std.specs.Prelude.{IsTrue};
ghost use Rattle.hg_discovery.specs.declared.finding.Finding.TheVariants.{Undecided, Common};
ghost use Rattle.hg_discovery.specs.Under.{IsInOrder, IsOneOf};
ghost use Rattle.hg_discovery.specs.Search.{IsAscending, IsClosed, ArePlacedNodes, IsSample, IsHead, Lists};
ghost use Rattle.hg_discovery.specs.Spread.{AreCovered, MarksPlace};
ghost use Rattle.hg_discovery.specs.Picking.{is_picked};

use crate::finding::{Finding, PlacedNode};
use hg_graph::ParentPlaces;
use std::alloc::{AllocError, Global};

// How many changesets a round asks about.
const SAMPLE: usize = 200;

// The first of the undecided changesets: the heads among them, and then the others.
pub(crate) fn sample(
    alloc: Global,
    parents: &[ParentPlaces],
    placed_nodes: &[PlacedNode],
    decided: &[Finding],
) -> Result<Vec<PlacedNode>, AllocError>
    requires len { length decided.now ≡ length parents.now }
    requires in_order { IsInOrder parents.now }
    requires closed { IsClosed parents.now decided.now }
    requires placed_nodes { ArePlacedNodes decided.now placed_nodes.now }
    requires ascending { IsAscending placed_nodes.now }
    ensures { IfOk result
        (λ xs. IsSample
        (record { parents = parents.now; placed_nodes = placed_nodes.now; decided = decided.now; asked = xs.items })
        xs.items) }
{
    let covered = covered(alloc, parents, decided, Finding::Undecided)?;
    let mut found = Vec::new(alloc);
    pick(
        placed_nodes,
        decided,
        &covered,
        Finding::Undecided,
        false,
        SAMPLE,
        &mut found,
    )?;
    pick(
        placed_nodes,
        decided,
        &covered,
        Finding::Undecided,
        true,
        SAMPLE,
        &mut found,
    )?;
    Ok(found)
}

// The heads of what is common, ascending.
pub(crate) fn common_heads(
    alloc: Global,
    parents: &[ParentPlaces],
    placed_nodes: &[PlacedNode],
    decided: &[Finding],
) -> Result<Vec<PlacedNode>, AllocError>
    requires len { length decided.now ≡ length parents.now }
    requires in_order { IsInOrder parents.now }
    requires closed { IsClosed parents.now decided.now }
    requires placed_nodes { ArePlacedNodes decided.now placed_nodes.now }
    requires ascending { IsAscending placed_nodes.now }
    ensures { IfOk result
        (λ xs. Lists (IsHead
        (record { parents = parents.now; placed_nodes = placed_nodes.now; decided = decided.now; asked = xs.items })
        Common) xs.items) }
{
    let covered = covered(alloc, parents, decided, Finding::Common)?;
    let mut found = Vec::new(alloc);
    pick(
        placed_nodes,
        decided,
        &covered,
        Finding::Common,
        false,
        placed_nodes.len(),
        &mut found,
    )?;
    Ok(found)
}

// Adds the placed nodes that are decided so and covered or not, up to a limit.
fn pick(
    placed_nodes: &[PlacedNode],
    decided: &[Finding],
    marks: &[bool],
    so: Finding,
    covered: bool,
    limit: usize,
    found: &mut Vec<PlacedNode>,
) -> Result<(), AllocError>
    requires len { length marks.now ≡ length decided.now }
    requires within { All (λ x. x.place < length decided.now) placed_nodes.now }
    requires limit { vec_len found.old ≤ limit }
    ensures { OnOk result
        (found.new.items ≡ take limit (found.old.items ++ filter
        (is_picked decided.now marks.now so covered) placed_nodes.now)) }
{
    for placed_node in placed_nodes {
        if found.len() < limit && is_picked(*placed_node, decided, marks, so, covered) {
            found.push(*placed_node)?;
        }
    }
    Ok(())
}

// Whether the placed node is decided so, and marked or not.
fn is_picked(
    placed_node: PlacedNode,
    decided: &[Finding],
    marks: &[bool],
    so: Finding,
    covered: bool,
) -> bool
    requires len { length marks.now ≡ length decided.now }
    requires within { placed_node.place < length decided.now }
    ensures { IsTrue result ↔ IsTrue (is_picked decided.now marks.now so covered placed_node) }
{
    decided[placed_node.place] == so && marks[placed_node.place] == covered
}

// Marks the changesets that have a child that is decided so.
pub(crate) fn covered(
    alloc: Global,
    parents: &[ParentPlaces],
    decided: &[Finding],
    so: Finding,
) -> Result<Vec<bool>, AllocError>
    requires len { length decided.now ≡ length parents.now }
    requires in_order { IsInOrder parents.now }
    ensures { IfOk result (λ marks. AreCovered parents.now decided.now so marks.items) }
{
    let mut marks = vec![in alloc; false; decided.len()]?;
    for place in 0..parents.len() {
        if decided[place] == so {
            mark_parents(parents[place], &mut marks);
        }
    }
    Ok(marks)
}

// Marks the parents.
fn mark_parents(parents: ParentPlaces, marks: &mut [bool])
    ensures { MarksPlace (IsOneOf parents) marks.old marks.new }
{
    mark(parents.first, marks);
    mark(parents.second, marks);
}

// Marks a place, where there is one.
fn mark(place: Option<usize>, marks: &mut [bool])
    ensures { MarksPlace (λ k. place ≡ Some k) marks.old marks.new }
{
    if let Some(place) = place {
        if place < marks.len() {
            marks[place] = true;
        }
    }
}
