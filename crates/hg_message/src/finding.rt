//! How an offer is found: the first common node that isn't held, and which changesets and markers are offered, as
//! places. Marks tell what its scope names.
ghost use Rattle.std.specs.Prelude.{◌≡◌, ◌↔◌, ℕ, List, Contains, IfOk, MatchOption, length};
ghost use Rattle.hg_changeset.specs.declared.node.Node.{Node};
ghost use Rattle.hg_obsstore.specs.Markers.{ArePlaces};
ghost use Rattle.hg_phases.specs.State.{changesets};
ghost use Rattle.hg_replica.specs.State.{IsValid};
ghost use Rattle.hg_replica.specs.Content.{content_of};
ghost use Rattle.hg_replica.specs.Evolution.{IsMarker};
ghost use Rattle.hg_message.specs.Offer.{AreHeld, IsFirstUnknown, IsNamed, IsNamedMarker, IsOutgoing};
ghost use Rattle.hg_view.specs.Pins.{IsServedUnder};
ghost use Rattle.hg_message.specs.Outgoing.{ArePlacesOf, AreMarksOf, AreServedHeads};
ghost use Rattle.hg_message.specs.declared.scope.Scope.{Scope};
ghost use Rattle.hg_message.specs.declared.scope.Scope.TheVariants.{Served as served_scope};

use crate::marks::marked_but;
use crate::scope::Scope;
use hg_changeset::Node;
use hg_relevant::relevant;
use hg_replica::Replica;
use hg_view::{Kept, places_above};
use std::alloc::{AllocError, Global};

/// The first of the nodes that isn't held.
pub(crate) fn first_unknown(replica: &Replica, nodes: &[Node]) -> Option<Node>
    ensures { MatchOption result (AreHeld (content_of replica.now) nodes.now)
        (IsFirstUnknown (content_of replica.now) nodes.now) }
{
    let graph = replica.graph();
    for node in nodes {
        if !graph.contains(*node) {
            return Some(*node);
        }
    }
    None
}

/// The places of the marked changesets that aren't common, ascending.
pub(crate) fn outgoing_places(
    alloc: Global,
    replica: &Replica,
    named: &[bool],
    common: &[Node],
) -> Result<Vec<usize>, AllocError>
    requires len { length named.now ≡ length (changesets replica.now.history) }
    requires common { AreHeld (content_of replica.now) common.now }
    ensures places { IfOk result (λ found. (pins : List Node) (scope : Scope)
        → AreMarksOf replica.now (IsNamed (content_of replica.now) pins scope) named.now
        → ArePlacesOf (IsOutgoing (content_of replica.now) (IsNamed (content_of replica.now) pins scope) common.now)
        (changesets replica.now.history) found.items) }
    ensures valid { IsValid replica.now }
{
    let graph = replica.graph();
    let known = graph.ancestor_marks(common)?;
    marked_but(alloc, named, &known)
}

/// The places of the markers that the scope names, ascending. The marks tell which changesets it names.
pub(crate) fn named_marker_places(
    alloc: Global,
    replica: &Replica,
    named: &[bool],
    scope: Scope,
) -> Result<Vec<usize>, AllocError>
    requires { length named.now ≡ length (changesets replica.now.history) }
    ensures { IfOk result (λ found. (pins : List Node)
        → AreMarksOf replica.now (IsNamed (content_of replica.now) pins scope) named.now
        → ArePlaces (IsNamedMarker (content_of replica.now) pins scope) replica.now.markers found.items) }
{
    match scope {
        Scope::Served => relevant_places(alloc, replica, named),
        Scope::Whole => marker_places(alloc, replica),
    }
}

// The places of the markers that are relevant to what is served, ascending, by a look-up of each changeset that is.
fn relevant_places(
    alloc: Global,
    replica: &Replica,
    served: &[bool],
) -> Result<Vec<usize>, AllocError>
    requires { length served.now ≡ length (changesets replica.now.history) }
    ensures { IfOk result (λ found. (pins : List Node)
        → AreMarksOf replica.now (IsNamed (content_of replica.now) pins served_scope) served.now
        → ArePlaces (IsNamedMarker (content_of replica.now) pins served_scope) replica.now.markers found.items) }
{
    let nodes = replica.graph().marked(served)?;
    relevant(alloc, replica.store(), &nodes)
}

/// The same, where that is told by what is kept. It costs what markers name: they are relevant to no changeset of which
/// none tells.
pub(crate) fn served_marker_places(alloc: Global, kept: &Kept) -> Result<Vec<usize>, AllocError>
    ensures { IfOk result (λ found. ArePlaces
        (IsNamedMarker (content_of kept.now.replica) kept.now.pins served_scope) kept.now.replica.markers found.items) }
{
    let store = kept.replica().store();
    let nodes = served_among(alloc, kept, store.named())?;
    relevant(alloc, store, &nodes)
}

// Those of the nodes whose changeset is served.
fn served_among(alloc: Global, kept: &Kept, nodes: &[Node]) -> Result<Vec<Node>, AllocError>
    ensures { IfOk result (λ found. (n : Node) → Contains found.items n
        ↔ (Contains nodes.now n × IsServedUnder (content_of kept.now.replica) kept.now.pins n)) }
{
    let mut found = Vec::new(alloc);
    for node in nodes {
        if kept.is_served(*node) {
            found.push(*node)?;
        }
    }
    Ok(found)
}

/// The places of what is served and isn't common, ascending, where the heads of what is served stand at these places.
/// It costs what is found, the heads and the common nodes, and what is common between them.
pub(crate) fn served_outgoing(
    alloc: Global,
    kept: &Kept,
    heads: &[usize],
    common: &[Node],
) -> Result<Vec<usize>, AllocError>
    requires heads { AreServedHeads kept.now heads.now }
    requires common { AreHeld (content_of kept.now.replica) common.now }
    ensures { IfOk result (λ found. ArePlacesOf (IsOutgoing (content_of kept.now.replica)
        (IsServedUnder (content_of kept.now.replica) kept.now.pins) common.now)
        (changesets kept.now.replica.history) found.items) }
{
    let graph = kept.replica().graph();
    let known = graph.places_of(common)?;
    places_above(alloc, graph, heads, &known)
}

// The places of all markers, ascending.
fn marker_places(alloc: Global, replica: &Replica) -> Result<Vec<usize>, AllocError>
    ensures { IfOk result
        (λ found. ArePlaces (IsMarker (content_of replica.now)) replica.now.markers found.items) }
{
    let markers = replica.store().markers();
    let mut found = Vec::with_capacity(alloc, markers.len())?;
    for place in 0..markers.len() {
        found.push(place)?;
    }
    Ok(found)
}
