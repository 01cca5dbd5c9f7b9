//! The places that have no child among all changesets, or among the public ones, and how they move.
//!
//! What is added is a head, and so is, among the public ones, what becomes public: none of its children was public
//! before, since what has a public child is public. Their parents are heads no longer. Nothing else changes: these and
//! their parents are looked at, and no other place. It takes no memory.
ghost use Rattle.std.specs.Prelude.{◌≡◌, ◌<◌, ◌≤◌, ◌↔◌, Some, IfSome, IsTrue, length};
ghost use Rattle.hg_graph.specs.Places.{IsAt, IsPlaceOfOne};
ghost use Rattle.hg_phases.specs.declared.phase.Phase.{Phase};
ghost use Rattle.hg_phases.specs.State.{changesets};
ghost use Rattle.hg_view.specs.Flags.{AreRecomputed, AreTakenOut, AreUpdated, IsParentOfOne, IsTouched};
ghost use Rattle.hg_view.specs.HeadPlaces.{IsAmong, IsPublicAt};

use hg_changeset::Node;
use hg_phases::{Phase, PlaceSet};
use hg_replica::Replica;

/// Which changesets are looked at.
#[derive(Clone, Copy)]
pub(crate) enum Among {
    /// All of them.
    Everything,
    /// The public ones.
    Published,
}

/// Puts the changesets from a place on, and these nodes, among the heads, as far as they are looked at. Then takes
/// their parents out.
#[inline(always)]
pub(crate) fn update_heads(
    replica: &Replica,
    among: Among,
    heads: &mut PlaceSet,
    first: usize,
    nodes: &[Node],
)
    requires { length heads.old ≡ length (changesets replica.now.history) }
    ensures { AreUpdated (changesets replica.now.history)
        (IsTouched (changesets replica.now.history) first nodes.now) (IsAmong among replica.now.history) heads.old
        heads.new }
{
    recompute_from(replica, among, heads, first);
    recompute_nodes(replica, among, heads, nodes);
    take_out_parents_from(replica, among, heads, first);
    take_out_parents_of_nodes(replica, among, heads, nodes);
}

// Recomputes the flags of the places from one on.
fn recompute_from(replica: &Replica, among: Among, heads: &mut PlaceSet, first: usize)
    requires { length heads.old ≡ length (changesets replica.now.history) }
    ensures { AreRecomputed (λ k. first ≤ k) (IsAmong among replica.now.history) heads.old heads.new }
{
    for place in first..replica.graph().len() {
        recompute(replica, among, heads, place);
    }
}

// Recomputes the flags of the places of these nodes. Those that aren't held have none.
fn recompute_nodes(replica: &Replica, among: Among, heads: &mut PlaceSet, nodes: &[Node])
    requires { length heads.old ≡ length (changesets replica.now.history) }
    ensures { AreRecomputed (IsPlaceOfOne (changesets replica.now.history) nodes.now)
        (IsAmong among replica.now.history) heads.old heads.new }
{
    for node in nodes {
        recompute_node(replica, among, heads, *node);
    }
}

// Recomputes the flag of the place of a node, if it is held.
fn recompute_node(replica: &Replica, among: Among, heads: &mut PlaceSet, node: Node)
    requires { length heads.old ≡ length (changesets replica.now.history) }
    ensures { AreRecomputed (IsAt (changesets replica.now.history) node) (IsAmong among replica.now.history) heads.old
        heads.new }
{
    match replica.graph().place(node) {
        Some(place) => recompute(replica, among, heads, place),
        None => {}
    }
}

// Puts a place in where the changeset there is looked at, and takes it out otherwise.
fn recompute(replica: &Replica, among: Among, heads: &mut PlaceSet, place: usize)
    requires len { length heads.old ≡ length (changesets replica.now.history) }
    requires within { place < length (changesets replica.now.history) }
    ensures { AreRecomputed (λ k. place ≡ k) (IsAmong among replica.now.history) heads.old heads.new }
{
    if is_among(replica, among, place) {
        heads.insert(place);
    } else {
        heads.remove(place);
    }
}

// Takes out the parents of those changesets from a place on that are looked at.
fn take_out_parents_from(replica: &Replica, among: Among, heads: &mut PlaceSet, first: usize)
    requires { length heads.old ≡ length (changesets replica.now.history) }
    ensures { AreTakenOut (IsParentOfOne (changesets replica.now.history) (λ j. first ≤ j)
        (IsAmong among replica.now.history)) heads.old heads.new }
{
    for place in first..replica.graph().len() {
        take_out_parents(replica, among, heads, place);
    }
}

// Takes out the parents of those of these nodes that are looked at.
fn take_out_parents_of_nodes(replica: &Replica, among: Among, heads: &mut PlaceSet, nodes: &[Node])
    requires { length heads.old ≡ length (changesets replica.now.history) }
    ensures { AreTakenOut (IsParentOfOne (changesets replica.now.history)
        (IsPlaceOfOne (changesets replica.now.history) nodes.now) (IsAmong among replica.now.history)) heads.old
        heads.new }
{
    for node in nodes {
        take_out_parents_of(replica, among, heads, *node);
    }
}

// Takes out the parents of a node, if it is held and looked at.
fn take_out_parents_of(replica: &Replica, among: Among, heads: &mut PlaceSet, node: Node)
    requires { length heads.old ≡ length (changesets replica.now.history) }
    ensures { AreTakenOut (IsParentOfOne (changesets replica.now.history)
        (IsAt (changesets replica.now.history) node) (IsAmong among replica.now.history)) heads.old heads.new }
{
    match replica.graph().place(node) {
        Some(place) => take_out_parents(replica, among, heads, place),
        None => {}
    }
}

// Takes out the parents of the changeset at a place, if it is looked at.
fn take_out_parents(replica: &Replica, among: Among, heads: &mut PlaceSet, place: usize)
    requires len { length heads.old ≡ length (changesets replica.now.history) }
    requires within { place < length (changesets replica.now.history) }
    ensures { AreTakenOut (IsParentOfOne (changesets replica.now.history) (λ j. place ≡ j)
        (IsAmong among replica.now.history)) heads.old heads.new }
{
    if is_among(replica, among, place) {
        let parents = replica.graph().parent_places(place);
        take_out(heads, parents.first);
        take_out(heads, parents.second);
    }
}

// Takes a place out, if there is one.
fn take_out(heads: &mut PlaceSet, place: Option<usize>)
    requires { IfSome place (λ p. p < length heads.old) }
    ensures { AreTakenOut (λ k. place ≡ Some k) heads.old heads.new }
{
    match place {
        Some(place) => heads.remove(place),
        None => {}
    }
}

// Whether the changeset at a place is looked at.
fn is_among(replica: &Replica, among: Among, place: usize) -> bool
    requires { place < length (changesets replica.now.history) }
    ensures { IsTrue result ↔ IsAmong among replica.now.history place }
{
    match among {
        Among::Everything => true,
        Among::Published => is_public_at(replica, place),
    }
}

// Whether the changeset at a place is public.
fn is_public_at(replica: &Replica, place: usize) -> bool
    ensures { IsTrue result ↔ IsPublicAt replica.now.history place }
{
    match replica.phase_at(place) {
        Some(phase) => is_public(phase),
        None => false,
    }
}

fn is_public(phase: Phase) -> bool
    ensures { IsTrue result ↔ (phase ≡ Phase.Public) }
{
    phase == Phase::Public
}
