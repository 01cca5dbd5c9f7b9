//! What an operation reads of the replica.
ghost use Rattle.std.specs.Prelude.{◌≡◌, ◌↔◌, Contains, IfOk, OnErr, IsTrue};
ghost use Rattle.hg_phases.specs.State.{Holds};
ghost use Rattle.hg_replica.specs.Content.{content_of};
ghost use Rattle.hg_replica.specs.Evolution.{IsObsolete};
ghost use Rattle.hg_view.specs.Pins.{IsHiddenUnder};
ghost use Rattle.hg_rewrite.specs.Reading.{phase_in, parents_in, highest};
ghost use Rattle.hg_phases.specs.declared.phase.Phase.TheVariants.{Public as public_phase};

use hg_changeset::Node;
use hg_phases::Phase;
use hg_replica::Replica;
use hg_view::{Kept, Pins, is_visible};
use std::alloc::{AllocError, Global};

// Whether it is held.
#[inline(always)]
pub(crate) fn holds(replica: &Replica, node: Node) -> bool
    ensures { IsTrue result ↔ Holds replica.now.history node }
{
    replica.graph().contains(node)
}

// Its phase; that of what isn't held is public. The replica always answers, so no error is passed over.
#[inline(always)]
pub(crate) fn phase_in(replica: &Replica, node: Node) -> Phase
    ensures { result ≡ phase_in replica.now.history node }
{
    match replica.phase_of(node) {
        Ok(Some(phase)) => phase,
        Ok(None) => Phase::Public,
        Err(_) => Phase::Public,
    }
}

// Whether it is public; what isn't held is.
pub(crate) fn is_public(replica: &Replica, node: Node) -> bool
    ensures { IsTrue result ↔ (phase_in replica.now.history node ≡ public_phase) }
{
    phase_in(replica, node) == Phase::Public
}

// Its parents, in normal form; what isn't held has none.
pub(crate) fn parents_in(replica: &Replica, node: Node) -> (Node, Node)
    ensures { result ≡ parents_in replica.now.history node }
{
    match replica.graph().changeset(node) {
        Some(changeset) => changeset.parents(),
        None => (Node::NULL, Node::NULL),
    }
}

pub(crate) fn highest(first: Phase, second: Phase) -> Phase
    ensures { result ≡ highest first second }
{
    if first < second { second } else { first }
}

// Whether it stands among the nodes.
pub(crate) fn contains(nodes: &[Node], node: Node) -> bool
    ensures { IsTrue result ↔ Contains nodes.now node }
{
    nodes.contains(&node)
}

// Whether it is hidden under the pins. Memory is wanted only for one that is obsolete.
pub(crate) fn is_hidden(
    alloc: Global,
    replica: &Replica,
    pins: &Pins,
    node: Node,
) -> Result<bool, AllocError>
    ensures answer { IfOk result (λ answer. IsTrue answer
        ↔ IsHiddenUnder (content_of replica.now) pins.now node) }
    ensures memory { OnErr result (IsObsolete (content_of replica.now) node) }
{
    let graph = replica.graph();
    if !graph.contains(node) {
        return Ok(false);
    }
    let is_visible = is_visible(alloc, replica, pins, node)?;
    Ok(!is_visible)
}

// Whether it is hidden under the pins that are kept, by what is kept: it takes no memory. What is hidden is extinct, so
// that is asked first.
#[inline(always)]
pub(crate) fn is_hidden_in(kept: &Kept, node: Node) -> bool
    ensures { IsTrue result ↔ IsHiddenUnder (content_of kept.now.replica) kept.now.pins node }
{
    let replica = kept.replica();
    if !kept.instabilities().extinct().contains(&node) {
        return false;
    }
    holds(replica, node) && !kept.is_visible(node)
}
