//! What is asked of one changeset. It takes look-ups, and no memory.
ghost use Rattle.std.specs.Prelude.{◌≡◌, ◌↔◌, IsTrue, MatchOption};
ghost use Rattle.hg_changeset.specs.declared.node.Node.{Node};
ghost use Rattle.hg_graph.specs.Places.{IsAt};
ghost use Rattle.hg_phases.specs.State.{changesets};
ghost use Rattle.hg_history.specs.Content.{IsHeld};
ghost use Rattle.hg_replica.specs.Content.{content_of};
ghost use Rattle.hg_replica.specs.Evolution.{HasPhase, IsMutable, IsPredecessor, IsObsolete, IsCurrent};

use hg_changeset::Node;
use hg_phases::Phase;
use hg_replica::Replica;

/// Whether a changeset is held with this phase.
pub fn has_phase(replica: &Replica, node: Node, phase: Phase) -> bool
    ensures { IsTrue result ↔ HasPhase (content_of replica.now) node phase }
{
    match phase_in(replica, node) {
        Some(its) => its == phase,
        None => false,
    }
}

/// Whether it is obsolete: not public, and the predecessor of some marker. What isn't held is not.
pub fn is_obsolete(replica: &Replica, node: Node) -> bool
    ensures { IsTrue result ↔ IsObsolete (content_of replica.now) node }
{
    match replica.graph().place(node) {
        Some(place) => is_obsolete_at(replica, place),
        None => false,
    }
}

/// Whether the changeset at a place of the graph has this phase. It takes no look-up.
pub fn has_phase_at(replica: &Replica, place: usize, phase: Phase) -> bool
    ensures { (n : Node) → IsAt (changesets replica.now.history) n place
        → (IsTrue result ↔ HasPhase (content_of replica.now) n phase) }
{
    replica.is_valid();
    match replica.phase_at(place) {
        Some(its) => is_same(its, phase),
        None => false,
    }
}

fn is_same(its: Phase, phase: Phase) -> bool
    ensures { IsTrue result ↔ (its ≡ phase) }
{
    its == phase
}

/// Whether the changeset at a place of the graph is obsolete. It takes no look-up where it is public.
#[inline(always)]
pub fn is_obsolete_at(replica: &Replica, place: usize) -> bool
    ensures { (n : Node) → IsAt (changesets replica.now.history) n place
        → (IsTrue result ↔ IsObsolete (content_of replica.now) n) }
{
    match replica.graph().node_at(place) {
        Some(node) => {
            !has_phase_at(replica, place, Phase::Public) && is_predecessor(replica, node)
        }
        None => false,
    }
}

// Whether it is neither public nor obsolete.
pub(crate) fn is_current(replica: &Replica, node: Node) -> bool
    ensures { IsTrue result ↔ IsCurrent (content_of replica.now) node }
{
    is_mutable(replica, node) && !is_predecessor(replica, node)
}

/// Whether it is held and not public.
pub fn is_mutable(replica: &Replica, node: Node) -> bool
    ensures { IsTrue result ↔ IsMutable (content_of replica.now) node }
{
    match phase_in(replica, node) {
        Some(phase) => phase != Phase::Public,
        None => false,
    }
}

// Whether some marker has it as its predecessor.
pub(crate) fn is_predecessor(replica: &Replica, node: Node) -> bool
    ensures { IsTrue result ↔ IsPredecessor (content_of replica.now) node }
{
    let mentions = replica.store().mentions(node);
    !mentions.as_predecessor().is_empty()
}

// Its phase, where it is held. The replica always answers, so no error is passed over.
fn phase_in(replica: &Replica, node: Node) -> Option<Phase>
    ensures { MatchOption result (¬ (IsHeld (content_of replica.now).0 node)) (HasPhase (content_of replica.now) node) }
{
    match replica.phase_of(node) {
        Ok(phase) => phase,
        Err(_) => None,
    }
}
