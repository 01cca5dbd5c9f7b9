//! A change that is one plain amend: near forks it turns two ids and no others, however far the markers lead.
//!
//! What became different changesets is the same after it as before, and in what came of that the new changeset stands
//! in the place of the old one. So a chain of amends above a fork isn't asked again with each of them.
ghost use Rattle.std.specs.Prelude.{◌≡◌, ◌≢◌, ◌↔◌, ◌⊎◌, [], ◌∷◌, Contains, IfOk, IfSome, IsTrue};
ghost use Rattle.hg_changeset.specs.declared.node.Node.{Node};
ghost use Rattle.hg_replica.specs.Change.{ChangeValue};
ghost use Rattle.hg_replica.specs.Content.{content_of};
ghost use Rattle.hg_replica.specs.Evolution.{IsCurrent};
ghost use Rattle.hg_replica.specs.State.{ReplicaState, IsValid};
ghost use Rattle.hg_instab.specs.Amend.{IsOnlyAdded, IsOnlyFresh, IsRewrite, IsNamedOnce, IsPlain, IsPlainAmend};
ghost use Rattle.hg_instab.specs.Changed.{IsChangedTo};
ghost use Rattle.hg_instab.specs.Instabilities.{AreInstabilities};
ghost use Rattle.hg_instab.specs.Turns.{IsThen, IsTurn, AreDivergenceTurns, IsDivergenceTold};
ghost use Rattle.hg_instab.specs.Walk.{IsFork};

use crate::among::{has, one};
use crate::divergence::is_fork;
use crate::instabilities::Instabilities;
use crate::query::{is_current, is_obsolete};
use crate::turn::Turn;
use hg_changeset::Node;
use hg_marker::Marker;
use hg_obsstore::Store;
use hg_replica::{Change, Replica};
use std::alloc::{AllocError, Global};
use std::collections::BTreeSet;

// The changeset that was amended, and the one that it became.
#[derive(Clone, Copy)]
pub(crate) struct Amend {
    from: Node,
    to: Node,
}

// The amend that the change is, where it is a plain one near forks.
pub(crate) fn amend_of(replica: &Replica, change: &Change, near: &BTreeSet<Node>) -> Option<Amend>
    ensures { IfSome result (IsPlainAmend replica.now change.now near.now.keys) }
{
    match rewrite_of(replica.store(), change) {
        Some(amend) => if_plain(replica, near, amend),
        None => None,
    }
}

// The rewriting of one changeset to one that it added, where the change is no more than that.
fn rewrite_of(store: &Store, change: &Change) -> Option<Amend>
    ensures { IfSome result (IsRewrite store.now change.now) }
{
    match only_added(change) {
        Some(to) => rewrite_to(store, change, to),
        None => None,
    }
}

// The changeset that was added, where it is the only one and none went down.
fn only_added(change: &Change) -> Option<Node>
    ensures { IfSome result (IsOnlyAdded change.now) }
{
    if !change.lowered.is_empty() {
        return None;
    }
    only(&change.added)
}

// The node, where it is the only one.
fn only(nodes: &[Node]) -> Option<Node>
    ensures { IfSome result (λ node. nodes.now ≡ node ∷ []) }
{
    if nodes.len() != 1 {
        return None;
    }
    Some(nodes[0])
}

// The rewriting to what was added, where the only new marker says it.
fn rewrite_to(store: &Store, change: &Change, to: Node) -> Option<Amend>
    ensures { IfSome result (λ amend. IsOnlyAdded change.now to → IsRewrite store.now change.now amend) }
{
    match only_fresh(store, change) {
        Some(marker) => rewrite_by(marker, to),
        None => None,
    }
}

// The new marker, where it is the only one.
pub(crate) fn only_fresh<'a>(store: &'a Store, change: &Change) -> Option<&'a Marker>
    ensures { IfSome result (λ marker. IsOnlyFresh store.now change.now marker.now) }
{
    if change.markers.len() != 1 {
        return None;
    }
    store.get(change.markers[0])
}

// The rewriting that a marker says, where it is one to this node alone.
fn rewrite_by(marker: &Marker, to: Node) -> Option<Amend>
    ensures { IfSome result (λ amend. (marker.now.predecessor ≡ amend.from) × (to ≡ amend.to)
        × (marker.now.successors ≡ to ∷ [])) }
{
    if !is_only(marker.successors(), to) {
        return None;
    }
    Some(Amend {
        from: marker.predecessor(),
        to,
    })
}

fn is_only(nodes: &[Node], node: Node) -> bool
    ensures { IsTrue result → nodes.now ≡ node ∷ [] }
{
    match only(nodes) {
        Some(first) => first == node,
        None => false,
    }
}

// The amend, where it is a plain one.
fn if_plain(replica: &Replica, near: &BTreeSet<Node>, amend: Amend) -> Option<Amend>
    ensures { IfSome result (λ same. (same ≡ amend) × IsPlain replica.now near.now.keys amend) }
{
    if !is_plain(replica, near, amend) {
        return None;
    }
    Some(amend)
}

// Whether what was amended isn't public and was near forks, and no other marker rewrote it or names what it became.
fn is_plain(replica: &Replica, near: &BTreeSet<Node>, amend: Amend) -> bool
    ensures { IsTrue result → IsPlain replica.now near.now.keys amend }
{
    if has(near, amend.from) {
        return is_obsolete(replica, amend.from) && is_alone(replica.store(), amend);
    }
    false
}

// Whether no two markers rewrote the one, and one names the other.
fn is_alone(store: &Store, amend: Amend) -> bool
    ensures { IsTrue result → (¬ (IsFork store.now amend.from)) × IsNamedOnce store.now amend.to }
{
    !is_fork(store, amend.from) && is_named_once(store, amend.to)
}

// Whether one marker names it, as a successor.
fn is_named_once(store: &Store, node: Node) -> bool
    ensures { IsTrue result → IsNamedOnce store.now node }
{
    let mentions = store.mentions(node);
    mentions.as_predecessor().is_empty() && mentions.as_successor().len() == 1
}

// What the amend turns: of the content-divergent changesets, and of the ids near forks.
pub(crate) fn turns_by_amend(
    alloc: Global,
    replica: &Replica,
    sets: &Instabilities,
    amend: Amend,
) -> Result<(Turn, Turn), AllocError>
    ensures turns { IfOk result (AreDivergenceTurns sets.now) }
    ensures told { IfOk result (λ turns. (s : ReplicaState) (change : ChangeValue) → IsValid replica.now
        → IsChangedTo s change replica.now → IsPlainAmend replica.now change sets.now.near_forks amend
        → AreInstabilities (content_of s) sets.now → IsDivergenceTold (content_of replica.now) sets.now turns) }
{
    let content_divergent = content_turn(alloc, replica, sets.content_divergent(), amend)?;
    let near_forks = near_turn(alloc, sets.near_forks(), amend)?;
    Ok((content_divergent, near_forks))
}

// The content-divergent changesets: the new one takes the place of the old one, if it is current.
fn content_turn(
    alloc: Global,
    replica: &Replica,
    set: &BTreeSet<Node>,
    amend: Amend,
) -> Result<Turn, AllocError>
    ensures turn { IfOk result (IsTurn set.now.keys) }
    ensures told { IfOk result (λ turn. (n : Node) → IsThen set.now.keys turn n
        ↔ (((n ≡ amend.to) × (Contains set.now.keys amend.from × IsCurrent (content_of replica.now) amend.to))
        ⊎ (Contains set.now.keys n × ((n ≢ amend.from) × (n ≢ amend.to))))) }
{
    let now = heirs(alloc, replica, set, amend)?;
    Turn::to(alloc, set, &[amend.from, amend.to], now)
}

// The new changeset, where the old one was in the set and the new one is current.
fn heirs(
    alloc: Global,
    replica: &Replica,
    set: &BTreeSet<Node>,
    amend: Amend,
) -> Result<Vec<Node>, AllocError>
    ensures { IfOk result (λ heirs. (n : Node) → Contains heirs.items n ↔ ((n ≡ amend.to)
        × (Contains set.now.keys amend.from × IsCurrent (content_of replica.now) amend.to))) }
{
    if has_heir(replica, set, amend) {
        one(alloc, amend.to)
    } else {
        Ok(Vec::new(alloc))
    }
}

fn has_heir(replica: &Replica, set: &BTreeSet<Node>, amend: Amend) -> bool
    ensures { IsTrue result ↔ (Contains set.now.keys amend.from × IsCurrent (content_of replica.now) amend.to) }
{
    has(set, amend.from) && is_current(replica, amend.to)
}

// The ids near forks: the new one is among them.
fn near_turn(alloc: Global, set: &BTreeSet<Node>, amend: Amend) -> Result<Turn, AllocError>
    ensures turn { IfOk result (IsTurn set.now.keys) }
    ensures told { IfOk result (λ turn. (n : Node) → IsThen set.now.keys turn n
        ↔ (Contains set.now.keys n ⊎ (n ≡ amend.to))) }
{
    Turn::growing(alloc, set, &[amend.to])
}
