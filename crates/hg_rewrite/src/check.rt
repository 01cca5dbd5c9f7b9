//! The refusals that are tried before anything is made: one check for each number.
ghost use Rattle.std.specs.Prelude.{◌≡◌, ◌↔◌, ◌⊎◌, ◌∷◌, [], IsTrue, IsErrOf, IfOk, OnErr, MatchOption, map};
ghost use Rattle.hg_changeset.specs.Node.{null_node};
ghost use Rattle.hg_replica.specs.Content.{content_of};
ghost use Rattle.hg_replica.specs.Evolution.{IsObsolete, IsOrphan};
ghost use Rattle.hg_rewrite.specs.Reading.{parents_in};
ghost use Rattle.hg_phases.specs.State.{Holds, Reaches};
ghost use Rattle.hg_replica.specs.State.{IsValid};
ghost use Rattle.hg_rewrite.specs.Parts.{rewritten};
ghost use Rattle.hg_rewrite.specs.Refusals.{NoneApplies, targets, new_parents, unknown, unknown_parent, unknown_nodes};
ghost use Rattle.hg_rewrite.specs.Refusals.{hidden, hidden_parents, public_nodes, obsolete_nodes, not_linear, IsLinear};
ghost use Rattle.hg_rewrite.specs.Refusals.{wrong_count, raise, entry_refused, bad_users, existing};
ghost use Rattle.hg_rewrite.specs.Answer.{Checked, CheckedInMemory};
ghost use Rattle.hg_rewrite.specs.Memory.{WalksForHidden, WalksForDescendants, StandsBeforeParent};

use crate::op::Op;
use crate::query::{contains, holds, is_hidden, is_hidden_in, is_public, parents_in, phase_in};
use crate::refusal::{Cause, Refusal};
use hg_changeset::{Entry, Node, check_entry, check_user, trimmed_user};
use hg_instab::is_obsolete;
use hg_replica::Replica;
use hg_view::{Kept, Pins};
use std::alloc::{AllocError, Global};
use std::slice;

// The fewest changesets that a split makes.
const SPLIT_LEAST: usize = 2;

// The most changesets that a split makes: a marker names no more successors.
const SPLIT_MOST: usize = 255;

// The fewest changesets that a fold takes.
const FOLD_LEAST: usize = 2;

// The nodes that an operation names other than as parents.
fn targets(op: &Op) -> &[Node]
    ensures { result.now ≡ targets op.now }
{
    match op {
        Op::Commit { .. } => &[],
        Op::Amend { node, .. } => slice::from_ref(node),
        Op::Split { node, .. } => slice::from_ref(node),
        Op::Fold { nodes, .. } => nodes,
        Op::Prune { node, .. } => slice::from_ref(node),
        Op::Relocate { node, .. } => slice::from_ref(node),
        Op::Advance { node, .. } => slice::from_ref(node),
    }
}

// The nodes that it rewrites.
pub(crate) fn rewritten(op: &Op) -> &[Node]
    ensures { result.now ≡ rewritten op.now }
{
    match op {
        Op::Advance { .. } => &[],
        _ => targets(op),
    }
}

// The parents that it names.
fn new_parents(op: &Op) -> Option<(Node, Node)>
    ensures { MatchOption result (new_parents op.now ≡ []) (λ parents.
        new_parents op.now ≡ parents.0 ∷ parents.1 ∷ []) }
{
    match op {
        Op::Commit { p, q, .. } => Some((*p, *q)),
        Op::Relocate { p, q, .. } => Some((*p, *q)),
        _ => None,
    }
}

// Refuses a named node that isn't held. Its second clause tells `decide`, which sees no field, that the state is valid.
#[inline(always)]
pub(crate) fn check_known(replica: &Replica, op: &Op) -> Result<(), Refusal>
    ensures answer { Checked (unknown_nodes replica.now op.now) result }
    ensures valid { IsValid replica.now }
{
    check_held(replica, targets(op))?;
    match new_parents(op) {
        Some((p, q)) => check_parents_held(replica, p, q),
        None => Ok(()),
    }
}

#[inline(always)]
fn check_held(replica: &Replica, nodes: &[Node]) -> Result<(), Refusal>
    ensures answer { Checked (map (unknown replica.now.history) nodes.now) result }
    ensures valid { IsValid replica.now }
{
    let graph = replica.graph();
    for node in nodes {
        if !graph.contains(*node) {
            return Err(Refusal::Unknown(*node));
        }
    }
    Ok(())
}

// Refuses a parent that is there and isn't held.
#[inline(always)]
fn check_parents_held(replica: &Replica, p: Node, q: Node) -> Result<(), Refusal>
    ensures { Checked (map (unknown_parent replica.now.history) (p ∷ q ∷ [])) result }
{
    if !p.is_null() && !holds(replica, p) {
        return Err(Refusal::Unknown(p));
    }
    if !q.is_null() && !holds(replica, q) {
        return Err(Refusal::Unknown(q));
    }
    Ok(())
}

// Refuses a new parent that is hidden under the pins.
pub(crate) fn check_visible(
    alloc: Global,
    replica: &Replica,
    pins: &Pins,
    op: &Op,
) -> Result<(), Refusal>
    ensures answer { CheckedInMemory (hidden_parents replica.now pins.now op.now) result }
    ensures memory { IsErrOf result Refusal.NoMemory → WalksForHidden replica.now op.now }
{
    match new_parents(op) {
        Some((p, q)) => check_parents_visible(alloc, replica, pins, p, q),
        None => Ok(()),
    }
}

fn check_parents_visible(
    alloc: Global,
    replica: &Replica,
    pins: &Pins,
    p: Node,
    q: Node,
) -> Result<(), Refusal>
    ensures answer { CheckedInMemory (map (hidden replica.now pins.now) (p ∷ q ∷ [])) result }
    ensures memory { IsErrOf result Refusal.NoMemory → IsObsolete (content_of replica.now) p
        ⊎ IsObsolete (content_of replica.now) q }
{
    if is_hidden(alloc, replica, pins, p)? {
        return Err(Refusal::Hidden(p));
    }
    if is_hidden(alloc, replica, pins, q)? {
        return Err(Refusal::Hidden(q));
    }
    Ok(())
}

// Refuses a new parent that is hidden under the pins that are kept, by what is kept.
pub(crate) fn check_shown(kept: &Kept, op: &Op) -> Result<(), Refusal>
    ensures { Checked (hidden_parents kept.now.replica kept.now.pins op.now) result }
{
    match new_parents(op) {
        Some((p, q)) => check_parents_shown(kept, p, q),
        None => Ok(()),
    }
}

fn check_parents_shown(kept: &Kept, p: Node, q: Node) -> Result<(), Refusal>
    ensures { Checked (map (hidden kept.now.replica kept.now.pins) (p ∷ q ∷ [])) result }
{
    if is_hidden_in(kept, p) {
        return Err(Refusal::Hidden(p));
    }
    if is_hidden_in(kept, q) {
        return Err(Refusal::Hidden(q));
    }
    Ok(())
}

// Refuses a node to be rewritten that is public.
pub(crate) fn check_not_public(replica: &Replica, op: &Op) -> Result<(), Refusal>
    ensures { Checked (public_nodes replica.now op.now) result }
{
    let nodes = rewritten(op);
    for node in nodes {
        if is_public(replica, *node) {
            return Err(Refusal::Public(*node));
        }
    }
    Ok(())
}

// Refuses a node to be rewritten that is obsolete.
pub(crate) fn check_not_obsolete(replica: &Replica, op: &Op) -> Result<(), Refusal>
    ensures { Checked (obsolete_nodes replica.now op.now) result }
{
    let nodes = rewritten(op);
    for node in nodes {
        if is_obsolete(replica, *node) {
            return Err(Refusal::AlreadyObsolete(*node));
        }
    }
    Ok(())
}

// Refuses a fold of what is no line, and a relocation onto the node itself or a descendant. It looks for neither where
// sets that are kept have told that it is clear.
#[inline(always)]
pub(crate) fn check_linear(
    replica: &Replica,
    op: &Op,
    is_clear_relocation: bool,
) -> Result<(), Refusal>
    requires known { NoneApplies (unknown_nodes replica.now op.now) }
    requires valid { IsValid replica.now }
    requires clear { IsTrue is_clear_relocation → NoneApplies (not_linear replica.now op.now) }
    ensures answer { CheckedInMemory (not_linear replica.now op.now) result }
    ensures memory { IsErrOf result Refusal.NoMemory → WalksForDescendants replica.now.history op.now }
{
    if is_clear_relocation {
        return Ok(());
    }
    let is_linear = match op {
        Op::Fold { nodes, .. } => is_line(replica, nodes),
        Op::Relocate { node, p, q, .. } => !leads_to_either(replica, *node, *p, *q)?,
        _ => true,
    };
    if is_linear {
        Ok(())
    } else {
        Err(Refusal::NotLinear)
    }
}

// Whether it is a relocation whose new parents can't be descendants: the node is an orphan, and they are neither
// orphans nor obsolete, as all descendants of an orphan are. It is told by what is kept, and takes no memory.
pub(crate) fn is_clear_relocation(kept: &Kept, op: &Op) -> bool
    ensures { IsTrue result → NoneApplies (not_linear kept.now.replica op.now) }
{
    let Op::Relocate { node, p, q, .. } = op else {
        return false;
    };
    kept.replica().is_valid();
    if !kept.instabilities().orphan().contains(node) {
        return false;
    }
    is_clear_of_orphans(kept, *p) && is_clear_of_orphans(kept, *q)
}

// Whether it is neither an orphan nor obsolete, by what is kept.
fn is_clear_of_orphans(kept: &Kept, node: Node) -> bool
    ensures orphan { IsTrue result → ¬ (IsOrphan (content_of kept.now.replica) node) }
    ensures obsolete { IsTrue result → ¬ (IsObsolete (content_of kept.now.replica) node) }
{
    let sets = kept.instabilities();
    !sets.orphan().contains(&node) && !sets.obsolete().contains(&node)
}

// Whether a new parent is the node itself, which takes no memory, or a descendant.
fn leads_to_either(replica: &Replica, node: Node, p: Node, q: Node) -> Result<bool, AllocError>
    requires { Holds replica.now.history node }
    ensures answer { IfOk result (λ answer. IsTrue answer
        ↔ (Reaches replica.now.history node p ⊎ Reaches replica.now.history node q)) }
    ensures memory { OnErr result (StandsBeforeParent replica.now.history node p q) }
{
    if node == p || node == q {
        return Ok(true);
    }
    let graph = replica.graph();
    Ok(graph.is_ancestor(node, p)? || graph.is_ancestor(node, q)?)
}

// Whether each node after the first has the one before as its sole parent.
fn is_line(replica: &Replica, nodes: &[Node]) -> bool
    ensures { IsTrue result ↔ IsLinear replica.now.history nodes.now }
{
    for i in 1..nodes.len() {
        if !is_sole_parent(replica, nodes[i - 1], nodes[i]) {
            return false;
        }
    }
    true
}

fn is_sole_parent(replica: &Replica, parent: Node, node: Node) -> bool
    ensures { IsTrue result ↔ (parents_in replica.now.history node ≡ (parent, null_node)) }
{
    parents_in(replica, node) == (parent, Node::NULL)
}

// Refuses a split into too few or too many, and a fold of too few.
pub(crate) fn check_count(op: &Op) -> Result<(), Refusal>
    ensures { Checked (wrong_count op.now) result }
{
    let is_right = match op {
        Op::Split { entries, .. } => SPLIT_LEAST <= entries.len() && entries.len() <= SPLIT_MOST,
        Op::Fold { nodes, .. } => FOLD_LEAST <= nodes.len(),
        _ => true,
    };
    if is_right {
        Ok(())
    } else {
        Err(Refusal::Count)
    }
}

// Refuses an advance to a phase above the present one.
#[inline(always)]
pub(crate) fn check_raise(replica: &Replica, op: &Op) -> Result<(), Refusal>
    ensures { Checked (raise replica.now op.now) result }
{
    match op {
        Op::Advance { node, phase } => {
            if phase_in(replica, *node) < *phase {
                return Err(Refusal::Raise);
            }
            Ok(())
        }
        _ => Ok(()),
    }
}

// Refuses an entry that has no text.
pub(crate) fn check_entries(entries: &[Entry]) -> Result<(), Refusal>
    ensures { Checked (map entry_refused entries.now) result }
{
    for entry in entries {
        match check_entry(entry) {
            Ok(()) => {}
            Err(fault) => return Err(Refusal::Fault(Cause::Entry(fault))),
        }
    }
    Ok(())
}

// Refuses the user of a prune that is none.
#[inline(always)]
pub(crate) fn check_pruner(op: &Op) -> Result<(), Refusal>
    ensures { Checked (bad_users op.now) result }
{
    match op {
        Op::Prune { user, .. } => match check_user(trimmed_user(user)) {
            Ok(()) => Ok(()),
            Err(fault) => Err(Refusal::Fault(Cause::Entry(fault))),
        },
        _ => Ok(()),
    }
}

// Refuses an id that is held, or that comes again.
#[inline(always)]
pub(crate) fn check_new(replica: &Replica, ids: &[Node]) -> Result<(), Refusal>
    ensures { Checked (existing replica.now.history ids.now) result }
{
    for i in 0..ids.len() {
        let id = ids[i];
        if holds(replica, id) || contains(&ids[i + 1..], id) {
            return Err(Refusal::Exists(id));
        }
    }
    Ok(())
}
