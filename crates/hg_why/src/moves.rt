//! To where orphans are moved.
use crate::named::title_at;
use hg_changeset::Node;
use hg_replica::Replica;
use hg_succ::{Sets, successors_sets};
use hg_view::Kept;
use std::alloc::{AllocError, Global};

/// To where an orphan is moved.
#[derive(Drop)]
pub(crate) struct Move {
    /// Its new parents, one or two: what it stands on, with what an obsolete one became in its place.
    pub(crate) parents: Vec<Node>,
    /// How many successors sets an obsolete one has, of which the first is taken; of two the larger number.
    pub(crate) choices: usize,
}

/// To where a changeset that is an orphan by this obsolete parent is moved, so that it is one no longer: onto what the
/// parent became, of parts that are a line onto the last, and where nothing is left of it onto what it stood on. There
/// is no such place where that is no one changeset, is an orphan itself, or has no name in a script. Of two obsolete
/// parents it is told by the second.
pub(crate) fn move_by(
    alloc: Global,
    kept: &Kept,
    node: Node,
    parent: Node,
) -> Result<Option<Move>, AllocError> {
    match kept.replica().graph().changeset(node) {
        Some(changeset) => {
            let (first, second) = changeset.parents();
            if first == parent && kept.status(second).obsolete {
                return Ok(None);
            }
            move_from(alloc, kept, first, second)
        }
        None => Ok(None),
    }
}

// To where an orphan on these parents is moved, of which the second may be missing.
fn move_from(
    alloc: Global,
    kept: &Kept,
    first: Node,
    second: Node,
) -> Result<Option<Move>, AllocError> {
    let mut found = Move {
        parents: Vec::new(alloc),
        choices: 1,
    };
    if replace(alloc, kept, first, &mut found)? && replace(alloc, kept, second, &mut found)? {
        return Ok(Some(found));
    }
    Ok(None)
}

// So many changesets of which nothing is left are passed by on the way down.
const PASSED: usize = 64;

// Adds what stands in the place of a parent, if there is one. Tells whether there is such a changeset.
fn replace(alloc: Global, kept: &Kept, parent: Node, found: &mut Move) -> Result<bool, AllocError> {
    let mut parent = parent;
    for _ in 0..PASSED {
        if parent.is_null() {
            return Ok(true);
        }
        if !kept.status(parent).obsolete {
            return add_parent(kept, parent, &mut found.parents);
        }
        let sets = successors_sets(alloc, kept.replica(), parent)?;
        found.choices = found.choices.max(count_of(&sets));
        if let Some(target) = target_of(kept.replica(), &sets) {
            return add_parent(kept, target, &mut found.parents);
        }
        match passed_by(kept.replica(), parent, &sets) {
            Some(below) => parent = below,
            None => return Ok(false),
        }
    }
    Ok(false)
}

// What an obsolete changeset stood on of which nothing is left, if that is no merge.
fn passed_by(replica: &Replica, node: Node, sets: &Sets) -> Option<Node> {
    match sets {
        Sets::Family(family) if family.is_empty() => only_parent(replica, node),
        _ => None,
    }
}

// The parent of what is held and is no merge.
fn only_parent(replica: &Replica, node: Node) -> Option<Node> {
    let (first, second) = replica.graph().changeset(node)?.parents();
    if second.is_null() { Some(first) } else { None }
}

// Adds a new parent, unless it is there already. Tells whether it can be one.
fn add_parent(kept: &Kept, node: Node, parents: &mut Vec<Node>) -> Result<bool, AllocError> {
    if !is_stable(kept, node) {
        return Ok(false);
    }
    if !parents.contains(&node) {
        parents.push(node)?;
    }
    Ok(true)
}

// Whether a script has a name for it, and what stands on it alone is no orphan.
fn is_stable(kept: &Kept, node: Node) -> bool {
    let status = kept.status(node);
    title_at(kept.replica(), node).is_some() && !status.obsolete && !status.orphan
}

// What is moved onto of what something became: the last of the first successors set.
fn target_of(replica: &Replica, sets: &Sets) -> Option<Node> {
    match sets {
        Sets::Family(family) => last_of(replica, family.first()?),
        Sets::Overfull => None,
    }
}

// A split makes so many at most.
const PARTS: usize = 255;

// Of changesets that are a line, the one on which none of them stands.
fn last_of(replica: &Replica, set: &[Node]) -> Option<Node> {
    if set.len() > PARTS {
        return None;
    }
    let last = youngest(replica, set)?;
    let mut below = last;
    for _ in 1..set.len() {
        below = only_parent(replica, below)?;
        if !set.contains(&below) {
            return None;
        }
    }
    Some(last)
}

// The one of these changesets that came last.
fn youngest(replica: &Replica, set: &[Node]) -> Option<Node> {
    let mut last = *set.first()?;
    for node in set {
        if replica.graph().place(*node) > replica.graph().place(last) {
            last = *node;
        }
    }
    Some(last)
}

/// The one changeset of a set.
pub(crate) fn only_of(set: &[Node]) -> Option<Node> {
    match set {
        [node] => Some(*node),
        _ => None,
    }
}

fn count_of(sets: &Sets) -> usize {
    match sets {
        Sets::Family(family) => family.len(),
        Sets::Overfull => 0,
    }
}
