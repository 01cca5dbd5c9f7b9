//! What a replica takes in, where growth is refused. A refusal leaves it as another one that was made alike.
use crate::parts::{ELSEWHERE, NOWHERE, changeset, empty, mark, push, replica_of};
use hg_changeset::Node;
use hg_join::JoinState;
use hg_obsstore::Store;
use hg_phases::{Phase, Roots};
use hg_replica::{Fault, Part, Replica};
use std::alloc::Global;
use std::borrow::Cow;

// The part of a root and two children of it, all secret.
fn fork(alloc: Global) -> Option<(Part, [Node; 3])> {
    let mut part = empty(alloc);
    let root = push(alloc, &mut part, Node::NULL, b'a', Phase::Secret)?;
    let left = push(alloc, &mut part, root, b'b', Phase::Secret)?;
    let right = push(alloc, &mut part, root, b'c', Phase::Secret)?;
    Some((part, [root, left, right]))
}

// The part of the children's merge, of a marker on that and of two bounds, by which the one child is public and the
// other a draft. And the merge.
fn merge(alloc: Global, nodes: &[Node; 3]) -> Option<(Part, Node)> {
    let [_, left, right] = *nodes;
    let mut part = empty(alloc);
    let merge = changeset(alloc, left, right, b'd')?;
    let node = merge.node();
    part.changesets.push(merge).ok()?;
    mark(alloc, &mut part, node, &[ELSEWHERE], 0)?;
    part.bounds.push((left, Phase::Public)).ok()?;
    part.bounds.push((right, Phase::Draft)).ok()?;
    Some((part, node))
}

// Whether the two hold the same.
fn are_equal(one: &Replica, other: &Replica) -> bool {
    one.below(other) == Ok(true) && other.below(one) == Ok(true)
}

// Whether the part was absorbed and taken back.
fn is_taken_back(replica: &mut Replica, part: &Part) -> bool {
    match replica.absorb_with_undo(Cow::Borrowed(part)) {
        Ok(absorbed) => {
            replica.take_back(absorbed.undo);
            true
        }
        Err(_) => false,
    }
}

#[test]
fn refused_growth_moves_neither_phases_nor_roots(rt: HostRuntime) {
    let alloc = rt.alloc();
    let Some(forked) = fork(alloc) else {
        return;
    };
    let (held, nodes) = forked;
    let Some((part, merge)) = merge(alloc, &nodes) else {
        return;
    };
    let Some(mut replica) = replica_of(alloc, &held) else {
        return;
    };
    let Some(before) = replica_of(alloc, &held) else {
        return;
    };
    let was_taken_back = is_taken_back(&mut replica, &part);
    assert!(rt; are_equal(&replica, &before));
    assert!(rt; was_taken_back || is_taken_back(&mut replica, &part));
    assert!(rt; replica.absorb(&part).is_ok() || replica.absorb(&part).is_ok());
    let roots = match replica.roots() {
        Ok(roots) => roots,
        Err(_) => replica.roots().expect(&rt, "memory"),
    };
    let expected = [(Phase::Draft, nodes[2]), (Phase::Secret, merge)];
    assert!(rt; roots.as_slice() == expected.as_slice());
}

// Whether the other was joined and taken back.
fn is_unjoined(replica: &mut Replica, other: &Replica) -> bool {
    match replica.join_with_undo(other) {
        Ok(undo) => {
            replica.take_back(undo);
            true
        }
        Err(_) => false,
    }
}

#[test]
fn refused_growth_in_moving_in_joining_and_copying_passes(rt: HostRuntime) {
    let alloc = rt.alloc();
    let Some(forked) = fork(alloc) else {
        return;
    };
    let (held, nodes) = forked;
    let (Some((part, merge)), Some((same, _))) = (merge(alloc, &nodes), merge(alloc, &nodes)) else {
        return;
    };
    let (Some(mut replica), Some(mut other)) = (replica_of(alloc, &held), replica_of(alloc, &held))
    else {
        return;
    };
    assert!(rt; other.absorb_owned(part).is_ok() || other.absorb_owned(same).is_ok());
    let was_unjoined = is_unjoined(&mut replica, &other);
    assert!(rt; !replica.graph().contains(merge) && replica.store().len() == 0);
    assert!(rt; was_unjoined || is_unjoined(&mut replica, &other));
    assert!(rt; replica.join(&other).is_ok() || replica.join(&other).is_ok());
    let copy = match replica.copy() {
        Ok(copy) => copy,
        Err(_) => replica.copy().expect(&rt, "memory"),
    };
    assert!(rt; are_equal(&copy, &replica) && are_equal(&copy, &other));
}

// The highest listed phase of a changeset's own and its ancestors' counts. A root that isn't held is dropped.
#[test]
fn refused_growth_in_opening_changes_nothing(rt: HostRuntime) {
    let alloc = rt.alloc();
    let Some(forked) = fork(alloc) else {
        return;
    };
    let (part, nodes) = forked;
    let [root, left, _] = nodes;
    let Ok(listed) = vec![in alloc;
        (Phase::Draft, root),
        (Phase::Secret, left),
        (Phase::Draft, left),
        (Phase::Secret, NOWHERE),
    ] else {
        return;
    };
    let listed = Roots::new(listed);
    let replica = match Replica::open(&part.changesets, &listed, Store::new(alloc)) {
        Ok(replica) => replica,
        Err(_) => Replica::open(&part.changesets, &listed, Store::new(alloc)).expect(&rt, "memory"),
    };
    let phases = [
        replica.phase_at(0),
        replica.phase_at(1),
        replica.phase_at(2),
    ];
    assert!(rt; phases == [Some(Phase::Draft), Some(Phase::Secret), Some(Phase::Draft)]);
}

#[test]
fn a_bound_of_what_is_not_held_is_refused(rt: HostRuntime) {
    let alloc = rt.alloc();
    let mut replica = Replica::new(alloc);
    for (node, fault) in [
        (Node::NULL, Fault::NullBound),
        (ELSEWHERE, Fault::UnknownBound(ELSEWHERE)),
    ] {
        let mut part = empty(alloc);
        part.bounds.push((node, Phase::Draft)).expect(&rt, "memory");
        assert!(rt; replica.absorb(&part).err() == Some(fault));
    }
    assert!(rt; replica.graph().is_empty());
}
