//! A split of which two sides each amend one half.
use crate::making::{are_same, commit, entry, operate};
use hg_changeset::{Entry, Node};
use hg_phases::Phase;
use hg_replica::Replica;
use hg_rewrite::Op;
use hg_succ::{Sets, successors_sets};
use std::alloc::Global;
use std::process::Abort;

// The entries `s1` and `s2`.
fn halves(alloc: Global) -> Option<Vec<Entry>> {
    let mut entries = Vec::new(alloc);
    entries.push(entry(alloc, b"fleet", b"s1")?).ok()?;
    entries.push(entry(alloc, b"fleet", b"s2")?).ok()?;
    Some(entries)
}

// Commits a draft root `b`, and splits it into two. The root and the halves.
fn split(rt: &impl Abort, alloc: Global, replica: &mut Replica) -> [Node; 3] {
    let root = entry(alloc, b"fleet", b"b").expect(rt, "memory");
    let op = commit(Node::NULL, Node::NULL, root, false);
    let change = operate(alloc, replica, &op).expect(rt, "a root");
    let node = *change.added.first().expect(rt, "a root");
    let entries = halves(alloc).expect(rt, "memory");
    let change = operate(alloc, replica, &Op::Split { node, entries }).expect(rt, "halves");
    let first = *change.added.first().expect(rt, "a half");
    let last = *change.added.last().expect(rt, "a half");
    [node, first, last]
}

// What a node is amended to.
fn amend(alloc: Global, replica: &mut Replica, node: Node, text: &[u8]) -> Option<Node> {
    let entry = entry(alloc, b"fleet", text)?;
    let change = operate(alloc, replica, &Op::Amend { node, entry })?;
    change.added.first().copied()
}

// Whether the family is of two sets, which have these nodes.
fn are_two(sets: &Sets, one: [Node; 2], other: [Node; 2]) -> bool {
    match sets {
        Sets::Family(family) => family.len() == 2
            && family.iter().any(|set| are_same(set, &one))
            && family.iter().any(|set| are_same(set, &other)),
        Sets::Overfull => false,
    }
}

#[test]
fn a_split_has_a_set_for_each_amend_of_one_half(rt: HostRuntime) {
    let alloc = rt.alloc();
    let mut replica = Replica::new(alloc);
    let [b, s1, s2] = split(&rt, alloc, &mut replica);
    let mut other = replica.copy().expect(&rt, "memory");
    let t1 = amend(alloc, &mut replica, s1, b"t1").expect(&rt, "memory");
    let t2 = amend(alloc, &mut other, s1, b"t2").expect(&rt, "memory");
    assert!(rt; replica.join(&other) == Ok(()) && replica.graph().len() == 5);
    assert!(rt; replica.phase_of(t2) == Ok(Some(Phase::Draft)));
    let sets = successors_sets(alloc, &replica, b).expect(&rt, "memory");
    assert!(rt; are_two(&sets, [t1, s2], [t2, s2]));
}
