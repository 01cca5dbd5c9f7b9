//! Worked operations, whose ids and bytes were computed outside, and each growth of an operation refused in turn.
use crate::rows::{EMPTY, SERVED, holder, one_changeset};
use crate::scene::entry;
use hg_changeset::{ChangesetError, Entry, Node};
use hg_marker::encode;
use hg_phases::Phase;
use hg_replica::{Part, Replica};
use hg_rewrite::{Cause, Op, Refusal, decide, decide_kept};
use hg_view::{Kept, Pins};
use std::alloc::Global;

// The marker of a prune of the root without a text by `fleet` at `0 0`: N and M, no flags, the node, and the metadata.
const PRUNED: &[u8] =
    b"\0\0\0\0\x4f\0\xb8\x0d\xe5\xd18u\x85A\xc5\xf0Re\xad\x14J\xb9\xfa\x86\xd1\xdb\
    date:0 0\0operation:prune\0p1:0000000000000000000000000000000000000000\0user:fleet";

// The text of `b` for it with an extra of its own. Extras stand in the order of their keys, with NUL between them.
const AMENDED: &[u8] = b"0000000000000000000000000000000000000000\nfleet\n\
    0 0 amend_source:b80de5d138758541c5f05265ad144ab9fa86d1db\0topic:t\n\nb";

// Changesets by their descriptions; all of user `fleet` at `0 0`, and draft. `h` stands on `a`.
const A: Node = Node([
    0xf9, 0x6c, 0xa3, 0x97, 0x38, 0xe6, 0x58, 0x8d, 0x0b, 0xf7, 0x02, 0x0c, 0xd1, 0xd4, 0x4a, 0x23,
    0x77, 0x4c, 0x1b, 0x77,
]);

const H: Node = Node([
    0xb6, 0x28, 0xcf, 0xff, 0xb3, 0xd6, 0x2c, 0xd8, 0x19, 0xf8, 0x85, 0x5d, 0x31, 0xf2, 0xd2, 0xbf,
    0x4d, 0x8b, 0x9b, 0x84,
]);

const F: Node = Node([
    0xbf, 0xb2, 0xe4, 0x7e, 0x53, 0x83, 0x5c, 0xfa, 0xa6, 0x84, 0x62, 0xf9, 0xef, 0x32, 0xb1, 0xb2,
    0x8c, 0x1b, 0xd0, 0x73,
]);

// What `a` is split into, `s2` on `s1`, and the merge of both.
const S1: Node = Node([
    0x0a, 0xa1, 0x97, 0xf5, 0x61, 0xba, 0xd0, 0x79, 0x1e, 0xda, 0xab, 0x69, 0xf9, 0x9f, 0x66, 0x4c,
    0xdc, 0x97, 0x6a, 0x22,
]);

const S2: Node = Node([
    0x85, 0x76, 0x12, 0xb5, 0x1d, 0xa2, 0x8d, 0x0d, 0x36, 0xf7, 0xf2, 0xa4, 0xad, 0x6c, 0x41, 0x99,
    0xd1, 0xc3, 0x75, 0x4f,
]);

const M: Node = Node([
    0xc2, 0x44, 0xc0, 0x5a, 0xb5, 0x3a, 0xcb, 0xa2, 0x98, 0x01, 0xc7, 0x97, 0xb8, 0x56, 0xc5, 0x65,
    0x5b, 0xf3, 0x68, 0xee,
]);

fn commit(p: Node, q: Node, entry: Entry) -> Op {
    let secret = false;
    Op::Commit {
        p,
        q,
        entry,
        secret,
    }
}

fn relocate(node: Node, p: Node, entry: Entry) -> Op {
    let q = Node::NULL;
    Op::Relocate { node, p, q, entry }
}

fn prune(alloc: Global, node: Node, user: &[u8]) -> Option<Op> {
    let user = Vec::from_slice(alloc, user).ok()?;
    let (secs, offset) = (0, 0);
    Some(Op::Prune {
        node,
        user,
        secs,
        offset,
    })
}

// The node becomes `s1` and a child of it, `s2`.
fn split_in_two(alloc: Global, node: Node) -> Option<Op> {
    let mut entries = Vec::new(alloc);
    entries.push(entry(alloc, b"s1")?).ok()?;
    entries.push(entry(alloc, b"s2")?).ok()?;
    Some(Op::Split { node, entries })
}

// A description in place of the root without a text, with an extra.
fn amend_with_an_extra(alloc: Global, desc: &[u8]) -> Option<Op> {
    let mut entry = entry(alloc, desc)?;
    let key = Vec::from_slice(alloc, b"topic").ok()?;
    let value = Vec::from_slice(alloc, b"t").ok()?;
    entry.extra.insert(key, value).ok()?;
    Some(Op::Amend { node: EMPTY, entry })
}

#[test]
fn operations_on_the_empty_root_give_these_bytes(rt: HostRuntime) {
    let alloc = rt.alloc();
    let pins = Pins::new(alloc);
    let bytes = one_changeset(alloc, SERVED).expect(&rt, "memory");
    let replica = holder(alloc, &bytes).expect(&rt, "a replica");
    let op = prune(alloc, EMPTY, b" fleet\n").expect(&rt, "memory");
    let part = decide(alloc, &replica, &pins, &op).expect(&rt, "a part");
    assert!(rt; part.changesets.is_empty() && part.bounds.is_empty() && part.markers.len() == 1);
    let written = encode(&part.markers[0]).expect(&rt, "memory");
    assert!(rt; written.as_slice() == PRUNED);
    let op = amend_with_an_extra(alloc, b"b").expect(&rt, "memory");
    let part = decide(alloc, &replica, &pins, &op).expect(&rt, "a part");
    assert!(rt; part.changesets.len() == 1 && part.changesets[0].text() == AMENDED);
}

// Takes in what the operation gives.
fn grow(alloc: Global, replica: &mut Replica, op: &Op) -> Option<()> {
    let part = decide(alloc, replica, &Pins::new(alloc), op).ok()?;
    replica.absorb(&part).ok()?;
    Some(())
}

// Takes in a commit of this description.
fn grow_by(alloc: Global, replica: &mut Replica, p: Node, q: Node, desc: &[u8]) -> Option<()> {
    grow(alloc, replica, &commit(p, q, entry(alloc, desc)?))
}

// `a` has a child `h`, which has one too, and beside them is a root `f`, which is pruned and hidden. `a` is split into
// `s1` and `s2`, which `m` merges, and shown all the same, since `h` stands on it.
fn prune_split_and_merge(alloc: Global, replica: &mut Replica) -> Option<()> {
    grow_by(alloc, replica, Node::NULL, Node::NULL, b"a")?;
    grow_by(alloc, replica, A, Node::NULL, b"h")?;
    grow_by(alloc, replica, H, Node::NULL, b"k")?;
    grow_by(alloc, replica, Node::NULL, Node::NULL, b"f")?;
    grow(alloc, replica, &prune(alloc, F, b"fleet")?)?;
    grow(alloc, replica, &split_in_two(alloc, A)?)?;
    grow_by(alloc, replica, S1, S2, b"m")
}

// How many changesets and markers a part has, or why there is none.
type Told = Result<(usize, usize), Refusal>;

fn told(answer: Result<Part, Refusal>) -> Told {
    match answer {
        Ok(part) => Ok((part.changesets.len(), part.markers.len())),
        Err(refusal) => Err(refusal),
    }
}

// An operation of this number, and what is told of it. Some have a new parent that is obsolete, or a merge that may
// stand on the node that is relocated: a walk tells whether it is hidden, or does.
fn operation(alloc: Global, number: usize) -> Option<(Op, Told)> {
    let entry = entry(alloc, b"g")?;
    match number {
        0 => Some((commit(Node::NULL, Node::NULL, entry), Ok((1, 0)))),
        1 => Some((commit(A, Node::NULL, entry), Ok((1, 0)))),
        2 => Some((commit(F, Node::NULL, entry), Err(Refusal::Hidden(F)))),
        3 => Some((Op::Amend { node: H, entry }, Ok((1, 1)))),
        4 => Some((relocate(H, M, entry), Ok((1, 1)))),
        5 => Some((relocate(S1, M, entry), Err(Refusal::NotLinear))),
        6 => {
            let nodes = Vec::from_slice(alloc, &[S1, S2]).ok()?;
            Some((Op::Fold { nodes, entry }, Ok((1, 2))))
        }
        7 => Some((split_in_two(alloc, H)?, Ok((2, 1)))),
        8 => Some((prune(alloc, H, b"fleet")?, Ok((0, 1)))),
        _ => {
            let (node, phase) = (M, Phase::Public);
            Some((Op::Advance { node, phase }, Ok((0, 0))))
        }
    }
}

// What is told of the operation, where one growth may be refused.
fn told_at_last(alloc: Global, kept: &Kept, op: &Op) -> Told {
    match told(decide(alloc, kept.replica(), kept.pins(), op)) {
        Err(Refusal::NoMemory) => told(decide(alloc, kept.replica(), kept.pins(), op)),
        answer => answer,
    }
}

// The same of what keeps its sets.
fn told_at_last_of_kept(alloc: Global, kept: &Kept, op: &Op) -> Told {
    match told(decide_kept(alloc, kept, op)) {
        Err(Refusal::NoMemory) => told(decide_kept(alloc, kept, op)),
        answer => answer,
    }
}

#[test]
fn refused_growth_is_told_by_each_operation(rt: HostRuntime) {
    let alloc = rt.alloc();
    let mut replica = Replica::new(alloc);
    if prune_split_and_merge(alloc, &mut replica).is_none() {
        return;
    }
    let Ok(kept) = Kept::new(alloc, replica) else {
        return;
    };
    for number in 0..10 {
        let Some((op, answer)) = operation(alloc, number) else {
            return;
        };
        assert!(rt; told_at_last(alloc, &kept, &op) == answer);
        assert!(rt; told_at_last_of_kept(alloc, &kept, &op) == answer);
    }
}

// A commit, or the root without a text amended with an extra, where the description has so many bytes.
fn of_length(alloc: Global, len: usize, is_amend: bool) -> Option<Op> {
    let desc = vec![in alloc; b'x'; len].ok()?;
    if is_amend {
        return amend_with_an_extra(alloc, &desc);
    }
    Some(commit(Node::NULL, Node::NULL, entry(alloc, &desc)?))
}

// A text has 52 bytes beside its description, and 62 more for the two extras: that makes 1,048,577 bytes.
#[test]
fn refused_growth_hides_no_text_that_is_too_long(rt: HostRuntime) {
    let alloc = rt.alloc();
    let pins = Pins::new(alloc);
    let Some(bytes) = one_changeset(alloc, SERVED) else {
        return;
    };
    let Some(replica) = holder(alloc, &bytes) else {
        return;
    };
    let fault = Refusal::Fault(Cause::Changeset(ChangesetError::TextTooLong));
    for (len, is_amend) in [(1_048_525, false), (1_048_463, true)] {
        let Some(op) = of_length(alloc, len, is_amend) else {
            return;
        };
        assert!(rt; told(decide(alloc, &replica, &pins, &op)) == Err(fault));
    }
}
