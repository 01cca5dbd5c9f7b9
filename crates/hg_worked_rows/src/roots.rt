//! Phase roots: their text, what opens with it, and where they stand while phases go down.
use crate::making::{ONES, are_same, commit, empty, entry, operate, push, replica_of_empty};
use hg_changeset::Node;
use hg_history::History;
use hg_obsstore::Store;
use hg_phaseroots::{read_roots, roots_text};
use hg_phases::{Phase, Roots};
use hg_replica::{Fault, Part, Replica};
use hg_rewrite::Op;
use std::alloc::Global;

#[test]
fn the_root_of_one_draft_is_a_line_of_43_bytes(rt: HostRuntime) {
    let alloc = rt.alloc();
    let replica = replica_of_empty(alloc, Phase::Draft).expect(&rt, "memory");
    let roots = replica.roots().expect(&rt, "memory");
    let text = roots_text(&roots).expect(&rt, "memory");
    let line = b"1 b80de5d138758541c5f05265ad144ab9fa86d1db\n";
    assert!(rt; text.len() == 43 && text.as_slice() == line.as_slice());
}

// The phases of the root without a text and of a child of it, which open with a text, and how many roots it has.
fn opened(alloc: Global, text: &[u8]) -> Option<(usize, [Option<Phase>; 2])> {
    let mut part = empty(alloc);
    let root = push(alloc, &mut part, Node::NULL, b"", Phase::Public)?;
    let child = push(alloc, &mut part, root, b"x", Phase::Public)?;
    let roots = read_roots(alloc, text).ok()?;
    let replica = Replica::open(&part.changesets, &roots, Store::new(alloc)).ok()?;
    let phases = [replica.phase_of(root).ok()?, replica.phase_of(child).ok()?];
    Some((roots.as_slice().len(), phases))
}

// A row has the text, how many roots it has, and the phase in which both changesets are then.
#[test]
fn the_highest_of_the_listed_roots_decides_and_no_root_is_public(rt: HostRuntime) {
    let alloc = rt.alloc();
    for (text, count, phase) in [
        (
            b"2 b80de5d138758541c5f05265ad144ab9fa86d1db\n1 b80de5d138758541c5f05265ad144ab9fa86d1db\n".as_slice(),
            2,
            Phase::Secret,
        ),
        (
            b"1 b80de5d138758541c5f05265ad144ab9fa86d1db\n2 b80de5d138758541c5f05265ad144ab9fa86d1db\n",
            2,
            Phase::Secret,
        ),
        (
            b"1 b80de5d138758541c5f05265ad144ab9fa86d1db\n",
            1,
            Phase::Draft,
        ),
        (
            b"2 1111111111111111111111111111111111111111\n",
            1,
            Phase::Public,
        ),
        (b"", 0, Phase::Public),
    ] {
        let told = opened(alloc, text);
        assert!(rt; told == Some((count, [Some(phase), Some(phase)])));
    }
}

// The part of a root, and of a changeset whose parent isn't held.
fn part_with_a_gap(alloc: Global) -> Option<Part> {
    let mut part = empty(alloc);
    push(alloc, &mut part, Node::NULL, b"", Phase::Public)?;
    push(alloc, &mut part, ONES, b"x", Phase::Public)?;
    Some(part)
}

#[test]
fn nothing_opens_with_a_changeset_whose_parent_is_not_held(rt: HostRuntime) {
    let alloc = rt.alloc();
    let part = part_with_a_gap(alloc).expect(&rt, "memory");
    let roots = Roots::new(Vec::new(alloc));
    let unknown = Some(Fault::UnknownParent(ONES));
    let history = History::open(alloc, &part.changesets, &roots);
    assert!(rt; history.err() == unknown);
    let replica = Replica::open(&part.changesets, &roots, Store::new(alloc));
    assert!(rt; replica.err() == unknown);
}

// Changesets by their descriptions, of user `fleet` at `0 0`: `m` merges `p` and `q`, and `d` stands on it.
const P: Node = Node([
    0x49, 0x8b, 0xf6, 0x46, 0xf1, 0x1c, 0xf5, 0x73, 0xb3, 0xad, 0x97, 0x6b, 0x8d, 0x09, 0xb4, 0x91,
    0x85, 0x7d, 0x9b, 0x9b,
]);

const Q: Node = Node([
    0xdc, 0xeb, 0xe5, 0x00, 0x64, 0x24, 0x15, 0xe5, 0xc1, 0x31, 0x9d, 0xdf, 0x48, 0x9f, 0xab, 0xff,
    0x73, 0x9d, 0x09, 0xc3,
]);

const M: Node = Node([
    0xfa, 0xe3, 0x4c, 0x67, 0x02, 0x03, 0x5d, 0x0b, 0x80, 0xc7, 0xf5, 0x57, 0x14, 0x05, 0x80, 0x17,
    0xec, 0xd9, 0x15, 0x7b,
]);

const D: Node = Node([
    0x48, 0xe8, 0xa6, 0x0d, 0x93, 0x57, 0xb0, 0x0a, 0x02, 0x22, 0x1f, 0x13, 0x61, 0x09, 0xc8, 0x97,
    0x85, 0x8b, 0x36, 0x73,
]);

// Takes in a commit by `fleet`.
fn add(
    alloc: Global,
    replica: &mut Replica,
    p: Node,
    q: Node,
    description: &[u8],
    secret: bool,
) -> Option<()> {
    let entry = entry(alloc, b"fleet", description)?;
    operate(alloc, replica, &commit(p, q, entry, secret))?;
    Some(())
}

// Two secret roots, a merge of both and a child of that, which are asked for as drafts and are secret.
fn merged(alloc: Global) -> Option<Replica> {
    let mut replica = Replica::new(alloc);
    add(alloc, &mut replica, Node::NULL, Node::NULL, b"p", true)?;
    add(alloc, &mut replica, Node::NULL, Node::NULL, b"q", true)?;
    add(alloc, &mut replica, P, Q, b"m", false)?;
    add(alloc, &mut replica, M, Node::NULL, b"d", false)?;
    Some(replica)
}

// Advances a node, and tells what went down with it.
fn advance(alloc: Global, replica: &mut Replica, node: Node, phase: Phase) -> Option<Vec<Node>> {
    let change = operate(alloc, replica, &Op::Advance { node, phase })?;
    Vec::from_slice(alloc, &change.lowered).ok()
}

// Whether the roots are these, in whatever order.
fn has_roots(replica: &Replica, wanted: &[(Phase, Node)]) -> bool {
    match replica.roots() {
        Ok(roots) => {
            let roots = roots.as_slice();
            roots.len() == wanted.len() && wanted.iter().all(|root| roots.contains(root))
        }
        Err(_) => false,
    }
}

#[test]
fn roots_of_two_lines_meet_at_their_merge(rt: HostRuntime) {
    let alloc = rt.alloc();
    let mut replica = merged(alloc).expect(&rt, "memory");
    assert!(rt; has_roots(&replica, &[(Phase::Secret, P), (Phase::Secret, Q)]));
    let lowered = advance(alloc, &mut replica, M, Phase::Draft).expect(&rt, "memory");
    assert!(rt; are_same(&lowered, &[P, Q, M]));
    assert!(rt;
        has_roots(
            &replica,
            &[(Phase::Draft, P), (Phase::Draft, Q), (Phase::Secret, D)]
        )
    );
    let lowered = advance(alloc, &mut replica, P, Phase::Public).expect(&rt, "memory");
    assert!(rt; are_same(&lowered, &[P]));
    assert!(rt; has_roots(&replica, &[(Phase::Draft, Q), (Phase::Secret, D)]));
    let lowered = advance(alloc, &mut replica, Q, Phase::Public).expect(&rt, "memory");
    assert!(rt; are_same(&lowered, &[Q]));
    assert!(rt; has_roots(&replica, &[(Phase::Draft, M), (Phase::Secret, D)]));
}
