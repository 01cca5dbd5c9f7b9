//! Successors sets, content-divergence and what is hidden. A byte names the id of the root whose text it is, held or
//! not.
use crate::making::{ONES, TWOS, are_same, empty, mark, push, replica_of, text_at};
use hg_changeset::{Changeset, Node};
use hg_instab::Instabilities;
use hg_phases::Phase;
use hg_replica::{Part, Replica};
use hg_succ::{Sets, successors_sets};
use hg_view::{Pins, is_visible};
use std::alloc::Global;

// The ids that a word names. `None` where memory ran out, as of all of these.
fn ids(alloc: Global, word: &[u8]) -> Option<Vec<Node>> {
    let mut ids = Vec::new(alloc);
    for byte in word {
        ids.push(Changeset::id_of(Node::NULL, Node::NULL, &[*byte]).ok()?)
            .ok()?;
    }
    Some(ids)
}

// The ids that each word names.
fn words(alloc: Global, text: &[u8]) -> Option<Vec<Vec<Node>>> {
    let mut words = Vec::new(alloc);
    for word in text.split(|byte| *byte == b' ') {
        words.push(ids(alloc, word)?).ok()?;
    }
    Some(words)
}

// The replica that holds these draft roots. Each word of the markers is one from its first id to the others.
fn rewritten(alloc: Global, held: &[u8], markers: &[u8]) -> Option<Replica> {
    let mut part = empty(alloc);
    for name in held {
        push(alloc, &mut part, Node::NULL, &[*name], Phase::Draft)?;
    }
    for word in words(alloc, markers)?.iter() {
        let (old, new) = word.split_first()?;
        mark(alloc, &mut part, *old, new, 0)?;
    }
    replica_of(alloc, &part)
}

// Whether a set of these words has the same nodes.
fn has_set(wanted: &[Vec<Node>], set: &[Node]) -> bool {
    wanted.iter().any(|nodes| are_same(nodes, set))
}

// Whether exactly these are the successors sets. An empty text is none.
fn are_sets(alloc: Global, sets: &Sets, text: &[u8]) -> Option<bool> {
    let wanted = words(alloc, text)?;
    match sets {
        Sets::Family(family) if text.is_empty() => Some(family.is_empty()),
        Sets::Family(family) => Some(
            family.len() == wanted.len() && family.iter().all(|set| has_set(&wanted, set)),
        ),
        Sets::Overfull => Some(false),
    }
}

// Whether a node has its sets. A row has what is held, the markers, the name of the node and its sets.
fn has_its_sets(alloc: Global, row: &[u8]) -> Option<bool> {
    let replica = rewritten(alloc, text_at(row, 0)?, text_at(row, 1)?)?;
    let node = *ids(alloc, text_at(row, 2)?)?.first()?;
    let sets = successors_sets(alloc, &replica, node).ok()?;
    are_sets(alloc, &sets, text_at(row, 3)?)
}

#[test]
fn each_node_has_the_sets_that_its_markers_lead_to(rt: HostRuntime) {
    for row in [
        b"bxy|bx by|b|x y".as_slice(),
        b"stu|bps pt pu|b|ts us",
        b"w|xy yx nxw|n|w",
        b"w|xy yx nxw|x|",
        b"w|xy yx nxw|y|",
        b"vw|xy yx nxw nwv|n|vw",
        b"x|xx|x|",
    ] {
        assert!(rt; has_its_sets(rt.alloc(), row) == Some(true));
    }
}

// Whether exactly these of what is held are content-divergent, and those obsolete, extinct and hidden.
fn are_unstable(
    alloc: Global,
    replica: &Replica,
    held: &[u8],
    divergent: &[u8],
    hidden: &[u8],
) -> Option<bool> {
    let sets = Instabilities::from_scratch(alloc, replica).ok()?;
    let pins = Pins::new(alloc);
    for name in held {
        let node = Changeset::id_of(Node::NULL, Node::NULL, &[*name]).ok()?;
        let told = [
            sets.content_divergent().contains(&node),
            sets.obsolete().contains(&node),
            sets.extinct().contains(&node),
            !is_visible(alloc, replica, &pins, node).ok()?,
        ];
        let is_hidden = hidden.contains(name);
        if told != [divergent.contains(name), is_hidden, is_hidden, is_hidden] {
            return Some(false);
        }
    }
    Some(true)
}

// Whether that is so of a row, which has what is held, the markers, what of it is content-divergent, and what is
// obsolete, extinct and hidden.
fn is_unstable_so(alloc: Global, row: &[u8]) -> Option<bool> {
    let held = text_at(row, 0)?;
    let replica = rewritten(alloc, held, text_at(row, 1)?)?;
    are_unstable(alloc, &replica, held, text_at(row, 2)?, text_at(row, 3)?)
}

#[test]
fn several_sets_make_content_divergent_what_they_lead_to(rt: HostRuntime) {
    for row in [
        b"bxy|bx by|xy|b".as_slice(),
        b"stu|bps pt pu|stu|",
        b"x|xx||x",
    ] {
        assert!(rt; is_unstable_so(rt.alloc(), row) == Some(true));
    }
}

// Adds two draft roots to the part, and that an id was rewritten to the one and to the other. And that id.
fn divide(alloc: Global, part: &mut Part, number: u8) -> Option<Node> {
    let node = Node([number.wrapping_add(100); 20]);
    for side in [b'l', b'r'] {
        let root = push(alloc, part, Node::NULL, &[number, side], Phase::Draft)?;
        mark(alloc, part, node, &[root], 0)?;
    }
    Some(node)
}

// One marker from ONES to so many ids with two sets each, and to a draft root if there is to be one; and a marker from
// TWOS to ONES. And the root.
fn divided(alloc: Global, ways: u8, has_root: bool) -> Option<(Replica, Node)> {
    let mut part = empty(alloc);
    let mut successors = Vec::new(alloc);
    for number in 0..ways {
        successors.push(divide(alloc, &mut part, number)?).ok()?;
    }
    let root = push(alloc, &mut part, Node::NULL, b"z", Phase::Draft)?;
    if has_root {
        successors.push(root).ok()?;
    }
    mark(alloc, &mut part, ONES, &successors, 0)?;
    mark(alloc, &mut part, TWOS, &[ONES], 0)?;
    Some((replica_of(alloc, &part)?, root))
}

// How many successors sets the node has, or `None` where it is overfull.
fn count(alloc: Global, replica: &Replica, node: Node) -> Option<Option<usize>> {
    match successors_sets(alloc, replica, node).ok()? {
        Sets::Family(sets) => Some(Some(sets.len())),
        Sets::Overfull => Some(None),
    }
}

#[test]
fn twelve_ways_of_two_are_4096_sets_and_thirteen_too_many(rt: HostRuntime) {
    let alloc = rt.alloc();
    let (replica, _) = divided(alloc, 12, false).expect(&rt, "memory");
    assert!(rt; count(alloc, &replica, ONES) == Some(Some(4096)));
    let (replica, _) = divided(alloc, 13, false).expect(&rt, "memory");
    assert!(rt; count(alloc, &replica, ONES) == Some(None));
}

#[test]
fn what_comes_of_too_many_sets_is_too_much_and_content_divergent(rt: HostRuntime) {
    let alloc = rt.alloc();
    let (replica, root) = divided(alloc, 13, true).expect(&rt, "memory");
    assert!(rt; count(alloc, &replica, ONES) == Some(None));
    assert!(rt; count(alloc, &replica, TWOS) == Some(None));
    let sets = Instabilities::from_scratch(alloc, &replica).expect(&rt, "memory");
    assert!(rt; sets.content_divergent().contains(&root));
}
