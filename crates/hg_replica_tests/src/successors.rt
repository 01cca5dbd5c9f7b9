//! Successors sets. A byte names the id of the root whose text it is, held or not.
use crate::parts::{ELSEWHERE, NOWHERE, changeset, empty, mark, push, replica_of};
use hg_changeset::Node;
use hg_instab::Instabilities;
use hg_phases::Phase;
use hg_replica::{Part, Replica};
use hg_succ::{Sets, several_among, successors_sets};
use std::alloc::Global;

fn id(alloc: Global, name: u8) -> Option<Node> {
    let changeset = changeset(alloc, Node::NULL, Node::NULL, name)?;
    Some(changeset.node())
}

// The ids that each word names. `None` where memory ran out, as of all of these.
fn words(alloc: Global, text: &[u8]) -> Option<Vec<Vec<Node>>> {
    let mut words = Vec::new(alloc);
    let mut word = Vec::new(alloc);
    for byte in text {
        if *byte == b' ' {
            words.push(word).ok()?;
            word = Vec::new(alloc);
        } else {
            word.push(id(alloc, *byte)?).ok()?;
        }
    }
    words.push(word).ok()?;
    Some(words)
}

// Adds a marker for each word: its first id was rewritten to the others.
fn mark_all(alloc: Global, part: &mut Part, markers: &[u8]) -> Option<()> {
    for word in words(alloc, markers)?.iter() {
        let (old, new) = word.split_first()?;
        mark(alloc, part, *old, new, 0)?;
    }
    Some(())
}

// The replica that holds these roots, with these markers.
fn rewritten(alloc: Global, held: &[u8], markers: &[u8]) -> Option<Replica> {
    let mut part = empty(alloc);
    for name in held {
        push(alloc, &mut part, Node::NULL, *name, Phase::Draft)?;
    }
    mark_all(alloc, &mut part, markers)?;
    replica_of(alloc, &part)
}

// The sets of these names, each ascending, in lexicographic order.
fn family(alloc: Global, sets: &[u8]) -> Option<Vec<Vec<Node>>> {
    let mut family = Vec::new(alloc);
    for mut set in words(alloc, sets)? {
        set.sort_unstable();
        family.push(set).ok()?;
    }
    family.sort_unstable();
    Some(family)
}

// Whether exactly these are the successors sets of the node, which is told to have several where they are.
fn tells(alloc: Global, replica: &Replica, name: u8, sets: &[u8]) -> Option<bool> {
    let node = id(alloc, name)?;
    let family = family(alloc, sets)?;
    let several = several_among(alloc, replica, &[node]).ok()?;
    match successors_sets(alloc, replica, node).ok()? {
        Sets::Family(told) => Some(told == family && several.contains(node) == (family.len() > 1)),
        Sets::Overfull => Some(false),
    }
}

// How many successors sets the node has, if they are told.
fn count(alloc: Global, replica: &Replica, node: Node) -> Option<Option<usize>> {
    match successors_sets(alloc, replica, node).ok()? {
        Sets::Family(sets) => Some(Some(sets.len())),
        Sets::Overfull => Some(None),
    }
}

// b was split into p and s, and p amended twice. The set of w alone is within a larger one of n. c, d and f were
// rewritten to an id that was rewritten to itself, or to one id twice. h is between two cycles, m leads to one.
#[test]
fn each_node_has_the_sets_that_its_markers_lead_to(rt: HostRuntime) {
    let alloc = rt.alloc();
    let markers = b"bps pt pu nxw nwv xy yx aa daw fww gh hgm mkw kl lkw";
    let replica = rewritten(alloc, b"astuvw", markers).expect(&rt, "memory");
    for row in [
        b"bts us".as_slice(),
        b"pt u",
        b"ss",
        b"nvw",
        b"dw",
        b"fw",
        b"mw",
    ] {
        let (name, sets) = row.split_first().expect(&rt, "a name");
        assert!(rt; tells(alloc, &replica, *name, sets) == Some(true));
    }
}

// What is on a cycle, was rewritten to itself or pruned, or isn't held and was rewritten to nothing that is. What is
// held and was rewritten to itself is obsolete, and extinct.
#[test]
fn what_leads_to_nothing_has_no_sets(rt: HostRuntime) {
    let alloc = rt.alloc();
    let replica = rewritten(alloc, b"acow", b"aa ccw gh hgm mw o ij").expect(&rt, "memory");
    for name in b"acghoijq" {
        let node = id(alloc, *name).expect(&rt, "memory");
        assert!(rt; count(alloc, &replica, node) == Some(Some(0)));
    }
    let node = id(alloc, b'a').expect(&rt, "memory");
    let sets = Instabilities::from_scratch(alloc, &replica).expect(&rt, "memory");
    assert!(rt; sets.obsolete().contains(&node) && sets.extinct().contains(&node));
}

#[test]
fn refused_growth_in_successors_sets_is_told_and_passes(rt: HostRuntime) {
    let alloc = rt.alloc();
    let Some(replica) = rewritten(alloc, b"stu", b"bps pt pu") else {
        return;
    };
    let told = tells(alloc, &replica, b'b', b"ts us");
    assert!(rt; told == Some(true) || tells(alloc, &replica, b'b', b"ts us") == Some(true));
}

// Adds a root and a child of it to the part, and that an id was rewritten to the one and to the other. And that id.
fn divide(alloc: Global, part: &mut Part, number: u8) -> Option<Node> {
    let node = Node([number.wrapping_add(100); 20]);
    let one = push(alloc, part, Node::NULL, number, Phase::Draft)?;
    let other = push(alloc, part, one, number, Phase::Draft)?;
    mark(alloc, part, node, &[one], 0)?;
    mark(alloc, part, node, &[other], 0)?;
    Some(node)
}

// A marker from an id to so many others that were rewritten in two ways and to a root; and a marker to that id. And the
// root.
fn doubled(alloc: Global, ways: u8) -> Option<(Replica, Node)> {
    let mut part = empty(alloc);
    let alone = push(alloc, &mut part, Node::NULL, 250, Phase::Draft)?;
    let mut successors = vec![in alloc; alone].ok()?;
    for number in 0..ways {
        successors.push(divide(alloc, &mut part, number)?).ok()?;
    }
    mark(alloc, &mut part, ELSEWHERE, &successors, 0)?;
    mark(alloc, &mut part, NOWHERE, &[ELSEWHERE], 0)?;
    Some((replica_of(alloc, &part)?, alone))
}

// Two to the power of twelve.
#[test]
fn a_family_of_4096_sets_is_told(rt: HostRuntime) {
    let alloc = rt.alloc();
    let (replica, _) = doubled(alloc, 12).expect(&rt, "memory");
    assert!(rt; count(alloc, &replica, ELSEWHERE) == Some(Some(4096)));
    assert!(rt; count(alloc, &replica, NOWHERE) == Some(Some(4096)));
}

#[test]
fn twice_as_many_ways_are_too_many_and_what_came_of_them_is_content_divergent(rt: HostRuntime) {
    let alloc = rt.alloc();
    let (replica, alone) = doubled(alloc, 13).expect(&rt, "memory");
    assert!(rt; count(alloc, &replica, NOWHERE) == Some(None));
    let sets = Instabilities::from_scratch(alloc, &replica).expect(&rt, "memory");
    assert!(rt; sets.content_divergent().contains(&alone));
}

// The node of a chain with this number.
fn link(number: u16) -> Node {
    let [high, low] = number.to_be_bytes();
    let mut bytes = [0x11; 20];
    bytes[0] = high;
    bytes[1] = low;
    Node(bytes)
}

// A chain of 3,000 markers to a root that is held, and that root.
fn chain(alloc: Global) -> Option<(Replica, Node)> {
    let mut part = empty(alloc);
    let end = push(alloc, &mut part, Node::NULL, 250, Phase::Draft)?;
    for number in 1..3000u16 {
        mark(alloc, &mut part, link(number - 1), &[link(number)], 0)?;
    }
    mark(alloc, &mut part, link(2999), &[end], 0)?;
    Some((replica_of(alloc, &part)?, end))
}

// Whether the sole successors set of the node has the one alone.
fn became(alloc: Global, replica: &Replica, node: Node, end: Node) -> Option<bool> {
    match successors_sets(alloc, replica, node).ok()? {
        Sets::Family(sets) => Some(
            sets.len() == 1 && sets.iter().all(|set| set.as_slice() == [end].as_slice()),
        ),
        Sets::Overfull => Some(false),
    }
}

#[test]
fn a_long_chain_of_markers_leads_to_its_end(rt: HostRuntime) {
    let alloc = rt.alloc();
    let (replica, end) = chain(alloc).expect(&rt, "memory");
    for number in [0u16, 1, 2999] {
        assert!(rt; became(alloc, &replica, link(number), end) == Some(true));
    }
    let sets = Instabilities::from_scratch(alloc, &replica).expect(&rt, "memory");
    assert!(rt; sets.content_divergent().is_empty());
}
