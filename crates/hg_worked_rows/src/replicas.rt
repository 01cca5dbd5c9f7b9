//! What a replica takes in, refuses and joins.
use crate::making::{EMPTY, empty, mark, push, replica_of, replica_of_empty};
use hg_changeset::Node;
use hg_instab::Instabilities;
use hg_marker::{Marker, TextMap};
use hg_phases::Phase;
use hg_relevant::relevant;
use hg_replica::{Part, Replica};
use std::alloc::Global;

// Whether both hold the same.
fn agree(one: &Replica, other: &Replica) -> bool {
    one.is_below(other) && other.is_below(one)
}

#[test]
fn what_is_empty_joins_what_it_lacks_and_the_lower_phase(rt: HostRuntime) {
    let alloc = rt.alloc();
    let draft = replica_of_empty(alloc, Phase::Draft).expect(&rt, "memory");
    let public = replica_of_empty(alloc, Phase::Public).expect(&rt, "memory");
    let mut replica = Replica::new(alloc);
    assert!(rt; replica.join(&draft) == Ok(()) && agree(&replica, &draft));
    assert!(rt; replica.phase_of(EMPTY) == Ok(Some(Phase::Draft)));
    assert!(rt; replica.join(&draft) == Ok(()) && agree(&replica, &draft));
    assert!(rt; replica.join(&public) == Ok(()) && agree(&replica, &public));
    assert!(rt; replica.phase_of(EMPTY) == Ok(Some(Phase::Public)));
    assert!(rt; replica.graph().len() == 1);
}

// Whether what a public changeset became, by a marker with these flags, is phase-divergent.
fn is_divergent(alloc: Global, flags: u8) -> Option<bool> {
    let mut part = empty(alloc);
    let public = push(alloc, &mut part, Node::NULL, b"b", Phase::Public)?;
    let draft = push(alloc, &mut part, Node::NULL, b"f", Phase::Draft)?;
    mark(alloc, &mut part, public, &[draft], flags)?;
    let replica = replica_of(alloc, &part)?;
    let sets = Instabilities::from_scratch(alloc, &replica).ok()?;
    Some(sets.phase_divergent().contains(&draft))
}

#[test]
fn an_answer_to_what_is_public_is_not_phase_divergent(rt: HostRuntime) {
    let alloc = rt.alloc();
    assert!(rt; is_divergent(alloc, 1) == Some(false));
    assert!(rt; is_divergent(alloc, 0) == Some(true));
}

// Adds to the part that a node was pruned, which stood on another.
fn prune(alloc: Global, part: &mut Part, node: Node, parent: Node) -> Option<()> {
    let mut texts = TextMap::new(alloc);
    texts.insert(b"p1", &parent.to_hex()).ok()?;
    let marker = Marker::new(node, &[], 0, &texts).ok()?;
    part.markers.push(marker).ok()
}

// A draft chain of 3,000, of which all but the first are pruned, and the first.
fn pruned_chain(alloc: Global) -> Option<(Replica, Node)> {
    let mut part = empty(alloc);
    let first = push(alloc, &mut part, Node::NULL, b"first", Phase::Draft)?;
    let mut last = first;
    for number in 1..3000u16 {
        let node = push(alloc, &mut part, last, &number.to_be_bytes(), Phase::Draft)?;
        prune(alloc, &mut part, node, last)?;
        last = node;
    }
    Some((replica_of(alloc, &part)?, first))
}

#[test]
fn prunes_along_a_chain_of_3000_are_relevant_to_its_first(rt: HostRuntime) {
    let alloc = rt.alloc();
    let (replica, first) = pruned_chain(alloc).expect(&rt, "memory");
    let places = relevant(alloc, replica.store(), &[first]).expect(&rt, "memory");
    assert!(rt; replica.graph().len() == 3000 && places.len() == 2999);
}
