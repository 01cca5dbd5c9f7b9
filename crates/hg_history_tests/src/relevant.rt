//! Values from outside: which of a few markers are told, a long line of prunes, and each growth refused.
use hg_changeset::Node;
use hg_marker::{Marker, TextMap};
use hg_obsstore::Store;
use hg_relevant::relevant;
use std::alloc::{AllocError, Global};

// The node with this number, which isn't the null id.
fn node(number: u32) -> Node {
    let mut id = [0x40; 20];
    id[..4].copy_from_slice(&number.to_be_bytes());
    Node(id)
}

// Adds a marker that records this parent, if any.
fn add(
    alloc: Global,
    store: &mut Store,
    predecessor: u32,
    successors: &[Node],
    parent: Option<u32>,
) -> Option<()> {
    let mut texts = TextMap::new(alloc);
    if let Some(parent) = parent {
        texts.insert(b"p1", &node(parent).to_hex()).ok()?;
    }
    let marker = Marker::new(node(predecessor), successors, 0, &texts).ok()?;
    store.add(marker).ok()?;
    Some(())
}

// 1 was rewritten to 2 and that to 3, which was pruned from 9; 4 was pruned from 3; 5 was split into 3 and 6; 6 was
// rewritten to 7, which records 3 as a parent though it isn't pruned.
fn rewrites(alloc: Global) -> Option<Store> {
    let mut store = Store::new(alloc);
    for (predecessor, successors, parent) in [
        (1, [node(2)].as_slice(), None),
        (2, &[node(3)], None),
        (3, &[], Some(9)),
        (4, &[], Some(3)),
        (5, &[node(3), node(6)], None),
        (6, &[node(7)], Some(3)),
    ] {
        add(alloc, &mut store, predecessor, successors, parent)?;
    }
    Some(store)
}

#[test]
fn refused_growth_tells_the_same_line_and_what_was_pruned_from_it(rt: HostRuntime) {
    let alloc = rt.alloc();
    let Some(store) = rewrites(alloc) else {
        return;
    };
    for (number, places) in [
        (1, [].as_slice()),
        (2, &[0]),
        (3, &[0, 1, 2, 3, 4]),
        (4, &[3]),
        (5, &[]),
        (7, &[4, 5]),
        (9, &[0, 1, 2, 3, 4]),
    ] {
        let told = match relevant(alloc, &store, &[node(number)]) {
            Ok(told) => told,
            Err(AllocError) => relevant(alloc, &store, &[node(number)]).expect(&rt, "memory"),
        };
        assert!(rt; told.as_slice() == places, "of {number}");
    }
}

// Each of the nodes 1 to 2,999 was pruned from the one before.
#[test]
fn follows_a_long_line_of_prunes(rt: HostRuntime) {
    let alloc = rt.alloc();
    let mut store = Store::new(alloc);
    for number in 1..3000u32 {
        add(alloc, &mut store, number, &[], Some(number - 1)).expect(&rt, "memory");
    }
    let told = relevant(alloc, &store, &[node(0)]).expect(&rt, "memory");
    assert!(rt; told.len() == 2999);
}
