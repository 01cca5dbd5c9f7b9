//! Markers that close a cycle where two replicas join.
use crate::making::{empty, mark, push, replica_of};
use hg_changeset::Node;
use hg_instab::Instabilities;
use hg_phases::Phase;
use hg_replica::Replica;
use hg_succ::{Sets, successors_sets};
use hg_view::{Pins, visible};
use std::alloc::Global;

// A replica of the draft roots `x` and `y`, and of the marker from one to the other.
fn rewritten(alloc: Global, from_x: bool) -> Option<(Replica, [Node; 2])> {
    let mut part = empty(alloc);
    let x = push(alloc, &mut part, Node::NULL, b"x", Phase::Draft)?;
    let y = push(alloc, &mut part, Node::NULL, b"y", Phase::Draft)?;
    if from_x {
        mark(alloc, &mut part, x, &[y], 0)?;
    } else {
        mark(alloc, &mut part, y, &[x], 0)?;
    }
    Some((replica_of(alloc, &part)?, [x, y]))
}

// Whether the node has no successors sets.
fn has_no_sets(alloc: Global, replica: &Replica, node: Node) -> bool {
    match successors_sets(alloc, replica, node) {
        Ok(Sets::Family(sets)) => sets.is_empty(),
        _ => false,
    }
}

#[test]
fn two_that_were_each_rewritten_to_the_other_are_hidden_and_have_no_sets(rt: HostRuntime) {
    let alloc = rt.alloc();
    let (mut replica, nodes) = rewritten(alloc, true).expect(&rt, "memory");
    let (other, _) = rewritten(alloc, false).expect(&rt, "memory");
    assert!(rt; replica.join(&other) == Ok(()) && replica.store().len() == 2);
    let sets = Instabilities::from_scratch(alloc, &replica).expect(&rt, "memory");
    let shown = visible(alloc, &replica, &Pins::new(alloc)).expect(&rt, "memory");
    for node in nodes {
        assert!(rt; sets.obsolete().contains(&node) && sets.extinct().contains(&node));
        assert!(rt; !shown.contains(&node) && has_no_sets(alloc, &replica, node));
    }
}
