//! A peer as a state that joins, each growth of which is refused in turn.
use hg_changeset::{Changeset, Node};
use hg_history::Fault;
use hg_join::{Actor, JoinState};
use hg_peer::{Mark, Peer};
use hg_phases::Phase;
use hg_replica::{Bounds, Part};
use std::alloc::Global;

/// The part of one draft root. `None` where memory ran out.
fn draft_root(alloc: Global) -> Option<Part> {
    let text = Vec::from_slice(alloc, b"text").ok()?;
    let changeset = Changeset::new(Node::NULL, Node::NULL, text).ok()?;
    let bounds = Bounds::from_slice(alloc, &[(changeset.node(), Phase::Draft)]).ok()?;
    let mut changesets = Vec::new(alloc);
    changesets.push(changeset).ok()?;
    Some(Part {
        changesets,
        bounds,
        markers: Vec::new(alloc),
    })
}

/// How many changesets a peer holds.
fn count(peer: &Peer) -> usize {
    peer.replica().graph().len()
}

#[test]
fn refused_growth_of_a_peer_changes_nothing_and_passes_again(rt: HostRuntime) {
    let alloc = rt.alloc();
    let (Ok(mut peer), Ok(mut other)) = (Peer::empty(alloc), Peer::empty(alloc)) else {
        return;
    };
    let Some(part) = draft_root(alloc) else {
        return;
    };
    if let Err(fault) = peer.absorb(&part) {
        assert!(rt; fault == Fault::NoMemory && count(&peer) == 0);
        assert!(rt; peer.absorb(&part).is_ok());
    }
    assert!(rt; other.below(&peer) == Ok(true) && peer.below(&other) == Ok(false));
    if let Err(fault) = other.join(&peer) {
        assert!(rt; fault == Fault::NoMemory && count(&other) == 0);
        assert!(rt; other.join(&peer) == Ok(()));
    }
    assert!(rt; peer.below(&other) == Ok(true));
}

#[test]
fn a_copy_has_the_pins_and_what_grows_keeps_its_own(rt: HostRuntime) {
    let alloc = rt.alloc();
    let part = draft_root(alloc).expect(&rt, "memory");
    let (node, _) = *part.bounds.first().expect(&rt, "a bound");
    let mut peer = Peer::empty(alloc).expect(&rt, "memory");
    peer.absorb_owned(part).expect(&rt, "a change");
    let mut pinned = peer.copy().expect(&rt, "memory");
    assert!(rt; pinned.mark(&Mark::Pin(node)) == Ok(()));
    peer.join(&pinned).expect(&rt, "one state");
    assert!(rt; !peer.kept().pins().is_pinned(node));
    let copy = pinned.copy().expect(&rt, "memory");
    assert!(rt; copy.kept().pins().is_pinned(node));
}
