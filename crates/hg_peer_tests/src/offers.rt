//! Offers of a few changesets: what is in them, and in which order; each growth refused in turn.
use crate::rows::{ROOT, SERVED, WHOLE, child_above_root};
use crate::scene::{ascending, commit, many_roots, prune, rewrite};
use hg_changeset::Node;
use hg_message::{Message, OfferRefusal, Outgoing, Scope, offer};
use hg_phases::Phase;
use hg_replica::Replica;
use hg_view::{Kept, Pins};
use std::alloc::Global;
use std::process::Abort;

// A public a, draft b and c on it, a draft d on b that was pruned, a secret e on b, and a marker from elsewhere to a.
fn scene(alloc: Global, replica: &mut Replica) -> Option<[Node; 4]> {
    let a = commit(alloc, replica, Node::NULL, b"a", Phase::Public)?;
    let b = commit(alloc, replica, a, b"b", Phase::Draft)?;
    let c = commit(alloc, replica, a, b"c", Phase::Draft)?;
    let d = commit(alloc, replica, b, b"d", Phase::Draft)?;
    let e = commit(alloc, replica, b, b"e", Phase::Secret)?;
    prune(alloc, replica, d, b)?;
    rewrite(alloc, replica, Node([0x11; 20]), &[e], (b"user", b"bob"))?;
    rewrite(alloc, replica, Node([0x22; 20]), &[a], (b"user", b"bob"))?;
    Some([a, b, c, d])
}

// What is offered, where one growth may be refused.
fn offered(rt: &impl Abort, alloc: Global, replica: &Replica, scope: Scope) -> Message {
    let pins = Pins::new(alloc);
    match offer(alloc, replica, &pins, &[], scope) {
        Ok(message) => message,
        Err(refusal) => {
            assert!(rt; refusal == OfferRefusal::NoMemory);
            offer(alloc, replica, &pins, &[], scope).expect(rt, "memory")
        }
    }
}

// Whether the changesets are these, in this order.
fn are(message: &Message, nodes: &[Node]) -> bool {
    if message.changesets().len() != nodes.len() {
        return false;
    }
    for (changeset, node) in message.changesets().iter().zip(nodes) {
        if changeset.node() != *node {
            return false;
        }
    }
    true
}

#[test]
fn refused_growth_offers_nothing(rt: HostRuntime) {
    let alloc = rt.alloc();
    let mut replica = Replica::new(alloc);
    let Some(nodes) = scene(alloc, &mut replica) else {
        return;
    };
    let [a, b, c, d] = nodes;
    let served = offered(&rt, alloc, &replica, Scope::Served);
    assert!(rt; are(&served, &[a, b, c]) && served.markers().len() == 2);
    let [first, second] = ascending(b, c);
    let bounds = [
        (a, Phase::Public),
        (first, Phase::Draft),
        (second, Phase::Draft),
    ];
    assert!(rt; served.bounds() == bounds.as_slice());
    let whole = offered(&rt, alloc, &replica, Scope::Whole);
    assert!(rt; are(&whole, &[a, b, c, d]) && whole.markers().len() == 3);
}

// Many roots. The first came in place of something, two children of the second were pruned, and one marker tells of
// none of them.
fn many_roots_and_few_markers(alloc: Global) -> Option<Replica> {
    let mut replica = many_roots(alloc, 64)?;
    let first = replica.graph().node_at(0)?;
    let second = replica.graph().node_at(1)?;
    let elsewhere = Node([0x55; 20]);
    rewrite(
        alloc,
        &mut replica,
        Node([0x11; 20]),
        &[first],
        (b"user", b"bob"),
    )?;
    prune(alloc, &mut replica, Node([0x22; 20]), second)?;
    prune(alloc, &mut replica, Node([0x33; 20]), second)?;
    rewrite(
        alloc,
        &mut replica,
        Node([0x44; 20]),
        &[elsewhere],
        (b"user", b"bob"),
    )?;
    Some(replica)
}

#[test]
fn refused_growth_offers_nothing_where_markers_are_few(rt: HostRuntime) {
    let alloc = rt.alloc();
    let Some(replica) = many_roots_and_few_markers(alloc) else {
        return;
    };
    let message = offered(&rt, alloc, &replica, Scope::Served);
    assert!(rt; message.changesets().len() == 64 && message.markers().len() == 3);
    for (place, byte) in [0x11, 0x22, 0x33].iter().enumerate() {
        assert!(rt; message.markers()[place].predecessor() == Node([*byte; 20]));
    }
}

// A kept replica of ROOT, and of what the bytes bring it.
fn with_child(alloc: Global, bytes: &[u8]) -> Option<Kept> {
    let mut replica = Replica::new(alloc);
    commit(alloc, &mut replica, Node::NULL, b"a", Phase::Public)?;
    let part = Message::from_bytes(alloc, bytes).ok()?.into_part().ok()?;
    replica.absorb_owned(part).ok()?;
    Kept::new(alloc, replica).ok()
}

// What goes out above ROOT, where one growth may be refused.
fn above_root<'a>(rt: &impl Abort, alloc: Global, kept: &'a Kept, scope: Scope) -> Outgoing<'a> {
    match Outgoing::above_kept(alloc, kept, &[ROOT], scope) {
        Ok(found) => found,
        Err(refusal) => {
            assert!(rt; refusal == OfferRefusal::NoMemory);
            Outgoing::above_kept(alloc, kept, &[ROOT], scope).expect(rt, "memory")
        }
    }
}

// The bytes that are written, where one growth may be refused.
fn written(rt: &impl Abort, found: &Outgoing) -> Vec<u8> {
    match found.to_bytes() {
        Ok(written) => written,
        Err(refusal) => {
            assert!(rt; refusal == OfferRefusal::NoMemory);
            found.to_bytes().expect(rt, "memory")
        }
    }
}

// The whole differs in its scope alone, since nothing is hidden and the marker leads to what is served.
#[test]
fn refused_growth_writes_nothing_that_goes_out(rt: HostRuntime) {
    let alloc = rt.alloc();
    let Some(bytes) = child_above_root(alloc, SERVED) else {
        return;
    };
    let Some(kept) = with_child(alloc, &bytes) else {
        return;
    };
    let found = above_root(&rt, alloc, &kept, Scope::Served);
    assert!(rt; written(&rt, &found) == bytes);
    let Some(bytes) = child_above_root(alloc, WHOLE) else {
        return;
    };
    let found = above_root(&rt, alloc, &kept, Scope::Whole);
    assert!(rt; written(&rt, &found) == bytes);
}
