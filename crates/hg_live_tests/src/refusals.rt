//! What a node refuses, and that it changes nothing.
ghost use Rattle.std.specs.Prelude.{◌≡◌};

use crate::making::{A, MESSAGE, N1, Open, amend, id};
use hg_history::Fault;
use hg_live::{Accepted, Blank, CallRefusal, Node, NodeName, NotOffered, OpenGate};
use hg_message::{MessageFault, OfferRefusal};
use hg_peer::{PeerRefusal, Scope};
use hg_replica::Replica;
use hg_rewrite::Refusal;
use hg_view::PinRefusal;
use std::alloc::Global;
use std::marker::Brand;
use std::process::Abort;
use std::sync::Wait;
use std::test::*;

// A message of version 1 without records, whose magic ends otherwise.
const OTHER_MAGIC: &[u8] = b"HGFY\x01\0\0\0\0\0\0\0\0\0\0\0\x01\0";

// A message of version 1 without records, which has a draft bound of the id of ones.
const BOUND: &[u8] = b"HGFX\x01\0\0\0\0\0\0\0\x01\0\0\0\x01\
\x11\x11\x11\x11\x11\x11\x11\x11\x11\x11\x11\x11\x11\x11\x11\x11\x11\x11\x11\x11\0\0\0\x01\0";

#[test]
fn other_bytes_are_no_message_and_a_message_is_taken_twice(rt: HostRuntime) {
    let alloc = rt.alloc();
    let blank = Blank::new(alloc, Replica::new(alloc)).expect(&rt, "a blank");
    take_bytes::<Brand, _, _>(&rt, alloc, blank, &rt);
}

fn take_bytes<K: NodeName, R: Wait + Abort, W: Wait + Drop>(
    rt: &R,
    alloc: Global,
    blank: Blank,
    keep: W,
)
    requires opening { K.opening ≡ blank.opening }
    requires book { blank.opened ≡ K.book }
    requires name { blank.tokens.name ≡ K.name }
    requires parts { blank.tokens.parts ≡ K.parts }
{
    let node: Open<K, W> = Node::new(keep, alloc, blank, OpenGate).expect(rt, "a node");
    let mut pass = node.pass(rt).expect(rt, "a pass");
    let refusal = CallRefusal::Refused(PeerRefusal::Message(MessageFault::BadMagic));
    assert!(rt; OTHER_MAGIC.len() == 18);
    assert!(rt; node.take(rt, &mut pass, OTHER_MAGIC) == Err(refusal));
    assert!(rt; node.take(rt, &mut pass, MESSAGE) == Ok(Accepted::Shown));
    assert!(rt; node.take(rt, &mut pass, MESSAGE) == Ok(Accepted::Shown));
    let passes = vec![in alloc; pass].expect(rt, "memory");
    let Ok(replica) = node.close(passes) else {
        assert!(rt; false, "it is back");
        return;
    };
    assert_eq!(rt; replica.graph().len(), 1);
}

#[test]
fn what_a_node_refuses_is_told_and_changes_nothing(rt: HostRuntime) {
    let alloc = rt.alloc();
    let blank = Blank::new(alloc, Replica::new(alloc)).expect(&rt, "a blank");
    refuse::<Brand, _, _>(&rt, alloc, blank, &rt);
}

// A node that holds one changeset, and neither `a` nor the id of ones.
fn refuse<K: NodeName, R: Wait + Abort, W: Wait + Drop>(
    rt: &R,
    alloc: Global,
    blank: Blank,
    keep: W,
)
    requires opening { K.opening ≡ blank.opening }
    requires book { blank.opened ≡ K.book }
    requires name { blank.tokens.name ≡ K.name }
    requires parts { blank.tokens.parts ≡ K.parts }
{
    let node: Open<K, W> = Node::new(keep, alloc, blank, OpenGate).expect(rt, "a node");
    let mut pass = node.pass(rt).expect(rt, "a pass");
    assert!(rt; node.take(rt, &mut pass, MESSAGE) == Ok(Accepted::Shown));
    let (a, held) = (id(rt, A), id(rt, N1));
    let ones = hg_changeset::Node([0x11; 20]);
    let op = amend(alloc, a, b"b").expect(rt, "memory");
    let refusal = PeerRefusal::Rewrite(Refusal::Unknown(a));
    assert!(rt; node.local(rt, &mut pass, &op) == Err(CallRefusal::Refused(refusal)));
    let fault = Fault::UnknownBound(ones);
    assert!(rt; node.take(rt, &mut pass, BOUND) == Err(CallRefusal::Fault(fault)));
    let refusal = PeerRefusal::View(PinRefusal::Unknown(a));
    assert!(rt; node.pin(rt, &mut pass, a) == Err(CallRefusal::Refused(refusal)));
    let refusal = PeerRefusal::View(PinRefusal::NotPinned(held));
    assert!(rt; node.unpin(rt, &mut pass, held) == Err(CallRefusal::Refused(refusal)));
    let offered = Node::<K, (), ()>::offer(&mut pass, &[a], Scope::Served);
    let refusal = PeerRefusal::Offer(OfferRefusal::UnknownCommon(a));
    assert!(rt; offered.err() == Some(NotOffered::Refused(refusal)));
    assert_eq!(rt; pass.calls(), 1);
}
