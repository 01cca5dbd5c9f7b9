//! Messages byte for byte, and what a replica takes of them.
use crate::making::{EMPTY, ONES, TWOS};
use hg_changeset::{Changeset, Node};
use hg_marker::{Marker, TextMap};
use hg_message::{Message, Scope};
use hg_phases::Phase;
use hg_replica::{Fault, Part, Replica};
use std::alloc::Global;

// The messages of an empty replica: no records, no bounds, and a store of one byte.
const NOTHING_OF_VERSION_1: &[u8] = b"HGFX\x01\0\0\0\0\0\0\0\0\0\0\0\x01\0";

const NOTHING: &[u8] = b"HGFX\x02\0\0\0\0\0\0\0\0\0\0\0\0\x01\0";

#[test]
fn nothing_is_18_bytes_of_version_1_and_is_written_in_19_of_version_2(rt: HostRuntime) {
    let alloc = rt.alloc();
    assert!(rt; NOTHING_OF_VERSION_1.len() == 18 && NOTHING.len() == 19);
    let message = Message::from_bytes(alloc, NOTHING_OF_VERSION_1).expect(&rt, "a message");
    assert!(rt; message.scope() == Scope::Served && message.changesets().is_empty());
    assert!(rt; message.bounds().is_empty() && message.markers().is_empty());
    let written = message.to_bytes().expect(&rt, "memory");
    assert!(rt; written.as_slice() == NOTHING);
}

// Why an empty replica doesn't take the message without records that has a draft bound of this node.
fn fault_of_bound(alloc: Global, node: Node) -> Option<Fault> {
    let mut bytes = Vec::from_slice(alloc, b"HGFX\x02\0\0\0\0\0\0\0\0\x01\0\0\0\x01").ok()?;
    bytes.extend_from_slice(&node.0).ok()?;
    bytes.extend_from_slice(b"\0\0\0\x01\0").ok()?;
    let part = Message::from_bytes(alloc, &bytes).ok()?.into_part().ok()?;
    Replica::new(alloc).absorb(&part).err()
}

#[test]
fn a_message_with_a_bound_of_what_is_not_held_is_read_and_not_absorbed(rt: HostRuntime) {
    let alloc = rt.alloc();
    assert!(rt; fault_of_bound(alloc, Node::NULL) == Some(Fault::NullBound));
    assert!(rt; fault_of_bound(alloc, ONES) == Some(Fault::UnknownBound(ONES)));
}

// The message of the root without a text, a public bound of it and a marker.
fn message_of_each(alloc: Global) -> Option<Message> {
    let root = Changeset::new(Node::NULL, Node::NULL, Vec::new(alloc)).ok()?;
    let marker = Marker::new(ONES, &[TWOS], 0, &TextMap::new(alloc)).ok()?;
    let bounds = Vec::from_slice(alloc, &[(EMPTY, Phase::Public)]).ok()?;
    let (mut changesets, mut markers) = (Vec::new(alloc), Vec::new(alloc));
    changesets.push(root).ok()?;
    markers.push(marker).ok()?;
    Message::new(Scope::Whole, changesets, bounds, markers).ok()
}

// Whether the part is of these three, and of a draft bound: what is passed on is no longer secret.
fn has_each(part: &Part) -> bool {
    match (part.changesets.as_slice(), part.markers.as_slice()) {
        ([root], [marker]) => root.node() == EMPTY
            && root.text().is_empty()
            && part.bounds.as_slice() == [(EMPTY, Phase::Public), (EMPTY, Phase::Draft)].as_slice()
            && marker.predecessor() == ONES
            && marker.successors() == [TWOS].as_slice(),
        _ => false,
    }
}

#[test]
fn a_message_and_its_copy_have_what_it_was_made_of_as_their_part(rt: HostRuntime) {
    let alloc = rt.alloc();
    let message = message_of_each(alloc).expect(&rt, "memory");
    let copy = message.copy().expect(&rt, "memory");
    assert!(rt; message.scope() == Scope::Whole && copy.scope() == Scope::Whole);
    assert!(rt; has_each(&message.part().expect(&rt, "memory")));
    assert!(rt; has_each(&copy.part().expect(&rt, "memory")));
}
