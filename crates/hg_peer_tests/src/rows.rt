//! Messages byte for byte, field by field from the format. `None` where memory ran out.
use hg_message::{Message, Node};
use hg_replica::Replica;
use std::alloc::Global;

/// The SHA-1 of 40 zero bytes: the root without a text.
pub const EMPTY: Node = Node([
    0xb8, 0x0d, 0xe5, 0xd1, 0x38, 0x75, 0x85, 0x41, 0xc5, 0xf0, 0x52, 0x65, 0xad, 0x14, 0x4a, 0xb9,
    0xfa, 0x86, 0xd1, 0xdb,
]);

/// The SHA-1 of 40 zero bytes and `a`: the root with the text `a`.
pub const ROOT: Node = Node([
    0x04, 0x7b, 0x75, 0xc6, 0xd7, 0xa3, 0xef, 0x6a, 0x22, 0x43, 0xbd, 0x0e, 0x99, 0xf9, 0x4f, 0x6e,
    0xa6, 0x68, 0x35, 0x97,
]);

/// The SHA-1 of 20 zero bytes, ROOT and `second`: the child of ROOT with the text `second`.
pub const CHILD: Node = Node([
    0xf8, 0x70, 0x9b, 0xcd, 0xb0, 0xfa, 0x16, 0xb8, 0x7b, 0xbd, 0x0a, 0x38, 0x3d, 0xb8, 0x86, 0xd8,
    0xe0, 0x7e, 0x8e, 0xd4,
]);

/// What a message of version 1 begins with, before the count of records.
pub const FIRST: &[u8] = b"HGFX\x01";

/// What a message of version 2 and the served scope begins with.
pub const SERVED: &[u8] = b"HGFX\x02\0";

/// What a message of version 2 and the whole scope begins with.
pub const WHOLE: &[u8] = b"HGFX\x02\x01";

/// The message without changesets, bounds and markers, as it is written: what is served.
pub const NOTHING: &[u8] = b"HGFX\x02\0\0\0\0\0\0\0\0\0\0\0\0\x01\0";

/// The message of the changeset EMPTY and a draft bound for it, which begins so.
///
/// With version 1 its fields begin at 0 (magic), 4 (version), 5 (count), 9 (node), 29 and 49 (parents), 69 (length of
/// the text), 73 (count of bounds), 77 (phase), 81 (node), 101 (length of the store) and 105 (store), and it has 106
/// bytes. With version 2 the scope is at 5, all after it is one later, and it has 107 bytes.
pub fn one_changeset(alloc: Global, head: &[u8]) -> Option<Vec<u8>> {
    let mut bytes = Vec::from_slice(alloc, head).ok()?;
    bytes.extend_from_slice(b"\0\0\0\x01").ok()?;
    bytes.extend_from_slice(&EMPTY.0).ok()?;
    bytes.extend_from_slice(&[0; 44]).ok()?;
    bytes.extend_from_slice(b"\0\0\0\x01\0\0\0\x01").ok()?;
    bytes.extend_from_slice(&EMPTY.0).ok()?;
    bytes.extend_from_slice(b"\0\0\0\x01\0").ok()?;
    Some(bytes)
}

/// The message of ROOT and CHILD, the latter with these parents, of the bounds (ROOT, public) and (CHILD, secret), and
/// of one marker twice. It begins so.
///
/// With version 1 its fields begin at 0 (magic), 4 (version), 5 (count), 9, 29, 49, 69 and 73 (ROOT's record), 74, 94,
/// 114, 134 and 138 (CHILD's), 144 (count of bounds), 148 and 152, 172 and 176 (bounds), 196 (length of the store) and
/// 200 (store). The markers begin at 201 and 255, and it has 309 bytes. With version 2 the scope is at 5, all after it
/// is one later, and it has 310 bytes.
pub fn all_kinds(alloc: Global, head: &[u8], p: Node, q: Node) -> Option<Vec<u8>> {
    let mut bytes = Vec::from_slice(alloc, head).ok()?;
    bytes.extend_from_slice(b"\0\0\0\x02").ok()?;
    push_record(&mut bytes, ROOT, Node::NULL, Node::NULL, b"\0\0\0\x01a")?;
    push_record(&mut bytes, CHILD, p, q, b"\0\0\0\x06second")?;
    bytes.extend_from_slice(b"\0\0\0\x02\0\0\0\0").ok()?;
    bytes.extend_from_slice(&ROOT.0).ok()?;
    bytes.extend_from_slice(b"\0\0\0\x02").ok()?;
    bytes.extend_from_slice(&CHILD.0).ok()?;
    bytes.extend_from_slice(&[0, 0, 0, 109, 0]).ok()?;
    push_marker(&mut bytes, Node([0x22; 20]))?;
    push_marker(&mut bytes, Node([0x22; 20]))?;
    Some(bytes)
}

/// What is offered above ROOT, which is public, where CHILD stands on it and is draft, and a marker leads to CHILD: the
/// message of CHILD, of the bounds (ROOT, public) and (CHILD, draft), and of the marker. It begins so.
pub fn child_above_root(alloc: Global, head: &[u8]) -> Option<Vec<u8>> {
    let mut bytes = Vec::from_slice(alloc, head).ok()?;
    bytes.extend_from_slice(b"\0\0\0\x01").ok()?;
    push_record(&mut bytes, CHILD, ROOT, Node::NULL, b"\0\0\0\x06second")?;
    bytes.extend_from_slice(b"\0\0\0\x02\0\0\0\0").ok()?;
    bytes.extend_from_slice(&ROOT.0).ok()?;
    bytes.extend_from_slice(b"\0\0\0\x01").ok()?;
    bytes.extend_from_slice(&CHILD.0).ok()?;
    bytes.extend_from_slice(&[0, 0, 0, 55, 0]).ok()?;
    push_marker(&mut bytes, CHILD)?;
    Some(bytes)
}

/// A replica that took in the message.
pub fn holder(alloc: Global, bytes: &[u8]) -> Option<Replica> {
    let part = Message::from_bytes(alloc, bytes).ok()?.into_part().ok()?;
    let mut replica = Replica::new(alloc);
    replica.absorb(&part).ok()?;
    Some(replica)
}

// A record, with the length of its text before the text.
fn push_record(bytes: &mut Vec<u8>, node: Node, p: Node, q: Node, text: &[u8]) -> Option<()> {
    bytes.extend_from_slice(&node.0).ok()?;
    bytes.extend_from_slice(&p.0).ok()?;
    bytes.extend_from_slice(&q.0).ok()?;
    bytes.extend_from_slice(text).ok()
}

// The 54 bytes of a marker from 20 times 11 to this node by the user `bob`.
fn push_marker(bytes: &mut Vec<u8>, new: Node) -> Option<()> {
    bytes.extend_from_slice(&[1, 0, 0, 0, 8, 0]).ok()?;
    bytes.extend_from_slice(&[0x11; 20]).ok()?;
    bytes.extend_from_slice(&new.0).ok()?;
    bytes.extend_from_slice(b"user:bob").ok()
}
