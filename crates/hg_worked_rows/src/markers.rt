//! Markers byte for byte, alone and in a store, and what makes none.
use crate::making::{EMPTY, ONES, TWOS, empty, prune, replica_of_empty, text_at};
use hg_changeset::Node;
use hg_marker::{Marker, MarkerError, MarkerFault, Parents, ReadError, TextMap, decode, encode};
use hg_obsstore::{StoreFault, read_store, store_bytes};
use hg_phases::Phase;
use hg_replica::{Change, Part, Replica};
use hg_rewrite::decide;
use hg_view::Pins;
use std::alloc::Global;

// A marker by the user `bob`, without flags.
const MARKER: &[u8] =
    b"\x01\0\0\0\x08\0\x11\x11\x11\x11\x11\x11\x11\x11\x11\x11\x11\x11\x11\x11\x11\x11\x11\x11\x11\x11\
\x22\x22\x22\x22\x22\x22\x22\x22\x22\x22\x22\x22\x22\x22\x22\x22\x22\x22\x22\x22user:bob";

// A prune of the root without a text by `fleet` at `0 0`.
const PRUNED: &[u8] =
    b"\0\0\0\0\x4f\0\xb8\x0d\xe5\xd18u\x85A\xc5\xf0Re\xad\x14J\xb9\xfa\x86\xd1\xdb\
date:0 0\0operation:prune\0p1:0000000000000000000000000000000000000000\0user:fleet";

// The bytes of the marker, with others in their place from the place on.
fn changed(alloc: Global, place: usize, bytes: &[u8]) -> Option<Vec<u8>> {
    let mut changed = Vec::from_slice(alloc, &MARKER[..place.min(MARKER.len())]).ok()?;
    changed.extend_from_slice(bytes).ok()?;
    let rest = changed.len().min(MARKER.len());
    changed.extend_from_slice(&MARKER[rest..]).ok()?;
    Some(changed)
}

#[test]
fn a_marker_of_54_bytes_is_written_as_it_was_read(rt: HostRuntime) {
    let alloc = rt.alloc();
    let (marker, used) = decode(alloc, MARKER).expect(&rt, "a marker");
    assert!(rt; MARKER.len() == 54 && used == 54);
    let written = encode(&marker).expect(&rt, "memory");
    assert!(rt; written.as_slice() == MARKER);
    let mut longer = changed(alloc, 4, &[9]).expect(&rt, "memory");
    longer.push(0).expect(&rt, "memory");
    let (again, used) = decode(alloc, &longer).expect(&rt, "a marker");
    assert!(rt; used == 55 && again == marker);
}

#[test]
fn a_marker_that_is_cut_anywhere_is_truncated(rt: HostRuntime) {
    let alloc = rt.alloc();
    for len in 0..54usize {
        let cut = decode(alloc, &MARKER[..len.min(MARKER.len())]);
        let told = cut.err() == Some(ReadError::Fault(MarkerFault::Truncated));
        assert!(rt; told, "of {len} bytes");
    }
}

// What a store is refused for, of which the version byte and so many bytes of the marker are there.
fn fault_of_store(alloc: Global, len: usize) -> Option<ReadError<StoreFault>> {
    let mut bytes = Vec::from_slice(alloc, &[0]).ok()?;
    bytes
        .extend_from_slice(&MARKER[..len.min(MARKER.len())])
        .ok()?;
    read_store(alloc, &bytes).err()
}

#[test]
fn a_store_whose_marker_is_cut_anywhere_is_truncated(rt: HostRuntime) {
    let alloc = rt.alloc();
    let truncated = StoreFault::Bad(1, MarkerFault::Truncated);
    for len in 1..54usize {
        let told = fault_of_store(alloc, len) == Some(ReadError::Fault(truncated));
        assert!(rt; told, "of {len} bytes");
    }
    assert!(rt; fault_of_store(alloc, 0).is_none() && fault_of_store(alloc, 54).is_none());
}

#[test]
fn a_null_successor_and_metadata_without_a_colon_are_no_marker(rt: HostRuntime) {
    let alloc = rt.alloc();
    let null = changed(alloc, 26, &[0; 20]).expect(&rt, "memory");
    let fault = decode(alloc, &null).err();
    assert!(rt; fault == Some(ReadError::Fault(MarkerFault::NullSuccessor)));
    let equals = changed(alloc, 46, b"user=bob").expect(&rt, "memory");
    let fault = decode(alloc, &equals).err();
    assert!(rt; null.len() == 54 && equals.len() == 54);
    assert!(rt; fault == Some(ReadError::Fault(MarkerFault::BadMetadata)));
}

#[test]
fn no_bytes_are_a_store_that_is_written_as_one_byte(rt: HostRuntime) {
    let alloc = rt.alloc();
    let none = read_store(alloc, &[]).expect(&rt, "a store");
    let written = store_bytes(&none).expect(&rt, "memory");
    assert!(rt; none.len() == 0 && written.as_slice() == [0].as_slice());
}

// Why there is no marker of these successors with a pair of metadata: `x` is the predecessor, `0` the null id, and
// another byte a node.
fn refusal_of(alloc: Global, successors: &[u8], key: &[u8], value: &[u8]) -> Option<MarkerError> {
    let mut nodes = Vec::new(alloc);
    for successor in successors {
        let node = match *successor {
            b'x' => ONES,
            b'0' => Node::NULL,
            _ => TWOS,
        };
        nodes.push(node).ok()?;
    }
    let mut texts = TextMap::new(alloc);
    texts.insert(key, value).ok()?;
    match Marker::new(ONES, &nodes, 0, &texts) {
        Err(ReadError::Fault(refusal)) => Some(refusal),
        _ => None,
    }
}

// The same of a row, which has the successors, a key and its value.
fn refusal_of_row(alloc: Global, row: &[u8]) -> Option<MarkerError> {
    refusal_of(alloc, text_at(row, 0)?, text_at(row, 1)?, text_at(row, 2)?)
}

#[test]
fn what_makes_no_marker_is_told(rt: HostRuntime) {
    for (row, refusal) in [
        (b"x|k|v".as_slice(), MarkerError::SelfSuccessor),
        (b"x0|k|v", MarkerError::SelfSuccessor),
        (b"0|k|v", MarkerError::NullSuccessor),
        (b"y|a:b|v", MarkerError::BadKey),
        (b"y|k|v\0", MarkerError::BadValue),
    ] {
        assert!(rt; refusal_of_row(rt.alloc(), row) == Some(refusal));
    }
}

// A key of one byte and a colon are written with the value: together they take 1,048,576 bytes at most.
#[test]
fn metadata_and_successors_have_their_limits(rt: HostRuntime) {
    let alloc = rt.alloc();
    let many = vec![in alloc; b'y'; 256].expect(&rt, "memory");
    let refusal = refusal_of(alloc, &many, b"k", b"v");
    assert!(rt; refusal == Some(MarkerError::TooManySuccessors));
    let long = vec![in alloc; b'v'; 1_048_575].expect(&rt, "memory");
    let refusal = refusal_of(alloc, b"y", b"k", &long);
    assert!(rt; refusal == Some(MarkerError::MetaTooLong));
    let short = long.len().min(1_048_574);
    assert!(rt; refusal_of(alloc, b"y", b"k", &long[..short]).is_none());
}

// The part of the marker.
fn part_of_marker(alloc: Global) -> Option<Part> {
    let mut part = empty(alloc);
    let (marker, _) = decode(alloc, MARKER).ok()?;
    part.markers.push(marker).ok()?;
    Some(part)
}

// Whether the change has markers at these places, and nothing else.
fn has_markers(change: &Change, places: &[usize]) -> bool {
    change.added.is_empty() && change.lowered.is_empty() && change.markers.as_slice() == places
}

#[test]
fn a_marker_that_is_absorbed_again_is_nothing_new(rt: HostRuntime) {
    let alloc = rt.alloc();
    let part = part_of_marker(alloc).expect(&rt, "memory");
    let mut replica = Replica::new(alloc);
    let change = replica.absorb(&part).expect(&rt, "a change");
    assert!(rt; has_markers(&change, &[0]));
    let change = replica.absorb(&part).expect(&rt, "a change");
    assert!(rt; has_markers(&change, &[]));
    let store = replica.store();
    assert!(rt; store.len() == 1 && store.get(0) == part.markers.first());
    assert!(rt; store.with_predecessor(ONES) == [0usize].as_slice());
    assert!(rt; store.with_successor(TWOS) == [0usize].as_slice());
    assert!(rt; store.with_child(ONES).is_empty() && store.with_child(TWOS).is_empty());
}

#[test]
fn a_prune_of_a_root_records_the_null_id_as_its_parent(rt: HostRuntime) {
    let alloc = rt.alloc();
    let replica = replica_of_empty(alloc, Phase::Draft).expect(&rt, "memory");
    let op = prune(alloc, EMPTY, b"fleet").expect(&rt, "memory");
    let part = decide(alloc, &replica, &Pins::new(alloc), &op).expect(&rt, "a part");
    let marker = part.markers.first().expect(&rt, "a marker");
    let written = encode(marker).expect(&rt, "memory");
    assert!(rt; written.len() == 105 && written.as_slice() == PRUNED);
    assert!(rt; marker.parents() == Parents::One(Node::NULL));
}

// A marker of a prune by `fleet` at `0 0`, with the null id as its predecessor's parent.
fn made_prune(alloc: Global, node: Node) -> Option<Marker> {
    let mut texts = TextMap::new(alloc);
    texts.insert(b"user", b"fleet").ok()?;
    texts.insert(b"p1", &Node::NULL.to_hex()).ok()?;
    texts.insert(b"operation", b"prune").ok()?;
    texts.insert(b"date", b"0 0").ok()?;
    Marker::new(node, &[], 0, &texts).ok()
}

#[test]
fn a_marker_that_is_made_has_the_bytes_of_a_prune(rt: HostRuntime) {
    let marker = made_prune(rt.alloc(), EMPTY).expect(&rt, "a marker");
    let written = encode(&marker).expect(&rt, "memory");
    assert!(rt; written.as_slice() == PRUNED && marker.parents() == Parents::One(Node::NULL));
}
