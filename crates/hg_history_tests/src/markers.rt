//! Values from outside: markers byte for byte, refusals at their limits, and each growth refused.
use crate::nodes::{NEW, OLD};
use hg_changeset::Node;
use hg_marker::{
    Marker, MarkerError, MarkerFault, Metadata, Note, Parents, ReadError, TextMap, decode, encode,
    write_marker,
};
use std::alloc::{AllocError, Global};

const OTHER: Node = Node([0x33; 20]);

// The bytes of a marker of OLD with so many of its two successors and this metadata, which is shorter than 256 bytes.
fn bytes_with(alloc: Global, count: u8, text: &[u8]) -> Result<Vec<u8>, AllocError> {
    let mut bytes = Vec::from_slice(alloc, &[count, 0, 0, 0, text.len().min(255) as u8, 0])?;
    bytes.extend_from_slice(&OLD.0)?;
    if count > 0 {
        bytes.extend_from_slice(&NEW.0)?;
    }
    if count > 1 {
        bytes.extend_from_slice(&OTHER.0)?;
    }
    bytes.extend_from_slice(text)?;
    Ok(bytes)
}

// The marker that is read, where one growth may be refused.
fn read(alloc: Global, bytes: &[u8]) -> Option<Marker> {
    let read = match decode(alloc, bytes) {
        Err(ReadError::NoMemory) => decode(alloc, bytes),
        answer => answer,
    };
    let (marker, used) = read.ok()?;
    if used == bytes.len() {
        Some(marker)
    } else {
        None
    }
}

#[test]
fn refused_growth_reads_copies_and_writes_the_same(rt: HostRuntime) {
    let alloc = rt.alloc();
    let Ok(bytes) = bytes_with(alloc, 2, b"user:bob") else {
        return;
    };
    let marker = read(alloc, &bytes).expect(&rt, "a marker");
    assert!(rt; marker.predecessor() == OLD && marker.flags() == 0);
    assert!(rt; marker.successors() == [NEW, OTHER].as_slice());
    assert!(rt; marker.meta().get(b"user") == Some(b"bob".as_slice()));
    let copy = match marker.copy() {
        Ok(copy) => copy,
        Err(AllocError) => marker.copy().expect(&rt, "memory"),
    };
    let mut written = match encode(&copy) {
        Ok(written) => written,
        Err(AllocError) => encode(&copy).expect(&rt, "memory"),
    };
    assert!(rt; written.as_slice() == bytes.as_slice());
    if write_marker(&mut written, &marker).is_err() {
        assert!(rt; written.len() == 74 && write_marker(&mut written, &marker).is_ok());
    }
    assert!(rt; written.len() == 148 && written.ends_with(&bytes));
}

// A note of an operation at the beginning of 1970 by bob, and on which parents what it prunes stood.
fn note(operation: &[u8], parents: Option<(Node, Node)>) -> Note<'_> {
    Note {
        operation,
        user: b"bob",
        secs: 0,
        offset: 0,
        parents,
    }
}

// Whether the marker of the note to so many of its two successors has this metadata, as it is written.
fn is_spelled(alloc: Global, count: u8, note: &Note<'_>, text: &[u8]) -> Option<bool> {
    let successors = [NEW, OTHER];
    let marker = Marker::of_operation(alloc, OLD, successors.get(..count as usize)?, note).ok()?;
    let written = encode(&marker).ok()?;
    Some(written == bytes_with(alloc, count, text).ok()?)
}

#[test]
fn what_is_noted_of_an_operation_is_spelled(rt: HostRuntime) {
    let alloc = rt.alloc();
    let text = b"date:0 0\0operation:amend\0user:bob";
    assert!(rt; is_spelled(alloc, 1, &note(b"amend", None), text) == Some(true));
    let text = b"date:0 0\0operation:split\0user:bob";
    assert!(rt; is_spelled(alloc, 2, &note(b"split", None), text) == Some(true));
    let text = b"date:0 0\0operation:prune\0p1:2222222222222222222222222222222222222222\0user:bob";
    let parents = Some((NEW, Node::NULL));
    assert!(rt; is_spelled(alloc, 0, &note(b"prune", parents), text) == Some(true));
    let text = b"date:0 0\0operation:prune\0p1:2222222222222222222222222222222222222222\0\
p2:3333333333333333333333333333333333333333\0user:bob";
    let parents = Some((NEW, OTHER));
    assert!(rt; is_spelled(alloc, 0, &note(b"prune", parents), text) == Some(true));
}

#[test]
fn what_is_noted_of_an_operation_is_refused(rt: HostRuntime) {
    let alloc = rt.alloc();
    for (successor, operation, refusal) in [
        (OLD, b"a\0d".as_slice(), MarkerError::SelfSuccessor),
        (NEW, b"a\0d", MarkerError::BadValue),
    ] {
        let answer = Marker::of_operation(alloc, OLD, &[successor], &note(operation, None));
        assert!(rt; answer.err() == Some(ReadError::Fault(refusal)));
    }
}

#[test]
fn reads_further_spellings(rt: HostRuntime) {
    let alloc = rt.alloc();
    let bytes = bytes_with(alloc, 1, b"user:bob").expect(&rt, "memory");
    let marker = read(alloc, &bytes).expect(&rt, "a marker");
    for (text, is_same) in [
        (b"user:bob\0".as_slice(), true),
        (b"\0user:eve\0\0user:bob", true),
        (b"user:bob\0user:eve", false),
        (b"user:bob:", false),
    ] {
        let bytes = bytes_with(alloc, 1, text).expect(&rt, "memory");
        let other = read(alloc, &bytes).expect(&rt, "a marker");
        assert!(rt; (other == marker) == is_same);
    }
}

// A marker of the null id without successors, with NULs alone as metadata; and a byte more than the limit takes.
#[test]
fn metadata_is_read_up_to_the_limit(rt: HostRuntime) {
    let alloc = rt.alloc();
    let mut bytes = vec![in alloc; 0u8; 26 + 1_048_577].expect(&rt, "memory");
    bytes[1..5].copy_from_slice(&[0, 0x10, 0, 1]);
    let longer = decode(alloc, &bytes).err();
    assert!(rt; longer == Some(ReadError::Fault(MarkerFault::BadMetadata)));
    bytes[4] = 0;
    let (marker, used) = decode(alloc, &bytes).expect(&rt, "a marker");
    assert!(rt; used == 26 + 1_048_576 && marker.predecessor() == Node::NULL);
}

// What a marker with these texts records of the parents.
fn parents_of(alloc: Global, text: &[u8]) -> Option<Parents> {
    let bytes = bytes_with(alloc, 0, text).ok()?;
    Some(read(alloc, &bytes)?.parents())
}

#[test]
fn records_parents(rt: HostRuntime) {
    for (text, parents) in [
        (
            b"p1:2222222222222222222222222222222222222222\0p2:3333333333333333333333333333333333333333".as_slice(),
            Parents::Two(NEW, OTHER),
        ),
        (
            b"p0:2222222222222222222222222222222222222222\0p1:3333333333333333333333333333333333333333",
            Parents::One(OTHER),
        ),
        (
            b"p0:\0p2:2222222222222222222222222222222222222222",
            Parents::Unrecorded,
        ),
        (
            b"p1:2222222222222222222222222222222222222222\0p2:222222222222222222222222222222222222222g",
            Parents::Unrecorded,
        ),
        (
            b"p0:222222222222222222222222222222222222222g\0user:bob",
            Parents::Empty,
        ),
    ] {
        assert!(rt; parents_of(rt.alloc(), text) == Some(parents));
    }
}

// Why a marker of OLD with so many equal successors and this entry is refused.
fn refusal_of(
    alloc: Global,
    successor: Node,
    count: usize,
    key: &[u8],
    value: &[u8],
) -> Option<MarkerError> {
    let successors = vec![in alloc; successor; count].ok()?;
    let mut texts = TextMap::new(alloc);
    texts.insert(key, value).ok()?;
    match Marker::new(OLD, &successors, 0, &texts) {
        Err(ReadError::Fault(refusal)) => Some(refusal),
        _ => None,
    }
}

// A row has the successor, how many there are, and the key and the value of an entry.
#[test]
fn refuses_fields(rt: HostRuntime) {
    let alloc = rt.alloc();
    let long = vec![in alloc; b'x'; 1_048_575].expect(&rt, "memory");
    for (successor, count, key, value, refusal) in [
        (
            OLD,
            1,
            b":".as_slice(),
            b"".as_slice(),
            MarkerError::SelfSuccessor,
        ),
        (Node::NULL, 1, b":", b"", MarkerError::NullSuccessor),
        (NEW, 256, b"a:b", b"\0", MarkerError::BadKey),
        (NEW, 256, b"k", b"x\0", MarkerError::BadValue),
        (NEW, 256, b"k", &long, MarkerError::TooManySuccessors),
        (NEW, 255, b"k", &long, MarkerError::MetaTooLong),
    ] {
        assert!(rt; refusal_of(alloc, successor, count, key, value) == Some(refusal));
    }
}

// Whether the entries of metadata are these, in this order.
fn lists(metadata: &Metadata, wanted: &[(&[u8], &[u8])]) -> bool {
    let mut left = wanted;
    for (key, value) in metadata.iter() {
        match left {
            [first, rest @ ..] if key == first.0 && value == first.1 => left = rest,
            _ => return false,
        }
    }
    left.is_empty()
}

// Sets the value of a key, where one growth may be refused.
fn set(texts: &mut TextMap, key: &[u8], value: &[u8]) -> bool {
    texts.insert(key, value).is_ok() || texts.insert(key, value).is_ok()
}

// A value with a NUL, which no marker can have, is kept all the same, until it is set anew.
#[test]
fn refused_growth_keeps_texts_as_they_were_and_passes_again(rt: HostRuntime) {
    let alloc = rt.alloc();
    let mut texts = TextMap::new(alloc);
    assert!(rt; set(&mut texts, b"user", b"\0") && set(&mut texts, b"date", b"0 0"));
    let refused = Marker::new(OLD, &[NEW], 0, &texts).err();
    assert!(rt; refused == Some(ReadError::Fault(MarkerError::BadValue)));
    assert!(rt; set(&mut texts, b"user", b"eve"));
    let marker = match Marker::new(OLD, &[NEW, OTHER], 1, &texts) {
        Err(ReadError::NoMemory) => Marker::new(OLD, &[NEW, OTHER], 1, &texts),
        answer => answer,
    };
    let marker = marker.expect(&rt, "a marker");
    assert!(rt; marker.successors() == [NEW, OTHER].as_slice() && marker.flags() == 1);
    assert!(rt; lists(marker.meta(), &[(b"date", b"0 0"), (b"user", b"eve")]));
}
