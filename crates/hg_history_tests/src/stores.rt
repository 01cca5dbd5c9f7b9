//! Values from outside: stores byte for byte, markers that come again, and each growth refused.
use crate::nodes::{NEW, OLD};
use hg_changeset::Node;
use hg_join::NoMemory;
use hg_marker::{Marker, ReadError, TextMap};
use hg_obsstore::{
    Added, Store, StoreFault, check_markers, markers_bytes, markers_len_at, read_markers,
    read_store, store_bytes,
};
use std::alloc::{AllocError, Global};
use std::borrow::CowSlice;

// A marker without metadata.
fn marker(alloc: Global, predecessor: Node, successors: &[Node]) -> Option<Marker> {
    Marker::new(predecessor, successors, 0, &TextMap::new(alloc)).ok()
}

// A prune of OLD that records NEW as its first parent, and an id of threes as its second.
fn prune(alloc: Global) -> Option<Marker> {
    let mut texts = TextMap::new(alloc);
    texts.insert(b"p1", &[b'2'; 40]).ok()?;
    texts.insert(b"p2", &[b'3'; 40]).ok()?;
    Marker::new(OLD, &[], 0, &texts).ok()
}

// A version byte 0, and so many times the 54 bytes of one marker from OLD to NEW.
fn bytes_of(alloc: Global, count: u8) -> Option<Vec<u8>> {
    let mut bytes = Vec::from_slice(alloc, &[0]).ok()?;
    for _ in 0..count {
        bytes.extend_from_slice(&[1, 0, 0, 0, 8, 0]).ok()?;
        bytes.extend_from_slice(&OLD.0).ok()?;
        bytes.extend_from_slice(&NEW.0).ok()?;
        bytes.extend_from_slice(b"user:bob").ok()?;
    }
    Some(bytes)
}

#[test]
fn reads_and_writes(rt: HostRuntime) {
    let alloc = rt.alloc();
    let twice = bytes_of(alloc, 2).expect(&rt, "memory");
    assert!(rt; check_markers(&twice) == Ok(()));
    assert!(rt; check_markers(&[1]) == Err(StoreFault::BadVersion(1)));
    let listed = read_markers(alloc, &twice).expect(&rt, "markers");
    assert!(rt; listed.len() == 2);
    assert!(rt; markers_bytes(alloc, &listed).expect(&rt, "memory") == twice);
    let none = read_store(alloc, &[]).expect(&rt, "a store");
    assert!(rt; markers_len_at(&none, &[]) == Some(1));
}

// A marker that comes again is left out.
#[test]
fn refused_growth_reads_and_writes_the_same(rt: HostRuntime) {
    let alloc = rt.alloc();
    let (Some(once), Some(twice)) = (bytes_of(alloc, 1), bytes_of(alloc, 2)) else {
        return;
    };
    let store = match read_store(alloc, &twice) {
        Err(ReadError::NoMemory) => read_store(alloc, &twice),
        answer => answer,
    };
    let store = store.expect(&rt, "a store");
    let written = match store_bytes(&store) {
        Ok(written) => written,
        Err(AllocError) => store_bytes(&store).expect(&rt, "memory"),
    };
    assert!(rt; written == once && once.len() == 55);
}

// What becomes of a marker; `None` where memory was refused.
fn added(store: &mut Store, marker: Option<Marker>) -> Option<Added> {
    store.add(marker?).ok()
}

// The second place of a list takes memory of its own.
#[test]
fn refused_growth_adds_nothing_and_each_mention_is_told(rt: HostRuntime) {
    let alloc = rt.alloc();
    let mut store = Store::new(alloc);
    if added(&mut store, marker(alloc, OLD, &[NEW])).is_none() {
        assert!(rt; store.len() == 0 && store.with_predecessor(OLD).is_empty());
        assert!(rt; added(&mut store, marker(alloc, OLD, &[NEW])) == Some(Added::New));
    }
    if added(&mut store, prune(alloc)).is_none() {
        assert!(rt; store.len() == 1 && store.with_child(NEW).is_empty());
        assert!(rt; added(&mut store, prune(alloc)) == Some(Added::New));
    }
    let again = prune(alloc);
    assert!(rt; again.is_none() || added(&mut store, again) == Some(Added::Known));
    let mentions = store.mentions(NEW);
    assert!(rt; mentions.as_predecessor().is_empty());
    assert!(rt; mentions.as_successor() == [0usize].as_slice());
    assert!(rt; mentions.as_parent() == [1usize].as_slice());
    assert!(rt; store.with_predecessor(OLD) == [0usize, 1].as_slice());
    assert!(rt; store.with_child(Node([0x33; 20])) == [1usize].as_slice());
}

// Nine markers of OLD, each with a successor of its own. The ninth takes memory of its own where it is taken in.
fn rewrites(alloc: Global) -> Option<Vec<Marker>> {
    let mut part = Vec::new(alloc);
    for number in 0..9u8 {
        part.push(marker(alloc, OLD, &[Node([number + 100; 20])])?)
            .ok()?;
    }
    Some(part)
}

// Whether nothing is there, nor is anything named, but by the prune.
fn is_the_pruned(store: &Store) -> bool {
    let named = [OLD, NEW, Node([0x33; 20])];
    store.len() == 1
        && store.with_predecessor(OLD) == [0usize].as_slice()
        && store.named() == named.as_slice()
}

#[test]
fn refused_growth_takes_nothing_in_and_passes_again(rt: HostRuntime) {
    let alloc = rt.alloc();
    let (Some(part), Some(pruned)) = (rewrites(alloc), prune(alloc)) else {
        return;
    };
    let mut store = Store::new(alloc);
    if store.add(pruned).is_err() {
        return;
    }
    let mut copy = match store.copy() {
        Ok(copy) => copy,
        Err(NoMemory) => store.copy().expect(&rt, "memory"),
    };
    let places = match store.absorb(CowSlice::Borrowed(&part)) {
        Ok(places) => places,
        Err(NoMemory) => {
            assert!(rt; is_the_pruned(&store));
            store
                .absorb(CowSlice::Borrowed(&part))
                .expect(&rt, "memory")
        }
    };
    assert!(rt;
        places.len() == 9 && store.with_predecessor(OLD).len() == 10 && store.named().len() == 12
    );
    if copy.join(&store).is_err() {
        assert!(rt; is_the_pruned(&copy) && copy.join(&store).is_ok());
    }
    assert!(rt; copy == store && copy.with_predecessor(OLD).len() == 10);
    copy.truncate(1);
    assert!(rt; is_the_pruned(&copy));
}

#[test]
fn refused_growth_moves_nothing_in_and_passes_again(rt: HostRuntime) {
    let alloc = rt.alloc();
    let (Some(part), Some(same)) = (rewrites(alloc), rewrites(alloc)) else {
        return;
    };
    let mut store = Store::new(alloc);
    let places = match store.absorb(CowSlice::Owned(part)) {
        Ok(places) => places,
        Err(NoMemory) => store.absorb(CowSlice::Owned(same)).expect(&rt, "memory"),
    };
    assert!(rt; places.len() == 9 && store.with_predecessor(OLD).len() == 9);
}
