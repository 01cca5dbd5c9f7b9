//! States that join, each of their calls with ample memory: maps, pairs of maps, and a peer.
use crate::making::{EMPTY, replica_of_empty};
use hg_changeset::Node;
use hg_join::{Actor, Both, JoinState, LowMap};
use hg_peer::{Ask, Mark, Peer, Scope};
use hg_phases::Phase;
use hg_replica::Part;
use hg_view::Kept;
use std::alloc::Global;

// The map that was given these numbers. `None` where memory ran out, as of all of these.
fn map_of(alloc: Global, numbers: &[(u8, u8)]) -> Option<LowMap<u8>> {
    let mut map = LowMap::new(alloc);
    map.absorb(&Vec::from_slice(alloc, numbers).ok()?).ok()?;
    Some(map)
}

// What a map has for the keys below 4, and 0 where it has nothing.
fn lows(map: &LowMap<u8>) -> [u8; 4] {
    [0u8, 1, 2, 3].map(|key| map.get(key).unwrap_or(0))
}

#[test]
fn a_map_keeps_the_lowest_number_that_a_key_was_given(rt: HostRuntime) {
    let alloc = rt.alloc();
    let mut map = map_of(alloc, &[(1, 5), (2, 7), (1, 3), (1, 9)]).expect(&rt, "memory");
    let other = map_of(alloc, &[(2, 4), (3, 8)]).expect(&rt, "memory");
    let copy = map.copy().expect(&rt, "memory");
    assert!(rt; lows(&map) == [0, 3, 7, 0] && lows(&other) == [0, 0, 4, 8]);
    assert!(rt; map.below(&other) == Ok(false) && map.join(&other) == Ok(()));
    assert!(rt; lows(&map) == [0, 3, 4, 8] && lows(&copy) == [0, 3, 7, 0]);
    assert!(rt; copy.below(&map) == Ok(true) && other.below(&map) == Ok(true));
}

type Pair = Both<LowMap<u8>, LowMap<u8>>;

// The pair of the maps that were given a number each.
fn pair_of(alloc: Global, first: (u8, u8), second: (u8, u8)) -> Option<Pair> {
    let first = Vec::from_slice(alloc, &[first]).ok()?;
    let second = Vec::from_slice(alloc, &[second]).ok()?;
    let mut pair = Both::new(LowMap::new(alloc), LowMap::new(alloc));
    pair.absorb(&(first, second)).ok()?;
    Some(pair)
}

// What both maps have.
fn both_lows(pair: &Pair) -> [[u8; 4]; 2] {
    [lows(pair.first()), lows(pair.second())]
}

#[test]
fn a_pair_of_maps_joins_each_with_its_own(rt: HostRuntime) {
    let alloc = rt.alloc();
    let mut pair = pair_of(alloc, (0, 5), (1, 6)).expect(&rt, "memory");
    let other = pair_of(alloc, (0, 2), (3, 9)).expect(&rt, "memory");
    assert!(rt; both_lows(&pair) == [[5, 0, 0, 0], [0, 6, 0, 0]]);
    assert!(rt; pair.below(&other) == Ok(false) && pair.join(&other) == Ok(()));
    assert!(rt; both_lows(&pair) == [[2, 0, 0, 0], [0, 6, 0, 9]] && other.below(&pair) == Ok(true));
}

#[test]
fn a_copy_of_a_pair_stays_as_it_was(rt: HostRuntime) {
    let alloc = rt.alloc();
    let mut pair = pair_of(alloc, (0, 5), (1, 6)).expect(&rt, "memory");
    let copy = pair.copy().expect(&rt, "memory");
    let lower = Vec::from_slice(alloc, &[(0, 2)]).expect(&rt, "memory");
    assert!(rt; pair.absorb(&(lower, Vec::new(alloc))) == Ok(((), ())));
    assert!(rt; both_lows(&copy) == [[5, 0, 0, 0], [0, 6, 0, 0]] && copy.below(&pair) == Ok(true));
}

// The peer that holds the root without a text as a draft.
fn peer_of_empty(alloc: Global) -> Option<Peer> {
    let replica = replica_of_empty(alloc, Phase::Draft)?;
    Some(Peer::new(Kept::new(alloc, replica).ok()?))
}

#[test]
fn a_copy_of_a_peer_has_its_pins_and_what_joins_it_has_not(rt: HostRuntime) {
    let alloc = rt.alloc();
    let mut peer = peer_of_empty(alloc).expect(&rt, "memory");
    let mut other = Peer::empty(alloc).expect(&rt, "memory");
    assert!(rt; peer.mark(&Mark::Pin(EMPTY)) == Ok(()));
    let copy = peer.copy().expect(&rt, "memory");
    assert!(rt; other.below(&peer) == Ok(true) && peer.below(&other) == Ok(false));
    assert!(rt; other.join(&peer) == Ok(()) && copy.below(&other) == Ok(true));
    assert!(rt; other.replica().phase_of(EMPTY) == Ok(Some(Phase::Draft)));
    assert!(rt; copy.kept().pins().is_pinned(EMPTY) && !other.kept().pins().is_pinned(EMPTY));
}

// The bytes of one record, of the root without a text, and of a draft bound of it: its id, no parents and no text, and
// then the bound and a store of one byte.
fn message_of_empty(alloc: Global) -> Option<Vec<u8>> {
    let mut bytes = Vec::from_slice(alloc, b"HGFX\x02\0\0\0\0\x01").ok()?;
    bytes.extend_from_slice(&EMPTY.0).ok()?;
    bytes.extend_from_slice(&[0; 44]).ok()?;
    bytes.extend_from_slice(b"\0\0\0\x01\0\0\0\x01").ok()?;
    bytes.extend_from_slice(&EMPTY.0).ok()?;
    bytes.extend_from_slice(b"\0\0\0\x01\0").ok()?;
    Some(bytes)
}

// Whether the part is of the root without a text and twice of its draft bound: each changeset that comes has one.
fn is_of_empty(part: &Part) -> bool {
    match part.changesets.as_slice() {
        [root] => root.node() == EMPTY
            && root.parents() == (Node::NULL, Node::NULL)
            && part.bounds.as_slice() == [(EMPTY, Phase::Draft); 2].as_slice()
            && part.markers.is_empty(),
        _ => false,
    }
}

#[test]
fn a_peer_of_one_changeset_offers_107_bytes_which_are_read_again(rt: HostRuntime) {
    let alloc = rt.alloc();
    let peer = peer_of_empty(alloc).expect(&rt, "memory");
    let (common, scope) = (Vec::new(alloc), Scope::Served);
    let offered = peer
        .offer(alloc, &Ask { common, scope })
        .expect(&rt, "an offer");
    let bytes = message_of_empty(alloc).expect(&rt, "memory");
    assert!(rt; bytes.len() == 107 && offered == bytes);
    assert!(rt; is_of_empty(&Peer::read(alloc, &bytes).expect(&rt, "a part")));
}
