//! Single calls of a peer: the bytes that it offers and reads.
use crate::rows::NOTHING;
use hg_join::Actor;
use hg_peer::{Ask, Peer, Scope};
use hg_replica::Replica;
use hg_view::Kept;

#[test]
fn a_peer_of_nothing_offers_and_takes_a_message_of_nothing(rt: HostRuntime) {
    let alloc = rt.alloc();
    let mut peer = Peer::new(Kept::new(alloc, Replica::new(alloc)).expect(&rt, "memory"));
    let ask = Ask {
        common: Vec::new(alloc),
        scope: Scope::Served,
    };
    let bytes = peer.offer(alloc, &ask).expect(&rt, "an offer");
    assert!(rt; bytes.as_slice() == NOTHING);
    let part = Peer::read(alloc, NOTHING).expect(&rt, "a part");
    assert!(rt; part.changesets.is_empty() && part.bounds.is_empty() && part.markers.is_empty());
    assert!(rt; peer.read_at(alloc, NOTHING).is_ok() && peer.take(alloc, NOTHING).is_ok());
}
