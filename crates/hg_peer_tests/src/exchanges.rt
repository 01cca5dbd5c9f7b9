//! Events over peers, each growth of which is refused in turn. What events are answered is shown by cases of
//! `examples/`.
use crate::scene::entry;
use hg_changeset::Node;
use hg_history::Fault;
use hg_join::NoMemory;
use hg_peer::{Ask, Mark, Numbered, Peer, PeerRefusal, Scope};
use hg_replica::Change;
use hg_rewrite::Op;
use hg_world::{Answer, Event, World};
use std::alloc::Global;
use std::process::Abort;

type PeerEvent = Event<Op, Ask, Mark>;

type PeerAnswer = Answer<Change, PeerRefusal, Fault>;

/// The draft root with the description `a`, of user `fleet` at `0 0`; its id was computed outside.
const A: Node = Node([
    0xf9, 0x6c, 0xa3, 0x97, 0x38, 0xe6, 0x58, 0x8d, 0x0b, 0xf7, 0x02, 0x0c, 0xd1, 0xd4, 0x4a, 0x23,
    0x77, 0x4c, 0x1b, 0x77,
]);

/// An offer of a scope to one that has nothing.
fn offer_of(alloc: Global, scope: Scope) -> PeerEvent {
    let common = Vec::new(alloc);
    let ask = Ask { common, scope };
    Event::Offer { at: 0, ask }
}

/// What is done at the first peer.
fn local(op: Op) -> PeerEvent {
    Event::Local { at: 0, op }
}

/// A commit of `a`.
fn commit(alloc: Global) -> Option<PeerEvent> {
    let (p, q, secret) = (Node::NULL, Node::NULL, false);
    let entry = entry(alloc, b"a")?;
    Some(local(Op::Commit {
        p,
        q,
        entry,
        secret,
    }))
}

/// The event of this number, of each kind: a pin keeps `a` in view where it is amended, until it is taken away and `a`
/// is in no message of what is served, but in that of the whole.
fn event(alloc: Global, number: usize) -> Option<PeerEvent> {
    let (node, mark) = (A, Mark::Pin(A));
    match number {
        0 => commit(alloc),
        1 => Some(Event::Mark { at: 0, mark }),
        2 => {
            let entry = entry(alloc, b"b")?;
            Some(local(Op::Amend { node, entry }))
        }
        3 => {
            let mark = Mark::Unpin(A);
            Some(Event::Mark { at: 0, mark })
        }
        4 => Some(offer_of(alloc, Scope::Served)),
        5 => Some(offer_of(alloc, Scope::Whole)),
        6 => Some(Event::Take { at: 1, message: 0 }),
        _ => Some(Event::Take { at: 1, message: 1 }),
    }
}

/// Whether the event was not refused. What refuses one is want of memory alone.
fn is_accepted(rt: &impl Abort, answers: Result<Vec<PeerAnswer>, NoMemory>) -> bool {
    let Ok(answers) = answers else {
        return false;
    };
    match answers.first() {
        Some(Answer::Refused(refusal)) => {
            assert!(rt; refusal.number().is_none());
            false
        }
        _ => true,
    }
}

/// How many changesets and markers the peer at the place holds, and how many pins it has.
fn counts(world: &World<Peer>, at: usize) -> Option<[usize; 3]> {
    let peer = world.state(at)?;
    let replica = peer.replica();
    let pins = peer.kept().pins().nodes().len();
    Some([replica.graph().len(), replica.store().len(), pins])
}

#[test]
fn refused_growth_of_an_event_leaves_all_as_it_was_and_passes_again(rt: HostRuntime) {
    let alloc = rt.alloc();
    let Ok(mut world) = World::<Peer>::new(alloc, 2) else {
        return;
    };
    for number in 0..8 {
        let Some(event) = event(alloc, number) else {
            return;
        };
        let events = [event];
        let before = [counts(&world, 0), counts(&world, 1)];
        if !is_accepted(&rt, world.run(&events)) {
            assert!(rt; [counts(&world, 0), counts(&world, 1)] == before);
            assert!(rt; is_accepted(&rt, world.run(&events)));
        }
    }
    assert!(rt; counts(&world, 0) == Some([2, 1, 0]));
    assert!(rt; counts(&world, 1) == Some([2, 1, 0]));
}
