//! Worlds of peers that run several events at once.
use crate::making::{A, ONES, commit, entry};
use hg_changeset::Node;
use hg_history::Fault;
use hg_join::NoMemory;
use hg_peer::{Ask, Mark, Peer, PeerRefusal, Scope};
use hg_phases::Phase;
use hg_replica::Change;
use hg_rewrite::{Op, Refusal};
use hg_world::{Answer, Event, EventRefusal, World};
use std::alloc::Global;

type PeerEvent = Event<Op, Ask, Mark>;

type PeerAnswer = Answer<Change, PeerRefusal, Fault>;

// What became of an event.
#[derive(Clone, Copy, PartialEq, Eq)]
enum Outcome {
    NoNode,
    NoMessage,
    // A node was added, and nothing else changed.
    Added(Node),
    // A node went down, and nothing else changed.
    Lowered(Node),
    // It was accepted, and nothing changed.
    Nothing,
    // The message has this number.
    Offered(usize),
    // The operation was refused.
    Rewrite(Refusal),
    NoMemory,
    Other,
}

// What a change is told as.
fn outcome_of_change(change: &Change) -> Outcome {
    match (change.added.as_slice(), change.lowered.as_slice()) {
        _ if !change.markers.is_empty() => Outcome::Other,
        ([], []) => Outcome::Nothing,
        ([node], []) => Outcome::Added(*node),
        ([], [node]) => Outcome::Lowered(*node),
        _ => Outcome::Other,
    }
}

// What an answer is told as.
fn outcome_of(answer: &PeerAnswer) -> Outcome {
    match answer {
        Answer::Accepted(change) => outcome_of_change(change),
        Answer::Offered(number) => Outcome::Offered(*number),
        Answer::Refused(EventRefusal::NoNode) => Outcome::NoNode,
        Answer::Refused(EventRefusal::NoMessage) => Outcome::NoMessage,
        Answer::Refused(EventRefusal::ByActor(PeerRefusal::NoMemory)) => Outcome::NoMemory,
        Answer::Refused(EventRefusal::ByState(Fault::NoMemory)) => Outcome::NoMemory,
        Answer::Refused(EventRefusal::ByActor(PeerRefusal::Rewrite(refusal))) => {
            Outcome::Rewrite(*refusal)
        }
        _ => Outcome::Other,
    }
}

// Whether the answers are these, in this order.
fn are(answers: &[PeerAnswer], wanted: &[Outcome]) -> bool {
    if answers.len() != wanted.len() {
        return false;
    }
    for (answer, want) in answers.iter().zip(wanted) {
        if outcome_of(answer) != *want {
            return false;
        }
    }
    true
}

fn offer(alloc: Global, at: usize) -> PeerEvent {
    let (common, scope) = (Vec::new(alloc), Scope::Served);
    let ask = Ask { common, scope };
    Event::Offer { at, ask }
}

fn take(at: usize, message: usize) -> PeerEvent {
    Event::Take { at, message }
}

// A commit of a draft root by `fleet`.
fn root(alloc: Global, at: usize, description: &[u8]) -> Option<PeerEvent> {
    let entry = entry(alloc, b"fleet", description)?;
    let op = commit(Node::NULL, Node::NULL, entry, false);
    Some(Event::Local { at, op })
}

fn publish(at: usize, node: Node) -> PeerEvent {
    let phase = Phase::Public;
    let op = Op::Advance { node, phase };
    Event::Local { at, op }
}

// An amend of what isn't held.
fn amend_of_nothing(alloc: Global, at: usize) -> Option<PeerEvent> {
    let entry = entry(alloc, b"fleet", b"b")?;
    let op = Op::Amend { node: ONES, entry };
    Some(Event::Local { at, op })
}

// The phase of `a` at a peer.
fn phase_at(world: &World<Peer>, at: usize) -> Option<Phase> {
    world.state(at)?.replica().phase_of(A).ok()?
}

#[test]
fn what_is_missing_is_told_and_an_own_message_changes_nothing(rt: HostRuntime) {
    let alloc = rt.alloc();
    let mut world = World::<Peer>::new(alloc, 1).expect(&rt, "memory");
    let events = [take(0, 0), offer(alloc, 1), offer(alloc, 0), take(0, 0)];
    let answers = world.run(&events).expect(&rt, "memory");
    let wanted = [
        Outcome::NoMessage,
        Outcome::NoNode,
        Outcome::Offered(0),
        Outcome::Nothing,
    ];
    assert!(rt; are(&answers, &wanted));
}

#[test]
fn late_reordered_and_repeated_messages_leave_the_same(rt: HostRuntime) {
    let alloc = rt.alloc();
    let mut world = World::<Peer>::new(alloc, 2).expect(&rt, "memory");
    let events = [
        root(alloc, 0, b"a").expect(&rt, "memory"),
        offer(alloc, 0),
        publish(0, A),
        offer(alloc, 0),
        take(1, 1),
        take(1, 0),
        take(1, 1),
    ];
    let answers = world.run(&events).expect(&rt, "memory");
    let wanted = [
        Outcome::Added(A),
        Outcome::Offered(0),
        Outcome::Lowered(A),
        Outcome::Offered(1),
        Outcome::Added(A),
        Outcome::Nothing,
        Outcome::Nothing,
    ];
    assert!(rt; are(&answers, &wanted));
    let public = Some(Phase::Public);
    assert!(rt; phase_at(&world, 0) == public && phase_at(&world, 1) == public);
}

#[test]
fn an_event_that_is_refused_changes_nothing_and_those_behind_it_are_done(rt: HostRuntime) {
    let alloc = rt.alloc();
    let mut world = World::<Peer>::new(alloc, 2).expect(&rt, "memory");
    let events = [
        root(alloc, 0, b"a").expect(&rt, "memory"),
        amend_of_nothing(alloc, 0).expect(&rt, "memory"),
        root(alloc, 0, b"a").expect(&rt, "memory"),
        offer(alloc, 0),
        take(1, 0),
    ];
    let answers = world.run(&events).expect(&rt, "memory");
    let wanted = [
        Outcome::Added(A),
        Outcome::Rewrite(Refusal::Unknown(ONES)),
        Outcome::Rewrite(Refusal::Exists(A)),
        Outcome::Offered(0),
        Outcome::Added(A),
    ];
    assert!(rt; are(&answers, &wanted));
    assert!(rt; phase_at(&world, 1) == Some(Phase::Draft));
}

// How many changesets a peer holds.
fn count(world: &World<Peer>, at: usize) -> Option<usize> {
    Some(world.state(at)?.replica().graph().len())
}

// How many of the events were refused for want of memory; all of them where none was done.
fn wanting(answers: &Result<Vec<PeerAnswer>, NoMemory>) -> usize {
    match answers {
        Ok(answers) => answers
            .iter()
            .filter(|answer| outcome_of(answer) == Outcome::NoMemory)
            .count(),
        Err(NoMemory) => 4,
    }
}

// Two commits at one peer and one at another, and one that is refused between them.
fn commits(alloc: Global) -> Option<[PeerEvent; 4]> {
    Some([
        root(alloc, 0, b"a")?,
        amend_of_nothing(alloc, 0)?,
        root(alloc, 1, b"b")?,
        root(alloc, 0, b"c")?,
    ])
}

// Where a growth is refused, either no event is done or all but one; and a further run does the rest.
#[test]
fn refused_growth_in_a_run_of_several_events_takes_all_or_one(rt: HostRuntime) {
    let alloc = rt.alloc();
    let (Some(events), Ok(mut world)) = (commits(alloc), World::<Peer>::new(alloc, 2)) else {
        return;
    };
    let answers = world.run(&events);
    let held = [count(&world, 0), count(&world, 1)];
    match wanting(&answers) {
        0 => {}
        1 => assert!(rt; world.run(&events).is_ok()),
        _ => {
            assert!(rt; answers.is_err() && held == [Some(0), Some(0)]);
            assert!(rt; wanting(&world.run(&events)) == 0);
        }
    }
    assert!(rt; count(&world, 0) == Some(2) && count(&world, 1) == Some(1));
}
