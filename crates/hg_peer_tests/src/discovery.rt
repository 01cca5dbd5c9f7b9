//! Rounds that are worked out by hand, most with each growth refused in turn.
use crate::scene::{ascending, chain, commit, many_roots, prune};
use hg_changeset::Node;
use hg_discovery::{
    Compared, Discovery, DiscoveryError, heads_in_common_compared, known, known_kept,
};
use hg_phases::Phase;
use hg_replica::Replica;
use hg_view::{Kept, Pins};
use std::alloc::Global;

// A chain of which the last changeset is hidden; the first was pruned too, but something stands on it. A secret one
// stands on the first.
fn partly_served(alloc: Global, replica: &mut Replica) -> Option<([Node; 3], Node)> {
    let nodes = chain(alloc, replica)?;
    let [a, b, c] = nodes;
    let secret = commit(alloc, replica, a, b"secret", Phase::Secret)?;
    prune(alloc, replica, c, b)?;
    prune(alloc, replica, a, Node::NULL)?;
    Some((nodes, secret))
}

#[test]
fn refused_growth_knows_nothing(rt: HostRuntime) {
    let alloc = rt.alloc();
    let pins = Pins::new(alloc);
    let mut replica = Replica::new(alloc);
    let Some(made) = partly_served(alloc, &mut replica) else {
        return;
    };
    let (nodes, secret) = made;
    let [a, b, c] = nodes;
    let asked = [secret, a, c, Node([0x11; 20]), b];
    let answers = match known(alloc, &replica, &pins, &asked) {
        Ok(answers) => answers,
        Err(_) => known(alloc, &replica, &pins, &asked).expect(&rt, "memory"),
    };
    assert!(rt; answers.as_slice() == [false, true, false, false, true].as_slice());
    let Ok(kept) = Kept::new(alloc, replica) else {
        return;
    };
    let again = match known_kept(alloc, &kept, &asked) {
        Ok(answers) => answers,
        Err(_) => known_kept(alloc, &kept, &asked).expect(&rt, "memory"),
    };
    assert!(rt; again == answers);
}

// It asks about its head first, and is told that the other side holds all but that.
#[test]
fn refused_growth_leaves_a_discovery_as_it_was(rt: HostRuntime) {
    let alloc = rt.alloc();
    let mut replica = Replica::new(alloc);
    let Some(nodes) = chain(alloc, &mut replica) else {
        return;
    };
    let [a, b, c] = nodes;
    let mut discovery = match Discovery::start(alloc, &replica) {
        Ok(discovery) => discovery,
        Err(_) => Discovery::start(alloc, &replica).expect(&rt, "memory"),
    };
    let sample = match discovery.sample() {
        Ok(sample) => sample,
        Err(_) => discovery.sample().expect(&rt, "memory"),
    };
    let [first, second] = ascending(a, b);
    assert!(rt; sample.as_slice() == [c, first, second].as_slice());
    assert!(rt; discovery.answer(&[false, true]) == Err(DiscoveryError::WrongCount));
    let answers = [false, true, true];
    if let Err(refusal) = discovery.answer(&answers) {
        assert!(rt; refusal == DiscoveryError::NoMemory && !discovery.done());
        assert!(rt; discovery.answer(&answers) == Ok(()));
    }
    let heads = match discovery.common_heads() {
        Ok(heads) => heads,
        Err(_) => discovery.common_heads().expect(&rt, "memory"),
    };
    assert!(rt; discovery.done() && heads.as_slice() == [b].as_slice());
}

// The first round leaves one changeset undecided.
#[test]
fn refused_growth_leaves_a_discovery_between_two_rounds_as_it_was(rt: HostRuntime) {
    let alloc = rt.alloc();
    let Some(replica) = many_roots(alloc, 201) else {
        return;
    };
    let Ok(mut discovery) = Discovery::start(alloc, &replica) else {
        return;
    };
    if let Err(refusal) = discovery.answer(&[true; 200]) {
        assert!(rt; refusal == DiscoveryError::NoMemory && !discovery.done());
        assert!(rt; discovery.answer(&[true; 200]) == Ok(()));
    }
    let sample = match discovery.sample() {
        Ok(sample) => sample,
        Err(_) => discovery.sample().expect(&rt, "memory"),
    };
    assert!(rt; sample.len() == 1 && !discovery.done());
}

// The heads of what two have in common that were not compared before, asked for again where memory was refused.
fn common_heads(alloc: Global, asker: &Kept, other: &Kept) -> Result<Vec<Node>, DiscoveryError> {
    match heads_in_common_compared(alloc, asker, other, &mut Compared::nothing()) {
        Ok(heads) => Ok(heads),
        Err(_) => heads_in_common_compared(alloc, asker, other, &mut Compared::nothing()),
    }
}

// Then the other side asks. It holds more, and doesn't serve all that it asks about.
#[test]
fn refused_growth_of_a_whole_discovery_is_told(rt: HostRuntime) {
    let alloc = rt.alloc();
    let (mut asker, mut other) = (Replica::new(alloc), Replica::new(alloc));
    let Some(made) = partly_served(alloc, &mut other) else {
        return;
    };
    let (nodes, _) = made;
    let [_, b, c] = nodes;
    if chain(alloc, &mut asker).is_none() {
        return;
    }
    let (Ok(asker), Ok(other)) = (Kept::new(alloc, asker), Kept::new(alloc, other)) else {
        return;
    };
    let heads = common_heads(alloc, &asker, &other).expect(&rt, "memory");
    assert!(rt; heads.as_slice() == [b].as_slice());
    let heads = common_heads(alloc, &other, &asker).expect(&rt, "memory");
    assert!(rt; heads.as_slice() == [c].as_slice());
}

#[test]
fn roots_are_asked_200_at_a_time(rt: HostRuntime) {
    let alloc = rt.alloc();
    let asker = many_roots(alloc, 450).expect(&rt, "memory");
    let other = Replica::new(alloc);
    let pins = Pins::new(alloc);
    let mut discovery = Discovery::start(alloc, &asker).expect(&rt, "memory");
    for count in [200usize, 200, 50] {
        let sample = discovery.sample().expect(&rt, "memory");
        assert!(rt; sample.len() == count && !discovery.done());
        let answers = known(alloc, &other, &pins, &sample).expect(&rt, "memory");
        assert!(rt; discovery.answer(&answers) == Ok(()));
    }
    let heads = discovery.common_heads().expect(&rt, "memory");
    assert!(rt; discovery.done() && heads.is_empty());
}

// The yes was true when it was given: then the other side prunes what it was for.
#[test]
fn what_is_pruned_after_a_yes_stays_common(rt: HostRuntime) {
    let alloc = rt.alloc();
    let pins = Pins::new(alloc);
    let (mut asker, mut other) = (Replica::new(alloc), Replica::new(alloc));
    let [a, b, c] = chain(alloc, &mut asker).expect(&rt, "memory");
    chain(alloc, &mut other).expect(&rt, "memory");
    let mut discovery = Discovery::start(alloc, &asker).expect(&rt, "memory");
    let sample = discovery.sample().expect(&rt, "memory");
    let answers = known(alloc, &other, &pins, &sample).expect(&rt, "memory");
    prune(alloc, &mut other, c, b).expect(&rt, "memory");
    prune(alloc, &mut other, b, a).expect(&rt, "memory");
    let now = known(alloc, &other, &pins, &sample).expect(&rt, "memory");
    assert!(rt; now != answers && discovery.answer(&answers) == Ok(()));
    let heads = discovery.common_heads().expect(&rt, "memory");
    assert!(rt; discovery.done() && heads.as_slice() == [c].as_slice());
    assert!(rt; asker.graph().contains(c) && other.graph().contains(c));
}
