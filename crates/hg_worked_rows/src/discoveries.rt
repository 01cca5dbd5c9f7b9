//! A chain of three, of which another side holds two: what its graph tells, what is asked about it, and what is offered
//! above what both hold.
use crate::making::{chain, operate, prune};
use hg_changeset::Node;
use hg_discovery::{Discovery, DiscoveryError, known};
use hg_message::{Scope, offer};
use hg_phases::Phase;
use hg_replica::Replica;
use hg_view::Pins;
use std::alloc::Global;

// The changesets of the chain, by their texts.
const A: Node = Node([
    0x04, 0x7b, 0x75, 0xc6, 0xd7, 0xa3, 0xef, 0x6a, 0x22, 0x43, 0xbd, 0x0e, 0x99, 0xf9, 0x4f, 0x6e,
    0xa6, 0x68, 0x35, 0x97,
]);

const B: Node = Node([
    0x54, 0x4d, 0x83, 0xe6, 0x86, 0x3f, 0x2d, 0x48, 0x1e, 0xf8, 0xc9, 0x33, 0x13, 0x53, 0x43, 0x2d,
    0xa5, 0x9f, 0xe6, 0x75,
]);

const C: Node = Node([
    0x08, 0x76, 0xf8, 0x85, 0xe6, 0x72, 0xb8, 0x03, 0xe6, 0xa3, 0x7f, 0xd0, 0x51, 0x0a, 0x28, 0x7b,
    0x26, 0x37, 0x53, 0x5b,
]);

#[test]
fn a_chain_has_ancestors_descendants_and_one_head(rt: HostRuntime) {
    let alloc = rt.alloc();
    let replica = chain(alloc, b"abc").expect(&rt, "memory");
    let graph = replica.graph();
    let above = graph.ancestors(&[C]).expect(&rt, "memory");
    let below = graph.descendants(&[B]).expect(&rt, "memory");
    let heads = graph.heads_of(&[A, B]).expect(&rt, "memory");
    assert!(rt; above.as_slice() == [A, B, C].as_slice());
    assert!(rt; below.as_slice() == [B, C].as_slice() && heads.as_slice() == [B].as_slice());
    assert!(rt; graph.is_ancestor(A, C) == Ok(true) && graph.is_ancestor(C, A) == Ok(false));
    assert!(rt; graph.is_ancestor(C, C) == Ok(true));
}

#[test]
fn one_who_holds_more_asks_for_its_head_first(rt: HostRuntime) {
    let alloc = rt.alloc();
    let asker = chain(alloc, b"abc").expect(&rt, "memory");
    let other = chain(alloc, b"ab").expect(&rt, "memory");
    let mut discovery = Discovery::start(alloc, &asker).expect(&rt, "memory");
    let sample = discovery.sample().expect(&rt, "memory");
    assert!(rt; sample.as_slice() == [C, A, B].as_slice());
    assert!(rt; discovery.answer(&[false, true]) == Err(DiscoveryError::WrongCount));
    assert!(rt; discovery.sample() == Ok(sample.clone().expect(&rt, "memory")));
    let answers = known(alloc, &other, &Pins::new(alloc), &sample).expect(&rt, "memory");
    assert!(rt; answers.as_slice() == [false, true, true].as_slice());
    assert!(rt; discovery.answer(&answers) == Ok(()) && discovery.done());
    let heads = discovery.common_heads().expect(&rt, "memory");
    assert!(rt; heads.as_slice() == [B].as_slice());
}

#[test]
fn one_who_holds_less_is_offered_the_rest(rt: HostRuntime) {
    let alloc = rt.alloc();
    let pins = Pins::new(alloc);
    let other = chain(alloc, b"abc").expect(&rt, "memory");
    let asker = chain(alloc, b"ab").expect(&rt, "memory");
    let mut discovery = Discovery::start(alloc, &asker).expect(&rt, "memory");
    let sample = discovery.sample().expect(&rt, "memory");
    assert!(rt; sample.as_slice() == [B, A].as_slice());
    let answers = known(alloc, &other, &pins, &sample).expect(&rt, "memory");
    assert!(rt; answers.as_slice() == [true, true].as_slice());
    assert!(rt; discovery.answer(&answers) == Ok(()) && discovery.done());
    let heads = discovery.common_heads().expect(&rt, "memory");
    assert!(rt; heads.as_slice() == [B].as_slice());
    let message = offer(alloc, &other, &pins, &heads, Scope::Served).expect(&rt, "an offer");
    assert!(rt; message.changesets().len() == 1 && message.changesets()[0].node() == C);
    assert!(rt; message.bounds() == [(C, Phase::Draft)].as_slice());
    assert!(rt; message.markers().is_empty());
}

// Prunes the head of the chain and then what it stood on.
fn prune_two(alloc: Global, replica: &mut Replica) -> Option<()> {
    for node in [C, B] {
        operate(alloc, replica, &prune(alloc, node, b"fleet")?)?;
    }
    Some(())
}

// The yes was true when it was given.
#[test]
fn a_yes_for_what_is_pruned_after_it_leaves_it_common(rt: HostRuntime) {
    let alloc = rt.alloc();
    let pins = Pins::new(alloc);
    let asker = chain(alloc, b"ab").expect(&rt, "memory");
    let mut other = chain(alloc, b"abc").expect(&rt, "memory");
    let mut discovery = Discovery::start(alloc, &asker).expect(&rt, "memory");
    let sample = discovery.sample().expect(&rt, "memory");
    let answers = known(alloc, &other, &pins, &sample).expect(&rt, "memory");
    prune_two(alloc, &mut other).expect(&rt, "memory");
    let now = known(alloc, &other, &pins, &sample).expect(&rt, "memory");
    assert!(rt; sample.as_slice() == [B, A].as_slice());
    assert!(rt; answers.as_slice() == [true, true].as_slice());
    assert!(rt; now.as_slice() == [false, true].as_slice());
    assert!(rt; discovery.answer(&answers) == Ok(()) && discovery.done());
    let heads = discovery.common_heads().expect(&rt, "memory");
    assert!(rt; heads.as_slice() == [B].as_slice());
    assert!(rt; asker.graph().contains(B) && other.graph().contains(B));
}
