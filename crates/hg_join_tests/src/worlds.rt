//! A world of prices: what events are answered, and each growth refused. What is kept back is not told.
use crate::prices::{PriceRefusal, Prices};
use hg_join::NoMemory;
use hg_world::{Answer, Event, EventRefusal, World};
use std::alloc::Global;

/// A quote, an offer of the prices of some items, a message that is taken, or an item that is to be kept back.
type PriceEvent = Event<(u8, u8), Vec<u8>, u8>;

/// What becomes of it.
type PriceAnswer = Answer<(), PriceRefusal, NoMemory>;

/// An offer of the price of item 1.
fn offer_of(alloc: Global) -> Option<PriceEvent> {
    let ask = [1].to_vec(alloc).ok()?;
    Some(Event::Offer { at: 0, ask })
}

/// The price of item 1 at a node.
fn price_at(world: &World<Prices>, at: usize) -> Option<u8> {
    world.state(at)?.get(1)
}

/// Whether the events are given one answer, which is this.
fn is_answered(world: &mut World<Prices>, events: &[PriceEvent], answer: &PriceAnswer) -> bool {
    match world.run(events) {
        Ok(answers) => answers.first() == Some(answer),
        Err(NoMemory) => false,
    }
}

// Each event is done by a second call where a growth is refused.
#[test]
fn refused_growth_changes_nothing_and_each_event_is_answered_as_ever(rt: HostRuntime) {
    let alloc = rt.alloc();
    let mut world = match World::<Prices>::new(alloc, 2) {
        Ok(world) => world,
        Err(NoMemory) => World::<Prices>::new(alloc, 2).expect(&rt, "memory"),
    };
    let (Some(first), Some(second)) = (offer_of(alloc), offer_of(alloc)) else {
        return;
    };
    for (event, answer) in [
        (
            Event::Take { at: 0, message: 0 },
            Answer::Refused(EventRefusal::NoMessage),
        ),
        (
            Event::Mark { at: 2, mark: 1 },
            Answer::Refused(EventRefusal::NoNode),
        ),
        (Event::Local { at: 0, op: (1, 9) }, Answer::Accepted(())),
        (first, Answer::Offered(0)),
        (Event::Local { at: 0, op: (1, 7) }, Answer::Accepted(())),
        (
            Event::Local { at: 0, op: (1, 8) },
            Answer::Refused(EventRefusal::ByActor(PriceRefusal::NotLower)),
        ),
        (Event::Mark { at: 0, mark: 1 }, Answer::Marked),
        (second, Answer::Offered(1)),
        (Event::Take { at: 1, message: 0 }, Answer::Accepted(())),
        (Event::Take { at: 1, message: 0 }, Answer::Accepted(())),
    ] {
        let events = [event];
        let is_told = is_answered(&mut world, &events, &answer);
        assert!(rt; is_told || is_answered(&mut world, &events, &answer));
    }
    assert_eq!(rt;
        [price_at(&world, 0), price_at(&world, 1)],
        [Some(7), Some(9)]
    );
    assert!(rt; world.message(0) == Some([1, 9].as_slice()));
    assert!(rt; world.message(1) == Some([].as_slice()));
}
