//! Nodes that exchange messages, in one process, and what holds of them whatever is lost, late, repeated or reordered.
//!
//! A [`World`] has nodes, each with a state that acts ([`Actor`](hg_join::Actor)), and a pool of every message that was
//! ever offered. It is given a list of [`Event`]s and gives an [`Answer`] for each: a node does an operation of its
//! own, offers what it holds, takes a message of the pool, or marks what is its own. A message that nobody takes is
//! lost. Any node may take any message, late, again, and before older ones, so whatever a network does to messages is a
//! list of events.
//!
//! # What a run is
//!
//! The contract of [`World::run`] says that what happened is a run (`HasRun` of `specs/Runs.antt`): the events happen
//! one after the other (`Runs`), each with one of four outcomes (`Happens`):
//!
//! - It is accepted: the node at its place absorbs the part that it decided, or that the message spells. No other node
//!   changes, and no message.
//! - It is offered: the bytes that the node offers become the last message, and nothing else changes.
//! - It is marked: the node at its place changes what is its own, and nothing that it says. No other node changes, and
//!   no message.
//! - It is refused, and nothing changes: the world has no such node; or else the pool has no such message; or else the
//!   node has a reason against the operation, the ask, the bytes, the part or the mark; or memory ran out.
//!
//! What each node accepted is not kept anywhere. The contract gives it as a list of its own, `parts`, with one part or
//! none for each event, and says that afterwards each node is the least valid state above what it was that covers the
//! parts that it accepted (`AllLeast`). Events, answers and parts together are the run's `Trace`.
//!
//! One event alone needs no list: [`World::local`], [`World::offer`], [`World::take`] and [`World::mark`] each do that
//! of their name, by the same definition (`Happens`), so any number of these calls is a run too.
//!
//! # What follows
//!
//! Each of these functions has an empty body, and its contract is a law of all runs, at any states that act. What each
//! word of it says stands in `specs/Laws.antt`.
//!
//! | Law | What it says |
//! |---|---|
//! | [`states_are_least`] | a state is the least over what its node accepted; from empty nodes on, of all valid ones |
//! | [`covering_nodes_agree`] | nodes that cover what the other accepted have one content |
//! | [`runs_compose`] | two runs, one after the other, are one: events may be given in one call or in several |
//! | [`messages_are_offers`] | messages stay, and each that a run adds is what a node offered at an event of it |
//! | [`answers_are_exact`] | what is missing is told exactly; what may succeed is refused for want of memory alone |
//! | [`marks_say_nothing`] | a mark changes what is one node's own and nothing that it says; nothing else does so |
//! | [`events_and_answers_tell`] | events and answers alone tell what became of every node |
//!
//! # What is not promised
//!
//! No message need ever be taken, and nodes need not come to cover each other. Where there is an event, memory may run
//! out: in [`World::run`] before the first event, in [`World::offer`] before its own, and else within one, which is
//! then refused as that node's refusals say. No contract can tell such an answer from one that need not have been, so
//! that is for tests: a run that always gave up before its first event would meet these contracts.
//!
//! # Example
//!
//! ```text
//! fn pass_on<S: Actor>(alloc: Global, op: S::Op, ask: S::Ask) -> Result<World<S>, NoMemory> {
//!     // Two nodes that say nothing yet, and no message.
//!     let mut world = World::<S>::new(alloc, 2)?;
//!     let events = [
//!         Event::Local { at: 0, op },
//!         Event::Offer { at: 0, ask },
//!         Event::Take { at: 1, message: 0 },
//!         Event::Take { at: 1, message: 0 },
//!     ];
//!     // An answer for each event. Where nothing is refused: Accepted, Offered(0), Accepted, and Accepted once more,
//!     // which changes nothing. Had the offer been refused, both takes would be Refused(NoMessage). What is refused
//!     // changes nothing.
//!     world.run(&events)?;
//!     // Node 1 says what the message spells, where it accepted that, and nothing else.
//!     Ok(world)
//! }
//! ```
#![tactic(auto)]

mod event;
mod laws;
mod steps;
mod world;

pub use event::{Answer, Event, EventRefusal};
pub use laws::{
    answers_are_exact, covering_nodes_agree, events_and_answers_tell, marks_say_nothing,
    messages_are_offers, runs_compose, states_are_least,
};
pub use world::World;
