//! Replicas that exchange messages, and what holds of them whatever happens to the messages.
//!
//! A [`Peer`] is a [`Replica`](hg_replica::Replica) as a state that acts: it decides an operation
//! ([`Op`](hg_rewrite::Op)), offers what an [`Ask`] names above some common nodes, as the bytes of a message
//! ([`Message`](hg_message::Message)), and reads such bytes. Beside the replica it has pins, which a [`Mark`] changes:
//! what it pins is visible to it, though it is obsolete. So a [`World`](hg_world::World) runs lists of events over
//! peers: operations of their own, offers, messages that they take, and marks.
//!
//! # What holds
//!
//! **For every list of local operations, offers, losses, repeats and late or reordered deliveries among any number of
//! peers, each peer's state is the least valid state covering every operation and message it accepted; so peers that
//! cover each other's contributions agree on changesets, phases, markers and every instability, and on the visible set
//! where their pins are equal; and no message holds a changeset that was secret at its maker.**
//!
//! What the words of the sentence mean, and where that is said:
//!
//! - *Every list*: any list of [`Event`](hg_world::Event)s, in one call or in several:
//!   [`World::run`](hg_world::World::run), [`runs_compose`](hg_world::runs_compose).
//! - *Losses, repeats, late or reordered deliveries*: a message that nobody takes is lost; any peer may take any
//!   message of the pool at any time, and again: [`World::run`](hg_world::World::run).
//! - *Is the least valid state covering*: it is valid, covers each accepted part, and is below each valid state that
//!   does so: [`states_are_least`](hg_world::states_are_least). By the formula: the changesets and markers of the
//!   parts, and for each changeset the lowest phase that a bound gives it; from a new world on, those and nothing else:
//!   [`peers_are_least`], `specs/Laws.antt`.
//! - *Every operation and message it accepted*: those that were answered
//!   [`Accepted`](hg_world::Answer::Accepted); the part of an operation is that of the table of operations, at the
//!   state in which it was decided: [`World::run`](hg_world::World::run), `specs/Peers.antt`.
//! - *Cover each other's contributions*: the state of each covers each part that the other accepted:
//!   [`covering_peers_agree`].
//! - *Agree on changesets, phases, markers and every instability*: the sets of obsolete, orphan, suspended, extinct,
//!   phase-divergent and content-divergent changesets are among them: [`covering_peers_agree`], `specs/Agreement.antt`.
//! - *On the visible set where their pins are equal*: each sees the same under its own pins, and serves the same, where
//!   both pin the same changesets, in whatever order: [`covering_peers_agree`], `specs/Agreement.antt`.
//! - *No message holds*: neither as a record nor as a bound; a marker may name any id: [`no_message_holds_a_secret`].
//! - *Secret at its maker*: in the state that the Offer read: [`no_message_holds_a_secret`], `specs/Secrets.antt`.
//!
//! The laws speak of the trace of a run: its events, what each was answered, and the part that each brought. The
//! contract of [`World::run`](hg_world::World::run) says that what happened has one. Each law is a word of
//! `specs/Laws.antt` or of `specs/Sharing.antt`.
//!
//! Peers that exchange what they serve need not come to share it all, since what is hidden stays with them. Two whole
//! offers do that: one each way, with nothing new accepted meanwhile, makes two peers share one history, but for what
//! is secret ([`whole_offers_share_one_history`]).
//!
//! # The premises
//!
//! - The world began new, where a law says so: each of its peers was empty, and its pool too.
//! - Nothing raises a phase, and nothing is taken away: no operation does either. A mark changes pins alone: they are a
//!   peer's own, no part of what it holds, and in no message ([`marks_change_pins_of_one_peer_alone`]).
//! - Two changesets under one id never stand in one state: the part that would bring the second is refused by the id,
//!   as [`Fault::Collision`](hg_history::Fault::Collision).
//! - Where memory is wanting, nothing changes.
//! - Nothing is said of arrival: no message need ever be taken, and peers need not come to cover each other.
//!
//! Peers of a new world hash ids by a rule that everybody knows. Where bytes of strangers come in, [`world_with_keys`]
//! makes the world, with secret keys, and every law holds of it as well.
//!
//! # Example
//!
//! ```text
//! fn commit_and_pull(alloc: Global, entry: Entry) -> Result<(World<Peer>, bool), NoMemory> {
//!     // Two empty peers, without pins, and no message.
//!     let mut world = World::<Peer>::new(alloc, 2)?;
//!     let op = Op::Commit { p: Node::NULL, q: Node::NULL, entry, secret: false };
//!     let ask = Ask { common: Vec::new(alloc), scope: Scope::Served };
//!     let commit = Event::Local { at: 0, op };
//!     let offer = Event::Offer { at: 0, ask };
//!     let take = Event::Take { at: 1, message: 0 };
//!     // An answer for each event, in their order. A refused event is answered `Refused`, and changes nothing.
//!     let answers = world.run(&[commit, offer, take])?;
//!     // Where none was refused, both peers hold the new changeset as a draft, and they agree on all that they hold.
//!     let is_done = answers.iter().all(|answer| !matches!(answer, Answer::Refused(_)));
//!     Ok((world, is_done))
//! }
//! ```
#![tactic(auto)]

mod ask;
mod laws;
mod mark;
mod peer;
mod refusal;
mod world;

pub use ask::Ask;
pub use hg_message::Scope;
pub use laws::{
    answers_of_peers_are_exact, covering_peers_agree, events_and_answers_tell_of_peers,
    marks_change_pins_of_one_peer_alone, messages_above_what_is_held_are_taken,
    no_message_holds_a_secret, peers_are_least, whole_offers_share_one_history,
};
pub use mark::Mark;
pub use peer::Peer;
pub use refusal::{Numbered, PeerRefusal};
pub use world::world_with_keys;
