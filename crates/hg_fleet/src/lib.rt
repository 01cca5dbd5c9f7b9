//! Peers of one process that pull from each other what is new.
//!
//! A [`Fleet`] is a world of peers ([`hg_world`], [`hg_peer`]) that also notes how far each two of them were compared.
//! So one can ask the other for exactly what it lacks: [`Fleet::pull`] finds the heads of what both have in common
//! ([`hg_discovery`]), lets the giver offer what it serves above them, and lets the taker take that in. Two peers that
//! pull often compare each changeset once. [`Fleet::share`] does so with everything but what is secret, above nothing.
//!
//! [`Fleet::local`] is an operation of a peer's own, and [`Fleet::mark`] a pin. With [`Fleet::offer`] and
//! [`Fleet::take`] a message may come late, again or never.
//!
//! # What holds
//!
//! Whatever is done to a fleet is events of its world, one after another, so every law of runs ([`hg_world`],
//! [`hg_peer`]) holds of it. A pull is two of them, or one where the offer is refused: the offer, above exactly the
//! heads of what the taker doesn't keep secret and the giver serves under its pins, and the taking of that message.
//! What a call could not do for want of memory changed nothing; within an event, want of memory is that event's
//! refusal.
//!
//! # Example
//!
//! ```text
//! fn commit_and_pull(alloc: Global, keys: IdKeys, op: &Op) -> Result<Option<Pulled>, NoMemory> {
//!     // Two empty peers, without pins, and no message.
//!     let mut fleet = Fleet::new(alloc, keys, 2)?;
//!     // What a peer refuses changes nothing, and the answer says why.
//!     fleet.local(0, op);
//!     // The peer at place 1 takes in what the one at place 0 serves and it lacks: the offer's answer, and that of the
//!     // taking. It would be `None` if there were no peer at one of the places.
//!     fleet.pull(1, 0)?;
//!     // Both have in common now all that is served, so the next message says nothing new.
//!     fleet.pull(1, 0)
//! }
//! ```
#![tactic(auto)]

mod fleet;
mod pulled;

pub use fleet::Fleet;
pub use hg_peer::{Ask, Mark, Scope};
pub use pulled::{PeerAnswer, Pulled};
