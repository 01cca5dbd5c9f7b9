//! Messages between replicas.
//!
//! A [`Message`] carries changesets, bounds on phases, and obsolescence markers, and tells their [`Scope`]. It is
//! written in one way, and read in whichever way it is spelled: the parents of a record may stand in either order, the
//! metadata of a marker may be spelled in further ways, and no bytes at all are a store without markers. Version 2 of
//! the format is written, and version 1 is read too: it has no field for the scope, and says what is served. What a
//! replica takes in of a message is its [part](Message::part), whatever its scope.
//!
//! What a replica tells one that has some common nodes is its [`offer`]: what it serves above them under the pins of
//! its node, and nothing that is secret or hidden; or its whole history without what is secret. No message carries a
//! pin.
//!
//! # Example
//!
//! ```text
//! fn send(alloc: Global, replica: &Replica, pins: &Pins, common: &[Node]) -> Result<Vec<u8>, OfferRefusal> {
//!     // What is served, but for the common nodes and their ancestors: no record and no bound is of a secret or hidden
//!     // changeset. The first common node that isn't held is refused as `OfferRefusal::UnknownCommon`.
//!     let found = Outgoing::above(alloc, replica, pins, common, Scope::Served)?;
//!     // The one written spelling of it. More than a message can hold is refused as `OfferRefusal::TooLarge`.
//!     found.to_bytes()
//! }
//!
//! fn receive(alloc: Global, replica: &Replica, bytes: &[u8]) -> Result<Part, ReadError<MessageFault>> {
//!     // Bytes that spell no message are refused with their first fault, never with want of memory in its place. The
//!     // part comes without its changesets where the replica knows them all. A replica that holds the common nodes of
//!     // an offer refuses its part only for want of memory, or where one id stands for two changesets.
//!     Message::part_at(alloc, replica, bytes)
//! }
//! ```
#![tactic(auto)]

mod bound;
mod copies;
mod error;
mod finding;
mod heads;
mod laws;
mod layout;
mod marks;
mod message;
mod offer_laws;
mod offers;
mod outgoing;
mod place;
mod record;
mod refusal;
mod scope;
mod writing;

pub use error::{MessageError, MessageFault};
pub use hg_changeset::{Changeset, Node};
pub use hg_marker::{Marker, MarkerFault, ReadError};
pub use hg_obsstore::StoreFault;
pub use hg_phases::Phase;
pub use hg_replica::Part;
pub use laws::{first_fault_laws, spelling_laws, what_is_left_is_absorbed_alike};
pub use message::Message;
pub use offer_laws::{
    an_offer_is_one, offers_above_what_is_held_are_taken, offers_are_admitted, offers_are_covered,
    offers_hold_what_their_scope_names, states_of_one_content_offer_the_same,
};
pub use offers::offer;
pub use outgoing::Outgoing;
pub use refusal::OfferRefusal;
pub use scope::Scope;
