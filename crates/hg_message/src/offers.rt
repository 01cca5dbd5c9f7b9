//! What a replica offers to another.
//!
//! It tells what it serves: the changesets that the other hasn't, how far phases have come, and the markers that led to
//! what is served. What is secret, or hidden under the pins of its node, is kept back. What a node pins shows in what
//! it serves alone: no message carries a pin. Or it tells all of its history that isn't secret, hidden or not, with
//! every marker: two such offers, one each way, make two replicas share one history.
ghost use Rattle.hg_message.specs.Offer.{OfferAnswer};

use crate::message::Message;
use crate::outgoing::{Outgoing, has_nothing};
use crate::refusal::OfferRefusal;
use crate::scope::Scope;
use hg_changeset::Node;
use hg_replica::Replica;
use hg_view::Pins;
use std::alloc::Global;

/// What a replica, whose node has these pins, offers of a scope to one that has the common nodes and their ancestors:
/// the other changesets that the scope names, in the graph's order; a public bound for each head of what it names that
/// is public, and then a draft bound for each head of what is draft, both ascending by id; and markers, in the store's
/// order. [`Scope::Served`] names what is served under the pins, with the markers that are relevant to that, and
/// [`Scope::Whole`] all that isn't secret, with all markers.
///
/// Common changesets have their phases told too, since they may have moved. Refuses with the first [`OfferRefusal`]
/// that applies, in the order in which they are numbered. An offer is found first and copied then, as [`Outgoing`]
/// does: want of memory is told of one that would be too large only where memory ran out before it was found. Where
/// the replica holds no changeset, and, of the whole, no marker, it is never told.
pub fn offer(
    alloc: Global,
    replica: &Replica,
    pins: &Pins,
    common: &[Node],
    scope: Scope,
) -> Result<Message, OfferRefusal>
    ensures { OfferAnswer replica.now pins.now common.now scope result }
{
    match Outgoing::above(alloc, replica, pins, common, scope) {
        Ok(_) if has_nothing(replica, scope) => Ok(Message::nothing(alloc, scope)),
        Ok(found) => found.message(),
        Err(refusal) => Err(refusal),
    }
}
