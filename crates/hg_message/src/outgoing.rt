//! What goes out to another replica: found first, and copied or written then.
//!
//! To find it takes memory, for marks and for a queue. Whether it is too large shows as soon as it is found, without
//! memory and before anything is copied or written: from there on want of memory never stands for what is too large.
ghost use Rattle.std.specs.Prelude.{◌≡◌, ◌<◌, ◌≤◌, ◌↔◌, List, IfOk, IsTrue, MatchOption, [], true, false, length};
ghost use Rattle.hg_changeset.specs.declared.node.Node.{Node};
ghost use Rattle.hg_obsstore.specs.Places.{picked};
ghost use Rattle.hg_obsstore.specs.Spelling.{IsStoreSpelling, store_spelling};
ghost use Rattle.hg_replica.specs.State.{IsValid};
ghost use Rattle.hg_replica.specs.Content.{content_of};
ghost use Rattle.hg_message.specs.declared.scope.Scope.TheVariants.{Served as served_scope};
ghost use Rattle.hg_message.specs.Value.{is_too_large};
ghost use Rattle.hg_message.specs.Limits.{count_limit};
ghost use Rattle.hg_message.specs.Offer.{AreHeld, HasNothing, IsNamed, IsOfferOf};
ghost use Rattle.hg_message.specs.Outgoing.{AreMarksOf, CopyAnswer, FindAnswer, WriteAnswer};
ghost use Rattle.hg_message.specs.Spelling.{IsMessageSpelling, message_spelling};

use crate::copies::{copy_changesets_at, copy_markers_at};
use crate::finding::{
    first_unknown, named_marker_places, outgoing_places, served_marker_places, served_outgoing,
};
use crate::heads::{head_bounds, served_bounds};
use crate::message::{COUNT_LIMIT, Message};
use crate::refusal::OfferRefusal;
use crate::scope::Scope;
use crate::writing::{begin, records_len_at, write_bounds_and_len, write_records_at};
use hg_changeset::Node;
use hg_obsstore::{Store, markers_len_at, write_markers_at};
use hg_phases::Phase;
use hg_replica::Replica;
use hg_view::{Kept, Pins, served_marks, shared_marks};
use std::alloc::{AllocError, Global};
use std::marker::Model;

/// What a replica [`offer`](crate::offer)s, found and neither copied nor written yet: which of its changesets and
/// markers, and which bounds. Contracts see the message that it says.
pub struct Outgoing<'a> {
    replica: &'a Replica,
    scope: Scope,
    // The places of the changesets in the graph, and of the markers in the store, ascending.
    changesets: Vec<usize>,
    bounds: Vec<(Node, Phase)>,
    markers: Vec<usize>,
}

// Whoever owns one calls this once, and is proved without a look at each collection in it.
impl Drop for Outgoing<'_> {
    fn drop(self) {
        let Outgoing {
            replica: _,
            scope: _,
            changesets: _,
            bounds: _,
            markers: _,
        } = self;
    }
}

impl<'a> Model for Outgoing<'a> {
    ghost use Rattle.std.specs.Coded.{codes};
    ghost use Rattle.std.specs.Prelude.{◌≡◌, length};
    ghost use Rattle.hg_marker.specs.Fields.{fields_code};
    ghost use Rattle.hg_obsstore.specs.Places.{picked};
    ghost use Rattle.hg_phases.specs.State.{changesets as changesets_of};
    ghost use Rattle.hg_message.specs.Value.{MessageValue};

    ghost Value = { MessageValue };

    ghost coded = { Prim.hlevel (codes, fields_code) };

    ghost view = { λ o. record {
      scope = o.scope;
      changesets = picked (changesets_of o.replica.now.history) o.changesets.items;
      bounds = o.bounds.items;
      markers = picked o.replica.now.markers o.markers.items;
    } };

    ghost invariant = { λ o. length (picked (changesets_of o.replica.now.history) o.changesets.items)
        ≡ length o.changesets.items };
}

impl<'a> Outgoing<'a> {
    /// What goes out of the scope above the common nodes, where the node of the replica has these pins. Where the
    /// replica holds no changeset, and, of the whole, no marker, nothing does, and no memory is taken.
    ///
    /// Refuses [`OfferRefusal::UnknownCommon`] alone, for the first that isn't held.
    pub fn above(
        alloc: Global,
        replica: &'a Replica,
        pins: &Pins,
        common: &[Node],
        scope: Scope,
    ) -> Result<Outgoing<'a>, OfferRefusal>
        ensures { FindAnswer replica.now pins.now common.now scope result }
    {
        match first_unknown(replica, common) {
            Some(node) => Err(OfferRefusal::UnknownCommon(node)),
            None if has_nothing(replica, scope) => Ok(nothing(alloc, replica, scope)),
            None => {
                let named = named_marks(alloc, replica, pins, scope)?;
                Ok(find(alloc, replica, &named, common, scope)?)
            }
        }
    }

    /// What goes out above the common nodes, as [`above`](Outgoing::above) finds it, of a replica whose instabilities
    /// are kept up to date, under its pins. What is served goes out at the cost of what has no child, what is secret or
    /// hidden, what is found, the common nodes and what stands between them, and what markers name: not of all that is
    /// held.
    ///
    /// Refuses [`OfferRefusal::UnknownCommon`] alone, for the first that isn't held.
    pub fn above_kept(
        alloc: Global,
        kept: &'a Kept,
        common: &[Node],
        scope: Scope,
    ) -> Result<Outgoing<'a>, OfferRefusal>
        ensures { FindAnswer kept.now.replica kept.now.pins common.now scope result }
    {
        match scope {
            Scope::Served => above_served(alloc, kept, kept.replica(), common),
            Scope::Whole => {
                Outgoing::above(alloc, kept.replica(), kept.pins(), common, Scope::Whole)
            }
        }
    }

    /// Whether it is more than a message can hold: see [`MessageError::TooLarge`](crate::MessageError::TooLarge).
    pub fn is_too_large(&self) -> bool
        ensures { result ≡ is_too_large self.now }
    {
        self.store_len().is_none()
    }

    /// The message, with copies of the changesets and markers.
    ///
    /// Refuses [`OfferRefusal::TooLarge`] alone, before it takes any memory: want of memory never stands for it.
    pub fn message(&self) -> Result<Message, OfferRefusal>
        ensures { CopyAnswer self.now result }
    {
        if self.is_too_large() {
            return Err(OfferRefusal::TooLarge);
        }
        Ok(self.copied()?)
    }

    /// The bytes of the message, written straight from the replica: no changeset and no marker is copied. They are
    /// written once, into room that is taken at once.
    ///
    /// Refuses [`OfferRefusal::TooLarge`] alone, before it takes any memory: want of memory never stands for it.
    pub fn to_bytes(&self) -> Result<Vec<u8>, OfferRefusal>
        ensures written { WriteAnswer (λ bytes. bytes.items) self.now result }
        ensures spells { IfOk result (λ bytes. IsMessageSpelling self.now bytes.items) }
    {
        match self.store_len() {
            Some(store_len) => Ok(self.written(store_len)?),
            None => Err(OfferRefusal::TooLarge),
        }
    }

    // How many bytes its markers take as they are written, where it isn't too large.
    fn store_len(&self) -> Option<usize>
        ensures len { MatchOption result (is_too_large self.now ≡ true)
            (λ len. (is_too_large self.now ≡ false) × (len ≡ length (store_spelling self.now.markers))) }
        ensures spells { IsStoreSpelling self.now.markers (store_spelling self.now.markers) }
    {
        let fitting = fitting_len(self.replica.store(), &self.markers);
        if self.changesets.len() > COUNT_LIMIT || self.bounds.len() > COUNT_LIMIT {
            return None;
        }
        fitting
    }

    // The bytes, where it isn't too large, and its markers take so many of them.
    fn written(&self, store_len: usize) -> Result<Vec<u8>, AllocError>
        requires small { is_too_large self.now ≡ false }
        requires len { store_len ≡ length (store_spelling self.now.markers) }
        requires markers { IsStoreSpelling self.now.markers (store_spelling self.now.markers) }
        ensures written { IfOk result (λ bytes. bytes.items ≡ message_spelling self.now) }
        ensures spells { IfOk result (λ bytes. IsMessageSpelling self.now bytes.items) }
    {
        let alloc = *self.changesets.allocator();
        let graph = self.replica.graph();
        let count = self.changesets.len();
        let records_len = records_len_at(graph, &self.changesets);
        let mut out = begin(
            alloc,
            self.scope,
            count,
            records_len,
            self.bounds.len(),
            store_len,
        )?;
        write_records_at(&mut out, graph, &self.changesets)?;
        write_bounds_and_len(&mut out, &self.bounds, store_len)?;
        write_markers_at(&mut out, self.replica.store(), &self.markers)?;
        Ok(out)
    }

    // The message, where it isn't too large.
    fn copied(&self) -> Result<Message, AllocError>
        requires { is_too_large self.now ≡ false }
        ensures { IfOk result (λ message. message ≡ self.now) }
    {
        let alloc = *self.changesets.allocator();
        let changesets = copy_changesets_at(alloc, self.replica.graph(), &self.changesets)?;
        let bounds = self.bounds.clone()?;
        let markers = copy_markers_at(alloc, self.replica.store(), &self.markers)?;
        Ok(Message::of_parts(self.scope, changesets, bounds, markers))
    }
}

// Nothing goes out, and no memory is taken.
fn nothing(alloc: Global, replica: &Replica, scope: Scope) -> Outgoing<'_>
    ensures { result ≡ record { scope = scope; changesets = []; bounds = []; markers = [] } }
{
    Outgoing {
        replica,
        scope,
        changesets: Vec::new(alloc),
        bounds: Vec::new(alloc),
        markers: Vec::new(alloc),
    }
}

// Whether the replica holds no changeset, and, of the whole, no marker.
pub(crate) fn has_nothing(replica: &Replica, scope: Scope) -> bool
    ensures nothing { IsTrue result ↔ HasNothing replica.now scope }
    ensures valid { IsValid replica.now }
{
    match scope {
        Scope::Served => replica.graph().is_empty(),
        Scope::Whole => replica.graph().is_empty() && replica.store().markers().is_empty(),
    }
}

// A mark for each place of the graph: whether the scope names the changeset there.
fn named_marks(
    alloc: Global,
    replica: &Replica,
    pins: &Pins,
    scope: Scope,
) -> Result<Vec<bool>, AllocError>
    ensures { IfOk result
        (λ marks. AreMarksOf replica.now (IsNamed (content_of replica.now) pins.now scope) marks.items) }
{
    match scope {
        Scope::Served => served_marks(alloc, replica, pins),
        Scope::Whole => shared_marks(alloc, replica),
    }
}

// What goes out of what is served above the common nodes, of a replica that is kept.
fn above_served<'a>(
    alloc: Global,
    kept: &Kept,
    replica: &'a Replica,
    common: &[Node],
) -> Result<Outgoing<'a>, OfferRefusal>
    requires { replica.now ≡ kept.now.replica }
    ensures { FindAnswer replica.now kept.now.pins common.now served_scope result }
{
    match first_unknown(replica, common) {
        Some(node) => Err(OfferRefusal::UnknownCommon(node)),
        None if has_nothing(replica, Scope::Served) => Ok(nothing(alloc, replica, Scope::Served)),
        None => Ok(find_served(alloc, kept, replica, common)?),
    }
}

// What goes out of what is served, by the heads of that: no place is looked at but those of heads and of what is found,
// and of what is common between them.
fn find_served<'a>(
    alloc: Global,
    kept: &Kept,
    replica: &'a Replica,
    common: &[Node],
) -> Result<Outgoing<'a>, AllocError>
    requires replica { replica.now ≡ kept.now.replica }
    requires common { AreHeld (content_of replica.now) common.now }
    ensures { IfOk result (IsOfferOf replica.now kept.now.pins common.now served_scope) }
{
    replica.is_valid();
    let heads = kept.served_heads()?;
    let changesets = served_outgoing(alloc, kept, &heads, common)?;
    let bounds = served_bounds(alloc, kept, &heads)?;
    let markers = served_marker_places(alloc, kept)?;
    Ok(Outgoing {
        replica,
        scope: Scope::Served,
        changesets,
        bounds,
        markers,
    })
}

// What goes out, where each common node is held, and the marks tell what the scope names.
fn find<'a>(
    alloc: Global,
    replica: &'a Replica,
    named: &[bool],
    common: &[Node],
    scope: Scope,
) -> Result<Outgoing<'a>, AllocError>
    requires named { (pins : List Node)
        × AreMarksOf replica.now (IsNamed (content_of replica.now) pins scope) named.now }
    requires common { AreHeld (content_of replica.now) common.now }
    ensures { IfOk result (λ found. (pins : List Node)
        → AreMarksOf replica.now (IsNamed (content_of replica.now) pins scope) named.now
        → IsOfferOf replica.now pins common.now scope found) }
{
    let changesets = outgoing_places(alloc, replica, named, common)?;
    let bounds = head_bounds(alloc, replica, named)?;
    let markers = named_marker_places(alloc, replica, named, scope)?;
    Ok(Outgoing {
        replica,
        scope,
        changesets,
        bounds,
        markers,
    })
}

// How many bytes the markers at the places take as they are written, where four bytes can tell it.
fn fitting_len(store: &Store, places: &[usize]) -> Option<usize>
    ensures len { MatchOption result (count_limit < length (store_spelling (picked store.now places.now)))
        (λ len. (len ≤ count_limit) × (len ≡ length (store_spelling (picked store.now places.now)))) }
    ensures spells { IsStoreSpelling (picked store.now places.now) (store_spelling (picked store.now places.now)) }
{
    match markers_len_at(store, places) {
        Some(len) if len <= COUNT_LIMIT => Some(len),
        _ => None,
    }
}
