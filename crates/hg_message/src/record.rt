//! The records of a message.
//!
//! A record is a node id, two parents, the length of a text, and the text. Records are checked before any memory is
//! taken, and then copied without hashing them again. Each is checked against its hash, except one whose changeset is
//! held where the message is read: the id of what is held is its hash. Records mostly come in the order in which they
//! are held, so each is looked for behind the one before it first.
ghost use Rattle.std.specs.Prelude.{◌≡◌, ◌≢◌, ◌<◌, ◌≤◌, ℕ, List, IsTrue, IfOk, IfSome, OnErr, MatchResult, Ok, Err};
ghost use Rattle.std.specs.Prelude.{Some, length, slice_get};
ghost use Rattle.std.specs.Option.{option_copied};
ghost use Rattle.hg_changeset.specs.Changeset.{text_limit};
ghost use Rattle.hg_changeset.specs.Contents.{Contents};
ghost use Rattle.hg_marker.specs.Faults.{left};
ghost use Rattle.hg_marker.specs.Reading.{IsRead, IsReading};
ghost use Rattle.hg_phases.specs.State.{Held};
ghost use Rattle.hg_phases.specs.declared.phase.Phase.TheVariants.{Secret};
ghost use Rattle.hg_message.specs.Counted.{counted, first_of};
ghost use Rattle.hg_message.specs.Known.{IsKnown, IsKnownAt, AreKnownAt};
ghost use Rattle.hg_message.specs.Record.{IsItsRecord, contents_of, fields_at, record_at};
ghost use Rattle.hg_message.specs.RecordView.{fields_of};

use crate::error::MessageFault;
use crate::place::truncated;
use hg_changeset::{Changeset, ChangesetError, Node, TEXT_LIMIT};
use hg_graph::Graph;
use hg_marker::{read_field, read_node, read_number};
use hg_phases::Phase;
use hg_replica::Replica;
use std::alloc::{AllocError, Global};

/// The fields of a record where they stand in bytes. Nothing is copied yet.
#[derive(Clone, Copy)]
struct RecordBytes<'a> {
    id: Node,
    p: Node,
    q: Node,
    text: &'a [u8],
}

// The fields of the record of this index at the front of the rest of so many bytes, and the bytes after it.
#[tactic(auto, unfolding(crate::specs::Record::fields_at))]
fn split_record(
    total: usize,
    index: u32,
    bytes: &[u8],
) -> Result<(RecordBytes<'_>, &[u8]), MessageFault>
    ensures exact { IsReading (λ x. (fields_of x.0, x.1.now)) result (fields_at total index bytes.now) }
    ensures short { IfOk result (λ x. length x.0.text.now ≤ text_limit) }
{
    let (id, rest) = read_node(bytes, truncated(total, bytes))?;
    let (p, rest) = read_node(rest, truncated(total, rest))?;
    let (q, rest) = read_node(rest, truncated(total, rest))?;
    let (len, rest) = read_number(rest, truncated(total, rest))?;
    if len as usize > TEXT_LIMIT {
        return Err(MessageFault::TextTooLong(index));
    }
    let (text, rest) = read_field(rest, len as usize, truncated(total, rest))?;
    Ok((RecordBytes { id, p, q, text }, rest))
}

// What was seen of a record: whether its changeset is known, that is held and not secret, and the place at which the
// changeset of the next record is likely to be held.
#[derive(Clone, Copy)]
struct Seen {
    is_known: bool,
    behind: usize,
}

// Whether these are the id, the parents and the text of the changeset. So its id is known to be their hash.
fn are_fields_of(fields: &RecordBytes<'_>, changeset: &Changeset) -> bool
    ensures record { IsTrue result → IsItsRecord (fields_of fields.now) }
    ensures same { IsTrue result → changeset.now ≡ contents_of (fields_of fields.now) }
{
    let (first, second) = changeset.parents();
    if changeset.node() != fields.id || first != fields.p || second != fields.q {
        return false;
    }
    changeset.text() == fields.text
}

// Whether the changeset at a place is that of the record, with its parents in normal form.
fn is_held_at(graph: &Graph, place: usize, fields: &RecordBytes<'_>) -> bool
    ensures record { IsTrue result → IsItsRecord (fields_of fields.now) }
    ensures held { IsTrue result → slice_get graph.now place ≡ Some (contents_of (fields_of fields.now)) }
{
    match graph.changeset_at(place) {
        Some(changeset) => are_fields_of(fields, changeset),
        None => false,
    }
}

// Where the changeset of the record is held, with its parents in normal form: at the likely place, or where its id
// stands. Nothing is hashed for that.
fn held_place(graph: &Graph, likely: usize, fields: &RecordBytes<'_>) -> Option<usize>
    ensures record { IfSome result (λ place. IsItsRecord (fields_of fields.now)) }
    ensures held { IfSome result
        (λ place. slice_get graph.now place ≡ Some (contents_of (fields_of fields.now))) }
{
    if is_held_at(graph, likely, fields) {
        return Some(likely);
    }
    match graph.place(fields.id) {
        Some(place) if is_held_at(graph, place, fields) => Some(place),
        _ => None,
    }
}

// Whether the changeset at a place isn't secret.
fn is_shared_at(replica: &Replica, place: usize) -> bool
    ensures { IsTrue result → (h : Held) × (slice_get replica.now.history.held place ≡ Some h) × (h.phase ≢ Secret) }
{
    match replica.phase_at(place) {
        Some(phase) => phase != Phase::Secret,
        None => false,
    }
}

// What is seen of the record, where its changeset is held with its parents in normal form.
fn see(replica: &Replica, likely: usize, fields: &RecordBytes<'_>) -> Option<Seen>
    ensures record { IfSome result (λ seen. IsItsRecord (fields_of fields.now)) }
    ensures known { IfSome result
        (λ seen. IsTrue seen.is_known → IsKnown replica.now (contents_of (fields_of fields.now))) }
{
    match held_place(replica.graph(), likely, fields) {
        Some(place) => Some(Seen {
            is_known: is_shared_at(replica, place),
            behind: place.saturating_add(1),
        }),
        None => None,
    }
}

// The same, where there may be no replica.
fn see_at(held: Option<&Replica>, likely: usize, fields: &RecordBytes<'_>) -> Option<Seen>
    ensures record { IfSome result (λ seen. IsItsRecord (fields_of fields.now)) }
    ensures known { IfSome result
        (λ seen. IsTrue seen.is_known → IsKnownAt (option_copied held.entry) (contents_of (fields_of fields.now))) }
{
    match held {
        Some(replica) => see(replica, likely, fields),
        None => None,
    }
}

// The bytes after the record of this index, and what was seen of it. It takes no memory.
#[tactic(auto, unfolding(crate::specs::Record::record_at))]
fn skip_record<'a>(
    held: Option<&Replica>,
    likely: usize,
    total: usize,
    index: u32,
    bytes: &'a [u8],
) -> Result<(&'a [u8], Seen), MessageFault>
    ensures exact { IsReading (λ x. x.0.now) result (left (record_at total index bytes.now)) }
    ensures known { IfOk result (λ x. IsTrue x.1.is_known → (c : Contents) (after : List ℕ)
        → record_at total index bytes.now ≡ Ok (c, after) → IsKnownAt (option_copied held.entry) c) }
{
    let (record, rest) = split_record(total, index, bytes)?;
    let unseen = Seen {
        is_known: false,
        behind: likely,
    };
    match see_at(held, likely, &record) {
        Some(seen) => Ok((rest, seen)),
        None => match Changeset::id_of(record.p, record.q, record.text) {
            Ok(id) if id == record.id => Ok((rest, unseen)),
            Err(ChangesetError::SameParent) => Err(MessageFault::BadParents(index)),
            _ => Err(MessageFault::HashMismatch(index)),
        },
    }
}

/// The bytes after so many records, and whether all their changesets are known: held where the message is read, and not
/// secret there. Those that are held are spared their hash. It takes no memory.
pub(crate) fn skip_records<'a>(
    held: Option<&Replica>,
    total: usize,
    count: u32,
    bytes: &'a [u8],
) -> Result<(&'a [u8], bool), MessageFault>
    ensures { MatchResult result
        (λ x. (changesets : List Contents)
        × (counted (record_at total) 0 count bytes.now ≡ Ok (changesets, x.0.now))
        × (IsTrue x.1 → AreKnownAt (option_copied held.entry) changesets))
        (λ fault. counted (record_at total) 0 count bytes.now ≡ Err fault) }
{
    let mut rest = bytes;
    let mut are_known = true;
    let mut likely = 0;
    for index in 0..count {
        match skip_record(held, likely, total, index, rest) {
            Ok((after, seen)) => {
                rest = after;
                are_known &= seen.is_known;
                likely = seen.behind;
            }
            Err(fault) => return Err(fault),
        }
    }
    Ok((rest, are_known))
}

// The changeset of a record that was checked, and the bytes after it.
#[tactic(auto, unfolding(crate::specs::Record::record_at))]
fn read_record(
    alloc: Global,
    total: usize,
    index: u32,
    bytes: &[u8],
) -> Result<(Changeset, &[u8]), AllocError>
    requires { IsRead (record_at total index bytes.now) }
    ensures { IfOk result (λ x. record_at total index bytes.now ≡ Ok (x.0, x.1.now)) }
{
    match split_record(total, index, bytes) {
        Ok((record, rest)) => {
            let text = Vec::from_slice(alloc, record.text)?;
            let changeset = Changeset::with_id(record.id, record.p, record.q, text);
            Ok((changeset, rest))
        }
        Err(_) => Err(AllocError),
    }
}

/// The changesets of so many records that were checked. Room is taken for just so many.
pub(crate) fn read_records(
    alloc: Global,
    total: usize,
    count: u32,
    bytes: &[u8],
) -> Result<Vec<Changeset>, AllocError>
    requires { IsRead (counted (record_at total) 0 count bytes.now) }
    ensures read { IfOk result
        (λ changesets. first_of (counted (record_at total) 0 count bytes.now) ≡ Ok changesets.items) }
    ensures memory { OnErr result (0 < count) }
{
    let mut changesets = Vec::with_capacity(alloc, count as usize)?;
    let mut rest = bytes;
    for index in 0..count {
        let (changeset, after) = read_record(alloc, total, index, rest)?;
        changesets.push(changeset)?;
        rest = after;
    }
    Ok(changesets)
}
