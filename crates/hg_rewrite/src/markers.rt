//! The markers of an operation: one for each node that is rewritten, with what is noted of the operation.
ghost use Rattle.std.specs.Prelude.{◌≡◌, [], IsErrOf, MatchOption, map, take};
ghost use Rattle.hg_marker.specs.Operation.{note_texts};
ghost use Rattle.hg_rewrite.specs.Parts.{new_ids, noted, noted_of, metadata, marker, markers, rewritten};
ghost use Rattle.hg_rewrite.specs.Refusals.{NoneApplies, marker_refused, wrong_count};
ghost use Rattle.hg_rewrite.specs.Answer.{Gives, mark_refusal};

use crate::changesets::date;
use crate::check::rewritten;
use crate::op::Op;
use crate::query::parents_in;
use crate::refusal::{Cause, Refusal};
use hg_changeset::{Entry, Node, trimmed_user};
use hg_marker::{Marker, MarkerError, Note, ReadError};
use hg_replica::Replica;
use std::alloc::Global;

// The markers of an operation that makes changesets with these ids. Memory is taken only where there is a first one.
pub(crate) fn markers(
    alloc: Global,
    replica: &Replica,
    op: &Op,
    ids: &[Node],
) -> Result<Vec<Marker>, Refusal>
    requires ids { ids.now ≡ new_ids replica.now.history op.now }
    requires count { NoneApplies (wrong_count op.now) }
    ensures answer { Gives (map marker_refused (markers replica.now.history op.now))
        (markers replica.now.history op.now) result }
    ensures memory { IsErrOf result Refusal.NoMemory
        → NoneApplies (map marker_refused (map (marker (metadata replica.now.history op.now)
        (new_ids replica.now.history op.now)) (take 1 (rewritten op.now)))) }
{
    match note(replica, op) {
        Some(note) => mark(alloc, rewritten(op), ids, &note),
        None => Ok(Vec::new(alloc)),
    }
}

// What is noted of an operation that rewrites nodes.
fn note<'a>(replica: &Replica, op: &'a Op) -> Option<Note<'a>>
    requires { NoneApplies (wrong_count op.now) }
    ensures { MatchOption result (rewritten op.now ≡ [])
        (λ note. note_texts note ≡ metadata replica.now.history op.now) }
{
    match op {
        Op::Commit { .. } => None,
        Op::Amend { entry, .. } => Some(note_of(b"amend", entry)),
        Op::Split { entries, .. } => match entries.first() {
            Some(first) => Some(note_of(b"split", first)),
            None => None,
        },
        Op::Fold { entry, .. } => Some(note_of(b"fold", entry)),
        Op::Prune {
            node,
            user,
            secs,
            offset,
        } => {
            let parents = parents_in(replica, *node);
            Some(noted(b"prune", Some(parents), user, (*secs, *offset)))
        }
        Op::Relocate { entry, .. } => Some(note_of(b"relocate", entry)),
        Op::Advance { .. } => None,
    }
}

// When, by which operation and by whom, as an entry says.
fn note_of<'a>(operation: &'a [u8], entry: &'a Entry) -> Note<'a>
    ensures { note_texts result ≡ noted_of operation.now entry.now }
{
    noted(operation, None, &entry.user, date(entry))
}

// The same, and the parents of what is pruned.
fn noted<'a>(
    operation: &'a [u8],
    parents: Option<(Node, Node)>,
    user: &'a [u8],
    date: (i64, i32),
) -> Note<'a>
    ensures { note_texts result ≡ noted operation.now parents user.now date.0 date.1 }
{
    let (secs, offset) = date;
    Note {
        operation,
        user: trimmed_user(user),
        secs,
        offset,
        parents,
    }
}

// A marker from each node to all the ids.
fn mark(
    alloc: Global,
    rewritten: &[Node],
    ids: &[Node],
    note: &Note<'_>,
) -> Result<Vec<Marker>, Refusal>
    ensures answer { Gives (map marker_refused (map (marker (note_texts note.now) ids.now) rewritten.now))
        (map (marker (note_texts note.now) ids.now) rewritten.now) result }
    ensures memory { IsErrOf result Refusal.NoMemory
        → NoneApplies (map marker_refused (map (marker (note_texts note.now) ids.now) (take 1 rewritten.now))) }
{
    let mut markers = Vec::new(alloc);
    for node in rewritten {
        match Marker::of_operation(alloc, *node, ids, note) {
            Ok(marker) => markers.push(marker)?,
            Err(error) => return Err(mark_refusal(error)),
        }
    }
    Ok(markers)
}

// The refusal that tells why a marker wasn't made.
fn mark_refusal(error: ReadError<MarkerError>) -> Refusal
    ensures { result ≡ mark_refusal error }
{
    match error {
        ReadError::Fault(fault) => Refusal::Fault(Cause::Marker(fault)),
        ReadError::NoMemory => Refusal::NoMemory,
    }
}
