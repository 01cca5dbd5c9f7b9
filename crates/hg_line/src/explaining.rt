//! What a refusal is about, and why nodes don't agree, in words that are put behind what a line prints.
ghost use Rattle.std.specs.Prelude.{◌↔◌, Contains, IsTrue, OnOk, true};
ghost use Rattle.hg_line.specs.Printing.{IsExplained};

use crate::command::Command;
use crate::disagreement::disagreement;
use crate::fleet::Fleet;
use crate::line_outcome::LineOutcome;
use crate::operation::{Operation, Parents};
use crate::reading::read_command;
use hg_changeset::{Changeset, ChangesetError, EntryError, Node};
use hg_fleet::PeerAnswer;
use hg_history::Fault;
use hg_marker::{MarkerError, ReadError};
use hg_message::{Message, OfferRefusal};
use hg_peer::PeerRefusal;
use hg_phases::Phase;
use hg_replica::Replica;
use hg_rewrite::{Cause, Refusal};
use hg_view::PinRefusal;
use hg_world::{Answer, EventRefusal};
use std::alloc::{AllocError, Global};

// A line of these words, and the fleet as it is behind it.
#[derive(Clone, Copy)]
struct Line<'a> {
    alloc: Global,
    fleet: &'a Fleet,
    words: &'a [&'a [u8]],
}

/// Puts a reason behind the line with which the text ends, where lines are explained: what a refusal is about, or why
/// nodes don't agree. The line has these words.
pub fn explain(
    alloc: Global,
    fleet: &Fleet,
    words: &[&[u8]],
    told: &LineOutcome,
    explains: bool,
    text: &mut Vec<u8>,
) -> Result<(), AllocError>
    ensures { OnOk result (IsExplained explains text.old.items text.new.items) }
{
    if !explains {
        return Ok(());
    }
    let line = Line {
        alloc,
        fleet,
        words,
    };
    match reason_of(line, told)? {
        Some(reason) => put_behind(&reason, text),
        None => Ok(()),
    }
}

// Puts the reason behind the last line of the text, if it ends with a line. A reason of several lines isn't put.
fn put_behind(reason: &[u8], text: &mut Vec<u8>) -> Result<(), AllocError>
    ensures { OnOk result (IsExplained true text.old.items text.new.items) }
{
    if !is_in_line(reason) {
        return Ok(());
    }
    match text.pop() {
        Some(b'\n') => {
            text.extend_from_slice(reason)?;
            text.extend_from_slice(b"\n")
        }
        Some(byte) => {
            text.push(byte)?;
            Ok(())
        }
        None => Ok(()),
    }
}

/// Whether no line ends in the text.
pub fn is_in_line(text: &[u8]) -> bool
    ensures { IsTrue result ↔ ¬ (Contains text.now 10) }
{
    !text.contains(&b'\n')
}

// What the refusal of a line is about, where it was refused, and why nodes don't agree, where it asks that.
fn reason_of(line: Line<'_>, told: &LineOutcome) -> Result<Option<Vec<u8>>, AllocError> {
    match told {
        LineOutcome::Nothing => match read_command(line.words) {
            Ok(Some(Command::Agree(one, other))) => {
                disagreement(line.alloc, line.fleet, one, other)
            }
            _ => Ok(None),
        },
        LineOutcome::Event { at: _, answer } => reason_in(line, answer, None),
        LineOutcome::Taken {
            at: _,
            message,
            answer,
        } => reason_in(line, answer, line.fleet.message_at(*message)),
        LineOutcome::Pulled { at: _, pulled } => match &pulled.taken {
            Some(answer) => reason_in(line, answer, offered_bytes(line.fleet, &pulled.offered)),
            None => reason_in(line, &pulled.offered, None),
        },
    }
}

// The bytes of the message that was offered, if one was.
fn offered_bytes<'a>(fleet: &'a Fleet, answer: &PeerAnswer) -> Option<&'a [u8]> {
    match answer {
        Answer::Offered(number) => fleet.message_at(*number),
        Answer::Accepted(_) | Answer::Marked | Answer::Refused(_) => None,
    }
}

// The same of an answer, which was given to these bytes if it was one of taking a message.
fn reason_in(
    line: Line<'_>,
    answer: &PeerAnswer,
    bytes: Option<&[u8]>,
) -> Result<Option<Vec<u8>>, AllocError> {
    match answer {
        Answer::Refused(refusal) => {
            let mut reason = Vec::new(line.alloc);
            push_reason(line, refusal, bytes, &mut reason)?;
            Ok(Some(reason))
        }
        Answer::Accepted(_) | Answer::Offered(_) | Answer::Marked => Ok(None),
    }
}

// Appends what the refusal is about.
fn push_reason(
    line: Line<'_>,
    refusal: &EventRefusal<PeerRefusal, Fault>,
    bytes: Option<&[u8]>,
    text: &mut Vec<u8>,
) -> Result<(), AllocError> {
    match refusal {
        EventRefusal::NoNode | EventRefusal::NoMessage => Ok(()),
        EventRefusal::ByActor(refusal) => push_refusal(line, *refusal, text),
        EventRefusal::ByState(fault) => push_fault(line.alloc, line.fleet, *fault, bytes, text),
    }
}

// The text of a message's fault says its place already.
fn push_refusal(
    line: Line<'_>,
    refusal: PeerRefusal,
    text: &mut Vec<u8>,
) -> Result<(), AllocError> {
    match refusal {
        PeerRefusal::Rewrite(refusal) => push_rewrite(line, refusal, text),
        PeerRefusal::Offer(refusal) => push_offer(line.fleet, refusal, text),
        PeerRefusal::View(refusal) => push_pin(line.fleet, refusal, text),
        PeerRefusal::Message(_) | PeerRefusal::NoMemory => Ok(()),
    }
}

fn push_rewrite(line: Line<'_>, refusal: Refusal, text: &mut Vec<u8>) -> Result<(), AllocError> {
    match refusal {
        Refusal::Unknown(node)
        | Refusal::Hidden(node)
        | Refusal::Public(node)
        | Refusal::AlreadyObsolete(node)
        | Refusal::Exists(node) => push_node(line.fleet, node, text),
        Refusal::Fault(cause) => push_parts(&[b": ", cause_text(cause).as_bytes()], text),
        Refusal::NotLinear | Refusal::Count | Refusal::Raise => push_asked(line, text),
        Refusal::NoMemory => Ok(()),
    }
}

// Appends what the line's operation asked for that can't be had: what a fold takes, how many, new parents or a phase.
fn push_asked(line: Line<'_>, text: &mut Vec<u8>) -> Result<(), AllocError> {
    let (at, operation) = match read_command(line.words) {
        Ok(Some(Command::Operation(at, operation))) => (at, operation),
        _ => return Ok(()),
    };
    let replica = match line.fleet.kept_of(at) {
        Some(kept) => kept.replica(),
        None => return Ok(()),
    };
    match operation {
        Operation::Split { new, .. } => push_count(line.alloc, SPLIT, new.len(), text),
        Operation::Fold { old, .. } if old.len() < 2 => {
            push_count(line.alloc, FOLD, old.len(), text)
        }
        Operation::Fold { old, .. } => push_gap(line.fleet, replica, old, text),
        Operation::Relocate { old, parents, .. } => {
            push_parent(line.fleet, replica, old, parents, text)
        }
        Operation::Advance { label, phase } => {
            push_raise(line.fleet, replica, label, phase, text)
        }
        Operation::Commit { .. } | Operation::Amend { .. } | Operation::Prune { .. } => Ok(()),
    }
}

// How many changesets a split makes.
const SPLIT: &str = "a split makes 2 to 255";

// How many changesets a fold takes.
const FOLD: &str = "a fold takes 2 or more";

// Appends how many there may be, and how many there are.
fn push_count(
    alloc: Global,
    allowed: &str,
    given: usize,
    text: &mut Vec<u8>,
) -> Result<(), AllocError> {
    let reason = format!(in alloc; ": {allowed}, not {given}")?;
    text.extend_from_slice(reason.as_bytes())
}

// Appends which is the first of a fold's changesets whose sole parent isn't the one before.
fn push_gap(
    fleet: &Fleet,
    replica: &Replica,
    labels: &[&[u8]],
    text: &mut Vec<u8>,
) -> Result<(), AllocError> {
    for pair in labels.windows(2) {
        if !stands_alone_on(fleet, replica, pair[1], pair[0]) {
            let parts = [b": ", pair[1], b" does not stand on ", pair[0], b" alone"];
            return push_parts(&parts, text);
        }
    }
    Ok(())
}

// Whether the second changeset is the sole parent of the first.
fn stands_alone_on(fleet: &Fleet, replica: &Replica, label: &[u8], parent: &[u8]) -> bool {
    let (node, parent) = match (fleet.node_of(label), fleet.node_of(parent)) {
        (Some(node), Some(parent)) => (node, parent),
        _ => return false,
    };
    match replica.graph().changeset(node) {
        Some(changeset) => changeset.parents() == (parent, Node::NULL),
        None => false,
    }
}

// Appends which new parent of a relocation is what would be relocated, or stands on it.
fn push_parent(
    fleet: &Fleet,
    replica: &Replica,
    old: &[u8],
    parents: Parents<'_>,
    text: &mut Vec<u8>,
) -> Result<(), AllocError> {
    let parent = match parents {
        Parents::NoParent => return Ok(()),
        Parents::One(p) => p,
        Parents::Two(p, q) => {
            if stands_on(fleet, replica, p, old)? {
                p
            } else {
                q
            }
        }
    };
    if parent == old {
        return push_parts(&[b": ", old, b" would stand on itself"], text);
    }
    push_parts(&[b": ", parent, b" stands on ", old], text)
}

// Whether the first changeset is the second one, or stands on it.
fn stands_on(
    fleet: &Fleet,
    replica: &Replica,
    label: &[u8],
    ancestor: &[u8],
) -> Result<bool, AllocError> {
    match (fleet.node_of(label), fleet.node_of(ancestor)) {
        (Some(node), Some(ancestor)) => replica.graph().is_ancestor(ancestor, node),
        _ => Ok(false),
    }
}

// Appends which phase the changeset has, and that it can't go up to the one that was asked for.
fn push_raise(
    fleet: &Fleet,
    replica: &Replica,
    label: &[u8],
    asked: Phase,
    text: &mut Vec<u8>,
) -> Result<(), AllocError> {
    let node = match fleet.node_of(label) {
        Some(node) => node,
        None => return Ok(()),
    };
    match replica.phase_of(node)? {
        Some(present) => {
            push_parts(&[b": ", label, b" is "], text)?;
            let phases = [
                present.word().as_bytes(),
                b", and no phase goes up to ",
                asked.word().as_bytes(),
            ];
            push_parts(&phases, text)
        }
        None => Ok(()),
    }
}

// Appends the parts, one after the other.
fn push_parts(parts: &[&[u8]], text: &mut Vec<u8>) -> Result<(), AllocError> {
    for part in parts {
        text.extend_from_slice(*part)?;
    }
    Ok(())
}

fn push_offer(fleet: &Fleet, refusal: OfferRefusal, text: &mut Vec<u8>) -> Result<(), AllocError> {
    match refusal {
        OfferRefusal::UnknownCommon(node) => push_node(fleet, node, text),
        OfferRefusal::TooLarge | OfferRefusal::NoMemory => Ok(()),
    }
}

fn push_pin(fleet: &Fleet, refusal: PinRefusal, text: &mut Vec<u8>) -> Result<(), AllocError> {
    match refusal {
        PinRefusal::Unknown(node) | PinRefusal::NotPinned(node) => push_node(fleet, node, text),
        PinRefusal::NoMemory => Ok(()),
    }
}

fn push_fault(
    alloc: Global,
    fleet: &Fleet,
    fault: Fault,
    bytes: Option<&[u8]>,
    text: &mut Vec<u8>,
) -> Result<(), AllocError> {
    match fault {
        Fault::UnknownParent(parent) => {
            push_node(fleet, parent, text)?;
            push_child(alloc, fleet, bytes, parent, text)
        }
        Fault::Collision(node) | Fault::UnknownBound(node) => push_node(fleet, node, text),
        Fault::NullBound | Fault::NoMemory => Ok(()),
    }
}

// Appends which changeset of the message of these bytes has this parent.
fn push_child(
    alloc: Global,
    fleet: &Fleet,
    bytes: Option<&[u8]>,
    parent: Node,
    text: &mut Vec<u8>,
) -> Result<(), AllocError> {
    match child_in(alloc, bytes, parent)? {
        Some(child) => {
            text.extend_from_slice(b" of")?;
            push_node(fleet, child, text)
        }
        None => Ok(()),
    }
}

// The first changeset with this parent in the message of these bytes.
fn child_in(alloc: Global, bytes: Option<&[u8]>, parent: Node) -> Result<Option<Node>, AllocError> {
    let bytes = match bytes {
        Some(bytes) => bytes,
        None => return Ok(None),
    };
    match Message::from_bytes(alloc, bytes) {
        Ok(message) => Ok(child_of(message.changesets(), parent)),
        Err(ReadError::Fault(_)) => Ok(None),
        Err(ReadError::NoMemory) => Err(AllocError),
    }
}

// The first of the changesets with this parent.
fn child_of(changesets: &[Changeset], parent: Node) -> Option<Node> {
    for changeset in changesets {
        let (first, second) = changeset.parents();
        if first == parent || second == parent {
            return Some(changeset.node());
        }
    }
    None
}

/// Appends a space and what a changeset is called: its label, or else the first 12 digits of its id.
pub fn push_node(fleet: &Fleet, node: Node, text: &mut Vec<u8>) -> Result<(), AllocError> {
    text.extend_from_slice(b" ")?;
    match fleet.changeset_label(node) {
        Some(label) => text.extend_from_slice(label),
        None => text.extend_from_slice(&node.to_hex()[..12]),
    }
}

// What is at fault in what an operation would write.
fn cause_text(cause: Cause) -> &'static str {
    match cause {
        Cause::Entry(error) => entry_text(error),
        Cause::Changeset(error) => changeset_text(error),
        Cause::Marker(error) => marker_text(error),
    }
}

fn entry_text(error: EntryError) -> &'static str {
    match error {
        EntryError::EmptyUser => "the user is empty",
        EntryError::NewlineInUser => "the user has more than one line",
        EntryError::BadExtraKey => "the key of an extra is bad",
        EntryError::NoMemory => "no memory",
    }
}

fn changeset_text(error: ChangesetError) -> &'static str {
    match error {
        ChangesetError::SameParent => "both parents are the same",
        ChangesetError::TextTooLong => "the text is too long",
        ChangesetError::NullNode => "the id is the null id",
    }
}

fn marker_text(error: MarkerError) -> &'static str {
    match error {
        MarkerError::SelfSuccessor => "a changeset would replace itself",
        MarkerError::NullSuccessor => "a successor is the null id",
        MarkerError::BadKey => "a key of the metadata is bad",
        MarkerError::BadValue => "a value of the metadata is bad",
        MarkerError::TooManySuccessors => "there are more than 255 successors",
        MarkerError::MetaTooLong => "the metadata is too long",
    }
}
