//! What an accepted line did, in one line.
ghost use Rattle.std.specs.Prelude.{OnOk, true};
ghost use Rattle.hg_line.specs.Printing.{IsTraced};

use crate::command::Command;
use crate::explaining::{is_in_line, push_node};
use crate::fleet::Fleet;
use crate::line_outcome::LineOutcome;
use crate::marking::Marking;
use crate::reading::read_command;
use crate::unstable::{Unstable, push_unstable_change};
use hg_changeset::Node;
use hg_peer::Scope;
use hg_phases::Phase;
use hg_replica::Change;
use hg_world::Answer;
use std::alloc::{AllocError, Global};

/// A line that was done.
#[derive(Drop)]
pub struct Done {
    pub number: usize,
    pub outcome: LineOutcome,
    /// What was unstable before it at the node that it changed, where lines are traced.
    pub before: Option<Unstable>,
}

/// Appends a line of what the line of these words did, where lines are traced, and it was accepted and asked for an
/// event.
pub fn trace(
    alloc: Global,
    fleet: &Fleet,
    words: &[&[u8]],
    done: &Done,
    traces: bool,
    text: &mut Vec<u8>,
) -> Result<(), AllocError>
    ensures { OnOk result (IsTraced traces text.old.items text.new.items) }
{
    if !traces {
        return Ok(());
    }
    let note = note_of(alloc, fleet, words, done)?;
    if note.is_empty() {
        return Ok(());
    }
    put_below(&note, text)
}

// Puts the note below the text, in a line of its own. A note of several lines isn't put.
fn put_below(note: &[u8], text: &mut Vec<u8>) -> Result<(), AllocError>
    ensures { OnOk result (IsTraced true text.old.items text.new.items) }
{
    if !is_in_line(note) {
        return Ok(());
    }
    text.extend_from_slice(note)?;
    text.extend_from_slice(b"\n")?;
    Ok(())
}

// What the line of these words did; nothing, where it wasn't accepted or asked for no event.
fn note_of(
    alloc: Global,
    fleet: &Fleet,
    words: &[&[u8]],
    done: &Done,
) -> Result<Vec<u8>, AllocError> {
    let mut note = Vec::new(alloc);
    match read_command(words) {
        Ok(Some(command)) => push_note(alloc, fleet, done, command, &mut note)?,
        Ok(None) | Err(_) => {}
    }
    Ok(note)
}

fn push_note(
    alloc: Global,
    fleet: &Fleet,
    done: &Done,
    command: Command<'_>,
    text: &mut Vec<u8>,
) -> Result<(), AllocError> {
    match &done.outcome {
        LineOutcome::Nothing => Ok(()),
        LineOutcome::Event { at, answer } => match answer {
            Answer::Accepted(change) => trace_change(alloc, fleet, done, *at, change, text),
            Answer::Offered(message) => {
                trace_offer(alloc, fleet, done.number, command, *message, text)
            }
            Answer::Marked => trace_mark(alloc, done.number, command, text),
            Answer::Refused(_) => Ok(()),
        },
        LineOutcome::Taken { at, answer, .. } => match answer {
            Answer::Accepted(change) => trace_change(alloc, fleet, done, *at, change, text),
            Answer::Offered(_) | Answer::Marked | Answer::Refused(_) => Ok(()),
        },
        LineOutcome::Pulled { at, pulled } => match (&pulled.offered, &pulled.taken) {
            (Answer::Offered(message), Some(Answer::Accepted(change))) => {
                push_number(alloc, done.number, text)?;
                push_sides(command, text)?;
                push_change(alloc, fleet, *at, change, text)?;
                push_unstable_change(alloc, fleet, *at, done.before.as_ref(), text)?;
                push_size(alloc, fleet, *message, text)
            }
            _ => Ok(()),
        },
    }
}

// Appends the trace of what changed at the node of a place.
fn trace_change(
    alloc: Global,
    fleet: &Fleet,
    done: &Done,
    at: usize,
    change: &Change,
    text: &mut Vec<u8>,
) -> Result<(), AllocError> {
    push_number(alloc, done.number, text)?;
    push_change(alloc, fleet, at, change, text)?;
    push_unstable_change(alloc, fleet, at, done.before.as_ref(), text)
}

// Appends the trace of an offer: the name of the message, and its size.
fn trace_offer(
    alloc: Global,
    fleet: &Fleet,
    number: usize,
    command: Command<'_>,
    message: usize,
    text: &mut Vec<u8>,
) -> Result<(), AllocError> {
    let name = match command {
        Command::Offer(_, _, name, _) => name,
        _ => return Ok(()),
    };
    push_number(alloc, number, text)?;
    text.extend_from_slice(b" offered ")?;
    text.extend_from_slice(name)?;
    push_size(alloc, fleet, message, text)
}

// Appends the trace of a mark.
fn trace_mark(
    alloc: Global,
    number: usize,
    command: Command<'_>,
    text: &mut Vec<u8>,
) -> Result<(), AllocError> {
    let (word, label): (&[u8], &[u8]) = match command {
        Command::Mark(_, Marking::Pin(label)) => (b" pinned ", label),
        Command::Mark(_, Marking::Unpin(label)) => (b" unpinned ", label),
        _ => return Ok(()),
    };
    push_number(alloc, number, text)?;
    text.extend_from_slice(word)?;
    text.extend_from_slice(label)
}

fn push_number(alloc: Global, number: usize, text: &mut Vec<u8>) -> Result<(), AllocError> {
    let shown = format!(in alloc; "{number}:")?;
    text.extend_from_slice(shown.as_bytes())
}

// Appends who took from whom, in a pull or a share.
fn push_sides(command: Command<'_>, text: &mut Vec<u8>) -> Result<(), AllocError> {
    let (scope, to, from) = match command {
        Command::Pull(scope, to, from) => (scope, to, from),
        _ => return Ok(()),
    };
    text.extend_from_slice(b" ")?;
    text.extend_from_slice(to)?;
    text.extend_from_slice(match scope {
        Scope::Served => b" pulled from ".as_slice(),
        Scope::Whole => b" took the whole of ".as_slice(),
    })?;
    text.extend_from_slice(from)?;
    text.extend_from_slice(b":")
}

// Appends the size of a message in brackets.
fn push_size(
    alloc: Global,
    fleet: &Fleet,
    message: usize,
    text: &mut Vec<u8>,
) -> Result<(), AllocError> {
    let size = size_of(fleet, message);
    let shown = format!(in alloc; " ({size} bytes)")?;
    text.extend_from_slice(shown.as_bytes())
}

// How many bytes a message has.
fn size_of(fleet: &Fleet, message: usize) -> usize {
    match fleet.message_at(message) {
        Some(bytes) => bytes.len(),
        None => 0,
    }
}

// Appends what was added, what went to a lower phase and how many markers are new, or that there is nothing of these.
fn push_change(
    alloc: Global,
    fleet: &Fleet,
    at: usize,
    change: &Change,
    text: &mut Vec<u8>,
) -> Result<(), AllocError> {
    if change.is_empty() {
        return text.extend_from_slice(b" added nothing");
    }
    let start = text.len();
    push_added(fleet, at, &change.added, text)?;
    push_lowered(
        alloc,
        fleet,
        at,
        &change.lowered,
        Phase::Public,
        start,
        text,
    )?;
    push_lowered(alloc, fleet, at, &change.lowered, Phase::Draft, start, text)?;
    push_marked(alloc, change.markers.len(), start, text)
}

// Appends a comma where something stands behind the start already.
fn push_comma(start: usize, text: &mut Vec<u8>) -> Result<(), AllocError> {
    if text.len() > start {
        text.extend_from_slice(b",")?;
    }
    Ok(())
}

fn push_added(
    fleet: &Fleet,
    at: usize,
    added: &[Node],
    text: &mut Vec<u8>,
) -> Result<(), AllocError> {
    if added.is_empty() {
        return Ok(());
    }
    text.extend_from_slice(b" added")?;
    for node in added {
        push_node_at(fleet, at, *node, text)?;
    }
    Ok(())
}

// Appends those of the changesets that are in this phase now, by what they are called.
fn push_lowered(
    alloc: Global,
    fleet: &Fleet,
    at: usize,
    lowered: &[Node],
    phase: Phase,
    start: usize,
    text: &mut Vec<u8>,
) -> Result<(), AllocError> {
    let names = names_in_phase(alloc, fleet, at, lowered, phase)?;
    if names.is_empty() {
        return Ok(());
    }
    push_comma(start, text)?;
    text.extend_from_slice(b" lowered")?;
    push_names(&names, text)?;
    text.extend_from_slice(match phase {
        Phase::Public => b" to public".as_slice(),
        Phase::Draft => b" to draft".as_slice(),
        Phase::Secret => b" to secret".as_slice(),
    })
}

// What those of the changesets are called that are in this phase now, in byte order.
fn names_in_phase(
    alloc: Global,
    fleet: &Fleet,
    at: usize,
    nodes: &[Node],
    phase: Phase,
) -> Result<Vec<Vec<u8>>, AllocError> {
    let mut names = Vec::new(alloc);
    for node in nodes {
        if phase_of(fleet, at, *node) == Some(phase) {
            add_name(alloc, fleet, at, *node, &mut names)?;
        }
    }
    names.sort_unstable();
    Ok(names)
}

/// Puts what a changeset is called behind the names.
pub fn add_name(
    alloc: Global,
    fleet: &Fleet,
    at: usize,
    node: Node,
    names: &mut Vec<Vec<u8>>,
) -> Result<(), AllocError> {
    let mut name = Vec::new(alloc);
    push_node_at(fleet, at, node, &mut name)?;
    names.push(name)?;
    Ok(())
}

/// Appends the names.
pub fn push_names(names: &[Vec<u8>], text: &mut Vec<u8>) -> Result<(), AllocError> {
    for name in names {
        text.extend_from_slice(name)?;
    }
    Ok(())
}

// The phase of a changeset at the node of a place.
fn phase_of(fleet: &Fleet, at: usize, node: Node) -> Option<Phase> {
    let replica = fleet.kept_at(at)?.replica();
    replica.phase_at(replica.graph().place(node)?)
}

fn push_marked(
    alloc: Global,
    count: usize,
    start: usize,
    text: &mut Vec<u8>,
) -> Result<(), AllocError> {
    if count == 0 {
        return Ok(());
    }
    push_comma(start, text)?;
    let shown = format!(in alloc; " marked {count}")?;
    text.extend_from_slice(shown.as_bytes())
}

// Appends what a changeset is called that the node of a place holds. Its label is its description.
fn push_node_at(
    fleet: &Fleet,
    at: usize,
    node: Node,
    text: &mut Vec<u8>,
) -> Result<(), AllocError> {
    match label_at(fleet, at, node) {
        Some(label) => {
            text.extend_from_slice(b" ")?;
            text.extend_from_slice(label)
        }
        None => push_node(fleet, node, text),
    }
}

// The description of a changeset that the node of a place holds, where that is a label of it.
fn label_at(fleet: &Fleet, at: usize, node: Node) -> Option<&[u8]> {
    let changeset = fleet.kept_at(at)?.replica().graph().changeset(node)?;
    let label = changeset.last_line();
    if fleet.node_of(label)? == node {
        Some(label)
    } else {
        None
    }
}
