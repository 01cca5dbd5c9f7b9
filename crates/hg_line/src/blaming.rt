//! The word of a line that ends a script.
use crate::command::Command;
use crate::command_fault::CommandFault;
use crate::fault::LineFault;
use crate::fleet::Fleet;
use crate::marking::Marking;
use crate::operation::{Operation, Parents};
use crate::reading::{is_name, read_command};
use hg_changeset::Changeset;
use hg_names::are_distinct;
use std::alloc::Global;

/// A word that the fault of a line is about.
#[derive(Clone, Copy)]
pub enum Blamed<'a> {
    /// A command, or what isn't a name or a phase.
    Word(&'a [u8]),
    /// The name of a node.
    Node(&'a [u8]),
    /// The label of a changeset.
    Label(&'a [u8]),
    /// The name of a message.
    Message(&'a [u8]),
}

impl<'a> Blamed<'a> {
    /// The word itself.
    pub fn word(self) -> &'a [u8] {
        match self {
            Blamed::Word(word) => word,
            Blamed::Node(name) => name,
            Blamed::Label(label) => label,
            Blamed::Message(name) => name,
        }
    }
}

/// The word that the fault of a line is about, if it is about one: the word that is unknown, taken
/// or bad, or the command whose number of words is wrong. The fleet is as it was before the line.
pub fn word_at_fault<'a>(
    alloc: Global,
    fleet: &Fleet,
    words: &'a [&'a [u8]],
    fault: LineFault,
) -> Result<Option<Blamed<'a>>, CommandFault> {
    match fault {
        LineFault::TooLong => Ok(None),
        LineFault::UnknownCommand | LineFault::WordCount => Ok(word_at(words, 0)),
        LineFault::BadName => Ok(bad_name(words)),
        LineFault::BadPhase => Ok(word_at(words, PHASE)),
        LineFault::UnknownName => match read_command(words) {
            Ok(Some(command)) => Ok(unknown_name(fleet, command)),
            Ok(None) | Err(_) => Ok(None),
        },
        LineFault::NameTaken => match read_command(words) {
            Ok(Some(command)) => taken_name(alloc, fleet, command),
            Ok(None) | Err(_) => Ok(None),
        },
    }
}

// Where the phase stands in the line of a commit or an advance.
const PHASE: usize = 3;

fn word_at<'a>(words: &'a [&'a [u8]], place: usize) -> Option<Blamed<'a>> {
    match words.get(place) {
        Some(word) => Some(Blamed::Word(*word)),
        None => None,
    }
}

// The first word in a name's place that is no name.
fn bad_name<'a>(words: &'a [&'a [u8]]) -> Option<Blamed<'a>> {
    let has_phase = has_phase(words);
    for place in 1..words.len() {
        let is_phase = has_phase && place == PHASE;
        if !is_phase && !is_name(words[place]) {
            return Some(Blamed::Word(words[place]));
        }
    }
    None
}

// Whether the command of the words takes a phase.
fn has_phase(words: &[&[u8]]) -> bool {
    match words.first() {
        Some(word) => *word == b"commit".as_slice() || *word == b"phase".as_slice(),
        None => false,
    }
}

// The first name that stands for nothing, in the order in which the command looks them up.
fn unknown_name<'a>(fleet: &Fleet, command: Command<'a>) -> Option<Blamed<'a>> {
    match command {
        Command::Node(_) => None,
        Command::Operation(at, operation) => {
            unknown_old(fleet, operation).or(unknown_node(fleet, at))
        }
        Command::Mark(at, Marking::Pin(label)) | Command::Mark(at, Marking::Unpin(label)) => {
            unknown_label(fleet, label).or(unknown_node(fleet, at))
        }
        Command::Offer(_, at, _, labels) => {
            unknown_among(fleet, labels).or(unknown_node(fleet, at))
        }
        Command::Take(at, message) => {
            unknown_node(fleet, at).or(unknown_message(fleet, message))
        }
        Command::Pull(_, to, from) => unknown_node(fleet, from).or(unknown_node(fleet, to)),
        Command::Report(at) => unknown_node(fleet, at),
        Command::Agree(one, other) => unknown_node(fleet, one).or(unknown_node(fleet, other)),
    }
}

fn unknown_node<'a>(fleet: &Fleet, name: &'a [u8]) -> Option<Blamed<'a>> {
    match fleet.place_of(name) {
        Some(_) => None,
        None => Some(Blamed::Node(name)),
    }
}

fn unknown_message<'a>(fleet: &Fleet, name: &'a [u8]) -> Option<Blamed<'a>> {
    match fleet.number_of(name) {
        Some(_) => None,
        None => Some(Blamed::Message(name)),
    }
}

fn unknown_label<'a>(fleet: &Fleet, label: &'a [u8]) -> Option<Blamed<'a>> {
    match fleet.node_of(label) {
        Some(_) => None,
        None => Some(Blamed::Label(label)),
    }
}

fn unknown_among<'a>(fleet: &Fleet, labels: &'a [&'a [u8]]) -> Option<Blamed<'a>> {
    for label in labels {
        match unknown_label(fleet, *label) {
            Some(unknown) => return Some(unknown),
            None => {}
        }
    }
    None
}

fn unknown_parent<'a>(fleet: &Fleet, parents: Parents<'a>) -> Option<Blamed<'a>> {
    match parents {
        Parents::NoParent => None,
        Parents::One(p) => unknown_label(fleet, p),
        Parents::Two(p, q) => unknown_label(fleet, p).or(unknown_label(fleet, q)),
    }
}

// The first label of what is to be there already that stands for nothing.
fn unknown_old<'a>(fleet: &Fleet, operation: Operation<'a>) -> Option<Blamed<'a>> {
    match operation {
        Operation::Commit { parents, .. } => unknown_parent(fleet, parents),
        Operation::Amend { old, .. } | Operation::Split { old, .. } | Operation::Prune { old } => {
            unknown_label(fleet, old)
        }
        Operation::Fold { old, .. } => unknown_among(fleet, old),
        Operation::Relocate { old, parents, .. } => {
            unknown_label(fleet, old).or(unknown_parent(fleet, parents))
        }
        Operation::Advance { label, .. } => unknown_label(fleet, label),
    }
}

// The name that the command gives and that is taken.
fn taken_name<'a>(
    alloc: Global,
    fleet: &Fleet,
    command: Command<'a>,
) -> Result<Option<Blamed<'a>>, CommandFault> {
    match command {
        Command::Node(at) => Ok(Some(Blamed::Node(at))),
        Command::Offer(_, _, message, _) => Ok(Some(Blamed::Message(message))),
        Command::Operation(at, operation) => {
            let labels = operation.new_labels();
            match twice(alloc, labels)? {
                Some(label) => Ok(Some(Blamed::Label(label))),
                None => match fleet.part_of(at, operation)? {
                    Some(part) => Ok(first_taken(fleet, labels, &part.changesets)),
                    None => Ok(None),
                },
            }
        }
        _ => Ok(None),
    }
}

// The first label that stands among those before it, too.
fn twice<'a>(alloc: Global, labels: &[&'a [u8]]) -> Result<Option<&'a [u8]>, CommandFault> {
    for end in 0..labels.len() {
        if !are_distinct(alloc, &labels[..end + 1])? {
            return Ok(Some(labels[end]));
        }
    }
    Ok(None)
}

// The first label that names another changeset than the one at its place.
fn first_taken<'a>(
    fleet: &Fleet,
    labels: &[&'a [u8]],
    changesets: &[Changeset],
) -> Option<Blamed<'a>> {
    for (label, changeset) in labels.iter().zip(changesets) {
        match fleet.node_of(*label) {
            Some(named) => {
                if named != changeset.node() {
                    return Some(Blamed::Label(*label));
                }
            }
            None => {}
        }
    }
    None
}
