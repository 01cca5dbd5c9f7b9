//! What helps with the fault of a line: the form of its command, the command that was meant, what a word may be, or
//! which nodes there are.
use crate::blaming::Blamed;
use crate::command::Command;
use crate::fault::LineFault;
use crate::fleet::Fleet;
use crate::reading::read_command;
use std::alloc::{AllocError, Global};

/// What helps with the fault of a line.
#[derive(Clone, Copy)]
pub enum Hint {
    /// How the command is written. It stands in the place of the word that the fault is about.
    Form(&'static str),
    /// What is put behind that word.
    Behind(&'static str),
    /// The command that was meant, as its spelling seems to say.
    Misspelt(&'static str),
}

// Each command, and how it is written.
const FORMS: [(&str, &str); 17] = [
    ("node", "node AT"),
    ("commit", "commit AT NEW PHASE [P [Q]]"),
    ("amend", "amend AT OLD NEW"),
    ("split", "split AT OLD NEW .."),
    ("fold", "fold AT NEW OLD .."),
    ("prune", "prune AT OLD"),
    ("relocate", "relocate AT OLD NEW [P [Q]]"),
    ("phase", "phase AT LABEL PHASE"),
    ("pin", "pin AT LABEL"),
    ("unpin", "unpin AT LABEL"),
    ("offer", "offer AT MSG [LABEL ..]"),
    ("whole", "whole AT MSG [LABEL ..]"),
    ("take", "take AT MSG"),
    ("pull", "pull TO FROM"),
    ("share", "share TO FROM"),
    ("report", "report AT"),
    ("agree", "agree A B"),
];

// What does here what is called so elsewhere.
const ELSEWHERE: [(&str, &str); 7] = [
    ("push", "pull TO FROM"),
    ("rebase", "relocate"),
    ("evolve", "relocate"),
    ("merge", "commit AT NEW PHASE P Q"),
    ("publish", "phase AT LABEL public"),
    ("strip", "prune"),
    ("log", "hgfleet log AT < SCRIPT"),
];

// What helps with a comment behind a command.
const COMMENT: &str = "a comment takes a line of its own";

/// What helps with the fault of a line of these words, which is about this one.
pub fn hint_at_fault(words: &[&[u8]], fault: LineFault, word: &[u8]) -> Option<Hint> {
    let command = match words.first() {
        Some(word) => *word,
        None => return None,
    };
    match fault {
        LineFault::UnknownCommand => command_hint(command),
        LineFault::WordCount => count_hint(command, words),
        LineFault::BadName | LineFault::BadPhase if word.starts_with(b"#") => behind(Some(COMMENT)),
        LineFault::BadName => behind(Some("1 to 32 of A-Z a-z 0-9 _ . -")),
        LineFault::BadPhase => behind(Some(phases_of(command))),
        LineFault::TooLong | LineFault::UnknownName | LineFault::NameTaken => None,
    }
}

fn behind(text: Option<&'static str>) -> Option<Hint> {
    match text {
        Some(text) => Some(Hint::Behind(text)),
        None => None,
    }
}

// What helps with a word that is no command.
fn command_hint(word: &[u8]) -> Option<Hint> {
    match meant(word) {
        Some(help) => Some(Hint::Behind(help)),
        None => match misspelt_command(word) {
            Some(command) => Some(Hint::Misspelt(command)),
            None => None,
        },
    }
}

// What was meant by a word that is no command, where it is certain.
fn meant(word: &[u8]) -> Option<&'static str> {
    if word.starts_with(b"\xef\xbb\xbf") {
        return Some("the script begins with a byte order mark");
    }
    if word.contains(&b'\t') {
        return Some("words are divided by spaces, not by tabs");
    }
    if word.starts_with(b"#") {
        return Some("the # of a comment begins its line");
    }
    text_of(&ELSEWHERE, word)
}

// The text that stands beside the word.
fn text_of(table: &[(&'static str, &'static str)], word: &[u8]) -> Option<&'static str> {
    for row in table {
        if row.0.as_bytes() == word {
            return Some(row.1);
        }
    }
    None
}

// The first command of which the word is a misspelling.
fn misspelt_command(word: &[u8]) -> Option<&'static str> {
    for form in &FORMS {
        if is_misspelling(word, form.0.as_bytes()) {
            return Some(form.0);
        }
    }
    None
}

// Whether the word is the command with a letter left out, added or mistaken, or with two that changed places.
fn is_misspelling(word: &[u8], command: &[u8]) -> bool {
    let front = common_front(word, command);
    let shorter = word.len().min(command.len());
    let longer = word.len().max(command.len());
    let same = front
        .saturating_add(common_back(word, command))
        .min(shorter);
    let next = front.saturating_add(1);
    let is_swapped = word.len() == command.len()
        && word.get(front) == command.get(next)
        && word.get(next) == command.get(front);
    let wrong = longer.saturating_sub(same);
    wrong < 2 || is_swapped && wrong == 2
}

// How many bytes the two begin with alike.
fn common_front(one: &[u8], other: &[u8]) -> usize {
    let mut count: usize = 0;
    for (a, b) in one.iter().zip(other) {
        if a != b {
            return count;
        }
        count = count.saturating_add(1);
    }
    count
}

// How many bytes the two end with alike.
fn common_back(one: &[u8], other: &[u8]) -> usize {
    let mut count: usize = 0;
    for (a, b) in one.iter().rev().zip(other.iter().rev()) {
        if a != b {
            return count;
        }
        count = count.saturating_add(1);
    }
    count
}

// What helps where there are too many words, or too few.
fn count_hint(command: &[u8], words: &[&[u8]]) -> Option<Hint> {
    for word in words {
        if word.starts_with(b"#") {
            return behind(Some(COMMENT));
        }
    }
    match text_of(&FORMS, command) {
        Some(form) => Some(Hint::Form(form)),
        None => None,
    }
}

// Which phases a command takes.
fn phases_of(command: &[u8]) -> &'static str {
    if command == b"commit".as_slice() {
        "draft or secret; a changeset is published by: phase AT LABEL public"
    } else {
        "public, draft or secret"
    }
}

// So many nodes are named before it is said how many more there are.
const NAMED: usize = 3;

/// What helps with a name that stands for nothing in a line of these words, where no line would have given it: which
/// nodes there are, or how the command is written. It is put behind the name.
pub fn help_at_unknown(
    alloc: Global,
    fleet: &Fleet,
    words: &[&[u8]],
    blamed: Blamed<'_>,
) -> Result<Option<String>, AllocError> {
    match blamed {
        Blamed::Node(_) => Ok(Some(nodes_text(alloc, fleet)?)),
        Blamed::Label(_) => match form_of_turned(fleet, words) {
            Some(form) => Ok(Some(format!(in alloc; " ({form})")?)),
            None => Ok(None),
        },
        Blamed::Message(_) | Blamed::Word(_) => Ok(None),
    }
}

// Which nodes there are.
fn nodes_text(alloc: Global, fleet: &Fleet) -> Result<String, AllocError> {
    let names = fleet.node_names()?;
    if names.is_empty() {
        return String::from_str(alloc, " (no node is made yet)");
    }
    let mut text = String::from_str(alloc, " (nodes:")?;
    for name in names.iter().take(NAMED) {
        text.push(' ')?;
        text.push_str(&printable(alloc, *name)?)?;
    }
    if names.len() > NAMED {
        text.push_str(&format!(in alloc; " and {} more", names.len() - NAMED)?)?;
    }
    text.push(')')?;
    Ok(text)
}

// How the operation of these words is written, if what it would make is there already: then old and new labels may
// stand in each other's places.
fn form_of_turned(fleet: &Fleet, words: &[&[u8]]) -> Option<&'static str> {
    let operation = match read_command(words) {
        Ok(Some(Command::Operation(_, operation))) => operation,
        _ => return None,
    };
    for label in operation.new_labels() {
        if fleet.node_of(*label).is_some() {
            return text_of(&FORMS, *words.first()?);
        }
    }
    None
}

/// The word, where bytes that aren't printed, quotes and backslashes are escaped.
pub fn printable(alloc: Global, word: &[u8]) -> Result<String, AllocError> {
    let mut text = String::new(alloc);
    for byte in word.escape_ascii() {
        text.push(char::from(byte))?;
    }
    Ok(text)
}
