//! Which line of a script gave a name that a later line is at fault with, and what helps where none did.
use crate::blaming::{Blamed, word_at_fault};
use crate::command::Command;
use crate::command_fault::CommandFault;
use crate::fault::{LineFault, RunFault};
use crate::fleet::Fleet;
use crate::hint::help_at_unknown;
use crate::lines::words_of;
use crate::reading::read_command;
use hg_expect::cut_line;
use std::alloc::{AllocError, Global};

/// What is told of the line that would have made what is unknown at a fault, but was refused, or that made what is
/// taken; what helps with an unknown name that no such line would have made. The script is this text, and these of its
/// lines were refused. The fleet is as it was before the line at fault.
pub fn origin_of(
    alloc: Global,
    fleet: &Fleet,
    text: &[u8],
    refused: &[usize],
    fault: RunFault,
) -> Result<Option<String>, CommandFault> {
    let (number, fault) = match fault {
        RunFault::Line(number, fault) => (number, fault),
        _ => return Ok(None),
    };
    let words = words_of(alloc, line_at(text, number))?;
    let blamed = match word_at_fault(alloc, fleet, words.as_slice(), fault)? {
        Some(blamed) => blamed,
        None => return Ok(None),
    };
    match line_giving(alloc, text, number, refused, fault, blamed)? {
        Some(line) => Ok(Some(told(alloc, line, fault)?)),
        None => Ok(help_without_line(alloc, fleet, words.as_slice(), fault, blamed)?),
    }
}

// What helps with a fault where no line before gave the name that it is about. If that is taken, its own line gives it
// twice.
fn help_without_line(
    alloc: Global,
    fleet: &Fleet,
    words: &[&[u8]],
    fault: LineFault,
    blamed: Blamed<'_>,
) -> Result<Option<String>, AllocError> {
    match fault {
        LineFault::UnknownName => help_at_unknown(alloc, fleet, words, blamed),
        LineFault::NameTaken => Ok(Some(String::from_str(alloc, " (twice in this line)")?)),
        _ => Ok(None),
    }
}

// What is told of the line with this number.
fn told(alloc: Global, line: usize, fault: LineFault) -> Result<String, AllocError> {
    match fault {
        LineFault::UnknownName => {
            format!(in alloc; " (line {line}, which would have made it, was refused)")
        }
        _ => format!(in alloc; " (made in line {line})"),
    }
}

// The line with this number, of which the first has number 1.
fn line_at(text: &[u8], number: usize) -> &[u8] {
    let mut rest = text;
    let mut before = 1usize;
    while !rest.is_empty() {
        let (line, after) = cut_line(rest);
        if before == number {
            return line;
        }
        before = before.saturating_add(1);
        rest = after;
    }
    rest
}

// Of the lines before the one with this number that give the name at fault: the last one that was refused, where the
// name is unknown, or the first one that wasn't, where it is taken.
fn line_giving(
    alloc: Global,
    text: &[u8],
    number: usize,
    refused: &[usize],
    fault: LineFault,
    blamed: Blamed<'_>,
) -> Result<Option<usize>, AllocError> {
    let is_unknown = matches!(fault, LineFault::UnknownName);
    let mut found = None;
    let mut rest = text;
    let mut at = 1usize;
    while at < number && !rest.is_empty() {
        let (line, after) = cut_line(rest);
        if (is_unknown || found.is_none())
            && refused.contains(&at) == is_unknown
            && gives(alloc, line, blamed)?
        {
            found = Some(at);
        }
        at = at.saturating_add(1);
        rest = after;
    }
    Ok(found)
}

// Whether the line asks for what has this name.
fn gives(alloc: Global, line: &[u8], blamed: Blamed<'_>) -> Result<bool, AllocError> {
    let words = words_of(alloc, line)?;
    let command = match read_command(words.as_slice()) {
        Ok(Some(command)) => command,
        Ok(None) | Err(_) => return Ok(false),
    };
    Ok(names(command, blamed))
}

// Whether the command gives this name.
fn names(command: Command<'_>, blamed: Blamed<'_>) -> bool {
    match command {
        Command::Node(at) => match blamed {
            Blamed::Node(name) => at == name,
            _ => false,
        },
        Command::Offer(_, _, message, _) => match blamed {
            Blamed::Message(name) => message == name,
            _ => false,
        },
        Command::Operation(_, operation) => match blamed {
            Blamed::Label(label) => operation.new_labels().contains(&label),
            _ => false,
        },
        _ => false,
    }
}
