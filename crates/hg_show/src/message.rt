//! Messages as text.
ghost use Rattle.std.specs.Prelude.{◌≡◌, ◌⊎◌, ◌++◌, IfErr, IfSome, OnOk};
ghost use Rattle.std.specs.Io.KnownBytes.{Appends};
ghost use Rattle.hg_show.specs.Answers.{ShowAnswer, message_fault_in};
ghost use Rattle.hg_show.specs.Printing.{AreLines, IsBoundText, IsChangesetText, IsMessageShown, IsMessageText, Text};
ghost use Rattle.hg_show.specs.Printing.{heading_text, line_of, scope_word};

use crate::fault::ShowFault;
use crate::line::{print_line, push_escaped, push_node, push_nodes, push_shown};
use crate::roots::push_root;
use crate::store::print_markers;
use hg_changeset::{Changeset, Node};
use hg_log::title_of;
use hg_marker::ReadError;
use hg_message::{Message, Scope};
use hg_phases::Phase;
use std::alloc::{AllocError, Global};
use std::io::Write;

/// Prints a message: its scope and how much it holds, then a line for each changeset, each bound and each marker.
pub(crate) fn show_message<W: Write>(
    alloc: Global,
    bytes: &[u8],
    writer: &mut W,
) -> Result<(), ShowFault>
    ensures answer { ShowAnswer (message_fault_in bytes.now) result }
    ensures unprinted { IfSome (message_fault_in bytes.now) (λ _. W.contents writer.new ≡ W.contents writer.old) }
    ensures printed { OnOk result ((text : Text) × IsMessageShown bytes.now text
        × Appends (W.contents writer.old) (W.contents writer.new) text) }
{
    match Message::from_bytes(alloc, bytes) {
        Ok(message) => print_message(alloc, &message, writer),
        Err(ReadError::NoMemory) => Err(ShowFault::NoMemory),
        Err(ReadError::Fault(fault)) => Err(ShowFault::Message(fault)),
    }
}

fn print_message<W: Write>(
    alloc: Global,
    message: &Message,
    writer: &mut W,
) -> Result<(), ShowFault>
    ensures printed { OnOk result ((text : Text) × IsMessageText message.now text
        × Appends (W.contents writer.old) (W.contents writer.new) text) }
    ensures err { IfErr result (λ fault. (fault ≡ ShowFault.Write) ⊎ (fault ≡ ShowFault.NoMemory)) }
{
    print_heading(alloc, message, writer)?;
    print_changesets(alloc, message.changesets(), writer)?;
    print_bounds(alloc, message.bounds(), writer)?;
    print_markers(alloc, message.markers(), writer)?;
    Ok(())
}

fn print_heading<W: Write>(
    alloc: Global,
    message: &Message,
    writer: &mut W,
) -> Result<(), ShowFault>
    ensures printed { OnOk result
        (Appends (W.contents writer.old) (W.contents writer.new) (line_of (heading_text message.now))) }
    ensures err { IfErr result (λ fault. (fault ≡ ShowFault.Write) ⊎ (fault ≡ ShowFault.NoMemory)) }
{
    let scope = scope_word(message.scope());
    let changesets = message.changesets().len();
    let bounds = message.bounds().len();
    let markers = message.markers().len();
    let mut line = Vec::new(alloc);
    let heading = format_args!(
        "{scope}: {changesets} changesets {bounds} bounds {markers} markers"
    );
    push_shown(alloc, &mut line, heading)?;
    print_line(writer, &mut line)
}

fn scope_word(scope: Scope) -> &'static str
    ensures { result.now ≡ scope_word scope }
{
    match scope {
        Scope::Served => "served",
        Scope::Whole => "whole",
    }
}

fn print_changesets<W: Write>(
    alloc: Global,
    changesets: &[Changeset],
    writer: &mut W,
) -> Result<(), ShowFault>
    ensures printed { OnOk result ((text : Text) × AreLines IsChangesetText changesets.now text
        × Appends (W.contents writer.old) (W.contents writer.new) text) }
    ensures err { IfErr result (λ fault. (fault ≡ ShowFault.Write) ⊎ (fault ≡ ShowFault.NoMemory)) }
{
    let mut line = Vec::new(alloc);
    for changeset in changesets {
        push_changeset(alloc, &mut line, changeset)?;
        print_line(writer, &mut line)?;
    }
    Ok(())
}

// Appends `changeset ID {PARENTS} N bytes`, and the first line of its description where its text is that of an entry.
fn push_changeset(
    alloc: Global,
    line: &mut Vec<u8>,
    changeset: &Changeset,
) -> Result<(), AllocError>
    ensures { OnOk result ((text : Text) × IsChangesetText changeset.now text
        × (line.new.items ≡ line.old.items ++ text)) }
{
    line.extend_from_slice(b"changeset ")?;
    push_node(line, changeset.node())?;
    push_details(alloc, line, changeset)
}

// Appends the parents, the size and the first line of the description, with a space before the parents.
fn push_details(alloc: Global, line: &mut Vec<u8>, changeset: &Changeset) -> Result<(), AllocError>
    ensures { OnOk result ((text : Text) × (line.new.items ≡ line.old.items ++ text)) }
{
    line.push(b' ')?;
    push_parents(line, changeset.parents())?;
    let len = changeset.text().len();
    push_shown(alloc, line, format_args!(" {len} bytes"))?;
    push_summary(line, changeset)
}

// Appends those of the parents that aren't absent. A null id, which stands for an absent one, is last.
fn push_parents(line: &mut Vec<u8>, parents: (Node, Node)) -> Result<(), AllocError>
    ensures { OnOk result ((text : Text) × (line.new.items ≡ line.old.items ++ text)) }
{
    let (first, second) = parents;
    if first.is_null() {
        return push_nodes(line, &[]);
    }
    if second.is_null() {
        return push_nodes(line, &[first]);
    }
    push_nodes(line, &[first, second])
}

// Appends a colon, a space and the first line of the description, where the text is that of an entry.
fn push_summary(line: &mut Vec<u8>, changeset: &Changeset) -> Result<(), AllocError>
    ensures { OnOk result ((text : Text) × (line.new.items ≡ line.old.items ++ text)) }
{
    match title_of(changeset) {
        Some(title) => {
            line.extend_from_slice(b": ")?;
            push_escaped(line, title, None)
        }
        None => Ok(()),
    }
}

fn print_bounds<W: Write>(
    alloc: Global,
    bounds: &[(Node, Phase)],
    writer: &mut W,
) -> Result<(), ShowFault>
    ensures printed { OnOk result ((text : Text) × AreLines IsBoundText bounds.now text
        × Appends (W.contents writer.old) (W.contents writer.new) text) }
    ensures err { IfErr result (λ fault. (fault ≡ ShowFault.Write) ⊎ (fault ≡ ShowFault.NoMemory)) }
{
    let mut line = Vec::new(alloc);
    for (node, phase) in bounds {
        push_bound(&mut line, *node, *phase)?;
        print_line(writer, &mut line)?;
    }
    Ok(())
}

fn push_bound(line: &mut Vec<u8>, node: Node, phase: Phase) -> Result<(), AllocError>
    ensures { OnOk result ((text : Text) × IsBoundText (node, phase) text
        × (line.new.items ≡ line.old.items ++ text)) }
{
    line.extend_from_slice(b"bound ")?;
    push_root(line, phase, node)
}
