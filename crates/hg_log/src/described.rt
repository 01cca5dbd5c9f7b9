//! What is written of a changeset: its id, its label, its phase, and what is unstable about it.
ghost use Rattle.std.specs.Prelude.{◌≡◌, ◌++◌, OnOk};
ghost use Rattle.std.specs.Char.Escape.{escape_ascii};
ghost use Rattle.hg_log.specs.declared.colour.Colour.TheVariants.{Yellow};
ghost use Rattle.hg_log.specs.Colours.{in_colour};
ghost use Rattle.hg_log.specs.Drawings.{Extends, short_id};
ghost use Rattle.hg_log.specs.Titles.{escaped};

use crate::colour::{Colour, push_coloured};
use crate::line::push_text;
use crate::titles::{label_of, title_of};
use hg_changeset::{Changeset, Node};
use hg_replica::Replica;
use hg_view::Status;
use std::alloc::AllocError;

/// Appends the first 12 hexadecimal digits of an id, as Mercurial writes ids for people.
pub fn push_short_id(line: &mut Vec<u8>, node: Node) -> Result<(), AllocError>
    ensures { OnOk result (line.new.items ≡ line.old.items ++ short_id node) }
{
    push_id(line, node, false)
}

/// Appends the short id, in yellow where there are to be colours.
pub(crate) fn push_id(line: &mut Vec<u8>, node: Node, is_coloured: bool) -> Result<(), AllocError>
    ensures { OnOk result (line.new.items ≡ line.old.items ++ in_colour Yellow is_coloured (short_id node)) }
{
    push_coloured(line, Colour::Yellow, is_coloured, &node.to_hex()[..12])
}

/// Appends a label. Bytes that aren't printed, quotes and backslashes are written as `escape_ascii` has them.
pub fn push_label(line: &mut Vec<u8>, label: &[u8]) -> Result<(), AllocError>
    ensures { OnOk result (line.new.items ≡ line.old.items ++ escaped label.now) }
{
    for byte in label {
        push_escape(line, *byte)?;
    }
    Ok(())
}

fn push_escape(line: &mut Vec<u8>, byte: u8) -> Result<(), AllocError>
    ensures { OnOk result (line.new.items ≡ line.old.items ++ escape_ascii byte) }
{
    for part in byte.escape_ascii() {
        line.push(part)?;
    }
    Ok(())
}

/// Appends a blank and the label of a changeset, where it has one.
pub(crate) fn push_label_of(line: &mut Vec<u8>, changeset: &Changeset) -> Result<(), AllocError>
    ensures { OnOk result (Extends line.old.items line.new.items) }
{
    let label = label_of(changeset);
    if label.is_empty() {
        return Ok(());
    }
    push_text(line, b" ")?;
    push_label(line, label)
}

/// Appends what a changeset is called that may not be held: the first line of its description, or else its short id.
pub(crate) fn push_name(
    line: &mut Vec<u8>,
    replica: &Replica,
    node: Node,
    is_coloured: bool,
) -> Result<(), AllocError> {
    match replica.graph().changeset(node) {
        Some(changeset) => push_title(line, changeset, is_coloured),
        None => push_id(line, node, is_coloured),
    }
}

fn push_title(
    line: &mut Vec<u8>,
    changeset: &Changeset,
    is_coloured: bool,
) -> Result<(), AllocError> {
    match title_of(changeset) {
        Some(title) => push_label(line, title),
        None => push_id(line, changeset.node(), is_coloured),
    }
}

/// Appends what is unstable about a changeset, with a blank before each word. Words are red where there are to be
/// colours.
pub(crate) fn push_unstable(
    line: &mut Vec<u8>,
    status: Status,
    is_coloured: bool,
) -> Result<(), AllocError>
    ensures { OnOk result (Extends line.old.items line.new.items) }
{
    push_where(line, status.orphan, is_coloured, b"orphan")?;
    push_where(
        line,
        status.phase_divergent,
        is_coloured,
        b"phase-divergent",
    )?;
    push_where(
        line,
        status.content_divergent,
        is_coloured,
        b"content-divergent",
    )
}

fn push_where(
    line: &mut Vec<u8>,
    is_so: bool,
    is_coloured: bool,
    word: &[u8],
) -> Result<(), AllocError>
    ensures { OnOk result (Extends line.old.items line.new.items) }
{
    if !is_so {
        return Ok(());
    }
    push_text(line, b" ")?;
    push_coloured(line, Colour::Red, is_coloured, word)
}
