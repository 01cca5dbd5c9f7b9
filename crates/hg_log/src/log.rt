//! The history as a text, with its changesets in columns.
ghost use Rattle.std.specs.Prelude.{◌<◌, OnOk, length};
ghost use Rattle.std.specs.Io.KnownBytes.{Appends};
ghost use Rattle.hg_changeset.specs.declared.node.Node.{Node as NodeValue};
ghost use Rattle.hg_phases.specs.State.{changesets};
ghost use Rattle.hg_log.specs.Drawings.{AreAllDrawn, Grows, HasId, IsDrawnText, StandsAt, Text};

use crate::cells::{Line, needs_padding, push_columns};
use crate::columns::{Columns, Row};
use crate::described::{push_id, push_label_of, push_unstable};
use crate::fate::{fates, push_fate};
use crate::fault::DrawFault;
use crate::kind::kind_of;
use crate::line::{push_text, write_appended};
use crate::look::Look;
use crate::shown::{Shown, node_at};
use hg_changeset::Node;
use hg_replica::Replica;
use hg_view::Kept;
use std::alloc::{AllocError, Global};
use std::io::Write;

/// Draws the history of a replica as it is now, under the pins of its node: what is visible, or all that is held where
/// the look has `shows_hidden`.
///
/// The changesets come from the last place to the first, so each before its parents, in columns as Mercurial's `log -G`
/// draws them. A row begins with the columns, where the changeset has `o`, or `*` where it is an orphan or divergent,
/// `x` where it is obsolete, and `#` where it is hidden. Behind them stand the first 12 digits of its id, its label,
/// its phase, and the words for what is unstable. The label is the first line of its description; where its text isn't
/// that of an entry, it has none. The next line has the edges to the next row. On it and on lines below stands what
/// became of an obsolete changeset, a line for each marker, by the labels of its successors or, where they have none or
/// aren't held, by their ids. Say `b` stood on `a`, and `c` on `b`, when `b` was amended:
///
/// ```text
/// o  6f1c9a0b27d4 b2 draft
/// |
/// | *  0d83be5517ac c draft orphan
/// | |
/// | x  b3a90cf4e182 b draft
/// |/   amended as b2
/// o  55e1d7c2a960 a public
///
/// ```
///
/// The line of the edges is there below a root too, and then empty. What can't be printed of a label is escaped.
///
/// Where the look has `is_coloured`, the 12 digits of ids are yellow, as Mercurial's `log.changeset` is, and the words
/// for what is unstable are red. Marks and phases stay plain, as Mercurial gives phases no colour.
///
/// It costs what is written. [`DrawFault::Write`] comes where the writer refuses a line, [`DrawFault::NoMemory`] only
/// where memory is refused for a line or for the columns; the lines before stay written.
pub fn draw_log<W: Write>(
    alloc: Global,
    kept: &Kept,
    look: Look,
    writer: &mut W,
) -> Result<(), DrawFault>
    ensures { OnOk result ((text : Text) × AreAllDrawn kept.now look.shows_hidden text
        × Appends (W.contents writer.old) (W.contents writer.new) text) }
{
    let mut columns = Columns::new(alloc);
    let mut line = Vec::new(alloc);
    let shown = Shown {
        kept,
        shows_hidden: look.shows_hidden,
    };
    let len = kept.replica().graph().len();
    for place in (0..len).rev() {
        if shown.has_place(place) {
            draw_changeset(
                kept,
                place,
                look.is_coloured,
                &mut columns,
                &mut line,
                writer,
            )?;
        }
    }
    Ok(())
}

// Draws the lines of a changeset, by means of the empty line that is lent.
fn draw_changeset<W: Write>(
    kept: &Kept,
    place: usize,
    is_coloured: bool,
    columns: &mut Columns,
    line: &mut Vec<u8>,
    writer: &mut W,
) -> Result<(), DrawFault>
    requires { place < length (changesets kept.now.replica.history) }
    ensures { OnOk result ((n : NodeValue) × (text : Text) × StandsAt kept.now place n × IsDrawnText n text
        × Appends (W.contents writer.old) (W.contents writer.new) text) }
{
    let replica = kept.replica();
    let row = columns.next_row(place, replica.graph().parent_places(place))?;
    let node = node_at(kept, place);
    let kind = kind_of(kept, node);
    let fates = fates(replica, node, kind);
    let mark = kind.mark();
    let is_tall = fates.len() > 1;
    push_columns(&row, Line::Changeset { mark, is_tall }, line)?;
    let appended = push_description(kept, place, node, is_coloured, line);
    write_appended(appended, line, writer)?;
    draw_below(replica, &row, fates, is_coloured, line, writer)
}

// Appends what a changeset is called, its phase, and what is unstable about it.
fn push_description(
    kept: &Kept,
    place: usize,
    node: Node,
    is_coloured: bool,
    line: &mut Vec<u8>,
) -> Result<(), AllocError>
    requires { place < length (changesets kept.now.replica.history) }
    ensures { OnOk result (HasId node line.new.items) }
{
    let replica = kept.replica();
    let changeset = replica.graph().changeset_at(place).unwrap();
    let phase = replica.phase_at(place).unwrap();
    push_id(line, node, is_coloured)?;
    push_label_of(line, changeset)?;
    push_text(line, b" ")?;
    push_text(line, phase.word().as_bytes())?;
    push_unstable(line, kept.status(node), is_coloured)
}

// Draws the lines below a changeset's own, with what became of it beside them.
fn draw_below<W: Write>(
    replica: &Replica,
    row: &Row,
    fates: &[usize],
    is_coloured: bool,
    line: &mut Vec<u8>,
    writer: &mut W,
) -> Result<(), DrawFault>
    ensures { OnOk result (Grows (W.contents writer.old) (W.contents writer.new)) }
{
    let rest = draw_padding(replica, row, fates, is_coloured, line, writer)?;
    let (fate, others) = next_fate(rest);
    draw_beside(replica, row, Line::Edges, fate, is_coloured, line, writer)?;
    for fate in others {
        draw_beside(
            replica,
            row,
            Line::Below,
            Some(*fate),
            is_coloured,
            line,
            writer,
        )?;
    }
    Ok(())
}

// Draws a line of padding where the row has one, and gives the markers that are left for other lines.
fn draw_padding<'a, W: Write>(
    replica: &Replica,
    row: &Row,
    fates: &'a [usize],
    is_coloured: bool,
    line: &mut Vec<u8>,
    writer: &mut W,
) -> Result<&'a [usize], DrawFault>
    ensures { OnOk result (Grows (W.contents writer.old) (W.contents writer.new)) }
{
    if fates.len() > 1 && needs_padding(row) {
        let (fate, others) = next_fate(fates);
        draw_beside(replica, row, Line::Padding, fate, is_coloured, line, writer)?;
        return Ok(others);
    }
    Ok(fates)
}

// The first marker, where there is one, and the others.
fn next_fate(fates: &[usize]) -> (Option<usize>, &[usize]) {
    match fates.split_first() {
        Some((fate, others)) => (Some(*fate), others),
        None => (None, fates),
    }
}

// Draws a line with what a marker says beside it, where there is one.
fn draw_beside<W: Write>(
    replica: &Replica,
    row: &Row,
    columns: Line,
    fate: Option<usize>,
    is_coloured: bool,
    line: &mut Vec<u8>,
    writer: &mut W,
) -> Result<(), DrawFault>
    ensures { OnOk result (Grows (W.contents writer.old) (W.contents writer.new)) }
{
    push_columns(row, columns, line)?;
    let appended = push_fate(line, replica, fate, is_coloured);
    write_appended(appended, line, writer)
}
