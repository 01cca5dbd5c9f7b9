//! The histories of nodes as JSON.
ghost use Rattle.std.specs.Prelude.{◌<◌, List, OnOk, false, length};
ghost use Rattle.std.specs.Io.KnownBytes.{Appends};
ghost use Rattle.hg_phases.specs.State.{changesets};
ghost use Rattle.hg_log.specs.Drawings.{Text};
ghost use Rattle.hg_log.specs.Entries.{Entry};
ghost use Rattle.hg_log.specs.Objects.{AreNodeEntries, AreEntries, IsArray, IsEntryOf, WritesEntries};
ghost use Rattle.hg_log.specs.Objects.{named, names_and_states, objects_text};

use crate::entry::push_object;
use crate::fault::DrawFault;
use crate::json::push_divider;
use crate::line::write_bytes;
use crate::named::NamedNode;
use crate::shown::Shown;
use std::alloc::Global;
use std::io::Write;

/// Writes the histories of nodes as they are now, under their pins, as JSON: what is visible, or all that is held where
/// `shows_hidden` is true.
///
/// It is one array, with an object for each changeset, those of a node after those of the one before, in each from the
/// last place to the first, as [`draw_log`](crate::draw_log) has them. Keys that `hg log -T json` has say what they say
/// there. Say `b` was amended as `b2` at the node `A`:
///
/// ```text
/// [
///  {
///   "desc": "b",
///   "hidden": true,
///   "instabilities": [],
///   "node": "80984185711b0e2f5b4a1d0c2b7e6d5f4c3b2a19",
///   "obsolete": true,
///   "parents": ["f96ca39738e60c1d2e3f405162738495a6b7c8d9"],
///   "phase": "draft",
///   "repository": "A",
///   "successors": [{"nodes": ["83b46e4ca9100f1e2d3c4b5a69788796a5b4c3d2"], "operation": "amended"}]
///  }
/// ]
/// ```
///
/// - `desc` is the label, as [`draw_log`](crate::draw_log) has it, and empty where there is none. Where it is UTF-8 its
///   characters stand for themselves, but quotes, backslashes and control characters are escaped. Where it isn't, a
///   byte above 127 is a lone surrogate, as Python's `surrogateescape` reads it.
/// - `hidden` says that it isn't visible under the pins.
/// - `instabilities` has `orphan`, `phase-divergent` and `content-divergent`, where they are so.
/// - `parents` are ids: the null id alone where there is no parent, and two of a merge, the lesser first.
/// - `successors` has what each marker says that rewrote it, in the order in which they came.
///
/// It costs what is written. [`DrawFault::Write`] comes where the writer refuses an object, [`DrawFault::NoMemory`]
/// only where memory is refused for one; the objects before stay written.
pub fn draw_objects<W: Write>(
    alloc: Global,
    nodes: &[NamedNode<'_>],
    shows_hidden: bool,
    writer: &mut W,
) -> Result<(), DrawFault>
    ensures { OnOk result ((text : Text) × IsArray shows_hidden (names_and_states nodes.now) text
        × Appends (W.contents writer.old) (W.contents writer.new) text) }
{
    write_bytes(b"[", writer)?;
    draw_nodes(alloc, nodes, shows_hidden, writer)?;
    write_bytes(b"\n]\n", writer)
}

// Writes the objects of all nodes.
fn draw_nodes<W: Write>(
    alloc: Global,
    nodes: &[NamedNode<'_>],
    shows_hidden: bool,
    writer: &mut W,
) -> Result<(), DrawFault>
    ensures { OnOk result ((es : List Entry) × AreEntries shows_hidden (names_and_states nodes.now) es
        × Appends (W.contents writer.old) (W.contents writer.new) (objects_text false es)) }
{
    let mut line = Vec::new(alloc);
    let mut is_behind = false;
    for node in nodes {
        draw_node(node, shows_hidden, &mut is_behind, &mut line, writer)?;
    }
    Ok(())
}

// Writes the objects of a node, from the last place to the first, by means of the line that is lent.
fn draw_node<W: Write>(
    node: &NamedNode<'_>,
    shows_hidden: bool,
    is_behind: &mut bool,
    line: &mut Vec<u8>,
    writer: &mut W,
) -> Result<(), DrawFault>
    ensures { OnOk result (WritesEntries (AreNodeEntries shows_hidden (named node.now)) is_behind.old is_behind.new
        (W.contents writer.old) (W.contents writer.new)) }
{
    let shown = Shown {
        kept: node.kept,
        shows_hidden,
    };
    let len = node.kept.replica().graph().len();
    for place in (0..len).rev() {
        if shown.has_place(place) {
            draw_changeset(node, place, is_behind, line, writer)?;
        }
    }
    Ok(())
}

// Writes the object of a changeset.
fn draw_changeset<W: Write>(
    node: &NamedNode<'_>,
    place: usize,
    is_behind: &mut bool,
    line: &mut Vec<u8>,
    writer: &mut W,
) -> Result<(), DrawFault>
    requires { place < length (changesets node.now.kept.now.replica.history) }
    ensures { OnOk result (WritesEntries (IsEntryOf (named node.now) place) is_behind.old is_behind.new
        (W.contents writer.old) (W.contents writer.new)) }
{
    line.clear();
    push_divider(line, b",", is_behind)?;
    push_object(line, node, place)?;
    write_bytes(line, writer)
}
