//! The unstable changesets of a replica, each with what it is unstable by.
ghost use Rattle.std.specs.Prelude.{◌≡◌, ◌<◌, ◌++◌, OnOk, codes, length};
ghost use Rattle.std.specs.Io.KnownBytes.{Appends};
ghost use Rattle.hg_phases.specs.State.{changesets};
ghost use Rattle.hg_log.specs.Drawings.{ArePieces, Text};
ghost use Rattle.hg_why.specs.Blocks.{IsBlockAt, IsBlockOf, IsReasonText, IsWhy};

use crate::causes::reasons;
use crate::named::push_named;
use crate::reason::Reason;
use crate::remedy::Remedy;
use crate::told::Telling;
use hg_changeset::Node;
use hg_log::{DrawFault, node_at, push_text, write_appended};
use hg_view::Kept;
use std::alloc::{AllocError, Global};
use std::io::Write;

/// Writes why changesets of a replica are unstable: a line with what the replica is called, and for each unstable
/// changeset, in the graph's order, a block. Its first line has what the changeset is called and the first 12 digits
/// of its id, each further line a reason, and below that an orphan's parent was rewritten, how the orphan is moved
/// where that went, or onto what that stood on where nothing is left of it, unless remedies are to be untold. Say `b`
/// stood on `a` when `a` was amended, and amended elsewhere in another way:
///
/// ```text
/// why alice
/// b a8949635b044
///   orphan: its parent a fc3bb165b6eb is obsolete, amended as a2; and as a3
///   relocate alice b NEW a2   (two successors: choose)
/// a2 30f39ca5098f
///   content-divergent with a3 c4d50da1250b: both are successors of a fc3bb165b6eb (amended, amended)
/// a3 c4d50da1250b
///   content-divergent with a2 30f39ca5098f: both are successors of a fc3bb165b6eb (amended, amended)
/// ```
///
/// A changeset is called by the first line of its description, where its text is that of an entry, and else by the
/// digits alone. What can't be printed of a name is escaped.
///
/// It costs what is written, and what [`reasons`] costs for each changeset. [`DrawFault::Write`] comes where the writer
/// refuses a line, [`DrawFault::NoMemory`] only where memory is refused; the lines before stay written.
pub fn write_why<W: Write>(
    alloc: Global,
    name: &[u8],
    kept: &Kept,
    remedy: Remedy,
    writer: &mut W,
) -> Result<(), DrawFault>
    ensures { OnOk result ((text : Text) × IsWhy name.now kept.now text
        × Appends (W.contents writer.old) (W.contents writer.new) text) }
{
    let mut line = Vec::new(alloc);
    let appended = push_heading(&mut line, name);
    write_appended(appended, &mut line, writer)?;
    let telling = Telling {
        alloc,
        name,
        kept,
        remedy,
    };
    let len = kept.replica().graph().len();
    for place in 0..len {
        write_at(&telling, place, &mut line, writer)?;
    }
    Ok(())
}

// Appends what the replica is called.
fn push_heading(line: &mut Vec<u8>, name: &[u8]) -> Result<(), AllocError>
    ensures { OnOk result (line.new.items ≡ line.old.items ++ (codes "why " ++ name.now)) }
{
    push_text(line, b"why ")?;
    push_text(line, name)
}

// Writes the block of a place, by means of the empty line that is lent.
fn write_at<W: Write>(
    telling: &Telling<'_>,
    place: usize,
    line: &mut Vec<u8>,
    writer: &mut W,
) -> Result<(), DrawFault>
    requires { place < length (changesets telling.now.kept.now.replica.history) }
    ensures { OnOk result ((text : Text) × IsBlockAt telling.now.kept.now place text
        × Appends (W.contents writer.old) (W.contents writer.new) text) }
{
    let node = node_at(telling.kept, place);
    let found = reasons(telling.alloc, telling.kept, node)?;
    let all = found.as_slice();
    if all.is_empty() {
        return Ok(());
    }
    write_block(telling, node, all, line, writer)
}

// Writes a changeset's line, and lines with the reasons.
fn write_block<W: Write>(
    telling: &Telling<'_>,
    node: Node,
    reasons: &[Reason],
    line: &mut Vec<u8>,
    writer: &mut W,
) -> Result<(), DrawFault>
    ensures { OnOk result ((text : Text) × IsBlockOf node reasons.now text
        × Appends (W.contents writer.old) (W.contents writer.new) text) }
{
    let appended = push_named(line, telling.kept.replica(), node);
    write_appended(appended, line, writer)?;
    write_reasons(telling, node, reasons, line, writer)
}

// Writes lines with the reasons.
fn write_reasons<W: Write>(
    telling: &Telling<'_>,
    node: Node,
    reasons: &[Reason],
    line: &mut Vec<u8>,
    writer: &mut W,
) -> Result<(), DrawFault>
    ensures { OnOk result ((text : Text) × ArePieces IsReasonText reasons.now text
        × Appends (W.contents writer.old) (W.contents writer.new) text) }
{
    for (index, reason) in reasons.iter().enumerate() {
        telling.write_reason(node, reason, &reasons[..index], line, writer)?;
    }
    Ok(())
}
