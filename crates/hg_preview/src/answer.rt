//! What a message was answered, as lines.
ghost use Rattle.std.specs.Prelude.{◌≡◌, ◌++◌, OnOk};
ghost use Rattle.std.specs.Io.KnownBytes.{Appends};
ghost use Rattle.hg_log.specs.Drawings.{Text};
ghost use Rattle.hg_preview.specs.Lines.{AreLinesOf, HasLinesOf};
ghost use Rattle.hg_preview.specs.Answers.{AreKindsText, IsAnswerText, IsOneLine, IsTakenText, counts_text};

use crate::lines::Scene;
use crate::order::put_in_order;
use crate::refused::push_refusal;
use hg_changeset::Node;
use hg_log::{DrawFault, push_label, write_line};
use hg_replica::Change;
use hg_trial::{Answer, Refusal, Turned};
use hg_view::Kept;
use std::alloc::{AllocError, Global};
use std::io::Write;

/// Writes what a message of this name was answered, beside what is held now. Say `theirs` amends `b`, on which `c`
/// stands here:
///
/// ```text
/// take theirs: 1 changesets 1 markers
///   becomes orphan: c b06140a4ddf1
///   becomes suspended: b 80984185711b
/// ```
///
/// First come those whose phase went down, then of each kind those that became so, in the graph's order, and those that
/// ceased to be: orphan, phase-divergent, content-divergent, suspended, extinct. A changeset that is new and so as it
/// came has `comes as` in place of `becomes`. It is called by the first line of its description, where its text is that
/// of an entry, and by the first 12 digits of its id. What can't be printed of a name is escaped.
///
/// Where nothing was taken, a line says why:
///
/// ```text
/// take theirs: refused: unknown parent 80984185711b
/// ```
///
/// It costs what is written. [`DrawFault::Write`] comes where the writer refuses a line, [`DrawFault::NoMemory`] only
/// where memory is refused; the lines before stay written.
pub fn write_answer<W: Write>(
    alloc: Global,
    name: &[u8],
    answer: &Answer,
    kept: &Kept,
    writer: &mut W,
) -> Result<(), DrawFault>
    ensures { OnOk result ((text : Text) × IsAnswerText answer.now text
        × Appends (W.contents writer.old) (W.contents writer.new) text) }
{
    match answer {
        Answer::Taken { change, turned } => {
            write_taken(alloc, name, change, turned, kept, writer)
        }
        Answer::Refused(refusal) => write_refused(alloc, name, *refusal, writer),
    }
}

// Writes that nothing was taken, and why.
fn write_refused<W: Write>(
    alloc: Global,
    name: &[u8],
    refusal: Refusal,
    writer: &mut W,
) -> Result<(), DrawFault>
    ensures { OnOk result ((text : Text) × IsOneLine text
        × Appends (W.contents writer.old) (W.contents writer.new) text) }
{
    let mut line = heading(alloc, name)?;
    line.extend_from_slice(b"refused: ")?;
    push_refusal(alloc, &mut line, refusal)?;
    write_line(&mut line, writer)
}

// Writes what a message changed.
fn write_taken<W: Write>(
    alloc: Global,
    name: &[u8],
    change: &Change,
    turned: &Turned,
    kept: &Kept,
    writer: &mut W,
) -> Result<(), DrawFault>
    ensures { OnOk result ((text : Text) × IsTakenText change.now turned.now text
        × Appends (W.contents writer.old) (W.contents writer.new) text) }
{
    let mut line = heading(alloc, name)?;
    push_counts(alloc, &mut line, change.added.len(), change.markers.len())?;
    write_line(&mut line, writer)?;
    let scene = Scene {
        alloc,
        kept,
        first_new: kept
            .replica()
            .graph()
            .len()
            .saturating_sub(change.added.len()),
    };
    write_lowered(&scene, &change.lowered, &mut line, writer)?;
    write_kinds(&scene, turned, &mut line, writer)
}

// The beginning of a line that tells of a message.
fn heading(alloc: Global, name: &[u8]) -> Result<Vec<u8>, AllocError> {
    let mut line = Vec::new(alloc);
    line.extend_from_slice(b"take ")?;
    push_label(&mut line, name)?;
    line.extend_from_slice(b": ")?;
    Ok(line)
}

// Appends how many changesets and markers are new.
fn push_counts(
    alloc: Global,
    line: &mut Vec<u8>,
    changesets: usize,
    markers: usize,
) -> Result<(), AllocError>
    ensures { OnOk result (line.new.items ≡ line.old.items ++ counts_text changesets markers) }
{
    let text = format!(in alloc; "{changesets} changesets {markers} markers")?;
    line.extend_from_slice(text.as_bytes())
}

// Writes a line for each changeset whose phase went down.
fn write_lowered<W: Write>(
    scene: &Scene<'_>,
    lowered: &[Node],
    line: &mut Vec<u8>,
    writer: &mut W,
) -> Result<(), DrawFault>
    ensures { OnOk result ((text : Text) × HasLinesOf lowered.now text
        × Appends (W.contents writer.old) (W.contents writer.new) text) }
{
    let mut nodes = Vec::from_slice(scene.alloc, lowered)?;
    put_in_order(scene.kept.replica().graph(), &mut nodes);
    write_phases(scene, &nodes, line, writer)
}

// Writes a line with the phase of each of the changesets.
fn write_phases<W: Write>(
    scene: &Scene<'_>,
    nodes: &[Node],
    line: &mut Vec<u8>,
    writer: &mut W,
) -> Result<(), DrawFault>
    ensures { OnOk result ((text : Text) × AreLinesOf nodes.now text
        × Appends (W.contents writer.old) (W.contents writer.new) text) }
{
    for node in nodes {
        let phase = scene.phase_word(*node)?;
        scene.write_one(b"becomes", phase, *node, line, writer)?;
    }
    Ok(())
}

// Writes what came to each kind of changesets, and what went from it.
fn write_kinds<W: Write>(
    scene: &Scene<'_>,
    turned: &Turned,
    line: &mut Vec<u8>,
    writer: &mut W,
) -> Result<(), DrawFault>
    ensures { OnOk result ((text : Text) × AreKindsText turned.now text
        × Appends (W.contents writer.old) (W.contents writer.new) text) }
{
    scene.write_moved(b"orphan", &turned.orphan, line, writer)?;
    scene.write_moved(b"phase-divergent", &turned.phase_divergent, line, writer)?;
    scene.write_moved(
        b"content-divergent",
        &turned.content_divergent,
        line,
        writer,
    )?;
    scene.write_moved(b"suspended", &turned.suspended, line, writer)?;
    scene.write_moved(b"extinct", &turned.extinct, line, writer)
}
