//! In what two repositories differ, as lines.
ghost use Rattle.std.specs.Prelude.{◌≡◌, ◌↔◌, ◌<◌, ◌++◌, IfOk, IsTrue, OnOk, codes, decimal, length};
ghost use Rattle.std.specs.Io.KnownBytes.{Appends};
ghost use Rattle.hg_log.specs.Drawings.{Extends, IsLine, Text};
ghost use Rattle.hg_phases.specs.State.{changesets};
ghost use Rattle.hg_replica.specs.State.{IsSameState};
ghost use Rattle.hg_preview.specs.Comparisons.{AreLinesWhere, IsComparisonText, IsCountText, IsInOtherPhaseAt};
ghost use Rattle.hg_preview.specs.Comparisons.{IsLackText, IsLackedAt, IsLineWhere, agreement};
ghost use Rattle.hg_preview.specs.Lines.{IsLineOf};

use hg_changeset::Node;
use hg_log::{DrawFault, NamedNode, node_at, push_label, write_line};
use hg_phases::Phase;
use hg_replica::Replica;
use hg_trial::{different_phases, markers_lacked};
use hg_why::push_named;
use std::alloc::{AllocError, Global};
use std::io::Write;

/// Writes in what two repositories differ, and tells whether they agree: whether they hold the same changesets in the
/// same phases, and the same markers. Say `A` amended `b` to `b2`, and published `a`:
///
/// ```text
/// B lacks: b2 83b46e4ca910
/// B lacks: 1 markers
/// phases differ: a f96ca39738e6: public/draft
/// agree: no
/// ```
///
/// First comes what the first one lacks of the second, then what the second lacks of the first: a line for each
/// changeset, parents before children, and one with how many markers. Then comes each changeset that both hold in
/// different phases, with the first one's phase and the second's. Pins don't count. A changeset is called by the first
/// line of its description, where its text is that of an entry, and by the first 12 digits of its id. What can't be
/// printed of a name is escaped.
///
/// It costs both histories and both stores, and what is written. [`DrawFault::Write`] comes where the writer refuses a
/// line, [`DrawFault::NoMemory`] only where memory is refused; the lines before stay written.
pub fn write_comparison<W: Write>(
    alloc: Global,
    first: &NamedNode<'_>,
    second: &NamedNode<'_>,
    writer: &mut W,
) -> Result<bool, DrawFault>
    ensures answer { IfOk result
        (λ answer. IsTrue answer ↔ IsSameState first.now.kept.now.replica second.now.kept.now.replica) }
    ensures written { IfOk result (λ answer. (text : Text)
        × IsComparisonText first.now.kept.now second.now.kept.now answer text
        × Appends (W.contents writer.old) (W.contents writer.new) text) }
{
    let mut line = Vec::new(alloc);
    write_lack(alloc, first, second, &mut line, writer)?;
    write_lack(alloc, second, first, &mut line, writer)?;
    write_phases(alloc, first, second, &mut line, writer)?;
    let answer = first.kept.replica().is_same_state(second.kept.replica());
    write_agreement(alloc, answer, writer)?;
    Ok(answer)
}

// Writes what the one lacks of the other.
fn write_lack<W: Write>(
    alloc: Global,
    lacking: &NamedNode<'_>,
    having: &NamedNode<'_>,
    line: &mut Vec<u8>,
    writer: &mut W,
) -> Result<(), DrawFault>
    ensures { OnOk result ((text : Text) × IsLackText lacking.now.kept.now having.now.kept.now text
        × Appends (W.contents writer.old) (W.contents writer.new) text) }
{
    write_changesets(lacking, having, line, writer)?;
    let count = markers_lacked(
        lacking.kept.replica().store(),
        having.kept.replica().store(),
    );
    write_count(alloc, lacking.name, count, line, writer)?;
    Ok(())
}

// Writes a line for each changeset that the one lacks of the other.
fn write_changesets<W: Write>(
    lacking: &NamedNode<'_>,
    having: &NamedNode<'_>,
    line: &mut Vec<u8>,
    writer: &mut W,
) -> Result<(), DrawFault>
    ensures { OnOk result ((text : Text)
        × AreLinesWhere (IsLackedAt lacking.now.kept.now having.now.kept.now)
        (length (changesets having.now.kept.now.replica.history)) text
        × Appends (W.contents writer.old) (W.contents writer.new) text) }
{
    let len = having.kept.replica().graph().len();
    for place in 0..len {
        write_changeset_at(lacking, having, place, line, writer)?;
    }
    Ok(())
}

// Writes a line where the one lacks what stands at this place of the other.
fn write_changeset_at<W: Write>(
    lacking: &NamedNode<'_>,
    having: &NamedNode<'_>,
    place: usize,
    line: &mut Vec<u8>,
    writer: &mut W,
) -> Result<(), DrawFault>
    requires { place < length (changesets having.now.kept.now.replica.history) }
    ensures { OnOk result ((text : Text) × IsLineWhere (IsLackedAt lacking.now.kept.now having.now.kept.now place) text
        × Appends (W.contents writer.old) (W.contents writer.new) text) }
{
    let node = node_at(having.kept, place);
    if lacking.kept.replica().graph().contains(node) {
        return Ok(());
    }
    push_lacks(line, lacking.name)?;
    push_named(line, having.kept.replica(), node)?;
    write_line(line, writer)?;
    Ok(())
}

// Appends the beginning of a line that tells what is lacking.
fn push_lacks(line: &mut Vec<u8>, name: &[u8]) -> Result<(), AllocError> {
    push_label(line, name)?;
    line.extend_from_slice(b" lacks: ")
}

// Writes a line with how many markers are lacking, where some are.
fn write_count<W: Write>(
    alloc: Global,
    name: &[u8],
    count: usize,
    line: &mut Vec<u8>,
    writer: &mut W,
) -> Result<(), DrawFault>
    ensures { OnOk result ((text : Text) × IsCountText count text
        × Appends (W.contents writer.old) (W.contents writer.new) text) }
{
    if count == 0 {
        return Ok(());
    }
    push_lacks(line, name)?;
    push_count(alloc, line, count)?;
    write_line(line, writer)?;
    Ok(())
}

// Appends how many markers there are.
fn push_count(alloc: Global, line: &mut Vec<u8>, count: usize) -> Result<(), AllocError>
    ensures { OnOk result (line.new.items ≡ line.old.items ++ (decimal count ++ codes " markers")) }
{
    let text = format!(in alloc; "{count} markers")?;
    line.extend_from_slice(text.as_bytes())
}

// Writes a line for each changeset that both hold in different phases.
fn write_phases<W: Write>(
    alloc: Global,
    first: &NamedNode<'_>,
    second: &NamedNode<'_>,
    line: &mut Vec<u8>,
    writer: &mut W,
) -> Result<(), DrawFault>
    ensures { OnOk result ((text : Text)
        × AreLinesWhere (IsInOtherPhaseAt first.now.kept.now second.now.kept.now)
        (length (changesets first.now.kept.now.replica.history)) text
        × Appends (W.contents writer.old) (W.contents writer.new) text) }
{
    let len = first.kept.replica().graph().len();
    for place in 0..len {
        write_phases_at(alloc, first, second, place, line, writer)?;
    }
    Ok(())
}

// Writes a line where what stands at this place of the first has another phase at the second.
fn write_phases_at<W: Write>(
    alloc: Global,
    first: &NamedNode<'_>,
    second: &NamedNode<'_>,
    place: usize,
    line: &mut Vec<u8>,
    writer: &mut W,
) -> Result<(), DrawFault>
    requires { place < length (changesets first.now.kept.now.replica.history) }
    ensures { OnOk result ((text : Text)
        × IsLineWhere (IsInOtherPhaseAt first.now.kept.now second.now.kept.now place) text
        × Appends (W.contents writer.old) (W.contents writer.new) text) }
{
    let node = node_at(first.kept, place);
    match different_phases(first.kept.replica(), second.kept.replica(), node)? {
        Some(phases) => {
            let replica = first.kept.replica();
            write_phases_of(alloc, replica, node, phases, line, writer)?;
            Ok(())
        }
        None => Ok(()),
    }
}

// Writes a line with a changeset and its phases.
fn write_phases_of<W: Write>(
    alloc: Global,
    replica: &Replica,
    node: Node,
    phases: (Phase, Phase),
    line: &mut Vec<u8>,
    writer: &mut W,
) -> Result<(), DrawFault>
    ensures { OnOk result ((text : Text) × IsLineOf node text
        × Appends (W.contents writer.old) (W.contents writer.new) text) }
{
    line.extend_from_slice(b"phases differ: ")?;
    push_named(line, replica, node)?;
    push_phases(alloc, line, phases)?;
    write_line(line, writer)?;
    Ok(())
}

// Appends the phases of a changeset.
fn push_phases(alloc: Global, line: &mut Vec<u8>, phases: (Phase, Phase)) -> Result<(), AllocError>
    ensures { OnOk result (Extends line.old.items line.new.items) }
{
    let text = format!(in alloc; ": {}/{}", phases.0.word(), phases.1.word())?;
    line.extend_from_slice(text.as_bytes())?;
    Ok(())
}

// Writes the line that says whether the two agree.
fn write_agreement<W: Write>(alloc: Global, answer: bool, writer: &mut W) -> Result<(), DrawFault>
    ensures { OnOk result ((text : Text) × IsLine (agreement answer) text
        × Appends (W.contents writer.old) (W.contents writer.new) text) }
{
    let answer: &[u8] = if answer { b"agree: yes" } else { b"agree: no" };
    let mut line = Vec::from_slice(alloc, answer)?;
    write_line(&mut line, writer)?;
    Ok(())
}
