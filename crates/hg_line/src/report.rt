//! The report of a replica: its changesets, what each is, and how many there are.
ghost use Rattle.std.specs.Prelude.{◌≡◌, ◌≤◌, ◌<◌, ◌↔◌, ◌⊎◌, ◌++◌, [], List, IfOk, IfErr, OnErr, OnOk, IsTrue, All};
ghost use Rattle.std.specs.Prelude.{Contains, codes, length};
ghost use Rattle.hg_phases.specs.State.{changesets};
ghost use Rattle.hg_phases.specs.Words.{phase_word};
ghost use Rattle.hg_line.specs.Commands.{Text};
ghost use Rattle.hg_line.specs.Outputs.{Grows, Printed};
ghost use Rattle.hg_line.specs.Reports.{AreRowLines, AreRows, IsReport, IsRowLine};
ghost use Rattle.hg_line.specs.Reports.{RowValue, heading, row_values, rows_from, text_where, totals};
ghost use Rattle.hg_line.specs.Reports.{with_words};

use crate::command_fault::CommandFault;
use crate::output::print_line;
use hg_phases::Phase;
use hg_replica::Replica;
use hg_view::{Kept, Status};
use std::alloc::{AllocError, Global};
use std::io::Write;

// Appends the words that hold of a changeset, in the order in which a report has them.
fn push_words(line: &mut Vec<u8>, status: Status) -> Result<(), AllocError>
    ensures { OnOk result (line.new.items ≡ with_words line.old.items status) }
{
    push_where(line, status.obsolete, b" obsolete")?;
    push_where(line, status.suspended, b" suspended")?;
    push_where(line, status.extinct, b" extinct")?;
    push_where(line, status.orphan, b" orphan")?;
    push_where(line, status.phase_divergent, b" phase-divergent")?;
    push_where(line, status.content_divergent, b" content-divergent")?;
    push_where(line, !status.visible, b" hidden")
}

fn push_where(line: &mut Vec<u8>, is_so: bool, word: &[u8]) -> Result<(), AllocError>
    ensures { OnOk result (line.new.items ≡ line.old.items ++ text_where is_so word.now) }
{
    if is_so {
        line.extend_from_slice(word)?;
    }
    Ok(())
}

// A changeset of a replica: its label and its place.
type Row<'a> = (&'a [u8], usize);

// The replica's changesets in byte order of their labels.
fn rows<'a>(alloc: Global, replica: &'a Replica) -> Result<Vec<Row<'a>>, AllocError>
    ensures { IfOk result (λ rows. AreRows replica.now (row_values rows.items)) }
{
    let mut rows = rows_by_place(alloc, replica)?;
    rows.sort_unstable();
    Ok(rows)
}

// The replica's changesets in the order of their places.
fn rows_by_place<'a>(alloc: Global, replica: &'a Replica) -> Result<Vec<Row<'a>>, AllocError>
    ensures { IfOk result (λ rows. row_values rows.items ≡ rows_from 0 (changesets replica.now.history)) }
{
    let graph = replica.graph();
    let mut rows = Vec::with_capacity(alloc, graph.len())?;
    for place in 0..graph.len() {
        match graph.changeset_at(place) {
            Some(changeset) => rows.push((changeset.last_line(), place))?,
            None => {}
        }
    }
    Ok(rows)
}

/// Prints the replica's name, then its changesets in byte order of their labels, each with its phase and the words that
/// hold of it, and how many changesets and markers there are. What is hidden is so under the node's pins.
///
/// It costs what is printed: the words are those of the sets that are kept.
pub fn print_report<W: Write>(
    alloc: Global,
    name: &[u8],
    kept: &Kept,
    writer: &mut W,
) -> Result<(), CommandFault>
    ensures printed { OnOk result ((text : Text) × IsReport name.now kept.now text
        × Printed (W.contents writer.old) text (W.contents writer.new)) }
    ensures err { IfErr result (λ fault. (fault ≡ CommandFault.Write) ⊎ (fault ≡ CommandFault.NoMemory)) }
    ensures grows { OnErr result (Grows (W.contents writer.old) (W.contents writer.new)) }
{
    let mut line = Vec::new(alloc);
    print_heading(name, &mut line, writer)?;
    print_changesets(alloc, kept, &mut line, writer)?;
    print_totals(alloc, kept.replica(), &mut line, writer)?;
    Ok(())
}

// Prints the line of the replica's name, by means of the empty line that is lent.
#[tactic(auto, using(crate::proofs::GrowLemmas::grows_stays))]
fn print_heading<W: Write>(
    name: &[u8],
    line: &mut Vec<u8>,
    writer: &mut W,
) -> Result<(), CommandFault>
    requires { line.old.items ≡ [] }
    ensures printed { OnOk result (Printed (W.contents writer.old) (heading name.now) (W.contents writer.new)) }
    ensures emptied { OnOk result (line.new.items ≡ []) }
    ensures err { IfErr result (λ fault. (fault ≡ CommandFault.Write) ⊎ (fault ≡ CommandFault.NoMemory)) }
    ensures grows { OnErr result (Grows (W.contents writer.old) (W.contents writer.new)) }
{
    line.extend_from_slice(b"report ")?;
    line.extend_from_slice(name)?;
    print_line(writer, line)
}

// Prints how many changesets and markers the replica holds, by means of the empty line that is lent.
#[tactic(auto, using(crate::proofs::GrowLemmas::grows_stays))]
fn print_totals<W: Write>(
    alloc: Global,
    replica: &Replica,
    line: &mut Vec<u8>,
    writer: &mut W,
) -> Result<(), CommandFault>
    requires { line.old.items ≡ [] }
    ensures printed { OnOk result (Printed (W.contents writer.old)
        (totals (length (changesets replica.now.history)) (length replica.now.markers)) (W.contents writer.new)) }
    ensures err { IfErr result (λ fault. (fault ≡ CommandFault.Write) ⊎ (fault ≡ CommandFault.NoMemory)) }
    ensures grows { OnErr result (Grows (W.contents writer.old) (W.contents writer.new)) }
{
    let changesets = replica.graph().len();
    let markers = replica.store().len();
    let text = format!(in alloc; "{changesets} changesets {markers} markers")?;
    line.extend_from_slice(text.as_bytes())?;
    print_line(writer, line)
}

// Prints a line for each changeset of the replica, by means of the empty line that is lent.
#[tactic(auto, using(crate::proofs::GrowLemmas::grows_stays))]
fn print_changesets<W: Write>(
    alloc: Global,
    kept: &Kept,
    line: &mut Vec<u8>,
    writer: &mut W,
) -> Result<(), CommandFault>
    requires { line.old.items ≡ [] }
    ensures printed { OnOk result ((rows : List RowValue) × (text : Text) × AreRows kept.now.replica rows
        × AreRowLines kept.now rows text × Printed (W.contents writer.old) text (W.contents writer.new)) }
    ensures emptied { OnOk result (line.new.items ≡ []) }
    ensures err { IfErr result (λ fault. (fault ≡ CommandFault.Write) ⊎ (fault ≡ CommandFault.NoMemory)) }
    ensures grows { OnErr result (Grows (W.contents writer.old) (W.contents writer.new)) }
{
    let rows = rows(alloc, kept.replica())?;
    print_rows(kept, &rows, line, writer)?;
    Ok(())
}

// Prints the lines of the rows, by means of the empty line that is lent.
fn print_rows<W: Write>(
    kept: &Kept,
    rows: &[Row<'_>],
    line: &mut Vec<u8>,
    writer: &mut W,
) -> Result<(), CommandFault>
    requires empty { line.old.items ≡ [] }
    requires places { All (λ row. row.1 < length (changesets kept.now.replica.history)) rows.now }
    ensures printed { OnOk result ((text : Text) × AreRowLines kept.now (row_values rows.now) text
        × Printed (W.contents writer.old) text (W.contents writer.new)) }
    ensures emptied { OnOk result (line.new.items ≡ []) }
    ensures err { IfErr result (λ fault. (fault ≡ CommandFault.Write) ⊎ (fault ≡ CommandFault.NoMemory)) }
    ensures grows { OnErr result (Grows (W.contents writer.old) (W.contents writer.new)) }
{
    for (label, place) in rows {
        print_row(kept, *label, *place, line, writer)?;
    }
    Ok(())
}

// Prints the line of the changeset with this label at this place, by means of the empty line that is lent.
#[tactic(auto, using(crate::proofs::GrowLemmas::grows_stays))]
fn print_row<W: Write>(
    kept: &Kept,
    label: &[u8],
    place: usize,
    line: &mut Vec<u8>,
    writer: &mut W,
) -> Result<(), CommandFault>
    requires empty { line.old.items ≡ [] }
    requires place { place < length (changesets kept.now.replica.history) }
    ensures printed { OnOk result ((text : Text) × IsRowLine kept.now (label.now, place) text
        × Printed (W.contents writer.old) text (W.contents writer.new)) }
    ensures emptied { OnOk result (line.new.items ≡ []) }
    ensures err { IfErr result (λ fault. (fault ≡ CommandFault.Write) ⊎ (fault ≡ CommandFault.NoMemory)) }
    ensures grows { OnErr result (Grows (W.contents writer.old) (W.contents writer.new)) }
{
    let replica = kept.replica();
    let node = replica.graph().node_at(place).unwrap();
    let phase = replica.phase_at(place).unwrap();
    line.extend_from_slice(label)?;
    push_phase(line, phase)?;
    push_words(line, kept.status(node))?;
    print_line(writer, line)?;
    Ok(())
}

// Appends a blank and the word for the phase.
fn push_phase(line: &mut Vec<u8>, phase: Phase) -> Result<(), AllocError>
    ensures { OnOk result (line.new.items ≡ line.old.items ++ (codes " " ++ phase_word phase)) }
{
    line.push(b' ')?;
    line.extend_from_slice(phase.word().as_bytes())
}
