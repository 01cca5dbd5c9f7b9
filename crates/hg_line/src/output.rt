//! Printing: one write for each line, its LF included.
ghost use Rattle.std.specs.Prelude.{◌≡◌, ◌⊎◌, [], ◌∷◌, ◌++◌, IfErr, IfSome, OnErr, OnOk, Some, codes, true, false};
ghost use Rattle.hg_changeset.specs.declared.node.Node.{Node};
ghost use Rattle.hg_view.specs.declared.refusal.PinRefusal.{PinRefusal};
ghost use Rattle.hg_line.specs.Outputs.{Grows, Printed};
ghost use Rattle.hg_line.specs.Printing.{agree_line, name_of, refusal_line, refused_line, refusing_word};
ghost use Rattle.hg_line.specs.Reports.{heading, line_of, row_line, totals};

use crate::command_fault::CommandFault;
use hg_history::Fault;
use hg_peer::PeerRefusal;
use hg_phases::Phase;
use hg_world::EventRefusal;
use std::alloc::Global;
use std::fmt;
use std::fmt::Display;
use std::io::{ErrorKind, Write};

/// How a refused line is called where its refusal is told.
#[derive(Clone, Copy)]
pub enum LineName {
    /// By its number.
    Number(usize),
    /// By a sentence, which says that it was refused.
    Sentence(usize),
}

impl fmt::Display for LineName {
    ghost output = { λ line. Some (name_of line) };

    fn fmt<W: fmt::Write>(&self, f: &mut fmt::Formatter<W>) -> fmt::Result {
        match *self {
            LineName::Number(line) => write!(f, "{line}"),
            LineName::Sentence(line) => write!(f, "hgfleet: line {line} was refused"),
        }
    }
}

/// What the definitions of printed lines give: a refusal, whether two replicas agree, and rows of a report.
pub fn printed_lines_are_those_of_the_format()
    ensures refusal { refusal_line (LineName.Number 4) (codes "rewrite") (Some 1) (codes "Unknown")
        ≡ codes "4: rewrite 1 Unknown" ++ 10 ∷ [] }
    ensures replica { refused_line (LineName.Number 12) (EventRefusal.ByState Fault.NullBound)
        ≡ codes "12: replica 4 NullBound" ++ 10 ∷ [] }
    ensures view { (n : Node)
        → refused_line (LineName.Number 12) (EventRefusal.ByActor (PeerRefusal.View (PinRefusal.NotPinned n)))
        ≡ codes "12: view 2 NotPinned" ++ 10 ∷ [] }
    ensures sentence { refused_line (LineName.Sentence 12) (EventRefusal.ByState Fault.NullBound)
        ≡ codes "hgfleet: line 12 was refused: replica 4 NullBound" ++ 10 ∷ [] }
    ensures agrees { agree_line (codes "A") (codes "B") true ≡ codes "agree A B: yes" ++ 10 ∷ [] }
    ensures differs { agree_line (codes "A") (codes "B") false ≡ codes "agree A B: no" ++ 10 ∷ [] }
    ensures heading { heading (codes "A") ≡ codes "report A" ++ 10 ∷ [] }
    ensures row { row_line (codes "b") Phase.Draft (record {
      phase = Some Phase.Draft;
      obsolete = true;
      orphan = false;
      suspended = true;
      extinct = false;
      phase_divergent = false;
      content_divergent = false;
      visible = true;
    }) ≡ codes "b draft obsolete suspended" ++ 10 ∷ [] }
    ensures totals { totals 4 1 ≡ codes "4 changesets 1 markers" ++ 10 ∷ [] }
{}

/// Writes the bytes, in as many writes as the writer wants; an interrupted one is tried again. Where a write fails,
/// some of them may have been written before.
pub fn write_bytes<W: Write>(bytes: &[u8], writer: &mut W) -> Result<(), CommandFault>
    ensures written { OnOk result (Printed (W.contents writer.old) bytes.now (W.contents writer.new)) }
    ensures err { IfErr result (λ fault. fault ≡ CommandFault.Write) }
    ensures grows { OnErr result (Grows (W.contents writer.old) (W.contents writer.new)) }
{
    let mut rest = bytes;
    for _ in 0..u64::MAX {
        if rest.is_empty() {
            return Ok(());
        }
        match writer.write(rest) {
            Ok(0) => return Err(CommandFault::Write),
            Ok(count) => rest = &rest[count..],
            Err(error) => {
                if error.kind() != ErrorKind::Interrupted {
                    return Err(CommandFault::Write);
                }
            }
        }
    }
    Err(CommandFault::Write)
}

/// Writes a line, and empties it for the next one.
#[tactic(auto, using(crate::proofs::GrowLemmas::grows_stays))]
pub fn print_line<W: Write>(writer: &mut W, line: &mut Vec<u8>) -> Result<(), CommandFault>
    ensures printed { OnOk result (Printed (W.contents writer.old) (line_of line.old.items) (W.contents writer.new)) }
    ensures emptied { OnOk result (line.new.items ≡ []) }
    ensures err { IfErr result (λ fault. (fault ≡ CommandFault.Write) ⊎ (fault ≡ CommandFault.NoMemory)) }
    ensures grows { OnErr result (Grows (W.contents writer.old) (W.contents writer.new)) }
{
    line.push(b'\n')?;
    write_bytes(line, writer)?;
    line.clear();
    Ok(())
}

/// Writes the line that says which refusal the line that is called so met, if the refusal has a number.
#[tactic(auto, using(crate::proofs::GrowLemmas::grows_stays))]
pub fn print_refusal<W: Write, D: Display>(
    alloc: Global,
    writer: &mut W,
    line: LineName,
    word: &str,
    number: Option<u8>,
    name: &D,
) -> Result<(), CommandFault>
    ensures printed { OnOk result (IfSome (D.output name.now) (λ name.
        Printed (W.contents writer.old) (refusal_line line word.now number name) (W.contents writer.new))) }
    ensures err { IfErr result (λ fault. (fault ≡ CommandFault.Write) ⊎ (fault ≡ CommandFault.NoMemory)) }
    ensures grows { OnErr result (Grows (W.contents writer.old) (W.contents writer.new)) }
{
    let number = match number {
        Some(number) => number,
        None => return Ok(()),
    };
    let text = format!(in alloc; "{line}: {word} {number} {name}")?;
    let mut bytes = Vec::from_slice(alloc, text.as_bytes())?;
    print_line(writer, &mut bytes)
}

/// Writes the line that says why the event of the line that is called so was refused, if the refusal has a number.
pub fn print_refused<W: Write>(
    alloc: Global,
    writer: &mut W,
    line: LineName,
    refusal: &EventRefusal<PeerRefusal, Fault>,
) -> Result<(), CommandFault>
    ensures printed { OnOk result
        (Printed (W.contents writer.old) (refused_line line refusal.now) (W.contents writer.new)) }
    ensures err { IfErr result (λ fault. (fault ≡ CommandFault.Write) ⊎ (fault ≡ CommandFault.NoMemory)) }
    ensures grows { OnErr result (Grows (W.contents writer.old) (W.contents writer.new)) }
{
    match refusal {
        EventRefusal::ByActor(refusal) => {
            let word = word_of(*refusal);
            print_refusal(alloc, writer, line, word, refusal.number(), refusal)
        }
        EventRefusal::ByState(fault) => {
            print_refusal(alloc, writer, line, "replica", fault.number(), fault)
        }
        EventRefusal::NoNode => Ok(()),
        EventRefusal::NoMessage => Ok(()),
    }
}

// What refuses: an operation, an offer, the bytes of a message or a pin.
fn word_of(refusal: PeerRefusal) -> &'static str
    ensures { result.now ≡ refusing_word refusal }
{
    match refusal {
        PeerRefusal::Rewrite(_) => "rewrite",
        PeerRefusal::Offer(_) => "offer",
        PeerRefusal::Message(_) => "message",
        PeerRefusal::View(_) => "view",
        PeerRefusal::NoMemory => "memory",
    }
}
