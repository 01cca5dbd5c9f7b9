//! Texts of roots as text.
ghost use Rattle.std.specs.Prelude.{◌≡◌, ◌⊎◌, ◌++◌, IfErr, IfSome, OnOk};
ghost use Rattle.std.specs.Io.KnownBytes.{Appends};
ghost use Rattle.hg_show.specs.Answers.{ShowAnswer, roots_fault_in};
ghost use Rattle.hg_show.specs.Printing.{AreLines, AreRootsShown, IsRootText, Text, root_text};

use crate::fault::ShowFault;
use crate::line::{print_line, push_node};
use hg_changeset::Node;
use hg_phaseroots::{RootsError, read_roots};
use hg_phases::Phase;
use std::alloc::{AllocError, Global};
use std::io::Write;

/// Prints the roots that a text lists, in its order: a line for each, with the name of the phase and the id. A line for
/// public says nothing, and isn't printed.
pub(crate) fn show_roots<W: Write>(
    alloc: Global,
    text: &[u8],
    writer: &mut W,
) -> Result<(), ShowFault>
    ensures answer { ShowAnswer (roots_fault_in text.now) result }
    ensures unprinted { IfSome (roots_fault_in text.now) (λ _. W.contents writer.new ≡ W.contents writer.old) }
    ensures printed { OnOk result ((lines : Text) × AreRootsShown text.now lines
        × Appends (W.contents writer.old) (W.contents writer.new) lines) }
{
    match read_roots(alloc, text) {
        Ok(roots) => print_roots(alloc, roots.as_slice(), writer),
        Err(RootsError::NoMemory) => Err(ShowFault::NoMemory),
        Err(fault) => Err(ShowFault::Roots(fault)),
    }
}

fn print_roots<W: Write>(
    alloc: Global,
    roots: &[(Phase, Node)],
    writer: &mut W,
) -> Result<(), ShowFault>
    ensures printed { OnOk result ((text : Text) × AreLines IsRootText roots.now text
        × Appends (W.contents writer.old) (W.contents writer.new) text) }
    ensures err { IfErr result (λ fault. (fault ≡ ShowFault.Write) ⊎ (fault ≡ ShowFault.NoMemory)) }
{
    let mut line = Vec::new(alloc);
    for (phase, node) in roots {
        push_root(&mut line, *phase, *node)?;
        print_line(writer, &mut line)?;
    }
    Ok(())
}

/// Appends the name of a phase, a space and an id.
pub(crate) fn push_root(line: &mut Vec<u8>, phase: Phase, node: Node) -> Result<(), AllocError>
    ensures { OnOk result (line.new.items ≡ line.old.items ++ root_text (phase, node)) }
{
    line.extend_from_slice(phase.word().as_bytes())?;
    line.push(b' ')?;
    push_node(line, node)
}
