//! Stores of markers as text.
ghost use Rattle.std.specs.Prelude.{◌≡◌, ◌⊎◌, IfErr, IfSome, OnOk};
ghost use Rattle.std.specs.Io.KnownBytes.{Appends};
ghost use Rattle.hg_show.specs.Answers.{ShowAnswer, store_fault_in};
ghost use Rattle.hg_show.specs.Printing.{AreLines, IsMarkerText, IsStoreShown, Text};

use crate::fault::ShowFault;
use crate::line::print_line;
use crate::marker::push_marker;
use hg_marker::{Marker, ReadError};
use hg_obsstore::read_markers;
use std::alloc::Global;
use std::io::Write;

/// Prints the markers of a store, with their repeats, in their order: a line for each.
pub(crate) fn show_store<W: Write>(
    alloc: Global,
    bytes: &[u8],
    writer: &mut W,
) -> Result<(), ShowFault>
    ensures answer { ShowAnswer (store_fault_in bytes.now) result }
    ensures unprinted { IfSome (store_fault_in bytes.now) (λ _. W.contents writer.new ≡ W.contents writer.old) }
    ensures printed { OnOk result ((text : Text) × IsStoreShown bytes.now text
        × Appends (W.contents writer.old) (W.contents writer.new) text) }
{
    match read_markers(alloc, bytes) {
        Ok(markers) => print_markers(alloc, &markers, writer),
        Err(ReadError::NoMemory) => Err(ShowFault::NoMemory),
        Err(ReadError::Fault(fault)) => Err(ShowFault::Store(fault)),
    }
}

/// Prints a line for each marker.
pub(crate) fn print_markers<W: Write>(
    alloc: Global,
    markers: &[Marker],
    writer: &mut W,
) -> Result<(), ShowFault>
    ensures printed { OnOk result ((text : Text) × AreLines IsMarkerText markers.now text
        × Appends (W.contents writer.old) (W.contents writer.new) text) }
    ensures err { IfErr result (λ fault. (fault ≡ ShowFault.Write) ⊎ (fault ≡ ShowFault.NoMemory)) }
{
    let mut line = Vec::new(alloc);
    for marker in markers {
        push_marker(alloc, &mut line, marker)?;
        print_line(writer, &mut line)?;
    }
    Ok(())
}
