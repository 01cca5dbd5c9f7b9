//! What became of changesets at the nodes of a fleet.
ghost use Rattle.std.specs.Prelude.{List, ℕ, All, IsSome, MatchOption, OnOk, map, string_bytes};
ghost use Rattle.std.specs.Io.KnownBytes.{Appends};
ghost use Rattle.hg_log.specs.Drawings.{ArePieces};
ghost use Rattle.hg_line.specs.Lines.{ids};
ghost use Rattle.hgfleet.specs.Arguments.{texts_of};
ghost use Rattle.hgfleet.specs.Commands.{AreFates, AreFatesAt, IsFateAt, IsFateIn, IsUnlabelledAmong};

use hg_changeset::Node;
use hg_log::DrawFault;
use hg_script::Fleet;
use hg_view::Kept;
use hg_why::{knows, write_fate};
use std::alloc::Global;
use std::io::Write;

/// The first of these labels that no changeset of the fleet has.
pub fn unknown_label<'a>(fleet: &Fleet, labels: &'a [String]) -> Option<&'a str>
    ensures { MatchOption result
        (All (λ label. IsSome (ids fleet.now (string_bytes label))) labels.entry.now)
        (λ label. IsUnlabelledAmong labels.entry.now fleet.now label.now) }
{
    for label in labels {
        match fleet.node_of(label.as_bytes()) {
            Some(_) => {}
            None => return Some(label.as_str()),
        }
    }
    None
}

/// Writes the fates of the changesets with these labels, in their order: a line for each node that knows of one, in the
/// byte order of the names.
pub fn write_fates<W: Write>(
    alloc: Global,
    fleet: &Fleet,
    labels: &[String],
    writer: &mut W,
) -> Result<(), DrawFault>
    ensures { OnOk result ((text : List ℕ) × AreFates fleet.now (texts_of labels.now) text
        × Appends (W.contents writer.old) (W.contents writer.new) text) }
{
    let names = fleet.node_names()?;
    for label in labels {
        write_fates_of(alloc, fleet, label.as_bytes(), &names, writer)?;
    }
    Ok(())
}

// Writes the fates of the changeset with this label at the nodes of these names, nothing where there is none.
fn write_fates_of<W: Write>(
    alloc: Global,
    fleet: &Fleet,
    label: &[u8],
    names: &[&[u8]],
    writer: &mut W,
) -> Result<(), DrawFault>
    ensures { OnOk result ((text : List ℕ) × AreFatesAt fleet.now (map (λ name. name.now) names.now) label.now text
        × Appends (W.contents writer.old) (W.contents writer.new) text) }
{
    match fleet.node_of(label) {
        Some(node) => write_each_fate(alloc, fleet, label, node, names, writer),
        None => Ok(()),
    }
}

fn write_each_fate<W: Write>(
    alloc: Global,
    fleet: &Fleet,
    label: &[u8],
    node: Node,
    names: &[&[u8]],
    writer: &mut W,
) -> Result<(), DrawFault>
    ensures { OnOk result ((text : List ℕ)
        × ArePieces (IsFateAt fleet.now label.now node) (map (λ name. name.now) names.now) text
        × Appends (W.contents writer.old) (W.contents writer.new) text) }
{
    for name in names {
        write_fate_at(alloc, fleet, label, node, *name, writer)?;
    }
    Ok(())
}

// Writes the fate of a changeset at the node of this name, nothing where the node doesn't know of it.
fn write_fate_at<W: Write>(
    alloc: Global,
    fleet: &Fleet,
    label: &[u8],
    node: Node,
    name: &[u8],
    writer: &mut W,
) -> Result<(), DrawFault>
    ensures { OnOk result ((text : List ℕ) × IsFateAt fleet.now label.now node name.now text
        × Appends (W.contents writer.old) (W.contents writer.new) text) }
{
    match fleet.kept_of(name) {
        Some(kept) => write_fate_in(alloc, label, name, kept, node, writer),
        None => Ok(()),
    }
}

// The same of a node that holds this.
fn write_fate_in<W: Write>(
    alloc: Global,
    label: &[u8],
    name: &[u8],
    kept: &Kept,
    node: Node,
    writer: &mut W,
) -> Result<(), DrawFault>
    ensures { OnOk result ((text : List ℕ) × IsFateIn label.now node name.now kept.now text
        × Appends (W.contents writer.old) (W.contents writer.new) text) }
{
    if knows(kept, node) {
        write_fate(alloc, label, name, kept, node, writer)
    } else {
        Ok(())
    }
}
