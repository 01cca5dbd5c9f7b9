//! Boxes and edges of a graph for Graphviz.
ghost use Rattle.std.specs.Prelude.{◌<◌, OnOk, length};
ghost use Rattle.hg_phases.specs.State.{changesets};
ghost use Rattle.hg_log.specs.Drawings.{Extends, HasId};

use crate::described::{push_short_id, push_unstable};
use crate::fate::{fates, is_pruned, rewriting_word};
use crate::kind::{Kind, kind_of};
use crate::line::push_text;
use crate::titles::label_of;
use hg_changeset::{Changeset, Node};
use hg_marker::Marker;
use hg_phases::Phase;
use hg_replica::Replica;
use hg_view::Kept;
use std::alloc::AllocError;

// How the line of a box or of an edge begins.
const BEGIN: &[u8] = b"        \"";

/// Appends how the cluster of this name begins.
pub(crate) fn push_heading(line: &mut Vec<u8>, cluster: &[u8]) -> Result<(), AllocError> {
    push_text(line, b"    subgraph \"cluster_")?;
    push_quoted(line, cluster)?;
    push_text(line, b"\" {\n        label=\"")?;
    push_quoted(line, cluster)?;
    push_text(line, b"\";")
}

/// Appends the beginning of a changeset's box in the cluster of this name, up to what its label says: the short id and,
/// where the changeset is known, what it is called.
pub(crate) fn push_box(
    line: &mut Vec<u8>,
    cluster: &[u8],
    node: Node,
    changeset: Option<&Changeset>,
) -> Result<(), AllocError>
    ensures { OnOk result (HasId node line.new.items) }
{
    push_key(line, BEGIN, cluster, node)?;
    push_text(line, b" [label=\"")?;
    push_short_id(line, node)?;
    push_label_below(line, changeset)
}

// Appends what stands before a box's name, up to a quote, and the name.
fn push_key(
    line: &mut Vec<u8>,
    before: &[u8],
    cluster: &[u8],
    node: Node,
) -> Result<(), AllocError> {
    push_text(line, before)?;
    push_quoted(line, cluster)?;
    push_text(line, b" ")?;
    push_short_id(line, node)?;
    push_text(line, b"\"")
}

// Appends the label of a changeset below its id, where it is known and has one.
fn push_label_below(line: &mut Vec<u8>, changeset: Option<&Changeset>) -> Result<(), AllocError>
    ensures { OnOk result (Extends line.old.items line.new.items) }
{
    match changeset {
        Some(changeset) => push_line_below(line, label_of(changeset)),
        None => Ok(()),
    }
}

// Appends a further line, if there is something on it.
fn push_line_below(line: &mut Vec<u8>, text: &[u8]) -> Result<(), AllocError>
    ensures { OnOk result (Extends line.old.items line.new.items) }
{
    if text.is_empty() {
        return Ok(());
    }
    push_text(line, b"\\n")?;
    push_quoted(line, text)
}

/// Appends the phase of a changeset, what is unstable about it, and how its box looks, up to the end of its line.
pub(crate) fn push_looks(
    kept: &Kept,
    place: usize,
    node: Node,
    line: &mut Vec<u8>,
) -> Result<(), AllocError>
    requires { place < length (changesets kept.now.replica.history) }
    ensures { OnOk result (Extends line.old.items line.new.items) }
{
    let phase = kept.replica().phase_at(place).unwrap();
    push_state(line, phase, kept, node)?;
    push_style(line, phase, kept, node)
}

// Appends the last line of a changeset's label.
fn push_state(line: &mut Vec<u8>, phase: Phase, kept: &Kept, node: Node) -> Result<(), AllocError>
    ensures { OnOk result (Extends line.old.items line.new.items) }
{
    push_text(line, b"\\n")?;
    push_text(line, phase.word().as_bytes())?;
    push_unstable(line, kept.status(node), false)
}

// Appends how a changeset's box looks.
fn push_style(line: &mut Vec<u8>, phase: Phase, kept: &Kept, node: Node) -> Result<(), AllocError>
    ensures { OnOk result (Extends line.old.items line.new.items) }
{
    let replica = kept.replica();
    let kind = kind_of(kept, node);
    push_text(line, colour(kind, phase))?;
    push_text(
        line,
        style(kind, is_pruned(replica, fates(replica, node, kind))),
    )?;
    push_text(line, frames(kept.pins().is_pinned(node)))
}

// The colour of a changeset's box.
fn colour(kind: Kind, phase: Phase) -> &'static [u8] {
    match (kind, phase) {
        (Kind::Obsolete | Kind::Hidden, _) => b"\", color=gray",
        (_, Phase::Public) => b"\", color=black",
        (_, Phase::Draft) => b"\", color=blue",
        (_, Phase::Secret) => b"\", color=red",
    }
}

// How a changeset's box is filled and drawn: that of what was pruned has its corners cut.
fn style(kind: Kind, is_pruned: bool) -> &'static [u8] {
    match (kind, is_pruned) {
        (Kind::Unstable, _) => b", style=filled, fillcolor=lightsalmon",
        (Kind::Hidden, true) => b", style=\"dashed,diagonals\"",
        (Kind::Hidden, false) => b", style=dashed",
        (Kind::Obsolete, true) => b", style=diagonals",
        (_, _) => b"",
    }
}

// How a changeset's box ends: what is pinned has two frames.
fn frames(is_pinned: bool) -> &'static [u8] {
    if is_pinned {
        b", peripheries=2];"
    } else {
        b"];"
    }
}

/// Appends the rest of the box of an id that isn't drawn as a changeset, up to the end of its line.
pub(crate) fn push_looks_of_other(
    line: &mut Vec<u8>,
    replica: &Replica,
    node: Node,
) -> Result<(), AllocError> {
    if !replica.graph().contains(node) {
        push_text(line, b"\\nnot held")?;
    }
    push_text(line, other_style(replica, node))
}

// How the box of an id that isn't drawn as a changeset looks.
fn other_style(replica: &Replica, node: Node) -> &'static [u8] {
    if is_pruned(replica, replica.store().with_predecessor(node)) {
        b"\", style=\"dotted,diagonals\"];"
    } else {
        b"\", style=dotted];"
    }
}

/// Appends an edge to a parent.
pub(crate) fn push_parent_edge(
    line: &mut Vec<u8>,
    cluster: &[u8],
    node: Node,
    parent: Node,
) -> Result<(), AllocError> {
    push_edge(line, cluster, node, parent)?;
    push_text(line, b";")
}

/// Appends an edge to a successor, with the word for how the marker rewrites.
pub(crate) fn push_successor_edge(
    line: &mut Vec<u8>,
    cluster: &[u8],
    marker: &Marker,
    successor: Node,
) -> Result<(), AllocError> {
    push_edge(line, cluster, marker.predecessor(), successor)?;
    push_text(line, b" [style=dashed, constraint=false, label=\"")?;
    push_text(line, rewriting_word(marker))?;
    push_text(line, b"\"];")
}

// Appends an edge from one box to another.
fn push_edge(line: &mut Vec<u8>, cluster: &[u8], from: Node, to: Node) -> Result<(), AllocError> {
    push_key(line, BEGIN, cluster, from)?;
    push_key(line, b" -> \"", cluster, to)
}

/// Appends a text as it stands between quotes: Graphviz shows what `escape_ascii` makes of it.
pub(crate) fn push_quoted(line: &mut Vec<u8>, text: &[u8]) -> Result<(), AllocError>
    ensures { OnOk result (Extends line.old.items line.new.items) }
{
    for byte in text.escape_ascii() {
        push_between_quotes(line, byte)?;
    }
    Ok(())
}

// Appends a byte, behind a backslash where it is one, or a quote.
fn push_between_quotes(line: &mut Vec<u8>, byte: u8) -> Result<(), AllocError>
    ensures { OnOk result (Extends line.old.items line.new.items) }
{
    match byte {
        b'\\' | b'"' => push_text(line, &[b'\\', byte]),
        _ => push_text(line, &[byte]),
    }
}
