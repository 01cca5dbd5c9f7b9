//! The histories of nodes as a graph for Graphviz.
ghost use Rattle.std.specs.Prelude.{◌≡◌, ◌<◌, All, IfSome, IsNone, OnOk, length};
ghost use Rattle.std.specs.Io.KnownBytes.{Appends};
ghost use Rattle.hg_changeset.specs.declared.node.Node.{Node as NodeValue};
ghost use Rattle.hg_changeset.specs.Changeset.{node_of};
ghost use Rattle.hg_phases.specs.State.{changesets};
ghost use Rattle.hg_log.specs.Drawings.{AreAllDrawn, Grows, IsDrawnText, IsGraph, StandsAt, Text};
ghost use Rattle.hg_log.specs.Graphs.{AreClusters, IsGraphOf, IsHeldBy};
ghost use Rattle.hg_log.specs.Objects.{names_and_states};

use crate::boxes::{
    push_box, push_heading, push_looks, push_looks_of_other, push_parent_edge, push_successor_edge,
};
use crate::fault::DrawFault;
use crate::line::{write_appended, write_bytes};
use crate::named::NamedNode;
use crate::shown::{Shown, node_at};
use hg_changeset::{Changeset, Node};
use hg_marker::Marker;
use hg_view::Kept;
use std::alloc::Global;
use std::collections::BTreeSet;
use std::io::Write;

// How a graph begins.
const HEAD: &str = "digraph fleet {\n    node [shape=box];\n";

// How it ends: what the looks of its boxes say.
const LEGEND: &str = "    legend [shape=plaintext, label=\"\\
black: public\\l\\
blue: draft\\l\\
red: secret\\l\\
gray: obsolete\\l\\
filled: unstable\\l\\
dashed: hidden\\l\\
dotted: not shown or not held\\l\\
corners cut: pruned\\l\\
two frames: pinned\\l\"];
}
";

// A node's cluster: its name, what of its replica is drawn, and all nodes whose labels may be used.
#[derive(Clone, Copy)]
struct Cluster<'a> {
    name: &'a [u8],
    shown: Shown<'a>,
    known: &'a [NamedNode<'a>],
}

impl<'a> Cluster<'a> {
    // The changeset with this id: as the node holds it, or else as the first of those that are known does.
    fn changeset(&self, node: Node) -> Option<&'a Changeset>
        ensures found { IfSome result (λ c. node_of c.now ≡ node) }
        ensures missing { IsNone result → All (λ n. ¬ (IsHeldBy n node)) self.now.known.now }
    {
        match self.shown.kept.replica().graph().changeset(node) {
            Some(changeset) => Some(changeset),
            None => first_changeset(self.known, node),
        }
    }
}

// The changeset with this id, as the first of these nodes holds it that does.
fn first_changeset<'a>(nodes: &'a [NamedNode<'a>], id: Node) -> Option<&'a Changeset>
    ensures found { IfSome result (λ c. node_of c.now ≡ id) }
    ensures missing { IsNone result → All (λ n. ¬ (IsHeldBy n id)) nodes.now }
{
    for node in nodes {
        match node.kept.replica().graph().changeset(id) {
            Some(changeset) => return Some(changeset),
            None => {}
        }
    }
    None
}

/// Draws the histories of nodes as they are now, under their pins, as one digraph in the language of Graphviz with a
/// cluster for each node: what is visible, or all that is held where `shows_hidden` is true.
///
/// A changeset is a box, named by its node and the first 12 digits of its id, so that two of a node whose ids begin
/// alike are one box. Its label has the id, what [`draw_log`](crate::draw_log) calls it, whatever bytes that holds, its
/// phase and its instabilities. It is black where it is public, blue where it is a draft, red where it is secret, and
/// gray where it is obsolete. What is unstable is filled, what is hidden is dashed, what was pruned has its corners
/// cut, and what is pinned has two frames. A solid edge leads to each parent, and a dashed one from what was rewritten
/// to each successor, with the word for how. Markers are those that rewrote what is drawn, or all where `shows_hidden`
/// is true. What they name that isn't drawn is a dotted box. What the cluster's node doesn't even hold is called as the
/// first of the `known` nodes calls it that holds it, and has no phase; where none holds it, it has its id alone. A box
/// without a frame tells what all this means:
///
/// ```text
/// digraph fleet {
///     node [shape=box];
///     subgraph "cluster_A" {
///         label="A";
///         "A 6f1c9a0b27d4" [label="6f1c9a0b27d4\nb2\ndraft", color=blue];
///         "A 6f1c9a0b27d4" -> "A 55e1d7c2a960";
///         "A b3a90cf4e182" [label="b3a90cf4e182\nb\ndraft", color=gray, style=dashed];
///         "A b3a90cf4e182" -> "A 55e1d7c2a960";
///         "A 55e1d7c2a960" [label="55e1d7c2a960\na\npublic", color=black];
///         "A b3a90cf4e182" -> "A 6f1c9a0b27d4" [style=dashed, constraint=false, label="amended"];
///     }
///     legend [shape=plaintext, label="black: public\lblue: draft\l.."];
/// }
/// ```
///
/// It costs what is written, a look at each marker that is held, and a look-up a known node for each box of what isn't
/// held. [`DrawFault::Write`] comes where the writer refuses a line, [`DrawFault::NoMemory`] only where memory is
/// refused for a line or for the ids that aren't drawn; the lines before stay written.
pub fn draw_graphs<W: Write>(
    alloc: Global,
    nodes: &[NamedNode<'_>],
    known: &[NamedNode<'_>],
    shows_hidden: bool,
    writer: &mut W,
) -> Result<(), DrawFault>
    ensures { OnOk result ((text : Text) × IsGraphOf shows_hidden (names_and_states nodes.now) text
        × Appends (W.contents writer.old) (W.contents writer.new) text) }
{
    write_bytes(HEAD.as_bytes(), writer)?;
    draw_clusters(alloc, nodes, known, shows_hidden, writer)?;
    write_bytes(LEGEND.as_bytes(), writer)
}

// Draws the cluster of each node.
fn draw_clusters<'a, W: Write>(
    alloc: Global,
    nodes: &'a [NamedNode<'a>],
    known: &'a [NamedNode<'a>],
    shows_hidden: bool,
    writer: &mut W,
) -> Result<(), DrawFault>
    ensures { OnOk result ((text : Text) × AreClusters shows_hidden (names_and_states nodes.now) text
        × Appends (W.contents writer.old) (W.contents writer.new) text) }
{
    let mut line = Vec::new(alloc);
    for node in nodes {
        let shown = Shown {
            kept: node.kept,
            shows_hidden,
        };
        let cluster = Cluster {
            name: node.name,
            shown,
            known,
        };
        draw_cluster(alloc, &cluster, &mut line, writer)?;
    }
    Ok(())
}

// Draws a node's cluster.
fn draw_cluster<W: Write>(
    alloc: Global,
    cluster: &Cluster<'_>,
    line: &mut Vec<u8>,
    writer: &mut W,
) -> Result<(), DrawFault>
    ensures { OnOk result ((text : Text) × IsGraph cluster.now.shown.kept.now cluster.now.shown.shows_hidden text
        × Appends (W.contents writer.old) (W.contents writer.new) text) }
{
    let appended = push_heading(line, cluster.name);
    write_appended(appended, line, writer)?;
    draw_changesets(cluster, line, writer)?;
    draw_markers(alloc, cluster, line, writer)?;
    write_bytes(b"    }\n", writer)
}

// Draws the boxes of the changesets with the edges to their parents, from the last place to the first.
fn draw_changesets<W: Write>(
    cluster: &Cluster<'_>,
    line: &mut Vec<u8>,
    writer: &mut W,
) -> Result<(), DrawFault>
    ensures { OnOk result ((text : Text) × AreAllDrawn cluster.now.shown.kept.now cluster.now.shown.shows_hidden text
        × Appends (W.contents writer.old) (W.contents writer.new) text) }
{
    let shown = cluster.shown;
    let len = shown.kept.replica().graph().len();
    for place in (0..len).rev() {
        if shown.has_place(place) {
            draw_changeset(cluster.name, shown.kept, place, line, writer)?;
        }
    }
    Ok(())
}

// Draws a changeset's box and the edges to its parents.
fn draw_changeset<W: Write>(
    name: &[u8],
    kept: &Kept,
    place: usize,
    line: &mut Vec<u8>,
    writer: &mut W,
) -> Result<(), DrawFault>
    requires { place < length (changesets kept.now.replica.history) }
    ensures { OnOk result ((n : NodeValue) × (text : Text) × StandsAt kept.now place n × IsDrawnText n text
        × Appends (W.contents writer.old) (W.contents writer.new) text) }
{
    let changeset = kept.replica().graph().changeset_at(place).unwrap();
    let node = node_at(kept, place);
    push_box(line, name, node, Some(changeset))?;
    let appended = push_looks(kept, place, node, line);
    write_appended(appended, line, writer)?;
    let (first, second) = changeset.parents();
    draw_parent_edge(name, node, first, line, writer)?;
    draw_parent_edge(name, node, second, line, writer)
}

// Draws the edge to a parent, where there is one.
fn draw_parent_edge<W: Write>(
    name: &[u8],
    node: Node,
    parent: Node,
    line: &mut Vec<u8>,
    writer: &mut W,
) -> Result<(), DrawFault>
    ensures { OnOk result (Grows (W.contents writer.old) (W.contents writer.new)) }
{
    if parent.is_null() {
        return Ok(());
    }
    let appended = push_parent_edge(line, name, node, parent);
    write_appended(appended, line, writer)
}

// Draws what markers say, with a box for each id that isn't drawn.
fn draw_markers<W: Write>(
    alloc: Global,
    cluster: &Cluster<'_>,
    line: &mut Vec<u8>,
    writer: &mut W,
) -> Result<(), DrawFault>
    ensures { OnOk result (Grows (W.contents writer.old) (W.contents writer.new)) }
{
    let mut others = BTreeSet::new(alloc);
    for marker in cluster.shown.kept.replica().store().markers() {
        draw_marker(cluster, marker, &mut others, line, writer)?;
    }
    Ok(())
}

// Draws what a marker says that rewrote what is drawn, or any where all is. The others are those that have a box
// already, though they aren't drawn as changesets.
fn draw_marker<W: Write>(
    cluster: &Cluster<'_>,
    marker: &Marker,
    others: &mut BTreeSet<Node>,
    line: &mut Vec<u8>,
    writer: &mut W,
) -> Result<(), DrawFault>
    ensures { OnOk result (Grows (W.contents writer.old) (W.contents writer.new)) }
{
    let old = marker.predecessor();
    if !cluster.shown.has_rewritten(old) {
        return Ok(());
    }
    draw_other(cluster, old, others, line, writer)?;
    for new in marker.successors() {
        draw_other(cluster, *new, others, line, writer)?;
        let appended = push_successor_edge(line, cluster.name, marker, *new);
        write_appended(appended, line, writer)?;
    }
    Ok(())
}

// Draws the box of an id that isn't drawn as a changeset, unless that is done.
fn draw_other<W: Write>(
    cluster: &Cluster<'_>,
    node: Node,
    others: &mut BTreeSet<Node>,
    line: &mut Vec<u8>,
    writer: &mut W,
) -> Result<(), DrawFault>
    ensures { OnOk result (Grows (W.contents writer.old) (W.contents writer.new)) }
{
    if cluster.shown.has(node) || !others.insert(node)? {
        return Ok(());
    }
    push_box(line, cluster.name, node, cluster.changeset(node))?;
    let appended = push_looks_of_other(line, cluster.shown.kept.replica(), node);
    write_appended(appended, line, writer)
}
