//! What became of a changeset, on one line.
ghost use Rattle.std.specs.Prelude.{◌≡◌, ◌++◌, ◌↔◌, IsTrue, OnOk, codes, false};
ghost use Rattle.std.specs.Io.KnownBytes.{Appends};
ghost use Rattle.hg_history.specs.Content.{IsHeld};
ghost use Rattle.hg_replica.specs.Content.{content_of};
ghost use Rattle.hg_replica.specs.Evolution.{IsPredecessor};
ghost use Rattle.hg_succ.specs.Answer.{sets_of};
ghost use Rattle.hg_log.specs.Drawings.{Text};
ghost use Rattle.hg_log.specs.Json.{divided};
ghost use Rattle.hg_why.specs.FateLines.{IsFateLine, IsKnown, family_text, heading_text, set_text, sets_text};
ghost use Rattle.hg_why.specs.Names.{name_of};

use crate::named::push_name;
use hg_changeset::Node;
use hg_log::{DrawFault, push_label, push_text, write_line};
use hg_replica::Replica;
use hg_succ::{Sets, successors_sets};
use hg_view::Kept;
use std::alloc::{AllocError, Global};
use std::io::Write;

/// Whether a node knows of a changeset: it holds it, or has a marker that rewrote it.
pub fn knows(kept: &Kept, node: Node) -> bool
    ensures { IsTrue result ↔ IsKnown (content_of kept.now.replica) node }
{
    let replica = kept.replica();
    holds(replica, node) || is_rewritten(replica, node)
}

fn holds(replica: &Replica, node: Node) -> bool
    ensures { IsTrue result ↔ IsHeld (content_of replica.now).0 node }
{
    replica.graph().contains(node)
}

fn is_rewritten(replica: &Replica, node: Node) -> bool
    ensures { IsTrue result ↔ IsPredecessor (content_of replica.now) node }
{
    !replica.store().with_predecessor(node).is_empty()
}

/// Writes a line with the successors sets of a changeset as its node has them, where the changeset goes by this label
/// and the node by this name. Say `feature` was amended at two nodes, and each heard of both:
///
/// ```text
/// fate of feature at alice: {feature-alice} or {feature-bob}
/// ```
///
/// The sets come in their order, and so do the changesets of a set, with blanks between them. Each is called by the
/// first line of its description, where it is held and its text is that of an entry, and else by the first 12 digits of
/// its id. What can't be printed of a label is escaped. The set of a changeset that no marker rewrote is itself alone.
/// Where no set is left, it was `pruned`, by a marker or by a cycle of them; where there are more than can be told, the
/// line says that. Of what the node doesn't know, as [`knows`] tells, there is no set either.
///
/// It costs what the changeset leads to by markers, and what is written. [`DrawFault::Write`] comes where the writer
/// refuses the line, [`DrawFault::NoMemory`] only where memory is refused.
pub fn write_fate<W: Write>(
    alloc: Global,
    label: &[u8],
    name: &[u8],
    kept: &Kept,
    node: Node,
    writer: &mut W,
) -> Result<(), DrawFault>
    ensures { OnOk result ((text : Text) × IsFateLine (content_of kept.now.replica) label.now name.now node text
        × Appends (W.contents writer.old) (W.contents writer.new) text) }
{
    let replica = kept.replica();
    let sets = successors_sets(alloc, replica, node)?;
    let mut line = Vec::new(alloc);
    push_heading(&mut line, label, name)?;
    push_sets(&mut line, replica, &sets)?;
    write_line(&mut line, writer)
}

// Appends of what, and where, the fate is told.
fn push_heading(line: &mut Vec<u8>, label: &[u8], name: &[u8]) -> Result<(), AllocError>
    ensures { OnOk result (line.new.items ≡ line.old.items ++ heading_text label.now name.now) }
{
    push_text(line, b"fate of ")?;
    push_label(line, label)?;
    push_text(line, b" at ")?;
    push_text(line, name)?;
    push_text(line, b": ")?;
    Ok(())
}

// Appends successors sets.
fn push_sets(line: &mut Vec<u8>, replica: &Replica, sets: &Sets) -> Result<(), AllocError>
    ensures { OnOk result
        (line.new.items ≡ line.old.items ++ sets_text (name_of (content_of replica.now)) sets.now) }
{
    match sets {
        Sets::Family(family) => push_family(line, replica, family),
        Sets::Overfull => {
            push_text(line, b"too many to tell")?;
            Ok(())
        }
    }
}

// Appends sets, or that there is none.
fn push_family(
    line: &mut Vec<u8>,
    replica: &Replica,
    family: &[Vec<Node>],
) -> Result<(), AllocError>
    ensures { OnOk result (line.new.items
        ≡ line.old.items ++ family_text (name_of (content_of replica.now)) (sets_of family.now)) }
{
    if family.is_empty() {
        push_text(line, b"pruned")?;
        return Ok(());
    }
    push_each_set(line, replica, family)
}

fn push_each_set(
    line: &mut Vec<u8>,
    replica: &Replica,
    family: &[Vec<Node>],
) -> Result<(), AllocError>
    ensures { OnOk result (line.new.items ≡ line.old.items
        ++ divided false (codes " or ") (set_text (name_of (content_of replica.now))) (sets_of family.now)) }
{
    let mut divider: &[u8] = b"";
    for set in family {
        push_text(line, divider)?;
        push_set(line, replica, set)?;
        divider = b" or ";
    }
    Ok(())
}

// Appends a set, by the names of its changesets.
fn push_set(line: &mut Vec<u8>, replica: &Replica, set: &[Node]) -> Result<(), AllocError>
    ensures { OnOk result
        (line.new.items ≡ line.old.items ++ set_text (name_of (content_of replica.now)) set.now) }
{
    push_text(line, b"{")?;
    push_each_name(line, replica, set)?;
    push_text(line, b"}")
}

fn push_each_name(line: &mut Vec<u8>, replica: &Replica, nodes: &[Node]) -> Result<(), AllocError>
    ensures { OnOk result (line.new.items
        ≡ line.old.items ++ divided false (codes " ") (name_of (content_of replica.now)) nodes.now) }
{
    let mut divider: &[u8] = b"";
    for node in nodes {
        push_text(line, divider)?;
        push_name(line, replica, *node)?;
        divider = b" ";
    }
    Ok(())
}
