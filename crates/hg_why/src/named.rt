//! What changesets are called.
ghost use Rattle.std.specs.Prelude.{◌≡◌, ◌++◌, OnOk, option_map};
ghost use Rattle.hg_replica.specs.Content.{content_of};
ghost use Rattle.hg_log.specs.Drawings.{Extends, HasId};
ghost use Rattle.hg_why.specs.Names.{name_of, title_at};

use hg_changeset::Node;
use hg_log::{push_label, push_short_id, push_text, title_of};
use hg_replica::Replica;
use std::alloc::AllocError;

/// Appends what a changeset is called, if it is held and its text tells that, and its short id.
pub fn push_named(line: &mut Vec<u8>, replica: &Replica, node: Node) -> Result<(), AllocError>
    ensures { OnOk result (HasId node line.new.items) }
{
    push_title(line, replica, node)?;
    push_short_id(line, node)
}

// Appends what a changeset is called and a blank, if it is held and its text tells that.
fn push_title(line: &mut Vec<u8>, replica: &Replica, node: Node) -> Result<(), AllocError> {
    match title_at(replica, node) {
        Some(title) => {
            push_label(line, title)?;
            push_text(line, b" ")
        }
        None => Ok(()),
    }
}

/// Appends what a changeset is called, or else its short id.
pub(crate) fn push_name(line: &mut Vec<u8>, replica: &Replica, node: Node) -> Result<(), AllocError>
    ensures { OnOk result (line.new.items ≡ line.old.items ++ name_of (content_of replica.now) node) }
{
    match title_at(replica, node) {
        Some(title) => push_label(line, title),
        None => push_short_id(line, node),
    }
}

/// Appends changesets, each by its name and its short id.
pub(crate) fn push_each_named(
    line: &mut Vec<u8>,
    replica: &Replica,
    nodes: &[Node],
) -> Result<(), AllocError> {
    let mut divider: &[u8] = b"";
    for node in nodes {
        push_text(line, divider)?;
        push_named(line, replica, *node)?;
        divider = b", ";
    }
    Ok(())
}

/// Appends names of changesets behind ` as `, where there are any.
pub(crate) fn push_successors(
    line: &mut Vec<u8>,
    replica: &Replica,
    nodes: &[Node],
) -> Result<(), AllocError>
    ensures { OnOk result (Extends line.old.items line.new.items) }
{
    let mut divider: &[u8] = b" as ";
    for node in nodes {
        push_text(line, divider)?;
        push_name(line, replica, *node)?;
        divider = b", ";
    }
    Ok(())
}

/// Appends names of changesets, each behind a blank.
pub(crate) fn push_each_behind(
    line: &mut Vec<u8>,
    replica: &Replica,
    nodes: &[Node],
) -> Result<(), AllocError> {
    for node in nodes {
        push_text(line, b" ")?;
        push_name(line, replica, *node)?;
    }
    Ok(())
}

/// The first line of a changeset's description, where it is held and its text is that of an entry.
pub(crate) fn title_at(replica: &Replica, node: Node) -> Option<&[u8]>
    ensures { option_map (λ s. s.now) result ≡ title_at (content_of replica.now) node }
{
    match replica.graph().changeset(node) {
        Some(changeset) => title_of(changeset),
        None => None,
    }
}
