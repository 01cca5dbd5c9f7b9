//! What became of a changeset, by the markers that rewrote it.
ghost use Rattle.std.specs.Prelude.{◌≡◌, codes, option_copied};
ghost use Rattle.std.specs.Option.{option_map_or};
ghost use Rattle.std.specs.Str.{bytes_eq};
ghost use Rattle.hg_log.specs.Fates.{rewriting_of, word_of};

use crate::described::push_name;
use crate::kind::Kind;
use crate::line::push_text;
use hg_changeset::Node;
use hg_marker::Marker;
use hg_replica::Replica;
use std::alloc::AllocError;

/// The places of the markers that rewrote a changeset, in the order in which they came, where it is obsolete. Of others
/// it gives none: what is public isn't rewritten, whatever markers say.
pub(crate) fn fates(replica: &Replica, node: Node, kind: Kind) -> &[usize] {
    match kind {
        Kind::Ordinary | Kind::Unstable => &[],
        Kind::Obsolete | Kind::Hidden => replica.store().with_predecessor(node),
    }
}

/// Whether a changeset became nothing, by some marker of those at these places.
pub(crate) fn is_pruned(replica: &Replica, markers: &[usize]) -> bool {
    let store = replica.store();
    markers.iter().any(|place| match store.get(*place) {
        Some(marker) => marker.successors().is_empty(),
        None => false,
    })
}

/// Appends what the marker at a place says, where there is one: how the changeset was rewritten, and to which others.
/// Ids are yellow where there are to be colours.
pub(crate) fn push_fate(
    line: &mut Vec<u8>,
    replica: &Replica,
    place: Option<usize>,
    is_coloured: bool,
) -> Result<(), AllocError> {
    match marker_at(replica, place) {
        Some(marker) => {
            push_text(line, rewriting_word(marker))?;
            push_successors(line, replica, marker.successors(), is_coloured)
        }
        None => Ok(()),
    }
}

fn marker_at(replica: &Replica, place: Option<usize>) -> Option<&Marker> {
    replica.store().get(place?)
}

/// The word for how a marker rewrites: as it notes, where one changeset takes the place of its predecessor; else
/// `pruned` or `split`.
pub fn rewriting_word(marker: &Marker) -> &'static [u8]
    ensures { result.now ≡ rewriting_of marker.now }
{
    match marker.successors().len() {
        0 => b"pruned",
        1 => single_word(marker.meta().get(b"operation")),
        _ => b"split",
    }
}

fn single_word(operation: Option<&[u8]>) -> &'static [u8]
    ensures { result.now ≡ option_map_or word_of (option_copied operation.entry) (codes "rewritten") }
{
    match operation {
        Some(operation) => word_of(operation),
        None => b"rewritten",
    }
}

// The word for an operation that puts one changeset in place of another: of those that Mercurial and evolve note, and
// scripts make, each that has one. What else is noted rewrites.
fn word_of(operation: &[u8]) -> &'static [u8]
    ensures { result.now ≡ word_of operation.now }
{
    if is_word(operation, b"amend") {
        return b"amended";
    }
    if is_word(operation, b"fold") {
        return b"folded";
    }
    if is_word(operation, b"relocate") {
        return b"relocated";
    }
    if is_word(operation, b"rebase") {
        return b"rebased";
    }
    if is_word(operation, b"evolve") {
        return b"evolved";
    }
    if is_word(operation, b"uncommit") {
        return b"uncommitted";
    }
    if is_word(operation, b"absorb") {
        return b"absorbed";
    }
    b"rewritten"
}

fn is_word(operation: &[u8], word: &[u8]) -> bool
    ensures { result ≡ bytes_eq operation.now word.now }
{
    operation == word
}

// Appends what the successors are called, where there are any.
fn push_successors(
    line: &mut Vec<u8>,
    replica: &Replica,
    successors: &[Node],
    is_coloured: bool,
) -> Result<(), AllocError> {
    let mut divider: &[u8] = b" as ";
    for node in successors {
        push_text(line, divider)?;
        push_name(line, replica, *node, is_coloured)?;
        divider = b", ";
    }
    Ok(())
}
