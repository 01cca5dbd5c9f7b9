//! Copies of what a message holds.
ghost use Rattle.std.specs.Prelude.{◌≡◌, ◌<◌, ◌++◌, IfOk, OnOk, OnErr, length};
ghost use Rattle.hg_obsstore.specs.Places.{picked};
ghost use Rattle.hg_message.specs.Part.{draft_bounds};

use hg_changeset::{Changeset, Node};
use hg_graph::Graph;
use hg_marker::Marker;
use hg_obsstore::Store;
use hg_phases::Phase;
use std::alloc::{AllocError, Global};

/// Equal changesets.
pub(crate) fn copy_changesets(
    alloc: Global,
    changesets: &[Changeset],
) -> Result<Vec<Changeset>, AllocError>
    ensures { IfOk result (λ copies. copies.items ≡ changesets.now) }
{
    let mut copies = Vec::with_capacity(alloc, changesets.len())?;
    for changeset in changesets {
        copies.push(changeset.copy()?)?;
    }
    Ok(copies)
}

/// Equal markers.
pub(crate) fn copy_markers(alloc: Global, markers: &[Marker]) -> Result<Vec<Marker>, AllocError>
    ensures { IfOk result (λ copies. copies.items ≡ markers.now) }
{
    let mut copies = Vec::with_capacity(alloc, markers.len())?;
    for marker in markers {
        copies.push(marker.copy()?)?;
    }
    Ok(copies)
}

/// Copies of the changesets at these places.
pub(crate) fn copy_changesets_at(
    alloc: Global,
    graph: &Graph,
    places: &[usize],
) -> Result<Vec<Changeset>, AllocError>
    ensures { IfOk result (λ copies. copies.items ≡ picked graph.now places.now) }
{
    let mut copies = Vec::with_capacity(alloc, places.len())?;
    for place in places {
        match graph.changeset_at(*place) {
            Some(changeset) => copies.push(changeset.copy()?)?,
            None => {}
        }
    }
    Ok(copies)
}

/// Copies of the markers at these places.
pub(crate) fn copy_markers_at(
    alloc: Global,
    store: &Store,
    places: &[usize],
) -> Result<Vec<Marker>, AllocError>
    ensures { IfOk result (λ copies. copies.items ≡ picked store.now places.now) }
{
    let mut copies = Vec::with_capacity(alloc, places.len())?;
    for place in places {
        match store.get(*place) {
            Some(marker) => copies.push(marker.copy()?)?,
            None => {}
        }
    }
    Ok(copies)
}

/// Appends a draft bound for each changeset.
pub(crate) fn draft_bounds_onto(
    bounds: &mut Vec<(Node, Phase)>,
    changesets: &[Changeset],
) -> Result<(), AllocError>
    ensures drafts { OnOk result (bounds.new.items ≡ bounds.old.items ++ draft_bounds changesets.now) }
    ensures memory { OnErr result (0 < length changesets.now) }
{
    if changesets.is_empty() {
        return Ok(());
    }
    bounds.reserve(changesets.len())?;
    for changeset in changesets {
        bounds.push((changeset.node(), Phase::Draft))?;
    }
    Ok(())
}
