//! Whether sets of instabilities are the same.
use hg_changeset::Node;
use hg_instab::Instabilities;
use hg_view::Kept;
use std::alloc::{AllocError, Global};
use std::collections::BTreeSet;

/// Whether all six sets are the same.
pub fn are_same(one: &Instabilities, other: &Instabilities) -> bool {
    let same = one.obsolete() == other.obsolete()
        && one.orphan() == other.orphan()
        && one.suspended() == other.suspended();
    same && one.extinct() == other.extinct()
        && one.phase_divergent() == other.phase_divergent()
        && one.content_divergent() == other.content_divergent()
}

/// Whether the set has these changesets and no others, where none is named twice.
pub fn has_exactly(set: &BTreeSet<Node>, nodes: &[Node]) -> bool {
    nodes.iter().all(|node| set.contains(node)) && set.len() == nodes.len()
}

/// Whether the sets that are kept are those that are told from scratch.
pub fn is_up_to_date(alloc: Global, kept: &Kept) -> Result<bool, AllocError> {
    let told = Instabilities::from_scratch(alloc, kept.replica())?;
    Ok(are_same(&told, kept.instabilities()))
}
