//! What kept sets are told by, where none are kept yet: all markers are taken to be new.
ghost use Rattle.std.specs.Prelude.{◌≡◌, ◌↔◌, [], Contains, IfOk};
ghost use Rattle.hg_changeset.specs.declared.node.Node.{Node};
ghost use Rattle.hg_marker.specs.Fields.{Fields};
ghost use Rattle.hg_replica.specs.Content.{content_of};
ghost use Rattle.hg_instab.specs.Changed.{IsFresh};
ghost use Rattle.hg_instab.specs.Near.{IsAfterPublic, AreNearForks};

use crate::after_public::newly_after_public;
use crate::among::list_of;
use crate::near::region;
use hg_changeset::Node;
use hg_history::AddedNodes;
use hg_obsstore::NewPlaces;
use hg_replica::{Change, Replica};
use std::alloc::{AllocError, Global};
use std::collections::BTreeSet;

// The ids that something public precedes, over markers that aren't bumpedfix.
pub(crate) fn after_public_ids(alloc: Global, replica: &Replica) -> Result<Vec<Node>, AllocError>
    ensures { IfOk result (λ ids. (n : Node) → Contains ids.items n ↔ IsAfterPublic (content_of replica.now) n) }
{
    replica.is_valid();
    let change = every_marker(alloc, replica)?;
    let met = newly_after_public(alloc, replica, &change, &BTreeSet::new(alloc))?;
    list_of(alloc, &met)
}

// The ids near forks.
pub(crate) fn near_fork_ids(alloc: Global, replica: &Replica) -> Result<Vec<Node>, AllocError>
    ensures { IfOk result (λ ids. AreNearForks (content_of replica.now) (Contains ids.items)) }
{
    let change = every_marker(alloc, replica)?;
    let met = region(alloc, replica, &change, &BTreeSet::new(alloc))?;
    met.as_slice().to_vec(alloc)
}

// The change in which every marker came, and nothing else.
fn every_marker(alloc: Global, replica: &Replica) -> Result<Change, AllocError>
    ensures added { IfOk result (λ change. change.added ≡ []) }
    ensures lowered { IfOk result (λ change. change.lowered ≡ []) }
    ensures markers { IfOk result (λ change. (m : Fields) → Contains replica.now.markers m
        → IsFresh replica.now.markers change m) }
{
    let mut markers = NewPlaces::new(alloc);
    for place in 0..replica.store().len() {
        markers.push(place)?;
    }
    Ok(Change {
        added: AddedNodes::new(alloc),
        lowered: Vec::new(alloc),
        markers,
    })
}
