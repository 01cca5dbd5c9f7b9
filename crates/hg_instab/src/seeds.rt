//! The ids of which a change may have turned whether they are held, in which phase, or whether a marker rewrote them.
ghost use Rattle.std.specs.Prelude.{◌≡◌, ◌↔◌, ◌⊎◌, Contains, IfOk, OnOk};
ghost use Rattle.hg_changeset.specs.declared.node.Node.{Node};
ghost use Rattle.hg_instab.specs.Changed.{IsSeed};
ghost use Rattle.hg_instab.specs.Walk.{IsOfOneAt};

use hg_changeset::Node;
use hg_obsstore::Store;
use hg_replica::{Change, Replica};
use std::alloc::{AllocError, Global};

// What was added, what went down, and what new markers rewrote.
pub(crate) fn seeds(
    alloc: Global,
    replica: &Replica,
    change: &Change,
) -> Result<Vec<Node>, AllocError>
    ensures { IfOk result (λ found. (n : Node) → Contains found.items n ↔ IsSeed replica.now.markers change.now n) }
{
    let mut found = Vec::new(alloc);
    found.extend_from_slice(&change.added)?;
    found.extend_from_slice(&change.lowered)?;
    add_rewritten(replica.store(), &change.markers, &mut found)?;
    Ok(found)
}

// Adds the predecessors of the markers at the places.
fn add_rewritten(store: &Store, places: &[usize], found: &mut Vec<Node>) -> Result<(), AllocError>
    ensures { OnOk result ((n : Node) → Contains found.new.items n
        ↔ (Contains found.old.items n ⊎ IsOfOneAt (λ m n. m.predecessor ≡ n) store.now places.now n)) }
{
    for place in places {
        match store.get(*place) {
            Some(marker) => found.push(marker.predecessor())?,
            None => {}
        }
    }
    Ok(())
}
