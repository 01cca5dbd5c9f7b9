//! What pins uphold: what is pinned, and its ancestors down to the public ones.
//!
//! Public changesets are never obsolete, and what isn't public now never was. So this has all that can be obsolete
//! below a pin, now and whatever a replica absorbs later: pins alone change it.
ghost use Rattle.std.specs.Prelude.{◌≡◌, ◌↔◌, ◌⊎◌, ℕ, ◌++◌, List, Some, length, Contains, IfOk, OnOk, OnErr};
ghost use Rattle.hg_changeset.specs.declared.node.Node.{Node};
ghost use Rattle.hg_graph.specs.Places.{IsAt};
ghost use Rattle.hg_phases.specs.State.{changesets};
ghost use Rattle.hg_history.specs.Content.{IsHeld};
ghost use Rattle.hg_replica.specs.State.{IsValid};
ghost use Rattle.hg_replica.specs.Content.{content_of};
ghost use Rattle.hg_replica.specs.Evolution.{IsMutable};
ghost use Rattle.hg_instab.specs.Walk.{Adds};
ghost use Rattle.hg_view.specs.Upheld.{AreDisjoint, AreUpheld, IsUpholding, IsMutableParent};

use crate::released::take_out;
use hg_changeset::Node;
use hg_instab::is_mutable;
use hg_node_set::NodeSet;
use hg_replica::Replica;
use std::alloc::{AllocError, Global};
use std::collections::BTreeSet;

// What would be upheld besides, were one more pinned: it and its ancestors, down to the public ones, at the cost of
// those that aren't upheld yet.
pub(crate) fn upheld_besides(
    alloc: Global,
    replica: &Replica,
    upheld: &BTreeSet<Node>,
    node: Node,
) -> Result<NodeSet, AllocError>
    requires { (n : Node) → Contains upheld.now.keys n → IsHeld (content_of replica.now).0 n }
    ensures disjoint { IfOk result (λ found. AreDisjoint found.keys upheld.now.keys) }
    ensures upheld { IfOk result (λ found. (pins more : List Node)
        → AreUpheld (content_of replica.now) pins upheld.now.keys
        → ((n : Node) → Contains more n ↔ (Contains pins n ⊎ (node ≡ n))) → IsHeld (content_of replica.now).0 node
        → AreUpheld (content_of replica.now) more (upheld.now.keys ++ found.keys)) }
{
    let mut found = NodeSet::with_keys(alloc, replica.keys());
    add_mutable(replica, upheld, node, &mut found)?;
    hang_below(replica, upheld, &mut found)?;
    Ok(found)
}

// Puts all of them in. Where memory is refused none is there.
pub(crate) fn put_in(upheld: &mut BTreeSet<Node>, found: &NodeSet) -> Result<(), AllocError>
    requires { AreDisjoint found.now.keys upheld.old.keys }
    ensures ok { OnOk result ((n : Node) → Contains upheld.new.keys n
        ↔ Contains (upheld.old.keys ++ found.now.keys) n) }
    ensures err { OnErr result ((n : Node) → Contains upheld.new.keys n ↔ Contains upheld.old.keys n) }
{
    for node in found.as_slice() {
        match upheld.insert(*node) {
            Ok(_) => {}
            Err(error) => {
                take_out(upheld, found);
                return Err(error.into());
            }
        }
    }
    Ok(())
}

// Adds the parents that aren't public of each that was found, and of each that is added.
fn hang_below(
    replica: &Replica,
    upheld: &BTreeSet<Node>,
    found: &mut NodeSet,
) -> Result<(), AllocError>
    requires { (n : Node) → Contains (upheld.now.keys ++ found.old.keys) n → IsHeld (content_of replica.now).0 n }
    ensures disjoint { OnOk result (AreDisjoint found.old.keys upheld.now.keys
        → AreDisjoint found.new.keys upheld.now.keys) }
    ensures ok { OnOk result ((pins : List Node)
        → IsUpholding (content_of replica.now) pins upheld.now.keys (upheld.now.keys ++ found.old.keys)
        (length upheld.now.keys)
        → IsUpholding (content_of replica.now) pins upheld.now.keys (upheld.now.keys ++ found.new.keys)
        (length (upheld.now.keys ++ found.new.keys))) }
{
    let mut next = 0;
    while next < found.len() {
        let node = found.as_slice()[next];
        add_parents(replica, upheld, node, found)?;
        next += 1;
    }
    Ok(())
}

// Adds the parents of a changeset that aren't public.
fn add_parents(
    replica: &Replica,
    upheld: &BTreeSet<Node>,
    node: Node,
    found: &mut NodeSet,
) -> Result<(), AllocError>
    ensures valid { IsValid replica.now }
    ensures disjoint { OnOk result (AreDisjoint found.old.keys upheld.now.keys
        → AreDisjoint found.new.keys upheld.now.keys) }
    ensures ok { OnOk result (Adds (IsMutableParent (content_of replica.now) node)
        (upheld.now.keys ++ found.old.keys) (upheld.now.keys ++ found.new.keys)) }
{
    let graph = replica.graph();
    match graph.place(node) {
        Some(place) => {
            let parents = graph.parent_places(place);
            add_at(replica, upheld, parents.first, found)?;
            add_at(replica, upheld, parents.second, found)
        }
        None => Ok(()),
    }
}

// Adds what stands at the place, if there is one, where that isn't public.
fn add_at(
    replica: &Replica,
    upheld: &BTreeSet<Node>,
    place: Option<usize>,
    found: &mut NodeSet,
) -> Result<(), AllocError>
    ensures disjoint { OnOk result (AreDisjoint found.old.keys upheld.now.keys
        → AreDisjoint found.new.keys upheld.now.keys) }
    ensures ok { OnOk result (Adds (λ n. (k : ℕ) × (place ≡ Some k) × IsAt (changesets replica.now.history) n k
        × IsMutable (content_of replica.now) n) (upheld.now.keys ++ found.old.keys)
        (upheld.now.keys ++ found.new.keys)) }
{
    let Some(place) = place else {
        return Ok(());
    };
    match replica.graph().node_at(place) {
        Some(node) => add_mutable(replica, upheld, node, found),
        None => Ok(()),
    }
}

// Adds a changeset, unless it is public, isn't held or is upheld already.
fn add_mutable(
    replica: &Replica,
    upheld: &BTreeSet<Node>,
    node: Node,
    found: &mut NodeSet,
) -> Result<(), AllocError>
    ensures disjoint { OnOk result (AreDisjoint found.old.keys upheld.now.keys
        → AreDisjoint found.new.keys upheld.now.keys) }
    ensures ok { OnOk result (Adds (λ n. (node ≡ n) × IsMutable (content_of replica.now) n)
        (upheld.now.keys ++ found.old.keys) (upheld.now.keys ++ found.new.keys)) }
{
    if upheld.contains(&node) || !is_mutable(replica, node) {
        return Ok(());
    }
    found.insert(node)?;
    Ok(())
}
