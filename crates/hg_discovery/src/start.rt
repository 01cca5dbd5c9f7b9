//! Where a discovery begins.
ghost use Rattle.std.specs.Prelude.{◌≡◌, ◌≢◌, ℕ, ◌<◌, ◌↔◌, ◌⊎◌, Some, length, IfOk, IsTrue, Contains};
ghost use Rattle.hg_discovery.specs.declared.finding.Finding.TheVariants.{Undecided, Common, Missing};
ghost use Rattle.hg_phases.specs.State.{changesets, IsPhaseOf};
ghost use Rattle.hg_phases.specs.declared.phase.Phase.TheVariants.{Secret};
ghost use Rattle.hg_discovery.specs.declared.finding.PlacedNode.{PlacedNode};
ghost use Rattle.hg_discovery.specs.Under.{IsShapeOf};
ghost use Rattle.hg_discovery.specs.Search.{Is};
ghost use Rattle.hg_discovery.specs.Start.{IsShared, IsBaseline};

use crate::finding::{Finding, PlacedNode};
use crate::order::ascending;
use hg_changeset::Node;
use hg_graph::{Graph, ParentPlaces};
use hg_instab::has_phase_at;
use hg_phases::Phase;
use hg_replica::Replica;
use std::alloc::{AllocError, Global};

// What a discovery begins upon: where the parents of each changeset stand, the changesets that aren't secret,
// ascending, and these as undecided.
#[derive(Drop)]
pub(crate) struct Baseline {
    pub(crate) parents: Vec<ParentPlaces>,
    pub(crate) placed_nodes: Vec<PlacedNode>,
    pub(crate) decided: Vec<Finding>,
}

// What a discovery of the replica begins upon.
pub(crate) fn baseline_of(alloc: Global, replica: &Replica) -> Result<Baseline, AllocError>
    ensures { IfOk result (λ baseline. IsBaseline replica.now.history baseline.parents.items baseline.placed_nodes.items
        baseline.decided.items) }
{
    let parents = parents_of(alloc, replica.graph())?;
    let placed_nodes = ascending(shared(alloc, replica)?);
    let decided = undecided(alloc, parents.len(), &placed_nodes)?;
    Ok(Baseline {
        parents,
        placed_nodes,
        decided,
    })
}

// Where the parents of each changeset stand.
fn parents_of(alloc: Global, graph: &Graph) -> Result<Vec<ParentPlaces>, AllocError>
    ensures { IfOk result (λ ps. IsShapeOf graph.now ps.items) }
{
    let mut parents = Vec::with_capacity(alloc, graph.len())?;
    for place in 0..graph.len() {
        parents.push(graph.parent_places(place))?;
    }
    Ok(parents)
}

// The changesets that aren't secret, in the graph's order. It takes no look-up.
fn shared(alloc: Global, replica: &Replica) -> Result<Vec<PlacedNode>, AllocError>
    ensures { IfOk result (λ xs. (x : PlacedNode) → Contains xs.items x ↔ IsShared replica.now.history x) }
{
    let graph = replica.graph();
    let mut placed_nodes = Vec::with_capacity(alloc, graph.len())?;
    for place in 0..graph.len() {
        if let Some(node) = graph.node_at(place) {
            if !has_phase_at(replica, place, Phase::Secret) {
                placed_nodes.push(PlacedNode { node, place })?;
            }
        }
    }
    Ok(placed_nodes)
}

// The placed nodes are undecided, and all else is missing.
fn undecided(
    alloc: Global,
    len: usize,
    placed_nodes: &[PlacedNode],
) -> Result<Vec<Finding>, AllocError>
    requires { (x : PlacedNode) → Contains placed_nodes.now x → x.place < len }
    ensures len { IfOk result (λ ds. length ds.items ≡ len) }
    ensures undecided { IfOk result (λ ds. (k : ℕ) → Is ds.items Undecided k
        ↔ ((x : PlacedNode) × Contains placed_nodes.now x × (x.place ≡ k))) }
    ensures nothing_common { IfOk result (λ ds. (k : ℕ) → Is ds.items Common k → ⊥) }
{
    let mut decided = vec![in alloc; Finding::Missing; len]?;
    for placed_node in placed_nodes {
        decided[placed_node.place] = Finding::Undecided;
    }
    Ok(decided)
}
