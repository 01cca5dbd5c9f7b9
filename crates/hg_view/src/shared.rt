//! What may be shared with others: all that isn't secret, whether it is in view or not.
ghost use Rattle.std.specs.Prelude.{◌≡◌, ◌↔◌, Some, IfOk, MatchOption, length};
ghost use Rattle.std.specs.BTreeMap.{get};
ghost use Rattle.hg_changeset.specs.declared.node.Node.{Node};
ghost use Rattle.hg_changeset.specs.Node.{node_cmp};
ghost use Rattle.hg_graph.specs.Marks.{IsMarkedNode};
ghost use Rattle.hg_graph.specs.Places.{IsAt};
ghost use Rattle.hg_phases.specs.declared.phase.Phase.{Phase};
ghost use Rattle.hg_phases.specs.State.{changesets};
ghost use Rattle.hg_replica.specs.Content.{content_of};
ghost use Rattle.hg_view.specs.Share.{IsShared, IsSharedWith};

use hg_changeset::Node;
use hg_instab::has_phase_at;
use hg_phases::Phase;
use hg_replica::Replica;
use std::alloc::{AllocError, Global};
use std::collections::BTreeMap;

/// The changesets that aren't secret, with their phases: all that a replica may share with others, hidden or not. They
/// go out with every marker.
pub fn share(alloc: Global, replica: &Replica) -> Result<BTreeMap<Node, Phase>, AllocError>
    ensures { IfOk result (λ found. (n : Node) (k : Phase) → (get node_cmp found n ≡ Some k)
        ↔ IsSharedWith (content_of replica.now) n k) }
{
    let mut found = BTreeMap::new(alloc);
    for place in 0..replica.graph().len() {
        if let Some((node, phase)) = shared_at(replica, place) {
            found.insert(node, phase)?;
        }
    }
    Ok(found)
}

// The changeset at a place with its phase, unless that is secret.
fn shared_at(replica: &Replica, place: usize) -> Option<(Node, Phase)>
    ensures { MatchOption result
        ((n : Node) → IsAt (changesets replica.now.history) n place → ¬ (IsShared (content_of replica.now) n))
        (λ x. IsAt (changesets replica.now.history) x.0 place × IsSharedWith (content_of replica.now) x.0 x.1) }
{
    let node = replica.graph().node_at(place)?;
    match replica.phase_at(place)? {
        Phase::Secret => None,
        phase => Some((node, phase)),
    }
}

/// A mark for each place of the graph: whether the changeset there isn't secret.
pub fn shared_marks(alloc: Global, replica: &Replica) -> Result<Vec<bool>, AllocError>
    ensures len { IfOk result (λ marks. length marks.items ≡ length (changesets replica.now.history)) }
    ensures exact { IfOk result (λ marks. (n : Node) → IsMarkedNode (changesets replica.now.history) marks.items n
        ↔ IsShared (content_of replica.now) n) }
{
    let graph = replica.graph();
    let mut found = Vec::with_capacity(alloc, graph.len())?;
    for place in 0..graph.len() {
        found.push(!has_phase_at(replica, place, Phase::Secret))?;
    }
    Ok(found)
}
