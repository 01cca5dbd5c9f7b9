//! The other side's answers.
ghost use Rattle.std.specs.Prelude.{IfOk};
ghost use Rattle.hg_replica.specs.Content.{content_of};
ghost use Rattle.hg_discovery.specs.Rounds.{AreKnown};

use hg_changeset::Node;
use hg_replica::Replica;
use hg_view::{Kept, Pins, served_marks};
use std::alloc::{AllocError, Global};

/// Which of the nodes the replica serves under the pins, in their order. What is hidden or secret is answered as what
/// isn't held.
///
/// It costs one sweep for what is served, and one look-up for each node.
pub fn known(
    alloc: Global,
    replica: &Replica,
    pins: &Pins,
    nodes: &[Node],
) -> Result<Vec<bool>, AllocError>
    ensures { IfOk result (λ answers. AreKnown (content_of replica.now) pins.now nodes.now answers.items) }
{
    let graph = replica.graph();
    let served = served_marks(alloc, replica, pins)?;
    let mut answers = Vec::with_capacity(alloc, nodes.len())?;
    for node in nodes {
        answers.push(graph.is_marked(&served, *node))?;
    }
    Ok(answers)
}

/// Which of the nodes a kept replica serves under its pins, as [`known`] tells it.
///
/// It costs three look-ups for each node.
pub fn known_kept(alloc: Global, kept: &Kept, nodes: &[Node]) -> Result<Vec<bool>, AllocError>
    ensures { IfOk result
        (λ answers. AreKnown (content_of kept.now.replica) kept.now.pins nodes.now answers.items) }
{
    let mut answers = Vec::with_capacity(alloc, nodes.len())?;
    for node in nodes {
        answers.push(kept.is_served(*node))?;
    }
    Ok(answers)
}
