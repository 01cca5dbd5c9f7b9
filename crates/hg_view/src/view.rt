//! The views of a replica under pins, by one sweep over its changesets.
ghost use Rattle.std.specs.Prelude.{◌≡◌, ◌↔◌, Contains, IfOk, length};
ghost use Rattle.hg_changeset.specs.declared.node.Node.{Node};
ghost use Rattle.hg_graph.specs.Marks.{IsMarkedNode};
ghost use Rattle.hg_phases.specs.State.{changesets};
ghost use Rattle.hg_replica.specs.Content.{content_of};
ghost use Rattle.hg_replica.specs.Evolution.{HasPhase};
ghost use Rattle.hg_phases.specs.declared.phase.Phase.TheVariants.{Secret as secret_phase};
ghost use Rattle.hg_view.specs.Pins.{IsServedUnder, IsDescendantShown, IsVisibleUnder};

use crate::pins::{Pins, counts_as_obsolete_at};
use hg_changeset::Node;
use hg_instab::has_phase_at;
use hg_phases::Phase;
use hg_replica::Replica;
use std::alloc::{AllocError, Global};
use std::collections::BTreeSet;

/// The visible changesets under the pins: those that aren't obsolete or are pinned, and their ancestors. Mercurial's
/// view `visible`. A pin of what isn't held shows nothing.
pub fn visible(alloc: Global, replica: &Replica, pins: &Pins) -> Result<BTreeSet<Node>, AllocError>
    ensures { IfOk result (λ set. (n : Node) → Contains set.keys n
        ↔ IsVisibleUnder (content_of replica.now) pins.now n) }
{
    let marks = visible_marks(alloc, replica, pins)?;
    set_at(alloc, replica, &marks)
}

/// The visible changesets that aren't secret: what others are given by a pull. Mercurial's view `served`.
pub fn served(alloc: Global, replica: &Replica, pins: &Pins) -> Result<BTreeSet<Node>, AllocError>
    ensures { IfOk result (λ set. (n : Node) → Contains set.keys n
        ↔ IsServedUnder (content_of replica.now) pins.now n) }
{
    let marks = served_marks(alloc, replica, pins)?;
    set_at(alloc, replica, &marks)
}

// The changesets at the marked places.
fn set_at(alloc: Global, replica: &Replica, marks: &[bool]) -> Result<BTreeSet<Node>, AllocError>
    requires { length marks.now ≡ length (changesets replica.now.history) }
    ensures { IfOk result (λ set. (n : Node) → Contains set.keys n
        ↔ IsMarkedNode (changesets replica.now.history) marks.now n) }
{
    let nodes = replica.graph().marked(marks)?;
    nodes.into_iter().collect(alloc)
}

/// A mark for each place of the graph: whether the changeset there is [`served`].
pub fn served_marks(alloc: Global, replica: &Replica, pins: &Pins) -> Result<Vec<bool>, AllocError>
    ensures len { IfOk result (λ marks. length marks.items ≡ length (changesets replica.now.history)) }
    ensures exact { IfOk result (λ marks. (n : Node) → IsMarkedNode (changesets replica.now.history) marks.items n
        ↔ IsServedUnder (content_of replica.now) pins.now n) }
{
    let visible = visible_marks(alloc, replica, pins)?;
    not_secret(alloc, replica, &visible)
}

// A mark for each place: whether the changeset there is visible.
fn visible_marks(alloc: Global, replica: &Replica, pins: &Pins) -> Result<Vec<bool>, AllocError>
    ensures len { IfOk result (λ marks. length marks.items ≡ length (changesets replica.now.history)) }
    ensures exact { IfOk result (λ marks. (n : Node) → IsMarkedNode (changesets replica.now.history) marks.items n
        ↔ IsVisibleUnder (content_of replica.now) pins.now n) }
{
    let mut marks = shown_marks(alloc, replica, pins)?;
    replica.graph().add_ancestors(&mut marks);
    Ok(marks)
}

// A mark for each place: whether the changeset there isn't obsolete, or is pinned.
fn shown_marks(alloc: Global, replica: &Replica, pins: &Pins) -> Result<Vec<bool>, AllocError>
    ensures len { IfOk result (λ marks. length marks.items ≡ length (changesets replica.now.history)) }
    ensures exact { IfOk result (λ marks. (n : Node) → IsMarkedNode (changesets replica.now.history) marks.items n
        ↔ IsDescendantShown (content_of replica.now) pins.now n) }
{
    let graph = replica.graph();
    let mut marks = Vec::with_capacity(alloc, graph.len())?;
    for place in 0..graph.len() {
        marks.push(!counts_as_obsolete_at(replica, pins, place))?;
    }
    Ok(marks)
}

// The marks of those of the marked changesets that aren't secret.
fn not_secret(alloc: Global, replica: &Replica, marks: &[bool]) -> Result<Vec<bool>, AllocError>
    requires { length marks.now ≡ length (changesets replica.now.history) }
    ensures len { IfOk result (λ found. length found.items ≡ length (changesets replica.now.history)) }
    ensures exact { IfOk result (λ found. (n : Node) → IsMarkedNode (changesets replica.now.history) found.items n
        ↔ (IsMarkedNode (changesets replica.now.history) marks.now n
        × ¬ (HasPhase (content_of replica.now) n secret_phase))) }
{
    let graph = replica.graph();
    let mut found = Vec::with_capacity(alloc, graph.len())?;
    for place in 0..marks.len() {
        found.push(marks[place] && !has_phase_at(replica, place, Phase::Secret))?;
    }
    Ok(found)
}
