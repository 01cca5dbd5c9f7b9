//! What became unstable by a line at the node that it changed, and what ceased to be.
ghost use Rattle.std.specs.Prelude.{IfOk, IfSome, OnErr};
ghost use Rattle.hg_replica.specs.Content.{Content, content_of};
ghost use Rattle.hg_line.specs.Endings.{AreWanting};
ghost use Rattle.hg_line.specs.Unstable.{AreUnstable, IsUnstableChange};

use crate::command::Command;
use crate::fleet::Fleet;
use crate::reading::read_command;
use crate::tracing::{add_name, push_names};
use hg_changeset::Node;
use hg_trial::Moved;
use hg_view::Kept;
use std::alloc::{AllocError, Global};
use std::collections::BTreeSet;

/// The unstable changesets of a node, by Mercurial's names.
pub struct Unstable {
    orphan: BTreeSet<Node>,
    phase_divergent: BTreeSet<Node>,
    content_divergent: BTreeSet<Node>,
}

// Whoever owns them calls this once, and is proved without a look at each set.
impl Drop for Unstable {
    fn drop(self) {
        let Unstable {
            orphan: _,
            phase_divergent: _,
            content_divergent: _,
        } = self;
    }
}

/// What came to each instability, and what went from it.
#[derive(Drop)]
pub struct UnstableChange {
    pub orphan: Moved,
    pub phase_divergent: Moved,
    pub content_divergent: Moved,
}

impl Unstable {
    /// What is unstable of a replica. It costs these changesets, and nothing of what else is held.
    pub fn of(kept: &Kept) -> Result<Unstable, AllocError>
        ensures { IfOk result (AreUnstable (content_of kept.now.replica)) }
    {
        let sets = kept.instabilities();
        Ok(Unstable {
            orphan: sets.orphan().clone()?,
            phase_divergent: sets.phase_divergent().clone()?,
            content_divergent: sets.content_divergent().clone()?,
        })
    }

    /// What changed from these to what is unstable of the replica now. It costs both.
    pub fn change_to(&self, kept: &Kept) -> Result<UnstableChange, AllocError>
        ensures { IfOk result (λ change. (before : Content) → AreUnstable before self.now
            → IsUnstableChange before (content_of kept.now.replica) change) }
    {
        let sets = kept.instabilities();
        Ok(UnstableChange {
            orphan: Moved::between(&self.orphan, sets.orphan())?,
            phase_divergent: Moved::between(&self.phase_divergent, sets.phase_divergent())?,
            content_divergent: Moved::between(&self.content_divergent, sets.content_divergent())?,
        })
    }
}

/// What is unstable at the node that the line of these words is to change, where lines are traced and there is one.
pub fn unstable_before(
    fleet: &Fleet,
    words: &[&[u8]],
    traces: bool,
) -> Result<Option<Unstable>, AllocError>
    ensures { OnErr result (AreWanting fleet.now words.now) }
{
    if !traces {
        return Ok(None);
    }
    match changed_by(fleet, words) {
        Some(kept) => Ok(Some(Unstable::of(kept)?)),
        None => Ok(None),
    }
}

// The replica that the line of these words is to change. Marks and offers change none.
fn changed_by<'a>(fleet: &'a Fleet, words: &[&[u8]]) -> Option<&'a Kept>
    ensures { IfSome result (λ _. AreWanting fleet.now words.now) }
{
    match read_command(words) {
        Ok(Some(Command::Operation(at, _))) => fleet.kept_of(at),
        Ok(Some(Command::Take(at, _))) => fleet.kept_of(at),
        Ok(Some(Command::Pull(_, to, _))) => fleet.kept_of(to),
        _ => None,
    }
}

/// Appends what became unstable at the node of a place, and what ceased to be.
pub fn push_unstable_change(
    alloc: Global,
    fleet: &Fleet,
    at: usize,
    before: Option<&Unstable>,
    text: &mut Vec<u8>,
) -> Result<(), AllocError> {
    match (before, fleet.kept_at(at)) {
        (Some(before), Some(kept)) => {
            let change = before.change_to(kept)?;
            push_each(&Scene { alloc, fleet, at }, &change, text)
        }
        _ => Ok(()),
    }
}

// The node of a place, by which changesets are called.
#[derive(Clone, Copy)]
struct Scene<'a> {
    alloc: Global,
    fleet: &'a Fleet,
    at: usize,
}

// What came stands first, and each in the order of a report's words.
fn push_each(
    scene: &Scene<'_>,
    change: &UnstableChange,
    text: &mut Vec<u8>,
) -> Result<(), AllocError> {
    let UnstableChange {
        orphan,
        phase_divergent: phase,
        content_divergent: content,
    } = change;
    push_some(scene, b", now orphan:", &orphan.came, text)?;
    push_some(scene, b", now phase-divergent:", &phase.came, text)?;
    push_some(scene, b", now content-divergent:", &content.came, text)?;
    push_some(scene, b", no longer orphan:", &orphan.went, text)?;
    push_some(scene, b", no longer phase-divergent:", &phase.went, text)?;
    push_some(
        scene,
        b", no longer content-divergent:",
        &content.went,
        text,
    )
}

// Appends these words and what the changesets are called, if there are any.
fn push_some(
    scene: &Scene<'_>,
    words: &[u8],
    nodes: &BTreeSet<Node>,
    text: &mut Vec<u8>,
) -> Result<(), AllocError> {
    if nodes.is_empty() {
        return Ok(());
    }
    text.extend_from_slice(words)?;
    let names = names_of(scene, nodes)?;
    push_names(&names, text)
}

// What the changesets are called, in byte order.
fn names_of(scene: &Scene<'_>, nodes: &BTreeSet<Node>) -> Result<Vec<Vec<u8>>, AllocError> {
    let mut names = Vec::new(scene.alloc);
    for node in nodes {
        add_name(scene.alloc, scene.fleet, scene.at, *node, &mut names)?;
    }
    names.sort_unstable();
    Ok(names)
}
