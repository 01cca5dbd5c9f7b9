//! What a change turns in each kept set.
ghost use Rattle.std.specs.Prelude.{◌↔◌, ◌⊎◌, ◌<◌, ℕ, List, Contains, IfOk, IsTrue, length};
ghost use Rattle.hg_changeset.specs.declared.node.Node.{Node};
ghost use Rattle.hg_phases.specs.State.{changesets};
ghost use Rattle.hg_replica.specs.State.{ReplicaState, IsValid};
ghost use Rattle.hg_replica.specs.Change.{ChangeValue};
ghost use Rattle.hg_replica.specs.Content.{Content, content_of};
ghost use Rattle.hg_replica.specs.Evolution.{IsObsolete, IsCurrent, IsOrphan};
ghost use Rattle.hg_instab.specs.Changed.{Follows, IsChangedTo, IsSeed, AreSeeded, IsNow};
ghost use Rattle.hg_instab.specs.Instabilities.{AreInstabilities, IsContentDivergent};
ghost use Rattle.hg_instab.specs.Near.{IsClosed};
ghost use Rattle.hg_instab.specs.Turns.{AreTurns, LeadTo, IsTurn, IsThen};
ghost use Rattle.hg_instab.specs.Turns.{AreDivergenceTurns, IsDivergenceTold};

use crate::after_public::newly_after_public;
use crate::amend::{amend_of, turns_by_amend};
use crate::among::{among, has, list_of, obsolete_among, set_of};
use crate::child_hints::ChildHints;
use crate::divergence::divergent_within;
use crate::extinct_walk::turned_extinct;
use crate::instabilities::Instabilities;
use crate::near::region;
use crate::orphan_walk::turned_orphans;
use crate::query::{is_current, is_obsolete};
use crate::seeds::seeds;
use crate::turn::Turn;
use crate::turned::has_now;
use hg_changeset::Node;
use hg_node_set::NodeSet;
use hg_replica::{Change, Replica};
use std::alloc::{AllocError, Global};
use std::collections::BTreeSet;

// What comes to each set and what goes from it.
pub(crate) struct Turns {
    pub(crate) obsolete: Turn,
    pub(crate) orphan: Turn,
    pub(crate) suspended: Turn,
    pub(crate) extinct: Turn,
    pub(crate) phase_divergent: Turn,
    pub(crate) content_divergent: Turn,
    pub(crate) after_public: Turn,
    pub(crate) near_forks: Turn,
}

impl Drop for Turns {
    fn drop(self) {
        let Turns {
            obsolete: _,
            orphan: _,
            suspended: _,
            extinct: _,
            phase_divergent: _,
            content_divergent: _,
            after_public: _,
            near_forks: _,
        } = self;
    }
}

impl Turns {
    // What a change turns, by asking again whatever can have turned.
    pub(crate) fn asked(
        alloc: Global,
        sets: &Instabilities,
        hints: &mut ChildHints,
        replica: &Replica,
        change: &Change,
    ) -> Result<Turns, AllocError>
        ensures turns { IfOk result (AreTurns sets.now) }
        ensures told { IfOk result (λ turns. (s : ReplicaState) → IsChangedTo s change.now replica.now
            → AreInstabilities (content_of s) sets.now → LeadTo (content_of replica.now) sets.now turns) }
    {
        replica.is_valid();
        let touched = seeds(alloc, replica, change)?;
        let seeds = touched.as_slice();
        let met = newly_after_public(alloc, replica, change, sets.after_public())?;
        let now = obsolete_among(alloc, replica, seeds)?;
        let places = replica.graph().places_of(seeds)?;
        let held = turned_extinct(alloc, replica, sets.extinct(), hints, &places)?;
        let extinct = Turn::of(alloc, sets.extinct(), &held)?;
        let suspended = suspended_turn(alloc, replica, sets, seeds, &now, &held)?;
        let obsolete = Turn::to(alloc, sets.obsolete(), seeds, now)?;
        let orphan = orphan_turn(alloc, replica, sets.orphan(), &places, &obsolete)?;
        let phase_divergent = phase_turn(alloc, replica, sets, seeds, &met)?;
        let (content_divergent, near_forks) = divergence_turns(
            alloc, replica, change, sets, seeds,
        )?;
        let new = list_of(alloc, &met)?;
        Ok(Turns {
            obsolete,
            orphan,
            suspended,
            extinct,
            phase_divergent,
            content_divergent,
            after_public: Turn::growing(alloc, sets.after_public(), &new)?,
            near_forks,
        })
    }
}

// The orphans: a walk upwards from the places of the seeds, and from what stands on those whose obsolescence turned.
fn orphan_turn(
    alloc: Global,
    replica: &Replica,
    set: &BTreeSet<Node>,
    seeds: &[usize],
    obsolete: &Turn,
) -> Result<Turn, AllocError>
    requires { (k : ℕ) → Contains seeds.now k → k < length (changesets replica.now.history) }
    ensures turn { IfOk result (IsTurn set.now.keys) }
    ensures told { IfOk result (λ turn. (s : ReplicaState) (change : ChangeValue) (was : List Node) → IsValid s
        → Follows (content_of s) (content_of replica.now) change replica.now.markers
        → AreSeeded replica.now change seeds.now → ((n : Node) → Contains was n ↔ IsObsolete (content_of s) n)
        → ((n : Node) → IsThen was obsolete.now n ↔ IsObsolete (content_of replica.now) n)
        → ((n : Node) → Contains set.now.keys n ↔ IsOrphan (content_of s) n)
        → (n : Node) → IsThen set.now.keys turn n ↔ IsOrphan (content_of replica.now) n) }
{
    let turned = obsolete.nodes(alloc)?;
    let turned = turned_orphans(alloc, replica, set, seeds, &turned)?;
    Turn::of(alloc, set, &turned)
}

// The suspended changesets: those of the seeds, of which these are obsolete now, and those that turned extinct or no
// longer are, are asked again.
fn suspended_turn(
    alloc: Global,
    replica: &Replica,
    sets: &Instabilities,
    seeds: &[Node],
    obsolete: &[Node],
    turned: &BTreeSet<Node>,
) -> Result<Turn, AllocError>
    requires { (n : Node) → Contains obsolete.now n ↔ (Contains seeds.now n × IsObsolete (content_of replica.now) n) }
    ensures turn { IfOk result (IsTurn sets.now.suspended) }
    ensures told { IfOk result (λ turn. (f : Content)
        → ((n : Node) → ¬ (Contains seeds.now n) → IsObsolete (content_of replica.now) n ↔ IsObsolete f n)
        → ((n : Node) → Contains sets.now.suspended n
        ↔ (IsObsolete f n × ¬ (Contains sets.now.extinct n)))
        → (n : Node) → IsThen sets.now.suspended turn n
        ↔ (IsObsolete (content_of replica.now) n × ¬ (IsNow sets.now.extinct turned.now.keys n))) }
{
    let mut asked = list_of(alloc, turned)?;
    asked.extend_from_slice(obsolete)?;
    let now = suspended_still(alloc, replica, sets.extinct(), turned, &asked)?;
    let mut nodes = list_of(alloc, turned)?;
    nodes.extend_from_slice(seeds)?;
    Turn::to(alloc, sets.suspended(), &nodes, now)
}

// Those of the nodes that are obsolete and not extinct now.
fn suspended_still(
    alloc: Global,
    replica: &Replica,
    extinct: &BTreeSet<Node>,
    turned: &BTreeSet<Node>,
    nodes: &[Node],
) -> Result<Vec<Node>, AllocError>
    ensures { IfOk result (λ found. (n : Node) → Contains found.items n ↔ (Contains nodes.now n
        × (IsObsolete (content_of replica.now) n × ¬ (IsNow extinct.now.keys turned.now.keys n)))) }
{
    among(
        alloc,
        nodes,
        |node|
            ensures { IsTrue result ↔ (IsObsolete (content_of replica.entry.now) node
                × ¬ (IsNow extinct.entry.now.keys turned.entry.now.keys node)) }
        { is_suspended_now(replica, extinct, turned, node) },
    )
}

fn is_suspended_now(
    replica: &Replica,
    extinct: &BTreeSet<Node>,
    turned: &BTreeSet<Node>,
    node: Node,
) -> bool
    ensures { IsTrue result ↔ (IsObsolete (content_of replica.now) node
        × ¬ (IsNow extinct.now.keys turned.now.keys node)) }
{
    !has_now(extinct, turned, node) && is_obsolete(replica, node)
}

// The phase-divergent changesets: those of the seeds, and what newly comes after something public, are asked again.
fn phase_turn(
    alloc: Global,
    replica: &Replica,
    sets: &Instabilities,
    seeds: &[Node],
    met: &BTreeSet<Node>,
) -> Result<Turn, AllocError>
    ensures turn { IfOk result (IsTurn sets.now.phase_divergent) }
    ensures told { IfOk result (λ turn. (f : Content)
        → ((n : Node) → ¬ (Contains seeds.now n) → IsCurrent (content_of replica.now) n ↔ IsCurrent f n)
        → ((n : Node) → Contains sets.now.phase_divergent n
        ↔ (IsCurrent f n × Contains sets.now.after_public n))
        → (n : Node) → IsThen sets.now.phase_divergent turn n ↔ (IsCurrent (content_of replica.now) n
        × (Contains sets.now.after_public n ⊎ Contains met.now.keys n))) }
{
    let mut nodes = list_of(alloc, met)?;
    nodes.extend_from_slice(seeds)?;
    let now = current_after(alloc, replica, sets.after_public(), met, &nodes)?;
    Turn::to(alloc, sets.phase_divergent(), &nodes, now)
}

// Those of the nodes that are current and among the ids that come after something public.
fn current_after(
    alloc: Global,
    replica: &Replica,
    after_public: &BTreeSet<Node>,
    met: &BTreeSet<Node>,
    nodes: &[Node],
) -> Result<Vec<Node>, AllocError>
    ensures { IfOk result (λ found. (n : Node) → Contains found.items n ↔ (Contains nodes.now n
        × (IsCurrent (content_of replica.now) n × (Contains after_public.now.keys n ⊎ Contains met.now.keys n)))) }
{
    among(
        alloc,
        nodes,
        |node|
            ensures { IsTrue result ↔ (IsCurrent (content_of replica.entry.now) node
                × (Contains after_public.entry.now.keys node ⊎ Contains met.entry.now.keys node)) }
        { is_current_after(replica, after_public, met, node) },
    )
}

fn is_current_after(
    replica: &Replica,
    after_public: &BTreeSet<Node>,
    met: &BTreeSet<Node>,
    node: Node,
) -> bool
    ensures { IsTrue result ↔ (IsCurrent (content_of replica.now) node
        × (Contains after_public.now.keys node ⊎ Contains met.now.keys node)) }
{
    (has(after_public, node) || has(met, node)) && is_current(replica, node)
}

// The content-divergent changesets, and the ids near forks: an amend turns two ids, and any other change a region of
// them.
fn divergence_turns(
    alloc: Global,
    replica: &Replica,
    change: &Change,
    sets: &Instabilities,
    seeds: &[Node],
) -> Result<(Turn, Turn), AllocError>
    ensures turns { IfOk result (AreDivergenceTurns sets.now) }
    ensures told { IfOk result (λ turns. (s : ReplicaState) → IsValid replica.now
        → IsChangedTo s change.now replica.now → ((n : Node) → IsSeed replica.now.markers change.now n
        → Contains seeds.now n) → AreInstabilities (content_of s) sets.now
        → IsDivergenceTold (content_of replica.now) sets.now turns) }
{
    match amend_of(replica, change, sets.near_forks()) {
        Some(amend) => turns_by_amend(alloc, replica, sets, amend),
        None => turns_by_region(alloc, replica, change, sets, seeds),
    }
}

// The same by the region that is asked again.
fn turns_by_region(
    alloc: Global,
    replica: &Replica,
    change: &Change,
    sets: &Instabilities,
    seeds: &[Node],
) -> Result<(Turn, Turn), AllocError>
    ensures turns { IfOk result (AreDivergenceTurns sets.now) }
    ensures told { IfOk result (λ turns. (s : ReplicaState) → IsValid replica.now
        → IsChangedTo s change.now replica.now → ((n : Node) → IsSeed replica.now.markers change.now n
        → Contains seeds.now n) → AreInstabilities (content_of s) sets.now
        → IsDivergenceTold (content_of replica.now) sets.now turns) }
{
    let region = region(alloc, replica, change, sets.near_forks())?;
    let content_divergent = content_turn(alloc, replica, sets, seeds, &region)?;
    let near_forks = Turn::growing(alloc, sets.near_forks(), region.as_slice())?;
    Ok((content_divergent, near_forks))
}

// The content-divergent changesets: those of the region are asked again, and those of the seeds whether they are
// current still.
fn content_turn(
    alloc: Global,
    replica: &Replica,
    sets: &Instabilities,
    seeds: &[Node],
    region: &NodeSet,
) -> Result<Turn, AllocError>
    ensures turn { IfOk result (IsTurn sets.now.content_divergent) }
    ensures told { IfOk result (λ turn. (f : Content) → IsClosed (content_of replica.now) (Contains region.now.keys)
        → ((n : Node) → ¬ (Contains region.now.keys n) → IsContentDivergent (content_of replica.now) n
        ↔ (IsContentDivergent f n × IsCurrent (content_of replica.now) n))
        → ((n : Node) → ¬ (Contains seeds.now n) → IsCurrent (content_of replica.now) n ↔ IsCurrent f n)
        → ((n : Node) → Contains sets.now.content_divergent n ↔ IsContentDivergent f n)
        → (n : Node) → IsThen sets.now.content_divergent turn n
        ↔ IsContentDivergent (content_of replica.now) n) }
{
    let found = set_of(alloc, divergent_within(alloc, replica, region.as_slice())?)?;
    let mut nodes = region.as_slice().to_vec(alloc)?;
    nodes.extend_from_slice(seeds)?;
    let now = divergent_now(
        alloc,
        replica,
        sets.content_divergent(),
        region,
        &found,
        &nodes,
    )?;
    Turn::to(alloc, sets.content_divergent(), &nodes, now)
}

// Those of the nodes that were found, where they are of the region; and else those of the set that are current.
fn divergent_now(
    alloc: Global,
    replica: &Replica,
    set: &BTreeSet<Node>,
    region: &NodeSet,
    found: &BTreeSet<Node>,
    nodes: &[Node],
) -> Result<Vec<Node>, AllocError>
    ensures { IfOk result (λ now. (n : Node) → Contains now.items n ↔ (Contains nodes.now n
        × ((Contains region.now.keys n × Contains found.now.keys n)
        ⊎ (¬ (Contains region.now.keys n) × (Contains set.now.keys n × IsCurrent (content_of replica.now) n))))) }
{
    among(
        alloc,
        nodes,
        |node|
            ensures { IsTrue result ↔ ((Contains region.entry.now.keys node × Contains found.entry.now.keys node)
                ⊎ (¬ (Contains region.entry.now.keys node)
                × (Contains set.entry.now.keys node × IsCurrent (content_of replica.entry.now) node))) }
        { is_divergent_now(replica, set, region, found, node) },
    )
}

fn is_divergent_now(
    replica: &Replica,
    set: &BTreeSet<Node>,
    region: &NodeSet,
    found: &BTreeSet<Node>,
    node: Node,
) -> bool
    ensures { IsTrue result ↔ ((Contains region.now.keys node × Contains found.now.keys node)
        ⊎ (¬ (Contains region.now.keys node)
        × (Contains set.now.keys node × IsCurrent (content_of replica.now) node))) }
{
    if has_met(region, node) {
        return has(found, node);
    }
    has(set, node) && is_current(replica, node)
}

fn has_met(met: &NodeSet, node: Node) -> bool
    ensures { IsTrue result ↔ Contains met.now.keys node }
{
    met.contains(node)
}
