//! Absorbing changesets and bounds, which together are a part.
//!
//! Everything is looked up before any phase goes down: the changesets are added one by one, copied or moved, as secret,
//! then each bound's node is found, then the public bounds are lowered to, and then the draft ones, so that each place
//! goes down once. Secret bounds say nothing more. The roots are updated last, which is the last growth that can be
//! refused. A refusal takes back what was done: the log of what was lowered restores the phases, and what was added
//! stands last, so it is cut off; the roots haven't moved yet. Nothing costs more than the part and what it lowers.
ghost use Rattle.std.specs.Prelude.{Ok, OnOk, OnErr, IfOk, IfErr, IsErrOf, MatchResult, length, take, drop, [], ◌∷◌};
ghost use Rattle.std.specs.Prelude.{◌++◌, ◌+◌, ◌-◌, ◌≤◌, ◌<◌, ◌⊎◌, List, ◌≡◌};
ghost use Rattle.std.specs.Cow.{cow_slice_items};
ghost use Rattle.hg_changeset.specs.declared.node.Node.{Node};
ghost use Rattle.hg_changeset.specs.Contents.{Contents};
ghost use Rattle.hg_graph.specs.Graph.{Holds, nodes};
ghost use Rattle.hg_graph.specs.Places.{IsAt};
ghost use Rattle.hg_phases.specs.declared.phase.Phase.{Phase};
ghost use Rattle.hg_phases.specs.State.{state_of, IsValid};
ghost use Rattle.hg_phases.specs.Kept.{phases_at, before_last, phases_before, IsLogOf};
ghost use Rattle.hg_phases.specs.Log.{IsLog};
ghost use Rattle.hg_phases.specs.Lowered.{IsAbove};
ghost use Rattle.hg_phases.specs.RootPlaces.{ArePhasesAndRoots};
ghost use Rattle.hg_history.specs.Answer.{AbsorbAnswer, AreHeldUpTo, IsAbsorbed, IsGrowthBeforeFault, HasHigher};
ghost use Rattle.hg_history.specs.Answer.{IsRefusal, part_with};
ghost use Rattle.hg_history.specs.Change.{IsNothing};
ghost use Rattle.hg_history.specs.Undo.{LeadsBack};
ghost use Rattle.hg_join.specs.Absorbed.{without_undo};
ghost use Rattle.hg_history.specs.Steps.{AddAllAnswer, IsAnswered, CanTakeBack, OneAdded, IsBoundFault};
ghost use Rattle.hg_history.specs.Steps.{IsBoundAt, OneLowered, IsLoweredTo};

use crate::change::{AddedNodes, Change};
use crate::fault::Fault;
use crate::undo::Undo;
use hg_changeset::{Changeset, Node};
use hg_graph::{Added, Graph, GraphError};
use hg_join::Absorbed;
use hg_phases::{LoweringLog, Phase, PhaseMap, PhaseRoots};
use smallvec::SmallVec;
use std::alloc::{AllocError, Global};
use std::borrow::CowSlice;

/// Takes the part in and gives out what takes it back, or leaves everything as it was.
#[inline(always)]
pub(crate) fn absorb_or_undo(
    graph: &mut Graph,
    kept: &mut PhaseRoots,
    alloc: Global,
    changesets: CowSlice<'_, Changeset>,
    bounds: &[(Node, Phase)],
) -> Result<Absorbed<Change, Undo>, Fault>
    requires kept { ArePhasesAndRoots graph.old kept.old }
    requires valid { IsValid (state_of graph.old kept.old.phases) }
    ensures inside { ArePhasesAndRoots graph.new kept.new × IsValid (state_of graph.new kept.new.phases) }
    ensures answer { AbsorbAnswer (state_of graph.old kept.old.phases) (part_with changesets.entry bounds.now)
        (without_undo result) (state_of graph.new kept.new.phases) }
    ensures back { IfOk result (λ absorbed. LeadsBack (state_of graph.new kept.new.phases) absorbed.undo
        (state_of graph.old kept.old.phases)) }
    ensures growth { IfOk result (λ absorbed. IsNothing absorbed.change
        ⊎ IsGrowthBeforeFault (state_of graph.old kept.old.phases) (part_with changesets.entry bounds.now)) }
    ensures memory { IsErrOf result Fault.NoMemory
        → IsGrowthBeforeFault (state_of graph.old kept.old.phases) (part_with changesets.entry bounds.now) }
{
    let before = graph.len();
    let mut log = LoweringLog::new(alloc);
    match absorb_and_update(graph, kept, &mut log, alloc, changesets, bounds) {
        Ok(change) => Ok(Absorbed {
            change,
            undo: Undo { before, log },
        }),
        Err(fault) => {
            take_back(graph, &mut kept.phases, &mut log, before);
            Err(fault)
        }
    }
}

// Takes the part in, logs what goes down, and updates the roots. After a fault what was done can be taken back, and the
// roots are those of before.
#[inline(always)]
fn absorb_and_update(
    graph: &mut Graph,
    kept: &mut PhaseRoots,
    log: &mut LoweringLog,
    alloc: Global,
    changesets: CowSlice<'_, Changeset>,
    bounds: &[(Node, Phase)],
) -> Result<Change, Fault>
    requires kept { ArePhasesAndRoots graph.old kept.old }
    requires valid { IsValid (state_of graph.old kept.old.phases) }
    requires fresh { log.old ≡ [] }
    ensures back { CanTakeBack graph.old (phases_at graph.old kept.old.phases) graph.new kept.new.phases log.new }
    ensures kept { OnOk result (ArePhasesAndRoots graph.new kept.new) }
    ensures roots { OnErr result (kept.new.roots ≡ kept.old.roots) }
    ensures absorbed { IfOk result
        (λ change. IsAbsorbed (state_of graph.old kept.old.phases) (part_with changesets.entry bounds.now) change
        (state_of graph.new kept.new.phases)) }
    ensures refusal { IfErr result (IsRefusal graph.old (part_with changesets.entry bounds.now)) }
    ensures growth { IfOk result (λ change. IsNothing change
        ⊎ IsGrowthBeforeFault (state_of graph.old kept.old.phases) (part_with changesets.entry bounds.now)) }
    ensures memory { IsErrOf result Fault.NoMemory
        → IsGrowthBeforeFault (state_of graph.old kept.old.phases) (part_with changesets.entry bounds.now) }
{
    let before = graph.len();
    match absorb_logged(graph, &mut kept.phases, log, alloc, changesets, bounds) {
        Ok(change) => {
            kept.update(graph, log, before)?;
            Ok(change)
        }
        Err(fault) => Err(fault),
    }
}

/// Takes back what was logged, and forgets what stands from the place `before` on.
pub(crate) fn take_back(
    graph: &mut Graph,
    phases: &mut PhaseMap,
    log: &mut LoweringLog,
    before: usize,
)
    requires len { length (phases_at graph.old phases.old) ≡ length graph.old }
    requires valid { IsValid (state_of graph.old (phases_before graph.old phases.old log.old)) }
    requires logged { IsLogOf graph.old phases.old log.old }
    ensures graph { graph.new ≡ take before graph.old }
    ensures phases { phases_at graph.new phases.new ≡ take before (phases_before graph.old phases.old log.old) }
{
    phases.take_back(graph, log, before);
    graph.truncate(before);
}

// Takes the part in and logs what goes down. After a fault what was done can be taken back.
#[inline(always)]
fn absorb_logged(
    graph: &mut Graph,
    phases: &mut PhaseMap,
    log: &mut LoweringLog,
    alloc: Global,
    changesets: CowSlice<'_, Changeset>,
    bounds: &[(Node, Phase)],
) -> Result<Change, Fault>
    requires len { length (phases_at graph.old phases.old) ≡ length graph.old }
    requires valid { IsValid (state_of graph.old phases.old) }
    requires fresh { log.old ≡ [] }
    ensures back { CanTakeBack graph.old (phases_at graph.old phases.old) graph.new phases.new log.new }
    ensures absorbed { IfOk result
        (λ change. IsAbsorbed (state_of graph.old phases.old) (part_with changesets.entry bounds.now) change
        (state_of graph.new phases.new)) }
    ensures refusal { IfErr result (IsRefusal graph.old (part_with changesets.entry bounds.now)) }
    ensures growth { OnOk result (¬ ((log.new ≡ []) × (length graph.old ≡ length graph.new))
        → IsGrowthBeforeFault (state_of graph.old phases.old) (part_with changesets.entry bounds.now)) }
    ensures memory { IsErrOf result Fault.NoMemory
        → IsGrowthBeforeFault (state_of graph.old phases.old) (part_with changesets.entry bounds.now) }
{
    let before = graph.len();
    match add_arriving(graph, phases, changesets) {
        Ok(()) => {}
        Err(fault) => return Err(fault),
    }
    match check_bounds(graph, bounds) {
        Ok(()) => {}
        Err(fault) => return Err(fault),
    }
    lower_to(graph, phases, log, bounds, Phase::Public)?;
    lower_to(graph, phases, log, bounds, Phase::Draft)?;
    let added = nodes_from(graph, before, alloc)?;
    let lowered = log.nodes_before(graph, before)?;
    Ok(Change { added, lowered })
}

// Adds the changesets that aren't held. After a fault those before the one at fault were added.
#[inline(always)]
fn add_arriving(
    graph: &mut Graph,
    phases: &mut PhaseMap,
    changesets: CowSlice<'_, Changeset>,
) -> Result<(), Fault>
    requires len { length (phases_at graph.old phases.old) ≡ length graph.old }
    requires valid { IsValid (state_of graph.old phases.old) }
    ensures { AddAllAnswer graph.old (phases_at graph.old phases.old) (cow_slice_items changesets.entry) result
        graph.new (phases_at graph.new phases.new) }
{
    match changesets {
        CowSlice::Borrowed(changesets) => add_changesets(graph, phases, changesets),
        CowSlice::Owned(changesets) => add_owned_changesets(graph, phases, changesets),
    }
}

// Adds copies of the changesets that aren't held. After a fault those before the one at fault were added.
fn add_changesets(
    graph: &mut Graph,
    phases: &mut PhaseMap,
    changesets: &[Changeset],
) -> Result<(), Fault>
    requires len { length (phases_at graph.old phases.old) ≡ length graph.old }
    requires valid { IsValid (state_of graph.old phases.old) }
    ensures { AddAllAnswer graph.old (phases_at graph.old phases.old) changesets.now result graph.new
        (phases_at graph.new phases.new) }
{
    for changeset in changesets {
        match add_one(graph, phases, changeset) {
            Ok(_) => {}
            Err(fault) => return Err(fault),
        }
    }
    Ok(())
}

// Moves in the changesets that aren't held. After a fault those before the one at fault were added.
#[inline(always)]
fn add_owned_changesets(
    graph: &mut Graph,
    phases: &mut PhaseMap,
    changesets: Vec<Changeset>,
) -> Result<(), Fault>
    requires len { length (phases_at graph.old phases.old) ≡ length graph.old }
    requires valid { IsValid (state_of graph.old phases.old) }
    ensures { AddAllAnswer graph.old (phases_at graph.old phases.old) changesets.items result graph.new
        (phases_at graph.new phases.new) }
{
    for changeset in changesets {
        match add_owned(graph, phases, changeset) {
            Ok(_) => {}
            Err(fault) => return Err(fault),
        }
    }
    Ok(())
}

/// Adds a copy of the changeset, as secret, unless it is held.
pub(crate) fn add_one(
    graph: &mut Graph,
    phases: &mut PhaseMap,
    changeset: &Changeset,
) -> Result<Added, Fault>
    requires { length (phases_at graph.old phases.old) ≡ length graph.old }
    ensures { OneAdded graph.old (phases_at graph.old phases.old) changeset.now result graph.new
        (phases_at graph.new phases.new) }
{
    let node = changeset.node();
    let answer = graph.add_copy(changeset);
    admit_added(graph, phases, node, answer)
}

// Moves the changeset in, as secret, unless it is held.
#[inline(always)]
fn add_owned(graph: &mut Graph, phases: &mut PhaseMap, changeset: Changeset) -> Result<Added, Fault>
    requires { length (phases_at graph.old phases.old) ≡ length graph.old }
    ensures { OneAdded graph.old (phases_at graph.old phases.old) changeset result graph.new
        (phases_at graph.new phases.new) }
{
    let node = changeset.node();
    let answer = graph.add(changeset);
    admit_added(graph, phases, node, answer)
}

// Makes the changeset secret that the graph has just added, and tells what it answered.
#[inline(always)]
fn admit_added(
    graph: &mut Graph,
    phases: &mut PhaseMap,
    node: Node,
    answer: Result<Added, GraphError>,
) -> Result<Added, Fault>
    requires len { answer ≡ Ok Added.New
        → length graph.old ≡ length (phases_at (before_last graph.old) phases.old) + 1 }
    requires added { answer ≡ Ok Added.New → IsAt graph.old node (length graph.old - 1) }
    ensures { (cs : List Contents) (c : Contents) → IsAnswered cs c answer graph.old
        → OneAdded cs (phases_at cs phases.old) c result graph.new (phases_at graph.new phases.new) }
{
    match answer {
        Ok(Added::New) => {
            admit_or_remove(graph, phases, node)?;
            Ok(Added::New)
        }
        Ok(Added::Known) => Ok(Added::Known),
        Err(GraphError::UnknownParent(parent)) => Err(Fault::UnknownParent(parent)),
        Err(GraphError::Collision(node)) => Err(Fault::Collision(node)),
        Err(GraphError::NoMemory) => Err(Fault::NoMemory),
    }
}

// Makes the changeset that was just added secret, or takes it off the graph again.
fn admit_or_remove(graph: &mut Graph, phases: &mut PhaseMap, node: Node) -> Result<(), AllocError>
    requires len { length graph.old ≡ length (phases_at (before_last graph.old) phases.old) + 1 }
    requires added { IsAt graph.old node (length graph.old - 1) }
    ensures admitted { OnOk result ((graph.new ≡ graph.old)
        × (phases_at graph.new phases.new ≡ phases_at (before_last graph.old) phases.old ++ Phase.Secret ∷ [])) }
    ensures removed { OnErr result
        ((graph.new ≡ before_last graph.old)
        × (phases_at graph.new phases.new ≡ phases_at (before_last graph.old) phases.old)) }
{
    match phases.admit(graph, node) {
        Ok(()) => Ok(()),
        Err(refused) => {
            graph.truncate(graph.len() - 1);
            Err(refused)
        }
    }
}

// The nodes of the changesets from a place on.
#[inline(always)]
fn nodes_from(graph: &Graph, from: usize, alloc: Global) -> Result<AddedNodes, AllocError>
    requires { from ≤ length graph.now }
    ensures nodes { IfOk result (λ found. found.items ≡ drop from (nodes graph.now)) }
    ensures memory { OnErr result (from < length graph.now) }
{
    let mut found = SmallVec::with_capacity(alloc, graph.len() - from)?;
    for place in from..graph.len() {
        match graph.node_at(place) {
            Some(node) => found.push(node)?,
            None => {}
        }
    }
    Ok(found)
}

// Refuses the first bound whose node isn't held.
fn check_bounds(graph: &Graph, bounds: &[(Node, Phase)]) -> Result<(), Fault>
    ensures held { OnOk result (AreHeldUpTo graph.now bounds.now (length bounds.now)) }
    ensures fault { IfErr result (IsBoundFault graph.now bounds.now) }
{
    for bound in bounds {
        match check_bound(graph, bound.0) {
            Ok(()) => {}
            Err(fault) => return Err(fault),
        }
    }
    Ok(())
}

fn check_bound(graph: &Graph, node: Node) -> Result<(), Fault>
    ensures { MatchResult result (λ _. Holds graph.now node) (IsBoundAt graph.now node) }
{
    if graph.contains(node) {
        Ok(())
    } else if node.is_null() {
        Err(Fault::NullBound)
    } else {
        Err(Fault::UnknownBound(node))
    }
}

// Lowers the ancestors of each bound of this phase.
#[inline(always)]
fn lower_to(
    graph: &Graph,
    phases: &mut PhaseMap,
    log: &mut LoweringLog,
    bounds: &[(Node, Phase)],
    phase: Phase,
) -> Result<(), AllocError>
    requires len { length (phases_at graph.now phases.old) ≡ length graph.now }
    requires valid { IsValid (state_of graph.now phases.old) }
    requires held { AreHeldUpTo graph.now bounds.now (length bounds.now) }
    ensures len { length (phases_at graph.now phases.new) ≡ length (phases_at graph.now phases.old) }
    ensures valid { OnOk result (IsValid (state_of graph.now phases.new)) }
    ensures lowered { OnOk result (IsLoweredTo graph.now bounds.now phase (phases_at graph.now phases.old)
        (phases_at graph.now phases.new)) }
    ensures logged { (start : List Phase) → IsLog phase start (phases_at graph.now phases.old) log.old
        → IsLog phase start (phases_at graph.now phases.new) log.new }
    ensures undoes { phases_before graph.now phases.new log.new ≡ phases_before graph.now phases.old log.old }
    ensures memory { OnErr result (HasHigher (state_of graph.now phases.old) bounds.now) }
    ensures still { HasHigher (state_of graph.now phases.old) bounds.now
        ⊎ ((phases_at graph.now phases.new ≡ phases_at graph.now phases.old) × (log.new ≡ log.old)) }
{
    for bound in bounds {
        lower_bound(graph, phases, log, *bound, phase)?;
    }
    Ok(())
}

/// Lowers the ancestors of the bound, if it is of this phase.
#[inline(always)]
pub(crate) fn lower_bound(
    graph: &Graph,
    phases: &mut PhaseMap,
    log: &mut LoweringLog,
    bound: (Node, Phase),
    phase: Phase,
) -> Result<(), AllocError>
    requires len { length (phases_at graph.now phases.old) ≡ length graph.now }
    requires valid { IsValid (state_of graph.now phases.old) }
    requires held { Holds graph.now bound.0 }
    ensures len { length (phases_at graph.now phases.new) ≡ length (phases_at graph.now phases.old) }
    ensures lowered { OnOk result (OneLowered graph.now bound phase (phases_at graph.now phases.old)
        (phases_at graph.now phases.new)) }
    ensures logged { (start : List Phase) → IsLog phase start (phases_at graph.now phases.old) log.old
        → IsLog phase start (phases_at graph.now phases.new) log.new }
    ensures undoes { phases_before graph.now phases.new log.new ≡ phases_before graph.now phases.old log.old }
    ensures memory { OnErr result (IsAbove (state_of graph.now phases.old) bound.0 bound.1) }
    ensures still { IsAbove (state_of graph.now phases.old) bound.0 bound.1
        ⊎ ((phases_at graph.now phases.new ≡ phases_at graph.now phases.old) × (log.new ≡ log.old)) }
{
    if bound.1 == phase {
        phases.lower_logged(graph, log, bound.0, phase)
    } else {
        Ok(())
    }
}
