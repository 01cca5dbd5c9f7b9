//! Joining two histories, and whether one is below the other.
//!
//! The other is taken in as a part: its changesets, and for each of them a bound, its phase. They are gone through in
//! the other's order, so the parents of each are there when it comes: a new one is copied, as secret, and stands last.
//! Then each is lowered to its phase, the public ones first, which lowers hardly anything else, since its parents stand
//! no higher in the other, and the roots are updated. A refusal takes back what was done, as in `absorb`. So a call
//! costs about both sides once.
ghost use Rattle.std.specs.Prelude.{◌≡◌, ◌↔◌, ◌⊎◌, List, Some, IsTrue, IfOk, OnOk, OnErr, IfErr, IsErrOf, length};
ghost use Rattle.std.specs.Prelude.{slice_get, [], ◌∷◌};
ghost use Rattle.hg_phases.specs.declared.phase.Phase.{Phase};
ghost use Rattle.hg_phases.specs.State.{IsValid, state_of};
ghost use Rattle.hg_phases.specs.Kept.{phases_at, phases_before};
ghost use Rattle.hg_phases.specs.Least.{IsLeast, part_of};
ghost use Rattle.hg_phases.specs.Log.{IsLog};
ghost use Rattle.hg_phases.specs.Order.{Below};
ghost use Rattle.hg_phases.specs.RootPlaces.{ArePhasesAndRoots};
ghost use Rattle.hg_join.specs.Absorbed.{join_without_undo};
ghost use Rattle.hg_history.specs.Answer.{AreHeldUpTo, HasHigher, IsGrowthBeforeFault};
ghost use Rattle.hg_history.specs.Join.{IsJoinFault, JoinAnswer, IsHeldAsLow};
ghost use Rattle.hg_history.specs.Steps.{AddAllAnswer, CanTakeBack, IsLoweredTo};
ghost use Rattle.hg_history.specs.Undo.{LeadsBack};

use crate::absorb::{add_one, lower_bound, take_back};
use crate::fault::Fault;
use crate::undo::Undo;
use hg_changeset::Changeset;
use hg_graph::Graph;
use hg_phases::{LoweringLog, Phase, PhaseMap, PhaseRoots};
use std::alloc::{AllocError, Global};

/// Joins the other in and gives out what takes it back, or leaves everything as it was.
pub(crate) fn join_or_undo(
    graph: &mut Graph,
    kept: &mut PhaseRoots,
    alloc: Global,
    other: &Graph,
    other_phases: &PhaseMap,
) -> Result<Undo, Fault>
    requires kept { ArePhasesAndRoots graph.old kept.old }
    requires valid { IsValid (state_of graph.old kept.old.phases) }
    requires other_len { length (phases_at other.now other_phases.now) ≡ length other.now }
    requires other_valid { IsValid (state_of other.now other_phases.now) }
    ensures inside { ArePhasesAndRoots graph.new kept.new × IsValid (state_of graph.new kept.new.phases) }
    ensures answer { JoinAnswer (state_of graph.old kept.old.phases) (state_of other.now other_phases.now)
        (join_without_undo result) (state_of graph.new kept.new.phases) }
    ensures back { IfOk result
        (λ undo. LeadsBack (state_of graph.new kept.new.phases) undo (state_of graph.old kept.old.phases)) }
    ensures growth { OnOk result
        (IsGrowthBeforeFault (state_of graph.old kept.old.phases) (part_of (state_of other.now other_phases.now))
        ⊎ (state_of graph.new kept.new.phases ≡ state_of graph.old kept.old.phases)) }
    ensures memory { IsErrOf result Fault.NoMemory
        → IsGrowthBeforeFault (state_of graph.old kept.old.phases) (part_of (state_of other.now other_phases.now)) }
{
    let before = graph.len();
    let mut log = LoweringLog::new(alloc);
    match join_and_update(graph, kept, &mut log, other, other_phases) {
        Ok(()) => Ok(Undo { before, log }),
        Err(fault) => {
            take_back(graph, &mut kept.phases, &mut log, before);
            Err(fault)
        }
    }
}

// Joins the other in, logs what goes down, and updates the roots. After a fault what was done can be taken back, and
// the roots are those of before.
fn join_and_update(
    graph: &mut Graph,
    kept: &mut PhaseRoots,
    log: &mut LoweringLog,
    other: &Graph,
    other_phases: &PhaseMap,
) -> Result<(), Fault>
    requires kept { ArePhasesAndRoots graph.old kept.old }
    requires valid { IsValid (state_of graph.old kept.old.phases) }
    requires other_len { length (phases_at other.now other_phases.now) ≡ length other.now }
    requires other_valid { IsValid (state_of other.now other_phases.now) }
    requires fresh { log.old ≡ [] }
    ensures back { CanTakeBack graph.old (phases_at graph.old kept.old.phases) graph.new kept.new.phases log.new }
    ensures kept { OnOk result (ArePhasesAndRoots graph.new kept.new) }
    ensures roots { OnErr result (kept.new.roots ≡ kept.old.roots) }
    ensures joined { OnOk result (IsLeast (state_of graph.old kept.old.phases)
        (part_of (state_of other.now other_phases.now) ∷ []) (state_of graph.new kept.new.phases)) }
    ensures fault { IfErr result
        (IsJoinFault (state_of graph.old kept.old.phases) (state_of other.now other_phases.now)) }
    ensures growth { OnOk result
        (IsGrowthBeforeFault (state_of graph.old kept.old.phases) (part_of (state_of other.now other_phases.now))
        ⊎ (state_of graph.new kept.new.phases ≡ state_of graph.old kept.old.phases)) }
    ensures memory { IsErrOf result Fault.NoMemory
        → IsGrowthBeforeFault (state_of graph.old kept.old.phases) (part_of (state_of other.now other_phases.now)) }
{
    let before = graph.len();
    match join_logged(graph, &mut kept.phases, log, other, other_phases) {
        Ok(()) => {
            kept.update(graph, log, before)?;
            Ok(())
        }
        Err(fault) => Err(fault),
    }
}

// Adds what the other holds, and then lowers to its phases, and logs what goes down. After a fault what was done can be
// taken back.
fn join_logged(
    graph: &mut Graph,
    phases: &mut PhaseMap,
    log: &mut LoweringLog,
    other: &Graph,
    other_phases: &PhaseMap,
) -> Result<(), Fault>
    requires len { length (phases_at graph.old phases.old) ≡ length graph.old }
    requires valid { IsValid (state_of graph.old phases.old) }
    requires other_len { length (phases_at other.now other_phases.now) ≡ length other.now }
    requires other_valid { IsValid (state_of other.now other_phases.now) }
    requires fresh { log.old ≡ [] }
    ensures back { CanTakeBack graph.old (phases_at graph.old phases.old) graph.new phases.new log.new }
    ensures joined { OnOk result (IsLeast (state_of graph.old phases.old)
        (part_of (state_of other.now other_phases.now) ∷ []) (state_of graph.new phases.new)) }
    ensures fault { IfErr result
        (IsJoinFault (state_of graph.old phases.old) (state_of other.now other_phases.now)) }
    ensures memory { IsErrOf result Fault.NoMemory
        → IsGrowthBeforeFault (state_of graph.old phases.old) (part_of (state_of other.now other_phases.now)) }
    ensures growth { OnOk result (¬ ((log.new ≡ []) × (length graph.old ≡ length graph.new))
        → IsGrowthBeforeFault (state_of graph.old phases.old) (part_of (state_of other.now other_phases.now))) }
{
    match add_all(graph, phases, other) {
        Ok(()) => {}
        Err(fault) => return Err(fault),
    }
    lower_to_each(graph, phases, log, other, other_phases, Phase::Public)?;
    lower_to_each(graph, phases, log, other, other_phases, Phase::Draft)?;
    Ok(())
}

// Adds the other's changesets that aren't held. After a fault those before the one at fault were added.
fn add_all(graph: &mut Graph, phases: &mut PhaseMap, other: &Graph) -> Result<(), Fault>
    requires len { length (phases_at graph.old phases.old) ≡ length graph.old }
    requires valid { IsValid (state_of graph.old phases.old) }
    ensures { AddAllAnswer graph.old (phases_at graph.old phases.old) other.now result graph.new
        (phases_at graph.new phases.new) }
{
    for place in 0..other.len() {
        match other.changeset_at(place) {
            Some(changeset) => match add_one(graph, phases, changeset) {
                Ok(_) => {}
                Err(fault) => return Err(fault),
            },
            None => {}
        }
    }
    Ok(())
}

// Lowers each changeset of the other's that has this phase there, with its ancestors.
fn lower_to_each(
    graph: &Graph,
    phases: &mut PhaseMap,
    log: &mut LoweringLog,
    other: &Graph,
    other_phases: &PhaseMap,
    phase: Phase,
) -> Result<(), AllocError>
    requires len { length (phases_at graph.now phases.old) ≡ length graph.now }
    requires valid { IsValid (state_of graph.now phases.old) }
    requires other_len { length (phases_at other.now other_phases.now) ≡ length other.now }
    requires held { AreHeldUpTo graph.now (part_of (state_of other.now other_phases.now)).bounds
        (length (part_of (state_of other.now other_phases.now)).bounds) }
    ensures len { length (phases_at graph.now phases.new) ≡ length (phases_at graph.now phases.old) }
    ensures valid { OnOk result (IsValid (state_of graph.now phases.new)) }
    ensures lowered { OnOk result (IsLoweredTo graph.now (part_of (state_of other.now other_phases.now)).bounds phase
        (phases_at graph.now phases.old) (phases_at graph.now phases.new)) }
    ensures logged { (start : List Phase) → IsLog phase start (phases_at graph.now phases.old) log.old
        → IsLog phase start (phases_at graph.now phases.new) log.new }
    ensures undoes { phases_before graph.now phases.new log.new ≡ phases_before graph.now phases.old log.old }
    ensures memory { OnErr result
        (HasHigher (state_of graph.now phases.old) (part_of (state_of other.now other_phases.now)).bounds) }
    ensures still { HasHigher (state_of graph.now phases.old) (part_of (state_of other.now other_phases.now)).bounds
        ⊎ ((phases_at graph.now phases.new ≡ phases_at graph.now phases.old) × (log.new ≡ log.old)) }
{
    for place in 0..other.len() {
        match other.node_at(place) {
            Some(node) => {
                let bound = (node, other_phases.at(other, place));
                lower_bound(graph, phases, log, bound, phase)?;
            }
            None => {}
        }
    }
    Ok(())
}

// Whether this changeset stands at the place.
fn is_at(graph: &Graph, place: usize, changeset: &Changeset) -> bool
    ensures { IsTrue result ↔ (slice_get graph.now place ≡ Some changeset.now) }
{
    match graph.changeset_at(place) {
        Some(held) => held.is_same(changeset),
        None => false,
    }
}

/// Whether the other holds what this one holds, each with this phase or a lower one.
pub(crate) fn is_below(
    graph: &Graph,
    phases: &PhaseMap,
    other: &Graph,
    other_phases: &PhaseMap,
) -> bool
    requires len { length (phases_at graph.now phases.now) ≡ length graph.now }
    requires other_len { length (phases_at other.now other_phases.now) ≡ length other.now }
    ensures { IsTrue result ↔ Below (state_of graph.now phases.now) (state_of other.now other_phases.now) }
{
    // Who holds more isn't below: that takes no look at what is held.
    if graph.len() > other.len() {
        return false;
    }
    for place in 0..graph.len() {
        if let Some(changeset) = graph.changeset_at(place) {
            if !holds_as_low(other, other_phases, changeset, phases.at(graph, place)) {
                return false;
            }
        }
    }
    true
}

// Whether the changeset is held, with this phase or a lower one.
fn holds_as_low(graph: &Graph, phases: &PhaseMap, changeset: &Changeset, phase: Phase) -> bool
    requires { length (phases_at graph.now phases.now) ≡ length graph.now }
    ensures { IsTrue result ↔ IsHeldAsLow (state_of graph.now phases.now) changeset.now phase }
{
    match graph.place(changeset.node()) {
        Some(place) => is_at(graph, place, changeset) && phases.at(graph, place) <= phase,
        None => false,
    }
}
