//! The phases of a graph's changesets, one at each place.
//!
//! What is kept is the phase of each changeset, which is the plain form of a graph's phases, and the index of their
//! roots in [`PhaseRoots`](crate::PhaseRoots). The contracts say no more than what that means for the graph, by
//! `phases_at`, and by `phases_before` where a log is at hand. No public call gives a changeset a phase without its
//! parents: the phase rule is kept here alone.
//!
//! Lowering a changeset lowers its ancestors with it. The walk keeps one log of what it lowered, with the phase that
//! each had: the log is the queue of the walk, the answer, and what takes the lowering back.
ghost use Rattle.std.specs.Prelude.{OnOk, slice_set, All, IfOk, IsOkAnd, IfSome, MatchOption, OnErr, length, take};
ghost use Rattle.std.specs.Prelude.{slice_get, Some, [], ◌∷◌, ◌++◌, ◌+◌, ◌-◌, ℕ, List, ◌≡◌, ◌<◌, ◌⊎◌};
ghost use Rattle.hg_changeset.specs.declared.node.Node.{Node};
ghost use Rattle.hg_graph.specs.Graph.{Holds as GraphHolds, IsGraph};
ghost use Rattle.hg_graph.specs.Places.{IsAt};
ghost use Rattle.hg_phases.specs.State.{state_of, Holds, IsPhaseOf, IsValid};
ghost use Rattle.hg_phases.specs.Kept.{phases_at, before_last, phases_before, IsLogOf};
ghost use Rattle.hg_phases.specs.Least.{IsLeast, bound_alone};
ghost use Rattle.hg_phases.specs.Lowered.{IsAbove, ListsLowered};
ghost use Rattle.hg_phases.specs.Roots.{IsOpened};
ghost use Rattle.hg_phases.specs.Log.{IsLog, restored, IsAboveAt, IsOneLowered, IsUnlowered};

use crate::lowered::{Lowered, LoweredPlace, LoweredPlaces, LoweringLog};
use crate::open::phases_under;
use crate::phase::Phase;
use crate::roots::Roots;
use hg_changeset::Node;
use hg_graph::Graph;
use hg_node_set::give_back_list;
use std::alloc::{AllocError, Global};
use std::marker::Model;

/// The phase of each changeset of a graph, at its place.
#[derive(Drop)]
pub struct PhaseMap {
    phases: Vec<Phase>,
}

impl Model for PhaseMap {
    ghost use Rattle.std.specs.Prelude.{List};
    ghost use Rattle.hg_phases.specs.declared.phase.Phase.{Phase};

    ghost Value = { List Phase };

    ghost view = { λ m. m.phases.items };
}

impl PhaseMap {
    /// The phases of a graph without changesets.
    pub fn new(alloc: Global) -> PhaseMap
        ensures { phases_at [] result ≡ [] }
    {
        PhaseMap {
            phases: Vec::new(alloc),
        }
    }

    /// The phases that listed roots give the changesets of a graph: each the highest phase of a listed root that is it
    /// or an ancestor of it, and public where there is none. Roots that the graph doesn't hold say nothing.
    pub fn open(alloc: Global, graph: &Graph, roots: &Roots) -> Result<PhaseMap, AllocError>
        ensures opened { IfOk result (λ map. (length (phases_at graph.now map) ≡ length graph.now)
            × IsOpened graph.now roots.now (state_of graph.now map)) }
        ensures valid { IfOk result (λ map. IsValid (state_of graph.now map)) }
    {
        let phases = phases_under(graph, alloc, roots.as_slice())?;
        Ok(PhaseMap { phases })
    }

    /// An equal map.
    pub fn copy(&self) -> Result<PhaseMap, AllocError>
        ensures { IfOk result (λ map. map ≡ self.now) }
    {
        Ok(PhaseMap {
            phases: Vec::from_slice(*self.phases.allocator(), &self.phases)?,
        })
    }

    /// The phase of the changeset with this id, if it is held.
    pub fn phase_of(&self, graph: &Graph, node: Node) -> Result<Option<Phase>, AllocError>
        requires { length (phases_at graph.now self.now) ≡ length graph.now }
        ensures { IsOkAnd result
            (λ phase. MatchOption phase (¬ (Holds (state_of graph.now self.now) node))
            (IsPhaseOf (state_of graph.now self.now) node)) }
    {
        match graph.place(node) {
            Some(place) => Ok(Some(self.at(graph, place))),
            None => Ok(None),
        }
    }

    /// The phase of the changeset at a place.
    pub fn at(&self, graph: &Graph, place: usize) -> Phase
        requires len { length (phases_at graph.now self.now) ≡ length graph.now }
        requires within { place < length graph.now }
        ensures { slice_get (phases_at graph.now self.now) place ≡ Some result }
    {
        self.phases[place]
    }

    /// Makes the changeset that was just added to the graph secret.
    pub fn admit(&mut self, graph: &Graph, node: Node) -> Result<(), AllocError>
        requires len { length graph.now ≡ length (phases_at (before_last graph.now) self.old) + 1 }
        requires added { IsAt graph.now node (length graph.now - 1) }
        ensures admitted { OnOk result (phases_at graph.now self.new ≡ phases_at (before_last graph.now) self.old
            ++ Phase.Secret ∷ []) }
        ensures valid { IsGraph graph.now → IsValid (state_of (before_last graph.now) self.old)
            → OnOk result (IsValid (state_of graph.now self.new)) }
        ensures unchanged { OnErr result (self.new ≡ self.old) }
    {
        self.phases.push(Phase::Secret)?;
        Ok(())
    }

    /// Gives the changeset with this id and its ancestors the phase, where theirs is higher, and tells which went down.
    /// A refusal leaves every phase as it was, and comes only where the changeset's phase is higher, so that it goes
    /// down.
    pub fn lower(&mut self, graph: &Graph, node: Node, phase: Phase) -> Result<Lowered, AllocError>
        requires len { length (phases_at graph.now self.old) ≡ length graph.now }
        requires valid { IsValid (state_of graph.now self.old) }
        requires held { GraphHolds graph.now node }
        ensures least { OnOk result (IsLeast (state_of graph.now self.old) (bound_alone (node, phase) ∷ [])
            (state_of graph.now self.new)) }
        ensures valid { OnOk result (IsValid (state_of graph.now self.new)) }
        ensures lowered { IfOk result (λ lowered. ListsLowered (state_of graph.now self.old)
            (state_of graph.now self.new) lowered.nodes.items) }
        ensures len { length (phases_at graph.now self.new) ≡ length graph.now }
        ensures unchanged { OnErr result (self.new ≡ self.old) }
        ensures memory { OnErr result (IsAbove (state_of graph.now self.old) node phase) }
    {
        let mut log = LoweringLog::new(*self.phases.allocator());
        match self.lower_and_tell(graph, &mut log, node, phase) {
            Ok(lowered) => Ok(lowered),
            Err(refused) => {
                self.take_back(graph, &mut log, graph.len());
                Err(refused)
            }
        }
    }

    // Lowers, and tells from the log what went down. After a refusal the log takes back what was done.
    pub(crate) fn lower_and_tell(
        &mut self,
        graph: &Graph,
        log: &mut LoweringLog,
        node: Node,
        phase: Phase,
    ) -> Result<Lowered, AllocError>
        requires len { length (phases_at graph.now self.old) ≡ length graph.now }
        requires valid { IsValid (state_of graph.now self.old) }
        requires held { GraphHolds graph.now node }
        requires fresh { log.old ≡ [] }
        ensures least { OnOk result (IsLeast (state_of graph.now self.old) (bound_alone (node, phase) ∷ [])
            (state_of graph.now self.new)) }
        ensures valid { OnOk result (IsValid (state_of graph.now self.new)) }
        ensures lowered { IfOk result (λ lowered. ListsLowered (state_of graph.now self.old)
            (state_of graph.now self.new) lowered.nodes.items) }
        ensures logged { IsLog phase (phases_at graph.now self.old) (phases_at graph.now self.new) log.new }
        ensures undoes { phases_before graph.now self.new log.new ≡ phases_at graph.now self.old }
        ensures len { length (phases_at graph.now self.new) ≡ length graph.now }
        ensures memory { OnErr result (IsAbove (state_of graph.now self.old) node phase) }
    {
        self.lower_logged(graph, log, node, phase)?;
        let nodes = log.nodes_before(graph, graph.len())?;
        Ok(Lowered { nodes })
    }

    /// Lowers as [`lower`](PhaseMap::lower) does, and logs what goes down behind what was logged already, so that the
    /// lowerings of several calls are told and taken back together. Phases are lowered to in ascending order: then each
    /// changeset is logged once. A refusal may leave some of the phases low: the log takes back what was done. It comes
    /// only where the changeset's phase is higher; otherwise nothing changes.
    #[inline(always)]
    pub fn lower_logged(
        &mut self,
        graph: &Graph,
        log: &mut LoweringLog,
        node: Node,
        phase: Phase,
    ) -> Result<(), AllocError>
        requires len { length (phases_at graph.now self.old) ≡ length graph.now }
        requires valid { IsValid (state_of graph.now self.old) }
        requires held { GraphHolds graph.now node }
        ensures least { OnOk result (IsLeast (state_of graph.now self.old) (bound_alone (node, phase) ∷ [])
            (state_of graph.now self.new)) }
        ensures valid { OnOk result (IsValid (state_of graph.now self.new)) }
        ensures logged { (start : List Phase) → IsLog phase start (phases_at graph.now self.old) log.old
            → IsLog phase start (phases_at graph.now self.new) log.new }
        ensures undoes { phases_before graph.now self.new log.new ≡ phases_before graph.now self.old log.old }
        ensures len { length (phases_at graph.now self.new) ≡ length (phases_at graph.now self.old) }
        ensures memory { OnErr result (IsAbove (state_of graph.now self.old) node phase) }
        ensures still { IsAbove (state_of graph.now self.old) node phase
            ⊎ ((phases_at graph.now self.new ≡ phases_at graph.now self.old) × (log.new ≡ log.old)) }
    {
        match graph.place(node) {
            Some(place) => self.lower_at(graph, &mut log.places, place, phase),
            None => Ok(()),
        }
    }

    /// Takes back what was logged, and forgets the changesets from the place `before` on, which the graph is about to
    /// forget.
    pub fn take_back(&mut self, graph: &Graph, log: &mut LoweringLog, before: usize)
        requires len { length (phases_at graph.now self.old) ≡ length graph.now }
        requires valid { IsValid (state_of graph.now (phases_before graph.now self.old log.old)) }
        requires logged { IsLogOf graph.now self.old log.old }
        ensures back { phases_at (take before graph.now) self.new
            ≡ take before (phases_before graph.now self.old log.old) }
        ensures valid { IsValid (state_of (take before graph.now) self.new) }
        ensures emptied { log.new ≡ [] }
    {
        self.restore(&mut log.places);
        self.truncate(before);
    }

    /// Forgets the places from one on.
    pub(crate) fn truncate(&mut self, before: usize)
        ensures { self.new ≡ take before self.old }
    {
        self.phases.truncate(before);
        give_back_list(&mut self.phases);
    }

    // Lowers what stands at a place, with its ancestors.
    //
    // The log is the queue as well: what was logged has its parents still to be seen to. Where a phase is low enough
    // the walk stops, since the ancestors' phases are no higher.
    #[inline(always)]
    fn lower_at(
        &mut self,
        graph: &Graph,
        log: &mut LoweredPlaces,
        place: usize,
        phase: Phase,
    ) -> Result<(), AllocError>
        requires len { length self.old ≡ length graph.now }
        requires within { place < length self.old }
        requires valid { IsValid (state_of graph.now self.old) }
        ensures least { OnOk result ((node : Node) → IsAt graph.now node place
            → IsLeast (state_of graph.now self.old) (bound_alone (node, phase) ∷ []) (state_of graph.now self.new)) }
        ensures logged { (start : List Phase) → IsLog phase start self.old log.old.items
            → IsLog phase start self.new log.new.items }
        ensures undoes { restored self.new log.new.items ≡ restored self.old log.old.items }
        ensures len { length self.new ≡ length self.old }
        ensures memory { OnErr result (IsAboveAt phase self.old place) }
        ensures still { IsAboveAt phase self.old place ⊎ IsUnlowered self.old log.old.items self.new log.new.items }
    {
        let mut i = log.len();
        self.lower_one(log, place, phase)?;
        while i < log.len() {
            let parents = graph.parent_places(log[i].place);
            self.lower_found(log, parents.first, phase)?;
            self.lower_found(log, parents.second, phase)?;
            i += 1;
        }
        Ok(())
    }

    fn lower_found(
        &mut self,
        log: &mut LoweredPlaces,
        place: Option<usize>,
        phase: Phase,
    ) -> Result<(), AllocError>
        requires { IfSome place (λ p. p < length self.old) }
        ensures lowered { OnOk result (MatchOption place (IsUnlowered self.old log.old.items self.new log.new.items)
            (λ p. IsOneLowered phase p self.old log.old.items self.new log.new.items)) }
        ensures unchanged { OnErr result (IsUnlowered self.old log.old.items self.new log.new.items) }
    {
        match place {
            Some(place) => self.lower_one(log, place, phase),
            None => Ok(()),
        }
    }

    #[inline(always)]
    fn lower_one(
        &mut self,
        log: &mut LoweredPlaces,
        place: usize,
        phase: Phase,
    ) -> Result<(), AllocError>
        requires { place < length self.old }
        ensures lowered { OnOk result (IsOneLowered phase place self.old log.old.items self.new log.new.items) }
        ensures unchanged { OnErr result (IsUnlowered self.old log.old.items self.new log.new.items) }
        ensures memory { OnErr result (IsAboveAt phase self.old place) }
    {
        let had = self.phases[place];
        if phase < had {
            log.push(LoweredPlace { place, had })?;
            self.set(place, phase);
        }
        Ok(())
    }

    fn restore(&mut self, log: &mut LoweredPlaces)
        requires { All (λ e. e.place < length self.old) log.old.items }
        ensures restored { self.new ≡ restored self.old log.old.items }
        ensures emptied { log.new.items ≡ [] }
    {
        while let Some(LoweredPlace { place, had }) = log.pop() {
            self.set(place, had);
        }
    }

    /// Gives what stands at a place the phase, and nothing else.
    pub(crate) fn set(&mut self, at: usize, phase: Phase)
        requires { at < length self.old }
        ensures { self.new ≡ slice_set self.old at phase }
    {
        self.phases[at] = phase;
    }
}
