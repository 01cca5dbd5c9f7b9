//! The phases of a graph's changesets, kept with the places of their roots.
//!
//! The roots are what is kept: they are exactly those of the state, and are told without a look at the other
//! changesets. The phase at each place is an index of them, so that a phase is looked up at once. A part moves the
//! index first, and the roots when all of it was lowered. Only room for what was added takes memory: so the roots never
//! keep a lowering from being done, and all can be taken back without memory, also when the roots have moved.
ghost use Rattle.std.specs.Prelude.{◌≡◌, ◌<◌, ◌≤◌, ◌+◌, ◌-◌, [], ◌∷◌, ◌++◌, Some, OnOk, OnErr, IfOk, IsOkAnd};
ghost use Rattle.std.specs.Prelude.{MatchOption, length, slice_get, take};
ghost use Rattle.hg_graph.specs.Graph.{Holds as GraphHolds, IsGraph};
ghost use Rattle.hg_graph.specs.Places.{IsAt};
ghost use Rattle.hg_phases.specs.declared.phase.Phase.{Phase};
ghost use Rattle.hg_phases.specs.State.{Holds, IsPhaseOf, IsValid, state_of};
ghost use Rattle.hg_phases.specs.Kept.{phases_at, before_last, phases_before, IsLogOf};
ghost use Rattle.hg_phases.specs.Least.{IsLeast, bound_alone};
ghost use Rattle.hg_phases.specs.Lowered.{IsAbove, ListsLowered};
ghost use Rattle.hg_phases.specs.Log.{IsLog};
ghost use Rattle.hg_phases.specs.Roots.{AreRoots, IsOpened};
ghost use Rattle.hg_phases.specs.RootPlaces.{AreRootsBefore, ArePhasesAndRoots};

use crate::lowered::{Lowered, LoweringLog};
use crate::phase::Phase;
use crate::phase_map::PhaseMap;
use crate::place_set::PlaceSet;
use crate::root_places::{roots_at, take_back_logged, update_roots};
use crate::roots::Roots;
use hg_changeset::Node;
use hg_graph::Graph;
use std::alloc::{AllocError, Global};

/// The phases of a graph's changesets, and where their roots stand.
///
/// It has no model: who takes a whole part in lowers the map alone, with a log, and updates the roots at the end.
#[derive(Drop)]
pub struct PhaseRoots {
    /// The phase at each place of the graph.
    pub phases: PhaseMap,

    /// The places of the draft and secret changesets none of whose parents has their phase.
    pub roots: PlaceSet,
    alloc: Global,
}

impl PhaseRoots {
    /// The phases of a graph without changesets.
    pub fn new(alloc: Global) -> PhaseRoots
        ensures none { phases_at [] result.phases ≡ [] }
        ensures kept { ArePhasesAndRoots [] result }
    {
        PhaseRoots {
            phases: PhaseMap::new(alloc),
            roots: PlaceSet::new(alloc),
            alloc,
        }
    }

    /// The phases that listed roots give the changesets of a graph: each the highest phase of a listed root that is it
    /// or an ancestor of it, and public where there is none. Roots that the graph doesn't hold say nothing.
    pub fn open(alloc: Global, graph: &Graph, roots: &Roots) -> Result<PhaseRoots, AllocError>
        ensures opened { IfOk result (λ kept. IsOpened graph.now roots.now (state_of graph.now kept.phases)) }
        ensures valid { IfOk result (λ kept. IsValid (state_of graph.now kept.phases)) }
        ensures kept { IfOk result (ArePhasesAndRoots graph.now) }
    {
        let mut kept = PhaseRoots {
            phases: PhaseMap::open(alloc, graph, roots)?,
            roots: PlaceSet::new(alloc),
            alloc,
        };
        kept.update(graph, &LoweringLog::new(alloc), 0)?;
        Ok(kept)
    }

    /// Equal phases and roots.
    pub fn copy(&self) -> Result<PhaseRoots, AllocError>
        ensures { IfOk result (λ kept. (kept.phases ≡ self.now.phases) × (kept.roots ≡ self.now.roots)) }
    {
        Ok(PhaseRoots {
            phases: self.phases.copy()?,
            roots: self.roots.copy()?,
            alloc: self.alloc,
        })
    }

    /// The phase of the changeset with this id, if it is held.
    pub fn phase_of(&self, graph: &Graph, node: Node) -> Result<Option<Phase>, AllocError>
        requires { length (phases_at graph.now self.now.phases) ≡ length graph.now }
        ensures { IsOkAnd result
            (λ phase. MatchOption phase (¬ (Holds (state_of graph.now self.now.phases) node))
            (IsPhaseOf (state_of graph.now self.now.phases) node)) }
    {
        self.phases.phase_of(graph, node)
    }

    /// The phase of the changeset at a place.
    pub fn at(&self, graph: &Graph, place: usize) -> Phase
        requires len { length (phases_at graph.now self.now.phases) ≡ length graph.now }
        requires within { place < length graph.now }
        ensures { slice_get (phases_at graph.now self.now.phases) place ≡ Some result }
    {
        self.phases.at(graph, place)
    }

    /// The roots: exactly the draft and secret changesets none of whose parents has their phase, each once, in the
    /// graph's order. It costs what the roots are.
    pub fn roots(&self, graph: &Graph) -> Result<Roots, AllocError>
        requires kept { ArePhasesAndRoots graph.now self.now }
        ensures { IfOk result (AreRoots (state_of graph.now self.now.phases)) }
    {
        roots_at(graph, &self.phases, &self.roots, self.alloc)
    }

    /// Makes the changeset that was just added to the graph secret.
    pub fn admit(&mut self, graph: &Graph, node: Node) -> Result<(), AllocError>
        requires len { length graph.now ≡ length (phases_at (before_last graph.now) self.old.phases) + 1 }
        requires added { IsAt graph.now node (length graph.now - 1) }
        requires kept { ArePhasesAndRoots (before_last graph.now) self.old }
        ensures admitted { OnOk result (phases_at graph.now self.new.phases
            ≡ phases_at (before_last graph.now) self.old.phases ++ Phase.Secret ∷ []) }
        ensures kept { OnOk result (ArePhasesAndRoots graph.now self.new) }
        ensures valid { IsGraph graph.now → IsValid (state_of (before_last graph.now) self.old.phases)
            → OnOk result (IsValid (state_of graph.now self.new.phases)) }
        ensures unchanged { OnErr result ((self.new.phases ≡ self.old.phases) × (self.new.roots ≡ self.old.roots)) }
    {
        self.phases.admit(graph, node)?;
        match self.update(graph, &LoweringLog::new(self.alloc), graph.len() - 1) {
            Ok(()) => Ok(()),
            Err(refused) => {
                self.phases.truncate(graph.len() - 1);
                Err(refused)
            }
        }
    }

    /// Gives the changeset with this id and its ancestors the phase, where theirs is higher, and tells which went down.
    /// A refusal leaves every phase as it was, and comes only where the changeset's phase is higher, so that it goes
    /// down.
    pub fn lower(&mut self, graph: &Graph, node: Node, phase: Phase) -> Result<Lowered, AllocError>
        requires valid { IsValid (state_of graph.now self.old.phases) }
        requires held { GraphHolds graph.now node }
        requires kept { ArePhasesAndRoots graph.now self.old }
        ensures least { OnOk result (IsLeast (state_of graph.now self.old.phases) (bound_alone (node, phase) ∷ [])
            (state_of graph.now self.new.phases)) }
        ensures valid { OnOk result (IsValid (state_of graph.now self.new.phases)) }
        ensures lowered { IfOk result (λ lowered. ListsLowered (state_of graph.now self.old.phases)
            (state_of graph.now self.new.phases) lowered.nodes.items) }
        ensures kept { ArePhasesAndRoots graph.now self.new }
        ensures unchanged { OnErr result (self.new.phases ≡ self.old.phases) }
        ensures memory { OnErr result (IsAbove (state_of graph.now self.old.phases) node phase) }
    {
        let mut log = LoweringLog::new(self.alloc);
        match self.lower_and_update(graph, &mut log, node, phase) {
            Ok(lowered) => Ok(lowered),
            Err(refused) => {
                self.phases.take_back(graph, &mut log, graph.len());
                Err(refused)
            }
        }
    }

    // Lowers, tells from the log what went down, and updates the roots. After a refusal the log takes back what was
    // done.
    fn lower_and_update(
        &mut self,
        graph: &Graph,
        log: &mut LoweringLog,
        node: Node,
        phase: Phase,
    ) -> Result<Lowered, AllocError>
        requires valid { IsValid (state_of graph.now self.old.phases) }
        requires held { GraphHolds graph.now node }
        requires kept { ArePhasesAndRoots graph.now self.old }
        requires fresh { log.old ≡ [] }
        ensures least { OnOk result (IsLeast (state_of graph.now self.old.phases) (bound_alone (node, phase) ∷ [])
            (state_of graph.now self.new.phases)) }
        ensures valid { OnOk result (IsValid (state_of graph.now self.new.phases)) }
        ensures lowered { IfOk result (λ lowered. ListsLowered (state_of graph.now self.old.phases)
            (state_of graph.now self.new.phases) lowered.nodes.items) }
        ensures logged { IsLog phase (phases_at graph.now self.old.phases) (phases_at graph.now self.new.phases)
            log.new }
        ensures undoes { phases_before graph.now self.new.phases log.new ≡ phases_at graph.now self.old.phases }
        ensures kept { OnOk result (ArePhasesAndRoots graph.now self.new) }
        ensures roots { OnErr result (self.new.roots ≡ self.old.roots) }
        ensures memory { OnErr result (IsAbove (state_of graph.now self.old.phases) node phase) }
    {
        let lowered = self.phases.lower_and_tell(graph, log, node, phase)?;
        self.update(graph, log, graph.len())?;
        Ok(lowered)
    }

    /// Moves the roots of the changesets before a place to where they are since the others were added and what was
    /// logged went down. A refusal leaves everything as it was, and comes only where something was added. It costs what
    /// was, and the children of what went down.
    #[inline(always)]
    pub fn update(
        &mut self,
        graph: &Graph,
        log: &LoweringLog,
        before: usize,
    ) -> Result<(), AllocError>
        requires len { length (phases_at graph.now self.old.phases) ≡ length graph.now }
        requires within { before ≤ length graph.now }
        requires logged { IsLogOf graph.now self.old.phases log.now }
        requires rooted { AreRootsBefore graph.now self.old log.now before }
        ensures same { self.new.phases ≡ self.old.phases }
        ensures kept { OnOk result (ArePhasesAndRoots graph.now self.new) }
        ensures unchanged { OnErr result (self.new.roots ≡ self.old.roots) }
        ensures memory { OnErr result (before < length graph.now) }
    {
        update_roots(
            graph,
            &self.phases,
            &mut self.roots,
            log.places.as_slice(),
            before,
        )
    }

    /// Takes back what was logged, with the roots, and forgets the changesets from the place `before` on, which the
    /// graph is about to forget. It takes no memory.
    pub fn take_back(&mut self, graph: &Graph, log: &mut LoweringLog, before: usize)
        requires kept { ArePhasesAndRoots graph.now self.old }
        requires valid { IsValid (state_of graph.now self.old.phases) }
        requires within { before ≤ length graph.now }
        requires logged { IsLogOf graph.now self.old.phases log.old }
        ensures back { phases_at (take before graph.now) self.new.phases
            ≡ take before (phases_before graph.now self.old.phases log.old) }
        ensures kept { ArePhasesAndRoots (take before graph.now) self.new }
        ensures emptied { log.new ≡ [] }
    {
        take_back_logged(graph, &mut self.phases, &mut self.roots, &mut log.places);
        self.phases.truncate(before);
        self.roots.truncate(before);
    }
}
