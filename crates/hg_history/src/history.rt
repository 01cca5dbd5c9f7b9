//! The history: a graph of changesets, with a phase for each.
ghost use Rattle.std.specs.Prelude.{IfOk, IsErrOf, IsOkAnd, MatchOption, IsTrue, Some, [], length, slice_get, ◌≡◌, ◌≤◌};
ghost use Rattle.std.specs.Prelude.{◌↔◌, ◌⊎◌, OnOk};
ghost use Rattle.hg_phases.specs.State.{State, Held, changesets, state_of, Holds, IsPhaseOf, IsValid};
ghost use Rattle.hg_phases.specs.Least.{part_of};
ghost use Rattle.hg_phases.specs.Order.{Below};
ghost use Rattle.hg_history.specs.Answer.{AbsorbAnswer, IsGrowthBeforeFault, part_with};
ghost use Rattle.hg_phases.specs.Roots.{AreRoots};
ghost use Rattle.hg_history.specs.Join.{JoinAnswer};
ghost use Rattle.hg_history.specs.Open.{OpenAnswer, MayWantMemory};
ghost use Rattle.hg_history.specs.Undo.{LeadsBack};
ghost use Rattle.hg_join.specs.Absorbed.{without_undo, join_without_undo};
ghost use Rattle.hg_history.specs.Change.{IsNothing};

use crate::absorb::absorb_or_undo;
use crate::change::Change;
use crate::fault::Fault;
use crate::join::{is_below, join_or_undo};
use crate::undo::Undo;
use hg_changeset::{Changeset, Node};
use hg_graph::Graph;
use hg_join::Absorbed;
use hg_node_set::IdKeys;
use hg_phases::{Phase, PhaseRoots, Roots};
use std::alloc::{AllocError, Global};
use std::borrow::CowSlice;
use std::marker::Model;

/// The history of one repository: its changesets and their phases. No changeset has a lower phase than a parent of it.
#[derive(Drop)]
pub struct History {
    graph: Graph,
    kept: PhaseRoots,
    alloc: Global,
}

impl Model for History {
    ghost use Rattle.hg_phases.specs.State.{State, IsValid, state_of};
    ghost use Rattle.hg_phases.specs.RootPlaces.{ArePhasesAndRoots};

    ghost Value = { State };

    ghost view = { λ history. state_of history.graph history.kept.phases };

    ghost invariant = { λ history. ArePhasesAndRoots history.graph history.kept
        × IsValid (state_of history.graph history.kept.phases) };
}

impl History {
    /// The history that holds nothing. It hashes ids by the rule that everybody knows.
    pub fn new(alloc: Global) -> History
        ensures { result ≡ state_of [] [] }
    {
        History::with_keys(alloc, IdKeys::known())
    }

    /// The history that holds nothing, which hashes ids by these keys.
    pub fn with_keys(alloc: Global, keys: IdKeys) -> History
        ensures { result ≡ state_of [] [] }
    {
        History {
            graph: Graph::with_keys(alloc, keys),
            kept: PhaseRoots::new(alloc),
            alloc,
        }
    }

    /// The history of these changesets, in their order and each once. Each has the highest phase of a listed root that
    /// is it or an ancestor of it, in whatever order and however often roots are listed, and is public where there is
    /// none. Roots that aren't among the changesets say nothing.
    ///
    /// Refuses as [`absorb`](History::absorb) does: the first [`Fault::UnknownParent`] or [`Fault::Collision`].
    /// [`Fault::NoMemory`] never stands for a fault that is met before anything grows.
    pub fn open(alloc: Global, changesets: &[Changeset], roots: &Roots) -> Result<History, Fault>
        ensures answer { OpenAnswer changesets.now roots.now result }
        ensures memory { IsErrOf result Fault.NoMemory → MayWantMemory changesets.now }
        ensures valid { IfOk result IsValid }
    {
        History::open_with_keys(alloc, IdKeys::known(), changesets, roots)
    }

    /// What [`open`](History::open) gives, which hashes ids by these keys.
    pub fn open_with_keys(
        alloc: Global,
        keys: IdKeys,
        changesets: &[Changeset],
        roots: &Roots,
    ) -> Result<History, Fault>
        ensures answer { OpenAnswer changesets.now roots.now result }
        ensures memory { IsErrOf result Fault.NoMemory → MayWantMemory changesets.now }
        ensures valid { IfOk result IsValid }
    {
        let mut history = History::with_keys(alloc, keys);
        match history.absorb(changesets, &[]) {
            Ok(_) => {}
            Err(fault) => return Err(fault),
        }
        history.kept = PhaseRoots::open(alloc, &history.graph, roots)?;
        Ok(history)
    }

    /// Its roots: exactly the draft and secret changesets none of whose parents has their phase, each once, in the
    /// graph's order. They are kept, so no other changeset is looked at.
    pub fn roots(&self) -> Result<Roots, AllocError>
        ensures roots { IfOk result (AreRoots self.now) }
        ensures valid { IsValid self.now }
    {
        self.kept.roots(&self.graph)
    }

    /// An equal history, in the same order.
    pub fn copy(&self) -> Result<History, AllocError>
        ensures { IfOk result (λ history. history ≡ self.now) }
    {
        Ok(History {
            graph: self.graph.copy()?,
            kept: self.kept.copy()?,
            alloc: self.alloc,
        })
    }

    /// What ids are hashed by.
    pub fn keys(&self) -> IdKeys {
        self.graph.keys()
    }

    /// The graph of its changesets.
    pub fn graph(&self) -> &Graph
        ensures graph { result.now ≡ changesets self.now }
        ensures valid { IsValid self.now }
    {
        &self.graph
    }

    /// The phase of the changeset with this id, if it is held.
    pub fn phase_of(&self, node: Node) -> Result<Option<Phase>, AllocError>
        ensures phase { IsOkAnd result
            (λ phase. MatchOption phase (¬ (Holds self.now node)) (IsPhaseOf self.now node)) }
        ensures valid { IsValid self.now }
    {
        self.kept.phase_of(&self.graph, node)
    }

    /// The phase of the changeset at a place of the graph, where there is one. It takes no look-up.
    pub fn phase_at(&self, place: usize) -> Option<Phase>
        ensures { MatchOption result (length self.now.held ≤ place)
            (λ phase. (h : Held) × (slice_get self.now.held place ≡ Some h) × (h.phase ≡ phase)) }
    {
        if place < self.graph.len() {
            Some(self.kept.at(&self.graph, place))
        } else {
            None
        }
    }

    /// Takes in changesets and bounds on phases: the history goes to the least state above its own that covers them. A
    /// bound `(node, phase)` says that the node and its ancestors have at most this phase. What is new stands last, in
    /// the given order. The first fault is told, of the changesets in their order and then of the bounds in theirs; a
    /// refusal leaves the history as it was. [`Fault::NoMemory`] never stands for a fault that is met before anything
    /// grows, and what is covered already is absorbed without memory.
    pub fn absorb(
        &mut self,
        changesets: &[Changeset],
        bounds: &[(Node, Phase)],
    ) -> Result<Change, Fault>
        ensures answer { AbsorbAnswer self.old (record { changesets = changesets.now; bounds = bounds.now }) result
            self.new }
        ensures valid { IsValid self.old }
        ensures still_valid { IsValid self.new }
        ensures memory { IsErrOf result Fault.NoMemory
            → IsGrowthBeforeFault self.old (record { changesets = changesets.now; bounds = bounds.now }) }
    {
        match self.absorb_with_undo(CowSlice::Borrowed(changesets), bounds) {
            Ok(absorbed) => Ok(absorbed.change),
            Err(fault) => Err(fault),
        }
    }

    /// Takes in changesets and bounds on phases as [`absorb`](History::absorb) does, and gives out what takes them
    /// back. Changesets that are moved in are dropped where they are held, and after a refusal all are.
    #[inline(always)]
    pub fn absorb_with_undo(
        &mut self,
        changesets: CowSlice<'_, Changeset>,
        bounds: &[(Node, Phase)],
    ) -> Result<Absorbed<Change, Undo>, Fault>
        ensures answer { AbsorbAnswer self.old (part_with changesets.entry bounds.now) (without_undo result) self.new }
        ensures back { IfOk result (λ absorbed. LeadsBack self.new absorbed.undo self.old) }
        ensures nothing { IfOk result (λ absorbed. IsNothing absorbed.change → self.new ≡ self.old) }
        ensures growth { IfOk result (λ absorbed. IsNothing absorbed.change
            ⊎ IsGrowthBeforeFault self.old (part_with changesets.entry bounds.now)) }
        ensures valid { IsValid self.old }
        ensures still_valid { IsValid self.new }
        ensures memory { IsErrOf result Fault.NoMemory
            → IsGrowthBeforeFault self.old (part_with changesets.entry bounds.now) }
    {
        absorb_or_undo(
            &mut self.graph,
            &mut self.kept,
            self.alloc,
            changesets,
            bounds,
        )
    }

    /// Takes an absorption or a join back: the history is as it was before it. Nothing may have changed it since. It
    /// takes no memory, and costs what was taken in.
    pub fn take_back(&mut self, undo: Undo)
        requires { (s : State) × LeadsBack self.old undo s }
        ensures back { (s : State) → LeadsBack self.old undo s → self.new ≡ s }
        ensures still_valid { IsValid self.new }
    {
        let Undo { before, mut log } = undo;
        self.kept.take_back(&self.graph, &mut log, before);
        self.graph.truncate(before);
    }

    /// Takes in all that another history holds: the history goes to the least state above both, the union of the
    /// changesets with the lowest phases. Two changesets under one id are refused as a collision; a refusal leaves the
    /// history as it was. [`Fault::NoMemory`] never stands for a collision that is met before anything grows, and
    /// another history that is below this one is joined without memory.
    pub fn join(&mut self, other: &History) -> Result<(), Fault>
        ensures answer { JoinAnswer self.old other.now result self.new }
        ensures valid { IsValid self.old }
        ensures other_valid { IsValid other.now }
        ensures still_valid { IsValid self.new }
        ensures memory { IsErrOf result Fault.NoMemory → IsGrowthBeforeFault self.old (part_of other.now) }
    {
        match self.join_with_undo(other) {
            Ok(_) => Ok(()),
            Err(fault) => Err(fault),
        }
    }

    /// Takes in all that another history holds as [`join`](History::join) does, and gives out what takes that back.
    pub fn join_with_undo(&mut self, other: &History) -> Result<Undo, Fault>
        ensures answer { JoinAnswer self.old other.now (join_without_undo result) self.new }
        ensures back { IfOk result (λ undo. LeadsBack self.new undo self.old) }
        ensures growth { OnOk result (IsGrowthBeforeFault self.old (part_of other.now) ⊎ (self.new ≡ self.old)) }
        ensures valid { IsValid self.old }
        ensures other_valid { IsValid other.now }
        ensures still_valid { IsValid self.new }
        ensures memory { IsErrOf result Fault.NoMemory → IsGrowthBeforeFault self.old (part_of other.now) }
    {
        join_or_undo(
            &mut self.graph,
            &mut self.kept,
            self.alloc,
            &other.graph,
            &other.kept.phases,
        )
    }

    /// Whether another history holds all that this one holds, with phases no higher.
    pub fn is_below(&self, other: &History) -> bool
        ensures answer { IsTrue result ↔ Below self.now other.now }
        ensures valid { IsValid self.now }
        ensures other_valid { IsValid other.now }
    {
        is_below(
            &self.graph,
            &self.kept.phases,
            &other.graph,
            &other.kept.phases,
        )
    }
}
