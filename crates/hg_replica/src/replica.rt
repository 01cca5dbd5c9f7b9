//! The replica: a history, and a store of markers.
//!
//! The store comes first in each call that grows both, since what it added is cut off its end again where the history
//! refuses. So a refusal costs what was taken in, and never a copy.
ghost use Rattle.std.specs.Prelude.{IfOk, IsErrOf, IsOkAnd, MatchOption, IsTrue, Some, [], length, slice_get, ◌≡◌, ◌≤◌};
ghost use Rattle.std.specs.Prelude.{◌↔◌, ◌⊎◌, OnOk};
ghost use Rattle.std.specs.Cow.{cow_value};
ghost use Rattle.hg_join.specs.Absorbed.{without_undo, join_without_undo};
ghost use Rattle.hg_phases.specs.State.{Held, changesets, state_of, Holds, IsPhaseOf};
ghost use Rattle.hg_phases.specs.Roots.{AreRoots};
ghost use Rattle.hg_obsstore.specs.Markers.{AllDistinct};
ghost use Rattle.hg_history.specs.Open.{MayWantMemory};
ghost use Rattle.hg_replica.specs.State.{ReplicaState, IsSameState, IsValid, Below};
ghost use Rattle.hg_replica.specs.Least.{part_of};
ghost use Rattle.hg_replica.specs.Answer.{AbsorbAnswer, KeepAnswer, IsGrowthBeforeFault, JoinAnswer, OpenAnswer};
ghost use Rattle.hg_replica.specs.Change.{IsNothing};
ghost use Rattle.hg_replica.specs.Undo.{LeadsBack};

use crate::part::{Change, Part, take_lists};
use crate::undo::Undo;
use hg_changeset::{Changeset, Node};
use hg_graph::Graph;
use hg_history::{Fault, History};
use hg_join::{Absorbed, NoMemory};
use hg_node_set::IdKeys;
use hg_obsstore::{NewPlaces, Store};
use hg_phases::{Phase, Roots};
use std::alloc::{AllocError, Global};
use std::borrow::Cow;
use std::marker::Model;

/// A replica of one repository: its changesets, their phases, and its markers. No changeset has a lower phase than a
/// parent of it, and no two markers are equal.
pub struct Replica {
    history: History,
    store: Store,
}

// Whoever owns a replica calls this once, and is proved without a look at each collection in it.
impl Drop for Replica {
    fn drop(self) {
        let Replica {
            history: _,
            store: _,
        } = self;
    }
}

impl Model for Replica {
    ghost use Rattle.std.specs.Coded.{codes};
    ghost use Rattle.hg_marker.specs.Fields.{fields_code};
    ghost use Rattle.hg_replica.specs.State.{ReplicaState, IsValid};

    ghost Value = { ReplicaState };

    ghost coded = { Prim.hlevel (codes, fields_code) };

    ghost view = { λ replica. record { history = replica.history; markers = replica.store } };

    ghost invariant = { λ replica. IsValid (record { history = replica.history; markers = replica.store }) };
}

impl Replica {
    /// The replica that holds nothing. It hashes ids by the rule that everybody knows, so it is for parts that don't
    /// come from strangers: these can choose ids that make look-ups dear.
    pub fn new(alloc: Global) -> Replica
        ensures { result ≡ record { history = state_of [] []; markers = [] } }
    {
        Replica::with_keys(alloc, IdKeys::known())
    }

    /// The replica that holds nothing, which hashes ids by these keys. Whoever takes in bytes of strangers makes it
    /// with secret ones.
    pub fn with_keys(alloc: Global, keys: IdKeys) -> Replica
        ensures { result ≡ record { history = state_of [] []; markers = [] } }
    {
        Replica {
            history: History::with_keys(alloc, keys),
            store: Store::with_keys(alloc, keys),
        }
    }

    /// What ids are hashed by. Sets of ids that are made in passing take the same keys.
    pub fn keys(&self) -> IdKeys {
        self.history.keys()
    }

    /// The replica of these changesets, in their order and each once, and of this store. Each changeset has the highest
    /// phase of a listed root that is it or an ancestor of it, in whatever order and however often roots are listed,
    /// and is public where there is none. Roots that aren't among the changesets say nothing. Ids are hashed by the
    /// store's keys.
    ///
    /// Refuses as [`absorb`](Replica::absorb) does: the first [`Fault::UnknownParent`] or [`Fault::Collision`].
    /// [`Fault::NoMemory`] never stands for a fault that is met before anything grows.
    pub fn open(changesets: &[Changeset], roots: &Roots, store: Store) -> Result<Replica, Fault>
        ensures answer { OpenAnswer changesets.now roots.now store result }
        ensures memory { IsErrOf result Fault.NoMemory → MayWantMemory changesets.now }
        ensures valid { IfOk result IsValid }
    {
        match History::open_with_keys(roots.allocator(), store.keys(), changesets, roots) {
            Ok(history) => Ok(Replica { history, store }),
            Err(fault) => Err(fault),
        }
    }

    /// Its roots: exactly the draft and secret changesets none of whose parents has their phase, each once, in the
    /// graph's order.
    pub fn roots(&self) -> Result<Roots, AllocError>
        ensures roots { IfOk result (AreRoots self.now.history) }
        ensures valid { IsValid self.now }
    {
        self.history.roots()
    }

    /// An equal replica, in the same order.
    pub fn copy(&self) -> Result<Replica, NoMemory>
        ensures { IfOk result (λ replica. replica ≡ self.now) }
    {
        let history = self.history.copy()?;
        let store = self.store.copy()?;
        Ok(Replica { history, store })
    }

    /// The graph of its changesets.
    pub fn graph(&self) -> &Graph
        ensures graph { result.now ≡ changesets self.now.history }
        ensures valid { IsValid self.now }
    {
        self.history.graph()
    }

    /// It says to proofs that the replica is in a valid state, and does nothing.
    #[inline(always)]
    pub fn is_valid(&self)
        ensures { IsValid self.now }
    {
        let _history = &self.history;
    }

    /// The store of its markers.
    pub fn store(&self) -> &Store
        ensures { result.now ≡ self.now.markers }
    {
        &self.store
    }

    /// The phase of the changeset with this id, if it is held.
    pub fn phase_of(&self, node: Node) -> Result<Option<Phase>, AllocError>
        ensures phase { IsOkAnd result
            (λ phase. MatchOption phase (¬ (Holds self.now.history node)) (IsPhaseOf self.now.history node)) }
        ensures valid { IsValid self.now }
    {
        self.history.phase_of(node)
    }

    /// The phase of the changeset at a place of the graph, where there is one. It takes no look-up.
    pub fn phase_at(&self, place: usize) -> Option<Phase>
        ensures { MatchOption result (length self.now.history.held ≤ place)
            (λ phase. (h : Held) × (slice_get self.now.history.held place ≡ Some h) × (h.phase ≡ phase)) }
    {
        self.history.phase_at(place)
    }

    /// Takes in a part: the replica goes to the least state above its own that covers the part. What is new stands
    /// last, in the part's order. The first fault is told, of the changesets in their order and then of the bounds in
    /// theirs; a refusal leaves the replica as it was. Markers come before changesets, so want of memory is told in
    /// place of a fault only where a marker is new, or where the history grew before the fault was met. What is covered
    /// already is absorbed without memory.
    pub fn absorb(&mut self, part: &Part) -> Result<Change, Fault>
        ensures answer { AbsorbAnswer self.old part.now result self.new }
        ensures memory { IsErrOf result Fault.NoMemory → IsGrowthBeforeFault self.old part.now }
        ensures valid { IsValid self.old }
        ensures still_valid { IsValid self.new }
    {
        match self.absorb_with_undo(Cow::Borrowed(part)) {
            Ok(absorbed) => Ok(absorbed.change),
            Err(fault) => Err(fault),
        }
    }

    /// Takes in a part as [`absorb`](Replica::absorb) does, but moves the changesets and the markers that aren't held
    /// in place of copying them. The others are dropped, and after a refusal all are.
    pub fn absorb_owned(&mut self, part: Part) -> Result<Change, Fault>
        ensures answer { AbsorbAnswer self.old part result self.new }
        ensures memory { IsErrOf result Fault.NoMemory → IsGrowthBeforeFault self.old part }
        ensures valid { IsValid self.old }
        ensures still_valid { IsValid self.new }
    {
        match self.absorb_with_undo(Cow::Owned(part)) {
            Ok(absorbed) => Ok(absorbed.change),
            Err(fault) => Err(fault),
        }
    }

    /// Takes in a part, which is lent or moved in, as [`absorb`](Replica::absorb) and
    /// [`absorb_owned`](Replica::absorb_owned) do, and gives out what takes that back.
    #[inline(always)]
    pub fn absorb_with_undo(&mut self, part: Cow<'_, Part>) -> Result<Absorbed<Change, Undo>, Fault>
        ensures answer { AbsorbAnswer self.old (cow_value part.entry) (without_undo result) self.new }
        ensures back { IfOk result (λ absorbed. LeadsBack self.new absorbed.undo self.old) }
        ensures nothing { IfOk result (λ absorbed. IsNothing absorbed.change → self.new ≡ self.old) }
        ensures growth { IfOk result (λ absorbed. IsNothing absorbed.change
            ⊎ IsGrowthBeforeFault self.old (cow_value part.entry)) }
        ensures memory { IsErrOf result Fault.NoMemory → IsGrowthBeforeFault self.old (cow_value part.entry) }
        ensures valid { IsValid self.old }
        ensures still_valid { IsValid self.new }
    {
        let mut part = part;
        let (changesets, markers) = take_lists(&mut part);
        let before = self.store.len();
        let markers = match self.store.absorb(markers) {
            Ok(markers) => markers,
            Err(NoMemory) => return Err(Fault::NoMemory),
        };
        let absorbed = self.history.absorb_with_undo(changesets, &part.bounds);
        keep_or_forget(&mut self.store, before, markers, absorbed)
    }

    /// Takes an absorption or a join back: the replica is as it was before it. Nothing may have changed it since. It
    /// takes no memory, and costs what was taken in.
    pub fn take_back(&mut self, undo: Undo)
        requires { (s : ReplicaState) × LeadsBack self.old undo s }
        ensures back { (s : ReplicaState) → LeadsBack self.old undo s → self.new ≡ s }
        ensures still_valid { IsValid self.new }
    {
        let Undo { history, markers } = undo;
        self.history.take_back(history);
        self.store.truncate(markers);
    }

    /// Takes in all that another replica holds: the replica goes to the least state above both, the union of the
    /// changesets with the lowest phases and of the markers. Two changesets under one id are refused as a collision; a
    /// refusal leaves the replica as it was.
    pub fn join(&mut self, other: &Replica) -> Result<(), Fault>
        ensures answer { JoinAnswer self.old other.now result self.new }
        ensures memory { IsErrOf result Fault.NoMemory → IsGrowthBeforeFault self.old (part_of other.now) }
        ensures valid { IsValid self.old }
        ensures other_valid { IsValid other.now }
        ensures still_valid { IsValid self.new }
    {
        match self.join_with_undo(other) {
            Ok(_) => Ok(()),
            Err(fault) => Err(fault),
        }
    }

    /// Takes in all that another replica holds as [`join`](Replica::join) does, and gives out what takes that back.
    pub fn join_with_undo(&mut self, other: &Replica) -> Result<Undo, Fault>
        ensures answer { JoinAnswer self.old other.now (join_without_undo result) self.new }
        ensures back { IfOk result (λ undo. LeadsBack self.new undo self.old) }
        ensures growth { OnOk result (IsGrowthBeforeFault self.old (part_of other.now) ⊎ (self.new ≡ self.old)) }
        ensures memory { IsErrOf result Fault.NoMemory → IsGrowthBeforeFault self.old (part_of other.now) }
        ensures valid { IsValid self.old }
        ensures other_valid { IsValid other.now }
        ensures still_valid { IsValid self.new }
    {
        let held = self.store.len();
        match self.store.join(&other.store) {
            Ok(()) => {}
            Err(NoMemory) => return Err(Fault::NoMemory),
        }
        match self.history.join_with_undo(&other.history) {
            Ok(history) => Ok(Undo {
                history,
                markers: held,
            }),
            Err(fault) => {
                self.store.truncate(held);
                Err(fault)
            }
        }
    }

    /// Whether another replica holds all that this one holds, with phases no higher.
    pub fn is_below(&self, other: &Replica) -> bool
        ensures answer { IsTrue result ↔ Below self.now other.now }
        ensures valid { IsValid self.now }
        ensures other_valid { IsValid other.now }
    {
        // Who holds more isn't below: that takes no look at what is held.
        let markers = self.store.markers();
        if markers.len() > other.store.len() {
            return false;
        }
        self.history.is_below(&other.history) && self.store.is_below(&other.store)
    }

    /// Whether another replica is in the same state: it holds the same changesets in the same phases, and the same
    /// markers.
    pub fn is_same_state(&self, other: &Replica) -> bool
        ensures { IsTrue result ↔ IsSameState self.now other.now }
    {
        self.is_below(other) && other.is_below(self)
    }
}

// Where the history was changed, tells of the markers too, and takes them back with it; where it refused, the store
// forgets those from the place `before` on.
#[inline(always)]
fn keep_or_forget(
    store: &mut Store,
    before: usize,
    markers: NewPlaces,
    absorbed: Result<Absorbed<hg_history::Change, hg_history::Undo>, Fault>,
) -> Result<Absorbed<Change, Undo>, Fault>
    ensures { KeepAnswer before markers.items absorbed store.old result store.new }
{
    match absorbed {
        Ok(Absorbed { change, undo }) => Ok(Absorbed {
            change: Change {
                added: change.added,
                lowered: change.lowered,
                markers,
            },
            undo: Undo {
                history: undo,
                markers: before,
            },
        }),
        Err(fault) => {
            store.truncate(before);
            Err(fault)
        }
    }
}
