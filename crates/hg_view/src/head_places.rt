//! Heads: which places have no child, and which are heads of what is public.
ghost use Rattle.std.specs.Prelude.{◌≡◌, ◌<◌, ◌≤◌, ◌↔◌, ℕ, [], Contains, length, take};
ghost use Rattle.std.specs.Prelude.{IfOk, OnOk, OnErr};
ghost use Rattle.hg_phases.specs.State.{changesets, state_of};
ghost use Rattle.hg_replica.specs.State.{ReplicaState};
ghost use Rattle.hg_view.specs.declared.head_places.HeadPlaces.{HeadPlaces};
ghost use Rattle.hg_instab.specs.Changed.{IsChangedTo};
ghost use Rattle.hg_view.specs.Flags.{IsUp};
ghost use Rattle.hg_view.specs.HeadPlaces.{AreGrown, AreLong, AreHeadPlaces};

use crate::head_updates::{Among, update_heads};
use hg_phases::PlaceSet;
use hg_replica::{Change, Replica};
use std::alloc::{AllocError, Global};

/// The places of the changesets that have no child, and those of the public ones that have no public child.
#[derive(Drop)]
pub(crate) struct HeadPlaces {
    // How many places there are.
    len: usize,
    all: PlaceSet,
    public: PlaceSet,
}

impl HeadPlaces {
    /// The heads of a replica that holds nothing.
    pub(crate) fn new(alloc: Global) -> HeadPlaces
        ensures { AreHeadPlaces (state_of [] []) result }
    {
        HeadPlaces {
            len: 0,
            all: PlaceSet::new(alloc),
            public: PlaceSet::new(alloc),
        }
    }

    /// Equal heads.
    pub(crate) fn copy(&self) -> Result<HeadPlaces, AllocError>
        ensures { IfOk result (λ copy. copy ≡ self.now) }
    {
        Ok(HeadPlaces {
            len: self.len,
            all: self.all.copy()?,
            public: self.public.copy()?,
        })
    }

    /// The heads of what a replica holds. It looks at each changeset.
    pub(crate) fn of(alloc: Global, replica: &Replica) -> Result<HeadPlaces, AllocError>
        ensures { IfOk result (AreHeadPlaces replica.now.history) }
    {
        let mut heads = HeadPlaces::new(alloc);
        heads.grow(replica.graph().len())?;
        update_heads(replica, Among::Everything, &mut heads.all, 0, &[]);
        update_heads(replica, Among::Published, &mut heads.public, 0, &[]);
        Ok(heads)
    }

    /// How many places there is room for.
    pub(crate) fn len(&self) -> usize
        ensures { result ≡ self.now.len }
    {
        self.len
    }

    /// Makes room for so many places, of which [`follow`](HeadPlaces::follow) then tells whether they are heads. It
    /// takes no memory where none come, and where memory is refused nothing changes.
    #[inline(always)]
    pub(crate) fn grow(&mut self, bound: usize) -> Result<(), AllocError>
        requires long { AreLong self.old.len self.old }
        requires within { self.old.len ≤ bound }
        ensures long { OnOk result (AreLong bound self.new) }
        ensures grown { OnOk result (AreGrown self.old self.new) }
        ensures unchanged { OnErr result (self.new ≡ self.old) }
        ensures memory { OnErr result (self.old.len < bound) }
    {
        self.all.grow(bound)?;
        match self.public.grow(bound) {
            Ok(()) => {
                self.len = bound;
                Ok(())
            }
            Err(refused) => {
                self.all.truncate(self.len);
                Err(refused)
            }
        }
    }

    /// Takes the room back that [`grow`](HeadPlaces::grow) made, if nothing followed.
    pub(crate) fn truncate(&mut self, bound: usize)
        requires long { AreLong self.old.len self.old }
        requires within { bound ≤ self.old.len }
        ensures long { AreLong bound self.new }
        ensures all { self.new.all ≡ take bound self.old.all }
        ensures public { self.new.public ≡ take bound self.old.public }
        ensures back { (before : HeadPlaces) → AreGrown before self.old → AreLong bound before → self.new ≡ before }
    {
        self.len = bound;
        self.all.truncate(bound);
        self.public.truncate(bound);
    }

    /// Brings the heads up to date with a change, where they were those of the replica before it and room was made for
    /// what it added. The replica is handed in as it is after the change. It costs what was added and lowered, and
    /// takes no memory.
    #[inline(always)]
    pub(crate) fn follow(&mut self, replica: &Replica, change: &Change)
        requires { AreLong (length (changesets replica.now.history)) self.old }
        ensures { (s : ReplicaState) (before : HeadPlaces) → IsChangedTo s change.now replica.now
            → AreHeadPlaces s.history before → AreGrown before self.old → AreHeadPlaces replica.now.history self.new }
    {
        let first = replica.graph().len().saturating_sub(change.added.len());
        update_heads(replica, Among::Everything, &mut self.all, first, &[]);
        update_heads(
            replica,
            Among::Published,
            &mut self.public,
            first,
            &change.lowered,
        );
    }

    /// The places of the changesets that have no child, in no promised order.
    pub(crate) fn all(&self) -> &[usize]
        ensures { (k : ℕ) → Contains result.now k ↔ IsUp self.now.all k }
    {
        self.all.places()
    }

    /// The places of the public changesets that have no public child, in no promised order.
    pub(crate) fn public(&self) -> &[usize]
        ensures { (k : ℕ) → Contains result.now k ↔ IsUp self.now.public k }
    {
        self.public.places()
    }
}
