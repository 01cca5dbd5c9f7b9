//! The sets of changesets of each kind.
ghost use Rattle.std.specs.Prelude.{◌≡◌, IfOk, OnOk, OnErr};
ghost use Rattle.hg_replica.specs.State.{ReplicaState};
ghost use Rattle.hg_replica.specs.Content.{Content, content_of};
ghost use Rattle.hg_instab.specs.Changed.{IsChangedTo};
ghost use Rattle.hg_instab.specs.Instabilities.{AreInstabilities, InstabilitySets};
ghost use Rattle.hg_instab.specs.Turns.{AreTurns, AreStages, HaveCome, AreThen, LeadTo, GainsExtinct};
ghost use Rattle.hg_instab.specs.Turns.{IsTurningOf, TurnsTo};

use crate::among::{current_among, obsolete_nodes, outside, set_of};
use crate::child_hints::ChildHints;
use crate::divergence::divergent_within;
use crate::first::{after_public_ids, near_fork_ids};
use crate::orphans::{orphan_nodes, suspended_nodes};
use crate::quick::quick_turning;
use crate::turn::{put, take_back};
use crate::turning::Turning;
use crate::turns::Turns;
use hg_changeset::Node;
use hg_replica::{Change, Replica};
use std::alloc::{AllocError, Global};
use std::collections::BTreeSet;
use std::marker::Model;
use std::mem;

/// The instabilities of a replica: for each kind the changesets that are so. Contracts see the six sets, and two beside
/// them by which a change is told: the ids that come after something public, and those near forks.
pub struct Instabilities {
    alloc: Global,
    obsolete: BTreeSet<Node>,
    orphan: BTreeSet<Node>,
    suspended: BTreeSet<Node>,
    extinct: BTreeSet<Node>,
    phase_divergent: BTreeSet<Node>,
    content_divergent: BTreeSet<Node>,
    after_public: BTreeSet<Node>,
    near_forks: BTreeSet<Node>,
    hints: ChildHints,
}

// Whoever owns them calls this once, and is proved without a look at each set.
impl Drop for Instabilities {
    fn drop(self) {
        let Instabilities {
            alloc: _,
            obsolete: _,
            orphan: _,
            suspended: _,
            extinct: _,
            phase_divergent: _,
            content_divergent: _,
            after_public: _,
            near_forks: _,
            hints: _,
        } = self;
    }
}

impl Model for Instabilities {
    ghost use Rattle.hg_instab.specs.Instabilities.{InstabilitySets};

    ghost Value = { InstabilitySets };

    ghost view = { λ i. record {
      obsolete = i.obsolete.keys;
      orphan = i.orphan.keys;
      suspended = i.suspended.keys;
      extinct = i.extinct.keys;
      phase_divergent = i.phase_divergent.keys;
      content_divergent = i.content_divergent.keys;
      after_public = i.after_public.keys;
      near_forks = i.near_forks.keys;
    } };
}

impl Instabilities {
    /// The instabilities of what a replica holds now. It looks at each marker a few times, and at the descendants of
    /// obsolete changesets and the ancestors of orphans.
    pub fn from_scratch(alloc: Global, replica: &Replica) -> Result<Instabilities, AllocError>
        ensures { IfOk result (AreInstabilities (content_of replica.now)) }
    {
        let obsolete = obsolete_nodes(alloc, replica)?;
        let orphan = orphan_nodes(alloc, replica, &obsolete)?;
        let suspended = set_of(alloc, suspended_nodes(alloc, replica, &orphan)?)?;
        let extinct = outside(alloc, &obsolete, &suspended)?;
        let after_public = after_public_ids(alloc, replica)?;
        let phase_divergent = current_among(alloc, replica, &after_public)?;
        let near_forks = near_fork_ids(alloc, replica)?;
        let content_divergent = divergent_within(alloc, replica, &near_forks)?;
        Ok(Instabilities {
            alloc,
            obsolete: set_of(alloc, obsolete)?,
            orphan: set_of(alloc, orphan)?,
            suspended,
            extinct: set_of(alloc, extinct)?,
            phase_divergent: set_of(alloc, phase_divergent)?,
            content_divergent: set_of(alloc, content_divergent)?,
            after_public: set_of(alloc, after_public)?,
            near_forks: set_of(alloc, near_forks)?,
            hints: ChildHints::new(alloc),
        })
    }

    /// Equal sets.
    pub fn copy(&self) -> Result<Instabilities, AllocError>
        ensures { IfOk result (λ copy. copy ≡ self.now) }
    {
        Ok(Instabilities {
            alloc: self.alloc,
            obsolete: self.obsolete.clone()?,
            orphan: self.orphan.clone()?,
            suspended: self.suspended.clone()?,
            extinct: self.extinct.clone()?,
            phase_divergent: self.phase_divergent.clone()?,
            content_divergent: self.content_divergent.clone()?,
            after_public: self.after_public.clone()?,
            near_forks: self.near_forks.clone()?,
            hints: ChildHints::new(self.alloc),
        })
    }

    /// Brings the sets up to date with a change, where they were those of the replica before it. The replica is handed
    /// in as it is after the change, which is what absorbing a part answered. It costs what the change touches: what it
    /// added, lowered and marked, and from there on what turns. Where memory is refused, the sets are as they were.
    pub fn update(&mut self, replica: &Replica, change: &Change) -> Result<(), AllocError>
        ensures kept { OnOk result ((s : ReplicaState) → IsChangedTo s change.now replica.now
            → AreInstabilities (content_of s) self.old → AreInstabilities (content_of replica.now) self.new) }
        ensures unchanged { OnErr result (self.new ≡ self.old) }
    {
        replica.is_valid();
        if replica.store().markers().is_empty() {
            // Nothing is unstable, and nothing was.
            return Ok(());
        }
        let turning = self.turning(replica, change)?;
        self.turn(&turning)
    }

    // What the change turns: as a few look-ups tell, or else by asking again whatever can have turned.
    fn turning(&mut self, replica: &Replica, change: &Change) -> Result<Turning, AllocError>
        ensures of { IfOk result (IsTurningOf self.old) }
        ensures told { IfOk result (λ turning. (s : ReplicaState) → IsChangedTo s change.now replica.now
            → AreInstabilities (content_of s) self.old → TurnsTo (content_of replica.now) self.old turning) }
        ensures unchanged { self.new ≡ self.old }
    {
        match quick_turning(self, replica, change) {
            Some(turning) => Ok(turning),
            None => {
                let turns = self.asked(replica, change)?;
                Ok(Turning::Each(Box::new(self.alloc, turns)?))
            }
        }
    }

    // What the change turns in each set. The hints are noted at once: they are no part of the sets.
    fn asked(&mut self, replica: &Replica, change: &Change) -> Result<Turns, AllocError>
        ensures turns { IfOk result (AreTurns self.old) }
        ensures told { IfOk result (λ turns. (s : ReplicaState) → IsChangedTo s change.now replica.now
            → AreInstabilities (content_of s) self.old → LeadTo (content_of replica.now) self.old turns) }
        ensures unchanged { self.new ≡ self.old }
    {
        let mut hints = mem::replace(&mut self.hints, ChildHints::new(self.alloc));
        let turns = Turns::asked(self.alloc, self, &mut hints, replica, change);
        self.hints = hints;
        turns
    }

    // Has the sets turn, or none of them.
    fn turn(&mut self, turning: &Turning) -> Result<(), AllocError>
        requires { IsTurningOf self.old turning.now }
        ensures turned { OnOk result ((g : Content) → TurnsTo g self.old turning.now → AreInstabilities g self.new) }
        ensures unchanged { OnErr result (self.new ≡ self.old) }
    {
        match turning {
            Turning::Nothing => Ok(()),
            Turning::NewlyExtinct(node) => self.make_extinct(*node),
            Turning::Each(turns) => self.apply(turns),
        }
    }

    // Puts the node among the obsolete and the extinct ones, or leaves both sets as they are.
    fn make_extinct(&mut self, node: Node) -> Result<(), AllocError>
        ensures gained { OnOk result (GainsExtinct self.old (λ n. n ≡ node) self.new) }
        ensures unchanged { OnErr result (self.new ≡ self.old) }
    {
        let came = put(&mut self.obsolete, node)?;
        match put(&mut self.extinct, node) {
            Ok(_) => Ok(()),
            Err(refused) => {
                take_back(&mut self.obsolete, node, came);
                Err(refused)
            }
        }
    }

    // Has each set turn, or none.
    fn apply(&mut self, turns: &Turns) -> Result<(), AllocError>
        requires { AreTurns self.old turns.now }
        ensures then { OnOk result (AreThen self.old turns.now self.new) }
        ensures unchanged { OnErr result (self.new ≡ self.old) }
    {
        match self.come(turns) {
            Ok(()) => {
                self.go(turns);
                Ok(())
            }
            Err(error) => {
                self.give_back(turns);
                Err(error)
            }
        }
    }

    // Puts what comes into each set. Where memory is refused, some of it may have come.
    fn come(&mut self, turns: &Turns) -> Result<(), AllocError>
        ensures stages { AreStages turns.now self.old self.new }
        ensures all { OnOk result (HaveCome turns.now self.new) }
    {
        turns.obsolete.come(&mut self.obsolete)?;
        turns.orphan.come(&mut self.orphan)?;
        turns.suspended.come(&mut self.suspended)?;
        turns.extinct.come(&mut self.extinct)?;
        turns.phase_divergent.come(&mut self.phase_divergent)?;
        turns.content_divergent.come(&mut self.content_divergent)?;
        turns.after_public.come(&mut self.after_public)?;
        turns.near_forks.come(&mut self.near_forks)
    }

    // Takes what has come out of each set again.
    fn give_back(&mut self, turns: &Turns)
        ensures { (before : InstabilitySets) → AreTurns before turns.now → AreStages turns.now before self.old
            → self.new ≡ before }
    {
        turns.obsolete.give_back(&mut self.obsolete);
        turns.orphan.give_back(&mut self.orphan);
        turns.suspended.give_back(&mut self.suspended);
        turns.extinct.give_back(&mut self.extinct);
        turns.phase_divergent.give_back(&mut self.phase_divergent);
        turns
            .content_divergent
            .give_back(&mut self.content_divergent);
        turns.after_public.give_back(&mut self.after_public);
        turns.near_forks.give_back(&mut self.near_forks);
    }

    // Takes what goes out of each set.
    fn go(&mut self, turns: &Turns)
        ensures { (before : InstabilitySets) → AreTurns before turns.now → AreStages turns.now before self.old
            → HaveCome turns.now self.old → AreThen before turns.now self.new }
    {
        turns.obsolete.go(&mut self.obsolete);
        turns.orphan.go(&mut self.orphan);
        turns.suspended.go(&mut self.suspended);
        turns.extinct.go(&mut self.extinct);
        turns.phase_divergent.go(&mut self.phase_divergent);
        turns.content_divergent.go(&mut self.content_divergent);
        turns.after_public.go(&mut self.after_public);
        turns.near_forks.go(&mut self.near_forks);
    }

    /// Not public, and the predecessor of some marker: Mercurial's `obsolete`.
    pub fn obsolete(&self) -> &BTreeSet<Node>
        ensures { result.now.keys ≡ self.now.obsolete }
    {
        &self.obsolete
    }

    /// Neither public nor obsolete, with an obsolete ancestor: Mercurial's `orphan`.
    pub fn orphan(&self) -> &BTreeSet<Node>
        ensures { result.now.keys ≡ self.now.orphan }
    {
        &self.orphan
    }

    /// Obsolete, with a descendant that is an orphan: Mercurial's `suspended`.
    pub fn suspended(&self) -> &BTreeSet<Node>
        ensures { result.now.keys ≡ self.now.suspended }
    {
        &self.suspended
    }

    /// Obsolete and not suspended: Mercurial's `extinct`.
    pub fn extinct(&self) -> &BTreeSet<Node>
        ensures { result.now.keys ≡ self.now.extinct }
    {
        &self.extinct
    }

    /// Neither public nor obsolete, though steps over markers that aren't bumpedfix lead back to a public changeset:
    /// Mercurial's `phasedivergent`.
    pub fn phase_divergent(&self) -> &BTreeSet<Node>
        ensures { result.now.keys ≡ self.now.phase_divergent }
    {
        &self.phase_divergent
    }

    /// Neither public nor obsolete, though steps over markers lead back to something that became different changesets
    /// with the markers that are followed: Mercurial's `contentdivergent`.
    pub fn content_divergent(&self) -> &BTreeSet<Node>
        ensures { result.now.keys ≡ self.now.content_divergent }
    {
        &self.content_divergent
    }

    pub(crate) fn alloc(&self) -> Global {
        self.alloc
    }

    // The ids that something public precedes over markers that aren't bumpedfix, held or not.
    pub(crate) fn after_public(&self) -> &BTreeSet<Node>
        ensures { result.now.keys ≡ self.now.after_public }
    {
        &self.after_public
    }

    // Ids among which are all that two markers rewrote, and with an id all that markers name beside it.
    pub(crate) fn near_forks(&self) -> &BTreeSet<Node>
        ensures { result.now.keys ≡ self.now.near_forks }
    {
        &self.near_forks
    }
}
