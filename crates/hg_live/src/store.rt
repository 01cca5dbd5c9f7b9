//! What readers of a node see, what changes it, and what is known of it.
ghost use Rattle.std.specs.Prelude.{◌≡◌, ◌++◌, ◌∷◌, [], IfOk, MatchBool};
ghost use mathlib.Core.List.{IsPrefix};
ghost use Rattle.hg_live.specs.After.{IsAfter};

use crate::entry::{Entry, accept};
use crate::name::NodeName;
use hg_join::{JoinState, NoMemory};
use hg_journal::{Front, Journal};
use hg_peer::Peer;
use left_right::{Absorb, WriteHandle};
use std::alloc::AllocError;
use std::marker::Model;
use std::sync::Wait;

/// An entry that was accepted, with the journal before it and after it.
#[derive(Drop)]
pub struct Step<K: NodeName> {
    pub(crate) entry: Entry,
    pub(crate) before: Front<K, Entry>,
    pub(crate) after: Front<K, Entry>,
    ghost next: { after ≡ before ++ entry ∷ [] },
}

/// A state, and the entries that lead to it. Contracts see both.
pub struct Published<K: NodeName> {
    peer: Peer,
    front: Front<K, Entry>,
}

// Whoever owns one calls this once, and is proved without a look at each collection in it.
impl<K: NodeName> Drop for Published<K> {
    fn drop(self) {
        let Published { peer: _, front: _ } = self;
    }
}

impl<K: NodeName> Model for Published<K> {
    ghost use Rattle.std.specs.Coded.{codes};
    ghost use Rattle.hg_marker.specs.Fields.{fields_code};
    ghost use Rattle.hg_live.specs.After.{IsAfter};
    ghost use Rattle.hg_live.specs.NodeViews.{PublishedView};

    ghost Value = { PublishedView };

    ghost coded = { Prim.hlevel (codes, fields_code) };

    ghost view = { λ p. record { entries = p.front; state = p.peer } };

    ghost invariant = { λ p. IsAfter K.opening p.front p.peer };
}

impl<K: NodeName> Published<K> {
    // What is published before any entry was accepted.
    pub(crate) fn new(peer: Peer, front: Front<K, Entry>) -> Published<K>
        requires state { peer ≡ K.opening }
        requires entries { front ≡ [] }
        ensures { result ≡ record { entries = []; state = peer } }
    {
        Published { peer, front }
    }

    // The state.
    pub(crate) fn peer(&self) -> &Peer
        ensures state { result.now ≡ self.now.state }
        ensures after { IsAfter K.opening self.now.entries self.now.state }
    {
        &self.peer
    }

    // The entries, as whoever sees them now knows them.
    pub(crate) fn sight(&self) -> Sight<K>
        ensures { result ≡ self.now.entries }
    {
        Sight {
            front: self.front.again(),
        }
    }
}

/// What somebody has seen of the entries that are published. It is had from what is published alone, but for one that
/// has seen none. Contracts see the entries.
pub struct Sight<K: NodeName> {
    front: Front<K, Entry>,
}

// Whoever owns one calls this once, and is proved without a look at each collection in it.
impl<K: NodeName> Drop for Sight<K> {
    fn drop(self) {
        let Sight { front: _ } = self;
    }
}

impl<K: NodeName> Model for Sight<K> {
    ghost use Rattle.std.specs.Prelude.{List};
    ghost use Rattle.std.specs.Coded.{codes};
    ghost use Rattle.hg_marker.specs.Fields.{fields_code};
    ghost use Rattle.hg_live.specs.declared.entry.Entry.{Entry};

    ghost Value = { List Entry };

    ghost coded = { Prim.hlevel (codes, fields_code) };

    ghost view = { λ s. s.front };
}

impl<K: NodeName> Sight<K> {
    // That of somebody who has seen no entry.
    pub(crate) fn none(start: &Front<K, Entry>) -> Sight<K>
        requires { start.now ≡ [] }
        ensures { result ≡ [] }
    {
        Sight {
            front: start.again(),
        }
    }

    // The entries.
    pub(crate) fn front(&self) -> &Front<K, Entry>
        ensures { result.now ≡ self.now }
    {
        &self.front
    }

    // A copy.
    pub(crate) fn again(&self) -> Sight<K>
        ensures { result ≡ self.now }
    {
        Sight {
            front: self.front.again(),
        }
    }

    // Whether this is no longer than the other, and so begins it. Else the other begins it.
    pub(crate) fn begins(&self, other: &Sight<K>) -> bool
        ensures { MatchBool result (IsPrefix self.now other.now) (IsPrefix other.now self.now) }
    {
        self.front.begins(&other.front)
    }

    // The longer of two, which the other begins.
    pub(crate) fn longer(&self, other: &Sight<K>) -> Sight<K>
        ensures this { IsPrefix self.now result }
        ensures that { IsPrefix other.now result }
    {
        Sight {
            front: self.front.longer(&other.front),
        }
    }
}

impl<K: NodeName> Absorb<Step<K>> for Published<K> {
    type State = [Entry; 0];

    ghost state = { λ x. x.entries };

    ghost applied = { λ s step. step.after };

    fn absorb_first(&mut self, step: &Step<K>, _other: &Published<K>) -> Result<(), AllocError> {
        if !self.front.is_same(&step.before) {
            return Err(AllocError);
        }
        match accept(&mut self.peer, &step.entry) {
            Ok(()) => {
                self.front = step.after.again();
                Ok(())
            }
            Err(_) => Err(AllocError),
        }
    }
}

/// The writer of a node's store.
pub type Writer<K, R> = WriteHandle<Published<K>, Step<K>, R>;

// The opening state twice, as it is published before any entry was accepted.
pub(crate) fn both_published<K: NodeName>(
    opening: &Peer,
    journal: &Journal<K, Entry>,
) -> Result<(Published<K>, Published<K>), NoMemory>
    requires opening { opening.now ≡ K.opening }
    requires journal { journal.now ≡ [] }
    ensures { IfOk result (λ both. (both.0 ≡ record { entries = []; state = opening.now }) × (both.1 ≡ both.0)) }
{
    let first = Published::new(opening.copy()?, journal.front());
    let second = Published::new(opening.copy()?, journal.front());
    Ok((first, second))
}

/// What a node publishes by. Contracts see the entries that readers see, and those that wait in it, in their order.
pub trait Publisher {
    ghost use Rattle.std.specs.Prelude.{List};
    ghost use Rattle.hg_live.specs.declared.entry.Entry.{Entry};

    /// The entries that readers see.
    ghost shown: { Self → List Entry };

    /// The entries that wait in it.
    ghost held: { Self → List Entry };
}

impl<K: NodeName, R: Wait + Drop> Publisher for Writer<K, R> {
    ghost use Rattle.left_right.specs.Handles.{published, pending};
    ghost use Rattle.std.specs.Prelude.{map};

    ghost shown = { λ w. (published w).entries };

    ghost held = { λ w. map (λ step. step.entry) (pending w) };
}

/// Of a node that is only named, as by a look through a pass: `Node::<K, (), ()>::read(pass, id)`.
impl Publisher for () {
    ghost use Rattle.std.specs.Prelude.{[]};

    ghost shown = { λ _. [] };

    ghost held = { λ _. [] };
}
