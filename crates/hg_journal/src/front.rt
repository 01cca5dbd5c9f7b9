//! Beginnings of a journal.
ghost use Rattle.std.specs.Prelude.{◌≡◌, ◌≤◌, ◌⊎◌, ◌↔◌, length, MatchBool, IsTrue};
ghost use mathlib.Core.List.{IsPrefix};

use crate::name::JournalName;
use crate::rule::{Counted, Note};
use logbook::Seen;
use std::marker::{Model, PhantomData};

/// A beginning of the journal. Contracts see it as its entries.
#[derive(Drop)]
pub struct Front<K: JournalName, E> {
    pub(crate) count: u64,
    pub(crate) seen: Seen<Note<E>, u64, Counted>,
    pub(crate) of: PhantomData<K>,
}

impl<K: JournalName, E> Model for Front<K, E> {
    ghost use Rattle.std.specs.Prelude.{◌≡◌, ◌+◌, List, length};
    ghost use Rattle.hg_journal.specs.Rules.{entries};

    ghost Value = { List E };

    ghost view = { λ f. entries f.seen.log };

    ghost invariant = { λ f. (f.count ≡ length (entries f.seen.log)) × (f.seen.book ≡ K.book) };
}

impl<K: JournalName, E> Front<K, E> {
    /// How many entries it has.
    pub fn len(&self) -> u64
        ensures { result ≡ length self.now }
    {
        self.count
    }

    /// A copy.
    pub fn again(&self) -> Front<K, E>
        ensures { result ≡ self.now }
    {
        Front {
            count: self.count,
            seen: self.seen.again(),
            of: PhantomData,
        }
    }

    /// Whether this is no longer than another beginning of the same journal, and so begins it. Else the other begins
    /// it.
    pub fn begins(&self, other: &Front<K, E>) -> bool
        ensures prefix { MatchBool result (IsPrefix self.now other.now) (IsPrefix other.now self.now) }
        ensures exact { IsTrue result ↔ (length self.now ≤ length other.now) }
    {
        let mut both = self.seen.again();
        both.learn(&other.seen);
        self.count <= other.count
    }

    /// Whether the two are one beginning.
    #[tactic(auto, using(crate::proofs::Prefixes::prefix_both))]
    pub fn is_same(&self, other: &Front<K, E>) -> bool
        ensures same { IsTrue result → self.now ≡ other.now }
        ensures exact { IsTrue result ↔ (length self.now ≡ length other.now) }
    {
        self.begins(other) && other.begins(self)
    }

    /// The longer of two, which the other begins.
    #[tactic(auto, using(crate::proofs::Prefixes::prefix_self))]
    pub fn longer(&self, other: &Front<K, E>) -> Front<K, E>
        ensures one { (result ≡ self.now) ⊎ (result ≡ other.now) }
        ensures this { IsPrefix self.now result }
        ensures that { IsPrefix other.now result }
    {
        if self.begins(other) {
            other.again()
        } else {
            self.again()
        }
    }
}
