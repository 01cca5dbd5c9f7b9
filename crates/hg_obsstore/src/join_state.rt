//! Stores as states that join.
//!
//! What a store contains is the set of its markers, free of the order in which they came: for each marker, whether it
//! is held. So two stores that are below each other have one content.
ghost use Rattle.std.specs.Prelude.{⊤, ◌≡◌, ◌↔◌, IsTrue, IsOkAnd};
ghost use Rattle.hg_marker.specs.Fields.{Fields};
ghost use Rattle.hg_obsstore.specs.Growth.{holds, united, AreNewPlaces};
ghost use Rattle.hg_obsstore.specs.Sets.{IsSet, IsWithin, HasAll, IsUnion, sets_ordered, stays_within, union_absorbed};
ghost use Rattle.hg_obsstore.specs.Sets.{union_commutes, union_associates, union_idempotent, union_least, union_again};
ghost use Rattle.hg_obsstore.specs.Sets.{union_swap};

use crate::store::{NewPlaces, Store};
use hg_join::{JoinState, NoMemory};
use hg_marker::Marker;
use std::borrow::CowSlice;

impl JoinState for Store {
    type Part = Vec<Marker>;

    /// The places of the new markers, each once, ascending.
    type Change = NewPlaces;

    type Fault = NoMemory;

    ghost use Rattle.std.specs.Prelude.{Bool};

    // Whether each marker is held: two stores with one content tell of the same markers at every look-up.
    ghost Content = { Fields → Bool };

    ghost content = { holds };

    // Any set of markers, so the least is the least of all sets.
    ghost IsValid = { IsSet };

    ghost Below = { IsWithin };

    ghost Joined = { IsUnion };

    // Any two stores join.
    ghost Collides = { λ f g fault. ⊥ };

    ghost PartContent = { Fields → Bool };

    ghost part_content = { λ p. holds p.items };

    ghost Covers = { HasAll };

    // Any markers can be taken.
    ghost Admits = { λ f p. ⊤ };

    ghost After = { IsUnion };

    ghost IsFirstFault = { λ f p fault. ⊥ };

    ghost Tells = { λ old part places new. (new ≡ united old part.items) × AreNewPlaces old new places.items };

    ghost IsWantOfMemory = { λ fault. ⊤ };

    ghost ordered = { sets_ordered };

    ghost stays_covered = { stays_within };

    ghost absorbed = { union_absorbed };

    ghost after_is_admitted = { λ a b p v h. tt };

    ghost faultless = { λ a p fault v admitted h. h };

    ghost covered_is_admitted = { λ a p v c. tt };

    ghost apart = { λ a b c fault v w joined h. h };

    ghost collides_for_good = { λ a b c fault u v w p q h. h };

    ghost memory_is_no_fault = { λ a p fault v w h. h };

    ghost memory_is_no_collision = { λ a b fault u v w h. h };

    ghost commutes = { λ a b c v w. (union_commutes a b c, union_commutes b a c) };

    ghost associates = { λ a b c abc u v w. union_associates a b c abc };

    ghost idempotent = { λ a v. union_idempotent a };

    ghost least = { λ a b c v w. union_least a b c };

    ghost again = { union_again };

    ghost swap = { union_swap };

    fn copy(&self) -> Result<Store, NoMemory> {
        Store::copy(self)
    }

    fn absorb(&mut self, part: &Vec<Marker>) -> Result<NewPlaces, NoMemory> {
        Store::absorb(self, CowSlice::Borrowed(part))
    }

    fn absorb_owned(&mut self, part: Vec<Marker>) -> Result<NewPlaces, NoMemory> {
        Store::absorb(self, CowSlice::Owned(part))
    }

    fn join(&mut self, other: &Store) -> Result<(), NoMemory> {
        Store::join(self, other)
    }

    fn below(&self, other: &Store) -> Result<bool, NoMemory>
        // It takes no memory, so it is never refused.
        ensures { IsOkAnd result (λ answer. IsTrue answer ↔ IsWithin (holds self.now) (holds other.now)) }
    {
        Ok(self.is_below(other))
    }
}
