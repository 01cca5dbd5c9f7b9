//! The places of two parents in two numbers.
ghost use Rattle.std.specs.Prelude.{◌≡◌, ◌<◌, ◌-◌, ◌^◌, ℕ, Some};
ghost use Rattle.hg_graph.specs.Links.{IsOneOf};
ghost use Rattle.hg_graph.specs.Packed.{place_in};

use crate::graph::ParentPlaces;
use std::marker::Model;

/// The places of a changeset's parents: 0 for an absent one, and otherwise the place and one more. Contracts see the
/// places.
#[derive(Drop)]
pub struct PackedPlaces {
    first: usize,
    second: usize,
}

impl Model for PackedPlaces {
    ghost use Rattle.hg_graph.specs.declared.graph.ParentPlaces.{ParentPlaces};
    ghost use Rattle.hg_graph.specs.Packed.{place_in};

    ghost Value = { ParentPlaces };

    ghost view = { λ p. record { first = place_in p.first; second = place_in p.second } };
}

impl PackedPlaces {
    /// Packs places that aren't the greatest number.
    pub fn pack(places: ParentPlaces) -> PackedPlaces
        requires { (k : ℕ) → IsOneOf places k → k < 2 ^ 64 - 1 }
        ensures { result ≡ places }
    {
        PackedPlaces {
            first: pack(places.first),
            second: pack(places.second),
        }
    }

    pub fn unpack(&self) -> ParentPlaces
        ensures { result ≡ self.now }
    {
        ParentPlaces {
            first: self.first.checked_sub(1),
            second: self.second.checked_sub(1),
        }
    }
}

fn pack(place: Option<usize>) -> usize
    requires { (k : ℕ) → place ≡ Some k → k < 2 ^ 64 - 1 }
    ensures { place_in result ≡ place }
{
    match place {
        Some(place) => place + 1,
        None => 0,
    }
}
