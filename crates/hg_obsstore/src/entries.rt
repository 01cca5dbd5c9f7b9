//! The places of markers by node.

ghost use Rattle.std.specs.Prelude.{◌≡◌, ◌↔◌, [], OnOk, OnErr, None, Some, Contains, slice_get};
ghost use Rattle.std.specs.Option.{option_copied};
ghost use Rattle.std.specs.List.{IsDistinct};
ghost use Rattle.indexmap.specs.IndexMap.{IsUnique, Updates};
ghost use Rattle.hg_changeset.specs.declared.node.Node.{Node};
ghost use Rattle.hg_changeset.specs.Node.{node_eq};
ghost use Rattle.hg_obsstore.specs.declared.index.Roles.{Roles};
ghost use Rattle.hg_obsstore.specs.Entries.{known, places_at, IsPlaced, ChangesPlaces};
ghost use Rattle.hg_obsstore.specs.Index.{with_last, without_last};

use crate::index::{Role, Roles};
use hg_changeset::Node;
use hg_node_set::{IdKeys, find_if_last, give_back_table};
use indexmap::IndexMap;
use indexmap::map::Entry;
use std::alloc::{AllocError, Global};
use std::marker::Model;

/// What is known of each node that has a place, and of no other.
///
/// A look-up costs about one hash of an id.
#[derive(Drop)]
pub struct Entries {
    table: IndexMap<Node, Roles, IdKeys>,
}

impl Model for Entries {
    ghost use Rattle.indexmap.specs.IndexMap.{IsUnique};
    ghost use Rattle.hg_changeset.specs.Node.{node_eq};
    ghost use Rattle.hg_obsstore.specs.Entries.{Table, ArePlaced};

    ghost Value = { Table };

    ghost view = { λ e. record { entries = e.table.entries } };

    ghost invariant = { λ e. IsUnique node_eq e.table × ArePlaced (record { entries = e.table.entries }) };
}

impl Entries {
    /// No entries. Ids are hashed by these keys.
    pub fn with_keys(alloc: Global, keys: IdKeys) -> Entries
        ensures { result ≡ record { entries = [] } }
    {
        Entries {
            table: IndexMap::with_hasher(alloc, keys),
        }
    }

    /// What ids are hashed by.
    pub fn keys(&self) -> IdKeys {
        *self.table.hasher()
    }

    /// The nodes that have a place.
    pub fn named(&self) -> &[Node]
        ensures exact { (n : Node) → Contains result.now n ↔ IsPlaced self.now n }
        ensures different { IsDistinct node_eq result.now }
    {
        self.table.keys().as_slice()
    }

    /// What is known of a node. What came last is found without a hash.
    pub fn find(&self, node: Node) -> Option<&Roles>
        ensures { option_copied result ≡ known self.now node }
    {
        match find_if_last(&self.table, node) {
            Some((_, roles)) => Some(roles),
            None => self.table.get(&node),
        }
    }

    /// Puts the place last for the node in the role, where it doesn't stand last.
    pub fn put(
        &mut self,
        alloc: Global,
        role: Role,
        node: Node,
        place: usize,
    ) -> Result<(), AllocError>
        ensures ok { OnOk result (ChangesPlaces (places_at self.old) (places_at self.new) role node
            (with_last (places_at self.old role node) place)) }
        ensures err { OnErr result ((other : Role) → places_at self.new other ≡ places_at self.old other) }
    {
        match self.table.entry(node)? {
            Entry::Occupied(known) => known.into_mut().put(alloc, role, place),
            Entry::Vacant(vacant) => {
                vacant.insert(Roles::one(role, place));
                Ok(())
            }
        }
    }

    /// Takes the place away from the node in the role, where it stands last. A node without a place is forgotten.
    pub fn take(&mut self, role: Role, node: Node, place: usize)
        ensures { ChangesPlaces (places_at self.old) (places_at self.new) role node
            (without_last (places_at self.old role node) place) }
    {
        match self.table.get_index_of(&node) {
            Some(number) => {
                let roles = &mut self.table[number];
                roles.take(role, place);
                if roles.is_empty() {
                    forget(&mut self.table, number);
                }
            }
            None => {}
        }
    }

    /// Gives room back of which little is left in use.
    pub fn give_back(&mut self)
        ensures { self.new ≡ self.old }
    {
        give_back_table(&mut self.table);
    }
}

// Forgets the entry of a number.
fn forget(table: &mut IndexMap<Node, Roles, IdKeys>, number: usize)
    ensures updates { (p : Node × Roles) → slice_get table.old.entries number ≡ Some p
        → Updates node_eq table.old table.new p.0 None }
    ensures unique { IsUnique node_eq table.new }
{
    let _ = table.swap_remove_index(number);
}
