//! Node ids with numbers.

ghost use Rattle.std.specs.Prelude.{◌≡◌, ◌++◌, ◌∷◌, [], length, take, IfOk, IfSome, OnOk, OnErr, Some, not, false};
ghost use Rattle.std.specs.Prelude.{slice_get};
ghost use Rattle.std.specs.List.{list_any, IsDistinct};
ghost use Rattle.hg_changeset.specs.Node.{node_eq};
ghost use Rattle.hg_node_set.specs.Keys.{insert_key, number_of, number_after};

use crate::keys::IdKeys;
use hg_changeset::Node;
use indexmap::IndexSet;
use std::alloc::{AllocError, Global};
use std::marker::Model;

/// Node ids, each once, in the order in which they came. An id has the number of its place. Contracts see the list.
///
/// A look-up costs about one hash of an id. Ids that were chosen to share their hashes are dear, so a set that takes
/// ids of strangers is made [`with_keys`](NodeSet::with_keys) that they don't know.
pub struct NodeSet {
    nodes: IndexSet<Node, IdKeys>,
}

// Whoever owns a set calls this once, and is proved without a look at each collection in it.
impl Drop for NodeSet {
    fn drop(self) {
        let NodeSet { nodes: _ } = self;
    }
}

impl Model for NodeSet {
    ghost use Rattle.hg_changeset.specs.Node.{node_eq};
    ghost use Rattle.indexmap.specs.IndexSet.{IsUnique};
    ghost use Rattle.hg_node_set.specs.Keys.{Keys};

    ghost Value = { Keys };

    ghost view = { λ s. record { keys = s.nodes.keys } };

    ghost invariant = { λ s. IsUnique node_eq s.nodes };
}

impl NodeSet {
    /// No ids. It takes its memory from the allocator, and hashes ids by the rule that everybody knows.
    pub fn new(alloc: Global) -> NodeSet
        ensures { result.keys ≡ [] }
    {
        NodeSet::with_keys(alloc, IdKeys::known())
    }

    /// No ids, which are hashed by these keys.
    pub fn with_keys(alloc: Global, keys: IdKeys) -> NodeSet
        ensures { result.keys ≡ [] }
    {
        NodeSet {
            nodes: IndexSet::with_hasher(alloc, keys),
        }
    }

    /// What ids are hashed by.
    pub fn keys(&self) -> IdKeys {
        *self.nodes.hasher()
    }

    /// The allocator that the set takes its memory from.
    pub fn allocator(&self) -> Global {
        *self.nodes.allocator()
    }

    /// How many ids there are.
    pub fn len(&self) -> usize
        ensures len { result ≡ length self.now.keys }
        ensures unique { IsDistinct node_eq self.now.keys }
    {
        self.nodes.len()
    }

    /// The ids, in the order in which they came.
    pub fn as_slice(&self) -> &[Node]
        ensures keys { result.now ≡ self.now.keys }
        ensures unique { IsDistinct node_eq self.now.keys }
    {
        self.nodes.as_slice()
    }

    /// Whether an id is among them.
    pub fn contains(&self, node: Node) -> bool
        ensures contains { result ≡ list_any (node_eq node) self.now.keys }
    {
        self.get_index_of(node).is_some()
    }

    /// The number of an id. What came last is found without a hash.
    pub fn get_index_of(&self, node: Node) -> Option<usize>
        ensures index { result ≡ number_of self.now.keys node }
        ensures unique { IsDistinct node_eq self.now.keys }
    {
        if let Some(number) = self.number_if_last(node) {
            return Some(number);
        }
        self.nodes.get_index_of(&node)
    }

    // The number of an id that came last. Mostly it is such a one that is asked of.
    fn number_if_last(&self, node: Node) -> Option<usize>
        ensures at { IfSome result (λ number. slice_get self.now.keys number ≡ Some node) }
        ensures unique { IsDistinct node_eq self.now.keys }
    {
        let number = self.nodes.len().checked_sub(1)?;
        match self.nodes.get_index(number) {
            Some(last) if node == *last => Some(number),
            _ => None,
        }
    }

    /// Puts an id last, unless it is there. Tells whether it is new. Where memory is refused nothing changes.
    pub fn insert(&mut self, node: Node) -> Result<bool, AllocError>
        ensures keys { OnOk result (self.new.keys ≡ insert_key self.old.keys node) }
        ensures added { IfOk result (λ new. new ≡ not (list_any (node_eq node) self.old.keys)) }
        ensures unique { IsDistinct node_eq self.new.keys }
        ensures err { OnErr result (self.new ≡ self.old) }
        ensures absent { OnErr result (list_any (node_eq node) self.old.keys ≡ false) }
    {
        let (_, new) = self.insert_full(node)?;
        Ok(new)
    }

    /// Puts an id last, unless it is there. Tells its number, and whether it is new. Where memory is refused nothing
    /// changes.
    #[inline(always)]
    pub fn insert_full(&mut self, node: Node) -> Result<(usize, bool), AllocError>
        ensures keys { OnOk result (self.new.keys ≡ insert_key self.old.keys node) }
        ensures index { IfOk result (λ r. r.0 ≡ number_after self.old.keys node) }
        ensures added { IfOk result (λ r. r.1 ≡ not (list_any (node_eq node) self.old.keys)) }
        ensures unique { IsDistinct node_eq self.new.keys }
        ensures err { OnErr result (self.new ≡ self.old) }
        ensures absent { OnErr result (list_any (node_eq node) self.old.keys ≡ false) }
    {
        if let Some(number) = self.number_if_last(node) {
            return Ok((number, false));
        }
        let found = self.nodes.insert_full(node)?;
        Ok(found)
    }

    /// Puts an id last that isn't there, and tells its number. Where memory is refused nothing changes.
    pub fn append(&mut self, node: Node) -> Result<usize, AllocError>
        requires { list_any (node_eq node) self.old.keys ≡ false }
        ensures keys { OnOk result (self.new.keys ≡ self.old.keys ++ node ∷ []) }
        ensures number { IfOk result (λ number. number ≡ length self.old.keys) }
        ensures err { OnErr result (self.new ≡ self.old) }
    {
        let number = self.nodes.len();
        self.nodes.insert(node)?;
        Ok(number)
    }

    /// Forgets the ids from a number on. It costs what is forgotten.
    pub fn truncate(&mut self, len: usize)
        ensures { self.new.keys ≡ take len self.old.keys }
    {
        self.nodes.truncate(len);
    }
}
