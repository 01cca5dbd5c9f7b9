//! What labels stand for.
ghost use Rattle.std.specs.Prelude.{◌≡◌, ◌<◌, List, ℕ, None, Some, OnErr, OnOk, if◌then◌else◌, true, length};
ghost use Rattle.std.specs.List.{list_all};
ghost use Rattle.hg_names.specs.Labels.{digits_behind, is_byte, is_short, labelled, text_value, AreSameLabels};
ghost use Rattle.hg_names.specs.Labels.{BindsNode};

use hg_changeset::Node;
use hg_node_set::IdKeys;
use indexmap::IndexMap;
use std::alloc::{AllocError, Global};

/// So many bytes a label has at most whose number is its key.
const SHORT: usize = 7;

/// What labels stand for: for each label, which is bytes, a node or nothing.
///
/// A look-up costs about one hash of a label. Labels that were chosen to share their hashes are dear, so whoever takes
/// labels of strangers makes the table [`with_keys`](Labels::with_keys) that they don't know.
pub struct Labels {
    // The labels of few bytes, by the numbers that they spell.
    short: IndexMap<u64, Node, IdKeys>,
    long: IndexMap<Vec<u8>, Node, IdKeys>,
}

// Whoever owns labels calls this once, and is proved without a look at each collection in them.
impl Drop for Labels {
    fn drop(self) {
        let Labels { short: _, long: _ } = self;
    }
}

impl Labels {
    /// No label is bound. It takes its memory from the allocator, and hashes labels by the rule that everybody knows.
    pub fn new(alloc: Global) -> Labels
        ensures { (label : List ℕ) → labelled result label ≡ None }
    {
        Labels::with_keys(alloc, IdKeys::known())
    }

    /// No label is bound. Labels are hashed by these keys.
    pub fn with_keys(alloc: Global, keys: IdKeys) -> Labels
        ensures { (label : List ℕ) → labelled result label ≡ None }
    {
        Labels {
            short: IndexMap::with_hasher(alloc, keys),
            long: IndexMap::with_hasher(alloc, keys),
        }
    }

    /// What the label stands for, if it is bound.
    #[inline(always)]
    pub fn get(&self, label: &[u8]) -> Option<Node>
        ensures { result ≡ labelled self.now label.now }
    {
        match short_key(label) {
            Some(key) => self.short.get(&key).copied(),
            None => self.long.get(label).copied(),
        }
    }

    /// Binds the label to the node, in place of what it stood for. Where memory is refused all labels stay as they
    /// were.
    pub fn bind(&mut self, label: &[u8], node: Node) -> Result<(), AllocError>
        ensures bound { OnOk result (BindsNode (labelled self.old) label.now node (labelled self.new)) }
        ensures unchanged { OnErr result (AreSameLabels (labelled self.old) (labelled self.new)) }
    {
        match short_key(label) {
            Some(key) => {
                self.short.insert(key, node)?;
            }
            None => bind_text(&mut self.long, label, node)?,
        }
        Ok(())
    }
}

// Binds the text to the node, in place of what it stood for.
fn bind_text(
    texts: &mut IndexMap<Vec<u8>, Node, IdKeys>,
    text: &[u8],
    node: Node,
) -> Result<(), AllocError>
    ensures bound { OnOk result (BindsNode (text_value texts.old) text.now node (text_value texts.new)) }
    ensures unchanged { OnErr result (AreSameLabels (text_value texts.old) (text_value texts.new)) }
{
    let text = Vec::from_slice(*texts.allocator(), text)?;
    texts.insert(text, node)?;
    Ok(())
}

// The key of a short label.
fn short_key(label: &[u8]) -> Option<u64>
    ensures { result ≡ if is_short label.now then Some (digits_behind 1 label.now) else None }
{
    if label.len() > SHORT {
        return None;
    }
    Some(key_of(label))
}

// The number that a short label spells: its bytes as digits of base 256, behind a one.
fn key_of(label: &[u8]) -> u64
    requires { length label.now < 8 }
    ensures key { result ≡ digits_behind 1 label.now }
    ensures bytes { list_all is_byte label.now ≡ true }
{
    let mut key = 1u64;
    for byte in label {
        key = key * 256 + *byte as u64;
    }
    key
}
