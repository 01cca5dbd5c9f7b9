//! Texts by key, as a map: what the metadata of a marker is made of.
//!
//! Any byte string may be a key or a value here; which of them a marker can have is asked when the marker is made.
ghost use Rattle.std.specs.Prelude.{◌≡◌, ◌++◌, ◌^◌, ◌-◌, OnOk, OnErr, length, min};
ghost use Rattle.std.specs.FinMap as finite;
ghost use Rattle.std.specs.List.{list_any};
ghost use Rattle.hg_marker.specs.Metadata.{written, piece, is_nul};
ghost use Rattle.hg_marker.specs.Making.{has_bad_key, has_bad_value, ends_key};
ghost use Rattle.hg_marker.specs.Written.{with_piece};

use std::alloc::{AllocError, Global};
use std::collections::BTreeMap;
use std::marker::Model;

/// Values by key, both byte strings.
#[derive(Drop, Debug)]
pub struct TextMap {
    alloc: Global,
    texts: BTreeMap<Vec<u8>, Vec<u8>>,
}

impl Model for TextMap {
    ghost use Rattle.std.specs.Prelude.{List, ℕ, IsTrue};
    ghost use Rattle.std.specs.Coded.{coded_list, coded_ℕ};
    ghost use Rattle.std.specs.FinMap as map;
    ghost use Rattle.hg_marker.specs.Texts.{Texts, bytes_cmp, entry_bytes};

    ghost Value = { Texts };

    ghost coded = { map.code (coded_list coded_ℕ) (coded_list coded_ℕ) };

    ghost view = { λ a. map.from_sorted (entry_bytes a.texts.entries) };

    ghost invariant = { λ a. IsTrue (map.is_sorted bytes_cmp (entry_bytes a.texts.entries)) };
}

impl TextMap {
    /// No keys.
    pub fn new(alloc: Global) -> TextMap
        ensures { result ≡ finite.empty }
    {
        TextMap {
            alloc,
            texts: BTreeMap::new(alloc),
        }
    }

    /// Sets the value of a key. Without memory nothing changes.
    pub fn insert(&mut self, key: &[u8], value: &[u8]) -> Result<(), AllocError>
        ensures ok { OnOk result (self.new ≡ finite.insert self.old key.now value.now) }
        ensures err { OnErr result (self.new ≡ self.old) }
    {
        let key = Vec::from_slice(self.alloc, key)?;
        let value = Vec::from_slice(self.alloc, value)?;
        self.texts.insert(key, value)?;
        Ok(())
    }

    // Where the memory comes from.
    pub(crate) fn allocator(&self) -> Global {
        self.alloc
    }

    // Whether a key holds a colon or a NUL.
    pub(crate) fn has_bad_key(&self) -> bool
        ensures { result ≡ has_bad_key (finite.entries self.now) }
    {
        for (key, _) in &self.texts {
            if ends_key(key) {
                return true;
            }
        }
        false
    }

    // Whether a value holds a NUL.
    pub(crate) fn has_bad_value(&self) -> bool
        ensures { result ≡ has_bad_value (finite.entries self.now) }
    {
        for (_, value) in &self.texts {
            if has_nul(value) {
                return true;
            }
        }
        false
    }

    // How many bytes the texts take as written.
    pub(crate) fn written_len(&self) -> usize
        ensures { result ≡ min (length (written self.now)) (2 ^ 64 - 2) }
    {
        let mut len: usize = 0;
        for (key, text) in &self.texts {
            len = len
                .saturating_add(key.len())
                .saturating_add(text.len())
                .saturating_add(2);
        }
        len.saturating_sub(1)
    }

    // Appends the texts as they are written: the pieces, ascending by key, joined by NUL.
    pub(crate) fn write_onto(&self, out: &mut Vec<u8>) -> Result<(), AllocError>
        ensures { OnOk result (out.new.items ≡ out.old.items ++ written self.now) }
    {
        let mut first = true;
        for (key, value) in &self.texts {
            if !first {
                out.push(0)?;
            }
            first = false;
            write_piece(out, key, value)?;
        }
        Ok(())
    }
}

// Appends a key and its value, with a colon between them.
fn write_piece(out: &mut Vec<u8>, key: &[u8], value: &[u8]) -> Result<(), AllocError>
    ensures { OnOk result (out.new.items ≡ out.old.items ++ piece (key.now, value.now)) }
{
    out.extend_from_slice(key)?;
    out.push(b':')?;
    out.extend_from_slice(value)
}

// Appends an entry, behind a NUL where something stands before it.
pub(crate) fn push_entry(out: &mut Vec<u8>, key: &[u8], value: &[u8]) -> Result<(), AllocError>
    ensures { OnOk result (out.new.items ≡ with_piece out.old.items (key.now, value.now)) }
{
    if !out.is_empty() {
        out.push(0)?;
    }
    write_piece(out, key, value)
}

// Whether the bytes hold a colon or a NUL.
fn ends_key(bytes: &[u8]) -> bool
    ensures { result ≡ list_any ends_key bytes.now }
{
    bytes.iter().any(|byte| *byte == 0 || *byte == b':')
}

// Whether the bytes hold a NUL.
pub(crate) fn has_nul(bytes: &[u8]) -> bool
    ensures { result ≡ list_any is_nul bytes.now }
{
    bytes.iter().any(|byte| *byte == 0)
}
