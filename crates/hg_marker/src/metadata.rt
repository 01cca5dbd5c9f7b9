//! The metadata of a marker.
//!
//! Metadata is a map from keys to values, both byte strings. It is kept as its one written spelling: pieces
//! `key:value`, ascending by key, joined by NUL. So equal metadata has equal bytes, and a value is found by a walk over
//! the pieces. What can't be written is no metadata: it is refused where a marker is made of it.
ghost use Rattle.std.specs.Prelude.{◌≡◌, IfOk, option_copied, true, false};
ghost use Rattle.std.specs.FinMap as finite;
ghost use Rattle.std.specs.FinMap.{find};
ghost use Rattle.hg_marker.specs.Texts.{bytes_cmp};
ghost use Rattle.hg_marker.specs.Metadata.{written, texts, pieces};
ghost use Rattle.hg_marker.specs.Parents.{names_parents};
ghost use Rattle.hg_marker.specs.Survey.{IsSurvey};
ghost use Rattle.hg_marker.specs.Making.{has_bad_value, is_writable};
ghost use Rattle.hg_marker.specs.Operation.{note_entries, note_texts};

use crate::note::Note;
use crate::pieces::{Entries, Survey, read_texts, survey_of};
use crate::text_map::TextMap;
use std::alloc::{AllocError, Global};
use std::marker::Model;

/// Values by key, as a marker has them.
#[derive(Drop, Debug)]
pub struct Metadata {
    bytes: Vec<u8>,
}

impl Model for Metadata {
    ghost use Rattle.std.specs.Prelude.{List, ℕ};
    ghost use Rattle.std.specs.Coded.{coded_list, coded_ℕ};
    ghost use Rattle.std.specs.FinMap as map;
    ghost use Rattle.hg_marker.specs.Texts.{Texts};
    ghost use Rattle.hg_marker.specs.Metadata.{texts, pieces};
    ghost use Rattle.hg_marker.specs.Written.{IsWritten};

    ghost Value = { Texts };

    ghost coded = { map.code (coded_list coded_ℕ) (coded_list coded_ℕ) };

    ghost view = { λ a. texts (pieces a.bytes.items) };

    ghost invariant = { λ a. IsWritten a.bytes.items };
}

impl PartialEq for Metadata {
    ghost use Rattle.std.specs.Cmp.{partial_equiv_from_equiv};
    ghost use Rattle.hg_marker.specs.Same.{same_texts, texts_equivalence};

    ghost eq = { same_texts };

    ghost laws = { partial_equiv_from_equiv texts_equivalence };

    fn eq(&self, other: &Metadata) -> bool {
        self.bytes == other.bytes
    }
}

impl Metadata {
    // The metadata of a map, for which so much room is made.
    pub(crate) fn of_map(texts: &TextMap, room: usize) -> Result<Metadata, AllocError>
        requires { is_writable texts.now ≡ true }
        ensures { IfOk result (λ all. all ≡ texts.now) }
    {
        let mut bytes = Vec::with_capacity(texts.allocator(), room)?;
        texts.write_onto(&mut bytes)?;
        Ok(Metadata { bytes })
    }

    // The metadata of what is noted of an operation, for which so much room is made.
    pub(crate) fn of_note(
        alloc: Global,
        note: &Note<'_>,
        room: usize,
    ) -> Result<Metadata, AllocError>
        requires { has_bad_value (note_entries note.now) ≡ false }
        ensures { IfOk result (λ all. all ≡ note_texts note.now) }
    {
        let mut bytes = Vec::with_capacity(alloc, room)?;
        note.write(&mut bytes)?;
        Ok(Metadata { bytes })
    }

    // The metadata that bytes spell, of which this was found, and whether a key says something of parents.
    pub(crate) fn read(
        alloc: Global,
        bytes: &[u8],
        found: Survey,
    ) -> Result<(Metadata, bool), AllocError>
        requires { IsSurvey found bytes.now }
        ensures metadata { IfOk result (λ read. read.0 ≡ texts (pieces bytes.now)) }
        ensures parents { IfOk result (λ read. read.1 ≡ names_parents read.0) }
    {
        if found.is_written {
            let bytes = Vec::from_slice(alloc, bytes)?;
            return Ok((Metadata { bytes }, found.names_parents));
        }
        let texts = read_texts(alloc, bytes)?;
        let metadata = Metadata::of_map(&texts, texts.written_len())?;
        let names_parents = metadata.names_parents();
        Ok((metadata, names_parents))
    }

    // Where the memory comes from.
    pub(crate) fn allocator(&self) -> Global {
        *self.bytes.allocator()
    }

    // How it is written.
    pub(crate) fn as_bytes(&self) -> &[u8]
        ensures { result.now ≡ written self.now }
    {
        &self.bytes
    }

    /// The keys and their values, ascending by key.
    pub fn iter(&self) -> Entries<'_>
        ensures { result ≡ finite.entries self.now }
    {
        Entries::new(&self.bytes)
    }

    // Whether a key says something of parents.
    pub(crate) fn names_parents(&self) -> bool
        ensures { result ≡ names_parents self.now }
    {
        match survey_of(&self.bytes) {
            Some(found) => found.names_parents,
            None => false,
        }
    }

    /// The value of a key.
    pub fn get(&self, key: &[u8]) -> Option<&[u8]>
        ensures { option_copied result ≡ finite.get self.now key.now }
    {
        value_in(self.iter(), key)
    }

    /// Equal metadata.
    pub fn copy(&self) -> Result<Metadata, AllocError>
        ensures { IfOk result (λ copy. copy ≡ self.now) }
    {
        let bytes = self.bytes.clone()?;
        Ok(Metadata { bytes })
    }
}

// The value of a key among these entries.
fn value_in<'a>(entries: Entries<'a>, key: &[u8]) -> Option<&'a [u8]>
    ensures { option_copied result ≡ find bytes_cmp key.now entries.entry }
{
    for (found, value) in entries {
        if found == key {
            return Some(value);
        }
    }
    None
}
