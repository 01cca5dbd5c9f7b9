//! What the metadata of a marker is made of.
ghost use Rattle.std.specs.Prelude.{◌≡◌, ◌≤◌, ◌-◌, ◌^◌, min, length, true, IfOk};
ghost use Rattle.std.specs.FinMap.{entries};
ghost use Rattle.hg_marker.specs.Making.{has_bad_key, has_bad_value, is_writable};
ghost use Rattle.hg_marker.specs.Metadata.{written};
ghost use Rattle.hg_marker.specs.Parents.{names_parents};
ghost use Rattle.hg_marker.specs.Source.{source_texts};

use crate::metadata::Metadata;
use crate::note::Note;
use crate::text_map::TextMap;
use std::alloc::{AllocError, Global};

// Texts of which metadata is made, where they can be written.
#[derive(Clone, Copy)]
pub(crate) enum Source<'a> {
    // Any texts.
    Map(&'a TextMap),
    // What is noted of an operation.
    Note(&'a Note<'a>),
}

impl Source<'_> {
    // Whether a key holds a colon or a NUL.
    pub(crate) fn has_bad_key(self) -> bool
        ensures { result ≡ has_bad_key (entries (source_texts self.entry)) }
    {
        match self {
            Source::Map(texts) => texts.has_bad_key(),
            Source::Note(_) => false,
        }
    }

    // Whether a value holds a NUL.
    pub(crate) fn has_bad_value(self) -> bool
        ensures { result ≡ has_bad_value (entries (source_texts self.entry)) }
    {
        match self {
            Source::Map(texts) => texts.has_bad_value(),
            Source::Note(note) => note.has_bad_value(),
        }
    }

    // How many bytes the texts take as written.
    pub(crate) fn written_len(self) -> usize
        ensures { min result (2 ^ 64 - 2) ≡ min (length (written (source_texts self.entry))) (2 ^ 64 - 2) }
    {
        match self {
            Source::Map(texts) => texts.written_len(),
            Source::Note(note) => note.written_len(),
        }
    }

    // No fewer bytes than that. Of a note it is told without a look at its date.
    pub(crate) fn len_bound(self) -> usize
        ensures { min (length (written (source_texts self.entry))) (2 ^ 64 - 2) ≤ result }
    {
        match self {
            Source::Map(texts) => texts.written_len(),
            Source::Note(note) => note.len_bound(),
        }
    }

    // The metadata of the texts, for which so much room is made.
    pub(crate) fn to_metadata(self, alloc: Global, room: usize) -> Result<Metadata, AllocError>
        requires { is_writable (source_texts self) ≡ true }
        ensures { IfOk result (λ all. all ≡ source_texts self.entry) }
    {
        match self {
            Source::Map(texts) => Metadata::of_map(texts, room),
            Source::Note(note) => Metadata::of_note(alloc, note, room),
        }
    }

    // Whether the metadata that was made of the texts says something of parents. A note tells it at once.
    pub(crate) fn names_parents(self, metadata: &Metadata) -> bool
        requires { metadata.now ≡ source_texts self }
        ensures { result ≡ names_parents metadata.now }
    {
        match self {
            Source::Map(_) => metadata.names_parents(),
            Source::Note(note) => note.parents.is_some(),
        }
    }
}
