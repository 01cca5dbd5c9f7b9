//! Markers.
//!
//! A marker says that its predecessor was rewritten to its successors, in their order. Two markers are equal where
//! their fields are, the metadata as a map, whatever bytes they were read from.
ghost use Rattle.std.specs.Prelude.{◌≡◌, IfOk, false, length, nat_eq};
ghost use Rattle.std.specs.List.{list_any, AllByRecursion};
ghost use Rattle.hex.specs.Hex.{IsBytes};
ghost use lib.Pointwise.{pointwise};
ghost use Rattle.hg_changeset.specs.Node.{IsNode, null_node, node_eq};
ghost use Rattle.hg_marker.specs.Grammar.{IsMarker, spelling};
ghost use Rattle.hg_marker.specs.Making.{marker_of};
ghost use Rattle.hg_marker.specs.Operation.{note_texts};
ghost use Rattle.hg_marker.specs.Parents.{names_parents, parents_of};
ghost use Rattle.hg_marker.specs.Reading.{Gives};
ghost use Rattle.hg_marker.specs.Source.{source_texts};

use crate::error::{MarkerError, ReadError};
use crate::metadata::Metadata;
use crate::note::Note;
use crate::parents::{Parents, parents_of};
use crate::source::Source;
use crate::text_map::TextMap;
use hg_changeset::Node;
use smallvec::SmallVec;
use std::alloc::{AllocError, Global};
use std::marker::Model;

/// The most successors that a marker may name: their number has one byte.
pub const SUCCESSOR_LIMIT: usize = 255;

/// The most bytes that the metadata of a marker may take.
pub const METADATA_LIMIT: u32 = 1_048_576;

// The successors of a marker, in their order. Most markers have one, whose id takes no memory of its own.
pub(crate) type Successors = SmallVec<Node, 1>;

/// A marker: its predecessor was rewritten to its successors.
#[derive(Debug)]
pub struct Marker {
    predecessor: Node,
    successors: Successors,
    flags: u8,
    // Whether a key of the metadata says something of parents.
    has_parents_key: bool,
    metadata: Metadata,
}

// Whoever owns a marker calls this once, and is proved without a look at what is kept in it.
impl Drop for Marker {
    fn drop(self) {
        let Marker {
            predecessor: _,
            successors: _,
            flags: _,
            has_parents_key: _,
            metadata: _,
        } = self;
    }
}

impl Model for Marker {
    ghost use Rattle.hg_marker.specs.Fields.{Fields, fields_code};

    ghost Value = { Fields };

    ghost coded = { fields_code };

    ghost view = { λ m. record {
      predecessor = m.predecessor;
      successors = m.successors.items;
      flags = m.flags;
      metadata = m.metadata;
    } };

    ghost use Rattle.std.specs.Prelude.{◌≡◌};
    ghost use Rattle.hg_marker.specs.Grammar.{IsMarker};
    ghost use Rattle.hg_marker.specs.Parents.{names_parents};

    ghost invariant = { λ m. IsMarker (record {
      predecessor = m.predecessor;
      successors = m.successors.items;
      flags = m.flags;
      metadata = m.metadata;
    }) × (m.has_parents_key ≡ names_parents m.metadata) };
}

impl PartialEq for Marker {
    ghost use Rattle.std.specs.Cmp.{partial_equiv_from_equiv};
    ghost use Rattle.hg_marker.specs.Same.{same_fields, fields_equivalence};

    ghost eq = { same_fields };

    ghost laws = { partial_equiv_from_equiv fields_equivalence };

    #[tactic(auto, unfolding(crate::specs::Same::same_fields))]
    fn eq(&self, other: &Marker) -> bool {
        self.predecessor == other.predecessor
            && self.flags == other.flags
            && self.successors.as_slice() == other.successors.as_slice()
            && self.metadata == other.metadata
    }
}

impl Eq for Marker {
    ghost use Rattle.hg_marker.specs.Same.{fields_equivalence};

    ghost laws = { fields_equivalence };
}

impl Marker {
    /// The marker of these fields.
    ///
    /// Refuses with the first [`MarkerError`] that applies, in the order in which they are numbered, before any memory
    /// is taken.
    pub fn new(
        predecessor: Node,
        successors: &[Node],
        flags: u8,
        texts: &TextMap,
    ) -> Result<Marker, ReadError<MarkerError>>
        ensures { Gives (λ marker. marker) result (marker_of (record {
          predecessor = predecessor;
          successors = successors.now;
          flags = flags;
          metadata = texts.now;
        })) }
    {
        Marker::of_source(
            texts.allocator(),
            predecessor,
            successors,
            flags,
            Source::Map(texts),
        )
    }

    /// The marker of an operation, which has no flags, and whose metadata is what is noted of it: what
    /// [`new`](Marker::new) makes of these entries, with the same refusals.
    pub fn of_operation(
        alloc: Global,
        predecessor: Node,
        successors: &[Node],
        note: &Note<'_>,
    ) -> Result<Marker, ReadError<MarkerError>>
        ensures { Gives (λ marker. marker) result (marker_of (record {
          predecessor = predecessor;
          successors = successors.now;
          flags = 0;
          metadata = note_texts note.now;
        })) }
    {
        Marker::of_source(alloc, predecessor, successors, 0, Source::Note(note))
    }

    // The marker of these fields, if it is one.
    #[inline(always)]
    fn of_source(
        alloc: Global,
        predecessor: Node,
        successors: &[Node],
        flags: u8,
        source: Source<'_>,
    ) -> Result<Marker, ReadError<MarkerError>>
        ensures { Gives (λ marker. marker) result (marker_of (record {
          predecessor = predecessor;
          successors = successors.now;
          flags = flags;
          metadata = source_texts source.entry;
        })) }
    {
        if holds(successors, &predecessor.0) {
            return Err(ReadError::Fault(MarkerError::SelfSuccessor));
        }
        if has_null(successors) {
            return Err(ReadError::Fault(MarkerError::NullSuccessor));
        }
        if source.has_bad_key() {
            return Err(ReadError::Fault(MarkerError::BadKey));
        }
        if source.has_bad_value() {
            return Err(ReadError::Fault(MarkerError::BadValue));
        }
        if successors.len() > SUCCESSOR_LIMIT {
            return Err(ReadError::Fault(MarkerError::TooManySuccessors));
        }
        let room = source.len_bound();
        if room > METADATA_LIMIT as usize && source.written_len() > METADATA_LIMIT as usize {
            return Err(ReadError::Fault(MarkerError::MetaTooLong));
        }
        let metadata = source.to_metadata(alloc, room)?;
        let successors = SmallVec::from_slice(alloc, successors)?;
        Ok(Marker {
            predecessor,
            successors,
            flags,
            has_parents_key: source.names_parents(&metadata),
            metadata,
        })
    }

    // The marker of fields that were read.
    pub(crate) fn of_fields(
        predecessor: Node,
        successors: Successors,
        flags: u8,
        metadata: Metadata,
        has_parents_key: bool,
    ) -> Marker
        requires parents { has_parents_key ≡ names_parents metadata }
        requires marker { IsMarker (record {
          predecessor = predecessor;
          successors = successors.items;
          flags = flags;
          metadata = metadata;
        }) }
        ensures { result ≡ record {
          predecessor = predecessor;
          successors = successors.items;
          flags = flags;
          metadata = metadata;
        } }
    {
        Marker {
            predecessor,
            successors,
            flags,
            has_parents_key,
            metadata,
        }
    }

    /// What was rewritten.
    pub fn predecessor(&self) -> Node
        ensures predecessor { result ≡ self.now.predecessor }
        ensures marker { IsMarker self.now }
    {
        self.predecessor
    }

    /// What it was rewritten to, in order.
    pub fn successors(&self) -> &[Node]
        ensures { result.now ≡ self.now.successors }
    {
        self.successors.as_slice()
    }

    /// The flags: 1 is bumpedfix, and the other bits have no meaning.
    pub fn flags(&self) -> u8
        ensures { result ≡ self.now.flags }
    {
        self.flags
    }

    /// The metadata.
    pub fn meta(&self) -> &Metadata
        ensures { result.now ≡ self.now.metadata }
    {
        &self.metadata
    }

    /// The parents of the predecessor, as far as the metadata records them.
    pub fn parents(&self) -> Parents
        ensures { result ≡ parents_of self.now.metadata }
    {
        // Few markers have such a key.
        if !self.has_parents_key {
            return Parents::Unrecorded;
        }
        parents_of(&self.metadata)
    }

    /// An equal marker.
    pub fn copy(&self) -> Result<Marker, AllocError>
        ensures { IfOk result (λ copy. copy ≡ self.now) }
    {
        let alloc = *self.successors.allocator();
        let successors = SmallVec::from_slice(alloc, self.successors.as_slice())?;
        let metadata = self.metadata.copy()?;
        Ok(Marker {
            predecessor: self.predecessor,
            successors,
            flags: self.flags,
            has_parents_key: self.has_parents_key,
            metadata,
        })
    }

    /// How many bytes the marker takes as it is written.
    pub fn written_len(&self) -> usize
        ensures len { result ≡ length (spelling self.now) }
        ensures marker { IsMarker self.now }
    {
        26 + 20 * self.successors.as_slice().len() + self.metadata.as_bytes().len()
    }

    // Where the marker's memory comes from.
    pub(crate) fn allocator(&self) -> Global {
        self.metadata.allocator()
    }
}

// Whether the id stands among the nodes.
fn holds(nodes: &[Node], id: &[u8]) -> bool
    ensures any { result ≡ list_any (λ node. pointwise nat_eq id.now node.0) nodes.now }
    ensures bytes { IsBytes id.now }
{
    nodes.iter().any(|node| id == node.0.as_slice())
}

// Whether the null id stands among the nodes.
fn has_null(nodes: &[Node]) -> bool
    ensures null { result ≡ list_any (node_eq null_node) nodes.now }
    ensures nodes { result ≡ false → AllByRecursion IsNode nodes.now }
{
    for node in nodes {
        if node.is_null() {
            return true;
        }
    }
    false
}
