//! How markers are written and read.
//!
//! A marker is a head of six bytes, the ids of its predecessor and successors, and its metadata. Written it has one
//! spelling. Metadata may be spelled in further ways, which are read, so that equal markers may come from different
//! bytes.
ghost use Rattle.std.specs.Prelude.{◌≡◌, ◌≤◌, ◌+◌, ◌++◌, ◌*◌, List, ℕ, length, take, IfOk, OnOk, OnErr, IsErrOf, Ok};
ghost use Rattle.std.specs.Prelude.{vec_len, vec_capacity};
ghost use Rattle.hg_marker.specs.declared.error.MarkerFault.{MarkerFault};
ghost use Rattle.hg_marker.specs.declared.error.ReadError.TheVariants.{Fault};
ghost use Rattle.hg_marker.specs.Fields.{Fields};
ghost use Rattle.hg_marker.specs.Reading.{Gives, IsReading};
ghost use Rattle.hg_marker.specs.Survey.{IsSurvey};
ghost use Rattle.hg_marker.specs.Laid.{fields_of};
ghost use Rattle.hg_marker.specs.Grammar.{IsSpelling, IsMarker, spelling, ids};
ghost use Rattle.hg_marker.specs.Faults.{marker_at, after_marker, marker_and_length, IsFault, IfFault};

use crate::error::{MarkerFault, ReadError};
use crate::marker::{METADATA_LIMIT, Marker};
use crate::metadata::Metadata;
use crate::pieces::{Survey, survey_of};
use crate::reading::{
    copy_ids, holds_null, read_byte, read_field, read_ids, read_node, read_number, write_number,
};
use hg_changeset::Node;
use std::alloc::{AllocError, Global};

/// The bytes of a marker: its one written spelling.
pub fn encode(marker: &Marker) -> Result<Vec<u8>, AllocError>
    ensures written { IfOk result (λ v. v.items ≡ spelling marker.now) }
    ensures spells { IfOk result (λ v. IsSpelling marker.now v.items) }
{
    let mut out = Vec::with_capacity(marker.allocator(), marker.written_len())?;
    push_marker(&mut out, marker);
    Ok(out)
}

/// Appends the bytes of a marker: its one written spelling. Room for all of them is made first, so that without memory
/// nothing is appended.
pub fn write_marker(out: &mut Vec<u8>, marker: &Marker) -> Result<(), AllocError>
    ensures written { OnOk result (out.new.items ≡ out.old.items ++ spelling marker.now) }
    ensures unchanged { OnErr result (out.new.items ≡ out.old.items) }
    ensures marker { IsMarker marker.now }
{
    out.reserve(marker.written_len())?;
    push_marker(out, marker);
    Ok(())
}

// Appends the bytes of a marker, for which there is room.
fn push_marker(out: &mut Vec<u8>, marker: &Marker)
    requires room { vec_len out.old + length (spelling marker.now) ≤ vec_capacity out.old }
    ensures written { out.new.items ≡ out.old.items ++ spelling marker.now }
    ensures marker { IsMarker marker.now }
{
    let predecessor = marker.predecessor();
    out.push(marker.successors().len() as u8).unwrap();
    write_number(out, marker.meta().as_bytes().len() as u32).unwrap();
    out.push(marker.flags()).unwrap();
    out.extend_from_slice(&predecessor.0).unwrap();
    push_ids(out, marker.successors());
    out.extend_from_slice(marker.meta().as_bytes()).unwrap();
}

// Appends the ids, for which there is room, one after the other.
fn push_ids(out: &mut Vec<u8>, nodes: &[Node])
    requires room { vec_len out.old + length (ids nodes.now) ≤ vec_capacity out.old }
    ensures written { out.new.items ≡ out.old.items ++ ids nodes.now }
    ensures capacity { vec_capacity out.old ≤ vec_capacity out.new }
{
    for node in nodes {
        out.extend_from_slice(&node.0).unwrap();
    }
}

/// The fields of a marker where they stand in bytes, whole and without fault. Nothing is copied yet.
#[derive(Clone, Copy)]
struct FieldBytes<'a> {
    predecessor: Node,
    count: u8,
    ids: &'a [u8],
    flags: u8,
    metadata: &'a [u8],
    found: Survey,
}

impl<'a> FieldBytes<'a> {
    // The marker of the fields.
    fn to_marker(&self, alloc: Global) -> Result<Marker, AllocError>
        requires ids { 20 * self.now.count ≤ length self.now.ids.now }
        requires survey { IsSurvey self.now.found self.now.metadata.now }
        requires marker { IsMarker (fields_of self.now) }
        ensures { IfOk result (λ marker. marker ≡ fields_of self.now) }
    {
        let successors = copy_ids(alloc, self.ids, self.count)?;
        let (metadata, names_parents) = Metadata::read(alloc, self.metadata, self.found)?;
        Ok(Marker::of_fields(
            self.predecessor,
            successors,
            self.flags,
            metadata,
            names_parents,
        ))
    }
}

// The fields of the marker at the front of the bytes, and the bytes after it. It takes no memory.
#[tactic(auto, unfolding(crate::specs::Faults::marker_at, crate::specs::Metadata::metadata_at))]
fn split_marker(bytes: &[u8]) -> Result<(FieldBytes<'_>, &[u8]), MarkerFault>
    ensures exact { IsReading (λ x. (fields_of x.0, x.1.now)) result (marker_at bytes.now) }
    ensures ids { IfOk result (λ x. 20 * x.0.count ≤ length x.0.ids.now) }
    ensures survey { IfOk result (λ x. IsSurvey x.0.found x.0.metadata.now) }
    ensures marker { IfOk result (λ x. IsMarker (fields_of x.0)) }
{
    let (count, rest) = read_byte(bytes, MarkerFault::Truncated)?;
    let (len, rest) = read_number(rest, MarkerFault::Truncated)?;
    let (flags, rest) = read_byte(rest, MarkerFault::Truncated)?;
    let (predecessor, rest) = read_node(rest, MarkerFault::Truncated)?;
    let (ids, rest) = read_ids(rest, count, MarkerFault::Truncated)?;
    let (metadata, rest) = read_field(rest, len as usize, MarkerFault::Truncated)?;
    if holds_null(ids, count) {
        return Err(MarkerFault::NullSuccessor);
    }
    if len > METADATA_LIMIT {
        return Err(MarkerFault::BadMetadata);
    }
    match survey_of(metadata) {
        Some(found) => {
            let fields = FieldBytes {
                predecessor,
                count,
                ids,
                flags,
                metadata,
                found,
            };
            Ok((fields, rest))
        }
        None => Err(MarkerFault::BadMetadata),
    }
}

/// The bytes after the marker at their front. It takes no memory.
///
/// Refuses with the first [`MarkerFault`] that applies, in the order in which they are numbered.
pub fn skip_marker(bytes: &[u8]) -> Result<&[u8], MarkerFault>
    ensures { IsReading (λ rest. rest.now) result (after_marker bytes.now) }
{
    match split_marker(bytes) {
        Ok((_, rest)) => Ok(rest),
        Err(fault) => Err(fault),
    }
}

/// Reads the marker at the front of the bytes, and answers it with the bytes after it. A fault is told before any
/// memory is taken.
///
/// Refuses with the first [`MarkerFault`] that applies, in the order in which they are numbered.
pub fn read_marker(alloc: Global, bytes: &[u8]) -> Result<(Marker, &[u8]), ReadError<MarkerFault>>
    ensures { Gives (λ x. (x.0, x.1.now)) result (marker_at bytes.now) }
{
    match split_marker(bytes) {
        Ok((fields, rest)) => Ok((fields.to_marker(alloc)?, rest)),
        Err(fault) => Err(ReadError::Fault(fault)),
    }
}

/// Reads the marker at the front of the bytes, and answers it with the number of bytes that it takes. Other bytes may
/// follow.
///
/// Refuses with the first [`MarkerFault`] that applies, in the order in which they are numbered.
pub fn decode(alloc: Global, bytes: &[u8]) -> Result<(Marker, usize), ReadError<MarkerFault>>
    // What is read is spelled so.
    ensures found { IfOk result (λ x. (x.1 ≤ length bytes.now) × IsSpelling x.0 (take x.1 bytes.now)) }

    // What is spelled so is read, whatever follows, unless memory runs out.
    ensures only { (m : Fields) (text rest : List ℕ) → IsSpelling m text → bytes.now ≡ text ++ rest
        → Gives (λ x. x) result (Ok (m, length text)) }

    // The fault is the one that there is, and where there is one it is told: want of memory never stands for it.
    ensures fault { IfFault result (IsFault bytes.now) }
    ensures refused { (f : MarkerFault) → IsFault bytes.now f → IsErrOf result (Fault f) }

    // The same, field by field.
    ensures exact { Gives (λ x. x) result (marker_and_length bytes.now) }
{
    marker_and_used(alloc, bytes)
}

fn marker_and_used(alloc: Global, bytes: &[u8]) -> Result<(Marker, usize), ReadError<MarkerFault>>
    ensures { Gives (λ x. x) result (marker_and_length bytes.now) }
{
    let (marker, rest) = read_marker(alloc, bytes)?;
    Ok((marker, bytes.len() - rest.len()))
}

/// The laws of spellings: no spelling of a marker begins another or has two meanings, and what [`encode`] writes of
/// any marker is read as that marker, whatever follows.
pub fn spelling_laws()
    ensures once { (m n : Fields) (a b x y : List ℕ) → IsSpelling m a → IsSpelling n b → a ++ x ≡ b ++ y
        → (a ≡ b) × (m ≡ n) }
    ensures again { (m : Fields) (rest : List ℕ) → IsMarker m
        → marker_and_length (spelling m ++ rest) ≡ Ok (m, length (spelling m)) }
{}
