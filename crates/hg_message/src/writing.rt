//! How a message is written.
ghost use Rattle.std.specs.Prelude.{◌≡◌, ◌+◌, ◌*◌, ◌∷◌, ◌++◌, ◌≤◌, IfOk, OnOk, length, sum_by};
ghost use Rattle.std.specs.List.{flat_map, AllByRecursion};
ghost use Rattle.hex.specs.Hex.{IsBytes};
ghost use Rattle.hg_changeset.specs.Changeset.{IsChangeset};
ghost use Rattle.hg_obsstore.specs.Places.{picked};
ghost use Rattle.hg_message.specs.Value.{IsMessage};
ghost use Rattle.hg_message.specs.Limits.{count_limit, record_limit};
ghost use Rattle.hg_message.specs.Message.{magic_number};
ghost use Rattle.hg_message.specs.Spelling.{IsMessageSpelling, number, message_spelling, record_spelling, bound_layout};
ghost use Rattle.hg_message.specs.Spelling.{HasNode, head_spelling};

use crate::bound::phase_number;
use crate::layout::{MAGIC, VERSION};
use crate::scope::Scope;
use hg_changeset::{Changeset, Node};
use hg_graph::Graph;
use hg_marker::{Marker, write_number};
use hg_obsstore::{markers_len, write_markers};
use hg_phases::Phase;
use std::alloc::{AllocError, Global};

/// The bytes of the magic, the version, the scope, both counts, and the length of the store.
const HEAD_LEN: usize = 18;

/// The bytes of a record without its text.
const RECORD_HEAD_LEN: usize = 64;

/// The bytes of a bound.
const BOUND_LEN: usize = 24;

/// The bytes of a message of these, in room for just so many.
pub(crate) fn write_message(
    alloc: Global,
    scope: Scope,
    changesets: &[Changeset],
    bounds: &[(Node, Phase)],
    markers: &[Marker],
) -> Result<Vec<u8>, AllocError>
    requires { IsMessage
        (record { scope = scope; changesets = changesets.now; bounds = bounds.now; markers = markers.now }) }
    ensures written { IfOk result (λ bytes. bytes.items ≡ message_spelling
        (record { scope = scope; changesets = changesets.now; bounds = bounds.now; markers = markers.now })) }
    ensures spells { IfOk result
        (λ bytes. IsMessageSpelling
        (record { scope = scope; changesets = changesets.now; bounds = bounds.now; markers = markers.now })
        bytes.items) }
{
    let store_len = markers_len(markers).unwrap();
    let count = changesets.len();
    let records_len = records_len(changesets);
    let mut out = begin(alloc, scope, count, records_len, bounds.len(), store_len)?;
    write_records(&mut out, changesets)?;
    write_bounds_and_len(&mut out, bounds, store_len)?;
    write_markers(&mut out, markers)?;
    Ok(out)
}

/// What stands before the records of a message of this scope and so many changesets, in room for all of it: for records
/// and a store of these lengths, and for so many bounds.
pub(crate) fn begin(
    alloc: Global,
    scope: Scope,
    changesets: usize,
    records_len: usize,
    bounds: usize,
    store_len: usize,
) -> Result<Vec<u8>, AllocError>
    requires changesets { changesets ≤ count_limit }
    requires records { records_len ≤ record_limit * changesets }
    requires bounds { bounds ≤ count_limit }
    requires store { store_len ≤ count_limit }
    ensures { IfOk result (λ out. out.items ≡ number magic_number ++ (head_spelling scope ++ number changesets)) }
{
    let room = HEAD_LEN + records_len + BOUND_LEN * bounds + store_len;
    let mut out = Vec::with_capacity(alloc, room)?;
    write_number(&mut out, MAGIC)?;
    out.push(VERSION)?;
    out.push(scope.number())?;
    write_number(&mut out, changesets as u32)?;
    Ok(out)
}

/// Appends what stands between the records and a store of this length: the bounds behind their count, and the length.
pub(crate) fn write_bounds_and_len(
    out: &mut Vec<u8>,
    bounds: &[(Node, Phase)],
    store_len: usize,
) -> Result<(), AllocError>
    requires bounds { length bounds.now ≤ count_limit }
    requires store { store_len ≤ count_limit }
    ensures written { OnOk result (out.new.items ≡ out.old.items ++
        (number (length bounds.now) ++ (flat_map bound_layout bounds.now ++ number store_len))) }
    ensures nodes { OnOk result (AllByRecursion HasNode bounds.now) }
{
    write_number(out, bounds.len() as u32)?;
    write_bounds(out, bounds)?;
    write_number(out, store_len as u32)
}

// How many bytes the records take.
fn records_len(changesets: &[Changeset]) -> usize
    requires { length changesets.now ≤ count_limit }
    ensures len { result ≡ sum_by (λ c. 64 + length c.text) changesets.now }
    ensures bounded { result ≤ record_limit * length changesets.now }
{
    let mut len = 0;
    for changeset in changesets {
        len += RECORD_HEAD_LEN + changeset.text().len();
    }
    len
}

// Appends the records, one after the other.
fn write_records(out: &mut Vec<u8>, changesets: &[Changeset]) -> Result<(), AllocError>
    ensures written { OnOk result (out.new.items ≡ out.old.items ++ flat_map record_spelling changesets.now) }
    ensures changesets { OnOk result (AllByRecursion IsChangeset changesets.now) }
{
    for changeset in changesets {
        write_record(out, changeset)?;
    }
    Ok(())
}

/// How many bytes the records of the changesets at these places take.
pub(crate) fn records_len_at(graph: &Graph, places: &[usize]) -> usize
    requires { length places.now ≤ count_limit }
    ensures len { result ≡ sum_by (λ c. 64 + length c.text) (picked graph.now places.now) }
    ensures bounded { result ≤ record_limit * length places.now }
{
    let mut len = 0;
    for place in places {
        match graph.changeset_at(*place) {
            Some(changeset) => len += RECORD_HEAD_LEN + changeset.text().len(),
            None => {}
        }
    }
    len
}

/// Appends the records of the changesets at these places, one after the other.
pub(crate) fn write_records_at(
    out: &mut Vec<u8>,
    graph: &Graph,
    places: &[usize],
) -> Result<(), AllocError>
    ensures written { OnOk result (out.new.items ≡ out.old.items ++ flat_map record_spelling
        (picked graph.now places.now)) }
    ensures changesets { OnOk result (AllByRecursion IsChangeset (picked graph.now places.now)) }
{
    for place in places {
        match graph.changeset_at(*place) {
            Some(changeset) => write_record(out, changeset)?,
            None => {}
        }
    }
    Ok(())
}

fn write_record(out: &mut Vec<u8>, changeset: &Changeset) -> Result<(), AllocError>
    ensures written { OnOk result (out.new.items ≡ out.old.items ++ record_spelling changeset.now) }
    ensures changeset { IsChangeset changeset.now }
{
    let node = changeset.node();
    let (first, second) = changeset.parents();
    let text = changeset.text();
    out.extend_from_slice(&node.0)?;
    out.extend_from_slice(&first.0)?;
    out.extend_from_slice(&second.0)?;
    write_number(out, text.len() as u32)?;
    out.extend_from_slice(text)
}

// Appends the bounds, one after the other.
fn write_bounds(out: &mut Vec<u8>, bounds: &[(Node, Phase)]) -> Result<(), AllocError>
    ensures written { OnOk result (out.new.items ≡ out.old.items ++ flat_map bound_layout bounds.now) }
    ensures nodes { OnOk result (AllByRecursion HasNode bounds.now) }
{
    for bound in bounds {
        write_bound(out, bound)?;
    }
    Ok(())
}

fn write_bound(out: &mut Vec<u8>, bound: &(Node, Phase)) -> Result<(), AllocError>
    ensures written { OnOk result (out.new.items ≡ out.old.items ++ bound_layout bound.now) }
    ensures node { OnOk result (HasNode bound.now) }
{
    let (node, phase) = *bound;
    write_number(out, phase_number(phase))?;
    write_id(out, &node.0)
}

// Appends an id.
fn write_id(out: &mut Vec<u8>, id: &[u8]) -> Result<(), AllocError>
    ensures written { OnOk result (out.new.items ≡ out.old.items ++ id.now) }
    ensures bytes { IsBytes id.now }
{
    out.extend_from_slice(id)
}
