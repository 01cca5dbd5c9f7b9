//! Fields at the front of bytes.
//!
//! A reader takes its field from the front of the bytes, and answers what the field says with the bytes after it, or
//! the fault that the caller names where the field isn't whole. A format reads its fields one after the other, each
//! with `?`. Readers take no memory.
ghost use Rattle.hg_marker.specs.Reading.{IsReading, field, number, byte, node, nodes, ids_in};
ghost use Rattle.hg_changeset.specs.Node.{null_node, node_eq};
ghost use Rattle.std.specs.Prelude.{◌≡◌, ◌+◌, ◌++◌, ◌*◌, ◌≤◌, length, take, drop, IfOk, IsOk, OnOk, OnErr, vec_len};
ghost use Rattle.std.specs.Prelude.{vec_capacity};
ghost use Rattle.std.specs.List.{list_any};
ghost use Rattle.std.specs.Int.{w32, to_be_bytes};

use byteorder::{BigEndian, ByteOrder};
use hg_changeset::Node;
use smallvec::SmallVec;
use std::alloc::{AllocError, Global};

const ID_LEN: usize = 20;

/// The first n bytes.
pub fn read_field<F: Copy>(bytes: &[u8], n: usize, short: F) -> Result<(&[u8], &[u8]), F>
    ensures { IsReading (λ x. (x.0.now, x.1.now)) result (field short n bytes.now) }
{
    if bytes.len() < n {
        return Err(short);
    }
    Ok(bytes.split_at(n))
}

/// A number in four bytes, the highest first.
pub fn read_number<F: Copy>(bytes: &[u8], short: F) -> Result<(u32, &[u8]), F>
    ensures { IsReading (λ x. (x.0, x.1.now)) result (number short bytes.now) }
{
    if bytes.len() < 4 {
        return Err(short);
    }
    let (front, rest) = bytes.split_at(4);
    Ok((BigEndian::read_u32(front), rest))
}

/// One byte.
pub fn read_byte<F: Copy>(bytes: &[u8], short: F) -> Result<(u8, &[u8]), F>
    ensures { IsReading (λ x. (x.0, x.1.now)) result (byte short bytes.now) }
{
    match bytes {
        [] => Err(short),
        [first, rest @ ..] => Ok((*first, rest)),
    }
}

/// A node id.
pub fn read_node<F: Copy>(bytes: &[u8], short: F) -> Result<(Node, &[u8]), F>
    ensures { IsReading (λ x. (x.0, x.1.now)) result (node short bytes.now) }
{
    if bytes.len() < ID_LEN {
        return Err(short);
    }
    Ok(split_id(bytes))
}

/// So many node ids, as their bytes.
pub(crate) fn read_ids<F: Copy>(bytes: &[u8], count: u8, short: F) -> Result<(&[u8], &[u8]), F>
    ensures ids { IsReading (λ x. (ids_in count x.0.now, x.1.now)) result (nodes short count bytes.now) }
    ensures whole { IfOk result (λ x. length x.0.now ≡ 20 * count) }
{
    read_field(bytes, ID_LEN * count as usize, short)
}

/// The id at the front, and the bytes after it.
pub(crate) fn split_id(bytes: &[u8]) -> (Node, &[u8])
    requires { 20 ≤ length bytes.now }
    ensures id { result.0 ≡ record { 0 = take 20 bytes.now } }
    ensures rest { result.1.now ≡ drop 20 bytes.now }
{
    let (front, rest) = bytes.split_at(ID_LEN);
    let mut id = [0; ID_LEN];
    id.copy_from_slice(front);
    (Node(id), rest)
}

/// Whether the null id is among so many ids.
pub(crate) fn holds_null(ids: &[u8], count: u8) -> bool
    requires { 20 * count ≤ length ids.now }
    ensures { result ≡ list_any (node_eq null_node) (ids_in count ids.now) }
{
    let mut rest = ids;
    for _ in 0..count {
        let (id, after) = split_id(rest);
        if id.is_null() {
            return true;
        }
        rest = after;
    }
    false
}

/// So many ids. Of one no list is made.
pub(crate) fn copy_ids(
    alloc: Global,
    ids: &[u8],
    count: u8,
) -> Result<SmallVec<Node, 1>, AllocError>
    requires { 20 * count ≤ length ids.now }
    ensures { IfOk result (λ nodes. nodes.items ≡ ids_in count ids.now) }
{
    let mut nodes = SmallVec::with_capacity(alloc, count as usize)?;
    let mut rest = ids;
    for _ in 0..count {
        let (id, after) = split_id(rest);
        nodes.push(id)?;
        rest = after;
    }
    Ok(nodes)
}

/// Appends a number in four bytes, the highest first. Without memory nothing is appended.
pub fn write_number(out: &mut Vec<u8>, number: u32) -> Result<(), AllocError>
    ensures ok { OnOk result (out.new.items ≡ out.old.items ++ to_be_bytes w32 number) }
    ensures err { OnErr result (out.new.items ≡ out.old.items) }

    // Room for four bytes is all that it takes.
    ensures capacity { vec_capacity out.old ≤ vec_capacity out.new }
    ensures succeeds { vec_len out.old + 4 ≤ vec_capacity out.old → IsOk result }
{
    let mut bytes = [0; 4];
    BigEndian::write_u32(&mut bytes, number);
    out.extend_from_slice(&bytes)
}
