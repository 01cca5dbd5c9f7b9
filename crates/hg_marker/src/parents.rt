//! The parents that a marker records of its predecessor.
//!
//! They stand in the metadata as hexadecimal digits, at the keys `p1` and `p2`; the key `p0` says that there are none.
ghost use Rattle.std.specs.Prelude.{◌≡◌};
ghost use Rattle.std.specs.Option.{option_and_then};
ghost use Rattle.std.specs.FinMap as finite;
ghost use Rattle.hg_changeset.specs.Node.{id_value};
ghost use Rattle.hg_marker.specs.Parents.{is_parents_key, parents_of, one_parent};

use crate::metadata::Metadata;
use hg_changeset::Node;

/// What a marker records of the parents of its predecessor.
#[derive(Clone, Copy, PartialEq, Eq, Debug)]
pub enum Parents {
    /// Nothing, or nothing that can be read.
    Unrecorded,
    /// That there are none.
    Empty,
    /// One parent.
    One(Node),
    /// Two parents, in this order.
    Two(Node, Node),
}

// The parents that the metadata records.
pub(crate) fn parents_of(metadata: &Metadata) -> Parents
    ensures { result ≡ parents_of metadata.now }
{
    if let Some(second) = metadata.get(b"p2") {
        return match (id_at(metadata, b"p1"), id_value(second)) {
            (Some(first), Some(second)) => Parents::Two(first, second),
            _ => Parents::Unrecorded,
        };
    }
    if let Some(first) = metadata.get(b"p1") {
        return one_parent(first);
    }
    match metadata.get(b"p0") {
        Some(_) => Parents::Empty,
        None => Parents::Unrecorded,
    }
}

pub(crate) fn is_parents_key(key: &[u8]) -> bool
    ensures { result ≡ is_parents_key key.now }
{
    key == b"p0".as_slice() || key == b"p1".as_slice() || key == b"p2".as_slice()
}

fn one_parent(text: &[u8]) -> Parents
    ensures { result ≡ one_parent (id_value text.now) }
{
    match id_value(text) {
        Some(parent) => Parents::One(parent),
        None => Parents::Unrecorded,
    }
}

// The id that the value of a key writes.
fn id_at(metadata: &Metadata, key: &[u8]) -> Option<Node>
    ensures { result ≡ option_and_then id_value (finite.get metadata.now key.now) }
{
    match metadata.get(key) {
        Some(text) => id_value(text),
        None => None,
    }
}

// The id that 40 hexadecimal digits write.
fn id_value(text: &[u8]) -> Option<Node>
    ensures { result ≡ id_value text.now }
{
    match Node::from_hex(text) {
        Ok(node) => Some(node),
        Err(_) => None,
    }
}
