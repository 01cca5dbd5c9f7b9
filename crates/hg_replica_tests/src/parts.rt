//! Parts to take in. `None` where memory ran out.
use hg_changeset::{Changeset, Node};
use hg_marker::decode;
use hg_phases::Phase;
use hg_replica::{Bounds, Part, Replica};
use std::alloc::Global;

/// Ids under which nothing is held.
pub const ELSEWHERE: Node = Node([0x11; 20]);

pub const NOWHERE: Node = Node([0x22; 20]);

pub const BETWEEN: Node = Node([0x33; 20]);

/// The part that says nothing.
pub fn empty(alloc: Global) -> Part {
    Part {
        changesets: Vec::new(alloc),
        bounds: Bounds::new(alloc),
        markers: Vec::new(alloc),
    }
}

/// The changeset of these parents whose text is one byte.
pub fn changeset(alloc: Global, p: Node, q: Node, text: u8) -> Option<Changeset> {
    let text = Vec::from_slice(alloc, &[text]).ok()?;
    Changeset::new(p, q, text).ok()
}

/// Adds the changeset of this parent whose text is one byte to the part, with a bound.
pub fn push(alloc: Global, part: &mut Part, parent: Node, text: u8, phase: Phase) -> Option<Node> {
    let changeset = changeset(alloc, parent, Node::NULL, text)?;
    let node = changeset.node();
    part.changesets.push(changeset).ok()?;
    part.bounds.push((node, phase)).ok()?;
    Some(node)
}

/// Adds to the part that a node was rewritten to others, by the bytes of a marker: one that is made may not be its own
/// successor.
pub fn mark(alloc: Global, part: &mut Part, old: Node, new: &[Node], flags: u8) -> Option<()> {
    let mut bytes = Vec::new(alloc);
    bytes.push(u8::try_from(new.len()).ok()?).ok()?;
    bytes.extend_from_slice(&[0, 0, 0, 0, flags]).ok()?;
    bytes.extend_from_slice(&old.0).ok()?;
    for node in new {
        bytes.extend_from_slice(&node.0).ok()?;
    }
    let (marker, _) = decode(alloc, &bytes).ok()?;
    part.markers.push(marker).ok()
}

/// The replica of a part.
pub fn replica_of(alloc: Global, part: &Part) -> Option<Replica> {
    let mut replica = Replica::new(alloc);
    replica.absorb(part).ok()?;
    Some(replica)
}
