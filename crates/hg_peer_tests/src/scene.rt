//! Changesets and markers for a replica to take in. `None` where memory ran out.
use hg_changeset::{Changeset, Entry, Node, entry_text};
use hg_marker::{Marker, TextMap};
use hg_phases::Phase;
use hg_replica::{Bounds, Part, Replica};
use std::alloc::Global;
use std::collections::BTreeMap;

/// An entry of user `fleet` at `0 0`.
pub fn entry(alloc: Global, description: &[u8]) -> Option<Entry> {
    let user = Vec::from_slice(alloc, b"fleet").ok()?;
    let desc = Vec::from_slice(alloc, description).ok()?;
    Some(Entry {
        user,
        secs: 0,
        offset: 0,
        extra: BTreeMap::new(alloc),
        desc,
    })
}

// A part that says nothing.
fn empty(alloc: Global) -> Part {
    Part {
        changesets: Vec::new(alloc),
        bounds: Bounds::new(alloc),
        markers: Vec::new(alloc),
    }
}

// The changeset of this parent and text.
fn changeset(alloc: Global, parent: Node, text: &[u8]) -> Option<Changeset> {
    Changeset::new(parent, Node::NULL, Vec::from_slice(alloc, text).ok()?).ok()
}

/// Takes in a changeset of this parent and text, in this phase.
pub fn commit(
    alloc: Global,
    replica: &mut Replica,
    parent: Node,
    text: &[u8],
    phase: Phase,
) -> Option<Node> {
    let changeset = changeset(alloc, parent, text)?;
    let node = changeset.node();
    let mut part = empty(alloc);
    part.changesets.push(changeset).ok()?;
    part.bounds.push((node, phase)).ok()?;
    replica.absorb_owned(part).ok()?;
    Some(node)
}

/// Takes in a changeset with this description.
pub fn described(
    alloc: Global,
    replica: &mut Replica,
    parent: Node,
    description: &[u8],
    phase: Phase,
) -> Option<Node> {
    let text = entry_text(alloc, &entry(alloc, description)?).ok()?;
    commit(alloc, replica, parent, &text, phase)
}

/// Takes in the marker that a node was rewritten to others, or pruned, with a pair of its metadata.
pub fn rewrite(
    alloc: Global,
    replica: &mut Replica,
    old: Node,
    new: &[Node],
    pair: (&[u8], &[u8]),
) -> Option<()> {
    let mut texts = TextMap::new(alloc);
    texts.insert(pair.0, pair.1).ok()?;
    let marker = Marker::new(old, new, 0, &texts).ok()?;
    let mut part = empty(alloc);
    part.markers.push(marker).ok()?;
    replica.absorb_owned(part).ok()?;
    Some(())
}

/// Takes in the marker that a node was pruned, which stood on this parent.
pub fn prune(alloc: Global, replica: &mut Replica, node: Node, parent: Node) -> Option<()> {
    rewrite(alloc, replica, node, &[], (b"p1", &parent.to_hex()))
}

/// A replica that holds so many draft roots, which it took in at once.
pub fn many_roots(alloc: Global, count: u32) -> Option<Replica> {
    let mut part = empty(alloc);
    for number in 0..count {
        let root = changeset(alloc, Node::NULL, &number.to_be_bytes())?;
        part.bounds.push((root.node(), Phase::Draft)).ok()?;
        part.changesets.push(root).ok()?;
    }
    let mut replica = Replica::new(alloc);
    replica.absorb_owned(part).ok()?;
    Some(replica)
}

/// Takes in a draft chain of three, with these texts, and tells their ids.
pub fn chain(alloc: Global, replica: &mut Replica) -> Option<[Node; 3]> {
    let a = commit(alloc, replica, Node::NULL, b"a", Phase::Draft)?;
    let b = commit(alloc, replica, a, b"b", Phase::Draft)?;
    let c = commit(alloc, replica, b, b"c", Phase::Draft)?;
    Some([a, b, c])
}

/// The two, the lesser first.
pub fn ascending(one: Node, other: Node) -> [Node; 2] {
    if one.0 < other.0 {
        [one, other]
    } else {
        [other, one]
    }
}
