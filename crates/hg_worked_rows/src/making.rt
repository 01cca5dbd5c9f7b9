//! What the rows are made of. `None` where memory ran out.
use hg_changeset::{Changeset, Entry, Node};
use hg_marker::decode;
use hg_phases::Phase;
use hg_replica::{Bounds, Change, Part, Replica};
use hg_rewrite::{Op, decide};
use hg_view::Pins;
use std::alloc::Global;
use std::collections::BTreeMap;

/// The root without a text: the SHA-1 of 40 zero bytes.
pub const EMPTY: Node = Node([
    0xb8, 0x0d, 0xe5, 0xd1, 0x38, 0x75, 0x85, 0x41, 0xc5, 0xf0, 0x52, 0x65, 0xad, 0x14, 0x4a, 0xb9,
    0xfa, 0x86, 0xd1, 0xdb,
]);

/// The draft root with the description `a`, of user `fleet` at `0 0`.
pub const A: Node = Node([
    0xf9, 0x6c, 0xa3, 0x97, 0x38, 0xe6, 0x58, 0x8d, 0x0b, 0xf7, 0x02, 0x0c, 0xd1, 0xd4, 0x4a, 0x23,
    0x77, 0x4c, 0x1b, 0x77,
]);

/// Ids under which nothing is held.
pub const ONES: Node = Node([0x11; 20]);

pub const TWOS: Node = Node([0x22; 20]);

/// The part that says nothing.
pub fn empty(alloc: Global) -> Part {
    Part {
        changesets: Vec::new(alloc),
        bounds: Bounds::new(alloc),
        markers: Vec::new(alloc),
    }
}

/// Adds the changeset of this parent and text to the part, with a bound.
pub fn push(
    alloc: Global,
    part: &mut Part,
    parent: Node,
    text: &[u8],
    phase: Phase,
) -> Option<Node> {
    let text = Vec::from_slice(alloc, text).ok()?;
    let changeset = Changeset::new(parent, Node::NULL, text).ok()?;
    let node = changeset.node();
    part.changesets.push(changeset).ok()?;
    part.bounds.push((node, phase)).ok()?;
    Some(node)
}

/// Adds to the part that a node was rewritten to others, by the bytes of a marker: one that is made may not be its own
/// successor.
pub fn mark(alloc: Global, part: &mut Part, old: Node, new: &[Node], flags: u8) -> Option<()> {
    let mut bytes = Vec::new(alloc);
    bytes.push(u8::try_from(new.len()).ok()?).ok()?;
    bytes.extend_from_slice(&[0, 0, 0, 0, flags]).ok()?;
    bytes.extend_from_slice(&old.0).ok()?;
    for node in new {
        bytes.extend_from_slice(&node.0).ok()?;
    }
    let (marker, _) = decode(alloc, &bytes).ok()?;
    part.markers.push(marker).ok()
}

/// The replica of a part.
pub fn replica_of(alloc: Global, part: &Part) -> Option<Replica> {
    let mut replica = Replica::new(alloc);
    replica.absorb(part).ok()?;
    Some(replica)
}

/// The replica that holds the root without a text, in this phase.
pub fn replica_of_empty(alloc: Global, phase: Phase) -> Option<Replica> {
    let mut part = empty(alloc);
    push(alloc, &mut part, Node::NULL, b"", phase)?;
    replica_of(alloc, &part)
}

/// The replica that holds a draft chain, one byte the text of each.
pub fn chain(alloc: Global, texts: &[u8]) -> Option<Replica> {
    let mut part = empty(alloc);
    let mut last = Node::NULL;
    for text in texts {
        last = push(alloc, &mut part, last, &[*text], Phase::Draft)?;
    }
    replica_of(alloc, &part)
}

/// An entry at `0 0`.
pub fn entry(alloc: Global, user: &[u8], description: &[u8]) -> Option<Entry> {
    let user = Vec::from_slice(alloc, user).ok()?;
    let desc = Vec::from_slice(alloc, description).ok()?;
    Some(Entry {
        user,
        secs: 0,
        offset: 0,
        extra: BTreeMap::new(alloc),
        desc,
    })
}

/// The same with an extra.
pub fn noted(
    alloc: Global,
    user: &[u8],
    description: &[u8],
    key: &[u8],
    value: &[u8],
) -> Option<Entry> {
    let mut noted = entry(alloc, user, description)?;
    let key = Vec::from_slice(alloc, key).ok()?;
    let value = Vec::from_slice(alloc, value).ok()?;
    noted.extra.insert(key, value).ok()?;
    Some(noted)
}

/// To commit an entry on these parents.
pub fn commit(p: Node, q: Node, entry: Entry, secret: bool) -> Op {
    Op::Commit {
        p,
        q,
        entry,
        secret,
    }
}

/// To prune a node at `0 0`.
pub fn prune(alloc: Global, node: Node, user: &[u8]) -> Option<Op> {
    let user = Vec::from_slice(alloc, user).ok()?;
    let (secs, offset) = (0, 0);
    Some(Op::Prune {
        node,
        user,
        secs,
        offset,
    })
}

/// Does an operation that isn't refused.
pub fn operate(alloc: Global, replica: &mut Replica, op: &Op) -> Option<Change> {
    let part = decide(alloc, replica, &Pins::new(alloc), op).ok()?;
    replica.absorb_owned(part).ok()
}

/// Whether these are the same nodes, each once, in whatever order.
pub fn are_same(nodes: &[Node], others: &[Node]) -> bool {
    nodes.len() == others.len() && others.iter().all(|node| nodes.contains(node))
}

/// The text with this number, from 0, in a row of texts with `|` between them.
pub fn text_at(row: &[u8], number: usize) -> Option<&[u8]> {
    row.split(|byte| *byte == b'|').nth(number)
}
