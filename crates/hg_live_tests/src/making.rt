//! What the tests of nodes make.
ghost use Rattle.std.specs.Prelude.{◌≡◌, [], IfSome};

use hg_changeset::{Entry, Node as Id};
use hg_live::{Node, OpenGate, Writer};
use hg_rewrite::Op;
use std::alloc::Global;
use std::collections::BTreeMap;
use std::process::Abort;

/// A node whose gate is open, written to by what has the right to wait.
pub type Open<K, W> = Node<K, OpenGate, Writer<K, W>>;

/// The changeset `a` of user `fleet` at `0 0`, on no parent.
pub const A: &[u8] = b"f96ca39738e6588d0bf7020cd1d44a23774c1b77";

/// What comes of an amend of it to the description `b`.
pub const B_FOR_A: &[u8] = b"760183dd5b1d32a969c6efe5a9df5f980b024a45";

/// The draft root without a text.
pub const N1: &[u8] = b"b80de5d138758541c5f05265ad144ab9fa86d1db";

/// The message of version 1 with one draft changeset, without parents and without a text.
pub const MESSAGE: &[u8] =
    b"HGFX\x01\0\0\0\x01\xb8\x0d\xe5\xd18u\x85A\xc5\xf0Re\xad\x14J\xb9\xfa\x86\xd1\xdb\
\0\0\0\0\0\0\0\0\0\0\0\0\0\0\0\0\0\0\0\0\0\0\0\0\0\0\0\0\0\0\0\0\0\0\0\0\0\0\0\0\
\0\0\0\0\0\0\0\x01\0\0\0\x01\xb8\x0d\xe5\xd18u\x85A\xc5\xf0Re\xad\x14J\xb9\xfa\x86\xd1\xdb\0\0\0\x01\0";

/// An id of so many digits.
pub fn id(rt: &impl Abort, digits: &[u8]) -> Id {
    Id::from_hex(digits).expect(rt, "an id")
}

/// An entry of user `fleet` at `0 0`.
pub fn entry(alloc: Global, description: &[u8]) -> Option<Entry>
    ensures { IfSome result (λ entry. entry.extra ≡ []) }
{
    Some(Entry {
        user: Vec::from_slice(alloc, b"fleet").ok()?,
        secs: 0,
        offset: 0,
        extra: BTreeMap::new(alloc),
        desc: Vec::from_slice(alloc, description).ok()?,
    })
}

/// To commit a draft root.
pub fn root(alloc: Global, description: &[u8]) -> Option<Op> {
    commit(alloc, Id::NULL, description)
}

/// To commit a draft changeset on this parent.
pub fn commit(alloc: Global, parent: Id, description: &[u8]) -> Option<Op> {
    Some(Op::Commit {
        p: parent,
        q: Id::NULL,
        entry: entry(alloc, description)?,
        secret: false,
    })
}

/// To amend a changeset.
pub fn amend(alloc: Global, node: Id, description: &[u8]) -> Option<Op> {
    Some(Op::Amend {
        node,
        entry: entry(alloc, description)?,
    })
}
