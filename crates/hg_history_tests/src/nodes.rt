//! Two ids, of a changeset and of what it was rewritten to.
use hg_changeset::Node;

pub const OLD: Node = Node([0x11; 20]);

pub const NEW: Node = Node([0x22; 20]);
