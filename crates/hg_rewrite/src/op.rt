//! The operations.
use hg_changeset::{Entry, Node};
use hg_phases::Phase;

/// What is to be done at a replica. The null id stands for an absent parent, in either place of a pair.
pub enum Op {
    /// A new changeset on these parents, secret if it is asked for and otherwise draft, but no lower than a parent.
    Commit {
        p: Node,
        q: Node,
        entry: Entry,
        secret: bool,
    },
    /// Another changeset in place of the node, on its parents and in its phase.
    Amend {
        node: Node,
        entry: Entry,
    },
    /// Several changesets in place of the node, each on the one before, the last in its phase.
    Split {
        node: Node,
        entries: Vec<Entry>,
    },
    /// One changeset in place of a line of nodes, from the lowest to the highest, in the phase of the highest.
    Fold {
        nodes: Vec<Node>,
        entry: Entry,
    },
    /// Nothing in place of the node. The user and the date, in seconds since 1970 and west of UTC, are noted.
    Prune {
        node: Node,
        user: Vec<u8>,
        secs: i64,
        offset: i32,
    },
    /// Another changeset in place of the node, on these parents, in its phase but no lower than a parent.
    Relocate {
        node: Node,
        p: Node,
        q: Node,
        entry: Entry,
    },
    /// The node and its ancestors go to this phase, where theirs is higher.
    Advance {
        node: Node,
        phase: Phase,
    },
}

// Whoever owns one calls this once, and is proved without a look at each collection in it.
impl Drop for Op {
    #[inline(always)]
    fn drop(self) {
        match self {
            Op::Commit {
                p: _,
                q: _,
                entry: _,
                secret: _,
            } => {}
            Op::Amend { node: _, entry: _ } => {}
            Op::Split {
                node: _,
                entries: _,
            } => {}
            Op::Fold { nodes: _, entry: _ } => {}
            Op::Prune {
                node: _,
                user: _,
                secs: _,
                offset: _,
            } => {}
            Op::Relocate {
                node: _,
                p: _,
                q: _,
                entry: _,
            } => {}
            Op::Advance { node: _, phase: _ } => {}
        }
    }
}
