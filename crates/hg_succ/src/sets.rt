//! The successors sets of one node.
use hg_changeset::Node;

/// The most ways in which sets are united at one node. Mercurial has no such limit.
pub const UNION_LIMIT: usize = 4096;

/// The successors sets of a node.
#[derive(Drop)]
pub enum Sets {
    /// All of them, in lexicographic order, each ascending. The family of a node on a cycle of markers is empty, and so
    /// is that of a node that isn't held and that no marker rewrote; a pruned node has none either.
    Family(Vec<Vec<Node>>),
    /// Its markers allow more than 4,096 ways to take one set of each successor, or one of its successors is overfull.
    Overfull,
}
