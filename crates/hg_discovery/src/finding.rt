//! How a changeset stands in a discovery, and where.
use hg_changeset::Node;

/// What is decided of a changeset.
#[derive(Clone, Copy, PartialEq, Eq, Debug)]
pub enum Finding {
    /// Nothing yet.
    Undecided,
    /// Both sides hold it.
    Common,
    /// The other side doesn't serve it, or it isn't asked about.
    Missing,
}

/// A changeset that is asked about, and its place in the graph.
#[derive(Clone, Copy, PartialEq, Eq, PartialOrd, Ord, Debug)]
pub struct PlacedNode {
    /// Its id.
    pub node: Node,
    /// Where it stands.
    pub place: usize,
}
