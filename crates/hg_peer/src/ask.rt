//! What a peer is asked to offer.
use hg_changeset::Node;
use hg_message::Scope;

/// What a peer is asked to offer.
#[derive(Drop)]
pub struct Ask {
    /// The common nodes: these changesets and their ancestors are left out, since the taker has them.
    pub common: Vec<Node>,

    /// Which part of its history it is to offer.
    pub scope: Scope,
}
