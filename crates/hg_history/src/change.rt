//! What absorbing changes.

use hg_changeset::Node;
use smallvec::SmallVec;
use std::marker::Model;

/// The nodes that a part added, in their order. One, as most operations add, takes no memory.
pub type AddedNodes = SmallVec<Node, 1>;

/// What was absorbed changed this: the nodes that were added, in their order, and the nodes held before whose phase
/// went down, in no promised order.
#[derive(Drop)]
pub struct Change {
    pub added: AddedNodes,
    pub lowered: Vec<Node>,
}

impl Model for Change {
    ghost use Rattle.hg_history.specs.Change.{ChangeValue};

    ghost Value = { ChangeValue };

    ghost view = { λ change. record { added = change.added.items; lowered = change.lowered.items } };
}
