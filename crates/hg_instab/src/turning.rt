//! What a change turns in the kept sets.
use crate::turns::Turns;
use hg_changeset::Node;

// What a change turns. What a few look-ups tell has a case of its own, and is as small as it is.
#[derive(Drop)]
pub(crate) enum Turning {
    // Nothing.
    Nothing,
    // This node becomes obsolete and extinct, and nothing else turns.
    NewlyExtinct(Node),
    // What comes to each set and what goes from it.
    Each(Box<Turns>),
}
