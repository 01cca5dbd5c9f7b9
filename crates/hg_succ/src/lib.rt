//! Successors sets: what a changeset was rewritten to, in each way that the markers allow.
//!
//! A pick of a node is one full choice: nothing for a node on a cycle of markers, the node itself where no marker
//! rewrites it and it is held, and otherwise, by one of its markers, a pick of each successor, all together. The
//! successors sets are the largest picks. They are found for all nodes that some lead to at once: `numbered` gives
//! these nodes numbers, `search` an order in which each comes after what it was rewritten to, and tells which are on
//! cycles, by Gabow's algorithm, and `families` goes along that order.
//!
//! # Example
//!
//! ```text
//! fn ways(
//!     alloc: Global,
//!     replica: &Replica,
//!     node: Node,
//! ) -> Result<(Option<usize>, bool), AllocError> {
//!     let count = match successors_sets(alloc, replica, node)? {
//!         // No set for what was pruned and no more, is on a cycle of markers, or is neither held nor rewritten. One
//!         // set, of itself alone, for what is held and no marker rewrites. Else the largest of those that its markers
//!         // allow, in lexicographic order: none is part of another.
//!         Sets::Family(sets) => Some(sets.len()),
//!         // There are more than 4,096 ways to take one set of each successor, or a successor is overfull.
//!         Sets::Overfull => None,
//!     };
//!     // Those of the nodes that have more than one set, or are overfull.
//!     let several = several_among(alloc, replica, &[node])?;
//!     Ok((count, several.contains(node)))
//! }
//! ```
#![tactic(auto)]

mod families;
mod holders;
mod laws;
mod numbered;
mod plan;
mod ranges;
mod search;
mod sets;
mod successors;
mod unions;

pub use laws::{
    an_amend_renames, states_of_one_content_have_the_same_successors_sets,
    what_is_alike_has_the_same_successors_sets,
};
pub use sets::{Sets, UNION_LIMIT};
pub use successors::{several_among, successors_sets};
