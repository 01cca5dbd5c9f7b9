//! Sets of node ids, in the order in which the ids came.
//!
//! An id has the number of its place, and is found by a hash: [`NodeSet`]. What it is hashed by is a value that a set
//! is made with, [`IdKeys`]: a rule that everybody knows, or one with a secret, which ids that were chosen to meet
//! don't meet under. Tables of the crates above that are looked up by ids or labels take the same keys.
//!
//! A list or a table that was cut gives memory back by one rule: [`give_back_list`], [`give_back_table`]. A table tells
//! the id that came last without a hash: [`find_if_last`].
//!
//! # Example
//!
//! ```text
//! fn numbered(alloc: Global, keys: IdKeys, nodes: &[Node]) -> Result<NodeSet, AllocError> {
//!     let mut set = NodeSet::with_keys(alloc, keys);
//!     for node in nodes {
//!         // An id that is there keeps its number, and a new one has the next: the same as the set's length before.
//!         let (number, _is_new) = set.insert_full(*node)?;
//!         prove!(number < set.len());
//!     }
//!     Ok(set)
//! }
//! ```
#![tactic(auto)]

mod keys;
mod last;
mod room;
mod set;

pub use keys::IdKeys;
pub use last::find_if_last;
pub use room::{give_back_list, give_back_table};
pub use set::NodeSet;
