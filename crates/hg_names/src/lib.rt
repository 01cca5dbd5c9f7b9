//! Names in a script, and what they stand for.
//!
//! [`bound`] and [`bind`] look names up in an ordered map. Labels, of which a script has as many as changesets, have a
//! type of their own, [`Labels`], two hash tables: a label of up to seven bytes is looked up by the number that it
//! spells, with no copy of the label, and a longer one by its text, which is copied when it is bound.
//!
//! The tables hash by a value that they are made with, [`IdKeys`](hg_node_set::IdKeys). Labels come from whoever wrote
//! the script, and under the rule that everybody knows they can be chosen so that all of them meet, and each look-up
//! goes over all of them. So a program that runs scripts of strangers draws secret keys: [`Labels::with_keys`].
//!
//! # Example
//!
//! ```text
//! fn rebound(alloc: Global, keys: IdKeys, first: Node, second: Node) -> Result<Option<Node>, AllocError> {
//!     let mut labels = Labels::with_keys(alloc, keys);
//!     labels.bind(b"tip", first)?;
//!     labels.bind(b"tip", second)?;
//!     // The second changeset: a label stands for what it was bound to last.
//!     Ok(labels.get(b"tip"))
//! }
//! ```
#![tactic(auto)]

mod labels;
mod names;

pub use labels::Labels;
pub use names::{are_distinct, bind, bound};
