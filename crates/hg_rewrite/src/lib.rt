//! The rewriting of history: what an operation does at a replica, or why it is refused.
//!
//! An operation is decided from the state of one replica and the pins of its node, and gives a part, which that replica
//! can absorb, and any other one that admits it. Nothing is changed here. The table of operations is read column by
//! column: the new changesets come from the parents of the first and the texts of the entries, the bound stands on the
//! last of them, and each node that is rewritten has a marker that names them all. The table of refusals is tried row
//! by row before that, each number over the whole operation.
//!
//! # Example
//!
//! ```text
//! fn amend(alloc: Global, kept: &mut Kept, node: Node, entry: Entry) -> Result<Change, Refusal> {
//!     let op = Op::Amend { node, entry };
//!     // The first refusal of the table that applies, as `Refusal::Public` for a public node. Nothing has changed.
//!     let part = decide_kept(alloc, kept, &op)?;
//!     // The replica admits the part: it refuses it for want of memory alone, and then stays as it was.
//!     match kept.absorb_owned(part) {
//!         // What was added is the new changeset alone, with the node's parents and phase. The node is obsolete.
//!         Ok(change) => Ok(change),
//!         Err(_) => Err(Refusal::NoMemory),
//!     }
//! }
//! ```
#![tactic(auto)]

mod bounds;
mod changesets;
mod check;
mod decision;
mod laws;
mod markers;
mod op;
mod query;
mod refusal;

pub use decision::{decide, decide_kept};
pub use hg_changeset::{ChangesetError, Entry, EntryError, Node};
pub use hg_marker::MarkerError;
pub use hg_phases::Phase;
pub use hg_replica::{Part, Replica};
pub use laws::first_refusal_is_one;
pub use op::Op;
pub use refusal::{Cause, Refusal};
