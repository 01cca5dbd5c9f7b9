//! A history: a graph of changesets with their phases, and how it grows.
//!
//! A history is always a valid state: no changeset has a lower phase than a parent of it. What it takes in are
//! changesets and bounds on phases. Absorbing them goes to the least valid state above that covers them, so that the
//! same things lead to the same state in whatever order they come, and however often.
//!
//! The laws of states are in `hg_phases`; those of their contents, which are free of the order in which a state is
//! kept, are in `specs/ContentLaws` and `specs/JoinedLaws`, for the state above that joins.
//!
//! # Example
//!
//! ```text
//! fn publish(
//!     alloc: Global,
//!     changesets: &[Changeset],
//!     tip: Node,
//! ) -> Result<(History, Change), Fault> {
//!     let mut history = History::new(alloc);
//!     // The changesets in this order, each once: the tip and its ancestors as draft, the others as secret. The first
//!     // fault is told, as an unknown parent, or a tip that isn't among them, and then nothing was added.
//!     history.absorb(changesets, &[(tip, Phase::Draft)])?;
//!     let drafts = history.copy()?;
//!     // The tip and its ancestors are public now, and these are what `published.lowered` names. None is added.
//!     let published = history.absorb(&[], &[(tip, Phase::Public)])?;
//!     // This changes nothing: phases never go up. So `drafts.is_below(&history)`, and not the other way round.
//!     history.join(&drafts)?;
//!     Ok((history, published))
//! }
//! ```
#![tactic(auto)]

mod absorb;
mod change;
mod fault;
mod history;
mod join;
mod laws;
mod undo;

pub use change::{AddedNodes, Change};
pub use fault::Fault;
pub use hg_changeset::{Changeset, Node};
pub use hg_graph::Graph;
pub use hg_phases::{Phase, Roots};
pub use history::History;
pub use laws::{
    absorbed_is_valid_above_and_covers, contents_say_what_histories_say, first_fault_is_one,
    opened_with_its_own_is_the_same,
};
pub use undo::Undo;
