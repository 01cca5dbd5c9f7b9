//! What becomes of a repository that takes messages in, before anybody pulls.
//!
//! A [`Trial`] begins with nothing and takes messages one after the other: first a repository's own, and then what
//! others would give it. Each is taken whole or not at all. What was taken tells what is new and whose phase went down,
//! and [`Turned`] which changesets became obsolete, orphan, suspended, extinct, phase-divergent or content-divergent by
//! it, and which ceased to be. Nothing is pinned in a trial, so what is extinct is what is hidden.
//!
//! [`try_messages`] does that with a list of messages. What a trial holds then is the least state that covers the
//! messages that were taken, whatever was refused between them.
//!
//! # Example
//!
//! ```text
//! fn orphans_by(alloc: Global, keys: IdKeys, mine: &[u8], theirs: &[u8]) -> Result<BTreeSet<Node>, Refusal> {
//!     let mut trial = Trial::new(alloc, keys)?;
//!     trial.take(mine)?;
//!     // A message whose parents aren't held is refused as `Refusal::Part(Fault::UnknownParent(parent))`. The trial
//!     // holds what it held before, then.
//!     let taken = trial.take(theirs)?;
//!     // The sets as they were before, beside those of now.
//!     let turned = Turned::between(&taken.before, trial.kept().instabilities())?;
//!     Ok(turned.orphan.came)
//! }
//! ```
#![tactic(auto)]

mod difference;
mod moved;
mod refusal;
mod trial;
mod tried;
mod turned;

pub use difference::{different_phases, markers_lacked};
pub use hg_history::Fault;
pub use hg_message::MessageFault;
pub use hg_node_set::IdKeys;
pub use moved::Moved;
pub use refusal::Refusal;
pub use trial::{Taken, Trial};
pub use tried::{Answer, Tried, try_messages};
pub use turned::Turned;
