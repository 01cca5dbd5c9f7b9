//! What is written of messages that a repository would take in.
//!
//! [`write_answer`] writes what a message was answered in a trial ([`hg_trial`]): how much is new, whose phase went
//! down, and which changesets became orphan, phase-divergent, content-divergent, suspended or extinct by it, or ceased
//! to be; or why nothing of it was taken. [`write_trial`] does so with a list of messages, each taken in turn by what
//! holds nothing at first. [`write_comparison`] writes in what two repositories differ, and tells whether they agree;
//! [`compare_messages`] does so with those of two messages.
//!
//! # Example
//!
//! ```text
//! use hg_log::DrawFault;
//! use hg_node_set::IdKeys;
//! use hg_preview::{NamedMessage, write_trial};
//! use std::alloc::Global;
//!
//! fn orphans_after(
//!     alloc: Global,
//!     keys: IdKeys,
//!     mine: &[u8],
//!     theirs: &[u8],
//!     lines: &mut Vec<u8>,
//! ) -> Result<usize, DrawFault> {
//!     let messages = [
//!         NamedMessage { name: b"mine", bytes: mine },
//!         NamedMessage { name: b"theirs", bytes: theirs },
//!     ];
//!     // Lines that tell what each message would change, in turn, or why it is refused: that is no error.
//!     let tried = write_trial(alloc, keys, &messages, lines)?;
//!     // What holds all that was taken, with its instabilities.
//!     Ok(tried.trial.kept().instabilities().orphan().len())
//! }
//! ```
#![tactic(auto)]

mod answer;
mod comparing;
mod comparison;
mod lines;
mod messages;
mod order;
mod refused;

pub use answer::write_answer;
pub use comparing::compare_messages;
pub use comparison::write_comparison;
pub use messages::{NamedMessage, write_trial};
