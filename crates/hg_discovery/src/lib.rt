//! Discovery: which changesets two replicas have in common, asked in rounds.
//!
//! The asker's changesets that aren't secret begin as undecided. Each round asks about a sample of them: their heads,
//! and then others. A yes makes a changeset and its ancestors common, a no makes it and its descendants missing. So
//! what is undecided never has a decided changeset between two of its own, and a head is one without undecided
//! children. An answer is spread by a walk that stops at what is decided, so all answers together cost what they
//! decide.
//!
//! Ids are put in order once, at the start. A round costs a copy of what is decided, a byte for each changeset that the
//! asker holds, one sweep over these, to mark what has an undecided child, and what its answers decide.
//!
//! The asker calls [`Discovery`], and the other side answers by [`known`], under its pins. Both may go on in the
//! meantime. Where both stand in one process, [`heads_in_common_compared`] does all of it by a walk down from the
//! asker's changesets without a child, and by rounds where one id stands for two changesets.
//!
//! # Example
//!
//! ```text
//! fn common_with(alloc: Global, asker: &Replica, other: &Kept) -> Result<Vec<Node>, DiscoveryError> {
//!     // The asker's changesets that aren't secret are undecided.
//!     let mut discovery = Discovery::start(alloc, asker)?;
//!     while !discovery.done() {
//!         // At most 200 ids, which go to the other side. It tells of each whether it serves it, under its pins.
//!         let asked = discovery.sample()?;
//!         let answers = known_kept(alloc, other, &asked)?;
//!         // At least 200 are decided, or all. More or fewer answers than were asked for are refused as
//!         // `DiscoveryError::WrongCount`, and nothing changes.
//!         discovery.answer(&answers)?;
//!     }
//!     // The heads of what both hold. Here the other side stays as it is, so that is all that it serves of the asker's
//!     // changesets that aren't secret. No id may stand for two changesets.
//!     let heads = discovery.common_heads()?;
//!     Ok(heads)
//! }
//! ```
#![tactic(auto)]

mod answers;
mod between;
mod children;
mod compared;
mod discovery;
mod draw;
mod error;
mod finding;
mod heads;
mod laws;
mod order;
mod spread;
mod start;

pub use answers::{known, known_kept};
pub use between::heads_in_common_compared;
pub use compared::Compared;
pub use discovery::Discovery;
pub use error::DiscoveryError;
pub use finding::{Finding, PlacedNode};
pub use laws::{rounds_are_few, what_is_common_is_held_by_both, what_is_common_is_what_is_served};
