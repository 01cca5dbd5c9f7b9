//! Why changesets are unstable, and what became of those that were rewritten.
//!
//! [`reasons`] tells each parent by which a changeset is an orphan, each public changeset by which it is
//! phase-divergent, and each id by which it is content-divergent, with that id's successors sets. It tells all of them,
//! and nothing else, so there is a reason of a kind exactly where the changeset has that instability. [`fate_of`] tells
//! which markers rewrote an obsolete changeset, and its successors sets. [`write_why`] writes the reasons of all
//! unstable changesets of a replica, as Mercurial's `evolve --list` does, and [`write_fate`] a line with the successors
//! sets of one changeset.
//!
//! # Example
//!
//! ```text
//! fn obsolete_parents(alloc: Global, kept: &Kept, node: Node) -> Result<usize, AllocError> {
//!     let mut count = 0;
//!     for reason in reasons(alloc, kept, node)?.iter() {
//!         match reason {
//!             // It stands on a parent that is obsolete, or else an orphan itself.
//!             Reason::Orphan { is_obsolete, .. } if *is_obsolete => count += 1,
//!             _ => {}
//!         }
//!     }
//!     Ok(count)
//! }
//! ```
//!
//! # Modules
//!
//! `before` has the walk over markers to what precedes an id, `reason` what a reason is, `causes` all of them; `fate`
//! has what became of a changeset, and `fate_line` writes that. `moves` tells to where an orphan is moved, and `remedy`
//! whether that is written. `named` and `told` write what changesets are called and what a reason says, `why` the
//! blocks.
#![tactic(auto)]

mod before;
mod causes;
mod fate;
mod fate_line;
mod moves;
mod named;
mod reason;
mod remedy;
mod told;
mod why;

pub use causes::reasons;
pub use fate::{Fate, fate_of};
pub use fate_line::{knows, write_fate};
pub use named::push_named;
pub use reason::Reason;
pub use remedy::Remedy;
pub use why::write_why;
