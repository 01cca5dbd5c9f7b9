//! Instabilities: which changesets are obsolete, and which others are unstable on their account.
//!
//! An obsolete changeset was rewritten, or pruned. What stands on one is an orphan, and keeps the obsolete changesets
//! below it from being given up. What was rewritten from a changeset that others know as public is phase-divergent. All
//! of this follows from what a replica contains, in whatever order it came.
//!
//! # Example
//!
//! ```text
//! fn orphans_after(alloc: Global, replica: &mut Replica, part: &Part) -> Result<BTreeSet<Node>, Fault> {
//!     // The sets of what the replica holds now.
//!     let mut sets = Instabilities::from_scratch(alloc, replica)?;
//!     // A part that is refused changes nothing: the sets would still be right.
//!     let change = replica.absorb(part)?;
//!     // Now they are the sets of the replica with the part, at the cost of what it touched. Where memory is wanting
//!     // they stay as they were, behind the replica: who goes on then finds them from scratch.
//!     sets.update(replica, &change)?;
//!     // Each is neither public nor obsolete, and has obsolete ancestors. These are among `sets.suspended()`.
//!     let orphans = sets.orphan().clone()?;
//!     Ok(orphans)
//! }
//! ```
//!
//! # Modules
//!
//! Of one changeset: `query`, in which phase it is, and whether it is obsolete.
//!
//! From scratch: `orphans`, orphans and suspended changesets; `first`, ids after something public and near forks, all
//! markers taken to be new; `divergence`, content-divergent changesets of a region; `among`, those of some nodes of
//! which something holds; `walk`, steps over markers; `laws`, what the instabilities are a matter of.
//!
//! Kept from change to change: `instabilities`, the sets; `turning`, what a change turns, by `quick`, a few look-ups,
//! where these tell, and else by `turns`, of each set; `turn`, what comes to one set and goes from it. What else is
//! asked: `seeds`, the ids that a change touched; `orphan_walk` and `extinct_walk`, by `settling`, which asks at places
//! in the graph's order, `waiting`, the places that are still to be asked, `turned`, nodes whose answers differ, and
//! `child_hints`, with which child a question begins; `after_public`, ids that newly come after something public;
//! `near`, the region of ids that is asked again near forks, and `amend`, amends that need none.
#![tactic(auto)]

mod after_public;
mod amend;
mod among;
mod child_hints;
mod divergence;
mod extinct_walk;
mod first;
mod instabilities;
mod laws;
mod near;
mod orphan_walk;
mod orphans;
mod query;
mod quick;
mod seeds;
mod settling;
mod turn;
mod turned;
mod turning;
mod turns;
mod waiting;
mod walk;

pub use instabilities::Instabilities;
pub use laws::{
    neighbours_decide_what_is_orphan_and_extinct, predecessors_decide_what_is_divergent,
    states_of_one_content_have_the_same_instabilities,
};
pub use query::{has_phase, has_phase_at, is_mutable, is_obsolete, is_obsolete_at};
