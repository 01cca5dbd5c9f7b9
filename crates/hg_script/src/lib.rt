//! Scripts of a fleet.
//!
//! A script comes in by any reader, and what its lines report goes out by any writer: [`run_script`] reads the whole
//! script, does its lines in order ([`hg_line`]) and prints what they report. What a line's replica refuses is printed,
//! and the script goes on; a [`RunFault`] ends it.
//!
//! The replicas of a script are the peers of a world ([`hg_world`], [`hg_peer`]), which begins new, and each command is
//! events of it. So whatever a script does is one run of that world, and the laws of runs say what became of it:
//! [`run_fleet`] gives the fleet as the script leaves it, world and names, and its contract says so.
//!
//! Ids and labels are hashed by keys ([`hg_node_set`]). Whoever writes a script chooses them, and under the keys that
//! everybody knows can choose them so that they meet and each look-up is dear. So a program that runs scripts of
//! strangers draws secret keys.
//!
//! # Example
//!
//! ```text
//! fn changesets_at_end<W: Write>(alloc: Global, keys: IdKeys, writer: &mut W) -> Result<Option<usize>, RunFault> {
//!     let mut script = b"node A\ncommit A a draft\namend A a b\namend A a c\nreport A\n".as_slice();
//!     // What a replica refuses is printed, here as `4: rewrite 4 AlreadyObsolete`, and the script goes on. A line at
//!     // fault ends it, as `RunFault::Line` with its number. What was printed before stays.
//!     let fleet = run_fleet(alloc, keys, &mut script, writer)?;
//!     // The world of the fleet is what a run of the events of all lines leads to, from a new world. A name that no
//!     // line gave to a node has no replica. The one of `A` holds `a` and `b`.
//!     let kept = fleet.kept_of(b"A");
//!     Ok(kept.map(|kept| kept.replica().graph().len()))
//! }
//! ```
#![tactic(auto)]

mod by_line;
mod counted;
mod input;
mod script;
mod steps;
mod telling;

pub use by_line::{PrintedScript, run_by_line};
pub use hg_line::{Fleet, LineFault, NotedFault, Notes, RunFault};
pub use input::read_script;
pub use script::{run_fleet, run_script};
pub use telling::{Outcome, run_with_notes};
