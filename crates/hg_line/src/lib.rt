//! A line of a script: its language, and what it does to a fleet.
//!
//! The replicas of a fleet are the peers of a world ([`hg_world`], [`hg_peer`]). A line is divided into words and read
//! as a command before anything is done, and the command is events of the world. What a replica refuses is printed; a
//! [`RunFault`] ends the script. [`run_line`] prints what a line reports, [`output_of`] gives that, and [`tell_line`]
//! writes notes with it: why something was refused, and what an accepted line did. Whole scripts are in `hg_script`.
//!
//! # Example
//!
//! ```text
//! fn id_of_a(alloc: Global, keys: IdKeys) -> Result<Option<Node>, RunFault> {
//!     // A world with a place for one node, which a line gives its name.
//!     let mut fleet = Fleet::new(alloc, keys, 1)?;
//!     let mut buffers = EntryBuffers::new(alloc);
//!     output_of(alloc, &mut fleet, 1, b"node A", &mut buffers)?;
//!     // A report, and what a replica refuses, are what a line prints: here it is nothing.
//!     output_of(alloc, &mut fleet, 2, b"commit A a draft", &mut buffers)?;
//!     Ok(fleet.node_of(b"a"))
//! }
//! ```
#![tactic(auto)]

mod answer;
mod blaming;
mod command;
mod command_fault;
mod disagreement;
mod entry_buffers;
mod explaining;
mod fault;
mod fleet;
mod hint;
mod limits;
mod line;
mod line_outcome;
mod lines;
mod marking;
mod operation;
mod origin;
mod output;
mod reading;
mod report;
mod telling;
mod tracing;
mod unstable;

pub use entry_buffers::EntryBuffers;
pub use fault::{LineFault, RunFault};
pub use fleet::Fleet;
pub use line::{output_of, run_line};
pub use line_outcome::LineOutcome;
pub use lines::count_nodes;
pub use output::printed_lines_are_those_of_the_format;
pub use telling::{NotedFault, Notes, tell_line, with_origin};
