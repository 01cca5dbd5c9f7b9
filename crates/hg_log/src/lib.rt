//! Drawings of a node's history: its changesets in columns, as text, and as a graph for Graphviz.
//!
//! Both show a replica as it is, under the pins of its node: what each changeset is called, its phase, what is unstable
//! about it, and what became of what was rewritten. [`draw_log`] is the picture that `hg log -G` gives, and
//! [`draw_graphs`] the input of `dot`. Either is written as it is drawn, a line at a time. What else tells of
//! changesets takes the same words: [`push_short_id`], [`title_of`], [`push_label`], [`rewriting_word`], and
//! [`push_text`], [`write_line`] and [`write_appended`] for a line.
//!
//! # Example
//!
//! ```text
//! fn draw_both<W: Write>(alloc: Global, kept: &Kept, writer: &mut W) -> Result<(), DrawFault> {
//!     // What is visible under the pins, a line at a time, from the changeset that came last to the first.
//!     let look = Look { shows_hidden: false, is_coloured: false };
//!     draw_log(alloc, kept, look, writer)?;
//!     // All that is held, with every marker, as input of `dot`. Either ends as `DrawFault::Write` where the writer
//!     // refuses a line, and as `DrawFault::NoMemory` for want of memory. The lines before stay written.
//!     let nodes = [NamedNode { name: b"A", kept }];
//!     draw_graphs(alloc, &nodes, &nodes, true, writer)
//! }
//! ```
#![tactic(auto)]

mod boxes;
mod cells;
mod colour;
mod columns;
mod described;
mod dot;
mod entry;
mod fate;
mod fault;
mod json;
mod kind;
mod line;
mod log;
mod look;
mod named;
mod objects;
mod shown;
mod titles;

pub use described::{push_label, push_short_id};
pub use dot::draw_graphs;
pub use fate::rewriting_word;
pub use fault::DrawFault;
pub use line::{push_text, write_appended, write_line};
pub use log::draw_log;
pub use look::Look;
pub use named::NamedNode;
pub use objects::draw_objects;
pub use shown::node_at;
pub use titles::title_of;
