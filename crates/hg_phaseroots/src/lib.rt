//! The text of roots.
//!
//! Each line is the number of a phase, a space and a node id in 40 hexadecimal digits: 1 is draft and 2 is secret. What
//! is written has draft roots first, then secret ones, each in ascending order of ids and once. What is read may list
//! roots in any order, and more than are needed; a line with 0, public, says nothing.
//!
//! # Example
//!
//! ```text
//! fn with_secret(alloc: Global, text: &[u8], node: Node) -> Result<Vec<u8>, RootsError> {
//!     // What the lines list, in their order. The first line at fault is told, counted from 1: BadLine(2) where the
//!     // second isn't a number, a space and 40 hexadecimal digits, and BadPhase(2) where its number isn't 0, 1 or 2.
//!     let read = read_roots(alloc, text)?;
//!     let mut listed = Vec::from_slice(alloc, read.as_slice())?;
//!     listed.push((Phase::Secret, node))?;
//!     let roots = Roots::new(listed);
//!     // Draft roots first, then secret ones, each in ascending order of ids and once, however they were listed. It
//!     // reads back as the roots in that order.
//!     Ok(roots_text(&roots)?)
//! }
//! ```
#![tactic(auto)]

mod error;
mod laws;
mod line;
mod read;
mod write;

pub use error::RootsError;
pub use hg_phases::Roots;
pub use laws::roots_read_back;
pub use read::read_roots;
pub use write::roots_text;
