//! Reading stores of markers, texts of roots and messages as text, and writing what a node holds as such bytes.
//!
//! [`show`] reads bytes to their end and prints a line for each thing that they say. A marker is printed as
//! `hg debugobsolete` prints one: the predecessor, the successors, the flags in hexadecimal digits, the parents of the
//! predecessor where they are recorded, the date in Mercurial's default form, and the other metadata. Bytes that aren't
//! printable ASCII are escaped. What bytes are at fault is told as the library of their format tells it.
//!
//! [`write_store`] and [`write_roots`] write the bytes of these formats, and [`write_bytes`] those of a message.
//!
//! # Example
//!
//! ```text
//! fn markers_of(alloc: Global, kept: &Kept) -> Result<Vec<u8>, ShowFault> {
//!     let mut bytes = Vec::new(alloc);
//!     // The markers of the node as a store of format 0, in the order in which they came. A vector refuses to take
//!     // them for want of memory alone.
//!     write_store(kept, &mut bytes).map_err(|_| ShowFault::NoMemory)?;
//!     let mut lines = Vec::new(alloc);
//!     // Bytes at fault are refused with their first fault, as `ShowFault::Store`, before anything is printed.
//!     show_bytes(alloc, Form::Store, &bytes, &mut lines)?;
//!     // A line for each marker, as `hg debugobsolete` prints it.
//!     Ok(lines)
//! }
//! ```
#![tactic(auto)]

mod date;
mod fault;
mod form;
mod input;
mod line;
mod marker;
mod message;
mod roots;
mod showing;
mod store;
mod writing;

pub use fault::{ShowFault, WriteFault};
pub use form::Form;
pub use input::INPUT_LIMIT;
pub use showing::{show, show_bytes};
pub use writing::{write_bytes, write_roots, write_store};
