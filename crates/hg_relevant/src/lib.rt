//! Which markers say something of a set of changesets: what goes with them where they are handed on.
//!
//! Who is sent changesets has to learn as well what they came in place of, and what was pruned. [`relevant`] takes the
//! nodes that are sent and a [`Store`](hg_obsstore::Store), and gives the places there of exactly the markers that go
//! with them: the whole line of rewrites that led to the nodes, and what was pruned from them. Begin with it.
//!
//! # Example
//!
//! ```text
//! fn markers_for(
//!     alloc: Global,
//!     store: &Store,
//!     sent: &[Node],
//! ) -> Result<(Option<usize>, Vec<u8>), AllocError> {
//!     // The places of the markers that go with these nodes, ascending: the whole line of rewrites that led to them,
//!     // and what was pruned from them. A marker that rewrites a sent node to others isn't among them for that alone.
//!     let places = relevant(alloc, store, sent)?;
//!     // How many bytes they take as written, with the byte of the version; None where a `usize` can't tell it.
//!     let len = markers_len_at(store, &places);
//!     // These markers alone, as a store of them is written.
//!     let mut bytes = Vec::new(alloc);
//!     write_markers_at(&mut bytes, store, &places)?;
//!     Ok((len, bytes))
//! }
//! ```
#![tactic(auto)]

mod search;

pub use search::relevant;
