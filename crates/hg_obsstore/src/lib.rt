//! A store of obsolescence markers: a set that only grows, with exact look-ups.
//!
//! A [`Store`] holds each marker once, in the order in which they came, and a marker is named by its place there. It is
//! what a repository remembers of its rewrites. Begin with [`Store::new`], or with [`read_store`] where there are
//! bytes; who takes bytes of strangers makes the store [`Store::with_keys`] or by [`read_store_with_keys`].
//! [`Store::add`] takes in a marker, [`Store::absorb`] several, and [`Store::join`] those of another store; a
//! refusal leaves the store as it was. [`Store::mentions`] tells by one look-up which markers name a node: as
//! predecessor, as a successor, or as a parent of the predecessor. [`store_bytes`] writes a store in its one way, which
//! [`read_store`] reads back.
//!
//! # Example
//!
//! ```text
//! fn note(alloc: Global, file: &[u8], marker: Marker) -> anyhow::Result<(usize, Vec<u8>)> {
//!     let node = marker.predecessor();
//!     // The markers in their order, and of equal ones the first. The first fault from the front is told: BadVersion,
//!     // or Bad with the place of the marker that can't be read and its cause.
//!     let mut store = read_store(alloc, file)?;
//!     // It stands last, and that is told as Added::New. Where an equal one is held nothing changes: Added::Known.
//!     store.add(marker)?;
//!     // Exactly the places of the markers that say what this node was rewritten to, ascending: at least one.
//!     let rewrites = store.with_predecessor(node).len();
//!     // These bytes are read back as this store, in its order.
//!     let bytes = store_bytes(&store)?;
//!     Ok((rewrites, bytes))
//! }
//! ```
#![tactic(auto)]

mod digests;
mod entries;
mod fault;
mod format;
mod index;
mod join_state;
mod places;
mod store;

pub use fault::StoreFault;
pub use format::{
    check_markers, markers_bytes, markers_len, markers_len_at, read_markers, read_store,
    read_store_with_keys, store_bytes, write_markers, write_markers_at,
};
pub use hg_changeset::Node;
pub use hg_join::NoMemory;
pub use hg_marker::{Marker, MarkerFault};
pub use index::Mentions;
pub use store::{Added, NewPlaces, Store};
