//! Obsolescence markers of format 0.
//!
//! A [`Marker`] says that its predecessor was rewritten to its successors, with flags and [`Metadata`]. [`encode`]
//! writes a marker in one way, and [`decode`] reads the marker at the front of bytes, in whichever way it is spelled.
//!
//! # Example
//!
//! ```text
//! fn rewritten(
//!     alloc: Global,
//!     old: Node,
//!     new: Node,
//!     user: &[u8],
//! ) -> anyhow::Result<(Vec<u8>, Marker)> {
//!     let mut texts = TextMap::new(alloc);
//!     texts.insert(b"user", user)?;
//!     // SelfSuccessor where both are one node, NullSuccessor where the new one is the null id, BadValue where the
//!     // user holds a NUL, and MetaTooLong where the user is too long: the first of these that applies.
//!     let marker = Marker::new(old, &[new], 0, &texts)?;
//!     // 26 bytes, 20 for each successor, and `user:` with the user.
//!     let bytes = encode(&marker)?;
//!     // An equal marker, and how many bytes it takes: here all of them. Other bytes may follow; where some are
//!     // missing that is refused as Truncated.
//!     let (same, _all) = decode(alloc, &bytes)?;
//!     Ok((bytes, same))
//! }
//! ```
#![tactic(auto)]

mod error;
mod format;
mod marker;
mod metadata;
mod note;
mod parents;
mod pieces;
mod reading;
mod source;
mod text_map;

pub use error::{MarkerError, MarkerFault, ReadError};
pub use format::{decode, encode, read_marker, skip_marker, spelling_laws, write_marker};
pub use hg_changeset::Node;
pub use marker::{METADATA_LIMIT, Marker, SUCCESSOR_LIMIT};
pub use metadata::Metadata;
pub use note::Note;
pub use parents::Parents;
pub use pieces::Entries;
pub use reading::{read_byte, read_field, read_node, read_number, write_number};
pub use text_map::TextMap;
