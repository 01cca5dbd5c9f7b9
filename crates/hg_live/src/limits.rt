//! How many calls a node accepts, and how many passes it gives.

/// The most calls of a node that are accepted.
pub const CALL_LIMIT: u64 = 1 << 62;

/// The most passes of a node that are ever made.
pub const PASS_LIMIT: u64 = 1 << 62;
