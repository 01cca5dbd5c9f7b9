//! How long lines and their parts may be.

/// The most bytes that a line may have, without its end.
pub const LINE_LIMIT: usize = 4096;

/// The most bytes that a name may have.
pub const NAME_LIMIT: usize = 32;
