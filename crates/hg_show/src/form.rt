//! What bytes are taken for.

/// What bytes are read as.
#[derive(Clone, Copy, PartialEq, Eq, Debug)]
pub enum Form {
    /// A store of obsolescence markers, in format 0 of Mercurial's `obsstore`.
    Store,
    /// A text of roots, as Mercurial's `phaseroots`.
    Roots,
    /// A message between nodes.
    Message,
}
