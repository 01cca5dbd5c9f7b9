//! Nodes by their names.
use hg_view::Kept;

/// A node whose history is drawn, and what it is called.
#[derive(Clone, Copy)]
pub struct NamedNode<'a> {
    pub name: &'a [u8],
    pub kept: &'a Kept,
}
