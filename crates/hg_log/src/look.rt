//! How a history looks as a text.

/// How a history looks as a text.
#[derive(Clone, Copy, PartialEq, Eq, Debug)]
pub struct Look {
    /// Whether all that is held is drawn, and not only what is visible.
    pub shows_hidden: bool,
    /// Whether codes for colours stand around some words, as terminals read them.
    pub is_coloured: bool,
}
