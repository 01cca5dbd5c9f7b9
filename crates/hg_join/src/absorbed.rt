//! What an absorption answers that can be taken back.

/// What an absorption changed, and what takes it back.
#[derive(Drop)]
pub struct Absorbed<C, U> {
    pub change: C,
    pub undo: U,
}
