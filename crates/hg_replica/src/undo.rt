//! What takes an absorption or a join back: the history's undo, and how many markers were held before.
use std::marker::Model;

/// Takes an absorption or a join back, without memory, as long as nothing else was changed.
#[derive(Drop)]
pub struct Undo {
    pub(crate) history: hg_history::Undo,
    pub(crate) markers: usize,
}

impl Model for Undo {
    ghost use Rattle.hg_replica.specs.Undo.{UndoValue};

    ghost Value = { UndoValue };

    ghost view = { λ undo. record { history = undo.history; markers = undo.markers } };
}
