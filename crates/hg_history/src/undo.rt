//! What takes an absorption or a join back.
//!
//! What was taken in stands behind what was held before, and has left a log of what it lowered. So an undo is the
//! number of changesets before, and the log: it takes this back later, as long as nothing else was changed.

use hg_phases::LoweringLog;
use std::marker::Model;

/// Takes an absorption or a join back: how many changesets were held before, and what was lowered.
#[derive(Drop)]
pub struct Undo {
    pub(crate) before: usize,
    pub(crate) log: LoweringLog,
}

impl Model for Undo {
    ghost use Rattle.hg_history.specs.Undo.{UndoValue};

    ghost Value = { UndoValue };

    ghost view = { λ undo. record { before = undo.before; log = undo.log } };
}
