//! Which node it is.
use hg_journal::JournalName;
use std::marker::Brand;
use std::sync::ledger::Ledger;

/// Which node it is. Each call of a program picks it.
pub trait NodeName: Ledger + JournalName {
    ghost use Rattle.hg_view.specs.Kept.{KeptValue};

    /// The state that it opens with.
    ghost opening: { KeptValue };
}

impl NodeName for Brand {
    ghost use Rattle.std.specs.Prelude.{[]};
    ghost use Rattle.hg_replica.specs.State.{nothing_held};

    ghost opening = { record { replica = nothing_held; pins = [] } };
}
