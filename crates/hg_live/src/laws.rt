//! What holds of every node.
ghost use Rattle.std.specs.Prelude.{List, ℕ, [], ◌∷◌};
ghost use Rattle.hg_replica.specs.Least.{IsLeast, IsLeastOneByOne};
ghost use Rattle.hg_replica.specs.State.{IsValid};
ghost use Rattle.hg_rewrite.specs.declared.op.Op.{Op as OpValue};
ghost use Rattle.hg_view.specs.Kept.{KeptValue};
ghost use Rattle.hg_world.specs.declared.event.Event.TheVariants as event;
ghost use Rattle.hg_peer.specs.declared.mark.Mark.{Mark as MarkValue};
ghost use Rattle.hg_live.specs.declared.entry.Entry.{Entry as EntryValue};
ghost use Rattle.hg_live.specs.After.{IsAfter, IsNext, parts_among};
ghost use Rattle.hg_live.specs.Calls.{EntersLocal, EntersBytes, EntersMark};
ghost use Rattle.hg_live.specs.Steps.{IsStep};

/// What entries lead to is the least state above what was there before that covers their parts, by the formula: the
/// union, each changeset in the lowest of its phases. It is so part after part, too: the marks among them change pins
/// alone.
pub fn states_are_least()
    ensures one_by_one { (before after : KeptValue) → (entries : List EntryValue) → IsAfter before entries after
        → IsLeastOneByOne before.replica (parts_among entries) after.replica }
    ensures formula { (before after : KeptValue) → (entries : List EntryValue) → IsValid before.replica
        → IsAfter before entries after → IsLeast before.replica (parts_among entries) after.replica }
{}

/// An accepted call of a node is a step of a world of one peer: what it decides is a local event there, what it takes
/// is a message of that world that the peer takes, and a pin or an unpin is a mark. The entry is what the step brought,
/// and the state after it is that of the peer after the step.
pub fn calls_are_steps_of_a_peer()
    ensures local { (before after : KeptValue) → (op : OpValue) → (entry : EntryValue) → EntersLocal op before entry
        → IsNext before entry after → IsStep [] before (event.Local 0 op) entry after }
    ensures take { (before after : KeptValue) → (bytes : List ℕ) → (entry : EntryValue) → IsValid before.replica
        → EntersBytes bytes before entry → IsNext before entry after
        → IsStep (bytes ∷ []) before (event.Take 0 0) entry after }
    ensures mark { (before after : KeptValue) → (mark : MarkValue) → (entry : EntryValue)
        → EntersMark mark before entry → IsNext before entry after
        → IsStep [] before (event.Mark 0 mark) entry after }
{}
