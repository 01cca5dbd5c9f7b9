//! Laws of the table of refusals, in the words of `specs/` alone.
ghost use Rattle.std.specs.Prelude.{◌≡◌, List};
ghost use Rattle.hg_changeset.specs.declared.node.Node.{Node};
ghost use Rattle.hg_replica.specs.State.{ReplicaState};
ghost use Rattle.hg_rewrite.specs.declared.op.Op.{Op};
ghost use Rattle.hg_rewrite.specs.declared.refusal.Refusal.{Refusal};
ghost use Rattle.hg_rewrite.specs.declared.refusal.Refusal.TheVariants.{NoMemory};
ghost use Rattle.hg_rewrite.specs.Refusals.{NoneApplies, IsFirstRefusal, refusals};

/// Under any pins an operation has one first refusal at most, which is never want of memory, and none where no row
/// applies: a part and a refusal exclude each other.
pub fn first_refusal_is_one()
    ensures one { (s : ReplicaState) (pins : List Node) (op : Op) (r other : Refusal)
        → IsFirstRefusal (refusals s pins op) r → IsFirstRefusal (refusals s pins op) other → r ≡ other }
    ensures none { (s : ReplicaState) (pins : List Node) (op : Op) (r : Refusal) → NoneApplies (refusals s pins op)
        → IsFirstRefusal (refusals s pins op) r → ⊥ }
    ensures memory { (s : ReplicaState) (pins : List Node) (op : Op)
        → IsFirstRefusal (refusals s pins op) NoMemory → ⊥ }
{}
