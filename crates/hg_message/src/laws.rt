//! Laws of spellings, of the first fault, and of parts that come without what is known.
ghost use Rattle.std.specs.Prelude.{◌≡◌, ◌++◌, ℕ, List, Result, Ok, Err};
ghost use Rattle.hex.specs.Hex.{IsBytes};
ghost use Rattle.hg_history.specs.declared.fault.Fault.{Fault};
ghost use Rattle.hg_replica.specs.State.{ReplicaState, IsValid};
ghost use Rattle.hg_replica.specs.Least.{PartValue};
ghost use Rattle.hg_replica.specs.Change.{ChangeValue};
ghost use Rattle.hg_replica.specs.Answer.{AbsorbAnswer, IsGrowthBeforeFault};
ghost use Rattle.hg_message.specs.declared.error.MessageFault.{MessageFault};
ghost use Rattle.hg_message.specs.FirstFault.{IsMessageFault};
ghost use Rattle.hg_message.specs.Value.{MessageValue};
ghost use Rattle.hg_message.specs.Part.{part_of};
ghost use Rattle.hg_message.specs.Known.{IsPartAt};
ghost use Rattle.hg_message.specs.Message.{message_at};
ghost use Rattle.hg_message.specs.Spelling.{IsMessageSpelling, IsWritable, message_spelling};

/// The laws of spellings: no spelling of a message begins another or has two meanings, and what is written of any
/// message is read as that message.
pub fn spelling_laws()
    ensures once { (m n : MessageValue) (a b x y : List ℕ) → IsMessageSpelling m a → IsMessageSpelling n b
        → a ++ x ≡ b ++ y → (a ≡ b) × (m ≡ n) }
    ensures again { (m : MessageValue) → IsWritable m → message_at (message_spelling m) ≡ Ok m }
{}

/// The law of the first fault: what reading meets is the fault of the field behind whole ones without fault, and such a
/// fault is met.
pub fn first_fault_laws()
    ensures first { (bytes : List ℕ) (fault : MessageFault) → IsBytes bytes → message_at bytes ≡ Err fault
        → IsMessageFault bytes fault }
    ensures met { (bytes : List ℕ) (fault : MessageFault) → IsBytes bytes → IsMessageFault bytes fault
        → message_at bytes ≡ Err fault }
{}

/// The law of parts that come without what is known: a replica in a valid state answers to such a part as it does to
/// the whole one, and is the same afterwards; and where something grows before a fault of such a part is met,
/// something does before one of the whole.
pub fn what_is_left_is_absorbed_alike()
    ensures answered { (s t : ReplicaState) (m : MessageValue) (part : PartValue) (result : Result ChangeValue Fault)
        → IsValid s → IsPartAt s m part → AbsorbAnswer s part result t → AbsorbAnswer s (part_of m) result t }
    ensures grown { (s : ReplicaState) (m : MessageValue) (part : PartValue) → IsValid s → IsPartAt s m part
        → IsGrowthBeforeFault s part → IsGrowthBeforeFault s (part_of m) }
{}
