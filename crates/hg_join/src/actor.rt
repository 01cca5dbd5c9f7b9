//! The trait of states that act: that decide operations, offer what they hold, and read what others offer. The
//! crate's page says how to choose the members for a state of one's own.
ghost use Rattle.std.specs.Prelude.{◌≡◌, ◌⊎◌, ℕ, List, IfOk, IfErr, OnOk, OnErr, MatchResult};
ghost use Rattle.hg_join.specs.Order.{IsLeastOfAll, SaySame, IsDue};

use crate::memory::NoMemory;
use crate::state::JoinState;
use std::alloc::Global;

/// A state that joins and acts: it decides operations, which gives parts; it offers what it holds, as bytes; it reads
/// bytes, which gives parts; and it is marked, which changes what is its own.
///
/// What a state says grows by what it absorbs alone: to decide, to offer and to read changes nothing, and to mark
/// leaves the content as it is. What is a state's own is no part of what it says. What it decides and what it offers
/// may depend on it, but no message carries it. `Decides` and `Offers` are of states and not of contents, since what is
/// offered may follow the order in which a state keeps things; the laws, below the methods, say what of it is a matter
/// of content and of what is the state's own.
pub trait Actor: JoinState {
    /// What is to be done at a state.
    type Op: Drop;

    /// What an offer is to tell, or to leave out.
    type Ask: Drop;

    /// What is to be done to what is the state's own.
    type Mark: Drop;

    /// Why an operation, an offer, a mark or bytes are refused, with want of memory among the reasons.
    type Refusal: Drop;

    /// What states have of their own, beside what they contain.
    ghost Own: { Type 0 };

    /// What a state has of its own, free of how and in what order it is kept.
    ghost owned: { Self → Own };

    /// What a state has of its own that says nothing yet and was never marked.
    ghost own_of_empty: { Own };

    /// The state decides that the operation is this part.
    ghost Decides: { Self → Self.Op → Self.Part → Type 0 };

    /// The state refuses the operation for this reason.
    ghost IsAgainstOp: { Self → Self.Op → Self.Refusal → Type 0 };

    /// The state offers these bytes.
    ghost Offers: { Self → Self.Ask → List ℕ → Type 0 };

    /// The state refuses to offer for this reason.
    ghost IsAgainstAsk: { Self → Self.Ask → Self.Refusal → Type 0 };

    /// The first state, marked so, becomes the second.
    ghost Marks: { Self → Self.Mark → Self → Type 0 };

    /// The state refuses the mark for this reason.
    ghost IsAgainstMark: { Self → Self.Mark → Self.Refusal → Type 0 };

    /// The bytes spell the part.
    ghost Spells: { List ℕ → Self.Part → Type 0 };

    /// The bytes spell no part, for this reason.
    ghost IsAgainstBytes: { List ℕ → Self.Refusal → Type 0 };

    /// The refusal says no more than that memory ran out.
    ghost IsRefusalOfMemory: { Self.Refusal → Type 0 };

    /// A state that says nothing yet, and was never marked.
    fn empty(alloc: Global) -> Result<Self, NoMemory>
        ensures least { IfOk result (λ state. IsLeastOfAll Self.IsValid Self.Below (Self.content state)) }
        ensures own { IfOk result (λ state. owned state ≡ own_of_empty) };

    /// The part that the operation comes to, which this state admits. It is refused for a reason, or where memory ran
    /// out.
    fn decide(&self, alloc: Global, op: &Self::Op) -> Result<Self::Part, Self::Refusal>
        ensures ok { IfOk result (Decides self.now op.now) }
        ensures admitted { IfOk result (λ part. Self.Admits (Self.content self.now) (Self.part_content part)) }
        ensures err { IfErr result (λ refusal. IsAgainstOp self.now op.now refusal ⊎ IsRefusalOfMemory refusal) }

        // There is a part or a reason against it, whatever memory there is; likewise below.
        ensures due { IsDue (Decides self.now op.now) (IsAgainstOp self.now op.now) };

    /// The bytes of an offer. It is refused for a reason, or where memory ran out.
    fn offer(&self, alloc: Global, ask: &Self::Ask) -> Result<Vec<u8>, Self::Refusal>
        ensures ok { IfOk result (λ bytes. Offers self.now ask.now bytes.items) }
        ensures err { IfErr result (λ refusal. IsAgainstAsk self.now ask.now refusal ⊎ IsRefusalOfMemory refusal) }
        ensures due { IsDue (Offers self.now ask.now) (IsAgainstAsk self.now ask.now) };

    /// Marks what is the state's own. The mark is refused for a reason, or where memory ran out, and the state is then
    /// unchanged.
    fn mark(&mut self, mark: &Self::Mark) -> Result<(), Self::Refusal>
        ensures ok { OnOk result (Marks self.old mark.now self.new) }
        ensures err { IfErr result (λ refusal. IsAgainstMark self.old mark.now refusal ⊎ IsRefusalOfMemory refusal) }
        ensures unchanged { OnErr result (self.new ≡ self.old) }
        ensures due { IsDue (Marks self.old mark.now) (IsAgainstMark self.old mark.now) };

    /// The part that bytes spell. They are refused for a reason, or where memory ran out.
    fn read(alloc: Global, bytes: &[u8]) -> Result<Self::Part, Self::Refusal>
        ensures ok { IfOk result (Spells bytes.now) }
        ensures err { IfErr result (λ refusal. IsAgainstBytes bytes.now refusal ⊎ IsRefusalOfMemory refusal) }
        ensures due { IsDue (Spells bytes.now) (IsAgainstBytes bytes.now) };

    /// What [`read`](Actor::read) gives, where this state is to take the part. What bytes spell is no matter of the
    /// state, but a state that holds some of it already may be spared work, as hashing that was done when it came. By
    /// default the state isn't looked at.
    fn read_at(&self, alloc: Global, bytes: &[u8]) -> Result<Self::Part, Self::Refusal>
        ensures ok { IfOk result (Spells bytes.now) }
        ensures err { IfErr result (λ refusal. IsAgainstBytes bytes.now refusal ⊎ IsRefusalOfMemory refusal) }
        ensures due { IsDue (Spells bytes.now) (IsAgainstBytes bytes.now) }
    {
        Self::read(alloc, bytes)
    }

    /// Takes in the part that bytes spell, and tells what changed, or why the part was refused: what
    /// [`read_at`](Actor::read_at) and then [`absorb_owned`](JoinState::absorb_owned) do and tell, which is the
    /// default. A state that holds much of what the bytes say can leave that out of what it absorbs, where the answer
    /// is the same. The bytes are refused for a reason, or where memory ran out, and the state is then unchanged.
    fn take(
        &mut self,
        alloc: Global,
        bytes: &[u8],
    ) -> Result<Result<Self::Change, Self::Fault>, Self::Refusal>
        ensures taken { IfOk result (λ answer. (part : Self.Part) × Spells bytes.now part × MatchResult answer
            (λ change. Self.After (Self.content self.old) (Self.part_content part) (Self.content self.new)
            × Self.Tells self.old part change self.new)
            (λ fault. (Self.IsFirstFault (Self.content self.old) (Self.part_content part) fault
            ⊎ Self.IsWantOfMemory fault) × (self.new ≡ self.old))) }
        ensures valid { IfOk result (λ answer. OnOk answer (Self.IsValid (Self.content self.old))) }
        ensures err { IfErr result (λ refusal. IsAgainstBytes bytes.now refusal ⊎ IsRefusalOfMemory refusal) }
        ensures unchanged { OnErr result (self.new ≡ self.old) }
        ensures due { IsDue (Spells bytes.now) (IsAgainstBytes bytes.now) }
    {
        match self.read_at(alloc, bytes) {
            Ok(part) => Ok(self.absorb_owned(part)),
            Err(refusal) => Err(refusal),
        }
    }

    /// States with one content, and equal in what is their own, decide one part.
    ghost decided_once: { (s t : Self) (op : Self.Op) (p q : Self.Part) → Self.IsValid (Self.content s) →
        Self.content s ≡ Self.content t → owned s ≡ owned t → Decides s op p → Decides t op q →
        Self.part_content p ≡ Self.part_content q };

    /// What is decided has no reason against it, so it is refused for want of memory alone.
    ghost decided_is_not_refused: { (s : Self) (op : Self.Op) (p : Self.Part) (refusal : Self.Refusal) →
        Self.IsValid (Self.content s) → Decides s op p → IsAgainstOp s op refusal → ⊥ };

    /// A state offers one message.
    ghost offered_once: { (s : Self) (ask : Self.Ask) (bytes others : List ℕ) → Self.IsValid (Self.content s) →
        Offers s ask bytes → Offers s ask others → bytes ≡ others };

    /// What is offered has no reason against it, so it is refused for want of memory alone.
    ghost offered_is_not_refused: { (s : Self) (ask : Self.Ask) (bytes : List ℕ) (refusal : Self.Refusal) →
        Self.IsValid (Self.content s) → Offers s ask bytes → IsAgainstAsk s ask refusal → ⊥ };

    /// Offered bytes can be read.
    ghost offered_is_spelled: { (s : Self) (ask : Self.Ask) (bytes : List ℕ) → Self.IsValid (Self.content s) →
        Offers s ask bytes → (p : Self.Part) × Spells bytes p };

    /// A state offers no more than it says itself.
    ghost offered_is_covered: { (s : Self) (ask : Self.Ask) (bytes : List ℕ) (p : Self.Part) →
        Self.IsValid (Self.content s) → Offers s ask bytes → Spells bytes p →
        Self.Covers (Self.content s) (Self.part_content p) };

    /// States with one content, and equal in what is their own, offer the same, though each may spell it in its own
    /// way.
    ghost offered_alike: { (s t : Self) (ask : Self.Ask) (bytes others : List ℕ) (p q : Self.Part) →
        Self.IsValid (Self.content s) → Self.content s ≡ Self.content t → owned s ≡ owned t → Offers s ask bytes →
        Offers t ask others → Spells bytes p → Spells others q →
        SaySame Self.IsValid Self.Covers (Self.part_content p) (Self.part_content q) };

    /// A mark leaves what the state says.
    ghost marked_says_the_same: { (s t : Self) (mark : Self.Mark) → Marks s mark t →
        Self.content t ≡ Self.content s };

    /// States with one content, and equal in what is their own, are so again once they are marked alike.
    ghost marked_once: { (s t next follow : Self) (mark : Self.Mark) → Self.content s ≡ Self.content t →
        owned s ≡ owned t → Marks s mark next → Marks t mark follow → owned next ≡ owned follow };

    /// What is marked has no reason against it, so it is refused for want of memory alone.
    ghost marked_is_not_refused: { (s t : Self) (mark : Self.Mark) (refusal : Self.Refusal) → Marks s mark t →
        IsAgainstMark s mark refusal → ⊥ };

    /// What is absorbed leaves what is the state's own.
    ghost told_leaves_own: { (s t : Self) (part : Self.Part) (change : Self.Change) → Self.Tells s part change t →
        owned t ≡ owned s };

    /// Bytes spell one part.
    ghost spelled_once: { (bytes : List ℕ) (p q : Self.Part) → Spells bytes p → Spells bytes q →
        Self.part_content p ≡ Self.part_content q };

    /// What spells a part has no reason against it, so it is refused for want of memory alone.
    ghost spelled_is_not_refused: { (bytes : List ℕ) (p : Self.Part) (refusal : Self.Refusal) → Spells bytes p →
        IsAgainstBytes bytes refusal → ⊥ };

    /// Want of memory is no reason against an operation, so it can't stand for one.
    ghost memory_is_not_against_op: { (s : Self) (op : Self.Op) (refusal : Self.Refusal) → IsRefusalOfMemory refusal →
        IsAgainstOp s op refusal → ⊥ };

    /// Want of memory is no reason against an offer.
    ghost memory_is_not_against_ask: { (s : Self) (ask : Self.Ask) (refusal : Self.Refusal) →
        IsRefusalOfMemory refusal → IsAgainstAsk s ask refusal → ⊥ };

    /// Want of memory is no reason against a mark.
    ghost memory_is_not_against_mark: { (s : Self) (mark : Self.Mark) (refusal : Self.Refusal) →
        IsRefusalOfMemory refusal → IsAgainstMark s mark refusal → ⊥ };

    /// Want of memory is no reason against bytes.
    ghost memory_is_not_against_bytes: { (bytes : List ℕ) (refusal : Self.Refusal) → IsRefusalOfMemory refusal →
        IsAgainstBytes bytes refusal → ⊥ };
}
