//! The trait of states that join. The crate's page says how to choose the members for a state of one's own.
ghost use Rattle.std.specs.Prelude.{◌≡◌, ◌↔◌, ◌⊎◌, [], ◌∷◌, IsTrue, IfOk, IfErr, OnOk, OnErr};
ghost use Rattle.hg_join.specs.Order.{IsPartialOrder, IsLeastAbove, IsLeastCovering};

use crate::memory::NoMemory;

/// A state that grows by absorbing parts and by joining other states, and never shrinks.
///
/// Its ghost members say what states contain and what growing does to contents; the methods' contracts say that the
/// code does that; and the laws, below the methods, say that it is lawful. All laws are of valid contents.
pub trait JoinState: Drop {
    /// What a state absorbs.
    type Part: Drop;

    /// What a state tells of what absorbing a part changed.
    type Change: Drop;

    /// Why a part or another state is refused, with want of memory among the reasons.
    type Fault: Drop;

    /// What states contain. It may be a function, as from keys to what is held there.
    ghost Content: { Type 0 };

    /// What a state contains, free of how and in what order it is kept.
    ghost content: { Self → Content };

    /// Some state may contain this.
    ghost IsValid: { Content → Type 0 };

    /// The second content says all that the first says.
    ghost Below: { Content → Content → Type 0 };

    /// The third content is the join of the first two. Not all contents need have a join.
    ghost Joined: { Content → Content → Content → Type 0 };

    /// The two contents can't be joined, for this reason. Each of several reasons may be told.
    ghost Collides: { Content → Content → Self.Fault → Type 0 };

    /// What parts say.
    ghost PartContent: { Type 0 };

    /// What a part says.
    ghost part_content: { Self.Part → PartContent };

    /// The content says all of the part already.
    ghost Covers: { Content → PartContent → Type 0 };

    /// The content can take the part.
    ghost Admits: { Content → PartContent → Type 0 };

    /// The part, absorbed by the first content, leaves the second.
    ghost After: { Content → PartContent → Content → Type 0 };

    /// What is first wrong with a part that the content can't take.
    ghost IsFirstFault: { Content → PartContent → Self.Fault → Type 0 };

    /// The change says what the part made of the first state, which is now the second. It is of states and not of
    /// contents, so it can speak of places, and of the order in which a state keeps what a part brings.
    ghost Tells: { Self → Self.Part → Self.Change → Self → Type 0 };

    /// The fault says no more than that memory ran out.
    ghost IsWantOfMemory: { Self.Fault → Type 0 };

    /// An equal state.
    fn copy(&self) -> Result<Self, NoMemory>
        ensures { IfOk result (λ copy. copy ≡ self.now) };

    /// Takes in what the part says, and tells what changed. A part that is not admitted is refused for the first
    /// fault in it, and any part may be refused for want of memory; the state is then unchanged.
    fn absorb(&mut self, part: &Self::Part) -> Result<Self::Change, Self::Fault>
        ensures after { OnOk result (After (content self.old) (part_content part.now) (content self.new)) }
        ensures change { IfOk result (λ change. Tells self.old part.now change self.new) }
        ensures valid { OnOk result (IsValid (content self.old)) }

        // What is refused is at fault, or memory ran out.
        ensures fault { IfErr result (λ fault. IsFirstFault (content self.old) (part_content part.now) fault
            ⊎ IsWantOfMemory fault) }
        ensures err { OnErr result (self.new ≡ self.old) };

    /// Takes in a part that isn't needed any more: what [`absorb`](JoinState::absorb) does, and tells. A state that
    /// keeps what its parts hold can move it in rather than copy it; by default it is absorbed and then dropped.
    fn absorb_owned(&mut self, part: Self::Part) -> Result<Self::Change, Self::Fault>
        ensures after { OnOk result (After (content self.old) (part_content part) (content self.new)) }
        ensures change { IfOk result (λ change. Tells self.old part change self.new) }
        ensures valid { OnOk result (IsValid (content self.old)) }
        ensures fault { IfErr result (λ fault. IsFirstFault (content self.old) (part_content part) fault
            ⊎ IsWantOfMemory fault) }
        ensures err { OnErr result (self.new ≡ self.old) }
    {
        self.absorb(&part)
    }

    /// Takes in all that the other state says. A state that collides is refused, and any may be refused for want of
    /// memory; this state is then unchanged.
    fn join(&mut self, other: &Self) -> Result<(), Self::Fault>
        ensures joined { OnOk result (Joined (content self.old) (content other.now) (content self.new)) }
        ensures valid { OnOk result (IsValid (content self.old)) }
        ensures other_valid { OnOk result (IsValid (content other.now)) }

        // What is refused collides, or memory ran out.
        ensures fault { IfErr result (λ fault. Collides (content self.old) (content other.now) fault
            ⊎ IsWantOfMemory fault) }
        ensures err { OnErr result (self.new ≡ self.old) };

    /// Whether the other state says all that this one says. States that are below each other have one content.
    fn below(&self, other: &Self) -> Result<bool, NoMemory>
        ensures answer { IfOk result (λ answer. IsTrue answer ↔ Below (content self.now) (content other.now)) }

        // Each state's content is valid, whatever the answer.
        ensures valid { IsValid (content self.now) }
        ensures other_valid { IsValid (content other.now) };

    /// `Below` is a partial order: what is below both ways is equal.
    ghost ordered: { IsPartialOrder IsValid Below };

    /// What covers a part still does when it grows, so a part is never forgotten.
    ghost stays_covered: { (a b : Content) (p : PartContent) → IsValid a → IsValid b → Below a b → Covers a p →
        Covers b p };

    /// What a part leaves is the least valid content above that covers it: nothing is added that the part does not say.
    ghost absorbed: { (a b : Content) (p : PartContent) → IsValid a → After a p b →
        IsLeastCovering IsValid Below Covers a (p ∷ []) b };

    /// Only an admitted part is absorbed.
    ghost after_is_admitted: { (a b : Content) (p : PartContent) → IsValid a → After a p b → Admits a p };

    /// An admitted part has no fault, so it is refused for want of memory alone.
    ghost faultless: { (a : Content) (p : PartContent) (fault : Self.Fault) → IsValid a → Admits a p →
        IsFirstFault a p fault → ⊥ };

    /// A covered part is admitted: what is held may come again.
    ghost covered_is_admitted: { (a : Content) (p : PartContent) → IsValid a → Covers a p → Admits a p };

    /// Contents that have a join don't collide, so joining them is refused for want of memory alone.
    ghost apart: { (a b c : Content) (fault : Self.Fault) → IsValid a → IsValid b → Joined a b c → Collides a b fault →
        ⊥ };

    /// What collides has no valid content above both: no growth mends it.
    ghost collides_for_good: { (a b c : Content) (fault : Self.Fault) → IsValid a → IsValid b → IsValid c → Below a c →
        Below b c → Collides a b fault → ⊥ };

    /// Want of memory is no fault of a part, so it can't stand for one.
    ghost memory_is_no_fault: { (a : Content) (p : PartContent) (fault : Self.Fault) → IsValid a →
        IsWantOfMemory fault → IsFirstFault a p fault → ⊥ };

    /// Want of memory is no collision, so it can't stand for one.
    ghost memory_is_no_collision: { (a b : Content) (fault : Self.Fault) → IsValid a → IsValid b →
        IsWantOfMemory fault → Collides a b fault → ⊥ };

    /// A join in either order: both are defined together and equal.
    ghost commutes: { (a b c : Content) → IsValid a → IsValid b → Joined a b c ↔ Joined b a c };

    /// Joins of three, however they are grouped: both are defined together and equal.
    ghost associates: { (a b c abc : Content) → IsValid a → IsValid b → IsValid c →
        ((ab : Content) × Joined a b ab × Joined ab c abc) ↔ ((bc : Content) × Joined b c bc × Joined a bc abc) };

    /// A content joined with itself stays.
    ghost idempotent: { (a : Content) → IsValid a → Joined a a a };

    /// The join is the least valid content above both.
    ghost least: { (a b c : Content) → IsValid a → IsValid b → Joined a b c → IsLeastAbove IsValid Below a b c };

    /// A covered part changes nothing. The lemma `again_by_least` gives this.
    ghost again: { (a b : Content) (p : PartContent) → IsValid a → Covers a p → After a p b → b ≡ a };

    /// Two parts, each admitted in either order, leave one content. The lemma `swap_by_least` gives this.
    ghost swap: { (a ap apq aq aqp : Content) (p q : PartContent) → IsValid a → After a p ap → After ap q apq →
        After a q aq → After aq p aqp → apq ≡ aqp };
}
