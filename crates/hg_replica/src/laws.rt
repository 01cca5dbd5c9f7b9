//! Laws of replicas' states: what the answers promise, and what the least state is, in the words of `specs/` alone.
//!
//! States are kept as lists, and a list has an order. Equality of states is being below both ways, which is having one
//! content: for each id the changeset and its phase, where it is held, and for each marker whether it is held.
ghost use Rattle.std.specs.Prelude.{◌≡◌, ◌↔◌, [], ◌∷◌, ◌++◌, Ok, Err, Result, List, Contains, ℕ};
ghost use Rattle.hg_phases.specs.State.{changesets};
ghost use Rattle.hg_phases.specs.Roots.{AreRoots};
ghost use Rattle.hg_phaseroots.specs.declared.error.RootsError.{RootsError};
ghost use Rattle.hg_phaseroots.specs.Reading.{Root, IsReading};
ghost use Rattle.hg_phaseroots.specs.Writing.{IsWritten};
ghost use Rattle.hg_history.specs.declared.fault.Fault.{Fault};
ghost use Rattle.hg_history.specs.Answer.{IsFirstFault};
ghost use Rattle.hg_replica.specs.State.{ReplicaState, IsValid, Below, IsSameState};
ghost use Rattle.hg_replica.specs.Least.{PartValue, Covers, IsAdmitted, AreAdmitted, IsLeast, IsSmallest};
ghost use Rattle.hg_replica.specs.Least.{IsLeastOneByOne, part_of};
ghost use Rattle.hg_replica.specs.Change.{ChangeValue};
ghost use Rattle.hg_replica.specs.Answer.{AbsorbAnswer, IsJoin, OpenAnswer};
ghost use Rattle.hg_replica.specs.Content.{content_of, IsValidContent, ContentBelow, ContentCovers, ContentAfter};
ghost use Rattle.hg_replica.specs.Content.{ContentsJoined, IsContentFault};

/// States are ordered, and each is below the other exactly where they have one content. What is the least state for one
/// order of keeping is so for each.
pub fn below_both_ways_is_one_content()
    ensures itself { (s : ReplicaState) → Below s s }
    ensures then { (s t u : ReplicaState) → Below s t → Below t u → Below s u }
    ensures content { (s t : ReplicaState) → IsValid s → IsValid t → (IsSameState s t ↔ (content_of s ≡ content_of t)) }
    ensures unordered { (s t u v : ReplicaState) (ks : List PartValue) → IsValid s → IsValid t → IsValid v →
        IsSameState s t → IsSameState u v → IsLeast s ks u → IsLeast t ks v }
{}

/// The two forms of the least state are one: what the formula gives is the smallest valid state above s that covers
/// the parts. Parts that are admitted, each after those before it, have a least state, and then the smallest such state
/// is by the formula too.
pub fn least_is_smallest()
    ensures smallest { (s t : ReplicaState) (ks : List PartValue) → IsValid s → IsLeast s ks t → IsSmallest s ks t }
    ensures exists { (s : ReplicaState) (ks : List PartValue) → IsValid s → AreAdmitted s ks →
        (t : ReplicaState) × IsLeast s ks t }
    ensures one_form { (s t : ReplicaState) (ks : List PartValue) → IsValid s → AreAdmitted s ks →
        (IsLeast s ks t ↔ IsSmallest s ks t) }
    ensures one { (s t u : ReplicaState) (ks : List PartValue) → IsValid s → IsLeast s ks t → IsLeast s ks u →
        IsSameState t u }
{}

/// Parts may be taken one by one, in any order and again.
pub fn least_of_many_is_one_by_one()
    ensures one_by_one { (s t : ReplicaState) (ks : List PartValue) → IsValid s → IsLeastOneByOne s ks t →
        IsLeast s ks t }
    ensures after_others { (s t u : ReplicaState) (ks ls : List PartValue) → IsLeast s ks t → IsLeast t ls u →
        IsLeast s (ks ++ ls) u }
    ensures any_order { (s t : ReplicaState) (ks ls : List PartValue) → IsLeast s (ks ++ ls) t →
        IsLeast s (ls ++ ks) t }
    ensures swap { (s t u v w : ReplicaState) (k l : PartValue) → IsValid s → IsLeast s (k ∷ []) t →
        IsLeast t (l ∷ []) u → IsLeast s (l ∷ []) v → IsLeast v (k ∷ []) w → IsSameState u w }
    ensures again { (s t : ReplicaState) (ks : List PartValue) → IsLeast s ks t → IsLeast t ks t }
{}

/// Parts that are covered are admitted, and change nothing.
pub fn covered_parts_change_nothing()
    ensures admitted { (s : ReplicaState) (k : PartValue) → IsValid s → Covers s k → IsAdmitted s k }
    ensures least { (s : ReplicaState) (ks : List PartValue) → IsValid s →
        ((k : PartValue) → Contains ks k → Covers s k) → IsLeast s ks s }
    ensures stays { (s t : ReplicaState) (k : PartValue) → IsValid t → Covers s k → Below s t → Covers t k }
{}

/// The least state for another state, taken as a part, is the least one above both.
pub fn least_of_a_state_is_the_join()
    ensures first { (s t u : ReplicaState) → IsLeast s (part_of t ∷ []) u → Below s u }
    ensures second { (s t u : ReplicaState) → IsLeast s (part_of t ∷ []) u → Below t u }
    ensures below_each { (s t u v : ReplicaState) → IsLeast s (part_of t ∷ []) u → IsValid v → Below s v → Below t v →
        Below u v }
    ensures idempotent { (s : ReplicaState) → IsValid s → IsLeast s (part_of s ∷ []) s }
{}

/// What absorbing leaves is valid, above the state before, and covers the part; no other such state is below it.
pub fn absorbed_is_valid_above_and_covers()
    ensures valid { (s t : ReplicaState) (k : PartValue) (change : ChangeValue) → IsValid s →
        AbsorbAnswer s k (Ok change) t → IsValid t }
    ensures above { (s t : ReplicaState) (k : PartValue) (change : ChangeValue) → AbsorbAnswer s k (Ok change) t →
        Below s t }
    ensures covers { (s t : ReplicaState) (k : PartValue) (change : ChangeValue) → AbsorbAnswer s k (Ok change) t →
        Covers t k }
    ensures smallest { (s t : ReplicaState) (k : PartValue) (change : ChangeValue) → IsValid s →
        AbsorbAnswer s k (Ok change) t → IsSmallest s (k ∷ []) t }
{}

/// A part that is admitted has no fault, and any other has one first fault at most.
pub fn first_fault_is_one()
    ensures none { (s : ReplicaState) (k : PartValue) (fault : Fault) → IsAdmitted s k →
        IsFirstFault (changesets s.history) k.history fault → ⊥ }
    ensures one { (s : ReplicaState) (k : PartValue) (fault other : Fault) →
        IsFirstFault (changesets s.history) k.history fault → IsFirstFault (changesets s.history) k.history other →
        fault ≡ other }
{}

/// Contents say what states say, free of order: two replicas have one content exactly where each is below the other.
pub fn contents_say_what_states_say()
    ensures valid { (s : ReplicaState) → IsValid s → IsValidContent (content_of s) }
    ensures below { (s t : ReplicaState) → IsValid s → IsValid t →
        (Below s t ↔ ContentBelow (content_of s) (content_of t)) }
    ensures covers { (s : ReplicaState) (k : PartValue) → IsValid s → (Covers s k ↔ ContentCovers (content_of s) k) }
    ensures after { (s t : ReplicaState) (k : PartValue) → IsValid s → IsValid t →
        ((IsAdmitted s k × IsLeast s (k ∷ []) t) ↔ ContentAfter (content_of s) k (content_of t)) }
    ensures fault { (s : ReplicaState) (k : PartValue) (fault : Fault) → IsValid s →
        (IsFirstFault (changesets s.history) k.history fault ↔ IsContentFault (content_of s) k fault) }
    ensures joined { (s o t : ReplicaState) → IsValid s → IsValid o → IsValid t →
        (IsJoin s o t ↔ ContentsJoined (content_of s) (content_of o) (content_of t)) }
{}

/// A replica that is opened with its own changesets, the roots that are read from its roots' text, and its own markers
/// is the same again. Neither the reading nor the opening is refused but for want of memory.
pub fn opened_with_its_own_is_the_same()
    ensures read { (s : ReplicaState) (roots : List Root) (text : List ℕ) (error : RootsError) → IsValid s →
        AreRoots s.history roots → IsWritten roots text → IsReading text (Err error) → error ≡ RootsError.NoMemory }
    ensures opened { (s : ReplicaState) (read : List Root) (fault : Fault) → IsValid s →
        OpenAnswer (changesets s.history) read s.markers (Err fault) → fault ≡ Fault.NoMemory }
    ensures same { (s t : ReplicaState) (roots read : List Root) (text : List ℕ) → IsValid s →
        AreRoots s.history roots → IsWritten roots text → IsReading text (Ok read) →
        OpenAnswer (changesets s.history) read s.markers (Ok t) → t ≡ s }
{}
