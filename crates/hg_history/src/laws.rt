//! What the answers promise, in the words of states and of contents alone.
ghost use Rattle.std.specs.Prelude.{◌≡◌, ◌↔◌, ◌⊎◌, [], ◌∷◌, List, Ok, Err, Result};
ghost use Rattle.hg_changeset.specs.declared.node.Node.{Node};
ghost use Rattle.hg_phases.specs.declared.phase.Phase.{Phase};
ghost use Rattle.hg_phases.specs.State.{State, IsValid, changesets};
ghost use Rattle.hg_phases.specs.Order.{Below, IsSameState};
ghost use Rattle.hg_phases.specs.Content.{content_of};
ghost use Rattle.hg_phases.specs.Least.{IsAdmitted, IsLeast, IsSmallest, PartValue, Covers};
ghost use Rattle.hg_history.specs.declared.fault.Fault.{Fault};
ghost use Rattle.hg_history.specs.Change.{ChangeValue};
ghost use Rattle.hg_history.specs.Answer.{AbsorbAnswer, IsFirstFault};
ghost use Rattle.hg_history.specs.Content.{IsValidContent, ContentBelow, ContentCovers, ContentAfter, ContentsJoined};
ghost use Rattle.hg_history.specs.Content.{IsContentFault};
ghost use Rattle.hg_phases.specs.Roots.{AreRoots, AreSameRoots};
ghost use Rattle.hg_history.specs.declared.fault.Fault.TheVariants.{NoMemory};
ghost use Rattle.hg_history.specs.Join.{IsJoin};
ghost use Rattle.hg_history.specs.Open.{OpenAnswer};

/// What absorbing leaves is valid, above the state before, and covers the part; no other such state is below it.
pub fn absorbed_is_valid_above_and_covers()
    ensures valid { (s t : State) (k : PartValue) (change : ChangeValue) → IsValid s → AbsorbAnswer s k (Ok change) t
        → IsValid t }
    ensures above { (s t : State) (k : PartValue) (change : ChangeValue) → AbsorbAnswer s k (Ok change) t → Below s t }
    ensures covers { (s t : State) (k : PartValue) (change : ChangeValue) → AbsorbAnswer s k (Ok change) t
        → Covers t k }
    ensures smallest { (s t : State) (k : PartValue) (change : ChangeValue) → IsValid s → AbsorbAnswer s k (Ok change) t
        → IsSmallest s (k ∷ []) t }
{}

/// A part that is admitted has no fault, and any other has exactly one first fault.
pub fn first_fault_is_one()
    ensures none { (s : State) (k : PartValue) (fault : Fault) → IsAdmitted s k → IsFirstFault (changesets s) k fault
        → ⊥ }
    ensures one { (s : State) (k : PartValue) (fault other : Fault) → IsFirstFault (changesets s) k fault
        → IsFirstFault (changesets s) k other → fault ≡ other }
    ensures some { (s : State) (k : PartValue)
        → IsAdmitted s k ⊎ ((fault : Fault) × IsFirstFault (changesets s) k fault) }
{}

/// Contents say what states say, free of order: two histories have one content exactly where each is below the other.
pub fn contents_say_what_histories_say()
    ensures one { (s t : State) → IsValid s → IsValid t → ((content_of s ≡ content_of t) ↔ IsSameState s t) }
    ensures valid { (s : State) → IsValid s → IsValidContent (content_of s) }
    ensures below { (s t : State) → IsValid s → IsValid t → (Below s t ↔ ContentBelow (content_of s) (content_of t)) }
    ensures covers { (s : State) (k : PartValue) → IsValid s → (Covers s k ↔ ContentCovers (content_of s) k) }
    ensures after { (s t : State) (k : PartValue) → IsValid s → IsValid t
        → ((IsAdmitted s k × IsLeast s (k ∷ []) t) ↔ ContentAfter (content_of s) k (content_of t)) }
    ensures fault { (s : State) (k : PartValue) (fault : Fault) → IsValid s
        → (IsFirstFault (changesets s) k fault ↔ IsContentFault (content_of s) k fault) }
    ensures joined { (s o t : State) → IsValid s → IsValid o → IsValid t
        → (IsJoin s o t ↔ ContentsJoined (content_of s) (content_of o) (content_of t)) }
{}

/// A history that is opened with its own changesets is refused for want of memory alone. Where its roots are listed, in
/// whatever order and however often, it is the same again.
pub fn opened_with_its_own_is_the_same()
    ensures refused { (s : State) (roots : List (Phase × Node)) (fault : Fault) → IsValid s
        → OpenAnswer (changesets s) roots (Err fault) → fault ≡ NoMemory }
    ensures same { (s t : State) (roots listed : List (Phase × Node)) → IsValid s → AreRoots s roots
        → AreSameRoots listed roots → OpenAnswer (changesets s) listed (Ok t) → t ≡ s }
{}
