//! Laws of the least state, each of the definitions of `specs/` alone.
//!
//! States are kept as lists, and a list has an order. Equality of states is being below both ways, which is having one
//! content: for each id the changeset and its phase, where it is held.
ghost use Rattle.std.specs.Prelude.{◌≡◌, ◌↔◌, [], ◌∷◌, ◌++◌, List, Contains};
ghost use Rattle.hg_changeset.specs.Contents.{Contents};
ghost use Rattle.hg_graph.specs.Graph.{IsGraph};
ghost use Rattle.hg_phases.specs.State.{State, Held, IsValid, changesets};
ghost use Rattle.hg_phases.specs.Order.{Below, IsSameState};
ghost use Rattle.hg_phases.specs.Content.{content_of};
ghost use Rattle.hg_changeset.specs.declared.node.Node.{Node};
ghost use Rattle.hg_phases.specs.declared.phase.Phase.{Phase};
ghost use Rattle.hg_phases.specs.Roots.{IsRoot, AreRoots, AreSameRoots, IsOpened, root_of};
ghost use Rattle.hg_phases.specs.Least.{AreAdmitted, IsAdmitted, IsLeast, IsSmallest, IsLeastOneByOne, PartValue};
ghost use Rattle.hg_phases.specs.Least.{Covers, part_of};

/// States are ordered, and each is below the other exactly where they have one content. What is the least state for one
/// order of keeping is so for each.
pub fn below_both_ways_is_one_content()
    ensures itself { (s : State) → Below s s }
    ensures then { (s t u : State) → Below s t → Below t u → Below s u }
    ensures content { (s t : State) → IsValid s → IsValid t → (IsSameState s t ↔ (content_of s ≡ content_of t)) }
    ensures unordered { (s t u v : State) (ks : List PartValue) → IsValid s → IsValid t → IsValid v → IsSameState s t
        → IsSameState u v → IsLeast s ks u → IsLeast t ks v }
{}

/// The two forms of the least state are one: what the formula gives is the smallest valid state above s that covers
/// the parts. Parts that are admitted, each after those before it, have a least state, and then the smallest such state
/// is by the formula too.
pub fn least_is_smallest()
    ensures smallest { (s t : State) (ks : List PartValue) → IsValid s → IsLeast s ks t → IsSmallest s ks t }
    ensures exists { (s : State) (ks : List PartValue) → IsValid s → AreAdmitted s ks → (t : State) × IsLeast s ks t }
    ensures one_form { (s t : State) (ks : List PartValue) → IsValid s → AreAdmitted s ks
        → (IsLeast s ks t ↔ IsSmallest s ks t) }
    ensures one { (s t u : State) (ks : List PartValue) → IsValid s → IsLeast s ks t → IsLeast s ks u
        → IsSameState t u }
{}

/// Parts may be taken one by one, in any order and again.
pub fn least_of_many_is_one_by_one()
    ensures one_by_one { (s t : State) (ks : List PartValue) → IsValid s → IsLeastOneByOne s ks t → IsLeast s ks t }
    ensures after_others { (s t u : State) (ks ls : List PartValue) → IsLeast s ks t → IsLeast t ls u
        → IsLeast s (ks ++ ls) u }
    ensures any_order { (s t : State) (ks ls : List PartValue) → IsLeast s (ks ++ ls) t → IsLeast s (ls ++ ks) t }
    ensures swap { (s t u v w : State) (k l : PartValue) → IsValid s → IsLeast s (k ∷ []) t → IsLeast t (l ∷ []) u
        → IsLeast s (l ∷ []) v → IsLeast v (k ∷ []) w → IsSameState u w }
    ensures again { (s t : State) (ks : List PartValue) → IsLeast s ks t → IsLeast t ks t }
{}

/// Parts that are covered are admitted, and change nothing.
pub fn covered_parts_change_nothing()
    ensures admitted { (s : State) (k : PartValue) → IsValid s → Covers s k → IsAdmitted s k }
    ensures least { (s : State) (ks : List PartValue) → IsValid s → ((k : PartValue) → Contains ks k → Covers s k)
        → IsLeast s ks s }
    ensures stays { (s t : State) (k : PartValue) → IsValid t → Covers s k → Below s t → Covers t k }
{}

/// The least state for another state, taken as a part, is the least one above both.
pub fn least_of_a_state_is_the_join()
    ensures first { (s t u : State) → IsLeast s (part_of t ∷ []) u → Below s u }
    ensures second { (s t u : State) → IsLeast s (part_of t ∷ []) u → Below t u }
    ensures below_each { (s t u v : State) → IsLeast s (part_of t ∷ []) u → IsValid v → Below s v → Below t v
        → Below u v }
    ensures idempotent { (s : State) → IsValid s → IsLeast s (part_of s ∷ []) s }
{}

/// Roots say all that a state's phases are: with its own changesets they give the state back, in whatever order they
/// are listed and however often. They are few: each is one, and none is left out. So of one graph, two states with the
/// same roots have the same phases.
pub fn roots_say_the_phases()
    ensures listed { (s : State) (roots : List (Phase × Node)) → AreRoots s roots → (r : Phase × Node)
        → Contains roots r ↔ ((h : Held) × Contains s.held h × IsRoot s h × (root_of h ≡ r)) }
    ensures valid { (cs : List Contents) (roots : List (Phase × Node)) (s : State) → IsGraph cs → IsOpened cs roots s
        → IsValid s }
    ensures again { (s t : State) (roots listed : List (Phase × Node)) → IsValid s → AreRoots s roots
        → AreSameRoots listed roots → IsOpened (changesets s) listed t → t ≡ s }
    ensures same { (s t : State) (roots listed : List (Phase × Node)) → IsValid s → IsValid t
        → changesets t ≡ changesets s → AreRoots s roots → AreRoots t listed → AreSameRoots roots listed → t ≡ s }
{}
