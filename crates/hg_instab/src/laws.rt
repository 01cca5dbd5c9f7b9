//! What the instabilities are a matter of.
ghost use Rattle.std.specs.Prelude.{◌↔◌};
ghost use Rattle.hg_changeset.specs.declared.node.Node.{Node};
ghost use Rattle.hg_replica.specs.State.{ReplicaState, IsValid, IsSameState};
ghost use Rattle.hg_replica.specs.Content.{Content, content_of};
ghost use Rattle.hg_replica.specs.Evolution.{IsObsolete, IsOrphan, IsSuspended, IsExtinct, IsPhaseDivergent};
ghost use Rattle.hg_instab.specs.Instabilities.{IsContentDivergent};
ghost use Rattle.hg_instab.specs.Local.{StandsUnstably, HoldsNothing, ComesFromPublic, ComesFromSeveral};

/// States that are below each other have the same instabilities, in whatever order each keeps what it holds.
pub fn states_of_one_content_have_the_same_instabilities()
    ensures obsolete { (s t : ReplicaState) (n : Node) → IsValid s → IsValid t → IsSameState s t
        → (IsObsolete (content_of s) n ↔ IsObsolete (content_of t) n) }
    ensures orphan { (s t : ReplicaState) (n : Node) → IsValid s → IsValid t → IsSameState s t
        → (IsOrphan (content_of s) n ↔ IsOrphan (content_of t) n) }
    ensures suspended { (s t : ReplicaState) (n : Node) → IsValid s → IsValid t → IsSameState s t
        → (IsSuspended (content_of s) n ↔ IsSuspended (content_of t) n) }
    ensures extinct { (s t : ReplicaState) (n : Node) → IsValid s → IsValid t → IsSameState s t
        → (IsExtinct (content_of s) n ↔ IsExtinct (content_of t) n) }
    ensures phase_divergent { (s t : ReplicaState) (n : Node) → IsValid s → IsValid t → IsSameState s t
        → (IsPhaseDivergent (content_of s) n ↔ IsPhaseDivergent (content_of t) n) }
    ensures content_divergent { (s t : ReplicaState) (n : Node) → IsValid s → IsValid t → IsSameState s t
        → (IsContentDivergent (content_of s) n ↔ IsContentDivergent (content_of t) n) }
{}

/// Neighbours decide: a changeset is an orphan exactly where it is neither public nor obsolete and a parent of it is
/// obsolete or an orphan, and it is extinct exactly where it is obsolete and each of its children is extinct.
pub fn neighbours_decide_what_is_orphan_and_extinct()
    ensures orphan { (s : ReplicaState) (n : Node) → IsValid s
        → (IsOrphan (content_of s) n ↔ StandsUnstably (content_of s) (IsOrphan (content_of s)) n) }
    ensures extinct { (s : ReplicaState) (n : Node) → IsValid s
        → (IsExtinct (content_of s) n ↔ HoldsNothing (content_of s) (IsExtinct (content_of s)) n) }
{}

/// The markers that rewrote something to it decide: a changeset that is neither public nor obsolete is phase-divergent
/// exactly where a marker that isn't bumpedfix rewrote to it what is public, or comes after something public over such
/// markers; and it is content-divergent exactly where a marker rewrote to it what has several successors sets or is
/// overfull, or comes after such an id.
pub fn predecessors_decide_what_is_divergent()
    ensures phase_divergent { (f : Content) (n : Node) → IsPhaseDivergent f n ↔ ComesFromPublic f n }
    ensures content_divergent { (f : Content) (n : Node) → IsContentDivergent f n ↔ ComesFromSeveral f n }
{}
