//! What successors sets are a matter of.
ghost use Rattle.std.specs.Prelude.{◌≡◌, ◌≢◌, ◌⊎◌, ◌↔◌, List, Contains};
ghost use Rattle.hg_changeset.specs.declared.node.Node.{Node};
ghost use Rattle.hg_replica.specs.State.{ReplicaState, IsValid, IsSameState};
ghost use Rattle.hg_marker.specs.Fields.{Fields};
ghost use Rattle.hg_replica.specs.Content.{Content, content_of};
ghost use Rattle.hg_succ.specs.Successors.{IsSuccessorsSet, IsOverfull, HasSeveral};
ghost use Rattle.hg_succ.specs.Alike.{AreAlikeOn};
ghost use Rattle.hg_succ.specs.Renamed.{IsAmended, AreRenamed};

/// States that are below each other have the same successors sets, in whatever order each keeps what it holds.
pub fn states_of_one_content_have_the_same_successors_sets()
    ensures sets { (s t : ReplicaState) (n : Node) (set : List Node) → IsValid s → IsValid t → IsSameState s t
        → (IsSuccessorsSet (content_of s) n set ↔ IsSuccessorsSet (content_of t) n set) }
    ensures overfull { (s t : ReplicaState) (n : Node) → IsValid s → IsValid t → IsSameState s t
        → (IsOverfull (content_of s) n ↔ IsOverfull (content_of t) n) }
    ensures several { (s t : ReplicaState) (n : Node) → IsValid s → IsValid t → IsSameState s t
        → (HasSeveral (content_of s) n ↔ HasSeveral (content_of t) n) }
{}

/// Successors sets are local: states that are alike on some ids have the same successors sets of each of these,
/// whatever else each holds.
pub fn what_is_alike_has_the_same_successors_sets()
    ensures sets { (s t : ReplicaState) (ns : List Node) (n : Node) (set : List Node)
        → AreAlikeOn (Contains ns) (content_of s) (content_of t) → Contains ns n
        → (IsSuccessorsSet (content_of s) n set ↔ IsSuccessorsSet (content_of t) n set) }
    ensures overfull { (s t : ReplicaState) (ns : List Node) (n : Node)
        → AreAlikeOn (Contains ns) (content_of s) (content_of t) → Contains ns n
        → (IsOverfull (content_of s) n ↔ IsOverfull (content_of t) n) }
    ensures several { (s t : ReplicaState) (ns : List Node) (n : Node)
        → AreAlikeOn (Contains ns) (content_of s) (content_of t) → Contains ns n
        → (HasSeveral (content_of s) n ↔ HasSeveral (content_of t) n) }
{}

/// An amend renames: where `g` is `f` after `p` was amended to `x`, of which `f` didn't know, each id other than `x`
/// has the same successors sets in both, but that `x` stands in `g` where `p` stood in `f`; and it is overfull in both
/// or in neither. So an amend leaves as it was which ids have several; of `p` and `x` neither has.
pub fn an_amend_renames()
    ensures sets { (p x : Node) (fresh : Fields) (f g : Content) (n : Node) (a : List Node)
        → IsAmended p x fresh f g → n ≢ x → IsSuccessorsSet f n a
        → (b : List Node) × IsSuccessorsSet g n b × AreRenamed p x a b }
    ensures sets_back { (p x : Node) (fresh : Fields) (f g : Content) (n : Node) (b : List Node)
        → IsAmended p x fresh f g → n ≢ x → IsSuccessorsSet g n b
        → (a : List Node) × IsSuccessorsSet f n a × AreRenamed p x a b }
    ensures overfull { (p x : Node) (fresh : Fields) (f g : Content) (n : Node)
        → IsAmended p x fresh f g → n ≢ x → (IsOverfull f n ↔ IsOverfull g n) }
    ensures several { (p x : Node) (fresh : Fields) (f g : Content) (n : Node)
        → IsAmended p x fresh f g → n ≢ x → (HasSeveral f n ↔ HasSeveral g n) }
    ensures few { (p x : Node) (fresh : Fields) (f g : Content) (n : Node)
        → IsAmended p x fresh f g → (n ≡ p) ⊎ (n ≡ x)
        → (¬ (HasSeveral f n)) × (¬ (HasSeveral g n)) }
{}
