//! What holds of every offer.
ghost use Rattle.std.specs.Prelude.{◌≡◌, ◌↔◌, List, [], Contains, Some};
ghost use Rattle.hg_changeset.specs.declared.node.Node.{Node};
ghost use Rattle.hg_changeset.specs.Contents.{Contents};
ghost use Rattle.hg_changeset.specs.Changeset.{node_of};
ghost use Rattle.hg_phases.specs.declared.phase.Phase.{Phase};
ghost use Rattle.hg_phases.specs.declared.phase.Phase.TheVariants.{Secret as secret_phase};
ghost use Rattle.hg_phases.specs.State.{Held, state_of};
ghost use Rattle.hg_history.specs.Content.{IsHeld};
ghost use Rattle.hg_replica.specs.State.{ReplicaState, IsValid, IsSameState};
ghost use Rattle.hg_replica.specs.Content.{Content, content_of, IsValidContent, ContentBelow, ContentCovers};
ghost use Rattle.hg_replica.specs.Content.{ContentAdmits, ContentAfter};
ghost use Rattle.hg_replica.specs.Evolution.{HasPhase};
ghost use Rattle.hg_view.specs.Pins.{AreSamePins, IsHiddenUnder};
ghost use Rattle.hg_message.specs.declared.scope.Scope.{Scope};
ghost use Rattle.hg_message.specs.declared.scope.Scope.TheVariants.{Served as served_scope};
ghost use Rattle.hg_message.specs.Value.{MessageValue};
ghost use Rattle.hg_message.specs.Part.{part_of};
ghost use Rattle.hg_message.specs.Offer.{AreHeld, IsCommon, IsNamed, IsOffer, IsOfferOf, SaysOffer, SayTheSame};
ghost use Rattle.hg_message.specs.Taken.{DontCollide, HoldsNamed};

/// No changeset that is secret stands in an offer, neither as a record nor as a bound, and none that is hidden under
/// the pins stands in one of the served scope: an offer names what its scope does.
pub fn offers_hold_what_their_scope_names()
    ensures changesets { (f : Content) (pins common : List Node) (m : MessageValue) → SaysOffer f pins common m
        → (c : Contents) → Contains m.changesets c → IsNamed f pins m.scope (node_of c) }
    ensures bounds { (f : Content) (pins common : List Node) (m : MessageValue) → SaysOffer f pins common m
        → (b : Node × Phase) → Contains m.bounds b → IsNamed f pins m.scope b.0 }
    ensures secret { (f : Content) (pins : List Node) (scope : Scope) (n : Node) → HasPhase f n secret_phase
        → ¬ (IsNamed f pins scope n) }
    ensures hidden { (f : Content) (pins : List Node) (n : Node) → IsHiddenUnder f pins n
        → ¬ (IsNamed f pins served_scope n) }
{}

/// An offer says no more than the replica that makes it: the replica covers its part already.
pub fn offers_are_covered()
    ensures { (f : Content) (pins common : List Node) (m : MessageValue) → IsValidContent f → SaysOffer f pins common m
        → ContentCovers f (part_of m) }
{}

/// States that are below each other offer the same of a scope under pins with the same members, in whatever order each
/// keeps what it holds: what covers the part of one offer covers that of the other.
pub fn states_of_one_content_offer_the_same()
    ensures same { (s t : ReplicaState) (pins others common : List Node) (m n : MessageValue)
        → IsValid s → IsValid t → IsSameState s t → AreSamePins pins others → m.scope ≡ n.scope
        → IsOffer s pins common m → IsOffer t others common n → SayTheSame m n }
    ensures covered { (m n : MessageValue) → SayTheSame m n → (f : Content)
        → ContentCovers f (part_of m) ↔ ContentCovers f (part_of n) }
{}

/// A state has one offer of a scope under some pins above some common nodes.
pub fn an_offer_is_one()
    ensures once { (s : ReplicaState) (pins common : List Node) (m n : MessageValue) → m.scope ≡ n.scope
        → IsOffer s pins common m → IsOffer s pins common n → m ≡ n }
    ensures exists { (s : ReplicaState) (pins common : List Node) (scope : Scope) → IsValid s
        → ((m : MessageValue) → IsOfferOf s pins common scope m → ⊥) → ⊥ }
{}

/// An offer's part is admitted wherever the common nodes and their ancestors are held, and no id stands for another
/// changeset: so at an empty replica where there are no common nodes.
pub fn offers_are_admitted()
    ensures above { (s : ReplicaState) (pins common : List Node) (m : MessageValue) (g : Content) → IsValid s
        → IsOffer s pins common m
        → ((n : Node) → IsCommon (content_of s) common n → IsHeld g.0 n)
        → ((n : Node) (h k : Held) → (content_of s).0 n ≡ Some h → g.0 n ≡ Some k → h.changeset ≡ k.changeset)
        → ContentAdmits g (part_of m) }
    ensures empty { (s : ReplicaState) (pins : List Node) (m : MessageValue) → IsValid s → IsOffer s pins [] m
        → ContentAdmits (content_of (record { history = state_of [] []; markers = [] })) (part_of m) }
{}

/// An offer above common nodes that a replica holds is admitted there, then and at any later time, since what is held
/// stays held. Once it is taken in, the replica holds all that the offer's scope named when it was made, at phases no
/// higher, with the markers that it named. No id may stand for two changesets.
pub fn offers_above_what_is_held_are_taken()
    ensures admitted { (s : ReplicaState) (pins common : List Node) (m : MessageValue) (g later : Content) → IsValid s
        → IsOffer s pins common m
        → AreHeld g common → ContentBelow g later → IsValidContent later → DontCollide (content_of s) later
        → ContentAdmits later (part_of m) }
    ensures taken { (s : ReplicaState) (pins common : List Node) (m : MessageValue) (g later after : Content)
        → IsValid s → IsOffer s pins common m
        → AreHeld g common → ContentBelow g later → IsValidContent later → DontCollide (content_of s) later
        → ContentAfter later (part_of m) after → HoldsNamed (content_of s) pins m.scope after }
{}
