//! What views are a matter of, and what they hold.
ghost use Rattle.std.specs.Prelude.{◌↔◌, ◌⊎◌, List, [], Contains};
ghost use Rattle.hg_changeset.specs.declared.node.Node.{Node};
ghost use Rattle.hg_graph.specs.Graph.{Holds};
ghost use Rattle.hg_phases.specs.State.{changesets};
ghost use Rattle.hg_history.specs.Content.{Leads};
ghost use Rattle.hg_replica.specs.State.{ReplicaState, IsValid, IsSameState};
ghost use Rattle.hg_replica.specs.Content.{Content, content_of, IsValidContent};
ghost use Rattle.hg_replica.specs.Evolution.{IsExtinct, IsUnder, IsVisible, IsHidden, IsServed};
ghost use Rattle.hg_instab.specs.Instabilities.{AreInstabilities, InstabilitySets};
ghost use Rattle.hg_view.specs.Pins.{AreAmong, AreSamePins, IsVisibleUnder, IsHiddenUnder, IsServedUnder};
ghost use Rattle.hg_view.specs.Upheld.{AreUpheld};

/// States that are below each other have the same views, in whatever order each keeps what it holds.
pub fn states_of_one_content_have_the_same_views()
    ensures visible { (s t : ReplicaState) (n : Node) → IsValid s → IsValid t → IsSameState s t
        → (IsVisible (content_of s) n ↔ IsVisible (content_of t) n) }
    ensures hidden { (s t : ReplicaState) (n : Node) → IsValid s → IsValid t → IsSameState s t
        → (IsHidden (content_of s) n ↔ IsHidden (content_of t) n) }
    ensures served { (s t : ReplicaState) (n : Node) → IsValid s → IsValid t → IsSameState s t
        → (IsServed (content_of s) n ↔ IsServed (content_of t) n) }
{}

/// With a changeset each view holds its ancestors.
pub fn views_hold_the_ancestors_of_their_members()
    ensures visible { (f : Content) (a n : Node) → IsVisible f n → Leads f.0 a n → IsVisible f a }
    ensures served { (f : Content) (a n : Node) → IsValidContent f → IsServed f n → Leads f.0 a n → IsServed f a }
{}

/// What is hidden is what is extinct: it is obsolete, and all that stands on it is.
pub fn hidden_is_extinct()
    ensures { (s : ReplicaState) (n : Node) → IsValid s → (IsHidden (content_of s) n ↔ IsExtinct (content_of s) n) }
{}

/// Without pins each view is that of the replica alone.
pub fn no_pins_change_no_view()
    ensures visible { (f : Content) (n : Node) → (IsVisibleUnder f [] n ↔ IsVisible f n) }
    ensures hidden { (f : Content) (n : Node) → (IsHiddenUnder f [] n ↔ IsHidden f n) }
    ensures served { (f : Content) (n : Node) → (IsServedUnder f [] n ↔ IsServed f n) }
{}

/// Pins add to what is visible: what they pin, where it is held, and its ancestors. They add nothing else, and take
/// nothing away; nor do more pins.
pub fn pins_only_add_to_what_is_visible()
    ensures exact { (f : Content) (pins : List Node) (n : Node) → (IsVisibleUnder f pins n
        ↔ (IsVisible f n ⊎ ((d : Node) × Contains pins d × IsUnder f n d))) }
    ensures more { (f : Content) (pins more : List Node) (n : Node) → AreAmong pins more
        → IsVisibleUnder f pins n → IsVisibleUnder f more n }
{}

/// States that are below each other have the same views under pins with the same members, in whatever order each keeps
/// what it holds.
pub fn states_of_one_content_have_the_same_views_under_pins()
    ensures visible { (s t : ReplicaState) (pins others : List Node) (n : Node) → IsValid s → IsValid t
        → IsSameState s t → AreSamePins pins others
        → (IsVisibleUnder (content_of s) pins n ↔ IsVisibleUnder (content_of t) others n) }
    ensures hidden { (s t : ReplicaState) (pins others : List Node) (n : Node) → IsValid s → IsValid t
        → IsSameState s t → AreSamePins pins others
        → (IsHiddenUnder (content_of s) pins n ↔ IsHiddenUnder (content_of t) others n) }
    ensures served { (s t : ReplicaState) (pins others : List Node) (n : Node) → IsValid s → IsValid t
        → IsSameState s t → AreSamePins pins others
        → (IsServedUnder (content_of s) pins n ↔ IsServedUnder (content_of t) others n) }
{}

/// With a changeset each view under pins holds its ancestors.
pub fn views_under_pins_hold_the_ancestors_of_their_members()
    ensures visible { (f : Content) (pins : List Node) (a n : Node) → IsVisibleUnder f pins n → Leads f.0 a n
        → IsVisibleUnder f pins a }
    ensures served { (f : Content) (pins : List Node) (a n : Node) → IsValidContent f → IsServedUnder f pins n
        → Leads f.0 a n → IsServedUnder f pins a }
{}

/// What is hidden under pins is extinct. What is extinct may be visible under them.
pub fn what_is_hidden_under_pins_is_extinct()
    ensures { (s : ReplicaState) (pins : List Node) (n : Node) → IsValid s
        → IsHiddenUnder (content_of s) pins n → IsExtinct (content_of s) n }
{}

/// What pins uphold tells what they show: where the sets of instabilities are right, and `upheld` has the changesets
/// that are pinned, and their ancestors down to the public ones, what is held is visible under the pins exactly where
/// it isn't extinct or is upheld. So one set beside the others answers by two look-ups.
pub fn what_pins_uphold_is_visible()
    ensures { (s : ReplicaState) (pins upheld : List Node) (sets : InstabilitySets) (n : Node) → IsValid s
        → AreInstabilities (content_of s) sets → AreUpheld (content_of s) pins upheld
        → ((Holds (changesets s.history) n × (¬ (Contains sets.extinct n) ⊎ Contains upheld n))
        ↔ IsVisibleUnder (content_of s) pins n) }
{}
