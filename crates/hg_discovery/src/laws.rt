//! What follows for every discovery.
ghost use Rattle.std.specs.Prelude.{◌≡◌, ◌↔◌, ◌≤◌, ◌-◌, ◌*◌, ℕ, List, Bool, Contains, length};
ghost use Rattle.hg_changeset.specs.declared.node.Node.{Node};
ghost use Rattle.hg_changeset.specs.Contents.{Contents};
ghost use Rattle.hg_graph.specs.Graph.{IsGraph, Holds};
ghost use Rattle.hg_phases.specs.declared.phase.Phase.TheVariants.{Secret};
ghost use Rattle.hg_phases.specs.State.{State, changesets, IsPhaseOf};
ghost use Rattle.hg_replica.specs.State.{ReplicaState, IsValid};
ghost use Rattle.hg_replica.specs.Content.{content_of};
ghost use Rattle.hg_view.specs.Common.{AreFree};
ghost use Rattle.hg_view.specs.Pins.{IsServedUnder};
ghost use Rattle.hg_discovery.specs.Search.{Search, IsSearch};
ghost use Rattle.hg_discovery.specs.Start.{IsStart};
ghost use Rattle.hg_discovery.specs.Rounds.{Round, AreTrueRounds, AreKnownRounds, AreRounds, AreWithin};
ghost use Rattle.hg_discovery.specs.Rounds.{IsCommon, undecided};
ghost use Rattle.hg_discovery.specs.Limits.{sample_size};

/// Where each yes was true when it was given, each common changeset is held by both sides, whatever either does between
/// answers: both only grow, and hold no two changesets of one id.
pub fn what_is_common_is_held_by_both()
    ensures { (s : State) (start : Search) → IsStart s start → (theirs : List Contents) → IsGraph theirs
        → AreFree (changesets s) theirs
        → (rounds : List Round) (t : Search) (ours : List Contents) → AreTrueRounds start rounds t
        → AreWithin (changesets s) ours → ((r : Round) → Contains rounds r → AreWithin r.theirs theirs)
        → (n : Node) → IsCommon t n → Holds ours n × Holds theirs n }
{}

/// Where the other side and its pins stand still and its answers are those of its [`known`](crate::known()), what is
/// common when nothing is undecided any more is exactly what the asker held at the start, wasn't secret there, and is
/// served by the other side under its pins. The two hold no two changesets of one id.
pub fn what_is_common_is_what_is_served()
    ensures { (ours theirs : ReplicaState) (pins : List Node) (start t : Search) (rounds : List (List Bool))
        → IsValid ours → IsValid theirs → AreFree (changesets ours.history) (changesets theirs.history)
        → IsStart ours.history start → AreKnownRounds (content_of theirs) pins start rounds t
        → undecided t.decided ≡ 0
        → (n : Node) → IsCommon t n ↔ (Holds (changesets ours.history) n × ¬ (IsPhaseOf ours.history n Secret)
        × IsServedUnder (content_of theirs) pins n) }
{}

/// Each round decides 200 of the undecided changesets at least, or all of them: so n of them take at most n / 200
/// rounds, rounded up.
pub fn rounds_are_few()
    ensures { (s t : Search) (rounds : List (List Bool)) → IsSearch s → AreRounds s rounds t
        → undecided t.decided ≤ undecided s.decided - sample_size * length rounds }
{}
