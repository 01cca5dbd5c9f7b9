//! What holds of every run of peers.
ghost use Rattle.hg_world.specs.Laws.{NoNodeIsExact, NoMessageIsExact, AcceptedIsExact, OfferedIsExact, MarkedIsExact};
ghost use Rattle.hg_world.specs.Laws.{AlikeStayAlike, AlikeAcceptAlike, NewAreAlike};
ghost use Rattle.hg_peer.specs.Words.{peer_state, peer_words};
ghost use Rattle.hg_peer.specs.Laws.{CoveringPeersAgree, CoveringPeersSeeTheSame};
ghost use Rattle.hg_peer.specs.Laws.{CoveringPeersAreInOneState};
ghost use Rattle.hg_peer.specs.Laws.{EachPeerIsLeast, EachPeerIsLeastOfAll};
ghost use Rattle.hg_peer.specs.Laws.{NoAddedMessageHoldsASecret, NoMessageHoldsASecret};
ghost use Rattle.hg_peer.specs.Laws.{AboveHeldIsRefusedForMemoryAlone, AboveHeldBringsWhatWasNamed};
ghost use Rattle.hg_peer.specs.Laws.{MarksChangePinsOfOnePeerAlone};
ghost use Rattle.hg_peer.specs.Sharing.{WholeOffersShareTheSame, WholeOffersAgreeOnShared};
ghost use Rattle.hg_peer.specs.Sharing.{WholeOffersWithoutSecretsAreAll};

use crate::peer::Peer;
use hg_world::{
    answers_are_exact, covering_nodes_agree, events_and_answers_tell, marks_say_nothing,
    messages_are_offers, runs_compose, states_are_least,
};

/// After any run from a new world, peers that cover each other's accepted parts agree: on changesets, phases and
/// markers; on which changesets are obsolete, orphan, suspended, extinct, phase-divergent and content-divergent; and,
/// where their pins are equal, on the visible set and on what they serve. Their replicas are in one state: each is
/// below the other.
pub fn covering_peers_agree()
    ensures sets { CoveringPeersAgree }
    ensures visible { CoveringPeersSeeTheSame }
    ensures state { CoveringPeersAreInOneState }
{
    covering_nodes_agree::<Peer>();
}

/// In any run each peer accepts parts that are admitted, each after those before it, and its state is the least one by
/// the formula: what it was, with these parts. From a new world on it is the least of all: nothing but the parts that
/// it ever accepted.
pub fn peers_are_least()
    ensures each { EachPeerIsLeast }
    ensures of_all { EachPeerIsLeastOfAll }
{
    states_are_least::<Peer>();
}

/// No message holds a changeset, as a record or as a bound, that was secret at its maker: the peer that offered it, as
/// the Offer read it. That is so of each message that a run adds, and so of the whole pool of a world that began new.
pub fn no_message_holds_a_secret()
    ensures added { NoAddedMessageHoldsASecret }
    ensures pool { NoMessageHoldsASecret }
{
    messages_are_offers::<Peer>();
}

/// A message that was offered above common nodes which a peer holds is taken by it then and at any later time, unless
/// memory is wanting: it is refused for nothing else, collisions aside. Afterwards the peer holds all that the
/// message's scope named at its maker when it was offered, under the pins that the maker had then, at phases no higher,
/// and the markers that it named: those relevant to what was served, or all.
pub fn messages_above_what_is_held_are_taken()
    ensures refused { AboveHeldIsRefusedForMemoryAlone }
    ensures taken { AboveHeldBringsWhatWasNamed }
{
    states_are_least::<Peer>();
}

/// A mark that is set changes the pins of the peer at its place, by the changeset that it names: that is pinned, or its
/// pin is taken away, and each other pin stays. The peer's replica stays, and so do each other peer and each message.
pub fn marks_change_pins_of_one_peer_alone()
    ensures { MarksChangePinsOfOnePeerAlone }
{
    marks_say_nothing::<Peer>();
}

/// A missing peer and then a missing message are told exactly where they are missing. What a peer may accept, offer or
/// let be marked, it refuses for want of memory alone.
pub fn answers_of_peers_are_exact()
    ensures no_node { NoNodeIsExact peer_state peer_words }
    ensures no_message { NoMessageIsExact peer_state peer_words }
    ensures accepted { AcceptedIsExact peer_state peer_words }
    ensures offered { OfferedIsExact peer_state peer_words }
    ensures marked { MarkedIsExact peer_state peer_words }
{
    answers_are_exact::<Peer>();
}

/// Events and answers alone tell what became of peers: worlds of peers that can't be told apart, where the same events
/// had the same answers, can't be told apart afterwards, and each peer accepted the same in both. New worlds of as many
/// peers can't be told apart.
pub fn events_and_answers_tell_of_peers()
    ensures alike { AlikeStayAlike peer_state peer_words }
    ensures accepted { AlikeAcceptAlike peer_state peer_words }
    ensures new { NewAreAlike peer_state peer_words }
{
    events_and_answers_tell::<Peer>();
}

/// Two whole offers, one each way, make two peers share one history. The first offers its whole scope and the second
/// accepts that; then the second offers its own and the first accepts. Where each, from its own offer on, accepts
/// nothing else but what it covers already, as it does repeats, they share the same: the changesets that aren't secret,
/// with their phases, and all markers. So they agree on which of these changesets are obsolete, orphan and
/// phase-divergent; and where neither holds a secret changeset, they are in one state, and agree on every set.
///
/// Each offer may leave out common nodes that its taker holds. No id may stand for two changesets. Nothing is said of
/// what is suspended, extinct, content-divergent or visible where a peer holds a secret changeset, and nothing of two
/// offers of what is served.
pub fn whole_offers_share_one_history()
    ensures shared { WholeOffersShareTheSame }
    ensures agreed { WholeOffersAgreeOnShared }
    ensures all { WholeOffersWithoutSecretsAreAll }
{
    states_are_least::<Peer>();
    runs_compose::<Peer>();
}
