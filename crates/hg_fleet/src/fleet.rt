//! Peers that pull from each other, and how far each two of them were compared.
ghost use Rattle.std.specs.Prelude.{◌≡◌, ◌<◌, ◌⊎◌, [], None, Option, Some, IfErr, IfOk, MatchOption, OnErr, length};
ghost use Rattle.std.specs.Prelude.{slice_get};
ghost use Rattle.std.specs.Option.{option_copied};
ghost use Rattle.hg_replica.specs.Least.{PartValue};
ghost use Rattle.hg_message.specs.declared.scope.Scope.TheVariants.{Served, Whole};
ghost use Rattle.hg_world.specs.declared.event.Event.{Event};
ghost use Rattle.hg_world.specs.Runs.{AllEmpty, AllUnmarked, AllValid, Happens, snapshot};
ghost use Rattle.hg_peer.specs.Words.{peer_state, peer_words};
ghost use Rattle.hg_discovery.specs.Between.{AreHeadsInCommon};
ghost use Rattle.hg_discovery.specs.Compared.{WereCompared};
ghost use Rattle.hg_fleet.specs.Pairs.{IsNoted, IsTrueOf};
ghost use Rattle.hg_fleet.specs.Pulls.{AreLeftOutAt, IsOneAbsent, IsPulled, TakesOffered};
ghost use Rattle.hg_view.specs.Kept.{KeptValue};

use crate::pulled::{PeerAnswer, Pulled};
use hg_changeset::Node;
use hg_discovery::{Compared, heads_in_common_compared};
use hg_join::NoMemory;
use hg_node_set::IdKeys;
use hg_peer::{Ask, Mark, Peer, Scope, world_with_keys};
use hg_rewrite::Op;
use hg_view::Kept;
use hg_world::{Answer, World};
use std::alloc::Global;
use std::collections::BTreeMap;
use std::marker::Model;

/// A world of peers, and how far each two of them were compared when the one asked the other what both have in common.
/// Contracts see it as the world.
pub struct Fleet {
    alloc: Global,
    world: World<Peer>,

    // By the places of the one that asks and of the other.
    pairs: BTreeMap<(usize, usize), Compared>,
}

// Whoever owns a fleet calls this once, and is proved without a look at what it holds.
impl Drop for Fleet {
    fn drop(self) {
        let Fleet {
            alloc: _,
            world: _,
            pairs: _,
        } = self;
    }
}

impl Model for Fleet {
    ghost use Rattle.std.specs.Coded.{codes};
    ghost use Rattle.hg_marker.specs.Fields.{fields_code};
    ghost use Rattle.hg_world.specs.Runs.{Snapshot};
    ghost use Rattle.hg_view.specs.Kept.{KeptValue};
    ghost use Rattle.hg_fleet.specs.Pairs.{AreTruePairs};

    ghost Value = { Snapshot KeptValue };

    ghost coded = { Prim.hlevel (codes, fields_code) };

    ghost view = { λ fleet. fleet.world };

    ghost invariant = { λ fleet. AreTruePairs fleet.world fleet.pairs };
}

impl Fleet {
    /// So many new peers, none of which holds or pins anything, and no message. Ids are hashed by the keys.
    pub fn new(alloc: Global, keys: IdKeys, count: usize) -> Result<Fleet, NoMemory>
        ensures nodes { IfOk result (λ fleet. length fleet.nodes ≡ count) }
        ensures empty { IfOk result (AllEmpty peer_state) }
        ensures unmarked { IfOk result (AllUnmarked peer_state peer_words) }
        ensures messages { IfOk result (λ fleet. fleet.messages ≡ []) }
        ensures memory { OnErr result (0 < count) }
    {
        Ok(Fleet::over(alloc, world_with_keys(alloc, keys, count)?))
    }

    /// The peers that there are, whatever they hold and pin, and no message.
    pub fn of(alloc: Global, peers: Vec<Peer>) -> Fleet
        ensures { result ≡ snapshot peers.items [] }
    {
        are_valid(peers.as_slice());
        Fleet::over(alloc, World::of(alloc, peers))
    }

    // The peers of a world, of which nothing is noted yet.
    fn over(alloc: Global, world: World<Peer>) -> Fleet
        ensures { result ≡ world }
    {
        Fleet {
            alloc,
            world,
            pairs: BTreeMap::new(alloc),
        }
    }

    /// The peers, in their order.
    pub fn peers(&self) -> &[Peer]
        ensures { result.now ≡ self.now.nodes }
    {
        self.world.states()
    }

    /// The replica of the peer at a place, counted from 0, with its instabilities and its pins.
    pub fn kept(&self, place: usize) -> Option<&Kept>
        ensures { option_copied result ≡ slice_get self.now.nodes place }
    {
        kept_at(&self.world, place)
    }

    /// The bytes of the message with this number, counted from 0.
    pub fn message(&self, number: usize) -> Option<&[u8]>
        ensures { option_copied result ≡ slice_get self.now.messages number }
    {
        self.world.message(number)
    }

    /// The peer at a place, counted from 0, decides an operation, and takes its part in. It gives the answer to that
    /// event of the world, before which no memory runs out.
    #[inline(always)]
    pub fn local(&mut self, at: usize, op: &Op) -> PeerAnswer
        ensures { (part : Option PartValue)
            × Happens peer_state peer_words self.old (Event.Local at op.now) result part self.new }
    {
        self.world.local(at, op)
    }

    /// What the peer at a place offers becomes the last message, for any peer that [`take`](Fleet::take)s it later,
    /// again or never. It gives the answer to that event of the world.
    ///
    /// Memory runs out here only where there is such a peer, and nothing changed then; within the event it is that
    /// event's refusal.
    pub fn offer(&mut self, at: usize, ask: &Ask) -> Result<PeerAnswer, NoMemory>
        ensures happens { IfOk result (λ answer. (part : Option PartValue)
            × Happens peer_state peer_words self.old (Event.Offer at ask.now) answer part self.new) }
        ensures unchanged { OnErr result (self.new ≡ self.old) }
        ensures memory { OnErr result (at < length self.old.nodes) }
    {
        self.world.offer(at, ask)
    }

    /// The peer at a place takes in the message with this number, counted from 0. It gives the answer to that event of
    /// the world, before which no memory runs out.
    pub fn take(&mut self, at: usize, message: usize) -> PeerAnswer
        ensures { (part : Option PartValue)
            × Happens peer_state peer_words self.old (Event.Take at message) result part self.new }
    {
        self.world.take(at, message)
    }

    /// The peer at a place pins a changeset, or pins it no more. It gives the answer to that event of the world, before
    /// which no memory runs out.
    pub fn mark(&mut self, at: usize, mark: &Mark) -> PeerAnswer
        ensures { (part : Option PartValue)
            × Happens peer_state peer_words self.old (Event.Mark at mark.now) result part self.new }
    {
        self.world.mark(at, mark)
    }

    /// The taker takes in what the giver serves above the heads that both have in common. It gives what the offer and
    /// the taking were answered, or nothing where one of the two is absent.
    ///
    /// Both are events of one run of the world. Memory runs out here only where both peers are there, before the first
    /// of them, and nothing changed then; within an event it is that event's refusal. So a refused offer changes
    /// nothing, and a message whose taking is refused stays among the messages.
    pub fn pull(&mut self, taker: usize, giver: usize) -> Result<Option<Pulled>, NoMemory>
        ensures pulled { IfOk result (λ pulled. IsPulled self.old taker giver Served pulled self.new) }
        ensures unchanged { OnErr result (self.new ≡ self.old) }
        ensures memory { OnErr result (¬ (IsOneAbsent self.old taker giver)) }
    {
        self.exchange(taker, giver, Scope::Served)
    }

    /// The taker takes in all that the giver holds and isn't secret, hidden or not, with every marker, even what the
    /// taker holds already. Answers and want of memory are those of [`pull`](Fleet::pull).
    pub fn share(&mut self, taker: usize, giver: usize) -> Result<Option<Pulled>, NoMemory>
        ensures pulled { IfOk result (λ pulled. IsPulled self.old taker giver Whole pulled self.new) }
        ensures unchanged { OnErr result (self.new ≡ self.old) }
        ensures memory { OnErr result (¬ (IsOneAbsent self.old taker giver)) }
    {
        self.exchange(taker, giver, Scope::Whole)
    }

    // The taker takes in what the giver offers of a scope.
    fn exchange(
        &mut self,
        taker: usize,
        giver: usize,
        scope: Scope,
    ) -> Result<Option<Pulled>, NoMemory>
        ensures pulled { IfOk result (λ pulled. IsPulled self.old taker giver scope pulled self.new) }
        ensures unchanged { OnErr result (self.new ≡ self.old) }
        ensures memory { OnErr result (¬ (IsOneAbsent self.old taker giver)) }
    {
        let Some(common) = self.left_out(taker, giver, scope)? else {
            return Ok(None);
        };
        let offered = self.offer(giver, &Ask { common, scope })?;
        let taken = self.take_offered(taker, &offered);
        Ok(Some(Pulled { offered, taken }))
    }

    // What the taker leaves out of what it asks of the giver, if both are there: by its heads what it has in common
    // with it, where it asks for what is served, and nothing otherwise.
    fn left_out(
        &mut self,
        taker: usize,
        giver: usize,
        scope: Scope,
    ) -> Result<Option<Vec<Node>>, NoMemory>
        ensures heads { IfOk result (λ common. MatchOption common (IsOneAbsent self.old taker giver)
            (λ heads. AreLeftOutAt scope self.old taker giver heads.items)) }
        ensures unchanged { self.new ≡ self.old }
        ensures memory { OnErr result (¬ (IsOneAbsent self.old taker giver)) }
    {
        let Some(asker) = kept_at(&self.world, taker) else {
            return Ok(None);
        };
        let Some(other) = kept_at(&self.world, giver) else {
            return Ok(None);
        };
        match scope {
            Scope::Whole => Ok(Some(Vec::new(self.alloc))),
            Scope::Served => {
                let heads = in_common(self.alloc, &mut self.pairs, (taker, giver), asker, other)?;
                Ok(Some(heads))
            }
        }
    }

    // The peer at a place takes the message that was offered, if one was. It gives what the taking was answered.
    fn take_offered(&mut self, taker: usize, offered: &PeerAnswer) -> Option<PeerAnswer>
        ensures { TakesOffered self.old taker offered.now result self.new }
    {
        match offered {
            Answer::Offered(message) => Some(self.take(taker, *message)),
            Answer::Accepted(_) => None,
            Answer::Marked => None,
            Answer::Refused(_) => None,
        }
    }
}

// The replica of the peer at a place, with its instabilities and its pins.
fn kept_at(world: &World<Peer>, place: usize) -> Option<&Kept>
    ensures { option_copied result ≡ slice_get world.now.nodes place }
{
    Some(world.state(place)?.kept())
}

// Each of the peers is in a valid state: its replica says so.
fn are_valid(peers: &[Peer])
    ensures { AllValid peer_state (snapshot peers.now []) }
{
    for peer in peers {
        peer.replica().is_valid();
    }
}

// The heads of what the asker has in common with the other. It notes how far both were compared, where that is farther
// than before.
fn in_common(
    alloc: Global,
    pairs: &mut BTreeMap<(usize, usize), Compared>,
    pair: (usize, usize),
    asker: &Kept,
    other: &Kept,
) -> Result<Vec<Node>, NoMemory>
    requires { IsTrueOf pairs.old pair asker.now other.now }
    ensures heads { IfOk result
        (λ heads. AreHeadsInCommon asker.now.replica other.now.replica other.now.pins heads.items) }
    ensures noted { IsNoted pairs.old pair asker.now other.now pairs.new }
{
    let before = noted(pairs, pair);
    let mut compared = before;
    let Ok(heads) = heads_in_common_compared(alloc, asker, other, &mut compared) else {
        return Err(NoMemory);
    };
    if compared != before {
        pairs.insert(pair, compared)?;
    }
    Ok(heads)
}

// How far two were compared, by what is noted at their places.
fn noted(pairs: &BTreeMap<(usize, usize), Compared>, pair: (usize, usize)) -> Compared
    ensures { (asker other : KeptValue) → IsTrueOf pairs.now pair asker other → WereCompared asker other result }
{
    match pairs.get(&pair) {
        Some(compared) => *compared,
        None => Compared::nothing(),
    }
}
