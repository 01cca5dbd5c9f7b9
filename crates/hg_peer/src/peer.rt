//! A replica that decides, offers and reads, with the pins of its node.
ghost use Rattle.std.specs.Prelude.{◌≡◌, ◌↔◌, ◌⊎◌, ◌<◌, [], Bool, false, IsTrue, IsOkAnd, IfOk, IfErr, OnOk, OnErr};
ghost use Rattle.std.specs.Prelude.{IsErrOf, MatchResult, length};
ghost use Rattle.hg_changeset.specs.declared.node.Node.{Node};
ghost use Rattle.hg_join.specs.Order.{IsDue};
ghost use Rattle.hg_phases.specs.State.{state_of};
ghost use Rattle.hg_replica.specs.Answer.{AbsorbAnswer, IsGrowthBeforeFault};
ghost use Rattle.hg_replica.specs.Content.{content_of, IsValidContent, ContentBelow, ContentsJoined, ContentsCollide};
ghost use Rattle.hg_replica.specs.Content.{ContentAdmits, ContentAfter, IsContentFault};
ghost use Rattle.hg_replica.specs.ContentLaws.{replicas_ordered, replicas_stay_covered, replicas_absorbed};
ghost use Rattle.hg_replica.specs.ContentLaws.{replicas_admit};
ghost use Rattle.hg_replica.specs.ContentLaws.{replicas_faultless, replicas_admit_covered, replicas_apart};
ghost use Rattle.hg_replica.specs.ContentLaws.{replicas_collide_for_good, replicas_memory_faultless};
ghost use Rattle.hg_replica.specs.ContentLaws.{replicas_memory_apart, replicas_commute, replicas_associate};
ghost use Rattle.hg_replica.specs.ContentLaws.{replicas_join_themselves, replicas_least, replicas_again, replicas_swap};
ghost use Rattle.hg_replica.specs.Least.{PartValue, part_of as part_of_replica};
ghost use Rattle.hg_replica.specs.State.{IsValid};
ghost use Rattle.hg_replica.specs.Words.{replica_words};
ghost use Rattle.hg_rewrite.specs.Memory.{MayWantMemory};
ghost use Rattle.hg_message.specs.Value.{is_too_large};
ghost use Rattle.hg_message.specs.Part.{part_of as message_part};
ghost use Rattle.hg_message.specs.Spelling.{message_spelling};
ghost use Rattle.hg_peer.specs.declared.mark.Mark.TheVariants.{Pin, Unpin};
ghost use Rattle.hg_peer.specs.declared.refusal.PeerRefusal.TheVariants.{NoMemory as OutOfMemory};
ghost use Rattle.hg_peer.specs.Peers.{Decides as DecidesPart, IsAgainstOperation, Offers as OffersBytes};
ghost use Rattle.hg_peer.specs.Peers.{IsAgainstOffer, IsAgainstWriting, SpellsPart, IsAgainstBytes as AgainstBytes};
ghost use Rattle.hg_peer.specs.Peers.{IsMemory, CanBeWritten, TakesBytes, OfferMayWantMemory, ReadMayWantMemory};
ghost use Rattle.hg_peer.specs.Marks.{own, Tells as TellsPeer, Marks as MarksPins, IsAgainstMark as AgainstMark};
ghost use Rattle.hg_peer.specs.Marks.{ChangesPins};
ghost use Rattle.hg_peer.specs.New.{IsNew};
ghost use Rattle.hg_peer.specs.DecisionLaws.{decided_once, decided_not_refused, memory_not_against_operation};
ghost use Rattle.hg_peer.specs.OfferLaws.{offered_once, offered_not_refused, offered_spelled, offered_covered};
ghost use Rattle.hg_peer.specs.OfferLaws.{offered_alike, memory_not_against_offer};
ghost use Rattle.hg_peer.specs.BytesLaws.{spelled_once, spelled_not_refused, memory_not_against_bytes};
ghost use Rattle.hg_peer.specs.MarkLaws.{marked_says_the_same, marked_once, marked_not_refused, told_leaves_own};
ghost use Rattle.hg_peer.specs.MarkLaws.{memory_not_against_mark};

use crate::ask::Ask;
use crate::mark::Mark;
use crate::refusal::PeerRefusal;
use hg_changeset::Node;
use hg_history::Fault;
use hg_join::{Actor, JoinState, NoMemory};
use hg_message::{Message, Outgoing};
use hg_node_set::IdKeys;
use hg_replica::{Change, Part, Replica};
use hg_rewrite::{Op, decide_kept};
use hg_view::Kept;
use std::alloc::Global;
use std::marker::Model;

/// A replica as a state that acts: it decides operations, offers what it serves above some common nodes, or its whole
/// history without what is secret, and reads messages. It keeps its instabilities, so that each of these asks what is
/// visible by look-ups. What it pins is its own, and a [`Mark`] changes that. Contracts see the replica and the pins.
#[derive(Drop)]
pub struct Peer {
    kept: Kept,
}

impl Model for Peer {
    ghost use Rattle.std.specs.Coded.{codes};
    ghost use Rattle.hg_marker.specs.Fields.{fields_code};
    ghost use Rattle.hg_view.specs.Kept.{KeptValue};

    ghost Value = { KeptValue };

    ghost coded = { Prim.hlevel (codes, fields_code) };

    ghost view = { λ peer. peer.kept };
}

impl Peer {
    /// The peer of this replica, with the pins that are kept beside it.
    pub fn new(kept: Kept) -> Peer
        ensures { result ≡ kept }
    {
        Peer { kept }
    }

    /// A peer that holds nothing and pins nothing, which hashes ids by these keys.
    pub fn with_keys(alloc: Global, keys: IdKeys) -> Result<Peer, NoMemory>
        ensures new { IfOk result IsNew }
        ensures replica { IfOk result (λ peer. peer.replica ≡ record { history = state_of [] []; markers = [] }) }
        ensures pins { IfOk result (λ peer. peer.pins ≡ []) }
    {
        Ok(Peer {
            kept: Kept::new(alloc, Replica::with_keys(alloc, keys))?,
        })
    }

    /// Its replica.
    pub fn replica(&self) -> &Replica
        ensures { result.now ≡ self.now.replica }
    {
        self.kept.replica()
    }

    /// Its replica with the instabilities and the pins that are kept beside it.
    pub fn kept(&self) -> &Kept
        ensures { result.now ≡ self.now }
    {
        &self.kept
    }
}

impl JoinState for Peer {
    type Part = Part;

    type Change = Change;

    type Fault = Fault;

    ghost Content = { replica_words.Content };

    ghost content = { λ peer. content_of peer.replica };

    ghost IsValid = { replica_words.IsValid };

    ghost Below = { replica_words.Below };

    ghost Joined = { replica_words.Joined };

    ghost Collides = { replica_words.Collides };

    ghost PartContent = { replica_words.PartContent };

    ghost part_content = { replica_words.part_content };

    ghost Covers = { replica_words.Covers };

    ghost Admits = { replica_words.Admits };

    ghost After = { replica_words.After };

    ghost IsFirstFault = { replica_words.IsFirstFault };

    ghost Tells = { TellsPeer };

    ghost IsWantOfMemory = { replica_words.IsWantOfMemory };

    ghost ordered = { replicas_ordered };

    ghost stays_covered = { replicas_stay_covered };

    ghost absorbed = { replicas_absorbed };

    ghost after_is_admitted = { replicas_admit };

    ghost faultless = { replicas_faultless };

    ghost covered_is_admitted = { replicas_admit_covered };

    ghost apart = { replicas_apart };

    ghost collides_for_good = { replicas_collide_for_good };

    ghost memory_is_no_fault = { replicas_memory_faultless };

    ghost memory_is_no_collision = { replicas_memory_apart };

    ghost commutes = { replicas_commute };

    ghost associates = { replicas_associate };

    ghost idempotent = { replicas_join_themselves };

    ghost least = { replicas_least };

    ghost again = { replicas_again };

    ghost swap = { replicas_swap };

    fn copy(&self) -> Result<Peer, NoMemory> {
        Ok(Peer {
            kept: self.kept.copy()?,
        })
    }

    fn absorb(&mut self, part: &Part) -> Result<Change, Fault>
        ensures after { OnOk result
            (ContentAfter (content_of self.old.replica) part.now (content_of self.new.replica)) }
        ensures change { IfOk result (λ change. TellsPeer self.old part.now change self.new) }
        ensures valid { OnOk result (IsValidContent (content_of self.old.replica)) }
        ensures fault { IfErr result (λ fault. IsContentFault (content_of self.old.replica) part.now fault
            ⊎ (fault ≡ Fault.NoMemory)) }
        ensures err { OnErr result (self.new ≡ self.old) }
        ensures pins { self.new.pins ≡ self.old.pins }

        // In the order in which it takes in, too.
        ensures answer { AbsorbAnswer self.old.replica part.now result self.new.replica }

        // Want of memory is told only where something grows before a fault is met.
        ensures memory { IsErrOf result Fault.NoMemory → IsGrowthBeforeFault self.old.replica part.now }
    {
        self.kept.absorb(part)
    }

    fn absorb_owned(&mut self, part: Part) -> Result<Change, Fault>
        ensures after { OnOk result
            (ContentAfter (content_of self.old.replica) part (content_of self.new.replica)) }
        ensures change { IfOk result (λ change. TellsPeer self.old part change self.new) }
        ensures valid { OnOk result (IsValidContent (content_of self.old.replica)) }
        ensures fault { IfErr result (λ fault. IsContentFault (content_of self.old.replica) part fault
            ⊎ (fault ≡ Fault.NoMemory)) }
        ensures err { OnErr result (self.new ≡ self.old) }
        ensures pins { self.new.pins ≡ self.old.pins }

        // In the order in which it takes in, too.
        ensures answer { AbsorbAnswer self.old.replica part result self.new.replica }

        // Want of memory is told only where something grows before a fault is met.
        ensures memory { IsErrOf result Fault.NoMemory → IsGrowthBeforeFault self.old.replica part }
    {
        self.kept.absorb_owned(part)
    }

    fn join(&mut self, other: &Peer) -> Result<(), Fault>
        ensures joined { OnOk result (ContentsJoined (content_of self.old.replica) (content_of other.now.replica)
            (content_of self.new.replica)) }
        ensures valid { OnOk result (IsValidContent (content_of self.old.replica)) }
        ensures other_valid { OnOk result (IsValidContent (content_of other.now.replica)) }
        ensures fault { IfErr result
            (λ fault. ContentsCollide (content_of self.old.replica) (content_of other.now.replica) fault
            ⊎ (fault ≡ Fault.NoMemory)) }
        ensures err { OnErr result (self.new ≡ self.old) }
        ensures pins { self.new.pins ≡ self.old.pins }

        // Want of memory is told only where something grows before a fault is met.
        ensures memory { IsErrOf result Fault.NoMemory
            → IsGrowthBeforeFault self.old.replica (part_of_replica other.now.replica) }
    {
        self.kept.join(&other.kept)
    }

    fn below(&self, other: &Peer) -> Result<bool, NoMemory>
        // It takes no memory, so it is never refused.
        ensures answer { IsOkAnd result
            (λ answer. IsTrue answer ↔ ContentBelow (content_of self.now.replica) (content_of other.now.replica)) }
        ensures valid { IsValidContent (content_of self.now.replica) }
        ensures other_valid { IsValidContent (content_of other.now.replica) }
    {
        self.replica().below(other.replica())
    }
}

impl Actor for Peer {
    type Op = Op;

    type Ask = Ask;

    type Mark = Mark;

    type Refusal = PeerRefusal;

    // Which changesets it pins.
    ghost Own = { Node → Bool };

    ghost owned = { own };

    ghost own_of_empty = { λ n. false };

    ghost Decides = { DecidesPart };

    ghost IsAgainstOp = { IsAgainstOperation };

    ghost Offers = { OffersBytes };

    ghost IsAgainstAsk = { IsAgainstOffer };

    ghost Marks = { MarksPins };

    ghost IsAgainstMark = { AgainstMark };

    ghost Spells = { SpellsPart };

    ghost IsAgainstBytes = { AgainstBytes };

    ghost IsRefusalOfMemory = { IsMemory };

    ghost decided_once = { decided_once };

    ghost decided_is_not_refused = { decided_not_refused };

    ghost offered_once = { offered_once };

    ghost offered_is_not_refused = { offered_not_refused };

    ghost offered_is_spelled = { offered_spelled };

    ghost offered_is_covered = { offered_covered };

    ghost offered_alike = { offered_alike };

    ghost marked_says_the_same = { marked_says_the_same };

    ghost marked_once = { marked_once };

    ghost marked_is_not_refused = { marked_not_refused };

    ghost told_leaves_own = { told_leaves_own };

    ghost spelled_once = { spelled_once };

    ghost spelled_is_not_refused = { spelled_not_refused };

    ghost memory_is_not_against_op = { memory_not_against_operation };

    ghost memory_is_not_against_ask = { memory_not_against_offer };

    ghost memory_is_not_against_mark = { memory_not_against_mark };

    ghost memory_is_not_against_bytes = { memory_not_against_bytes };

    fn empty(alloc: Global) -> Result<Peer, NoMemory> {
        let peer = Peer::with_keys(alloc, IdKeys::known())?;
        Ok(peer)
    }

    fn decide(&self, alloc: Global, op: &Op) -> Result<Part, PeerRefusal>
        ensures ok { IfOk result (DecidesPart self.now op.now) }
        ensures admitted { IfOk result (λ part. ContentAdmits (content_of self.now.replica) part) }
        ensures err { IfErr result (λ refusal. IsAgainstOperation self.now op.now refusal ⊎ IsMemory refusal) }
        ensures due { IsDue (DecidesPart self.now op.now) (IsAgainstOperation self.now op.now) }

        // Want of memory is told only where none of the rows applies that are tried before the first growth.
        ensures memory { IsErrOf result OutOfMemory → MayWantMemory self.now.replica self.now.pins op.now }
    {
        match decide_kept(alloc, &self.kept, op) {
            Ok(part) => Ok(part),
            Err(refusal) => Err(refusal.into()),
        }
    }

    fn offer(&self, alloc: Global, ask: &Ask) -> Result<Vec<u8>, PeerRefusal>
        ensures ok { IfOk result (λ bytes. OffersBytes self.now ask.now bytes.items) }
        ensures err { IfErr result (λ refusal. IsAgainstOffer self.now ask.now refusal ⊎ IsMemory refusal) }
        ensures due { IsDue (OffersBytes self.now ask.now) (IsAgainstOffer self.now ask.now) }

        // Want of memory is told only where each common node is held, and never of what was found and is too large.
        ensures memory { IsErrOf result OutOfMemory
            → OfferMayWantMemory self.now ask.now.common.items ask.now.scope }
    {
        let replica = self.kept.replica();
        replica.store().is_valid();
        match Outgoing::above_kept(alloc, &self.kept, &ask.common, ask.scope) {
            Ok(found) => written(&found),
            Err(refusal) => Err(refusal.into()),
        }
    }

    fn mark(&mut self, mark: &Mark) -> Result<(), PeerRefusal>
        ensures ok { OnOk result (MarksPins self.old mark.now self.new) }
        ensures err { IfErr result (λ refusal. AgainstMark self.old mark.now refusal ⊎ IsMemory refusal) }
        ensures unchanged { OnErr result (self.new ≡ self.old) }
        ensures due { IsDue (MarksPins self.old mark.now) (AgainstMark self.old mark.now) }

        // Want of memory is told only where the mark has something to change.
        ensures memory { IsErrOf result OutOfMemory → ChangesPins self.old mark.now }
    {
        match mark {
            Mark::Pin(node) => pin(&mut self.kept, *node),
            Mark::Unpin(node) => unpin(&mut self.kept, *node),
        }
    }

    fn read(alloc: Global, bytes: &[u8]) -> Result<Part, PeerRefusal>
        ensures ok { IfOk result (SpellsPart bytes.now) }
        ensures err { IfErr result (λ refusal. AgainstBytes bytes.now refusal ⊎ IsMemory refusal) }
        ensures due { IsDue (SpellsPart bytes.now) (AgainstBytes bytes.now) }

        // Want of memory is told only of bytes without fault, and of more than 40.
        ensures memory { IsErrOf result OutOfMemory → ReadMayWantMemory bytes.now }
    {
        read_part(alloc, None, bytes)
    }

    fn read_at(&self, alloc: Global, bytes: &[u8]) -> Result<Part, PeerRefusal>
        ensures ok { IfOk result (SpellsPart bytes.now) }
        ensures err { IfErr result (λ refusal. AgainstBytes bytes.now refusal ⊎ IsMemory refusal) }
        ensures due { IsDue (SpellsPart bytes.now) (AgainstBytes bytes.now) }

        // Want of memory is told only of bytes without fault, and of more than 40.
        ensures memory { IsErrOf result OutOfMemory → ReadMayWantMemory bytes.now }
    {
        read_part(alloc, Some(self.kept.replica()), bytes)
    }

    fn take(&mut self, alloc: Global, bytes: &[u8]) -> Result<Result<Change, Fault>, PeerRefusal>
        ensures taken { IfOk result (λ answer. (part : PartValue) × SpellsPart bytes.now part × MatchResult answer
            (λ change. ContentAfter (content_of self.old.replica) part (content_of self.new.replica)
            × TellsPeer self.old part change self.new)
            (λ fault. (IsContentFault (content_of self.old.replica) part fault ⊎ (fault ≡ Fault.NoMemory))
            × (self.new ≡ self.old))) }
        ensures valid { IfOk result (λ answer. OnOk answer (IsValidContent (content_of self.old.replica))) }
        ensures err { IfErr result (λ refusal. AgainstBytes bytes.now refusal ⊎ IsMemory refusal) }
        ensures unchanged { OnErr result (self.new ≡ self.old) }
        ensures due { IsDue (SpellsPart bytes.now) (AgainstBytes bytes.now) }

        // In the order in which it takes in, too; and want of memory is told only where a fault of the bytes can't be,
        // and where something grows before a fault of the part is met.
        ensures answer { TakesBytes self.old bytes.now result self.new }
    {
        take_in(&mut self.kept, alloc, bytes)
    }
}

/// The part that bytes spell. What is held is compared with them, and not hashed.
fn read_part(alloc: Global, held: Option<&Replica>, bytes: &[u8]) -> Result<Part, PeerRefusal>
    ensures ok { IfOk result (SpellsPart bytes.now) }
    ensures err { IfErr result (λ refusal. AgainstBytes bytes.now refusal ⊎ IsMemory refusal) }
    ensures due { IsDue (SpellsPart bytes.now) (AgainstBytes bytes.now) }
    ensures memory { IsErrOf result OutOfMemory → ReadMayWantMemory bytes.now }
{
    match Message::from_bytes_at(alloc, held, bytes) {
        Ok(message) => part_of(message),
        Err(error) => Err(error.into()),
    }
}

/// Takes in the part that bytes spell, without the changesets where it knows them all.
fn take_in(
    kept: &mut Kept,
    alloc: Global,
    bytes: &[u8],
) -> Result<Result<Change, Fault>, PeerRefusal>
    ensures answer { TakesBytes kept.old bytes.now result kept.new }
    ensures valid { IfOk result (λ answer. IsValid kept.old.replica) }
{
    match Message::part_at(alloc, kept.replica(), bytes) {
        Ok(part) => Ok(kept.absorb_owned(part)),
        Err(error) => Err(error.into()),
    }
}

/// Pins a changeset.
fn pin(kept: &mut Kept, node: Node) -> Result<(), PeerRefusal>
    ensures ok { OnOk result (MarksPins kept.old (Pin node) kept.new) }
    ensures err { IfErr result (λ refusal. AgainstMark kept.old (Pin node) refusal ⊎ IsMemory refusal) }
    ensures unchanged { OnErr result (kept.new ≡ kept.old) }
    ensures memory { IsErrOf result OutOfMemory → ChangesPins kept.old (Pin node) }
{
    match kept.pin(node) {
        Ok(()) => Ok(()),
        Err(refusal) => Err(refusal.into()),
    }
}

/// Takes the pin of a changeset away.
fn unpin(kept: &mut Kept, node: Node) -> Result<(), PeerRefusal>
    ensures ok { OnOk result (MarksPins kept.old (Unpin node) kept.new) }
    ensures err { IfErr result (λ refusal. AgainstMark kept.old (Unpin node) refusal ⊎ IsMemory refusal) }
    ensures unchanged { OnErr result (kept.new ≡ kept.old) }
    ensures memory { IsErrOf result OutOfMemory → ChangesPins kept.old (Unpin node) }
{
    match kept.unpin(node) {
        Ok(()) => Ok(()),
        Err(refusal) => Err(refusal.into()),
    }
}

/// The bytes of what goes out.
fn written(found: &Outgoing<'_>) -> Result<Vec<u8>, PeerRefusal>
    ensures ok { IfOk result (λ bytes. CanBeWritten found.now × (bytes.items ≡ message_spelling found.now)) }
    ensures err { IfErr result (λ refusal. IsAgainstWriting found.now refusal ⊎ IsMemory refusal) }

    // Want of memory is told only of what isn't too large.
    ensures memory { IsErrOf result OutOfMemory → is_too_large found.now ≡ false }
{
    match found.to_bytes() {
        Ok(bytes) => Ok(bytes),
        Err(refusal) => Err(refusal.into()),
    }
}

/// The part of a message.
fn part_of(message: Message) -> Result<Part, PeerRefusal>
    ensures ok { IfOk result (λ part. part ≡ message_part message) }
    ensures err { IfErr result (λ refusal. refusal ≡ OutOfMemory) }
    ensures memory { OnErr result (0 < length message.changesets) }
{
    match message.into_part() {
        Ok(part) => Ok(part),
        Err(_) => Err(PeerRefusal::NoMemory),
    }
}
