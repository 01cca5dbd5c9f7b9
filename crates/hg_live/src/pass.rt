//! The right to use a node.
ghost use Rattle.std.specs.Prelude.{◌≡◌, ◌+◌, ◌<◌, ℕ, [], IfSome, IfOk, IfErr, IsErrOf, length};
ghost use mathlib.Core.List.{IsPrefix};
ghost use Rattle.hg_replica.specs.Content.{content_of};
ghost use Rattle.hg_discovery.specs.Rounds.{AreKnown};
ghost use Rattle.hg_live.specs.declared.answer.LookRefusal.TheVariants as look;
ghost use Rattle.hg_view.specs.Status.{IsStatus};
ghost use Rattle.hg_live.specs.Limits.{call_limit};
ghost use Rattle.hg_live.specs.NodeViews.{new_pass};
ghost use Rattle.hg_live.specs.Looks.{LookAnswer, OfferLookAnswer, StateOffers, Writes};

use crate::answer::{LookRefusal, NotOffered};
use crate::entry::Entry;
use crate::name::NodeName;
use crate::store::{Published, Sight};
use hg_changeset::Node;
use hg_discovery::known_kept;
use hg_journal::Front;
use hg_message::Outgoing;
use hg_peer::{Peer, Scope};
use hg_view::Status;
use left_right::ReadHandle;
use std::alloc::Global;
use std::marker::Model;
use std::sync::ledger::{Book, Share};

/// The right to read a node and to call it, which one thread has at a time. It knows what it has seen of the node's
/// journal, what it was told of it, and how many of its calls were accepted. Contracts see these.
pub struct Pass<K: NodeName> {
    alloc: Global,
    reader: ReadHandle<Published<K>>,
    seen: Sight<K>,
    told: Front<K, Entry>,
    calls: u64,
    share: Share<K>,
}

// Whoever owns one calls this once, and is proved without a look at each collection in it.
impl<K: NodeName> Drop for Pass<K> {
    fn drop(self) {
        let Pass {
            alloc: _,
            reader: _,
            seen: _,
            told: _,
            calls: _,
            share: _,
        } = self;
    }
}

impl<K: NodeName> Model for Pass<K> {
    ghost use Rattle.std.specs.Prelude.{◌≡◌};
    ghost use Rattle.std.specs.Coded.{codes};
    ghost use Rattle.hg_marker.specs.Fields.{fields_code};
    ghost use Rattle.hg_live.specs.NodeViews.{PassView};

    ghost Value = { PassView };

    ghost coded = { Prim.hlevel (codes, fields_code) };

    ghost view = { λ p. record { seen = p.seen; told = p.told; calls = p.calls } };

    ghost invariant = { λ p. (p.share.parts ≡ 1) × (p.share.amount ≡ p.calls) };
}

impl<K: NodeName> Pass<K> {
    pub(crate) fn new(
        alloc: Global,
        reader: ReadHandle<Published<K>>,
        start: &Front<K, Entry>,
        share: Share<K>,
    ) -> Pass<K>
        requires share { (share.parts ≡ 1) × (share.amount ≡ 0) }
        requires start { start.now ≡ [] }
        ensures { result ≡ new_pass }
    {
        Pass {
            alloc,
            reader,
            seen: Sight::none(start),
            told: start.again(),
            calls: 0,
            share,
        }
    }

    /// The beginning of the journal that it has seen.
    pub fn seen(&self) -> &Front<K, Entry>
        ensures { result.now ≡ self.now.seen }
    {
        self.seen.front()
    }

    /// The beginning of the journal that it was told.
    pub fn told(&self) -> &Front<K, Entry>
        ensures { result.now ≡ self.now.told }
    {
        &self.told
    }

    /// How many of its calls were accepted.
    pub fn calls(&self) -> u64
        ensures { result ≡ self.now.calls }
    {
        self.calls
    }

    // Counts an accepted call.
    pub(crate) fn count(&mut self, book: &mut Book<K>)
        requires { book.old.total < call_limit }
        ensures same { self.new ≡ record self.old { calls = self.old.calls + 1 } }
        ensures total { book.new.total ≡ book.old.total + 1 }
    {
        book.audit(&mut self.share);
        book.add(&mut self.share, 1);
        self.calls += 1;
    }

    pub(crate) fn see(&mut self, sight: Sight<K>)
        ensures { self.new ≡ record self.old { seen = sight } }
    {
        self.seen = sight;
    }

    pub(crate) fn hear(&mut self, front: Front<K, Entry>)
        ensures { self.new ≡ record self.old { told = front } }
    {
        self.told = front;
    }

    // Both passes have then seen one list, and were told one list.
    pub(crate) fn meet(&mut self, other: &mut Pass<K>)
        ensures one { (self.new.seen ≡ other.new.seen) × (self.new.told ≡ other.new.told) }
        ensures seen { IsPrefix self.old.seen self.new.seen × IsPrefix other.old.seen other.new.seen }
        ensures told { IsPrefix self.old.told self.new.told × IsPrefix other.old.told other.new.told }
        ensures told_seen { IsPrefix self.old.seen self.new.told × IsPrefix other.old.seen other.new.told }
        ensures calls { (self.new.calls ≡ self.old.calls) × (other.new.calls ≡ other.old.calls) }
    {
        let seen = self.seen.longer(&other.seen);
        let told = self.told.longer(&other.told).longer(seen.front());
        self.seen = seen.again();
        other.seen = seen;
        self.told = told.again();
        other.told = told;
    }

    // What is known of a changeset in the state that is published.
    pub(crate) fn read(&mut self, node: Node) -> Result<Status, LookRefusal>
        ensures answer { LookAnswer K.opening (λ s. IsStatus s node) self.old result self.new }
        ensures memory { IsErrOf result look.NoMemory → ⊥ }
    {
        let Pass { reader, seen, .. } = self;
        let Some(guard) = reader.enter() else {
            return Err(LookRefusal::NotEntered);
        };
        let published: &Published<K> = &guard;
        let Some(now) = further(seen, published) else {
            return Err(LookRefusal::NotEntered);
        };
        let status = published.peer().kept().status(node);
        drop(guard);
        *seen = now;
        Ok(status)
    }

    // Which of the nodes the state that is published serves.
    pub(crate) fn known(&mut self, nodes: &[Node]) -> Result<Vec<bool>, LookRefusal>
        ensures { LookAnswer K.opening (λ s answers. AreKnown (content_of s.replica) s.pins nodes.now answers.items)
            self.old result self.new }
    {
        let Pass {
            alloc,
            reader,
            seen,
            ..
        } = self;
        let Some(guard) = reader.enter() else {
            return Err(LookRefusal::NotEntered);
        };
        let published: &Published<K> = &guard;
        let Some(now) = further(seen, published) else {
            return Err(LookRefusal::NotEntered);
        };
        let answers = known_by(*alloc, published.peer(), nodes);
        drop(guard);
        *seen = now;
        answers
    }

    // The bytes that the state that is published offers of the scope above the common nodes.
    pub(crate) fn offer(&mut self, common: &[Node], scope: Scope) -> Result<Vec<u8>, NotOffered>
        ensures { OfferLookAnswer K.opening common.now scope self.old result self.new }
    {
        let Pass {
            alloc,
            reader,
            seen,
            ..
        } = self;
        let Some(guard) = reader.enter() else {
            return Err(NotOffered::NotEntered);
        };
        let published: &Published<K> = &guard;
        let Some(now) = further(seen, published) else {
            return Err(NotOffered::NotEntered);
        };
        let bytes = offered_by(*alloc, published.peer(), common, scope);
        drop(guard);
        *seen = now;
        bytes
    }
}

// What is published, where that begins with all that was seen. It always does, but no contract of the store says so.
fn further<K: NodeName>(seen: &Sight<K>, published: &Published<K>) -> Option<Sight<K>>
    ensures { IfSome result (λ now. (now ≡ published.now.entries) × IsPrefix seen.now published.now.entries) }
{
    let now = published.sight();
    if seen.begins(&now) { Some(now) } else { None }
}

// Which of the nodes the state serves.
fn known_by(alloc: Global, peer: &Peer, nodes: &[Node]) -> Result<Vec<bool>, LookRefusal>
    ensures ok { IfOk result (λ answers. AreKnown (content_of peer.now.replica) peer.now.pins nodes.now answers.items) }
    ensures err { IfErr result (λ refusal. refusal ≡ look.NoMemory) }
{
    match known_kept(alloc, peer.kept(), nodes) {
        Ok(answers) => Ok(answers),
        Err(_) => Err(LookRefusal::NoMemory),
    }
}

// What the state offers of the scope above the common nodes, as a peer does that is asked for it.
fn offered_by(
    alloc: Global,
    peer: &Peer,
    common: &[Node],
    scope: Scope,
) -> Result<Vec<u8>, NotOffered>
    ensures { StateOffers peer.now common.now scope result }
{
    let kept = peer.kept();
    kept.replica().is_valid();
    match Outgoing::above_kept(alloc, kept, common, scope) {
        Ok(found) => written(&found),
        Err(refusal) => Err(refusal.into()),
    }
}

// The bytes of what goes out.
fn written(found: &Outgoing<'_>) -> Result<Vec<u8>, NotOffered>
    ensures { Writes found.now result }
{
    match found.to_bytes() {
        Ok(bytes) => Ok(bytes),
        Err(refusal) => Err(refusal.into()),
    }
}
