//! A node that threads share.
ghost use Rattle.std.specs.Prelude.{◌≡◌, [], ℕ, List, length, IfOk, IfErr, IsErrOf, OnErr, All};
ghost use Rattle.std.specs.List.{sum_by};
ghost use mathlib.Core.List.{IsPrefix};
ghost use Rattle.hg_replica.specs.Content.{content_of};
ghost use Rattle.hg_view.specs.Kept.{KeptValue};
ghost use Rattle.hg_discovery.specs.Rounds.{AreKnown};
ghost use Rattle.hg_peer.specs.declared.mark.Mark.TheVariants as mark;
ghost use Rattle.hg_live.specs.declared.answer.CloseRefusal.TheVariants as close;
ghost use Rattle.hg_live.specs.declared.answer.LookRefusal.TheVariants as look;
ghost use Rattle.hg_live.specs.declared.entry.Entry.{Entry as EntryValue};
ghost use Rattle.hg_live.specs.After.{IsAfter};
ghost use Rattle.hg_live.specs.NodeViews.{new_pass};
ghost use Rattle.hg_view.specs.Status.{IsStatus};
ghost use Rattle.hg_live.specs.Looks.{LookAnswer, OfferLookAnswer};
ghost use Rattle.hg_live.specs.Calls.{IsEntered, IsRefusedAt, IsAgainstLocal, IsAgainstTake, IsAgainstMarking};
ghost use Rattle.hg_live.specs.Calls.{AreAllOf, EntersLocal, EntersBytes, EntersMark};

use crate::answer::{Accepted, CallRefusal, CloseRefusal, LookRefusal, NoPass, NotOffered};
use crate::desk::Desk;
use crate::entry::Entry;
use crate::gate::Gate;
use crate::limits::PASS_LIMIT;
use crate::name::NodeName;
use crate::pass::Pass;
use crate::store::{Publisher, Writer, both_published};
use hg_changeset::Node as Id;
use hg_join::NoMemory;
use hg_journal::Opened;
use hg_peer::{Peer, Scope};
use hg_replica::Replica;
use hg_rewrite::Op;
use hg_view::{Kept, Status};
use std::alloc::Global;
use std::collections::VecDeque;
use std::marker::Model;
use std::sync::{Mutex, Wait, ledger};

/// A node that has no name yet, which a replica was handed to. Contracts see what it opens with, the book of its
/// journal, and the name and the parts of its tokens.
#[derive(Drop)]
pub struct Blank {
    opening: Peer,
    opened: Opened<Entry>,
    tokens: ledger::Blank,
}

impl Model for Blank {
    ghost use Rattle.std.specs.Prelude.{◌≡◌, ◌+◌};
    ghost use Rattle.std.specs.Coded.{codes};
    ghost use Rattle.logbook.specs.Pages.{book_coded};
    ghost use Rattle.hg_marker.specs.Fields.{fields_code};
    ghost use Rattle.hg_live.specs.Limits.{pass_limit};
    ghost use Rattle.hg_live.specs.NodeViews.{BlankView};

    ghost Value = { BlankView };

    ghost coded = { Prim.hlevel (codes, fields_code, book_coded) };

    ghost view = { λ b. record {
      opening = b.opening;
      opened = b.opened;
      tokens = record { name = b.tokens.name; parts = b.tokens.parts };
    } };

    ghost invariant = { λ b. b.tokens.parts ≡ pass_limit + 1 };
}

impl Blank {
    /// A node that opens with this replica, and with no pins.
    pub fn new(alloc: Global, replica: Replica) -> Result<Blank, NoMemory>
        ensures replica { IfOk result (λ blank. blank.opening.replica ≡ replica) }
        ensures pins { IfOk result (λ blank. blank.opening.pins ≡ []) }
    {
        let kept = Kept::new(alloc, replica)?;
        let Some(opened) = Opened::new() else {
            return Err(NoMemory);
        };
        Ok(Blank {
            opening: Peer::new(kept),
            opened,
            tokens: ledger::Blank::new(PASS_LIMIT + 1),
        })
    }
}

/// A replica with a lock of its own, which threads share.
pub struct Node<K: NodeName, G, S: Publisher> {
    desk: Mutex<Desk<K, S>>,
    gate: G,
}

// Whoever owns one calls this once, and is proved without a look at each collection in it.
impl<K: NodeName, G: Drop, S: Publisher + Drop> Drop for Node<K, G, S> {
    fn drop(self) {
        let Node { desk: _, gate: _ } = self;
    }
}

/// A node that wasn't closed comes back, and so do the passes.
#[derive(Drop)]
pub struct Unclosed<K: NodeName, G, S: Publisher> {
    /// Why it wasn't.
    pub why: CloseRefusal,

    /// The node.
    pub node: Node<K, G, S>,

    /// The passes that were handed in.
    pub passes: Vec<Pass<K>>,
}

impl<K: NodeName, G: Gate + Drop, R: Wait + Drop> Node<K, G, Writer<K, R>> {
    /// Opens a blank under the name that the call picked for it.
    pub fn new(
        rt: R,
        alloc: Global,
        blank: Blank,
        gate: G,
    ) -> Result<Node<K, G, Writer<K, R>>, NoMemory>
        requires opening { K.opening ≡ blank.opening }
        requires book { blank.opened ≡ K.book }
        requires name { blank.tokens.name ≡ K.name }
        requires parts { blank.tokens.parts ≡ K.parts }
    {
        let waiting = VecDeque::with_capacity(alloc, 1)?;
        let Blank {
            opening,
            opened,
            tokens,
        } = blank;
        let journal = opened.named::<K>();
        let (first, second) = both_published(&opening, &journal)?;
        let writer = Writer::<K, R>::new(alloc, rt, first, second, 16)?;
        let (book, rest) = tokens.open::<K>();
        Ok(Node {
            desk: Mutex::new(Desk::new(alloc, opening, journal, writer, waiting, book, rest)),
            gate,
        })
    }

    /// A new pass, which has seen nothing and was told nothing. It waits for the lock.
    ///
    /// Refuses where 16 are out, or [`PASS_LIMIT`] were made. To drop a pass makes room for another, but the node can't
    /// be closed any more where calls of it were accepted.
    pub fn pass<W: Wait>(&self, rt: &W) -> Result<Pass<K>, NoPass>
        ensures { IfOk result (λ p. p ≡ new_pass) }
    {
        self.desk.lock(rt).pass()
    }

    /// Decides an operation at the working replica. It waits for the lock, and for readers of what is no longer
    /// published.
    ///
    /// Where it is accepted, the pass was told a list that ends with the operation's part, decided at the state that
    /// the list without it leads to. That begins with all that the pass had seen or been told. Where it answers
    /// [`Accepted::Shown`], the pass has seen it, too.
    pub fn local<W: Wait>(
        &self,
        rt: &W,
        pass: &mut Pass<K>,
        op: &Op,
    ) -> Result<Accepted, CallRefusal>
        ensures ok { IfOk result (λ answer. IsEntered K.opening (EntersLocal op.now) answer pass.old pass.new) }
        ensures refused { IfErr result (IsRefusedAt K.opening (λ d. IsAgainstLocal d op.now)) }
        ensures err { OnErr result (pass.new ≡ pass.old) }
    {
        let mut desk = self.desk.lock(rt);
        desk.local(pass, &self.gate, op)
    }

    /// Takes a message in, as [`local`](Node::local) does the part of an operation.
    pub fn take<W: Wait>(
        &self,
        rt: &W,
        pass: &mut Pass<K>,
        bytes: &[u8],
    ) -> Result<Accepted, CallRefusal>
        ensures ok { IfOk result (λ answer. IsEntered K.opening (EntersBytes bytes.now) answer pass.old pass.new) }
        ensures refused { IfErr result (IsRefusedAt K.opening (λ d. IsAgainstTake d bytes.now)) }
        ensures err { OnErr result (pass.new ≡ pass.old) }
    {
        let mut desk = self.desk.lock(rt);
        desk.take(pass, &self.gate, bytes)
    }

    /// Pins a changeset that the working replica holds. The entry of the journal is the mark, and no message tells it.
    pub fn pin<W: Wait>(
        &self,
        rt: &W,
        pass: &mut Pass<K>,
        node: Id,
    ) -> Result<Accepted, CallRefusal>
        ensures ok { IfOk result
            (λ answer. IsEntered K.opening (EntersMark (mark.Pin node)) answer pass.old pass.new) }
        ensures refused { IfErr result (IsRefusedAt K.opening (λ d. IsAgainstMarking d (mark.Pin node))) }
        ensures err { OnErr result (pass.new ≡ pass.old) }
    {
        let mut desk = self.desk.lock(rt);
        desk.pin(pass, &self.gate, node)
    }

    /// Takes the pin of a changeset away, as [`pin`](Node::pin) sets it.
    pub fn unpin<W: Wait>(
        &self,
        rt: &W,
        pass: &mut Pass<K>,
        node: Id,
    ) -> Result<Accepted, CallRefusal>
        ensures ok { IfOk result
            (λ answer. IsEntered K.opening (EntersMark (mark.Unpin node)) answer pass.old pass.new) }
        ensures refused { IfErr result (IsRefusedAt K.opening (λ d. IsAgainstMarking d (mark.Unpin node))) }
        ensures err { OnErr result (pass.new ≡ pass.old) }
    {
        let mut desk = self.desk.lock(rt);
        desk.unpin(pass, &self.gate, node)
    }

    /// A copy of the working replica, where all passes are back whose calls were accepted. The accepted calls of these
    /// passes are all that ever entered the journal. It needs no lock, since nobody else has the node; but where it
    /// succeeds it waits, as dropping a node does, for whoever is inside a look by a pass that isn't back.
    pub fn close(self, passes: Vec<Pass<K>>) -> Result<Replica, Unclosed<K, G, Writer<K, R>>>
        ensures ok { IfOk result (λ replica. (l : List EntryValue) × (s : KeptValue) × IsAfter K.opening l s
            × (replica ≡ s.replica) × AreAllOf l passes.items) }
        ensures err { IfErr result (λ unclosed. unclosed.passes ≡ passes) }
        ensures out { IfErr result (λ unclosed. unclosed.why ≡ close.PassesOut → (l : List EntryValue)
            × (s : KeptValue) × IsAfter K.opening l s × ¬ (AreAllOf l passes.items)) }
    {
        let Node { desk, gate } = self;
        let desk = desk.into_inner();
        match desk.closing(passes.as_slice()) {
            Ok(replica) => Ok(replica),
            Err(why) => Err(Unclosed {
                why,
                node: Node {
                    desk: Mutex::new(desk),
                    gate,
                },
                passes,
            }),
        }
    }
}

/// What waits for nobody, whatever the node is written by.
impl<K: NodeName, G, S: Publisher> Node<K, G, S> {
    /// Lets both passes see one list, and tells them one list, which begins with all that each had seen or been told.
    /// Nothing is refused, and what the passes know suffices for it, so it waits for nobody.
    pub fn meet(&self, one: &mut Pass<K>, other: &mut Pass<K>)
        ensures one { (one.new.seen ≡ other.new.seen) × (one.new.told ≡ other.new.told) }
        ensures seen { IsPrefix one.old.seen one.new.seen × IsPrefix other.old.seen other.new.seen }
        ensures told { IsPrefix one.old.told one.new.told × IsPrefix other.old.told other.new.told }
        ensures told_seen { IsPrefix one.old.seen one.new.told × IsPrefix other.old.seen other.new.told }
        ensures calls { (one.new.calls ≡ one.old.calls) × (other.new.calls ≡ other.old.calls) }
    {
        one.meet(other);
    }

    /// What is known of a changeset in the state that is published, which begins with all that the pass had seen. The
    /// pass has then seen that state. It takes no lock, no memory, and waits for nobody.
    pub fn read(pass: &mut Pass<K>, node: Id) -> Result<Status, LookRefusal>
        ensures answer { LookAnswer K.opening (λ s. IsStatus s node) pass.old result pass.new }
        ensures memory { IsErrOf result look.NoMemory → ⊥ }
    {
        pass.read(node)
    }

    /// Which of the nodes the state that is published serves. It takes no lock, and waits for nobody.
    pub fn known(pass: &mut Pass<K>, nodes: &[Id]) -> Result<Vec<bool>, LookRefusal>
        ensures { LookAnswer K.opening (λ s answers. AreKnown (content_of s.replica) s.pins nodes.now answers.items)
            pass.old result pass.new }
    {
        pass.known(nodes)
    }

    /// The bytes that the state that is published offers above the common nodes, of this scope. It takes no lock, and
    /// waits for nobody.
    pub fn offer(pass: &mut Pass<K>, common: &[Id], scope: Scope) -> Result<Vec<u8>, NotOffered>
        ensures { OfferLookAnswer K.opening common.now scope pass.old result pass.new }
    {
        pass.offer(common, scope)
    }
}
