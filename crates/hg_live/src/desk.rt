//! What lies under a node's lock.
ghost use Rattle.std.specs.Prelude.{◌≡◌, ◌+◌, ◌<◌, ◌≤◌, ◌++◌, ◌∷◌, ◌↔◌, [], List, fold, length, All};
ghost use Rattle.std.specs.Prelude.{◌^◌, IfOk, IfErr, IsErrOf, OnOk, OnErr, IsTrue, IfSome, MatchOption};
ghost use Rattle.std.specs.List.{sum_by};
ghost use mathlib.Core.List.{IsPrefix};
ghost use Rattle.std.specs.VecDeque.{deque_capacity};
ghost use Rattle.left_right.specs.Handles.{published, pending};
ghost use Rattle.hg_peer.specs.declared.mark.Mark.TheVariants as mark;
ghost use Rattle.hg_live.specs.declared.answer.CallRefusal.TheVariants.{JournalFull};
ghost use Rattle.hg_live.specs.declared.answer.CloseRefusal.TheVariants.{PassesOut};
ghost use Rattle.hg_live.specs.declared.entry.Entry.{Entry as EntryValue};
ghost use Rattle.hg_live.specs.After.{IsAfter};
ghost use Rattle.hg_live.specs.Limits.{call_limit, pass_limit};
ghost use Rattle.hg_live.specs.NodeViews.{new_pass};
ghost use Rattle.hg_live.specs.Calls.{IsNotEntered, IsAgainstLocal, IsAgainstTake, IsAgainstMarking, IsEnteredAt};
ghost use Rattle.hg_live.specs.Calls.{AreAllOf, IsNoted, IsToldTo, EntersLocal, EntersBytes, EntersMark};

use crate::answer::{Accepted, CallRefusal, CloseRefusal, NoPass};
use crate::entry::{Entry, accept};
use crate::gate::Gate;
use crate::limits::{CALL_LIMIT, PASS_LIMIT};
use crate::name::NodeName;
use crate::pass::Pass;
use crate::store::{Publisher, Sight, Step, Writer};
use hg_changeset::Node;
use hg_join::Actor;
use hg_journal::{Front, Journal};
use hg_peer::{Mark, Peer};
use hg_replica::Replica;
use hg_rewrite::Op;
use std::alloc::Global;
use std::collections::VecDeque;
use std::marker::Model;
use std::sync::Wait;
use std::sync::ledger::{Book, Share};

/// What lies under a node's lock: the working replica with its pins, the journal of all that was accepted, and the
/// writer of what is published. Contracts see the journal, what of it is published, and the working state.
pub struct Desk<K: NodeName, S: Publisher> {
    alloc: Global,
    working: Peer,
    journal: Journal<K, Entry>,
    start: Front<K, Entry>,
    waiting: VecDeque<Step<K>>,
    writer: S,
    book: Book<K>,
    rest: Share<K>,
    left: u64,
}

// Whoever owns one calls this once, and is proved without a look at each collection in it.
impl<K: NodeName, S: Publisher + Drop> Drop for Desk<K, S> {
    fn drop(self) {
        let Desk {
            alloc: _,
            working: _,
            journal: _,
            start: _,
            waiting: _,
            writer: _,
            book: _,
            rest: _,
            left: _,
        } = self;
    }
}

impl<K: NodeName, S: Publisher> Model for Desk<K, S> {
    ghost use Rattle.std.specs.Prelude.{◌≡◌, ◌+◌, ◌≤◌, ◌++◌, length, map, []};
    ghost use Rattle.std.specs.VecDeque.{deque_capacity};
    ghost use Rattle.std.specs.Coded.{codes};
    ghost use Rattle.hg_marker.specs.Fields.{fields_code};
    ghost use Rattle.hg_live.specs.After.{IsAfter};
    ghost use Rattle.hg_live.specs.NodeViews.{DeskView};

    ghost Value = { DeskView };

    ghost coded = { Prim.hlevel (codes, fields_code) };

    ghost view = { λ d. record {
      journal = d.journal;
      published = S.shown d.writer;
      waiting = S.held d.writer ++ map (λ step. step.entry) d.waiting.items;
      working = d.working;
    } };

    ghost invariant = { λ d. record {
      after : IsAfter K.opening d.journal d.working;
      rest : d.journal ≡ S.shown d.writer ++ (S.held d.writer ++ map (λ step. step.entry) d.waiting.items);
      counted : d.book.total ≡ length d.journal;
      unasked : d.rest.amount ≡ 0;
      start : d.start ≡ [];
      room : 1 ≤ deque_capacity d.waiting;
      parts : d.rest.parts ≡ d.left + 1;
    } };
}

impl<K: NodeName, R: Wait + Drop> Desk<K, Writer<K, R>> {
    pub(crate) fn new(
        alloc: Global,
        working: Peer,
        journal: Journal<K, Entry>,
        writer: Writer<K, R>,
        waiting: VecDeque<Step<K>>,
        book: Book<K>,
        rest: Share<K>,
    ) -> Desk<K, Writer<K, R>>
        requires working { working ≡ K.opening }
        requires journal { journal ≡ [] }
        requires writer { ((published writer).entries ≡ []) × (pending writer ≡ []) }
        requires waiting { (waiting.items ≡ []) × (1 ≤ deque_capacity waiting) }
        requires book { book.total ≡ 0 }
        requires rest { (rest.amount ≡ 0) × (rest.parts ≡ pass_limit + 1) }
        ensures { result ≡ record { journal = []; published = []; waiting = []; working = K.opening } }
    {
        let start = journal.front();
        Desk {
            alloc,
            working,
            journal,
            start,
            waiting,
            writer,
            book,
            rest,
            left: PASS_LIMIT,
        }
    }

    // A new pass.
    pub(crate) fn pass(&mut self) -> Result<Pass<K>, NoPass>
        ensures new { IfOk result (λ p. p ≡ new_pass) }
        ensures same { self.new ≡ self.old }
    {
        if self.left == 0 {
            return Err(NoPass);
        }
        let Ok(reader) = self.writer.handle() else {
            return Err(NoPass);
        };
        let share = self.rest.split_off(1, 0);
        self.left -= 1;
        Ok(Pass::new(self.alloc, reader, &self.start, share))
    }

    /// Decides an operation at the working replica, and lets its part enter the journal.
    ///
    /// Refuses [`CallRefusal::JournalFull`] first, and then what [`Peer::decide`](Actor::decide) refuses.
    pub fn local<G: Gate>(
        &mut self,
        pass: &mut Pass<K>,
        gate: &G,
        op: &Op,
    ) -> Result<Accepted, CallRefusal>
        ensures entered { IfOk result
            (λ answer. IsEnteredAt (EntersLocal op.now) answer self.old self.new pass.old pass.new) }
        ensures full { IsErrOf result JournalFull ↔ (call_limit ≤ length self.old.journal) }
        ensures refused { IfErr result (IsAgainstLocal self.old op.now) }
        ensures err { OnErr result ((self.new ≡ self.old) × (pass.new ≡ pass.old)) }
        ensures after { IsAfter K.opening self.old.journal self.old.working }
        ensures rest { self.old.journal ≡ self.old.published ++ self.old.waiting }
    {
        if self.journal.len() >= CALL_LIMIT {
            return Err(CallRefusal::JournalFull);
        }
        match self.working.decide(self.alloc, op) {
            Ok(part) => self.enter(pass, gate, Entry::Part(part)),
            Err(refusal) => Err(refusal.into()),
        }
    }

    /// Takes a message in: its part enters the journal.
    ///
    /// Refuses [`CallRefusal::JournalFull`] first, then the first fault of the bytes, and then that of the part.
    pub fn take<G: Gate>(
        &mut self,
        pass: &mut Pass<K>,
        gate: &G,
        bytes: &[u8],
    ) -> Result<Accepted, CallRefusal>
        ensures entered { IfOk result
            (λ answer. IsEnteredAt (EntersBytes bytes.now) answer self.old self.new pass.old pass.new) }
        ensures full { IsErrOf result JournalFull ↔ (call_limit ≤ length self.old.journal) }
        ensures refused { IfErr result (IsAgainstTake self.old bytes.now) }
        ensures err { OnErr result ((self.new ≡ self.old) × (pass.new ≡ pass.old)) }
        ensures after { IsAfter K.opening self.old.journal self.old.working }
        ensures rest { self.old.journal ≡ self.old.published ++ self.old.waiting }
    {
        if self.journal.len() >= CALL_LIMIT {
            return Err(CallRefusal::JournalFull);
        }
        match self.working.read_at(self.alloc, bytes) {
            Ok(part) => self.enter(pass, gate, Entry::Part(part)),
            Err(refusal) => Err(refusal.into()),
        }
    }

    /// Pins a changeset that the working replica holds. The mark enters the journal, and the part of nobody else's
    /// state.
    ///
    /// Refuses [`CallRefusal::JournalFull`] first, and then what isn't held, as [`PinRefusal::Unknown`].
    ///
    /// [`PinRefusal::Unknown`]: hg_view::PinRefusal::Unknown
    pub fn pin<G: Gate>(
        &mut self,
        pass: &mut Pass<K>,
        gate: &G,
        node: Node,
    ) -> Result<Accepted, CallRefusal>
        ensures entered { IfOk result
            (λ answer. IsEnteredAt (EntersMark (mark.Pin node)) answer self.old self.new pass.old pass.new) }
        ensures full { IsErrOf result JournalFull ↔ (call_limit ≤ length self.old.journal) }
        ensures refused { IfErr result (IsAgainstMarking self.old (mark.Pin node)) }
        ensures err { OnErr result ((self.new ≡ self.old) × (pass.new ≡ pass.old)) }
        ensures after { IsAfter K.opening self.old.journal self.old.working }
        ensures rest { self.old.journal ≡ self.old.published ++ self.old.waiting }
    {
        if self.journal.len() >= CALL_LIMIT {
            return Err(CallRefusal::JournalFull);
        }
        self.enter(pass, gate, Entry::Mark(Mark::Pin(node)))
    }

    /// Takes the pin of a changeset away. The mark enters the journal.
    ///
    /// Refuses [`CallRefusal::JournalFull`] first, and then what isn't pinned, as [`PinRefusal::NotPinned`].
    ///
    /// [`PinRefusal::NotPinned`]: hg_view::PinRefusal::NotPinned
    pub fn unpin<G: Gate>(
        &mut self,
        pass: &mut Pass<K>,
        gate: &G,
        node: Node,
    ) -> Result<Accepted, CallRefusal>
        ensures entered { IfOk result
            (λ answer. IsEnteredAt (EntersMark (mark.Unpin node)) answer self.old self.new pass.old pass.new) }
        ensures full { IsErrOf result JournalFull ↔ (call_limit ≤ length self.old.journal) }
        ensures refused { IfErr result (IsAgainstMarking self.old (mark.Unpin node)) }
        ensures err { OnErr result ((self.new ≡ self.old) × (pass.new ≡ pass.old)) }
        ensures after { IsAfter K.opening self.old.journal self.old.working }
        ensures rest { self.old.journal ≡ self.old.published ++ self.old.waiting }
    {
        if self.journal.len() >= CALL_LIMIT {
            return Err(CallRefusal::JournalFull);
        }
        self.enter(pass, gate, Entry::Mark(Mark::Unpin(node)))
    }

    // An entry is taken in, goes to the end of the journal, and is published where memory allows it. The room comes
    // first, and is there already where nothing waits; then the absorption. From there on nothing can fail, so the
    // working replica absorbs in place.
    fn enter<G: Gate>(
        &mut self,
        pass: &mut Pass<K>,
        gate: &G,
        entry: Entry,
    ) -> Result<Accepted, CallRefusal>
        requires room { length self.old.journal < call_limit }
        ensures noted { IfOk result (λ answer. IsNoted entry answer self.old self.new) }
        ensures told { IfOk result
            (λ answer. IsToldTo answer self.old.journal self.new.journal pass.old pass.new) }
        ensures refused { IfErr result (IsNotEntered self.old entry) }
        ensures err { OnErr result ((self.new ≡ self.old) × (pass.new ≡ pass.old)) }
        ensures after { IsAfter K.opening self.old.journal self.old.working }
        ensures rest { self.old.journal ≡ self.old.published ++ self.old.waiting }
    {
        let Desk {
            working,
            journal,
            waiting,
            writer,
            book,
            ..
        } = self;
        if waiting.reserve(1).is_err() {
            return Err(CallRefusal::NoMemory);
        }
        match accept(working, &entry) {
            Ok(()) => {}
            Err(refusal) => return Err(refusal),
        }
        let step = noted(journal, pass, entry);
        let after = step.after.again();
        pass.count(book);
        waiting.push_back_reserved(step);
        match publish(writer, waiting, &after, gate) {
            Some(sight) => {
                pass.see(sight);
                Ok(Accepted::Shown)
            }
            None => Ok(Accepted::Later),
        }
    }

    // A copy of the working replica, where the calls of these passes are all that the journal has.
    pub(crate) fn closing(&self, passes: &[Pass<K>]) -> Result<Replica, CloseRefusal>
        ensures state { IfOk result (λ replica. replica ≡ self.now.working.replica) }
        ensures after { IsAfter K.opening self.now.journal self.now.working }
        ensures all { OnOk result (AreAllOf self.now.journal passes.now) }
        ensures out { IsErrOf result PassesOut → ¬ (AreAllOf self.now.journal passes.now) }
    {
        let front = self.journal.front();
        if !are_within(passes, &front) {
            return Err(CloseRefusal::PassesOut);
        }
        let accepted = self.journal.len();
        let Some(calls) = all_calls(passes) else {
            return Err(CloseRefusal::PassesOut);
        };
        if calls != accepted {
            return Err(CloseRefusal::PassesOut);
        }
        match self.working.replica().copy() {
            Ok(replica) => Ok(replica),
            Err(_) => Err(CloseRefusal::NoMemory),
        }
    }
}

// Adds an entry to the journal, tells the pass what the journal has then, and gives the step there.
fn noted<K: NodeName>(journal: &mut Journal<K, Entry>, pass: &mut Pass<K>, entry: Entry) -> Step<K>
    requires room { length journal.old < call_limit }
    ensures step { (result.entry ≡ entry) × (result.after ≡ journal.new) }
    ensures journal { journal.new ≡ journal.old ++ entry ∷ [] }
    ensures pass { pass.new ≡ record pass.old { told = journal.new } }
    ensures begun { IsPrefix pass.old.seen journal.old × IsPrefix pass.old.told journal.old }
{
    let before = journal.front();
    let entry = journal.extend(pass.seen(), pass.told(), entry);
    let after = journal.front();
    pass.hear(after.again());
    Step {
        entry,
        before,
        after,
    }
}

// Hands what waits to the writer, in order. It stops where memory is wanting.
fn hand_over<K: NodeName, R: Wait + Drop>(
    writer: &mut Writer<K, R>,
    waiting: &mut VecDeque<Step<K>>,
) -> bool
    ensures same { published writer.new ≡ published writer.old }
    ensures rest { pending writer.new ++ waiting.new.items ≡ pending writer.old ++ waiting.old.items }
    ensures all { IsTrue result → waiting.new.items ≡ [] }
    ensures capacity { deque_capacity waiting.new ≡ deque_capacity waiting.old }
{
    let mut left = waiting.len();
    while left > 0 {
        let step = waiting.pop_front().unwrap();
        if let Err(step) = writer.append(step) {
            waiting.push_front_reserved(step);
            return false;
        }
        left -= 1;
    }
    true
}

// Publishes all that waits, or nothing. Who published it has then seen it.
fn publish<K: NodeName, R: Wait + Drop, G: Gate>(
    writer: &mut Writer<K, R>,
    waiting: &mut VecDeque<Step<K>>,
    front: &Front<K, Entry>,
    gate: &G,
) -> Option<Sight<K>>
    requires leads { (l : List EntryValue) → fold (λ l step. step.after) l waiting.old.items ≡ front.now }
    ensures sight { IfSome result (λ sight. sight ≡ front.now) }
    ensures shown { MatchOption result (published writer.new ≡ published writer.old)
        (λ _. (published writer.new).entries ≡ front.now) }
    ensures rest { MatchOption result
        (pending writer.new ++ waiting.new.items ≡ pending writer.old ++ waiting.old.items)
        (λ _. (pending writer.new ≡ []) × (waiting.new.items ≡ [])) }
    ensures capacity { deque_capacity waiting.new ≡ deque_capacity waiting.old }
{
    if !hand_over(writer, waiting) {
        return None;
    }
    gate.at_publish();
    match writer.publish() {
        Ok(()) => Some(writer.published().sight()),
        Err(_) => None,
    }
}

// Whether what the pass has seen and was told begins the journal.
#[tactic(auto, using(hg_journal::proofs::Prefixes::prefix_length))]
fn is_within<K: NodeName>(pass: &Pass<K>, front: &Front<K, Entry>) -> bool
    ensures { IsTrue result ↔ (IsPrefix pass.now.seen front.now × IsPrefix pass.now.told front.now) }
{
    pass.seen().begins(front) && pass.told().begins(front)
}

// Whether that of all passes does.
fn are_within<K: NodeName>(passes: &[Pass<K>], front: &Front<K, Entry>) -> bool
    ensures { IsTrue result ↔ All (λ p. IsPrefix p.seen front.now × IsPrefix p.told front.now) passes.now }
{
    for pass in passes {
        if !is_within(pass, front) {
            return false;
        }
    }
    true
}

// How many calls of all passes were accepted, where the number fits.
fn all_calls<K: NodeName>(passes: &[Pass<K>]) -> Option<u64>
    ensures { MatchOption result (2 ^ 64 ≤ sum_by (λ p. p.calls) passes.now)
        (λ n. n ≡ sum_by (λ p. p.calls) passes.now) }
{
    let mut all: u64 = 0;
    for pass in passes {
        all = all.checked_add(pass.calls())?;
    }
    Some(all)
}
