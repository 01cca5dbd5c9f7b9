//! A world of nodes, with the pool of all that was offered.
ghost use Rattle.std.specs.Prelude.{◌≡◌, ◌<◌, [], length, Option, IfOk, OnErr, vec_len, slice_get};
ghost use Rattle.std.specs.Option.{option_copied};
ghost use Rattle.hg_world.specs.Runs.{AllEmpty, AllUnmarked, AllValid, Happens, HasRun, snapshot};
ghost use Rattle.hg_world.specs.declared.event.Event.{Event};

use crate::event::{Answer, Event};
use crate::steps::{decide_at, mark_at, offer_at, run_all, take_at};
use hg_join::{Actor, NoMemory};
use std::alloc::Global;
use std::marker::Model;

/// Nodes, and every message that was ever offered. Contracts see the list of the nodes' states beside that of the
/// messages.
///
/// Messages are bytes, numbered from 0, and stay for good. Any node may take any of them, late, again or never.
pub struct World<S: Actor> {
    alloc: Global,
    nodes: Vec<S>,
    messages: Vec<Vec<u8>>,
}

// Whoever owns a world calls this once, and is proved without a look at each collection in it.
impl<S: Actor> Drop for World<S> {
    fn drop(self) {
        let World {
            alloc: _,
            nodes: _,
            messages: _,
        } = self;
    }
}

impl<S: Actor> Model for World<S> {
    ghost use Rattle.hg_world.specs.Runs.{Snapshot, snapshot, AllValid};

    ghost Value = { Snapshot S };

    ghost view = { λ w. snapshot w.nodes.items w.messages.items };

    ghost invariant = { λ w. AllValid S.JoinState (snapshot w.nodes.items w.messages.items) };
}

impl<S: Actor> World<S> {
    /// A world of so many empty nodes, none of them marked, and no message.
    pub fn new(alloc: Global, count: usize) -> Result<World<S>, NoMemory>
        ensures nodes { IfOk result (λ world. length world.nodes ≡ count) }
        ensures empty { IfOk result (λ world. AllEmpty S.JoinState world) }
        ensures unmarked { IfOk result (λ world. AllUnmarked S.JoinState S.Actor.own world) }
        ensures messages { IfOk result (λ world. world.messages ≡ []) }
        ensures memory { OnErr result (0 < count) }
    {
        let mut nodes = Vec::with_capacity(alloc, count)?;
        for _ in 0..count {
            nodes.push(S::empty(alloc)?).unwrap();
        }
        Ok(World {
            alloc,
            nodes,
            messages: Vec::new(alloc),
        })
    }

    /// A world of these nodes, each in a valid state, and no message. So nodes may be made otherwise than empty, or
    /// with what [`new`](World::new) can't hand to them.
    pub fn of(alloc: Global, nodes: Vec<S>) -> World<S>
        requires { AllValid S.JoinState (snapshot nodes.items []) }
        ensures { result ≡ snapshot nodes.items [] }
    {
        World {
            alloc,
            nodes,
            messages: Vec::new(alloc),
        }
    }

    /// Does the events one after another and gives their answers, one for each.
    ///
    /// What happened is a run: each event was accepted, offered, marked or refused as its definition says. Afterwards
    /// each node is the least valid state above what it was that covers the parts that it accepted. Memory runs out
    /// here only before the first event, and where there is one; within an event it is that event's refusal.
    pub fn run(
        &mut self,
        events: &[Event<S::Op, S::Ask, S::Mark>],
    ) -> Result<Vec<Answer<S::Change, S::Refusal, S::Fault>>, NoMemory>
        ensures ran { IfOk result
            (λ answers. HasRun S.JoinState S.Actor.own self.old events.now answers.items self.new) }
        ensures count { IfOk result (λ answers. vec_len answers ≡ length events.now) }
        ensures unchanged { OnErr result (self.new ≡ self.old) }
        ensures memory { OnErr result (0 < length events.now) }

        // Each node's state is valid, as the laws of runs ask.
        ensures valid { AllValid S.JoinState self.old }
    {
        run_all(
            self.alloc,
            self.nodes.as_mut_slice(),
            &mut self.messages,
            events,
        )
    }

    /// The node at a place, counted from 0, decides an operation and absorbs its part. The answer is that of
    /// [`run`](World::run) to this [`Event::Local`]: `NoNode` where there is no such node.
    #[inline(always)]
    pub fn local(&mut self, at: usize, op: &S::Op) -> Answer<S::Change, S::Refusal, S::Fault>
        ensures happens { (part : Option S.Part)
            × Happens S.JoinState S.Actor.own self.old (Event.Local at op.now) result part self.new }
        ensures valid { AllValid S.JoinState self.old }
    {
        decide_at(self.alloc, self.nodes.as_mut_slice(), at, op)
    }

    /// The bytes that the node at a place, counted from 0, offers become the last message. The answer is that of
    /// [`run`](World::run) to this [`Event::Offer`]: `NoNode` where there is no such node.
    ///
    /// Memory runs out here only where there is such a node, since its message wants a place in the pool; within the
    /// event it is that event's refusal.
    pub fn offer(
        &mut self,
        at: usize,
        ask: &S::Ask,
    ) -> Result<Answer<S::Change, S::Refusal, S::Fault>, NoMemory>
        ensures happens { IfOk result (λ answer. (part : Option S.Part)
            × Happens S.JoinState S.Actor.own self.old (Event.Offer at ask.now) answer part self.new) }
        ensures unchanged { OnErr result (self.new ≡ self.old) }
        ensures memory { OnErr result (at < length self.old.nodes) }
        ensures valid { AllValid S.JoinState self.old }
    {
        if at < self.nodes.len() {
            self.messages.reserve(1)?;
        }
        let nodes = self.nodes.as_slice();
        Ok(offer_at(self.alloc, nodes, &mut self.messages, at, ask))
    }

    /// The node at a place reads the message with this number, both counted from 0, and absorbs its part. The answer is
    /// that of [`run`](World::run) to this [`Event::Take`]: `NoNode` where there is no such node, and then `NoMessage`
    /// where there is no such message.
    pub fn take(&mut self, at: usize, message: usize) -> Answer<S::Change, S::Refusal, S::Fault>
        ensures happens { (part : Option S.Part)
            × Happens S.JoinState S.Actor.own self.old (Event.Take at message) result part self.new }
        ensures valid { AllValid S.JoinState self.old }
    {
        take_at(
            self.alloc,
            self.nodes.as_mut_slice(),
            self.messages.as_slice(),
            at,
            message,
        )
    }

    /// The node at a place, counted from 0, marks what is its own. The answer is that of [`run`](World::run) to this
    /// [`Event::Mark`]: `NoNode` where there is no such node.
    pub fn mark(&mut self, at: usize, mark: &S::Mark) -> Answer<S::Change, S::Refusal, S::Fault>
        ensures happens { (part : Option S.Part)
            × Happens S.JoinState S.Actor.own self.old (Event.Mark at mark.now) result part self.new }
        ensures valid { AllValid S.JoinState self.old }
    {
        mark_at(self.nodes.as_mut_slice(), at, mark)
    }

    /// The states of the nodes, in their order.
    pub fn states(&self) -> &[S]
        ensures { result.now ≡ self.now.nodes }
    {
        self.nodes.as_slice()
    }

    /// The state of a node, if there is one at the place, counted from 0.
    pub fn state(&self, at: usize) -> Option<&S>
        ensures { option_copied result ≡ slice_get self.now.nodes at }
    {
        self.nodes.get(at)
    }

    /// The bytes of a message, if there is one of this number, counted from 0.
    pub fn message(&self, number: usize) -> Option<&[u8]>
        ensures { option_copied result ≡ slice_get self.now.messages number }
    {
        match self.messages.get(number) {
            Some(message) => Some(message.as_slice()),
            None => None,
        }
    }
}
