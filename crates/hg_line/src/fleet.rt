//! What a script has made so far: a world of peers, and the names of these, of changesets and of messages.
ghost use Rattle.std.specs.Prelude.{◌≡◌, ◌&&◌, ◌<◌, ◌∷◌, [], ◌⊎◌, ℕ, List, Some, None, map, IfOk, IfErr, OnOk, OnErr};
ghost use Rattle.std.specs.Prelude.{◌↔◌, IsTrue, is_none, slice_get};
ghost use Rattle.std.specs.List.{list_all};
ghost use Rattle.std.specs.Option.{option_copied};
ghost use Rattle.hg_graph.specs.Graph.{nodes};
ghost use Rattle.hg_line.specs.Commands.{texts};
ghost use Rattle.hg_line.specs.Endings.{AreLabelsFree, IsDecided, IsFaultOf, IsLeftBy, IsNodeFault, IsTakenFault};
ghost use Rattle.hg_line.specs.Endings.{StaysAtLine, StaysAtName};
ghost use Rattle.hg_names.specs.Labels.{labelled};
ghost use Rattle.hg_fleet.specs.Pulls.{IsPulled};
ghost use Rattle.hg_line.specs.Outputs.{Grows, Printed};
ghost use Rattle.hg_line.specs.Printing.{agree_line};
ghost use Rattle.hg_line.specs.Lines.{AreLabelled, IsMessageNamed, IsNewFleet, bound_to, each_may_name, ids};
ghost use Rattle.hg_line.specs.Lines.{may_name, message_named, node_named, node_names};
ghost use Rattle.hg_line.specs.Lines.{places};
ghost use Rattle.hg_line.specs.Outcomes.{IsAnswered, IsAskedOf, IsDone, IsEndedBy};

use crate::answer::{check_printed, check_pulled};
use crate::command::Command;
use crate::command_fault::CommandFault;
use crate::entry_buffers::EntryBuffers;
use crate::fault::{LineFault, RunFault};
use crate::line_outcome::{LineOutcome, print_refusals};
use crate::marking::Marking;
use crate::operation::{Names, Operation};
use crate::output::{LineName, print_line};
use crate::report::print_report;
use hg_changeset::{Changeset, Node};
use hg_fleet::{PeerAnswer, Pulled};
use hg_join::NoMemory;
use hg_names::{Labels, are_distinct, bind, bound};
use hg_node_set::IdKeys;
use hg_peer::{Ask, Scope};
use hg_replica::Part;
use hg_rewrite::{Op, decide_kept};
use hg_view::Kept;
use hg_world::Answer;
use std::alloc::{AllocError, Global};
use std::collections::BTreeMap;
use std::io::Write;

/// What a script has made so far.
pub struct Fleet {
    alloc: Global,
    world: hg_fleet::Fleet,
    // The place of each node in the world.
    nodes: BTreeMap<Vec<u8>, usize>,
    labels: Labels,
    // The number of each message in the world's pool.
    messages: BTreeMap<Vec<u8>, usize>,
}

// Whoever owns a fleet calls this once, and is proved without a look at each collection in it.
impl Drop for Fleet {
    fn drop(self) {
        let Fleet {
            alloc: _,
            world: _,
            nodes: _,
            labels: _,
            messages: _,
        } = self;
    }
}

impl Fleet {
    /// A new world with a place for so many nodes, none of which has a name yet. Ids and labels are hashed by the keys.
    pub fn new(alloc: Global, keys: IdKeys, count: usize) -> Result<Fleet, NoMemory>
        ensures new { IfOk result (IsNewFleet count) }
        ensures memory { OnErr result (0 < count) }
    {
        Ok(Fleet {
            alloc,
            world: hg_fleet::Fleet::new(alloc, keys, count)?,
            nodes: BTreeMap::new(alloc),
            labels: Labels::with_keys(alloc, keys),
            messages: BTreeMap::new(alloc),
        })
    }

    /// The replica of the node with this name, with its instabilities and its pins.
    pub fn kept_of(&self, name: &[u8]) -> Option<&Kept>
        ensures { option_copied result ≡ node_named self.now name.now }
    {
        match bound(&self.nodes, name) {
            Some(place) => self.world.kept(place),
            None => None,
        }
    }

    /// The bytes of the message with this name.
    pub fn message_of(&self, name: &[u8]) -> Option<&[u8]>
        ensures { option_copied result ≡ message_named self.now name.now }
    {
        match bound(&self.messages, name) {
            Some(number) => self.world.message(number),
            None => None,
        }
    }

    /// The names of the nodes, in byte order.
    pub fn node_names(&self) -> Result<Vec<&[u8]>, AllocError>
        ensures { IfOk result (λ names. map (λ w. w.now) names.items ≡ node_names self.now) }
    {
        self.nodes
            .keys()
            .map(|name| name.as_slice())
            .collect(self.alloc)
    }

    /// The replica of the node at a place, with its instabilities and its pins.
    pub(crate) fn kept_at(&self, place: usize) -> Option<&Kept> {
        self.world.kept(place)
    }

    /// The place of the node with this name.
    pub(crate) fn place_of(&self, name: &[u8]) -> Option<usize> {
        bound(&self.nodes, name)
    }

    /// The bytes of the message with this number.
    pub(crate) fn message_at(&self, number: usize) -> Option<&[u8]> {
        self.world.message(number)
    }

    /// The number of the message with this name.
    pub(crate) fn number_of(&self, name: &[u8]) -> Option<usize> {
        bound(&self.messages, name)
    }

    /// The id of the changeset with this label, if one was made: the same at each node.
    pub fn node_of(&self, label: &[u8]) -> Option<Node>
        ensures { result ≡ ids self.now label.now }
    {
        self.labels.get(label)
    }

    /// The label of the changeset, where one of the nodes holds it. Each changeset of a script is held where it was
    /// made, and has its label as its description.
    pub(crate) fn changeset_label(&self, node: Node) -> Option<&[u8]> {
        for place in 0..self.nodes.len() {
            match self.changeset_at(place, node) {
                Some(changeset) => return Some(changeset.last_line()),
                None => {}
            }
        }
        None
    }

    // The changeset of this id, where the node at a place holds it.
    fn changeset_at(&self, place: usize, node: Node) -> Option<&Changeset> {
        self.kept_at(place)?.replica().graph().changeset(node)
    }

    /// The part of the operation at the node of this name, if all is known that it names and it isn't refused.
    pub(crate) fn part_of(
        &self,
        at: &[u8],
        operation: Operation<'_>,
    ) -> Result<Option<Part>, CommandFault> {
        let names = Names {
            alloc: self.alloc,
            labels: &self.labels,
        };
        let op = operation.resolve(&names, &mut EntryBuffers::new(self.alloc))?;
        let kept = self.kept(self.place(at)?)?;
        decided(self.alloc, kept, &op)
    }

    /// Does the command of the line with this number, and prints what it says and why its events were refused, if they
    /// were. It gives what they were answered.
    #[inline(always)]
    pub(crate) fn execute<W: Write>(
        &mut self,
        number: usize,
        command: Command<'_>,
        buffers: &mut EntryBuffers,
        writer: &mut W,
    ) -> Result<LineOutcome, RunFault>
        ensures ok { IfOk result (λ outcome. IsDone number self.old command.entry outcome self.new
            (W.contents writer.old) (W.contents writer.new)) }
        ensures err { IfErr result (λ fault. IsLeftBy number self.old command.entry fault self.new) }
        ensures unprinted { StaysAtLine result (W.contents writer.old) (W.contents writer.new) }
        ensures grows { OnErr result (Grows (W.contents writer.old) (W.contents writer.new)) }
    {
        match self.answer(command, buffers, writer) {
            Ok(outcome) => match print_refusals(
                self.alloc,
                writer,
                LineName::Number(number),
                &outcome,
            ) {
                Ok(()) => Ok(outcome),
                Err(fault) => Err(fault.at_line(number)),
            },
            Err(fault) => Err(fault.at_line(number)),
        }
    }

    // Does a command, and prints what it says.
    #[inline(always)]
    fn answer<W: Write>(
        &mut self,
        command: Command<'_>,
        buffers: &mut EntryBuffers,
        writer: &mut W,
    ) -> Result<LineOutcome, CommandFault>
        ensures ok { IfOk result (λ outcome. IsAnswered self.old command.entry outcome self.new
            (W.contents writer.old) (W.contents writer.new)) }
        ensures err { IfErr result (λ fault. IsEndedBy self.old command.entry fault self.new) }
        ensures unprinted { StaysAtName result (W.contents writer.old) (W.contents writer.new) }
        ensures grows { OnErr result (Grows (W.contents writer.old) (W.contents writer.new)) }
    {
        match command {
            Command::Node(at) => self.add_node(at),
            Command::Operation(at, operation) => self.operate(at, operation, buffers),
            Command::Mark(at, marking) => self.mark(at, marking),
            Command::Offer(scope, at, message, labels) => {
                self.keep_offer(scope, at, message, labels)
            }
            Command::Take(at, message) => self.take(at, message),
            Command::Pull(scope, to, from) => self.pull(scope, to, from),
            Command::Report(at) => self.report(at, writer),
            Command::Agree(one, other) => self.agree(one, other, writer),
        }
    }

    // A new node has the next place.
    fn add_node(&mut self, at: &[u8]) -> Result<LineOutcome, CommandFault>
        ensures ok { IfOk result (λ outcome. IsAskedOf self.old (Command.Node at.entry) outcome self.new) }
        ensures err { IfErr result (λ fault. IsEndedBy self.old (Command.Node at.entry) fault self.new) }
    {
        let place = self.nodes.len();
        if bound(&self.nodes, at).is_some() {
            return Err(CommandFault::Name(LineFault::NameTaken));
        }
        bind(self.alloc, &mut self.nodes, at, place)?;
        Ok(LineOutcome::Nothing)
    }

    // The new labels are looked at before the operation is done, but only where it isn't refused.
    fn operate(
        &mut self,
        at: &[u8],
        operation: Operation<'_>,
        buffers: &mut EntryBuffers,
    ) -> Result<LineOutcome, CommandFault>
        ensures ok { IfOk result
            (λ outcome. IsAskedOf self.old (Command.Operation at.entry operation.entry) outcome self.new) }
        ensures err { IfErr result
            (λ fault. IsEndedBy self.old (Command.Operation at.entry operation.entry) fault self.new) }
    {
        let place = self.place(at)?;
        let names = Names {
            alloc: self.alloc,
            labels: &self.labels,
        };
        let mut op = operation.resolve(&names, buffers)?;
        let labels = operation.new_labels();
        let kept = self.kept(place)?;
        self.check_labels(kept, &op, labels)?;
        let answer = self.world.local(place, &op);
        check_printed(&answer)?;
        buffers.keep(&mut op);
        label(&mut self.labels, labels, &answer)?;
        Ok(LineOutcome::Event { at: place, answer })
    }

    // Whether the labels may name what the operation is to make. Where they are new, whatever it makes; otherwise it is
    // decided first, and what is refused makes nothing.
    #[inline(always)]
    fn check_labels(&self, kept: &Kept, op: &Op, labels: &[&[u8]]) -> Result<(), CommandFault>
        ensures free { OnOk result (AreLabelsFree (ids self.now) (texts labels.now) kept.now op.now) }
        ensures err { IfErr result (IsTakenFault (ids self.now) labels.now kept.now op.now) }
    {
        let are_distinct = are_distinct(self.alloc, labels)?;
        if are_distinct && are_unbound(&self.labels, labels) {
            return Ok(());
        }
        let made = decided(self.alloc, kept, op)?;
        match made {
            Some(part) => {
                if !are_free(&self.labels, labels, are_distinct, &part) {
                    return Err(CommandFault::Name(LineFault::NameTaken));
                }
                Ok(())
            }
            None => Ok(()),
        }
    }

    // Marks what is a node's own.
    fn mark(&mut self, at: &[u8], marking: Marking<'_>) -> Result<LineOutcome, CommandFault>
        ensures ok { IfOk result
            (λ outcome. IsAskedOf self.old (Command.Mark at.entry marking.entry) outcome self.new) }
        ensures err { IfErr result (λ fault. IsEndedBy self.old (Command.Mark at.entry marking.entry) fault self.new) }
    {
        let place = self.place(at)?;
        let names = Names {
            alloc: self.alloc,
            labels: &self.labels,
        };
        let mark = marking.resolve(&names)?;
        let answer = self.world.mark(place, &mark);
        check_printed(&answer)?;
        Ok(LineOutcome::Event { at: place, answer })
    }

    // Keeps what a node offers of a scope above the changesets of these labels under the name of a message. A refused
    // offer binds no name.
    fn keep_offer(
        &mut self,
        scope: Scope,
        at: &[u8],
        message: &[u8],
        labels: &[&[u8]],
    ) -> Result<LineOutcome, CommandFault>
        ensures ok { IfOk result (λ outcome.
            IsAskedOf self.old (Command.Offer scope at.entry message.entry labels.entry) outcome self.new) }
        ensures err { IfErr result (λ fault.
            IsEndedBy self.old (Command.Offer scope at.entry message.entry labels.entry) fault self.new) }
    {
        let place = self.place(at)?;
        let names = Names {
            alloc: self.alloc,
            labels: &self.labels,
        };
        let common = names.nodes(labels)?;
        if bound(&self.messages, message).is_some() {
            return Err(CommandFault::Name(LineFault::NameTaken));
        }
        let answer = self.world.offer(place, &Ask { common, scope })?;
        check_printed(&answer)?;
        name_message(self.alloc, &mut self.messages, message, &answer)?;
        Ok(LineOutcome::Event { at: place, answer })
    }

    fn take(&mut self, at: &[u8], message: &[u8]) -> Result<LineOutcome, CommandFault>
        ensures ok { IfOk result
            (λ outcome. IsAskedOf self.old (Command.Take at.entry message.entry) outcome self.new) }
        ensures err { IfErr result (λ fault. IsEndedBy self.old (Command.Take at.entry message.entry) fault self.new) }
    {
        let at = self.place(at)?;
        let message = match bound(&self.messages, message) {
            Some(message) => message,
            None => return Err(CommandFault::Name(LineFault::UnknownName)),
        };
        let answer = self.world.take(at, message);
        check_printed(&answer)?;
        Ok(LineOutcome::Taken {
            at,
            message,
            answer,
        })
    }

    // One node pulls from the other.
    fn pull(&mut self, scope: Scope, to: &[u8], from: &[u8]) -> Result<LineOutcome, CommandFault>
        ensures ok { IfOk result
            (λ outcome. IsAskedOf self.old (Command.Pull scope to.entry from.entry) outcome self.new) }
        ensures err { IfErr result
            (λ fault. IsEndedBy self.old (Command.Pull scope to.entry from.entry) fault self.new) }
    {
        let giver = self.place(from)?;
        let taker = self.place(to)?;
        match exchange(&mut self.world, taker, giver, scope)? {
            Some(pulled) => {
                check_pulled(&pulled)?;
                Ok(LineOutcome::Pulled { at: taker, pulled })
            }
            None => Err(CommandFault::Name(LineFault::UnknownName)),
        }
    }

    // Whether two replicas are in equal states: each is below the other.
    #[tactic(auto, using(crate::proofs::GrowLemmas::grows_stays))]
    fn agree<W: Write>(
        &self,
        one: &[u8],
        other: &[u8],
        writer: &mut W,
    ) -> Result<LineOutcome, CommandFault>
        ensures ok { IfOk result (λ outcome. IsAnswered self.now (Command.Agree one.entry other.entry) outcome self.now
            (W.contents writer.old) (W.contents writer.new)) }
        ensures err { IfErr result (IsFaultOf self.now (Command.Agree one.entry other.entry)) }
        ensures unprinted { StaysAtName result (W.contents writer.old) (W.contents writer.new) }
        ensures grows { OnErr result (Grows (W.contents writer.old) (W.contents writer.new)) }
    {
        let first = self.kept(self.place(one)?)?;
        let second = self.kept(self.place(other)?)?;
        let answer = first.replica().is_same_state(second.replica());
        print_agreement(self.alloc, one, other, answer, writer)?;
        Ok(LineOutcome::Nothing)
    }

    #[tactic(auto, using(crate::proofs::GrowLemmas::grows_stays))]
    fn report<W: Write>(&self, at: &[u8], writer: &mut W) -> Result<LineOutcome, CommandFault>
        ensures ok { IfOk result (λ outcome. IsAnswered self.now (Command.Report at.entry) outcome self.now
            (W.contents writer.old) (W.contents writer.new)) }
        ensures err { IfErr result (IsFaultOf self.now (Command.Report at.entry)) }
        ensures unprinted { StaysAtName result (W.contents writer.old) (W.contents writer.new) }
        ensures grows { OnErr result (Grows (W.contents writer.old) (W.contents writer.new)) }
    {
        let kept = self.kept(self.place(at)?)?;
        print_report(self.alloc, at, kept, writer)?;
        Ok(LineOutcome::Nothing)
    }

    // The place of the node with this name.
    fn place(&self, at: &[u8]) -> Result<usize, CommandFault>
        ensures ok { IfOk result (λ place. places self.now at.now ≡ Some place) }
        ensures err { IfErr result (λ fault.
            (fault ≡ CommandFault.Name LineFault.UnknownName) × (places self.now at.now ≡ None)) }
    {
        match bound(&self.nodes, at) {
            Some(place) => Ok(place),
            None => Err(CommandFault::Name(LineFault::UnknownName)),
        }
    }

    // The replica of the node at a place, with its instabilities and its pins.
    fn kept(&self, place: usize) -> Result<&Kept, CommandFault>
        ensures ok { IfOk result (λ kept. slice_get self.now.world.nodes place ≡ Some kept.now) }
        ensures err { IfErr result (IsNodeFault self.now.world place) }
    {
        match self.world.kept(place) {
            Some(kept) => Ok(kept),
            None => Err(CommandFault::Name(LineFault::UnknownName)),
        }
    }
}

// A pull of what is served, or a share of the whole.
fn exchange(
    world: &mut hg_fleet::Fleet,
    taker: usize,
    giver: usize,
    scope: Scope,
) -> Result<Option<Pulled>, NoMemory>
    ensures pulled { IfOk result (λ pulled. IsPulled world.old taker giver scope pulled world.new) }
    ensures unchanged { OnErr result (world.new ≡ world.old) }
{
    match scope {
        Scope::Served => world.pull(taker, giver),
        Scope::Whole => world.share(taker, giver),
    }
}

// Writes the line that says whether the replicas of these names agree.
#[tactic(auto, using(crate::proofs::GrowLemmas::grows_stays))]
fn print_agreement<W: Write>(
    alloc: Global,
    one: &[u8],
    other: &[u8],
    answer: bool,
    writer: &mut W,
) -> Result<(), CommandFault>
    ensures printed { OnOk result
        (Printed (W.contents writer.old) (agree_line one.now other.now answer) (W.contents writer.new)) }
    ensures err { IfErr result (λ fault. (fault ≡ CommandFault.Write) ⊎ (fault ≡ CommandFault.NoMemory)) }
    ensures grows { OnErr result (Grows (W.contents writer.old) (W.contents writer.new)) }
{
    let answer: &[u8] = if answer { b": yes" } else { b": no" };
    let mut line = Vec::new(alloc);
    line.extend_from_slice(b"agree ")?;
    line.extend_from_slice(one)?;
    line.extend_from_slice(b" ")?;
    line.extend_from_slice(other)?;
    line.extend_from_slice(answer)?;
    print_line(writer, &mut line)
}

// The part of the operation, if it isn't refused. Want of memory, which has no number, is no refusal.
fn decided(alloc: Global, kept: &Kept, op: &Op) -> Result<Option<Part>, CommandFault>
    ensures ok { IfOk result (IsDecided kept.now op.now) }
    ensures err { IfErr result (λ fault. fault ≡ CommandFault.NoMemory) }
{
    match decide_kept(alloc, kept, op) {
        Ok(part) => Ok(Some(part)),
        Err(refusal) => match refusal.number() {
            Some(_) => Ok(None),
            None => Err(CommandFault::NoMemory),
        },
    }
}

// Whether the labels, all different or not, may name the changesets of the part.
fn are_free(names: &Labels, labels: &[&[u8]], are_distinct: bool, part: &Part) -> bool
    ensures { result ≡ (are_distinct
        && each_may_name (labelled names.now) (texts labels.now) (nodes part.now.history.changesets)) }
{
    are_distinct && may_bind(names, labels, &part.changesets)
}

// Whether each label names nothing yet.
#[inline(always)]
fn are_unbound(names: &Labels, labels: &[&[u8]]) -> bool
    ensures { result ≡ list_all (λ w. is_none (labelled names.now w.now)) labels.now }
{
    labels.iter().all(|label| names.get(*label).is_none())
}

// Whether each label names nothing yet or the changeset that it is to name.
fn may_bind(names: &Labels, labels: &[&[u8]], changesets: &[Changeset]) -> bool
    ensures { result ≡ each_may_name (labelled names.now) (texts labels.now) (nodes changesets.now) }
{
    for (label, changeset) in labels.iter().zip(changesets) {
        if !may_name(names, *label, changeset.node()) {
            return false;
        }
    }
    true
}

// Whether the label names nothing yet, or this node.
fn may_name(names: &Labels, label: &[u8], node: Node) -> bool
    ensures { result ≡ may_name (labelled names.now) label.now node }
{
    match names.get(label) {
        Some(named) => named == node,
        None => true,
    }
}

// Binds each label to what the operation added at its place, if it was accepted.
#[inline(always)]
fn label(names: &mut Labels, labels: &[&[u8]], answer: &PeerAnswer) -> Result<(), CommandFault>
    ensures ok { OnOk result (AreLabelled names.old (map (λ w. w.now) labels.now) (answer.now ∷ []) names.new) }
    ensures err { IfErr result (λ fault. fault ≡ CommandFault.NoMemory) }
{
    match answer {
        Answer::Accepted(change) => {
            bind_labels(names, labels, &change.added)?;
            Ok(())
        }
        Answer::Offered(_) => Ok(()),
        Answer::Marked => Ok(()),
        Answer::Refused(_) => Ok(()),
    }
}

// Binds each label to the node at its place.
#[inline(always)]
fn bind_labels(names: &mut Labels, labels: &[&[u8]], nodes: &[Node]) -> Result<(), CommandFault>
    ensures ok { OnOk result ((name : List ℕ)
        → labelled names.new name ≡ bound_to (labelled names.old) (map (λ w. w.now) labels.now) nodes.now name) }
    ensures err { IfErr result (λ fault. fault ≡ CommandFault.NoMemory) }
{
    for (label, node) in labels.iter().zip(nodes) {
        names.bind(*label, *node)?;
    }
    Ok(())
}

// Binds the name to the message that was offered, if one was.
fn name_message(
    alloc: Global,
    names: &mut BTreeMap<Vec<u8>, usize>,
    name: &[u8],
    answer: &PeerAnswer,
) -> Result<(), CommandFault>
    ensures ok { OnOk result (IsMessageNamed names.old name.now (answer.now ∷ []) names.new) }
    ensures err { IfErr result (λ fault. fault ≡ CommandFault.NoMemory) }
{
    match answer {
        Answer::Offered(number) => {
            bind(alloc, names, name, *number)?;
            Ok(())
        }
        Answer::Accepted(_) | Answer::Marked | Answer::Refused(_) => Ok(()),
    }
}
