//! One event after another, over nodes and messages that have room.
ghost use Rattle.std.specs.Prelude.{◌≡◌, ◌⊎◌, ◌+◌, ◌<◌, ◌≤◌, ℕ, Option, Some, List, [], length, IfOk, OnErr};
ghost use Rattle.std.specs.Prelude.{MatchResult, vec_len, vec_capacity, slice_get, slice_set};
ghost use Rattle.hg_world.specs.Runs.{snapshot, Absorbs, AllValid, Happens, IsOffer, Runs};
ghost use Rattle.hg_world.specs.declared.event.Event.{Event};

use crate::event::{Answer, Event, EventRefusal};
use hg_join::{Actor, JoinState, NoMemory};
use std::alloc::Global;

// The node at a place absorbs a part, which is moved into it.
fn absorb_at<S: Actor>(nodes: &mut [S], at: usize, part: S::Part) -> Result<S::Change, S::Fault>
    requires { at < length nodes.old }
    ensures { (node : S) × (slice_get nodes.old at ≡ Some node)
        × MatchResult result (λ change. (next : S) × Absorbs S.JoinState node part change next
        × (nodes.new ≡ slice_set nodes.old at next))
        (λ fault. (S.IsFirstFault (S.content node) (S.part_content part) fault ⊎ S.IsWantOfMemory fault)
        × (nodes.new ≡ nodes.old)) }
{
    nodes[at].absorb_owned(part)
}

/// The node at a place, if there is one, decides an operation and absorbs its part. Whatever the messages are, they
/// stay.
pub fn decide_at<S: Actor>(
    alloc: Global,
    nodes: &mut [S],
    at: usize,
    op: &S::Op,
) -> Answer<S::Change, S::Refusal, S::Fault>
    requires { AllValid S.JoinState (record { nodes = nodes.old; messages = [] }) }
    ensures { (messages : List (List ℕ)) → (part : Option S.Part)
        × Happens S.JoinState S.Actor.own (record { nodes = nodes.old; messages = messages }) (Event.Local at op.now)
        result part (record { nodes = nodes.new; messages = messages }) }
{
    if at >= nodes.len() {
        return Answer::Refused(EventRefusal::NoNode);
    }
    match nodes[at].decide(alloc, op) {
        Ok(decided) => match absorb_at(nodes, at, decided) {
            Ok(change) => Answer::Accepted(change),
            Err(fault) => Answer::Refused(EventRefusal::ByState(fault)),
        },
        Err(refusal) => Answer::Refused(EventRefusal::ByActor(refusal)),
    }
}

// The node at a place takes in the part that bytes spell, or the bytes spell none.
fn take_bytes_at<S: Actor>(
    alloc: Global,
    nodes: &mut [S],
    at: usize,
    bytes: &[u8],
) -> Result<Result<S::Change, S::Fault>, S::Refusal>
    requires { at < length nodes.old }
    ensures { (node : S) × (slice_get nodes.old at ≡ Some node) × MatchResult result
        (λ answer. (part : S.Part) × S.Spells bytes.now part × MatchResult answer
        (λ change. (next : S) × Absorbs S.JoinState node part change next
        × (nodes.new ≡ slice_set nodes.old at next))
        (λ fault. (S.IsFirstFault (S.content node) (S.part_content part) fault ⊎ S.IsWantOfMemory fault)
        × (nodes.new ≡ nodes.old)))
        (λ refusal. (S.IsAgainstBytes bytes.now refusal ⊎ S.IsRefusalOfMemory refusal)
        × (nodes.new ≡ nodes.old)) }
{
    nodes[at].take(alloc, bytes)
}

/// The node at a place, if there is one, reads a message and absorbs its part.
pub fn take_at<S: Actor>(
    alloc: Global,
    nodes: &mut [S],
    messages: &[Vec<u8>],
    at: usize,
    message: usize,
) -> Answer<S::Change, S::Refusal, S::Fault>
    ensures { (part : Option S.Part) × Happens S.JoinState S.Actor.own (snapshot nodes.old messages.now)
        (Event.Take at message) result part (snapshot nodes.new messages.now) }
{
    if at >= nodes.len() {
        return Answer::Refused(EventRefusal::NoNode);
    }
    if message >= messages.len() {
        return Answer::Refused(EventRefusal::NoMessage);
    }
    let bytes = messages[message].as_slice();
    match take_bytes_at(alloc, nodes, at, bytes) {
        Ok(answer) => match answer {
            Ok(change) => Answer::Accepted(change),
            Err(fault) => Answer::Refused(EventRefusal::ByState(fault)),
        },
        Err(refusal) => Answer::Refused(EventRefusal::ByActor(refusal)),
    }
}

/// The bytes that the node at a place offers, if there is one, become the last message, for which there is room.
pub fn offer_at<S: Actor>(
    alloc: Global,
    nodes: &[S],
    messages: &mut Vec<Vec<u8>>,
    at: usize,
    ask: &S::Ask,
) -> Answer<S::Change, S::Refusal, S::Fault>
    requires { at < length nodes.now → vec_len messages.old < vec_capacity messages.old }
    ensures happens { (part : Option S.Part) × Happens S.JoinState S.Actor.own (snapshot nodes.now messages.old.items)
        (Event.Offer at ask.now) result part (snapshot nodes.now messages.new.items) }
    ensures len { vec_len messages.new ≤ vec_len messages.old + 1 }
    ensures capacity { vec_capacity messages.old ≤ vec_capacity messages.new }
{
    if at >= nodes.len() {
        return Answer::Refused(EventRefusal::NoNode);
    }
    match nodes[at].offer(alloc, ask) {
        Ok(bytes) => {
            let number = messages.len();
            messages.push(bytes).unwrap();
            Answer::Offered(number)
        }
        Err(refusal) => Answer::Refused(EventRefusal::ByActor(refusal)),
    }
}

/// The node at a place, if there is one, marks what is its own. Whatever the messages are, they stay.
pub fn mark_at<S: Actor>(
    nodes: &mut [S],
    at: usize,
    mark: &S::Mark,
) -> Answer<S::Change, S::Refusal, S::Fault>
    ensures { (messages : List (List ℕ)) → (part : Option S.Part)
        × Happens S.JoinState S.Actor.own (record { nodes = nodes.old; messages = messages }) (Event.Mark at mark.now)
        result part (record { nodes = nodes.new; messages = messages }) }
{
    if at >= nodes.len() {
        return Answer::Refused(EventRefusal::NoNode);
    }
    match nodes[at].mark(mark) {
        Ok(()) => Answer::Marked,
        Err(refusal) => Answer::Refused(EventRefusal::ByActor(refusal)),
    }
}

// Does one event.
fn happen<S: Actor>(
    alloc: Global,
    nodes: &mut [S],
    messages: &mut Vec<Vec<u8>>,
    event: &Event<S::Op, S::Ask, S::Mark>,
) -> Answer<S::Change, S::Refusal, S::Fault>
    requires valid { AllValid S.JoinState (snapshot nodes.old messages.old.items) }
    requires room { IsOffer event.now → vec_len messages.old < vec_capacity messages.old }
    ensures happens { (part : Option S.Part) × Happens S.JoinState S.Actor.own (snapshot nodes.old messages.old.items)
        event.now result part (snapshot nodes.new messages.new.items) }
    ensures len { vec_len messages.new ≤ vec_len messages.old + 1 }
    ensures capacity { vec_capacity messages.old ≤ vec_capacity messages.new }
{
    match event {
        Event::Local { at, op } => decide_at(alloc, nodes, *at, op),
        Event::Offer { at, ask } => offer_at(alloc, nodes, messages, *at, ask),
        Event::Take { at, message } => take_at(alloc, nodes, messages.as_slice(), *at, *message),
        Event::Mark { at, mark } => mark_at(nodes, *at, mark),
    }
}

/// Does the events one after another, once there is room for every answer and every message.
pub fn run_all<S: Actor>(
    alloc: Global,
    nodes: &mut [S],
    messages: &mut Vec<Vec<u8>>,
    events: &[Event<S::Op, S::Ask, S::Mark>],
) -> Result<Vec<Answer<S::Change, S::Refusal, S::Fault>>, NoMemory>
    requires { AllValid S.JoinState (snapshot nodes.old messages.old.items) }
    ensures ran { IfOk result (λ answers. (parts : List (Option S.Part))
        × Runs S.JoinState S.Actor.own (snapshot nodes.old messages.old.items) events.now answers.items parts
        (snapshot nodes.new messages.new.items)) }
    ensures count { IfOk result (λ answers. vec_len answers ≡ length events.now) }
    ensures unchanged { OnErr result (snapshot nodes.new messages.new.items ≡ snapshot nodes.old messages.old.items) }
    ensures memory { OnErr result (0 < length events.now) }
{
    let mut answers = Vec::with_capacity(alloc, events.len())?;
    messages.reserve(events.len())?;
    for event in events {
        let answer = happen(alloc, nodes, messages, event);
        answers.push(answer).unwrap();
    }
    Ok(answers)
}
