//! What becomes of a repository that takes messages in, and what is written of that, worked out by hand. The ids are
//! the SHA-1 of parents and texts.
use crate::scene::{chain, commit, rewrite};
use hg_changeset::Node;
use hg_message::{Scope, offer};
use hg_node_set::IdKeys;
use hg_phases::Phase;
use hg_preview::{NamedMessage, write_answer, write_trial};
use hg_replica::Replica;
use hg_trial::{Answer, Fault, Refusal, Taken, Trial, Turned, try_messages};
use hg_view::Pins;
use std::alloc::Global;

// A chain of `a`, `b` and `c` as a message, and what was done above it as another: `b` was amended.
#[derive(Drop)]
struct Exchange {
    chain: [Node; 3],
    mine: Vec<u8>,
    theirs: Vec<u8>,
}

// All that a replica gives to one that has these changesets, as bytes.
fn given(alloc: Global, replica: &Replica, common: &[Node]) -> Option<Vec<u8>> {
    let pins = Pins::new(alloc);
    let message = offer(alloc, replica, &pins, common, Scope::Whole).ok()?;
    message.to_bytes().ok()
}

fn messages(alloc: Global) -> Option<Exchange> {
    let mut replica = Replica::new(alloc);
    let chain = chain(alloc, &mut replica)?;
    let mine = given(alloc, &replica, &[])?;
    let [a, b, c] = chain;
    let amended = commit(alloc, &mut replica, a, b"b2", Phase::Draft)?;
    rewrite(alloc, &mut replica, b, &[amended], (b"operation", b"amend"))?;
    let theirs = given(alloc, &replica, &[c])?;
    Some(Exchange {
        chain,
        mine,
        theirs,
    })
}

// A trial of the first message.
fn trial_of(alloc: Global, mine: &[u8]) -> Option<Trial> {
    let mut trial = Trial::new(alloc, IdKeys::known()).ok()?;
    trial.take(mine).ok()?;
    Some(trial)
}

// What turned into an orphan, and what ceased to be one, where each is one at most.
fn orphans(taken: &Taken, trial: &Trial) -> Option<(Option<Node>, bool)> {
    let turned = Turned::between(&taken.before, trial.kept().instabilities()).ok()?;
    let came = turned.orphan.came.first().copied();
    Some((came, turned.orphan.went.is_empty()))
}

#[test]
fn what_stands_on_what_is_amended_becomes_an_orphan(rt: HostRuntime) {
    let alloc = rt.alloc();
    let messages = messages(alloc).expect(&rt, "memory");
    let mut trial = trial_of(alloc, &messages.mine).expect(&rt, "memory");
    let taken = trial.take(&messages.theirs).expect(&rt, "a message");
    let orphans = orphans(&taken, &trial).expect(&rt, "memory");
    assert!(rt; orphans == (Some(messages.chain[2]), true));
}

#[test]
fn a_message_that_is_refused_changes_nothing(rt: HostRuntime) {
    let alloc = rt.alloc();
    let messages = messages(alloc).expect(&rt, "memory");
    let mut trial = Trial::new(alloc, IdKeys::known()).expect(&rt, "memory");
    let refused = trial.take(&messages.theirs).err();
    assert!(rt; refused == Some(Refusal::Part(Fault::UnknownParent(messages.chain[0]))));
    assert!(rt; trial.kept().replica().graph().is_empty());
}

// How many changesets and markers are held.
fn counts(trial: &Trial) -> (usize, usize) {
    let replica = trial.kept().replica();
    (replica.graph().len(), replica.store().len())
}

#[test]
fn refused_growth_of_a_trial_changes_nothing_and_passes_again(rt: HostRuntime) {
    let alloc = rt.alloc();
    let Some(messages) = messages(alloc) else {
        return;
    };
    let Some(mut trial) = trial_of(alloc, &messages.mine) else {
        return;
    };
    if let Err(refusal) = trial.take(&messages.theirs) {
        assert!(rt; refusal == Refusal::NoMemory && counts(&trial) == (3, 0));
        assert!(rt; trial.take(&messages.theirs).is_ok());
    }
    assert!(rt; counts(&trial) == (4, 1));
}

fn is_taken(answer: Option<&Answer>) -> bool {
    match answer {
        Some(Answer::Taken { .. }) => true,
        _ => false,
    }
}

#[test]
fn messages_are_answered_in_turn(rt: HostRuntime) {
    let alloc = rt.alloc();
    let messages = messages(alloc).expect(&rt, "memory");
    let (mine, theirs) = (messages.mine.as_slice(), messages.theirs.as_slice());
    let tried = try_messages(alloc, IdKeys::known(), &[theirs, mine, theirs]).expect(&rt, "memory");
    assert!(rt; !is_taken(tried.answers.first()) && is_taken(tried.answers.get(1)));
    assert!(rt; is_taken(tried.answers.get(2)) && counts(&tried.trial) == (4, 1));
}

// What is written of the second message, where the first was taken.
fn answer_text(alloc: Global, messages: &Exchange) -> Option<Vec<u8>> {
    let mut trial = trial_of(alloc, &messages.mine)?;
    let answer = trial.answer(&messages.theirs).ok()?;
    let mut written = Vec::new(alloc);
    write_answer(alloc, b"a bookmark", &answer, trial.kept(), &mut written).ok()?;
    Some(written)
}

#[test]
fn what_a_message_was_answered_is_written(rt: HostRuntime) {
    let alloc = rt.alloc();
    let messages = messages(alloc).expect(&rt, "memory");
    let written = answer_text(alloc, &messages).expect(&rt, "memory");
    let lines = b"take a bookmark: 1 changesets 1 markers\n  \
            becomes orphan: 0876f885e672\n  \
            becomes suspended: 544d83e6863f\n";
    assert!(rt; written.as_slice() == lines.as_slice());
}

// What is written of both, the second one first, whether it is refused or not.
fn trial_text(alloc: Global, messages: &Exchange) -> Option<Vec<u8>> {
    let mut written = Vec::new(alloc);
    let mine = NamedMessage {
        name: b"mine",
        bytes: &messages.mine,
    };
    let theirs = NamedMessage {
        name: b"theirs",
        bytes: &messages.theirs,
    };
    write_trial(
        alloc,
        IdKeys::known(),
        &[theirs, mine, theirs],
        &mut written,
    )
    .ok()?;
    Some(written)
}

#[test]
fn what_each_message_is_answered_is_written(rt: HostRuntime) {
    let alloc = rt.alloc();
    let messages = messages(alloc).expect(&rt, "memory");
    let written = trial_text(alloc, &messages).expect(&rt, "memory");
    let lines = b"take theirs: refused: unknown parent 047b75c6d7a3\n\
            take mine: 3 changesets 0 markers\n\
            take theirs: 1 changesets 1 markers\n  \
            becomes orphan: 0876f885e672\n  \
            becomes suspended: 544d83e6863f\n";
    assert!(rt; written.as_slice() == lines.as_slice());
}
