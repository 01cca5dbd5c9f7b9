//! What becomes of an empty repository that takes a list of messages in.
ghost use Rattle.std.specs.Prelude.{◌≡◌, ◌↔◌, IfOk, OnErr, map};
ghost use Rattle.hg_changeset.specs.declared.node.Node.{Node};
ghost use Rattle.hg_replica.specs.State.{ReplicaState, IsValid, nothing_held};
ghost use Rattle.hg_replica.specs.Content.{content_of};
ghost use Rattle.hg_replica.specs.Evolution.{IsExtinct, IsHidden};
ghost use Rattle.hg_trial.specs.Trials.{AnswersTo, IsAnswerTo, IsFault, IsLeastOfTaken, TellsTaken, WantsMemory};

use crate::refusal::Refusal;
use crate::trial::{Taken, Trial};
use crate::turned::Turned;
use hg_join::NoMemory;
use hg_node_set::IdKeys;
use hg_replica::Change;
use hg_view::hidden_is_extinct;
use std::alloc::Global;

/// What a message was answered.
#[derive(Drop)]
pub enum Answer {
    /// It was taken.
    Taken {
        /// What is new, and whose phase went down.
        change: Change,
        /// What came to each kind of changesets and went from it.
        turned: Turned,
    },
    /// It wasn't, and nothing of it is held. This is never want of memory, which ends all.
    Refused(Refusal),
}

/// What is held after some messages, and what each was answered.
#[derive(Drop)]
pub struct Tried {
    pub trial: Trial,
    pub answers: Vec<Answer>,
}

/// Takes messages one after the other into what holds nothing at first, and answers each. What is held in the end is
/// the least state that covers those that were taken.
pub fn try_messages(alloc: Global, keys: IdKeys, messages: &[&[u8]]) -> Result<Tried, NoMemory>
    ensures answers { IfOk result (λ tried. AnswersTo nothing_held (map (λ bytes. bytes.now) messages.now)
        tried.answers.items tried.trial) }
    ensures least { IfOk result (λ tried. IsLeastOfTaken (map (λ bytes. bytes.now) messages.now) tried.answers.items
        tried.trial) }
{
    let mut trial = Trial::new(alloc, keys)?;
    trial.is_valid();
    let mut answers = Vec::new(alloc);
    for bytes in messages {
        answers.push(trial.answer(*bytes)?)?;
    }
    Ok(Tried { trial, answers })
}

impl Trial {
    /// Takes a message in, and tells what became of it. It costs what [`take`](Trial::take) does, and the instabilities
    /// that there are. Where memory is wanting the trial holds what it held, or that with the message.
    pub fn answer(&mut self, bytes: &[u8]) -> Result<Answer, NoMemory>
        ensures answer { IfOk result (λ answer. IsAnswerTo self.old bytes.now answer self.new) }
        ensures memory { OnErr result (WantsMemory self.old bytes.now self.new) }
    {
        match self.take(bytes) {
            Ok(taken) => answer_to(self, taken),
            Err(refusal) => refused(refusal),
        }
    }
}

// The answer to a message that was refused, where that isn't for want of memory.
fn refused(refusal: Refusal) -> Result<Answer, NoMemory>
    ensures answer { IfOk result (λ answer. (answer ≡ Answer.Refused refusal) × IsFault refusal) }
    ensures memory { OnErr result (refusal ≡ Refusal.NoMemory) }
{
    match refusal {
        Refusal::NoMemory => Err(NoMemory),
        Refusal::Message(_) | Refusal::Part(_) => Ok(Answer::Refused(refusal)),
    }
}

// The answer to a message that was taken: what changed since, where this is what is held now.
fn answer_to(trial: &Trial, taken: Taken) -> Result<Answer, NoMemory>
    ensures told { IfOk result (λ answer. TellsTaken taken trial.now answer) }
    ensures hidden { (s : ReplicaState) (n : Node) → IsValid s
        → (IsHidden (content_of s) n ↔ IsExtinct (content_of s) n) }
{
    hidden_is_extinct();
    let turned = Turned::between(&taken.before, trial.kept().instabilities())?;
    Ok(Answer::Taken {
        change: taken.change,
        turned,
    })
}
