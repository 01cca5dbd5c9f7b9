//! What a list of messages is answered, as lines.
ghost use Rattle.std.specs.Prelude.{◌≡◌, IfOk, OnErr};
ghost use Rattle.std.specs.Io.KnownBytes.{Appends};
ghost use Rattle.hg_log.specs.Drawings.{Text};
ghost use Rattle.hg_replica.specs.State.{nothing_held};
ghost use Rattle.hg_trial.specs.Trials.{AnswersTo, IsAnswerTo, IsLeastOfTaken};
ghost use Rattle.hg_preview.specs.Answers.{AreAnswersText, IsAnswerText, texts_of};

use crate::answer::write_answer;
use hg_log::DrawFault;
use hg_node_set::IdKeys;
use hg_trial::{Answer, Trial, Tried};
use std::alloc::Global;
use std::io::Write;

/// A message, and what it is called.
#[derive(Clone, Copy)]
pub struct NamedMessage<'a> {
    pub name: &'a [u8],
    pub bytes: &'a [u8],
}

/// Takes messages one after the other into what holds nothing at first, as [`try_messages`](hg_trial::try_messages)
/// does, and writes what each was answered before the next one is looked at, as [`write_answer`] does. Say `mine` has
/// `b` and its child `c`, and `theirs` amends `b`:
///
/// ```text
/// take mine: 3 changesets 0 markers
/// take theirs: 1 changesets 1 markers
///   becomes orphan: c b06140a4ddf1
///   becomes suspended: b 80984185711b
/// ```
///
/// Ids are hashed by the keys: secret ones where messages of strangers are tried. It costs what
/// [`answer`](Trial::answer) does for each message, and what is written. [`DrawFault::Write`] comes where the writer
/// refuses a line, [`DrawFault::NoMemory`] only where memory is refused; the lines before stay written.
pub fn write_trial<W: Write>(
    alloc: Global,
    keys: IdKeys,
    messages: &[NamedMessage<'_>],
    writer: &mut W,
) -> Result<Tried, DrawFault>
    ensures answers { IfOk result (λ tried. AnswersTo nothing_held (texts_of messages.now) tried.answers.items
        tried.trial) }
    ensures least { IfOk result (λ tried. IsLeastOfTaken (texts_of messages.now) tried.answers.items tried.trial) }
    ensures written { IfOk result (λ tried. (text : Text) × AreAnswersText tried.answers.items text
        × Appends (W.contents writer.old) (W.contents writer.new) text) }
{
    let mut trial = Trial::new(alloc, keys)?;
    trial.kept().replica().is_valid();
    let mut answers = Vec::new(alloc);
    for message in messages {
        answers.push(answer(alloc, &mut trial, message, writer)?)?;
    }
    Ok(Tried { trial, answers })
}

// Takes the message in, and writes what it was answered.
fn answer<W: Write>(
    alloc: Global,
    trial: &mut Trial,
    message: &NamedMessage<'_>,
    writer: &mut W,
) -> Result<Answer, DrawFault>
    ensures answer { IfOk result (λ answer. IsAnswerTo trial.old message.now.bytes.now answer trial.new) }
    ensures written { IfOk result (λ answer. (text : Text) × IsAnswerText answer text
        × Appends (W.contents writer.old) (W.contents writer.new) text) }
{
    let answer = match trial.answer(message.bytes) {
        Ok(answer) => answer,
        Err(_) => return Err(DrawFault::NoMemory),
    };
    write_answer(alloc, message.name, &answer, trial.kept(), writer)?;
    Ok(answer)
}
