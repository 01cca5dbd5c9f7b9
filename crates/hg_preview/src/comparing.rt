//! In what the repositories of two messages differ.
ghost use Rattle.std.specs.Prelude.{IfOk};
ghost use Rattle.hg_preview.specs.Comparisons.{ComparesMessages, ComparesStates, OpensMessage};

use crate::answer::write_answer;
use crate::comparison::write_comparison;
use crate::messages::NamedMessage;
use hg_log::{DrawFault, NamedNode};
use hg_node_set::IdKeys;
use hg_trial::{Answer, Trial};
use std::alloc::Global;
use std::io::Write;

/// Takes each of two messages into what holds nothing, and writes in what these two differ, as [`write_comparison`]
/// does. Tells whether they agree. Where a message is refused, nothing is compared, a line says why, as in
/// [`write_answer`], and the answer is `None`.
///
/// It costs what the messages say, and what is written. [`DrawFault::Write`] comes where the writer refuses a line,
/// [`DrawFault::NoMemory`] only where memory is refused; the lines before stay written.
pub fn compare_messages<W: Write>(
    alloc: Global,
    keys: IdKeys,
    first: &NamedMessage<'_>,
    second: &NamedMessage<'_>,
    writer: &mut W,
) -> Result<Option<bool>, DrawFault>
    ensures { IfOk result (ComparesMessages first.now.bytes.now second.now.bytes.now (W.contents writer.old)
        (W.contents writer.new)) }
{
    match open(alloc, keys, first, writer)? {
        Some(mine) => match open(alloc, keys, second, writer)? {
            Some(theirs) => {
                let answer = compare_trials(alloc, first, &mine, second, &theirs, writer)?;
                Ok(Some(answer))
            }
            None => Ok(None),
        },
        None => {
            // Both lines are written, where the second one is refused too.
            let _ = open(alloc, keys, second, writer)?;
            Ok(None)
        }
    }
}

// Writes in what the trials of two messages differ.
fn compare_trials<W: Write>(
    alloc: Global,
    first: &NamedMessage<'_>,
    mine: &Trial,
    second: &NamedMessage<'_>,
    theirs: &Trial,
    writer: &mut W,
) -> Result<bool, DrawFault>
    ensures { IfOk result
        (ComparesStates mine.now theirs.now (W.contents writer.old) (W.contents writer.new)) }
{
    let mine = NamedNode {
        name: first.name,
        kept: mine.kept(),
    };
    let theirs = NamedNode {
        name: second.name,
        kept: theirs.kept(),
    };
    write_comparison(alloc, &mine, &theirs, writer)
}

// What took the message, where it isn't refused. Else a line says why it is.
fn open<W: Write>(
    alloc: Global,
    keys: IdKeys,
    message: &NamedMessage<'_>,
    writer: &mut W,
) -> Result<Option<Trial>, DrawFault>
    ensures { IfOk result (OpensMessage message.now.bytes.now (W.contents writer.old) (W.contents writer.new)) }
{
    let mut trial = Trial::new(alloc, keys)?;
    let answer = match trial.answer(message.bytes) {
        Ok(answer) => answer,
        Err(_) => return Err(DrawFault::NoMemory),
    };
    match &answer {
        Answer::Taken { .. } => Ok(Some(trial)),
        Answer::Refused(_) => {
            write_answer(alloc, message.name, &answer, trial.kept(), writer)?;
            Ok(None)
        }
    }
}
