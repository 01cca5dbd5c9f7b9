//! What a line was answered.
ghost use Rattle.std.specs.Prelude.{◌≡◌, ◌≤◌, ◌⊎◌, IfErr, OnErr, OnOk, count_by, true};
ghost use Rattle.hg_line.specs.Events.{is_refusal};
ghost use Rattle.hg_line.specs.Outputs.{Grows, Printed};
ghost use Rattle.hg_line.specs.Printing.{answer_line, answer_lines};
ghost use Rattle.hg_fleet.specs.Pulls.{answers_of};
ghost use Rattle.hg_line.specs.Outcomes.{outcome_answers};

use crate::command_fault::CommandFault;
use crate::output::{LineName, print_refused};
use hg_fleet::{PeerAnswer, Pulled};
use hg_world::Answer;
use std::alloc::Global;
use std::io::Write;

/// What the events of a line were answered. Who runs a script without notes lets it go.
#[derive(Drop)]
pub enum LineOutcome {
    /// The line asked for no event.
    Nothing,
    /// An operation, a mark or an offer at the node of this place.
    Event {
        at: usize,
        answer: PeerAnswer,
    },
    /// The node of this place took the message with this number.
    Taken {
        at: usize,
        message: usize,
        answer: PeerAnswer,
    },
    /// What became of a pull of the node of this place.
    Pulled {
        at: usize,
        pulled: Pulled,
    },
}

impl LineOutcome {
    /// How many of the events were refused.
    pub fn refusals(&self) -> usize
        ensures count { result ≡ count_by is_refusal (outcome_answers self.now) }
        ensures few { result ≤ 2 }
    {
        match self {
            LineOutcome::Nothing => 0,
            LineOutcome::Event { at: _, answer } => usize::from(is_refusal(answer)),
            LineOutcome::Taken {
                at: _,
                message: _,
                answer,
            } => usize::from(is_refusal(answer)),
            LineOutcome::Pulled { at: _, pulled } => refusals_of(pulled),
        }
    }
}

fn refusals_of(pulled: &Pulled) -> usize
    ensures count { result ≡ count_by is_refusal (answers_of pulled.now) }
    ensures few { result ≤ 2 }
{
    let offered = usize::from(is_refusal(&pulled.offered));
    match &pulled.taken {
        Some(answer) => offered + usize::from(is_refusal(answer)),
        None => offered,
    }
}

fn is_refusal(answer: &PeerAnswer) -> bool
    ensures { result ≡ is_refusal answer.now }
{
    match answer {
        Answer::Refused(_) => true,
        Answer::Accepted(_) | Answer::Offered(_) | Answer::Marked => false,
    }
}

/// Prints why events of the line that is called so were refused, one write for each line.
pub fn print_refusals<W: Write>(
    alloc: Global,
    writer: &mut W,
    line: LineName,
    outcome: &LineOutcome,
) -> Result<(), CommandFault>
    ensures printed { OnOk result
        (Printed (W.contents writer.old) (answer_lines line (outcome_answers outcome.now)) (W.contents writer.new)) }
    ensures err { IfErr result (λ fault. (fault ≡ CommandFault.Write) ⊎ (fault ≡ CommandFault.NoMemory)) }
    ensures grows { OnErr result (Grows (W.contents writer.old) (W.contents writer.new)) }
    ensures refused { OnErr result (1 ≤ count_by is_refusal (outcome_answers outcome.now)) }
{
    match outcome {
        LineOutcome::Nothing => Ok(()),
        LineOutcome::Event { at: _, answer } => print_answer(alloc, writer, line, answer),
        LineOutcome::Taken {
            at: _,
            message: _,
            answer,
        } => print_answer(alloc, writer, line, answer),
        LineOutcome::Pulled { at: _, pulled } => print_pulled(alloc, writer, line, pulled),
    }
}

fn print_pulled<W: Write>(
    alloc: Global,
    writer: &mut W,
    line: LineName,
    pulled: &Pulled,
) -> Result<(), CommandFault>
    ensures printed { OnOk result
        (Printed (W.contents writer.old) (answer_lines line (answers_of pulled.now)) (W.contents writer.new)) }
    ensures err { IfErr result (λ fault. (fault ≡ CommandFault.Write) ⊎ (fault ≡ CommandFault.NoMemory)) }
    ensures grows { OnErr result (Grows (W.contents writer.old) (W.contents writer.new)) }
    ensures refused { OnErr result (1 ≤ count_by is_refusal (answers_of pulled.now)) }
{
    print_answer(alloc, writer, line, &pulled.offered)?;
    match &pulled.taken {
        Some(answer) => print_answer(alloc, writer, line, answer),
        None => Ok(()),
    }
}

fn print_answer<W: Write>(
    alloc: Global,
    writer: &mut W,
    line: LineName,
    answer: &PeerAnswer,
) -> Result<(), CommandFault>
    ensures printed { OnOk result
        (Printed (W.contents writer.old) (answer_line line answer.now) (W.contents writer.new)) }
    ensures err { IfErr result (λ fault. (fault ≡ CommandFault.Write) ⊎ (fault ≡ CommandFault.NoMemory)) }
    ensures grows { OnErr result (Grows (W.contents writer.old) (W.contents writer.new)) }
    ensures refused { OnErr result (is_refusal answer.now ≡ true) }
{
    match answer {
        Answer::Refused(refusal) => print_refused(alloc, writer, line, refusal),
        Answer::Accepted(_) => Ok(()),
        Answer::Offered(_) => Ok(()),
        Answer::Marked => Ok(()),
    }
}
