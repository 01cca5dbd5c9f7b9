//! A line of a script: it is read as a command, and that is done.
ghost use Rattle.std.specs.Prelude.{◌≡◌, IfOk, IfErr, OnErr};
ghost use Rattle.hg_line.specs.Commands.{Text};
ghost use Rattle.hg_line.specs.Events.{Trace};
ghost use Rattle.hg_line.specs.Endings.{EndsAt, StaysAtLine};
ghost use Rattle.hg_line.specs.Outputs.{Grows, Printed};
ghost use Rattle.hg_line.specs.Printing.{PrintsLine};
ghost use Rattle.hg_line.specs.Lines.{DoesLine};
ghost use Rattle.hg_line.specs.Outcomes.{outcome_answers};

use crate::entry_buffers::EntryBuffers;
use crate::fault::{LineFault, RunFault};
use crate::fleet::Fleet;
use crate::line_outcome::LineOutcome;
use crate::lines::{is_short, words_of};
use crate::reading::read_command;
use crate::telling::in_text;
use std::alloc::Global;
use std::io::Write;

/// Does the line with this number, with the buffers of an entry where it makes a changeset. It gives what the events of
/// the line were answered.
#[tactic(auto, using(crate::proofs::GrowLemmas::grows_stays))]
pub fn run_line<W: Write>(
    alloc: Global,
    fleet: &mut Fleet,
    number: usize,
    line: &[u8],
    buffers: &mut EntryBuffers,
    writer: &mut W,
) -> Result<LineOutcome, RunFault>
    ensures done { IfOk result (λ outcome. (t : Trace) × (output : Text) × DoesLine fleet.old line.now t fleet.new
        × PrintsLine number fleet.old line.now t output
        × Printed (W.contents writer.old) output (W.contents writer.new) × (outcome_answers outcome ≡ t.answers)) }
    ensures stopped { IfErr result (EndsAt number fleet.old line.now) }
    ensures unprinted { StaysAtLine result (W.contents writer.old) (W.contents writer.new) }
    ensures grows { OnErr result (Grows (W.contents writer.old) (W.contents writer.new)) }
{
    if !is_short(line) {
        return Err(RunFault::Line(number, LineFault::TooLong));
    }
    let words = words_of(alloc, line)?;
    let command = match read_command(words.as_slice()) {
        Ok(Some(command)) => command,
        Ok(None) => return Ok(LineOutcome::Nothing),
        Err(fault) => return Err(RunFault::Line(number, fault)),
    };
    let outcome = fleet.execute(number, command, buffers, writer)?;
    Ok(outcome)
}

/// [`run_line`], which gives what the line prints in place of writing it.
pub fn output_of(
    alloc: Global,
    fleet: &mut Fleet,
    number: usize,
    line: &[u8],
    buffers: &mut EntryBuffers,
) -> Result<Vec<u8>, RunFault>
    ensures done { IfOk result (λ output. (t : Trace) × DoesLine fleet.old line.now t fleet.new
        × PrintsLine number fleet.old line.now t output.items) }
    ensures stopped { IfErr result (EndsAt number fleet.old line.now) }
{
    let mut output = Vec::new(alloc);
    match run_line(alloc, fleet, number, line, buffers, &mut output) {
        Ok(_) => Ok(output),
        Err(fault) => Err(in_text(fault)),
    }
}
