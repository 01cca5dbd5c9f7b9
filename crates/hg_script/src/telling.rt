//! Scripts with notes: why a line was refused, and what an accepted one did.
//!
//! A script with notes does what it does without them, line by line.
ghost use Rattle.std.specs.Prelude.{◌≡◌, ◌<◌, ◌⊎◌, IfOk, IfErr, OnErr};
ghost use Rattle.std.specs.Str.Lines.{lines};
ghost use Rattle.hg_line.specs.Commands.{Text};
ghost use Rattle.hg_line.specs.Events.{Trace, refusals};
ghost use Rattle.hg_line.specs.Outputs.{Printed};
ghost use Rattle.hg_line.specs.Lines.{world_of};
ghost use Rattle.hg_script.specs.Printing.{WritesCounted, WritesLines, WritesRun};
ghost use Rattle.hg_script.specs.Scripts.{IsLeftFleet, IsRunTo};
ghost use Rattle.hg_script.specs.Stops.{IsStop, IsStoppedBy, IsUnbegun, StopsAmong};

use crate::input::read_script;
use hg_expect::cut_line;
use hg_line::{Fleet, NotedFault, Notes, count_nodes, tell_line, with_origin};
use hg_node_set::IdKeys;
use hg_peer::Peer;
use hg_world::runs_compose;
use std::alloc::{AllocError, Global};
use std::io::{Read, Write};

/// What a script with notes leaves.
#[derive(Drop)]
pub struct Outcome {
    /// The fleet as the script leaves it.
    pub fleet: Fleet,
    /// How many of its lines were refused.
    pub refused: usize,
}

/// [`run_fleet`](crate::run_fleet), with notes on its lines. The lines of the script are done as without notes, and
/// what they show is written with its notes. Beside the fleet it counts the lines that were refused.
pub fn run_with_notes<R: Read, W: Write>(
    alloc: Global,
    keys: IdKeys,
    reader: &mut R,
    writer: &mut W,
    notes: Notes,
) -> Result<Outcome, NotedFault>
    ensures ran { IfOk result (λ outcome. IsLeftFleet (R.remaining reader.old) outcome.fleet) }
    ensures written { IfOk result (λ outcome. WritesCounted notes (R.remaining reader.old) (world_of outcome.fleet)
        outcome.refused (W.contents writer.old) (W.contents writer.new)) }
    ensures stopped { IfErr result (λ ended.
        IsStop notes (R.remaining reader.old) ended.fault (W.contents writer.old) (W.contents writer.new)) }
{
    let text = read_script(alloc, reader)?;
    tell_text(alloc, keys, &text, writer, notes)
}

fn tell_text<W: Write>(
    alloc: Global,
    keys: IdKeys,
    text: &[u8],
    writer: &mut W,
    notes: Notes,
) -> Result<Outcome, NotedFault>
    ensures ran { IfOk result (λ outcome. IsRunTo text.now outcome.fleet) }
    ensures written { IfOk result (λ outcome.
        (written : WritesRun notes text.now (world_of outcome.fleet) (W.contents writer.old) (W.contents writer.new))
        × (outcome.refused ≡ refusals written.run.trace)) }
    ensures stopped { IfErr result (λ ended. IsUnbegun ended.fault (W.contents writer.old) (W.contents writer.new)
        ⊎ IsStoppedBy notes text.now ended.fault (W.contents writer.old) (W.contents writer.new)) }
{
    let mut fleet = Fleet::new(alloc, keys, count_nodes(text))?;
    runs_compose::<Peer>();
    let mut lost = Vec::new(alloc);
    match tell_lines(alloc, &mut fleet, text, writer, notes, &mut lost) {
        Ok(refused) => Ok(Outcome { fleet, refused }),
        Err(ended) => Err(with_origin(alloc, &fleet, text, &lost, ended, notes)),
    }
}

// It counts the lines that were refused, and notes their numbers.
fn tell_lines<W: Write>(
    alloc: Global,
    fleet: &mut Fleet,
    text: &[u8],
    writer: &mut W,
    notes: Notes,
    lost: &mut Vec<usize>,
) -> Result<usize, NotedFault>
    ensures done { IfOk result (λ refused. (t : Trace) × (output : Text)
        × WritesLines notes 1 fleet.old (lines text.now) t fleet.new output
        × Printed (W.contents writer.old) output (W.contents writer.new) × (refused ≡ refusals t)) }
    ensures stopped { IfErr result (λ ended. StopsAmong notes 1 fleet.old (lines text.now) ended.fault
        (W.contents writer.old) (W.contents writer.new)) }
{
    let mut rest = text;
    let mut number = 0usize;
    let mut refused = 0usize;
    while !rest.is_empty() {
        let (line, after) = cut_line(rest);
        number += 1;
        let count = tell_line(alloc, fleet, number, line, writer, notes)?;
        note_lost(count, number, lost)?;
        refused += count;
        rest = after;
    }
    Ok(refused)
}

// Notes the number of a line of which so much was refused.
fn note_lost(count: usize, number: usize, lost: &mut Vec<usize>) -> Result<(), AllocError>
    ensures { OnErr result (0 < count) }
{
    if count > 0 {
        lost.push(number)?;
    }
    Ok(())
}
