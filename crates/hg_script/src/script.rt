//! A script from its first line to its last.
ghost use Rattle.std.specs.Prelude.{◌+◌, ◌⊎◌, IfOk, IfErr, OnOk};
ghost use Rattle.std.specs.Str.Lines.{lines};
ghost use Rattle.hg_view.specs.Kept.{KeptValue};
ghost use Rattle.hg_world.specs.Runs.{Snapshot};
ghost use Rattle.hg_line.specs.Commands.{Text};
ghost use Rattle.hg_line.specs.Events.{Trace};
ghost use Rattle.hg_line.specs.Outputs.{Printed};
ghost use Rattle.hg_line.specs.Printing.{no_notes};
ghost use Rattle.hg_script.specs.Printing.{WritesLines, WritesRun, WritesScript};
ghost use Rattle.hg_line.specs.Lines.{world_of};
ghost use Rattle.hg_script.specs.Scripts.{IsLeftFleet, IsLeftWorld, IsRunTo};
ghost use Rattle.hg_script.specs.Stops.{IsStop, IsStoppedBy, IsUnbegun, StopsAmong};

use crate::input::read_script;
use hg_expect::cut_line;
use hg_line::{EntryBuffers, Fleet, RunFault, count_nodes, run_line};
use hg_node_set::IdKeys;
use hg_peer::Peer;
use hg_world::runs_compose;
use std::alloc::Global;
use std::io::{Read, Write};

/// Reads a script, does its lines in order, and prints what they report, one write for each line. What was printed
/// before a fault stays, and a line's own fault prints nothing more.
///
/// Ids and labels are hashed by the keys. Where a stranger may write the script, they are secret ones. At most
/// 1,048,577 reads are made, one more than a script may have bytes.
pub fn run_script<R: Read, W: Write>(
    alloc: Global,
    keys: IdKeys,
    reader: &mut R,
    writer: &mut W,
) -> Result<(), RunFault>
    ensures ran { OnOk result ((world : Snapshot KeptValue) × IsLeftWorld (R.remaining reader.old) world) }
    ensures printed { OnOk result ((world : Snapshot KeptValue)
        × WritesScript no_notes (R.remaining reader.old) world (W.contents writer.old) (W.contents writer.new)) }
    ensures stopped { IfErr result (λ fault.
        IsStop no_notes (R.remaining reader.old) fault (W.contents writer.old) (W.contents writer.new)) }
{
    run_fleet(alloc, keys, reader, writer)?;
    Ok(())
}

/// [`run_script`], which gives the fleet as the script leaves it: its world, and what its names stand for.
///
/// The world begins new, with a peer for each line whose first word is `node`.
pub fn run_fleet<R: Read, W: Write>(
    alloc: Global,
    keys: IdKeys,
    reader: &mut R,
    writer: &mut W,
) -> Result<Fleet, RunFault>
    ensures ran { IfOk result (IsLeftFleet (R.remaining reader.old)) }
    ensures printed { IfOk result (λ fleet.
        WritesScript no_notes (R.remaining reader.old) (world_of fleet)
        (W.contents writer.old) (W.contents writer.new)) }
    ensures stopped { IfErr result (λ fault.
        IsStop no_notes (R.remaining reader.old) fault (W.contents writer.old) (W.contents writer.new)) }
{
    let text = read_script(alloc, reader)?;
    run_text(alloc, keys, &text, writer)
}

fn run_text<W: Write>(
    alloc: Global,
    keys: IdKeys,
    text: &[u8],
    writer: &mut W,
) -> Result<Fleet, RunFault>
    ensures ran { IfOk result (IsRunTo text.now) }
    ensures printed { IfOk result (λ fleet.
        WritesRun no_notes text.now (world_of fleet) (W.contents writer.old) (W.contents writer.new)) }
    ensures stopped { IfErr result (λ fault. IsUnbegun fault (W.contents writer.old) (W.contents writer.new)
        ⊎ IsStoppedBy no_notes text.now fault (W.contents writer.old) (W.contents writer.new)) }
{
    let mut fleet = Fleet::new(alloc, keys, count_nodes(text))?;
    runs_compose::<Peer>();
    run_lines(alloc, &mut fleet, text, writer)?;
    Ok(fleet)
}

fn run_lines<W: Write>(
    alloc: Global,
    fleet: &mut Fleet,
    text: &[u8],
    writer: &mut W,
) -> Result<(), RunFault>
    ensures done { OnOk result ((t : Trace) × (output : Text)
        × WritesLines no_notes 1 fleet.old (lines text.now) t fleet.new output
        × Printed (W.contents writer.old) output (W.contents writer.new)) }
    ensures stopped { IfErr result (λ fault.
        StopsAmong no_notes 1 fleet.old (lines text.now) fault (W.contents writer.old) (W.contents writer.new)) }
{
    let mut buffers = EntryBuffers::new(alloc);
    let mut rest = text;
    let mut number = 0usize;
    while !rest.is_empty() {
        let (line, after) = cut_line(rest);
        number += 1;
        run_line(alloc, fleet, number, line, &mut buffers, writer)?;
        rest = after;
    }
    Ok(())
}
