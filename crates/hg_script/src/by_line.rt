//! Scripts whose lines' outputs are kept apart.
ghost use Rattle.std.specs.Prelude.{◌≡◌, ◌⊎◌, IfOk, IfErr, None};
ghost use Rattle.std.specs.Str.Lines.{lines};
ghost use Rattle.hg_expect.specs.Expectations.{texts};
ghost use Rattle.hg_script.specs.ByLine.{PrintsEach, PrintsLines};
ghost use Rattle.hg_line.specs.Events.{Trace};
ghost use Rattle.hg_line.specs.Printing.{no_notes};
ghost use Rattle.hg_script.specs.Scripts.{IsScriptOf};
ghost use Rattle.hg_script.specs.Stops.{IsStop, IsStoppedBy, IsUnbegun, StopsAmong};
ghost use Rattle.hg_line.specs.declared.fault.RunFault.TheVariants.{NoMemory};

use crate::input::read_script;
use hg_expect::cut_line;
use hg_line::{EntryBuffers, Fleet, RunFault, count_nodes, output_of};
use hg_node_set::IdKeys;
use hg_peer::Peer;
use hg_world::runs_compose;
use std::alloc::Global;
use std::io::Read;

/// A script that was run to its end.
#[derive(Drop)]
pub struct PrintedScript {
    /// The script, as it was read.
    pub text: Vec<u8>,
    /// What each of its lines printed, a comment or an empty one too, in order.
    pub outputs: Vec<Vec<u8>>,
}

/// [`run_script`](crate::run_script), which keeps what each line prints in place of writing it.
pub fn run_by_line<R: Read>(
    alloc: Global,
    keys: IdKeys,
    reader: &mut R,
) -> Result<PrintedScript, RunFault>
    ensures read { IfOk result (λ script. IsScriptOf (R.remaining reader.old) script.text.items) }
    ensures printed { IfOk result (λ script. PrintsEach script.text.items (texts script.outputs.items)) }
    ensures stopped { IfErr result (λ fault. IsStop no_notes (R.remaining reader.old) fault None None) }
{
    let text = read_script(alloc, reader)?;
    match outputs_of(alloc, keys, &text) {
        Ok(outputs) => Ok(PrintedScript { text, outputs }),
        Err(fault) => Err(fault),
    }
}

// What each line of this text prints.
fn outputs_of(alloc: Global, keys: IdKeys, text: &[u8]) -> Result<Vec<Vec<u8>>, RunFault>
    ensures printed { IfOk result (λ outputs. PrintsEach text.now (texts outputs.items)) }
    ensures stopped { IfErr result (λ fault.
        IsUnbegun fault None None ⊎ IsStoppedBy no_notes text.now fault None None) }
{
    let mut fleet = Fleet::new(alloc, keys, count_nodes(text))?;
    runs_compose::<Peer>();
    outputs_in(alloc, &mut fleet, text)
}

// What each line of this text prints in the fleet.
fn outputs_in(alloc: Global, fleet: &mut Fleet, text: &[u8]) -> Result<Vec<Vec<u8>>, RunFault>
    ensures done { IfOk result (λ outputs. (t : Trace)
        × PrintsLines 1 fleet.old (lines text.now) t fleet.new (texts outputs.items)) }
    ensures stopped { IfErr result (λ fault.
        (fault ≡ NoMemory) ⊎ StopsAmong no_notes 1 fleet.old (lines text.now) fault None None) }
{
    let mut outputs = Vec::new(alloc);
    let mut buffers = EntryBuffers::new(alloc);
    let mut rest = text;
    let mut number = 0usize;
    while !rest.is_empty() {
        let (line, after) = cut_line(rest);
        number += 1;
        let output = output_of(alloc, fleet, number, line, &mut buffers)?;
        outputs.push(output)?;
        rest = after;
    }
    Ok(outputs)
}
