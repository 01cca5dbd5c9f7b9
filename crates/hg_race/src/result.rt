//! What a race came to, and its lines.
ghost use Rattle.std.specs.Prelude.{◌≡◌, ◌⊎◌, ◌≤◌, IfOk, IfErr, OnOk, string_bytes};
ghost use Rattle.std.specs.Io.KnownBytes.{Appends};
ghost use Rattle.hg_race.specs.Limits.{most_nodes};
ghost use Rattle.hg_race.specs.Lines.{counted_line, pairs_line, race_lines};

use hg_line::RunFault;
use std::alloc::{AllocError, Global};
use std::io::Write;

/// What a race came to.
#[derive(Clone, Copy)]
pub(crate) struct RaceResult {
    /// How many nodes there were.
    pub nodes: u64,

    /// How many rounds each had.
    pub rounds: u64,

    /// The operations after which a node published them.
    pub written: u64,

    /// The changesets that were read back and found.
    pub read_back: u64,

    /// How many pairs of nodes agree in the end.
    pub agreeing: u64,
}

/// Prints the lines of a race, one write for each. All are spelled before the first is printed.
pub(crate) fn print_result<W: Write>(
    alloc: Global,
    writer: &mut W,
    race: &RaceResult,
) -> Result<(), RunFault>
    requires nodes { (1 ≤ race.now.nodes) × (race.now.nodes ≤ most_nodes) }
    ensures printed { OnOk result (Appends (W.contents writer.old) (W.contents writer.new)
        (race_lines race.now.nodes race.now.rounds race.now.written race.now.read_back race.now.agreeing)) }
    ensures err { IfErr result (λ fault. (fault ≡ RunFault.Write)
        ⊎ ((fault ≡ RunFault.NoMemory) × (W.contents writer.new ≡ W.contents writer.old))) }
{
    let nodes = counted(alloc, "nodes", race.nodes)?;
    let rounds = counted(alloc, "rounds", race.rounds)?;
    let written = counted(alloc, "written", race.written)?;
    let read_back = counted(alloc, "read back", race.read_back)?;
    let all = race.nodes * (race.nodes - 1) / 2;
    let pairs = pairs(alloc, race.agreeing, all)?;
    print(writer, &nodes)?;
    print(writer, &rounds)?;
    print(writer, &written)?;
    print(writer, &read_back)?;
    print(writer, &pairs)?;
    Ok(())
}

// A word and a number, as a line.
fn counted(alloc: Global, word: &str, count: u64) -> Result<String, AllocError>
    ensures { IfOk result (λ line. string_bytes line ≡ counted_line word.now count) }
{
    format!(in alloc; "{word} {count}\n")
}

// How many pairs agree, and how many there are, as a line.
fn pairs(alloc: Global, agreeing: u64, all: u64) -> Result<String, AllocError>
    ensures { IfOk result (λ line. string_bytes line ≡ pairs_line agreeing all) }
{
    format!(in alloc; "agreeing pairs {agreeing} of {all}\n")
}

fn print<W: Write>(writer: &mut W, line: &str) -> Result<(), RunFault>
    ensures printed { OnOk result (Appends (W.contents writer.old) (W.contents writer.new) line.now) }
    ensures err { IfErr result (λ fault. fault ≡ RunFault.Write) }
{
    match writer.write_all(line.as_bytes()) {
        Ok(()) => Ok(()),
        Err(_) => Err(RunFault::Write),
    }
}
