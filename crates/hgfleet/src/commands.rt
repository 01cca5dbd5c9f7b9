//! What the program does, from what a reader has to a writer.
ghost use Rattle.std.specs.Prelude.{◌≡◌, ◌++◌, List, ℕ, Some, string_bytes, MatchOption, IfOk, IfErr, IsSome, OnOk};
ghost use Rattle.std.specs.Prelude.{All, map};
ghost use Rattle.std.specs.Io.KnownBytes.{Appends};
ghost use Rattle.hg_log.specs.Objects.{names_and_states};
ghost use Rattle.hg_script.specs.Printing.{WritesCounted};
ghost use Rattle.hg_script.specs.Scripts.{IsLeftFleet};
ghost use Rattle.hg_line.specs.Lines.{node_named};
ghost use Rattle.hgfleet.specs.Arguments.{IsWithinBounds, texts_of};
ghost use Rattle.hgfleet.specs.Commands.{AreDrawn, AreShown, DoesWanted, DrawsFront, DrawsNodes, DrawsUpTo};
ghost use Rattle.hgfleet.specs.Commands.{EndsAfterScript, EndsFront, EndsUpTo, EndsWithNotes, IsDoneWithNotes};
ghost use Rattle.hgfleet.specs.Commands.{IsDrawn, IsFailure, IsToldStop, IsUnknownAmong, IsUnknownOf};
ghost use Rattle.hgfleet.specs.Commands.{IsUnlabelledAmong, LeavesRefusals, TellsFates, TellsRefused, WritesForm};
ghost use Rattle.hgfleet.specs.Commands.{closing, drawn_names, node_state_of, node_states_of, notes_of, overview_of};
ghost use Rattle.hgfleet.specs.Commands.{refusals_told};

use crate::arguments::{Picture, Wanted};
use crate::checking::check_lines;
use crate::drawing::{Drawing, draw, gap_behind, write_drawn};
use crate::failure::Failure;
use crate::fates::{unknown_label, write_fates};
use crate::trying::{compare_files, try_files};
use hg_expect::{count_lines, first_lines};
use hg_log::{DrawFault, Look, NamedNode, draw_graphs, draw_objects};
use hg_node_set::IdKeys;
use hg_race::run_race;
use hg_script::{
    Fleet, NotedFault, Notes, Outcome, RunFault, read_script, run_script, run_with_notes,
};
use hg_show::{Form, show, write_bytes, write_roots, write_store};
use hg_why::Remedy;
use std::alloc::{AllocError, Global};
use std::io::{BufRead, Read, Write};
use std::random::RandomSource;
use std::rt::Files;
use std::sync::Wait;
use std::thread::Threads;

/// Does what is wanted with the script, or the bytes, that the reader has, and writes what comes of it, with codes for
/// colours where a text is drawn and the writer takes them. What was written before a fault stays, and may be in a
/// buffer of the writer. Of a script whose own lines aren't printed it puts into the text why lines were refused, and
/// that what is shown is without them. Histories that are drawn behind a line are those of the script cut behind it.
pub fn perform<
    'a,
    H: AllocGlobal + RandomSource + Files + Threads + Wait + Sync,
    R: BufRead,
    W: Write,
>(
    rt: &H,
    wanted: &'a Wanted,
    is_coloured: bool,
    reader: &mut R,
    writer: &mut W,
    refusals: &mut Vec<u8>,
) -> Result<(), Failure<'a>>
    requires { IsWithinBounds wanted.now }
    ensures done { OnOk result
        (DoesWanted wanted.now is_coloured (R.remaining reader.old) (W.contents writer.old) (W.contents writer.new)
        refusals.old.items refusals.new.items) }
    ensures failed { IfErr result (IsFailure wanted.now (R.remaining reader.old) (R.remaining reader.new)
        (W.contents writer.old) (W.contents writer.new) refusals.old.items refusals.new.items) }
    ensures left { LeavesRefusals wanted.now refusals.old.items refusals.new.items }
{
    let alloc = rt.alloc();
    match wanted {
        Wanted::Run => return Ok(run_script(alloc, secret_keys(rt)?, reader, writer)?),
        Wanted::RunWithNotes {
            explains,
            traces,
            is_strict,
        } => {
            return run_noted(rt, reader, writer, *explains, *traces, *is_strict);
        }
        Wanted::Race { nodes, rounds } => return Ok(run_race(rt, alloc, *nodes, *rounds, writer)?),
        Wanted::Log {
            nodes,
            shows_hidden,
            picture,
            line,
        } => {
            let overview = overview_of(*shows_hidden, is_coloured, *picture);
            return draw_up_to(rt, *line, reader, writer, refusals, nodes, overview);
        }
        Wanted::Why(nodes) => {
            let overview = Overview::Each(Drawing::Why(Remedy::ScriptLine));
            return draw_script(rt, reader, writer, refusals, nodes, overview);
        }
        Wanted::Fate(labels) => return tell_fates(rt, reader, writer, refusals, labels),
        Wanted::Show(form) => return Ok(show(alloc, *form, reader, writer)?),
        Wanted::Write { form, name } => {
            return write(rt, reader, writer, refusals, *form, name);
        }
        Wanted::Try(trial) => return try_files(rt, trial, is_coloured, reader, writer),
        Wanted::Compare { first, second } => {
            return compare_files(rt, first, second, reader, writer);
        }
        Wanted::Check { fills, explains } => {
            return check_lines(rt, *fills, *explains, reader, writer, refusals);
        }
        Wanted::Help(text) | Wanted::Version(text) => return write_text(text.as_bytes(), writer),
    }
}

// Runs the script with these notes. Where that is strict, refused lines are a failure.
fn run_noted<R: Read, W: Write>(
    rt: &(impl AllocGlobal + RandomSource),
    reader: &mut R,
    writer: &mut W,
    explains: bool,
    traces: bool,
    is_strict: bool,
) -> Result<(), Failure<'static>>
    ensures done { OnOk result (IsDoneWithNotes is_strict (notes_of explains traces) (R.remaining reader.old)
        (W.contents writer.old) (W.contents writer.new)) }
    ensures failed { IfErr result (EndsWithNotes is_strict (notes_of explains traces) (R.remaining reader.old)
        (W.contents writer.old) (W.contents writer.new)) }
{
    let notes = Notes {
        explains,
        traces,
        refusals_alone: false,
    };
    let outcome = run_with_notes(rt.alloc(), secret_keys(rt)?, reader, writer, notes)?;
    if outcome.refused == 0 {
        return Ok(());
    }
    if is_strict {
        return Err(Failure::Refused(outcome.refused));
    }
    Ok(())
}

// The fleet as the script that the reader has leaves it. Why lines were refused is put into the text, and behind that,
// where any was, that they are left out of what is shown.
fn run_for_fleet<R: Read>(
    alloc: Global,
    keys: IdKeys,
    reader: &mut R,
    refusals: &mut Vec<u8>,
) -> Result<Fleet, NotedFault>
    ensures ran { IfOk result (IsLeftFleet (R.remaining reader.old)) }
    ensures told { IfOk result (λ fleet.
        TellsRefused (R.remaining reader.old) fleet refusals.old.items refusals.new.items) }
    ensures stopped { IfErr result (λ ended.
        IsToldStop (R.remaining reader.old) ended.fault refusals.old.items refusals.new.items) }
{
    match tell_refusals(alloc, keys, reader, refusals) {
        Ok(outcome) => {
            let Outcome { fleet, refused } = outcome;
            match close(refusals, refused) {
                Ok(()) => Ok(fleet),
                Err(_) => Err(NotedFault::from(RunFault::NoMemory)),
            }
        }
        Err(ended) => Err(ended),
    }
}

/// Runs the script that the reader has, and puts into the text why lines were refused, in place of what they print.
pub(crate) fn tell_refusals<R: Read>(
    alloc: Global,
    keys: IdKeys,
    reader: &mut R,
    refusals: &mut Vec<u8>,
) -> Result<Outcome, NotedFault>
    ensures ran { IfOk result (λ outcome. IsLeftFleet (R.remaining reader.old) outcome.fleet) }
    ensures told { IfOk result (λ outcome. WritesCounted refusals_told (R.remaining reader.old) outcome.fleet.world
        outcome.refused (Some refusals.old.items) (Some refusals.new.items)) }
    ensures stopped { IfErr result (λ ended.
        IsToldStop (R.remaining reader.old) ended.fault refusals.old.items refusals.new.items) }
{
    let notes = Notes {
        explains: true,
        traces: false,
        refusals_alone: true,
    };
    match run_with_notes(alloc, keys, reader, refusals, notes) {
        Ok(outcome) => Ok(outcome),
        Err(ended) => match ended.fault {
            // A text refuses what is put into it for want of memory alone.
            RunFault::Write => Err(NotedFault::from(RunFault::NoMemory)),
            _ => Err(ended),
        },
    }
}

// Says behind the refusals of so many lines that these are left out.
fn close(refusals: &mut Vec<u8>, refused: usize) -> Result<(), AllocError>
    ensures { OnOk result (refusals.new.items ≡ refusals.old.items ++ closing refused) }
{
    if refused == 0 {
        return Ok(());
    }
    refusals.extend_from_slice(b"hgfleet: what is shown is without the lines that were refused\n")?;
    Ok(())
}

/// Keys that no writer of a script knows. Where the system draws none, the answer is that of a failed read.
pub(crate) fn secret_keys(rt: &impl RandomSource) -> Result<IdKeys, RunFault>
    ensures { IfErr result (λ fault. fault ≡ RunFault.Read) }
{
    match IdKeys::secret(rt) {
        Ok(keys) => Ok(keys),
        Err(_) => Err(RunFault::Read),
    }
}

/// Writes a text as it is.
pub(crate) fn write_text<W: Write>(text: &[u8], writer: &mut W) -> Result<(), Failure<'static>>
    ensures written { OnOk result (Appends (W.contents writer.old) (W.contents writer.new) text.now) }
    ensures failed { IfErr result (λ failure. failure ≡ Failure.Run RunFault.Write) }
{
    match writer.write_all(text) {
        Ok(()) => Ok(()),
        Err(_) => Err(Failure::Run(RunFault::Write)),
    }
}

// What is shown of nodes.
#[derive(Clone, Copy)]
enum Overview {
    // A drawing of each.
    Each(Drawing),
    // One graph for Graphviz.
    Graph { shows_hidden: bool },
    // One array of JSON.
    Array { shows_hidden: bool },
}

fn overview_of(shows_hidden: bool, is_coloured: bool, picture: Picture) -> Overview
    ensures { result ≡ overview_of shows_hidden is_coloured picture }
{
    match picture {
        Picture::Text => Overview::Each(Drawing::Log(Look {
            shows_hidden,
            is_coloured,
        })),
        Picture::Graph => Overview::Graph { shows_hidden },
        Picture::Json => Overview::Array { shows_hidden },
    }
}

// [`draw_script`] of the front of the script that ends with this line, or of all where none is given.
fn draw_up_to<'a, R: Read, W: Write>(
    rt: &(impl AllocGlobal + RandomSource),
    line: Option<u32>,
    reader: &mut R,
    writer: &mut W,
    refusals: &mut Vec<u8>,
    nodes: &'a [String],
    overview: Overview,
) -> Result<(), Failure<'a>>
    ensures drawn { OnOk result (DrawsUpTo line nodes.entry.now overview (R.remaining reader.old)
        (W.contents writer.old) (W.contents writer.new) refusals.old.items refusals.new.items) }
    ensures failed { IfErr result (EndsUpTo line nodes.entry.now (R.remaining reader.old)
        (W.contents writer.old) (W.contents writer.new) refusals.old.items refusals.new.items) }
{
    match line {
        Some(line) => draw_front(rt, line, reader, writer, refusals, nodes, overview),
        None => draw_script(rt, reader, writer, refusals, nodes, overview),
    }
}

// [`draw_script`] of the front of the script that ends with this line. Nothing is shown where the script has fewer.
fn draw_front<'a, R: Read, W: Write>(
    rt: &(impl AllocGlobal + RandomSource),
    line: u32,
    reader: &mut R,
    writer: &mut W,
    refusals: &mut Vec<u8>,
    nodes: &'a [String],
    overview: Overview,
) -> Result<(), Failure<'a>>
    ensures drawn { OnOk result (DrawsFront line nodes.entry.now overview (R.remaining reader.old)
        (W.contents writer.old) (W.contents writer.new) refusals.old.items refusals.new.items) }
    ensures failed { IfErr result (EndsFront line nodes.entry.now (R.remaining reader.old)
        (W.contents writer.old) (W.contents writer.new) refusals.old.items refusals.new.items) }
{
    let text = read_script(rt.alloc(), reader)?;
    match first_lines(&text, line as usize) {
        Some(front) => {
            let mut rest = front;
            draw_script(rt, &mut rest, writer, refusals, nodes, overview)
        }
        None => Err(Failure::FewLines(count_lines(&text))),
    }
}

// Shows these nodes as the script that the reader has leaves them, or all its nodes where none is named. Nothing is
// shown where one of the names is unknown.
fn draw_script<'a, R: Read, W: Write>(
    rt: &(impl AllocGlobal + RandomSource),
    reader: &mut R,
    writer: &mut W,
    refusals: &mut Vec<u8>,
    nodes: &'a [String],
    overview: Overview,
) -> Result<(), Failure<'a>>
    ensures drawn { OnOk result (DrawsNodes nodes.entry.now overview (R.remaining reader.old)
        (W.contents writer.old) (W.contents writer.new) refusals.old.items refusals.new.items) }
    ensures failed { IfErr result (EndsAfterScript (R.remaining reader.old) (IsUnknownAmong nodes.entry.now)
        (W.contents writer.old) (W.contents writer.new) refusals.old.items refusals.new.items) }
{
    let alloc = rt.alloc();
    let fleet = run_for_fleet(alloc, secret_keys(rt)?, reader, refusals)?;
    match unknown_name(&fleet, nodes) {
        Some(name) => Err(Failure::UnknownNode(name, list_nodes(alloc, &fleet)?)),
        None => {
            draw_nodes(alloc, &fleet, nodes, overview, writer)?;
            Ok(())
        }
    }
}

// So many nodes are listed before it is said how many more there are.
const LISTED: usize = 10;

// The names of the nodes, as they are told behind an unknown one.
fn list_nodes(alloc: Global, fleet: &Fleet) -> Result<Vec<u8>, AllocError> {
    let names = fleet.node_names()?;
    if names.is_empty() {
        return Vec::from_slice(alloc, b"none");
    }
    let mut list = Vec::new(alloc);
    for name in names.iter().take(LISTED) {
        if !list.is_empty() {
            list.extend_from_slice(b", ")?;
        }
        list.extend_from_slice(*name)?;
    }
    if names.len() > LISTED {
        let more = names.len() - LISTED;
        list.extend_from_slice(format!(in alloc; " and {more} more")?.as_bytes())?;
    }
    Ok(list)
}

// The first of these names that no node of the fleet has.
fn unknown_name<'a>(fleet: &Fleet, names: &'a [String]) -> Option<&'a str>
    ensures { MatchOption result
        (All (λ name. IsSome (node_named fleet.now (string_bytes name))) names.entry.now)
        (λ name. IsUnknownAmong names.entry.now fleet.now name.now) }
{
    for name in names {
        match fleet.kept_of(name.as_bytes()) {
            Some(_) => {}
            None => return Some(name.as_str()),
        }
    }
    None
}

fn draw_nodes<W: Write>(
    alloc: Global,
    fleet: &Fleet,
    nodes: &[String],
    overview: Overview,
    writer: &mut W,
) -> Result<(), DrawFault>
    ensures { OnOk result ((text : List ℕ)
        × AreShown fleet.now overview (drawn_names fleet.now (texts_of nodes.now)) text
        × Appends (W.contents writer.old) (W.contents writer.new) text) }
{
    if nodes.is_empty() {
        draw_named(alloc, fleet, &fleet.node_names()?, overview, writer)?;
        return Ok(());
    }
    draw_named(alloc, fleet, &bytes_of(alloc, nodes)?, overview, writer)?;
    Ok(())
}

// Shows the nodes of these names, those that there are.
fn draw_named<W: Write>(
    alloc: Global,
    fleet: &Fleet,
    names: &[&[u8]],
    overview: Overview,
    writer: &mut W,
) -> Result<(), DrawFault>
    ensures { OnOk result ((text : List ℕ) × AreShown fleet.now overview (map (λ name. name.now) names.now) text
        × Appends (W.contents writer.old) (W.contents writer.new) text) }
{
    match overview {
        Overview::Each(drawing) => draw_all(alloc, fleet, names, drawing, writer),
        Overview::Graph { shows_hidden } => {
            let known = named_nodes(alloc, fleet, &fleet.node_names()?)?;
            let nodes = named_nodes(alloc, fleet, names)?;
            draw_graphs(alloc, &nodes, &known, shows_hidden, writer)
        }
        Overview::Array { shows_hidden } => {
            let nodes = named_nodes(alloc, fleet, names)?;
            draw_objects(alloc, &nodes, shows_hidden, writer)
        }
    }
}

// The nodes of these names, those that there are.
fn named_nodes<'a>(
    alloc: Global,
    fleet: &'a Fleet,
    names: &[&'a [u8]],
) -> Result<Vec<NamedNode<'a>>, AllocError>
    ensures { IfOk result (λ nodes.
        names_and_states nodes.items ≡ node_states_of fleet.entry.now (map (λ name. name.now) names.now)) }
{
    let mut nodes = Vec::with_capacity(alloc, names.len())?;
    for name in names {
        push_node(&mut nodes, fleet, *name)?;
    }
    Ok(nodes)
}

// Appends the node of this name, if there is one.
fn push_node<'a>(
    nodes: &mut Vec<NamedNode<'a>>,
    fleet: &'a Fleet,
    name: &'a [u8],
) -> Result<(), AllocError>
    ensures { OnOk result (names_and_states nodes.new.items
        ≡ names_and_states nodes.old.items ++ node_state_of fleet.entry.now name.entry.now) }
{
    match fleet.kept_of(name) {
        Some(kept) => {
            nodes.push(NamedNode { name, kept })?;
            Ok(())
        }
        None => Ok(()),
    }
}

fn bytes_of<'a>(alloc: Global, names: &'a [String]) -> Result<Vec<&'a [u8]>, AllocError>
    ensures { IfOk result (λ bytes. map (λ name. name.now) bytes.items ≡ texts_of names.entry.now) }
{
    let mut bytes = Vec::with_capacity(alloc, names.len())?;
    for name in names {
        bytes.push(name.as_bytes())?;
    }
    Ok(bytes)
}

// Draws the nodes of these names, one below the other.
fn draw_all<W: Write>(
    alloc: Global,
    fleet: &Fleet,
    names: &[&[u8]],
    drawing: Drawing,
    writer: &mut W,
) -> Result<(), DrawFault>
    ensures { OnOk result ((text : List ℕ) × AreDrawn fleet.now drawing (map (λ name. name.now) names.now) text
        × Appends (W.contents writer.old) (W.contents writer.new) text) }
{
    let mut drawn = Vec::new(alloc);
    for name in names {
        write_drawn(gap_behind(&drawn, drawing), writer)?;
        drawn.clear();
        draw_node(alloc, fleet, *name, drawing, &mut drawn)?;
        write_drawn(&drawn, writer)?;
    }
    Ok(())
}

// Appends the drawing of the node of this name to the text, which takes all but for want of memory; nothing where there
// is no such node.
fn draw_node(
    alloc: Global,
    fleet: &Fleet,
    name: &[u8],
    drawing: Drawing,
    text: &mut Vec<u8>,
) -> Result<(), DrawFault>
    ensures { OnOk result ((drawn : List ℕ) × IsDrawn fleet.now drawing name.now drawn
        × (text.new.items ≡ text.old.items ++ drawn)) }
{
    match fleet.kept_of(name) {
        Some(kept) => match draw(alloc, name, kept, drawing, text) {
            Ok(()) => Ok(()),
            Err(_) => Err(DrawFault::NoMemory),
        },
        None => Ok(()),
    }
}

// Tells what became of the changesets with these labels at the nodes, as the script that the reader has leaves them.
// Nothing is told where one of the labels is unknown.
fn tell_fates<'a, R: Read, W: Write>(
    rt: &(impl AllocGlobal + RandomSource),
    reader: &mut R,
    writer: &mut W,
    refusals: &mut Vec<u8>,
    labels: &'a [String],
) -> Result<(), Failure<'a>>
    ensures fates { OnOk result (TellsFates labels.entry.now (R.remaining reader.old)
        (W.contents writer.old) (W.contents writer.new) refusals.old.items refusals.new.items) }
    ensures failed { IfErr result (EndsAfterScript (R.remaining reader.old) (IsUnlabelledAmong labels.entry.now)
        (W.contents writer.old) (W.contents writer.new) refusals.old.items refusals.new.items) }
{
    let alloc = rt.alloc();
    let fleet = run_for_fleet(alloc, secret_keys(rt)?, reader, refusals)?;
    match unknown_label(&fleet, labels) {
        Some(label) => Err(Failure::UnknownName(label)),
        None => {
            write_fates(alloc, &fleet, labels, writer)?;
            Ok(())
        }
    }
}

// Writes the store or the roots of the node of this name, or the message of this name, as the script that the reader
// has leaves them.
fn write<'a, R: Read, W: Write>(
    rt: &(impl AllocGlobal + RandomSource),
    reader: &mut R,
    writer: &mut W,
    refusals: &mut Vec<u8>,
    form: Form,
    name: &'a str,
) -> Result<(), Failure<'a>>
    ensures written { OnOk result (WritesForm form name.entry.now (R.remaining reader.old)
        (W.contents writer.old) (W.contents writer.new) refusals.old.items refusals.new.items) }
    ensures failed { IfErr result (EndsAfterScript (R.remaining reader.old) (IsUnknownOf form name.entry.now)
        (W.contents writer.old) (W.contents writer.new) refusals.old.items refusals.new.items) }
{
    let alloc = rt.alloc();
    let fleet = run_for_fleet(alloc, secret_keys(rt)?, reader, refusals)?;
    match form {
        Form::Store => match fleet.kept_of(name.as_bytes()) {
            Some(kept) => {
                write_store(kept, writer)?;
                Ok(())
            }
            None => Err(Failure::UnknownNode(name, list_nodes(alloc, &fleet)?)),
        },
        Form::Roots => match fleet.kept_of(name.as_bytes()) {
            Some(kept) => {
                write_roots(kept, writer)?;
                Ok(())
            }
            None => Err(Failure::UnknownNode(name, list_nodes(alloc, &fleet)?)),
        },
        Form::Message => match fleet.message_of(name.as_bytes()) {
            Some(bytes) => {
                write_bytes(bytes, writer)?;
                Ok(())
            }
            None => Err(Failure::UnknownName(name)),
        },
    }
}
