//! Lines with notes: why a line was refused, and what an accepted one did.
//!
//! A line with notes does what it does without them; its notes are written with what it prints.
ghost use Rattle.std.specs.Prelude.{◌≡◌, ◌≢◌, ◌≤◌, [], IfOk, IfErr, OnErr, OnOk, true, false};
ghost use Rattle.hg_line.specs.Commands.{Text};
ghost use Rattle.hg_line.specs.Endings.{EndsAt, HasWords, IsOfLine};
ghost use Rattle.hg_line.specs.Events.{Trace, refusals};
ghost use Rattle.hg_line.specs.Faults.{in_text_fault, status_of};
ghost use Rattle.hg_line.specs.Outputs.{Grows, Printed};
ghost use Rattle.hg_line.specs.Printing.{IsAnnotated, WritesLine};
ghost use Rattle.hg_line.specs.Stops.{StopsAt};
ghost use Rattle.hg_line.specs.Outcomes.{IsLineShown};
ghost use Rattle.hg_line.specs.declared.fault.RunFault.TheVariants.{NoMemory};

use crate::blaming::word_at_fault;
use crate::command_fault::CommandFault;
use crate::entry_buffers::EntryBuffers;
use crate::explaining::explain;
use crate::fault::{LineFault, RunFault};
use crate::fleet::Fleet;
use crate::hint::{Hint, hint_at_fault, printable};
use crate::line::run_line;
use crate::line_outcome::{LineOutcome, print_refusals};
use crate::lines::{is_short, words_of};
use crate::origin::origin_of;
use crate::output::{LineName, write_bytes};
use crate::tracing::{Done, trace};
use crate::unstable::unstable_before;
use std::alloc::{AllocError, Global};
use std::error::Error;
use std::fmt;
use std::io::{Write, sink};

/// Which notes a script is run with.
#[derive(Clone, Copy, PartialEq, Eq, Debug)]
pub struct Notes {
    /// Behind a refusal stands what it is about, and behind the fault that ends the script the word at fault.
    pub explains: bool,
    /// Behind what a line prints that was accepted stands a line of what it did.
    pub traces: bool,
    /// In place of what lines print a sentence is written of each that was refused, and nothing else.
    pub refusals_alone: bool,
}

/// What ended a script with notes.
#[derive(Debug, Drop)]
pub struct NotedFault {
    pub fault: RunFault,
    /// The word that the fault is about, as it is printed, with what helps; none where there is no memory for it.
    pub word: Option<String>,
}

impl NotedFault {
    /// The exit status.
    pub fn status(&self) -> u8
        ensures { result ≡ status_of self.now.fault }
    {
        self.fault.status()
    }
}

impl fmt::Display for NotedFault {
    fn fmt<W: fmt::Write>(&self, f: &mut fmt::Formatter<W>) -> fmt::Result {
        match &self.word {
            Some(word) => write!(f, "{}: {word}", self.fault),
            None => write!(f, "{}", self.fault),
        }
    }
}

impl Error for NotedFault {}

impl From<RunFault> for NotedFault {
    ghost from_gives = { λ fault ended. ended.fault ≡ fault };

    fn from(fault: RunFault) -> NotedFault {
        NotedFault { fault, word: None }
    }
}

impl From<AllocError> for NotedFault {
    ghost from_gives = { λ _ ended. ended.fault ≡ NoMemory };

    fn from(_error: AllocError) -> NotedFault {
        NotedFault {
            fault: RunFault::NoMemory,
            word: None,
        }
    }
}

impl From<hg_join::NoMemory> for NotedFault {
    ghost from_gives = { λ _ ended. ended.fault ≡ NoMemory };

    fn from(_error: hg_join::NoMemory) -> NotedFault {
        NotedFault {
            fault: RunFault::NoMemory,
            word: None,
        }
    }
}

/// The fault that ended the script of this text, with the line that gave the name which it is about, where that is
/// asked for. The lines with these numbers were refused.
pub fn with_origin(
    alloc: Global,
    fleet: &Fleet,
    text: &[u8],
    lost: &[usize],
    ended: NotedFault,
    notes: Notes,
) -> NotedFault
    ensures { result.fault ≡ ended.fault }
{
    let NotedFault { fault, word } = ended;
    match word {
        Some(word) if notes.explains => NotedFault {
            fault,
            word: Some(put_origin(alloc, fleet, text, lost, fault, word)),
        },
        word => NotedFault { fault, word },
    }
}

// The word, and behind it what is told of the line that gave it, where there is memory for that.
fn put_origin(
    alloc: Global,
    fleet: &Fleet,
    text: &[u8],
    lost: &[usize],
    fault: RunFault,
    mut word: String,
) -> String {
    match origin_of(alloc, fleet, text, lost, fault) {
        Ok(Some(origin)) => {
            let _ = word.push_str(&origin);
            word
        }
        Ok(None) | Err(_) => word,
    }
}

/// Does the line with this number, and writes what it shows with its notes. A line without words does nothing. It
/// counts what was refused.
#[tactic(auto, using(crate::proofs::GrowLemmas::grows_stays))]
pub fn tell_line<W: Write>(
    alloc: Global,
    fleet: &mut Fleet,
    number: usize,
    line: &[u8],
    writer: &mut W,
    notes: Notes,
) -> Result<usize, NotedFault>
    ensures done { IfOk result (λ refused. (t : Trace) × (output : Text)
        × WritesLine notes number fleet.old line.now t fleet.new output
        × Printed (W.contents writer.old) output (W.contents writer.new) × (refused ≡ refusals t)) }
    ensures few { IfOk result (λ refused. refused ≤ 2) }
    ensures stopped { IfErr result (λ ended. StopsAt notes number fleet.old line.now ended.fault) }
    ensures unwritten { IfErr result (λ ended. IsOfLine ended.fault → W.contents writer.new ≡ W.contents writer.old) }
    ensures grows { OnErr result (Grows (W.contents writer.old) (W.contents writer.new)) }
{
    if !is_short(line) {
        return Err(NotedFault::from(RunFault::Line(number, LineFault::TooLong)));
    }
    let words = words_of(alloc, line)?;
    let words = words.as_slice();
    if words.is_empty() {
        return Ok(0);
    }
    tell_words(alloc, fleet, number, line, words, writer, notes)
}

// Does the line of these words, and writes what it shows with its notes. It counts what was refused.
#[tactic(auto, using(crate::proofs::GrowLemmas::grows_stays))]
fn tell_words<W: Write>(
    alloc: Global,
    fleet: &mut Fleet,
    number: usize,
    line: &[u8],
    words: &[&[u8]],
    writer: &mut W,
    notes: Notes,
) -> Result<usize, NotedFault>
    requires has { HasWords line.now words.now }
    requires some { words.now ≢ [] }
    ensures done { IfOk result (λ refused. (t : Trace) × (output : Text)
        × WritesLine notes number fleet.old line.now t fleet.new output
        × Printed (W.contents writer.old) output (W.contents writer.new) × (refused ≡ refusals t)) }
    ensures few { IfOk result (λ refused. refused ≤ 2) }
    ensures stopped { IfErr result (λ ended. StopsAt notes number fleet.old line.now ended.fault) }
    ensures unwritten { IfErr result (λ ended. IsOfLine ended.fault → W.contents writer.new ≡ W.contents writer.old) }
    ensures grows { OnErr result (Grows (W.contents writer.old) (W.contents writer.new)) }
{
    let before = unstable_before(fleet, words, notes.traces)?;
    let mut text = Vec::new(alloc);
    match show_line(alloc, fleet, number, line, notes, &mut text) {
        Ok(outcome) => {
            let done = Done {
                number,
                outcome,
                before,
            };
            push_notes(alloc, fleet, words, &done, notes, &mut text)?;
            write_text(&text, writer)?;
            Ok(done.outcome.refusals())
        }
        Err(fault) => {
            keep_printed(&text, writer);
            Err(blamed(alloc, fleet, words, in_text(fault), notes))
        }
    }
}

// Does the line, and puts what it shows into the empty text.
fn show_line(
    alloc: Global,
    fleet: &mut Fleet,
    number: usize,
    line: &[u8],
    notes: Notes,
    text: &mut Vec<u8>,
) -> Result<LineOutcome, RunFault>
    requires { text.old.items ≡ [] }
    ensures done { IfOk result (λ outcome.
        IsLineShown notes.refusals_alone number fleet.old line.now outcome fleet.new text.new.items) }
    ensures stopped { IfErr result (EndsAt number fleet.old line.now) }
    ensures unshown { IfErr result (λ fault. IsOfLine fault → text.new.items ≡ []) }
{
    if notes.refusals_alone {
        show_refusals(alloc, fleet, number, line, text)
    } else {
        show_printed(alloc, fleet, number, line, text)
    }
}

// Does the line, and puts what it prints into the empty text.
fn show_printed(
    alloc: Global,
    fleet: &mut Fleet,
    number: usize,
    line: &[u8],
    text: &mut Vec<u8>,
) -> Result<LineOutcome, RunFault>
    requires { text.old.items ≡ [] }
    ensures done { IfOk result (λ outcome.
        IsLineShown false number fleet.old line.now outcome fleet.new text.new.items) }
    ensures stopped { IfErr result (EndsAt number fleet.old line.now) }
    ensures unshown { IfErr result (λ fault. IsOfLine fault → text.new.items ≡ []) }
{
    let mut buffers = EntryBuffers::new(alloc);
    match run_line(alloc, fleet, number, line, &mut buffers, text) {
        Ok(outcome) => Ok(outcome),
        Err(fault) => Err(fault),
    }
}

// Does the line, and puts a sentence of each of its refusals into the empty text.
fn show_refusals(
    alloc: Global,
    fleet: &mut Fleet,
    number: usize,
    line: &[u8],
    text: &mut Vec<u8>,
) -> Result<LineOutcome, RunFault>
    requires { text.old.items ≡ [] }
    ensures done { IfOk result (λ outcome.
        IsLineShown true number fleet.old line.now outcome fleet.new text.new.items) }
    ensures stopped { IfErr result (EndsAt number fleet.old line.now) }
    ensures unshown { IfErr result (λ fault. IsOfLine fault → text.new.items ≡ []) }
{
    let mut buffers = EntryBuffers::new(alloc);
    match run_line(alloc, fleet, number, line, &mut buffers, &mut sink()) {
        Ok(outcome) => match print_refusals(alloc, text, LineName::Sentence(number), &outcome) {
            Ok(()) => Ok(outcome),
            Err(fault) => Err(fault.at_line(number)),
        },
        Err(fault) => Err(fault),
    }
}

/// What ended a line that printed into a text: such a write is refused for want of memory alone.
pub(crate) fn in_text(fault: RunFault) -> RunFault
    ensures { result ≡ in_text_fault fault }
{
    match fault {
        RunFault::Write => RunFault::NoMemory,
        _ => fault,
    }
}

fn write_text<W: Write>(text: &[u8], writer: &mut W) -> Result<(), RunFault>
    ensures written { OnOk result (Printed (W.contents writer.old) text.now (W.contents writer.new)) }
    ensures err { IfErr result (λ fault. fault ≡ RunFault.Write) }
    ensures some { OnErr result (text.now ≢ []) }
    ensures grows { OnErr result (Grows (W.contents writer.old) (W.contents writer.new)) }
{
    if text.is_empty() {
        return Ok(());
    }
    match write_bytes(text, writer) {
        Ok(()) => Ok(()),
        Err(_) => Err(RunFault::Write),
    }
}

// What was printed before a fault stays, where it can be written.
fn keep_printed<W: Write>(text: &[u8], writer: &mut W)
    ensures stays { text.now ≡ [] → W.contents writer.new ≡ W.contents writer.old }
    ensures grows { Grows (W.contents writer.old) (W.contents writer.new) }
{
    if text.is_empty() {
        return;
    }
    let _ = write_bytes(text, writer);
}

// Appends to what the line of these words printed what is told of it.
fn push_notes(
    alloc: Global,
    fleet: &Fleet,
    words: &[&[u8]],
    done: &Done,
    notes: Notes,
    text: &mut Vec<u8>,
) -> Result<(), AllocError>
    ensures { OnOk result (IsAnnotated notes text.old.items text.new.items) }
{
    explain(alloc, fleet, words, &done.outcome, notes.explains, text)?;
    trace(alloc, fleet, words, done, notes.traces, text)
}

// The fault that ended the script, with the word that it is about where that is asked for and there is memory for it.
fn blamed(
    alloc: Global,
    fleet: &Fleet,
    words: &[&[u8]],
    fault: RunFault,
    notes: Notes,
) -> NotedFault
    ensures { result.fault ≡ fault }
{
    if !notes.explains {
        return NotedFault::from(fault);
    }
    match word_of(alloc, fleet, words, fault) {
        Ok(word) => NotedFault { fault, word },
        Err(_) => NotedFault::from(fault),
    }
}

// The word that the fault is about, as it is printed.
fn word_of(
    alloc: Global,
    fleet: &Fleet,
    words: &[&[u8]],
    fault: RunFault,
) -> Result<Option<String>, CommandFault> {
    let fault = match fault {
        RunFault::Line(_, fault) => fault,
        _ => return Ok(None),
    };
    match word_at_fault(alloc, fleet, words, fault)? {
        Some(blamed) => {
            let word = blamed.word();
            Ok(Some(helpful(alloc, word, hint_at_fault(words, fault, word))?))
        }
        None => Ok(None),
    }
}

// The word as it is printed, with what helps.
fn helpful(alloc: Global, word: &[u8], hint: Option<Hint>) -> Result<String, AllocError> {
    let (help, end) = match hint {
        Some(Hint::Form(form)) => return String::from_str(alloc, form),
        Some(Hint::Behind(help)) => (help, ")"),
        Some(Hint::Misspelt(command)) => (command, "?)"),
        None => return printable(alloc, word),
    };
    let mut text = printable(alloc, word)?;
    text.push_str(" (")?;
    text.push_str(help)?;
    text.push_str(end)?;
    Ok(text)
}
