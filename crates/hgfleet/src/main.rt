//! `hgfleet` runs scripts of a fleet of Mercurial repositories, draws the histories that they leave, shows and writes
//! bytes of Mercurial's formats, and lets nodes that threads share race.
//!
//! The arguments say what is wanted (`arguments`), and each command goes from a reader to a writer (`commands`), here
//! from standard input to standard output: scripts by `hg_script`, drawings by `hg_log`, bytes by `hg_show`, and a race
//! by `hg_race`. The status says what came of it.
#![tactic(auto)]

ghost use Rattle.std.specs.Prelude.{◌≡◌, IfOk, MatchResult};
ghost use Rattle.std.specs.Io.Buffered.{writer_buffer, writer_contents};
ghost use Rattle.std.specs.Io.KnownBytes.{Keeps};
ghost use Rattle.std.specs.Process.{exit_status};
ghost use Rattle.hgfleet.specs.Answers.{IsProgramAnswer, IsFlushed};
ghost use Rattle.hgfleet.specs.Arguments.{IsWithinBounds};
ghost use Rattle.hgfleet.specs.Commands.{failure_status};

mod arguments;
mod check_arguments;
mod checking;
mod commands;
mod drawing;
mod failure;
mod fates;
mod files;
mod node_arguments;
mod terminal;
mod tips;
mod try_arguments;
mod trying;

use arguments::{ArgumentFault, Wanted, read_args};
use commands::perform;
use failure::Failure;
use hg_script::RunFault;
use std::env::{Env, VarError};
use std::io::{BufRead, BufWriter, ErrorKind, IsTerminal, Write};
use std::process::ExitCode;
use std::random::RandomSource;
use std::rt::Files;
use std::sync::Wait;
use std::thread::Threads;
use std::{env, io};
use terminal::{invitation, objection};
use tips::file_tip;

fn main(rt: HostRuntime) -> ExitCode {
    match read_wanted(&rt) {
        Ok(wanted) => match objection(&wanted) {
            Some(text) if rt.stdout().is_terminal() => {
                let _ = eprintln!(rt; "{text}");
                ExitCode::from(2)
            }
            _ => {
                if rt.stdin().is_terminal() {
                    invite(&rt, &wanted);
                }
                let is_coloured = takes_colours(&rt, rt.stdout().is_terminal());
                match BufWriter::new(rt.alloc(), io::writer(&rt)) {
                    Ok(mut writer) => {
                        let mut reader = rt.reader();
                        answer(
                            &rt,
                            &wanted,
                            is_coloured,
                            &mut reader,
                            &mut writer,
                            &rt.stderr(),
                        )
                    }
                    Err(_) => finish(&rt.stderr(), Err(Failure::Run(RunFault::NoMemory))),
                }
            }
        },
        Err(fault) => {
            // The status says what was wrong, also where the text can't be written.
            let _ = eprint!(rt; "{fault}");
            if let Some(tip) = file_tip(&rt) {
                let _ = eprintln!(rt; "{tip}");
            }
            ExitCode::from(fault.status())
        }
    }
}

// Says that standard input is read, if it is.
fn invite(rt: &impl Eprint, wanted: &Wanted) {
    if let Some(text) = invitation(wanted) {
        let _ = eprintln!(rt; "{text}");
    }
}

// Whether colours may be sent to standard output: to a terminal, or to what hands it on to one and says so, where the
// environment doesn't forbid them.
fn takes_colours(rt: &(impl Env + AllocGlobal), is_terminal: bool) -> bool {
    (is_terminal || is_set(rt, "CLICOLOR_FORCE")) && !is_set(rt, "NO_COLOR")
}

// Whether the environment has a variable of this name that isn't empty.
fn is_set(rt: &(impl Env + AllocGlobal), name: &str) -> bool {
    match env::var(rt, name) {
        Ok(text) => !text.is_empty(),
        Err(VarError::NotUnicode) => true,
        Err(_) => false,
    }
}

// Does what is wanted, from a reader to a writer. Why lines were refused, and what failed, goes to the other stream;
// where it can't be written there, the status is the same.
fn answer<
    H: AllocGlobal + RandomSource + Files + Threads + Wait + Sync,
    R: BufRead,
    W: Write + Drop,
    E: Print,
>(
    rt: &H,
    wanted: &Wanted,
    is_coloured: bool,
    reader: &mut R,
    writer: &mut BufWriter<W>,
    errors: &E,
) -> ExitCode
    requires { IsWithinBounds wanted.now }
    ensures { IsProgramAnswer wanted.now is_coloured (R.remaining reader.old) (R.remaining reader.new)
        (writer_contents W.contents writer.old) (writer_contents W.contents writer.new) (writer_buffer writer.new)
        (exit_status result) }
{
    let mut refusals = Vec::new(rt.alloc());
    let done = perform(rt, wanted, is_coloured, reader, writer, &mut refusals);
    let flushed = flush_behind(done, writer);
    // What is shown stands where it can't be told what it is without.
    let _ = errors.write_all(&refusals);
    finish(errors, flushed)
}

// Hands on what waits in the buffer behind a command that ended so.
fn flush_behind<'a, W: Write + Drop>(
    done: Result<(), Failure<'a>>,
    writer: &mut BufWriter<W>,
) -> Result<(), Failure<'a>>
    ensures stays { Keeps (writer_contents W.contents writer.old) (writer_contents W.contents writer.new) }
    ensures flushed { IsFlushed done.entry (writer_buffer writer.new) result }
{
    match writer.flush() {
        Ok(()) => done,
        Err(error) => Err(unflushed(done, error.kind() == ErrorKind::BrokenPipe)),
    }
}

// Why a command failed that ended so, where what waited in the buffer couldn't be written. Where nobody reads it any
// more, and nothing else went wrong, that isn't told.
#[tactic(auto, using(crate::proofs::FlushLemmas::write_status))]
fn unflushed<'a>(done: Result<(), Failure<'a>>, is_closed: bool) -> Failure<'a>
    ensures { MatchResult done.entry (λ _. failure_status result ≡ 1)
        (λ failure. failure_status result ≡ failure_status failure) }
{
    match done {
        Ok(()) => {
            if is_closed {
                Failure::OutputClosed
            } else {
                Failure::Run(RunFault::Write)
            }
        }
        Err(failure) => {
            if is_closed && failure.is_unwritten() {
                return Failure::OutputClosed;
            }
            failure
        }
    }
}

// The status of a command, after its failure was told. One that can't be written leaves the status as it is.
fn finish<E: Print>(errors: &E, done: Result<(), Failure<'_>>) -> ExitCode
    ensures { MatchResult done.entry (λ _. exit_status result ≡ 0)
        (λ failure. exit_status result ≡ failure_status failure) }
{
    match done {
        Ok(()) => ExitCode::SUCCESS,
        Err(Failure::OutputClosed) => ExitCode::from(1),
        Err(failure) => {
            let _ = println!(errors; "{failure}");
            ExitCode::from(failure.status())
        }
    }
}

fn read_wanted(rt: &(impl Env + AllocGlobal)) -> Result<Wanted, ArgumentFault>
    ensures { IfOk result IsWithinBounds }
{
    let words: Vec<String> = match env::args(rt) {
        Ok(words) => words.collect(rt.alloc())?,
        Err(error) if error.kind() == ErrorKind::OutOfMemory => return Err(ArgumentFault::NoMemory),
        Err(_) => return Err(ArgumentFault::NotText),
    };
    let mut texts = Vec::new(rt.alloc());
    for word in &words {
        texts.push(word.as_str())?;
    }
    read_args(rt.alloc(), &texts)
}
