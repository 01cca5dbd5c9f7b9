//! The arguments of the program.
ghost use Rattle.std.specs.Prelude.{◌≡◌, ◌↔◌, ◌∷◌, map, ℕ, IsTrue, IfOk, codes};
ghost use Rattle.std.specs.Prelude.{Ok, Some, None, true, false, ◌≤◌, IfSome, option_map, pos};
ghost use Rattle.clap.specs.Words.{App, Rule, Text, app_of, first_of, found_of, kind_of, new_app, rows_of};
ghost use Rattle.clap.specs.Words.{subcommand_rows_of, with_rule, with_subcommand};
ghost use Rattle.clap.specs.declared.builder.value_parser.ValueParser.TheVariants.{Signed};
ghost use Rattle.hg_race.specs.Limits.{least_nodes, most_nodes, most_rounds};
ghost use Rattle.hgfleet.specs.declared.arguments.ArgumentFault.TheVariants.{NoMemory};
ghost use Rattle.hg_show.specs.declared.form.Form.TheVariants.{Store, Message};
ghost use Rattle.hgfleet.specs.Arguments.{ArgumentsAnswer, FormsAnswer, IsRun, IsMistake, MeetsWanted, NamesForms};
ghost use Rattle.hgfleet.specs.Arguments.{ParseAnswer, Words, command_met, faults_at, form_given, form_named};
ghost use Rattle.hgfleet.specs.Arguments.{form_rule, number_given, number_rule, program_alone, program_at, race, run};
ghost use Rattle.hgfleet.specs.Arguments.{show_at, texts_of, wanted_number, write_at};
ghost use Rattle.hgfleet.specs.Asked.{AreAskedFor};
ghost use Rattle.hgfleet.specs.Builders.{IsArgument, IsCommand, IsProgram, value_rule};
ghost use Rattle.hgfleet.specs.TryArguments.{flag_given, flag_rule, words_given};
ghost use Rattle.hgfleet.specs.Arguments.{argument_fault_number, argument_fault_status, argument_fault_text};

use crate::check_arguments::{check_command, check_of};
use crate::node_arguments::{fate, fate_of, log, log_of, two_pictures, why, why_of};
use crate::try_arguments::{
    WantedTrial, compare_command, compare_of, copy_of, excluding_flags, needed_argument,
    try_command, try_of,
};
use clap::builder::ValueParser;
use clap::error::ErrorKind;
use clap::{Arg, ArgAction, ArgMatches, Command, Error, value_parser};
use hg_show::Form;
use std::alloc::{AllocError, AllocFailed, Global};
use std::fmt;

/// What histories are drawn as.
#[derive(Clone, Copy)]
pub enum Picture {
    /// Columns of text.
    Text,
    /// A graph for Graphviz.
    Graph,
    /// One array of JSON.
    Json,
}

/// What the arguments ask for.
#[derive(Drop)]
pub enum Wanted {
    /// That the script of standard input is run.
    Run,
    /// That it is run with notes, of what refusals are about and of what accepted lines did, or so that a refused line
    /// is a failure.
    RunWithNotes {
        explains: bool,
        traces: bool,
        is_strict: bool,
    },
    /// That so many nodes race for so many rounds.
    Race {
        nodes: u8,
        rounds: u16,
    },
    /// That the histories of these nodes are drawn as the script of standard input leaves them, or its lines up to the
    /// one with this number, those of all nodes where none is named; with what is hidden, or without it.
    Log {
        nodes: Vec<String>,
        shows_hidden: bool,
        picture: Picture,
        line: Option<u32>,
    },
    /// That the bytes of standard input are read in this form and printed as text.
    Show(Form),
    /// That the store or the roots of the node of this name, or the message of this name, are written as bytes, as the
    /// script of standard input leaves them.
    Write {
        form: Form,
        name: String,
    },
    /// That it is told why changesets of these nodes are unstable as the script of standard input leaves them, of all
    /// nodes where none is named.
    Why(Vec<String>),
    /// That it is told what became of the changesets with these labels, as the script of standard input leaves them.
    Fate(Vec<String>),
    /// That messages are taken one after the other into a repository that holds nothing at first.
    Try(WantedTrial),
    /// That it is told in what the repositories of the messages of two files differ.
    Compare {
        first: String,
        second: String,
    },
    /// That it is told in what the script of standard input differs from what its lines print, or, where it is to be
    /// filled in, that it is written with that; and why lines were refused, or not.
    Check {
        fills: bool,
        explains: bool,
    },
    /// The help, which is this text.
    Help(String),
    /// The version, which is this text.
    Version(String),
}

/// Why the arguments ask for nothing.
#[derive(Drop)]
pub enum ArgumentFault {
    BadArguments(Error),
    NotText,
    NoMemory,
}

impl ArgumentFault {
    /// The number that a user reads: 1 for bad arguments, of which those that aren't text are some. Want of memory has
    /// none.
    pub fn number(&self) -> Option<u8>
        ensures { result ≡ argument_fault_number self.now }
    {
        match self {
            ArgumentFault::BadArguments(_) | ArgumentFault::NotText => Some(1),
            ArgumentFault::NoMemory => None,
        }
    }

    /// The exit status.
    pub fn status(&self) -> u8
        ensures { result ≡ argument_fault_status self.now }
    {
        match self.number() {
            Some(_) => 2,
            None => 3,
        }
    }
}

impl fmt::Display for ArgumentFault {
    ghost output = { argument_fault_text };

    fn fmt<W: fmt::Write>(&self, f: &mut fmt::Formatter<W>) -> fmt::Result {
        match self {
            ArgumentFault::BadArguments(error) => write!(f, "{error}"),
            ArgumentFault::NotText => write!(f, "error: the arguments aren't text\n"),
            ArgumentFault::NoMemory => write!(f, "no memory\n"),
        }
    }
}

impl From<AllocError> for ArgumentFault {
    ghost from_gives = { λ _ e. e ≡ NoMemory };

    fn from(_error: AllocError) -> ArgumentFault {
        ArgumentFault::NoMemory
    }
}

impl<T: Drop> From<AllocFailed<T>> for ArgumentFault {
    ghost from_gives = { λ _ e. e ≡ NoMemory };

    fn from(_error: AllocFailed<T>) -> ArgumentFault {
        ArgumentFault::NoMemory
    }
}

// The version, and for which toolchain it is. Whether this build was proved the program can't know.
const VERSION: &str = "0.1.0, for rattle-kit-13f logic dac8208d650f15bf";

/// What `--explain` says where refused lines aren't printed.
pub(crate) const EXPLAINED: &str =
    "As in run; lines that were refused are explained without it, too";

// What a script looks like, and what comes of it.
const SCRIPT_HELP: &str = "\
A script has a command on each line; the words are divided by spaces:
  node A              a new empty replica, A
  commit A b draft    at A, a changeset with the label b; its phase is draft or secret
  commit A c draft b  the same on the parent b; a second parent may follow
  amend A b c         another changeset, c, in place of b
  split A b c d       several changesets in place of b, each on the one before
  fold A d b c        one changeset, d, in place of several, each on the one before
  prune A b           nothing in place of b
  relocate A b c d    another changeset, c, in place of b, on the parent d; a second may follow
  phase A b public    b and its ancestors go to this phase, where theirs is higher
  pin A b             b and its ancestors stay in view at A, and are given to others, though b is obsolete
  unpin A b           takes that pin away
  offer A m b         keeps what A gives to whoever has b and its ancestors as the message m; any number of labels
  whole A m b         the same of all that A holds and isn't secret, hidden or not, with every marker
  take B m            B takes the message m in
  pull B A            B takes in what A offers
  share B A           B takes in all that A holds and isn't secret, with every marker
  report A            prints the changesets of A with their phases and instabilities, and counts them and the markers
  agree A B           prints whether A and B hold the same in the same phases
Empty lines and lines that begin with # are skipped.

Behind the phase of a changeset a report says which of these it is:
  obsolete           rewritten or pruned, and not public
  suspended          obsolete, and an orphan stands on it
  extinct            obsolete, and none does
  orphan             on an obsolete ancestor
  phase-divergent    made from what is public
  content-divergent  made from what was rewritten in another way too
  hidden             not shown, nor given to others

A line that a replica refuses changes nothing. What refused it is printed, as
  7: rewrite 3 Public
with the line's number, a word, and the refusal's number and name, with --explain
  7: rewrite 3 Public b
with what it is about, too; the script goes on.
A line that can't be read ends the script, and says so on standard error, as
  line 7: unknown command

Statuses: 0 done, 1 a script that ended early, or a refused line where that is strict,
2 wrong arguments, 3 want of memory.

For example:
  printf 'node A\\ncommit A a draft\\nreport A\\n' | hgfleet run";

// What a race does, and what comes of it.
const RACE_HELP: &str = "\
Each node has two threads. The first one commits a changeset in each round, amends it, reads both back and offers all
that its node serves to the next node of the ring. The second one takes in what was offered to its node. Then each
node takes all that the one before holds, twice round the ring. What is printed:
  nodes N                 how many nodes there were
  rounds R                how many rounds
  written W               the operations that were done and published, 2 a node and round
  read back W             the changesets that were read back and found
  agreeing pairs K of P   how many of the pairs of nodes hold the same in the end

Statuses: 0 done, 1 a text that can't be written, 2 wrong arguments, 3 want of memory.

For example:
  hgfleet race --nodes 4 --rounds 3";

// What bytes can be shown.
const SHOW_HELP: &str = "\
Reads the bytes of standard input and prints them as text. What they may be:
  store    a store of obsolescence markers in Mercurial's format 0, a line for each marker
  roots    the text of phase roots, a line for each root
  message  a message between nodes: its changesets, phases and markers
Bytes that have another form are a fault, which is told with its place.

Statuses: 0 done, 1 bytes of another form, or a stream that can't be read or written,
2 wrong arguments, 3 want of memory.

For example:
  hgfleet write store A < script | hgfleet show store";

// What bytes can be written.
const WRITE_HELP: &str = "\
Does the script of standard input, and then writes bytes to standard output. What they may be:
  store    the obsolescence markers of the node NAME, in Mercurial's format 0
  roots    the text of the phase roots of the node NAME
  message  the message that an offer of the script keeps as NAME
Lines that were refused are explained on standard error.

Statuses: 0 done, 1 a script that ended early or leaves no such name, or a text that
can't be written, 2 wrong arguments, 3 want of memory.

For example:
  printf 'node A\\ncommit A a draft\\namend A a b\\n' | hgfleet write store A > markers";

// The words that name the forms.
static FORMS: [&str; 3] = ["store", "roots", "message"];

/// Reads the words of a command line, the program's name first. A run has the word `run` alone, and one with notes some
/// flags behind it. A race has the number of its nodes, from 2 to 16, and that of its rounds, from 1 to 1,000. A log
/// may have names of nodes, the number of a line, from 1 to 1,048,576, and flags, of which those of two pictures
/// exclude each other. What is shown has a form, what is written a form and a name, and what is told names of nodes, or
/// labels, one at least. A trial has names of files and flags, of which those of two accounts exclude each other, and
/// maybe a file that is written, and a comparison has two names of files. A check may have a flag.
pub fn read_args(alloc: Global, words: &[&str]) -> Result<Wanted, ArgumentFault>
    ensures { ArgumentsAnswer (map (λ s. s.now) words.now) result }
{
    read_by_forms(alloc, FORMS.as_slice(), words)
}

// Reads the words where the forms have these names.
fn read_by_forms(alloc: Global, forms: &[&str], words: &[&str]) -> Result<Wanted, ArgumentFault>
    ensures { FormsAnswer forms.entry (map (λ s. s.now) words.now) result }
{
    match parse(alloc, forms, words) {
        Ok(Some(wanted)) => Ok(wanted),
        Ok(None) => {
            if is_run(words) {
                Ok(Wanted::Run)
            } else {
                Err(ArgumentFault::BadArguments(nothing_asked(alloc, words)?))
            }
        }
        Err(error) => match error.kind() {
            ErrorKind::DisplayHelp => Ok(Wanted::Help(error.to_string(alloc)?)),
            ErrorKind::DisplayVersion => Ok(Wanted::Version(error.to_string(alloc)?)),
            ErrorKind::OutOfMemory => Err(ArgumentFault::NoMemory),
            _ => Err(ArgumentFault::BadArguments(error)),
        },
    }
}

// Whether the words are the program's name, whatever it is, and `run`.
fn is_run(words: &[&str]) -> bool
    ensures { IsTrue result ↔ IsRun (map (λ s. s.now) words.now) }
{
    words.len() == 2 && names_run(words[1])
}

fn names_run(word: &str) -> bool
    ensures { IsTrue result ↔ (word.now ≡ codes "run") }
{
    word == "run"
}

// The fault of words that the parser takes and that ask for nothing. Those of a log ask for two pictures, and those of
// a trial have flags that exclude each other. A run has words that the parser passes over, as `--`.
fn nothing_asked(alloc: Global, words: &[&str]) -> Result<Error, AllocError>
    ensures { IfOk result IsMistake }
{
    if is_command(words, "log") {
        return two_pictures(alloc);
    }
    if is_command(words, "try") {
        return excluding_flags(alloc, words);
    }
    mistake(
        run(alloc),
        ErrorKind::UnknownArgument,
        "a run takes no further words",
    )
}

// Whether the words are those of this command.
fn is_command(words: &[&str], name: &str) -> bool {
    words.len() >= 2 && words[1] == name
}

// What the words ask for, where that is more than a run.
fn parse(alloc: Global, forms: &[&str], words: &[&str]) -> Result<Option<Wanted>, Error>
    ensures { ParseAnswer forms.entry (map (λ s. s.now) words.now) result }
{
    let command = program(alloc, forms)?;
    match command.try_get_matches_from(words) {
        Ok(matches) => Ok(wanted_of(alloc, &matches)?),
        Err(error) => Err(error),
    }
}

// What the command that was met asks for, where it is more than a run.
fn wanted_of(alloc: Global, matches: &ArgMatches<'_>) -> Result<Option<Wanted>, AllocError>
    ensures { IfOk result (MeetsWanted (subcommand_rows_of matches.now)) }
{
    match matches.subcommand() {
        Some((name, given)) => given_to(alloc, name, given),
        None => Ok(None),
    }
}

// What the command of this name asks for, by what is given to it.
fn given_to(alloc: Global, name: &str, given: &ArgMatches<'_>) -> Result<Option<Wanted>, AllocError>
    ensures { IfOk result (MeetsWanted (Some (name.now, rows_of (found_of given.now)))) }
{
    match name {
        "run" => Ok(run_of(given)),
        "race" => Ok(race_of(given)),
        "log" => log_of(alloc, given),
        "show" => Ok(show_of(given)),
        "write" => write_of(alloc, given),
        "why" => why_of(alloc, given),
        "fate" => fate_of(alloc, given),
        "try" => try_of(alloc, given),
        "compare" => compare_of(alloc, given),
        "check" => Ok(check_of(given)),
        _ => Ok(None),
    }
}

// The run of these flags, none where no flag is given.
fn run_of(run: &ArgMatches<'_>) -> Option<Wanted>
    ensures { MeetsWanted (Some (codes "run", rows_of (found_of run.now))) result }
{
    let explains = flag_of(run, "explain");
    let traces = flag_of(run, "trace");
    let is_strict = flag_of(run, "strict");
    if explains || traces || is_strict {
        Some(Wanted::RunWithNotes {
            explains,
            traces,
            is_strict,
        })
    } else {
        None
    }
}

// The race of these numbers, which lie within their bounds, and so fit.
fn race_of(race: &ArgMatches<'_>) -> Option<Wanted>
    ensures { MeetsWanted (Some (codes "race", rows_of (found_of race.now))) result }
{
    let nodes = number_of(race, "nodes", 2, 16)?;
    let rounds = number_of(race, "rounds", 1, 1_000)?;
    Some(Wanted::Race {
        nodes: nodes as u8,
        rounds: rounds as u16,
    })
}

/// The number that is given for the option of this name. The parser has refused the numbers out of range before.
pub(crate) fn number_of(given: &ArgMatches<'_>, name: &str, low: u32, high: u32) -> Option<u32>
    ensures given { result ≡ number_given name.now low high (rows_of (found_of given.now)) }
    ensures within { IfSome result (λ number. (low ≤ number) × (number ≤ high)) }
{
    match given.get_one::<u32>(name) {
        Some(number) if low <= number && number <= high => Some(number),
        _ => None,
    }
}

/// The words that are given for the argument of this name.
pub(crate) fn words_of(
    alloc: Global,
    given: &ArgMatches<'_>,
    name: &str,
) -> Result<Vec<String>, AllocError>
    ensures { IfOk result (λ words. texts_of words.items ≡ words_given name.now (rows_of (found_of given.now))) }
{
    match given.get_strs(name) {
        Some(words) => copies_of(alloc, words),
        None => Ok(Vec::new(alloc)),
    }
}

fn copies_of(alloc: Global, names: &[&str]) -> Result<Vec<String>, AllocError>
    ensures { IfOk result (λ copies. texts_of copies.items ≡ map (λ s. s.now) names.now) }
{
    let mut copies = Vec::with_capacity(alloc, names.len())?;
    for name in names {
        copies.push(String::from_str(alloc, name)?)?;
    }
    Ok(copies)
}

/// Whether the flag is given. `get_flag` promises nothing of a text that is neither `true` nor `false`.
pub(crate) fn flag_of(given: &ArgMatches<'_>, flag: &str) -> bool
    ensures { result ≡ flag_given flag.now (rows_of (found_of given.now)) }
{
    match given.get_one::<bool>(flag) {
        Some(is_given) => is_given,
        None => false,
    }
}

// The form of the bytes that are shown.
fn show_of(show: &ArgMatches<'_>) -> Option<Wanted>
    ensures { MeetsWanted (Some (codes "show", rows_of (found_of show.now))) result }
{
    let form = form_of(show)?;
    Some(Wanted::Show(form))
}

// The form of the bytes that are written, and the name of whose they are.
fn write_of(alloc: Global, write: &ArgMatches<'_>) -> Result<Option<Wanted>, AllocError>
    ensures { IfOk result (MeetsWanted (Some (codes "write", rows_of (found_of write.now)))) }
{
    match (form_of(write), copy_of(alloc, text_of(write, "name"))?) {
        (Some(form), Some(name)) => Ok(Some(Wanted::Write { form, name })),
        _ => Ok(None),
    }
}

// The form that is given. The parser has refused other words before.
fn form_of(given: &ArgMatches<'_>) -> Option<Form>
    ensures { result ≡ form_given (rows_of (found_of given.now)) }
{
    form_named(text_of(given, "form")?)
}

/// The text that is given for the argument of this name.
pub(crate) fn text_of<'a>(given: &ArgMatches<'a>, name: &str) -> Option<&'a str>
    ensures { option_map (λ s. s.now) result ≡ first_of name.now (rows_of (found_of given.now)) }
{
    given.get_str(name)
}

// The form of this name.
fn form_named(word: &str) -> Option<Form>
    ensures { result ≡ form_named word.now }
{
    match word {
        "store" => Some(Form::Store),
        "roots" => Some(Form::Roots),
        "message" => Some(Form::Message),
        _ => None,
    }
}

fn program<'a>(alloc: Global, forms: &'a [&'a str]) -> Result<Command<'a>, AllocError>
    ensures { IfOk result (λ command. app_of command ≡ program_at forms.entry) }
{
    let program = with_command(Ok(program_alone(alloc)), run(alloc));
    let program = with_command(program, race(alloc));
    let program = with_command(program, log(alloc));
    let program = with_command(program, show(alloc, forms));
    let program = with_command(program, write(alloc, forms));
    let program = with_command(program, why(alloc));
    let program = with_command(program, fate(alloc));
    let program = with_command(program, try_command(alloc));
    let program = with_command(program, compare_command(alloc));
    with_command(program, check_command(alloc))
}

// The program with this command too, where there was memory for both.
fn with_command<'a>(
    program: Result<Command<'a>, AllocError>,
    command: Result<Command<'a>, AllocError>,
) -> Result<Command<'a>, AllocError>
    ensures { (before app : App) → IfOk program.entry (IsProgram before) → IfOk command.entry (IsCommand app)
        → IfOk result (IsProgram (with_subcommand before app.top)) }
{
    program?.subcommand(command?)
}

// The program without its commands.
fn program_alone<'a>(alloc: Global) -> Command<'a>
    ensures { app_of result ≡ program_alone }
{
    let about = "Runs scripts of a fleet of Mercurial repositories";
    described(alloc, "hgfleet", about, SCRIPT_HELP)
        .version(VERSION)
        .subcommand_required(true)
}

fn run<'a>(alloc: Global) -> Result<Command<'a>, AllocError>
    ensures { IfOk result (IsCommand run) }
{
    let run = Ok(command_of(
        alloc,
        "run",
        "Does the script of standard input and prints its reports",
        SCRIPT_HELP,
        "hgfleet run [OPTIONS] < SCRIPT",
    ));
    let run = with_flag(
        alloc,
        run,
        "explain",
        "Says what each refusal is about, and which word is at fault",
    );
    let run = with_flag(alloc, run, "trace", "Says what each accepted line did");
    with_flag(
        alloc,
        run,
        "strict",
        "Ends with status 1 where a line was refused",
    )
}

/// A command without its arguments: its name, what it does in a line and at length, and how it is used.
pub(crate) fn command_of<'a>(
    alloc: Global,
    name: &'a str,
    about: &'a str,
    help: &'a str,
    usage: &'a str,
) -> Command<'a>
    ensures { IsCommand (new_app name.entry.now) result }
{
    described(alloc, name, about, help).override_usage(usage)
}

/// The same, where its arguments tell how it is used.
pub(crate) fn described<'a>(
    alloc: Global,
    name: &'a str,
    about: &'a str,
    help: &'a str,
) -> Command<'a>
    ensures { IsCommand (new_app name.entry.now) result }
{
    Command::new(alloc, name).about(about).after_help(help)
}

/// The command with this argument too, where there was memory for the command.
pub(crate) fn with_argument<'a>(
    command: Result<Command<'a>, AllocError>,
    argument: Arg<'a>,
) -> Result<Command<'a>, AllocError>
    ensures { (app : App) (rule : Rule) → IfOk command.entry (IsCommand app) → IsArgument rule argument.entry
        → IfOk result (IsCommand (with_rule app rule)) }
{
    command?.arg(argument)
}

/// The command with a flag `--NAME` too, where there was memory for the command.
pub(crate) fn with_flag<'a>(
    alloc: Global,
    command: Result<Command<'a>, AllocError>,
    name: &'a str,
    help: &'a str,
) -> Result<Command<'a>, AllocError>
    ensures { (app : App) → IfOk command.entry (IsCommand app)
        → IfOk result (IsCommand (with_rule app (flag_rule name.entry.now))) }
{
    command?.arg(flag(alloc, name, help))
}

/// The fault that has this text, of the words that are given to the command, where there was memory for the command.
pub(crate) fn mistake(
    command: Result<Command<'_>, AllocError>,
    kind: ErrorKind,
    text: &str,
) -> Result<Error, AllocError>
    ensures { IfOk result (λ e. kind_of e ≡ kind) }
{
    command?.error(kind, text)
}

fn race<'a>(alloc: Global) -> Result<Command<'a>, AllocError>
    ensures { IfOk result (IsCommand race) }
{
    let about = "Lets threads share nodes, and prints what came of it";
    let race = described(alloc, "race", about, RACE_HELP);
    let race = with_argument(Ok(race), race_nodes(alloc));
    with_argument(race, race_rounds(alloc))
}

// The number of a race's nodes.
fn race_nodes<'a>(alloc: Global) -> Arg<'a>
    ensures { IsArgument (wanted_number (codes "nodes") least_nodes most_nodes) result }
{
    let parser = value_parser!(u32).range(2..=16);
    number_argument(alloc, "nodes", "N (2 to 16)", parser, "How many nodes").required(true)
}

// The number of its rounds.
fn race_rounds<'a>(alloc: Global) -> Arg<'a>
    ensures { IsArgument (wanted_number (codes "rounds") 1 most_rounds) result }
{
    let parser = value_parser!(u32).range(1..=1_000);
    number_argument(alloc, "rounds", "R (1 to 1000)", parser, "How many rounds").required(true)
}

/// An option `--NAME VALUE`, whose value is a number that this parser takes.
pub(crate) fn number_argument<'a>(
    alloc: Global,
    name: &'a str,
    shown: &'a str,
    parser: ValueParser<'a>,
    help: &'a str,
) -> Arg<'a>
    ensures { (low high : ℕ) → parser.entry ≡ Signed (pos low) (pos high)
        → IsArgument (number_rule name.entry.now low high) result }
{
    value_argument(alloc, name, shown, help)
        .long(name)
        .value_parser(parser)
}

/// An argument with a value, which help shows by a name.
pub(crate) fn value_argument<'a>(
    alloc: Global,
    name: &'a str,
    shown: &'a str,
    help: &'a str,
) -> Arg<'a>
    ensures { IsArgument (value_rule name.entry.now) result }
{
    Arg::new(alloc, name).value_name(shown).help(help)
}

// A flag `--NAME`.
fn flag<'a>(alloc: Global, name: &'a str, help: &'a str) -> Arg<'a>
    ensures { IsArgument (flag_rule name.entry.now) result }
{
    Arg::new(alloc, name)
        .long(name)
        .action(ArgAction::SetTrue)
        .help(help)
}

fn show<'a>(alloc: Global, forms: &'a [&'a str]) -> Result<Command<'a>, AllocError>
    ensures { IfOk result (IsCommand (show_at forms.entry)) }
{
    let show = command_of(
        alloc,
        "show",
        "Prints the bytes of markers, phase roots or a message as text",
        SHOW_HELP,
        "hgfleet show <FORM> < BYTES",
    );
    with_argument(Ok(show), form_argument(alloc, forms))
}

fn write<'a>(alloc: Global, forms: &'a [&'a str]) -> Result<Command<'a>, AllocError>
    ensures { IfOk result (IsCommand (write_at forms.entry)) }
{
    let write = command_of(
        alloc,
        "write",
        "Writes markers, phase roots or a message of a script as bytes",
        WRITE_HELP,
        "hgfleet write [OPTIONS] <FORM> <NAME> < SCRIPT",
    );
    let write = with_argument(Ok(write), form_argument(alloc, forms));
    let write = with_argument(
        write,
        needed_argument(alloc, "name", "NAME", "The node, or the message"),
    );
    with_flag(alloc, write, "explain", EXPLAINED)
}

// The form of bytes, which must be given.
fn form_argument<'a>(alloc: Global, forms: &'a [&'a str]) -> Arg<'a>
    ensures { IsArgument (form_rule forms.entry) result }
{
    needed_argument(alloc, "form", "FORM", "What the bytes are").value_parser(forms)
}

/// The words by which help and the version are asked for, and some that ask for nothing.
pub fn what_words_ask_for()
    ensures { (forms : Words) (name : Text) → NamesForms forms
        → AreAskedFor (λ ws. faults_at forms (name ∷ ws)) (λ ws. command_met forms (name ∷ ws)) }
{}
