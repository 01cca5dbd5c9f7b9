//! The arguments of a trial and of a comparison.
ghost use Rattle.std.specs.Prelude.{◌≡◌, IfOk, Some, codes, false, option_map, string_bytes};
ghost use Rattle.clap.specs.Words.{found_of, kind_of, rows_of};
ghost use Rattle.hgfleet.specs.Arguments.{MeetsWanted};
ghost use Rattle.hgfleet.specs.TryArguments.{account_given, account_of_log, account_without_log, compare_app};
ghost use Rattle.hgfleet.specs.TryArguments.{file_rule, is_hyphen, target_rule, try_app, try_log_app, words_rule};
ghost use Rattle.hgfleet.specs.Builders.{IsArgument, IsCommand};

use crate::arguments::{
    Wanted, command_of, described, flag_of, mistake, text_of, value_argument, with_argument,
    with_flag, words_of,
};
use clap::error::ErrorKind;
use clap::{Arg, ArgMatches, Command, Error};
use std::alloc::{AllocError, Global};

/// What is printed of a trial.
#[derive(Clone, Copy)]
pub enum Account {
    /// What each message was answered.
    Answers,
    /// The same, and below it the history of what stands then.
    Log { shows_hidden: bool },
    /// The same, and below it why changesets are unstable then.
    Why,
    /// A graph for Graphviz of what stands then, and nothing else.
    Graph { shows_hidden: bool },
    /// An array of JSON of all that stands then, and nothing else.
    Array,
}

/// What is tried, and what comes of that.
#[derive(Drop)]
pub struct WantedTrial {
    /// The files whose messages are taken, in this order.
    pub files: Vec<String>,
    /// What is printed.
    pub account: Account,
    /// The file that a message of all that stands then is written to, if any.
    pub target: Option<String>,
}

// What would become of a repository.
const TRY_HELP: &str = "\
Takes the messages of the files one after the other, each whole or not at all, into a repository that holds nothing at
first: yours, and then what others would give it. `tools/hg2fleet REPOSITORY > FILE` makes such a file. What each is
answered is printed, as
  take mine: 3 changesets 0 markers
  take theirs: 1 changesets 1 markers
    becomes orphan: c b06140a4ddf1
    becomes suspended: b 80984185711b
or why it is refused; the next ones are taken all the same. The file - is standard input.

What stands then is shown below, where that is asked for, under the name trial: with --log its history, as `hgfleet log`
draws that of a node, and with --why what is unstable, as `hgfleet why` tells it, but without lines of a script. With
--log --dot a graph in the language of Graphviz is all that is printed, and with --json an array of all changesets,
hidden or not; what messages were answered is then told on standard error, and only where one was refused.

With --write TARGET a message of all that stands then goes to the file TARGET, whichever else is printed, also where a
message was refused; other trials and comparisons take it in.

Statuses: 0 done, 1 a message that is refused, a file that can't be read or written, or a text that can't be written,
2 wrong arguments, 3 want of memory.

For example:
  hgfleet try mine.message theirs.message
  hgfleet try --log --hidden mine.message theirs.message
  hgfleet try --write both.message mine.message theirs.message";

// In what two repositories differ.
const COMPARE_HELP: &str = "\
Prints in what the repositories of two files of messages differ, and whether they agree, as
  mine lacks: b2 83b46e4ca910
  mine lacks: 1 markers
  phases differ: a f96ca39738e6: draft/public
  agree: no
Both hold a changeset whose phases differ: the first one has it in the phase before the slash. A message of what is
served, as of `tools/hg2fleet --served`, lacks all that is hidden there. The file - is standard input.

Statuses: 0 they agree, 1 they differ, a message that is refused, a file that can't be read, or a text that can't be
written, 2 wrong arguments, 3 want of memory.

For example:
  hgfleet compare mine.message theirs.message";

/// The command that tries messages: the names of files, one at least, and what is shown then.
pub(crate) fn try_command<'a>(alloc: Global) -> Result<Command<'a>, AllocError>
    ensures { IfOk result (IsCommand try_app) }
{
    let command = with_flag(
        alloc,
        try_with_log(alloc),
        "why",
        "Tells why changesets are unstable then",
    );
    let command = with_flag(
        alloc,
        command,
        "json",
        "Prints an array of JSON of what stands then, and nothing else",
    );
    let command = with_argument(command, target_argument(alloc));
    with_argument(
        command,
        words_argument(alloc, "files", "FILE", "The messages, yours first"),
    )
}

// The same command with the flag of a log and those for how it is drawn.
fn try_with_log<'a>(alloc: Global) -> Result<Command<'a>, AllocError>
    ensures { IfOk result (IsCommand try_log_app) }
{
    let command = Ok(command_of(
        alloc,
        "try",
        "Tells what would become of a repository that takes messages in",
        TRY_HELP,
        "hgfleet try [--log [--hidden] [--dot] | --why | --json] [--write <TARGET>] <FILE>...",
    ));
    let command = with_flag(alloc, command, "log", "Draws what stands then");
    let command = with_flag(
        alloc,
        command,
        "hidden",
        "With --log: draws what is hidden, too",
    );
    with_flag(
        alloc,
        command,
        "dot",
        "With --log: prints a graph in the language of Graphviz, and nothing else",
    )
}

// The file that is written.
fn target_argument<'a>(alloc: Global) -> Arg<'a>
    ensures { IsArgument target_rule result }
{
    value_argument(
        alloc,
        "write",
        "TARGET",
        "Writes a message of all that stands then to the file TARGET",
    )
    .long("write")
}

/// Words, one at least.
pub(crate) fn words_argument<'a>(
    alloc: Global,
    name: &'a str,
    shown: &'a str,
    help: &'a str,
) -> Arg<'a>
    ensures { IsArgument (words_rule name.entry.now) result }
{
    needed_argument(alloc, name, shown, help).num_args(1..)
}

/// The command that compares the repositories of two messages.
pub(crate) fn compare_command<'a>(alloc: Global) -> Result<Command<'a>, AllocError>
    ensures { IfOk result (IsCommand compare_app) }
{
    let about = "Tells in what two repositories differ";
    let compare = described(alloc, "compare", about, COMPARE_HELP);
    let compare = with_argument(
        Ok(compare),
        needed_argument(alloc, "first", "FIRST", "The message of the one"),
    );
    with_argument(
        compare,
        needed_argument(alloc, "second", "SECOND", "The message of the other"),
    )
}

/// A word, which must be given.
pub(crate) fn needed_argument<'a>(
    alloc: Global,
    name: &'a str,
    shown: &'a str,
    help: &'a str,
) -> Arg<'a>
    ensures { IsArgument (file_rule name.entry.now) result }
{
    value_argument(alloc, name, shown, help).required(true)
}

/// That the messages of these files are tried, with this account of it, none where flags exclude each other, or
/// standard output is to be the file that is written.
pub(crate) fn try_of(alloc: Global, given: &ArgMatches<'_>) -> Result<Option<Wanted>, AllocError>
    ensures { IfOk result (MeetsWanted (Some (codes "try", rows_of (found_of given.now)))) }
{
    let target = text_of(given, "write");
    if is_hyphen(target) {
        return Ok(None);
    }
    match account_of(given) {
        Some(account) => {
            let files = words_of(alloc, given, "files")?;
            let target = copy_of(alloc, target)?;
            Ok(Some(Wanted::Try(WantedTrial {
                files,
                account,
                target,
            })))
        }
        None => Ok(None),
    }
}

// Whether the text is the name that stands for a stream.
fn is_hyphen(text: Option<&str>) -> bool
    ensures { result ≡ is_hyphen (option_map (λ s. s.now) text.entry) }
{
    match text {
        Some(text) => text == "-",
        None => false,
    }
}

/// A copy of the text, where there is one.
pub(crate) fn copy_of(alloc: Global, text: Option<&str>) -> Result<Option<String>, AllocError>
    ensures { IfOk result (λ copy. option_map string_bytes copy ≡ option_map (λ s. s.now) text.entry) }
{
    match text {
        Some(text) => {
            let copy = String::from_str(alloc, text)?;
            Ok(Some(copy))
        }
        None => Ok(None),
    }
}

// What is printed of a trial with these flags, none where they exclude each other.
fn account_of(given: &ArgMatches<'_>) -> Option<Account>
    ensures { result ≡ account_given (rows_of (found_of given.now)) }
{
    let shows_hidden = flag_of(given, "hidden");
    let is_graph = flag_of(given, "dot");
    let tells_why = flag_of(given, "why");
    let is_array = flag_of(given, "json");
    if flag_of(given, "log") {
        account_of_log(tells_why || is_array, shows_hidden, is_graph)
    } else {
        account_without_log(is_graph, is_array, shows_hidden, tells_why)
    }
}

// What is printed where a log is asked for, none where something else is too.
fn account_of_log(has_others: bool, shows_hidden: bool, is_graph: bool) -> Option<Account>
    ensures { result ≡ account_of_log has_others shows_hidden is_graph }
{
    match (has_others, is_graph) {
        (false, false) => Some(Account::Log { shows_hidden }),
        (false, true) => Some(Account::Graph { shows_hidden }),
        (true, _) => None,
    }
}

// What is printed where no log is asked for, none where it is said how one is drawn, or two accounts are asked for. An
// array has what is hidden anyway.
fn account_without_log(
    is_graph: bool,
    is_array: bool,
    shows_hidden: bool,
    tells_why: bool,
) -> Option<Account>
    ensures { result ≡ account_without_log is_graph is_array shows_hidden tells_why }
{
    match (is_graph, is_array, shows_hidden, tells_why) {
        (false, false, false, false) => Some(Account::Answers),
        (false, false, false, true) => Some(Account::Why),
        (false, false, true, _) => None,
        (false, true, _, false) => Some(Account::Array),
        (false, true, _, true) => None,
        (true, _, _, _) => None,
    }
}

/// The fault of a trial whose flags exclude each other.
pub(crate) fn excluding_flags(alloc: Global, words: &[&str]) -> Result<Error, AllocError>
    ensures { IfOk result (λ e. kind_of e ≡ ErrorKind.ArgumentConflict) }
{
    mistake(
        try_command(alloc),
        ErrorKind::ArgumentConflict,
        exclusion(words),
    )
}

// What is said of the first two flags that exclude each other, of one that says how a log is drawn, without it, or of
// standard output as the file that is written.
fn exclusion(words: &[&str]) -> &'static str {
    let draws_log = has_flag(words, "--log");
    let tells_why = has_flag(words, "--why");
    match (draws_log, tells_why, has_flag(words, "--json")) {
        (true, true, _) => "the argument '--log' cannot be used with '--why'",
        (true, false, true) => "the argument '--log' cannot be used with '--json'",
        (false, true, true) => "the argument '--why' cannot be used with '--json'",
        (false, _, _) if has_flag(words, "--dot") => {
            "the argument '--dot' cannot be used without '--log'"
        }
        (false, _, false) if has_flag(words, "--hidden") => {
            "the argument '--hidden' cannot be used without '--log'"
        }
        _ => "the argument '--write <TARGET>' cannot be used with '-'",
    }
}

// Whether the flag is among the words, of which those behind `--` are names.
fn has_flag(words: &[&str], flag: &str) -> bool {
    for word in words {
        if *word == "--" {
            return false;
        }
        if *word == flag {
            return true;
        }
    }
    false
}

/// That the repositories of these two are compared.
pub(crate) fn compare_of(
    alloc: Global,
    given: &ArgMatches<'_>,
) -> Result<Option<Wanted>, AllocError>
    ensures { IfOk result (MeetsWanted (Some (codes "compare", rows_of (found_of given.now)))) }
{
    let first = copy_of(alloc, text_of(given, "first"))?;
    let second = copy_of(alloc, text_of(given, "second"))?;
    match (first, second) {
        (Some(first), Some(second)) => Ok(Some(Wanted::Compare { first, second })),
        _ => Ok(None),
    }
}
