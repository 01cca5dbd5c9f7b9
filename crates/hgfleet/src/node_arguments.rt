//! The arguments of what is drawn and told of the nodes that a script leaves.
ghost use Rattle.std.specs.Prelude.{◌≡◌, IfOk, Some, codes, false};
ghost use Rattle.clap.specs.Words.{found_of, kind_of, rows_of};
ghost use Rattle.hgfleet.specs.Arguments.{MeetsWanted, fate, line_rule, log, log_flags, nodes_rule, picture_of, why};
ghost use Rattle.hgfleet.specs.Builders.{IsArgument, IsCommand};

use crate::arguments::{
    EXPLAINED, Picture, Wanted, command_of, flag_of, mistake, number_argument, number_of,
    value_argument, with_argument, with_flag, words_of,
};
use crate::try_arguments::words_argument;
use clap::error::ErrorKind;
use clap::{Arg, ArgMatches, Command, Error, value_parser};
use std::alloc::{AllocError, Global};

// How a node's history is drawn.
const LOG_HELP: &str = "\
Does the script of standard input, and then draws the history of each node that is named, as it is at the end; where
none is named, that of every node. The newest changeset comes first. Each has a line:
  o  what is neither obsolete nor unstable
  x  what is obsolete
  *  what is unstable: an orphan, phase-divergent or content-divergent
  #  what is hidden, with --hidden alone
Lines lead from it to its parents. Beside it stand its short id, its label, its phase and its instabilities, and below
an obsolete one what it was rewritten to. With --dot the same is a graph in the language of Graphviz, with --json an
array that has an object for each changeset. With --at it is drawn as it is behind that line of the script, and what
stands below isn't done. At a terminal ids and instabilities have colours, unless NO_COLOR is set. Lines that were
refused are explained on standard error.

Statuses: 0 done, 1 a script that ended early, leaves no such name or has fewer lines,
or a text that can't be written, 2 wrong arguments, 3 want of memory.

For example:
  printf 'node A\\ncommit A a draft\\namend A a b\\n' | hgfleet log --hidden A
  printf 'node A\\ncommit A a draft\\namend A a b\\n' | hgfleet log --at 2";

// What is told of unstable changesets.
const WHY_HELP: &str = "\
Does the script of standard input, and then tells of each node that is named, as it is at the end, why changesets are
unstable; where none is named, of every node. Each unstable changeset has its name and its short id, and below that
  orphan                  of which parent, and what became of that
  phase-divergent         from which public changeset it was made
  content-divergent       with which changesets, and from which one all of them come
Below an orphan stands the line of a script that moves it to where its parent went, or, where that left nothing, onto
what its parent stood on, if there is such a changeset. Phase-divergence ends where the changeset is pruned, and
content-divergence where all of these changesets but one are. Lines that were refused are explained on standard error.

Statuses: 0 done, 1 a script that ended early or leaves no such name, or a text that
can't be written, 2 wrong arguments, 3 want of memory.

For example:
  printf 'node A\\ncommit A a draft\\ncommit A b draft a\\namend A a c\\n' | hgfleet why";

// What is told of the fates of changesets.
const FATE_HELP: &str = "\
Does the script of standard input, and then tells of each changeset whose label is given what became of it, at each node
that knows of it, as it is at the end: a line with the sets of changesets that stand in its place, as
  fate of feature at alice: {feature-bob} or {feature-alice}
A changeset that wasn't rewritten stands in its own place; where none does, it was pruned. A node knows of what it holds
and of what its markers rewrote. Lines that were refused are explained on standard error.

Statuses: 0 done, 1 a script that ended early or gives no such label, or a text that
can't be written, 2 wrong arguments, 3 want of memory.

For example:
  printf 'node A\\ncommit A a draft\\namend A a b\\n' | hgfleet fate a b";

/// The command that draws histories, with its flags and the names of nodes.
pub(crate) fn log<'a>(alloc: Global) -> Result<Command<'a>, AllocError>
    ensures { IfOk result (IsCommand log) }
{
    let log = with_argument(log_with_flags(alloc), line_argument(alloc));
    with_argument(log, nodes_argument(alloc))
}

// The same command with its flags alone.
fn log_with_flags<'a>(alloc: Global) -> Result<Command<'a>, AllocError>
    ensures { IfOk result (IsCommand log_flags) }
{
    let log = Ok(command_of(
        alloc,
        "log",
        "Draws the histories of the nodes of a script",
        LOG_HELP,
        "hgfleet log [OPTIONS] [NODE]... < SCRIPT",
    ));
    let log = with_flag(alloc, log, "hidden", "Draws what is hidden, too");
    let log = with_flag(
        alloc,
        log,
        "dot",
        "Prints a graph in the language of Graphviz",
    );
    let log = with_flag(alloc, log, "json", "Prints an array of JSON");
    with_flag(alloc, log, "explain", EXPLAINED)
}

// The line behind which histories are drawn.
fn line_argument<'a>(alloc: Global) -> Arg<'a>
    ensures { IsArgument line_rule result }
{
    number_argument(
        alloc,
        "at",
        "LINE",
        value_parser!(u32).range(1..=1_048_576),
        "Draws what stands behind this line of the script, from 1 on",
    )
}

// The names of nodes, any number of them.
fn nodes_argument<'a>(alloc: Global) -> Arg<'a>
    ensures { IsArgument nodes_rule result }
{
    value_argument(
        alloc,
        "nodes",
        "NODE",
        "The nodes that are meant, all where none is named",
    )
    .num_args(0..)
}

/// The command that tells why changesets are unstable, with the names of nodes.
pub(crate) fn why<'a>(alloc: Global) -> Result<Command<'a>, AllocError>
    ensures { IfOk result (IsCommand why) }
{
    let why = command_of(
        alloc,
        "why",
        "Tells why changesets of a script's nodes are unstable",
        WHY_HELP,
        "hgfleet why [OPTIONS] [NODE]... < SCRIPT",
    );
    let why = with_flag(alloc, Ok(why), "explain", EXPLAINED);
    with_argument(why, nodes_argument(alloc))
}

/// The command that tells the fates of changesets, with their labels.
pub(crate) fn fate<'a>(alloc: Global) -> Result<Command<'a>, AllocError>
    ensures { IfOk result (IsCommand fate) }
{
    let fate = command_of(
        alloc,
        "fate",
        "Tells what became of changesets at a script's nodes",
        FATE_HELP,
        "hgfleet fate [OPTIONS] <LABEL>... < SCRIPT",
    );
    let fate = with_flag(alloc, Ok(fate), "explain", EXPLAINED);
    with_argument(
        fate,
        words_argument(alloc, "labels", "LABEL", "The changesets that are meant"),
    )
}

/// The log of these nodes, with these flags, none where they ask for two pictures.
pub(crate) fn log_of(alloc: Global, log: &ArgMatches<'_>) -> Result<Option<Wanted>, AllocError>
    ensures { IfOk result (MeetsWanted (Some (codes "log", rows_of (found_of log.now)))) }
{
    match picture_of(flag_of(log, "dot"), flag_of(log, "json")) {
        Some(picture) => {
            let nodes = words_of(alloc, log, "nodes")?;
            let shows_hidden = flag_of(log, "hidden");
            let line = number_of(log, "at", 1, 1_048_576);
            Ok(Some(Wanted::Log {
                nodes,
                shows_hidden,
                picture,
                line,
            }))
        }
        None => Ok(None),
    }
}

// The one picture that is asked for: columns of text, where neither other one is.
fn picture_of(is_graph: bool, is_json: bool) -> Option<Picture>
    ensures { result ≡ picture_of is_graph is_json }
{
    match (is_graph, is_json) {
        (false, false) => Some(Picture::Text),
        (true, false) => Some(Picture::Graph),
        (false, true) => Some(Picture::Json),
        (true, true) => None,
    }
}

/// That it is told why of these nodes.
pub(crate) fn why_of(alloc: Global, why: &ArgMatches<'_>) -> Result<Option<Wanted>, AllocError>
    ensures { IfOk result (MeetsWanted (Some (codes "why", rows_of (found_of why.now)))) }
{
    Ok(Some(Wanted::Why(words_of(alloc, why, "nodes")?)))
}

/// That the fates are told of the changesets with these labels.
pub(crate) fn fate_of(alloc: Global, fate: &ArgMatches<'_>) -> Result<Option<Wanted>, AllocError>
    ensures { IfOk result (MeetsWanted (Some (codes "fate", rows_of (found_of fate.now)))) }
{
    Ok(Some(Wanted::Fate(words_of(alloc, fate, "labels")?)))
}

/// The fault of a log that two pictures are asked of.
pub(crate) fn two_pictures(alloc: Global) -> Result<Error, AllocError>
    ensures { IfOk result (λ e. kind_of e ≡ ErrorKind.ArgumentConflict) }
{
    mistake(
        log(alloc),
        ErrorKind::ArgumentConflict,
        "the argument '--dot' cannot be used with '--json'",
    )
}
