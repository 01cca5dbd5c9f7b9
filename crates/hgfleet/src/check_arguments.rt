//! The arguments of a check.
ghost use Rattle.std.specs.Prelude.{IfOk, Some, codes};
ghost use Rattle.clap.specs.Words.{found_of, rows_of};
ghost use Rattle.hgfleet.specs.Arguments.{MeetsWanted};
ghost use Rattle.hgfleet.specs.CheckArguments.{check_app};
ghost use Rattle.hgfleet.specs.Builders.{IsCommand};

use crate::arguments::{Wanted, command_of, flag_of, with_flag};
use clap::{ArgMatches, Command};
use std::alloc::{AllocError, Global};

// Whether the lines of a script print what it says.
const CHECK_HELP: &str = "\
Does the script of standard input, and compares what each of its lines prints with the lines right behind it that begin
with #> or are that alone, as
  amend A b c
  #> 7: rewrite 4 AlreadyObsolete
To other commands these are comments. In what the script differs is printed, as a diff that patch takes: where a line
differs, that line, what stands behind it with -, and what it printed with +. Below that stands how many lines were
checked, and how many differ. With --write the script is printed in place of that, with what its lines printed behind
each of them; a file that is read and written at once, as by `< FILE > FILE`, is empty before it is read.

Statuses: 0 done and no line differs, 1 a line that differs, a script that ended early, or a text that can't be written,
2 wrong arguments, 3 want of memory.

For example:
  printf 'node A\\nreport A\\n' | hgfleet check --write";

/// The command that checks a script, with its flags.
pub(crate) fn check_command<'a>(alloc: Global) -> Result<Command<'a>, AllocError>
    ensures { IfOk result (IsCommand check_app) }
{
    let check = command_of(
        alloc,
        "check",
        "Compares what the lines of a script print with what it says",
        CHECK_HELP,
        "hgfleet check [OPTIONS] < SCRIPT",
    );
    let check = with_flag(
        alloc,
        Ok(check),
        "write",
        "Prints the script with what its lines print",
    );
    with_flag(
        alloc,
        check,
        "explain",
        "Says on standard error what each refusal is about, and which word is at fault",
    )
}

/// That a script is checked, or filled in where this flag is given, and with why lines were refused where that is.
pub(crate) fn check_of(given: &ArgMatches<'_>) -> Option<Wanted>
    ensures { MeetsWanted (Some (codes "check", rows_of (found_of given.now))) result }
{
    let fills = flag_of(given, "write");
    let explains = flag_of(given, "explain");
    Some(Wanted::Check { fills, explains })
}
