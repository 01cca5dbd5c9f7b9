//! Whether the lines of a script print what it says.
ghost use Rattle.std.specs.Prelude.{◌≡◌, IfErr, OnOk, false, true};
ghost use Rattle.hgfleet.specs.Checking.{EndsCheck, EndsWriting, IsCheck, IsCheckWritten};
ghost use Rattle.hgfleet.specs.Commands.{DoesCheck, EndsDoneCheck};

use crate::commands::{secret_keys, tell_refusals, write_text};
use crate::failure::Failure;
use hg_expect::{Checked, check_script};
use hg_script::{read_script, run_by_line};
use std::alloc::Global;
use std::io::{Read, Write};
use std::random::RandomSource;

/// Does the script that the reader has, and tells in what it differs from what its lines print. Where it is to be
/// filled in, it is written with that. Nothing is written of a script that is stopped. Where it is to be explained, why
/// lines were refused is put into the text.
pub fn check_lines<R: Read, W: Write>(
    rt: &(impl AllocGlobal + RandomSource),
    fills: bool,
    explains: bool,
    reader: &mut R,
    writer: &mut W,
    refusals: &mut Vec<u8>,
) -> Result<(), Failure<'static>>
    ensures done { OnOk result (DoesCheck explains fills (R.remaining reader.old) (W.contents writer.old)
        (W.contents writer.new) refusals.old.items refusals.new.items) }
    ensures failed { IfErr result (EndsDoneCheck explains fills (R.remaining reader.old) (W.contents writer.old)
        (W.contents writer.new) refusals.old.items refusals.new.items) }
    ensures left { explains ≡ false → refusals.new.items ≡ refusals.old.items }
{
    if explains {
        check_explained(rt, fills, reader, writer, refusals)
    } else {
        check_unexplained(rt, fills, reader, writer)
    }
}

// The same of a script that is to be explained.
fn check_explained<R: Read, W: Write>(
    rt: &(impl AllocGlobal + RandomSource),
    fills: bool,
    reader: &mut R,
    writer: &mut W,
    refusals: &mut Vec<u8>,
) -> Result<(), Failure<'static>>
    ensures done { OnOk result (DoesCheck true fills (R.remaining reader.old) (W.contents writer.old)
        (W.contents writer.new) refusals.old.items refusals.new.items) }
    ensures failed { IfErr result (EndsDoneCheck true fills (R.remaining reader.old) (W.contents writer.old)
        (W.contents writer.new) refusals.old.items refusals.new.items) }
{
    let alloc = rt.alloc();
    let text = read_script(alloc, reader)?;
    let script: &[u8] = &text;
    let mut told = script;
    tell_refusals(alloc, secret_keys(rt)?, &mut told, refusals)?;
    let mut checked = script;
    check_unexplained(rt, fills, &mut checked, writer)
}

// The same of one that isn't.
fn check_unexplained<R: Read, W: Write>(
    rt: &(impl AllocGlobal + RandomSource),
    fills: bool,
    reader: &mut R,
    writer: &mut W,
) -> Result<(), Failure<'static>>
    ensures done { OnOk result
        (IsCheck fills (R.remaining reader.old) (W.contents writer.old) (W.contents writer.new)) }
    ensures failed { IfErr result
        (EndsCheck fills (R.remaining reader.old) (W.contents writer.old) (W.contents writer.new)) }
{
    let alloc = rt.alloc();
    let script = run_by_line(alloc, secret_keys(rt)?, reader)?;
    let checked = check_script(alloc, &script.text, &script.outputs)?;
    write_checked(alloc, &checked, fills, writer)
}

// Tells in what a script differs, which is a failure where a line does; or writes it as it is filled in.
fn write_checked<W: Write>(
    alloc: Global,
    checked: &Checked,
    fills: bool,
    writer: &mut W,
) -> Result<(), Failure<'static>>
    ensures done { OnOk result (IsCheckWritten fills checked.now (W.contents writer.old) (W.contents writer.new)) }
    ensures failed { IfErr result
        (EndsWriting fills checked.now (W.contents writer.old) (W.contents writer.new)) }
{
    if fills {
        return write_text(&checked.filled, writer);
    }
    let told = checked.tell(alloc)?;
    write_text(&told, writer)?;
    match checked.differ {
        0 => Ok(()),
        count => Err(Failure::Unmet(count)),
    }
}
