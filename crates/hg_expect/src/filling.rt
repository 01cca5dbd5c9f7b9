//! Lines, expectations and hunks, as they are written.
ghost use Rattle.std.specs.Prelude.{◌≡◌, ◌+◌, ◌≤◌, ◌++◌, ◌∷◌, [], IfOk, OnOk, codes, length};
ghost use Rattle.std.specs.Str.Lines.{lines};
ghost use Rattle.hg_expect.specs.Expectations.{expected, is_head, marked, marked_line};
ghost use Rattle.hg_expect.specs.Filled.{differing_line, filled_line, hunk_head, hunk_of, under};

use crate::expectation::{cut_expected, is_head, is_met};
use crate::lines::{count_lines, cut_line};
use std::alloc::{AllocError, Global};

/// Appends a line, with this in front.
pub(crate) fn push_line(out: &mut Vec<u8>, front: &[u8], line: &[u8]) -> Result<(), AllocError>
    ensures { OnOk result (out.new.items ≡ out.old.items ++ under front.now (line.now ∷ [])) }
{
    out.extend_from_slice(front)?;
    out.extend_from_slice(line)?;
    out.extend_from_slice(b"\n")
}

// Appends the expectations at the front of the text, each with this in front.
fn push_expected(out: &mut Vec<u8>, front: &[u8], text: &[u8]) -> Result<(), AllocError>
    ensures { OnOk result (out.new.items ≡ out.old.items ++ under front.now (expected (lines text.now))) }
{
    let mut rest = text;
    while let Some((line, after)) = cut_expected(rest) {
        push_line(out, front, line)?;
        rest = after;
    }
    Ok(())
}

// Appends what is expected where this is printed, each line with this in front.
fn push_marked(out: &mut Vec<u8>, front: &[u8], output: &[u8]) -> Result<(), AllocError>
    ensures { OnOk result (out.new.items ≡ out.old.items ++ under front.now (marked output.now)) }
{
    let mut rest = output;
    while !rest.is_empty() {
        let (line, after) = cut_line(rest);
        push_marked_line(out, front, line)?;
        rest = after;
    }
    Ok(())
}

// Appends what is expected where this line is printed, with this in front.
fn push_marked_line(out: &mut Vec<u8>, front: &[u8], line: &[u8]) -> Result<(), AllocError>
    ensures { OnOk result (out.new.items ≡ out.old.items ++ under front.now (marked_line line.now ∷ [])) }
{
    out.extend_from_slice(front)?;
    out.extend_from_slice(b"#>")?;
    if !line.is_empty() {
        out.extend_from_slice(b" ")?;
    }
    push_line(out, b"", line)
}

// How many expectations stand at the front of the text.
fn count_expected(text: &[u8]) -> usize
    ensures count { result ≡ length (expected (lines text.now)) }
    ensures few { result ≤ length text.now }
{
    let mut count = 0;
    let mut rest = text;
    while let Some((_, after)) = cut_expected(rest) {
        count += 1;
        rest = after;
    }
    count
}

/// Appends the line with this number, and behind it what it printed; an expectation gives way to that. It counts the
/// lines that were appended.
pub(crate) fn push_filled(
    out: &mut Vec<u8>,
    number: usize,
    line: &[u8],
    output: &[u8],
) -> Result<usize, AllocError>
    ensures pushed { OnOk result
        (out.new.items ≡ out.old.items ++ under [] (filled_line number line.now output.now)) }
    ensures counted { IfOk result (λ count. count ≡ length (filled_line number line.now output.now)) }
    ensures few { IfOk result (λ count. length out.old.items + count ≤ length out.new.items) }
{
    if !is_head(number, line) {
        return Ok(0);
    }
    push_line(out, b"", line)?;
    push_marked(out, b"", output)?;
    Ok(count_lines(output) + 1)
}

/// Appends the hunk of the line with this number, which would have the other, if something else is expected of it than
/// it printed. It counts the line, if that is so.
pub(crate) fn push_hunk_of(
    alloc: Global,
    out: &mut Vec<u8>,
    old: usize,
    new: usize,
    line: &[u8],
    after: &[u8],
    output: &[u8],
) -> Result<usize, AllocError>
    ensures pushed { OnOk result
        (out.new.items ≡ out.old.items ++ hunk_of old new line.now (lines after.now) output.now) }
    ensures counted { IfOk result (λ count. count ≡ differing_line old line.now (lines after.now) output.now) }
    ensures few { IfOk result (λ count. count ≤ 1) }
{
    if !is_head(old, line) || is_met(after, output) {
        return Ok(0);
    }
    push_hunk_head(alloc, out, old, new, after, output)?;
    push_line(out, b" ", line)?;
    push_expected(out, b"-", after)?;
    push_marked(out, b"+", output)?;
    Ok(1)
}

// Appends where the hunk of a line begins that has these numbers, and how many lines it has.
fn push_hunk_head(
    alloc: Global,
    out: &mut Vec<u8>,
    old: usize,
    new: usize,
    after: &[u8],
    output: &[u8],
) -> Result<(), AllocError>
    ensures { OnOk result (out.new.items ≡ out.old.items ++ under [] (hunk_head old
        (length (expected (lines after.now)) + 1) new (length (marked output.now) + 1) ∷ [])) }
{
    let old_count = count_expected(after) + 1;
    let new_count = count_lines(output) + 1;
    let text = format!(in alloc; "@@ -{old},{old_count} +{new},{new_count} @@")?;
    push_line(out, b"", text.as_bytes())
}
