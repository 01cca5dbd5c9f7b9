//! A script beside what its lines printed.
ghost use Rattle.std.specs.Prelude.{◌≡◌, ◌++◌, ◌∷◌, [], IfOk, OnOk, count_by};
ghost use Rattle.std.specs.Str.Lines.{lines};
ghost use Rattle.hg_expect.specs.Expectations.{first_text, is_done, later_texts, texts};
ghost use Rattle.hg_expect.specs.Filled.{account, differing, filled_text, hunks};

use crate::expectation::is_done;
use crate::filling::{push_filled, push_hunk_of, push_line};
use crate::lines::cut_line;
use std::alloc::{AllocError, Global};

/// A script that was checked.
#[derive(Drop)]
pub struct Checked {
    /// The script filled in: each of its lines, and behind it what it printed. What was expected is left out.
    pub filled: Vec<u8>,
    /// A hunk for each line that differs.
    pub hunks: Vec<u8>,
    /// How many lines are neither comments nor empty.
    pub lines: usize,
    /// Of how many lines something else is expected than they printed.
    pub differ: usize,
}

/// Checks the script of this text, whose lines printed these outputs, one for each of them.
pub fn check_script(alloc: Global, text: &[u8], outputs: &[Vec<u8>]) -> Result<Checked, AllocError>
    ensures filled { IfOk result (λ checked. checked.filled.items ≡ filled_text text.now (texts outputs.now)) }
    ensures hunks { IfOk result (λ checked. checked.hunks.items ≡ hunks 1 1 (lines text.now) (texts outputs.now)) }
    ensures lines { IfOk result (λ checked. checked.lines ≡ count_by is_done (lines text.now)) }
    ensures differ { IfOk result (λ checked. checked.differ ≡ differing 1 (lines text.now) (texts outputs.now)) }
{
    let mut checked = Checked {
        filled: Vec::new(alloc),
        hunks: Vec::new(alloc),
        lines: count_done(text),
        differ: 0,
    };
    let mut number = 1;
    let mut place = 1;
    let mut rest = text;
    let mut left = outputs;
    while !rest.is_empty() {
        let (line, after) = cut_line(rest);
        let (output, others) = cut_output(left);
        let hunks = &mut checked.hunks;
        checked.differ += push_hunk_of(alloc, hunks, number, place, line, after, output)?;
        place += push_filled(&mut checked.filled, number, line, output)?;
        number += 1;
        rest = after;
        left = others;
    }
    Ok(checked)
}

// The first output, and those after it.
fn cut_output(outputs: &[Vec<u8>]) -> (&[u8], &[Vec<u8>])
    ensures first { result.0.now ≡ first_text (texts outputs.now) }
    ensures later { texts result.1.now ≡ later_texts (texts outputs.now) }
{
    match outputs {
        [first, later @ ..] => (first.as_slice(), later),
        [] => (b"", outputs),
    }
}

// How many lines of the text are neither comments nor empty.
fn count_done(text: &[u8]) -> usize
    ensures { result ≡ count_by is_done (lines text.now) }
{
    let mut count = 0;
    let mut rest = text;
    while !rest.is_empty() {
        let (line, after) = cut_line(rest);
        if is_done(line) {
            count += 1;
        }
        rest = after;
    }
    count
}

impl Checked {
    /// In what the script differs, as a unified diff that `patch` takes, and behind it how many lines were checked and
    /// how many differ.
    pub fn tell(&self, alloc: Global) -> Result<Vec<u8>, AllocError>
        ensures { IfOk result (λ told.
            told.items ≡ account self.now.lines self.now.differ self.now.hunks.items) }
    {
        let mut told = Vec::new(alloc);
        if self.differ > 0 {
            push_line(&mut told, b"--- ", b"script")?;
            push_line(&mut told, b"+++ ", b"script")?;
        }
        told.extend_from_slice(&self.hunks)?;
        let tally = format!(in alloc; "{} lines checked, {} differ", self.lines, self.differ)?;
        push_line(&mut told, b"", tally.as_bytes())?;
        Ok(told)
    }
}
