//! Lines and words.
ghost use Rattle.std.specs.Prelude.{◌≡◌, ◌≤◌, ◌<◌, ◌↔◌, IfOk, IsTrue, OnErr, length, map, count_by};
ghost use Rattle.std.specs.Option.{option_copied};
ghost use Rattle.std.specs.Str.Lines.{lines};
ghost use Rattle.hg_line.specs.Words.{first_word, has_node, may_have_node, spaced, words_in_place, words_of};
ghost use Rattle.hg_line.specs.Limits.{line_limit};

use crate::limits::LINE_LIMIT;
use hg_expect::cut_line;
use smallvec::SmallVec;
use std::alloc::{AllocError, Global};

/// The words of a line. Most lines have no more than eight, which take no memory.
pub type Words<'a> = SmallVec<&'a [u8], 8>;

/// How many lines of the text have `node` as their first word.
pub fn count_nodes(text: &[u8]) -> usize
    ensures { result ≡ count_by has_node (lines text.now) }
{
    let mut count = 0;
    let mut rest = text;
    while !rest.is_empty() {
        let (line, after) = cut_line(rest);
        if has_node(line) {
            count += 1;
        }
        rest = after;
    }
    count
}

// Whether the first word of the line is `node`.
fn has_node(line: &[u8]) -> bool
    ensures { result ≡ has_node line.now }
{
    if !may_have_node(line) {
        return false;
    }
    match first_word(line) {
        Some(word) => word == b"node".as_slice(),
        None => false,
    }
}

// Whether the line begins as one whose first word is `node` does.
fn may_have_node(line: &[u8]) -> bool
    ensures { result ≡ may_have_node line.now }
{
    match line {
        [b'n', ..] | [b' ', ..] => true,
        _ => false,
    }
}

// The first of what stands between spaces.
fn first_word(line: &[u8]) -> Option<&[u8]>
    ensures { option_copied result ≡ first_word line.now }
{
    line.split(|byte| *byte == b' ')
        .find(|word| !word.is_empty())
}

/// Whether the line has no more bytes than a line may have.
pub fn is_short(line: &[u8]) -> bool
    ensures { IsTrue result ↔ (length line.now ≤ line_limit) }
{
    line.len() <= LINE_LIMIT
}

/// The words of the line, divided by spaces; a comment has none.
#[inline(always)]
pub fn words_of<'a>(alloc: Global, line: &'a [u8]) -> Result<Words<'a>, AllocError>
    ensures words { IfOk result (λ words. map (λ w. w.now) words.items ≡ words_of line.now) }
    ensures memory { OnErr result (words_in_place < length (words_of line.now)) }
{
    match line {
        [] | [b'#', ..] => Ok(SmallVec::new(alloc)),
        _ => spaced(alloc, line),
    }
}

// What stands between spaces.
#[inline(always)]
fn spaced<'a>(alloc: Global, line: &'a [u8]) -> Result<Words<'a>, AllocError>
    ensures words { IfOk result (λ words. map (λ w. w.now) words.items ≡ spaced line.now) }
    ensures memory { OnErr result (words_in_place < length (spaced line.now)) }
{
    let mut words = SmallVec::new(alloc);
    words.extend(line.split(|b| *b == b' ').filter(|word| !word.is_empty()))?;
    Ok(words)
}
