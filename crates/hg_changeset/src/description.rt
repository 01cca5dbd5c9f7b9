//! Descriptions: why a changeset was made.
//!
//! A description is divided into lines at LF, CR LF or CR. Each line loses the white space at its end, and they are
//! joined by LF.
ghost use Rattle.std.specs.Prelude.{◌≡◌, ◌-◌, ◌^◌, ◌&&◌, ◌++◌, ◌∷◌, [], ℕ, List, false, not, min, length, IfOk};
ghost use Rattle.std.specs.List.{list_any};
ghost use Rattle.hg_changeset.specs.WhiteSpace.{is_one_of};
ghost use Rattle.hg_changeset.specs.Bytes.{line_feed};
ghost use Rattle.hg_changeset.specs.Description.{begins_with_cr_lf, description_text, line_ends, lines, lines_text};
ghost use Rattle.hg_changeset.specs.Lengths.{Measures};

use crate::white_space::{Cut, trimmed_end};
use std::alloc::{AllocError, Global};

/// The lines of a description without white space at their ends, joined by LF.
pub fn trimmed_lines(alloc: Global, desc: &[u8]) -> Result<Vec<u8>, AllocError>
    ensures { IfOk result (λ text. text.items ≡ lines_text (lines desc.now)) }
{
    let mut text = Vec::new(alloc);
    let mut start = 0;
    for (i, b) in desc.iter().enumerate() {
        if ends_line(*b, &desc[i..]) {
            text.extend_from_slice(trimmed_end(&desc[start..i], Cut::WhiteSpace))?;
            text.push(b'\n')?;
            start = i + 1;
        }
    }
    text.extend_from_slice(trimmed_end(&desc[start..], Cut::WhiteSpace))?;
    Ok(text)
}

/// How many bytes a description has as it is written in a text: its trimmed lines, joined by LF, without LF at either
/// end. It takes no memory.
pub fn description_len(desc: &[u8]) -> usize
    ensures { result ≡ min (length (description_text desc.now)) (2 ^ 64 - 1) }
{
    let mut joined = JoinedLen {
        without_front: 0,
        without_ends: 0,
    };
    let mut start = 0;
    for (i, b) in desc.iter().enumerate() {
        if ends_line(*b, &desc[i..]) {
            let line = trimmed_end(&desc[start..i], Cut::WhiteSpace);
            joined = joined.with_line(line.len()).with_line_feed();
            start = i + 1;
        }
    }
    let line = trimmed_end(&desc[start..], Cut::WhiteSpace);
    joined.with_line(line.len()).without_ends
}

// How many bytes lines have that were joined by LF so far.
#[derive(Clone, Copy)]
struct JoinedLen {
    // Without LF at the front.
    without_front: usize,
    // Without LF at either end.
    without_ends: usize,
}

impl JoinedLen {
    // With a line of so many bytes behind them.
    fn with_line(self, len: usize) -> JoinedLen
        ensures { (text line : List ℕ) → length line ≡ len → list_any (is_one_of (line_feed ∷ [])) line ≡ false
            → Measures self text → Measures result (text ++ line) }
    {
        if len == 0 {
            return self;
        }
        let joined = self.without_front.saturating_add(len);
        JoinedLen {
            without_front: joined,
            without_ends: joined,
        }
    }

    // With a LF behind them.
    fn with_line_feed(self) -> JoinedLen
        ensures { (text : List ℕ) → Measures self text → Measures result (text ++ line_feed ∷ []) }
    {
        if self.without_front == 0 {
            return self;
        }
        JoinedLen {
            without_front: self.without_front.saturating_add(1),
            without_ends: self.without_ends,
        }
    }
}

/// Whether the description has LF or CR, so that it may be more than one line.
pub fn has_line_end(desc: &[u8]) -> bool
    ensures { result ≡ list_any (is_one_of line_ends) desc.now }
{
    desc.iter().any(|b| is_line_end(*b))
}

// Whether it is LF or CR.
fn is_line_end(b: u8) -> bool
    ensures { result ≡ is_one_of line_ends b }
{
    b == b'\n' || b == b'\r'
}

// Whether a line ends with this byte, at which the rest begins. Of a CR LF it is the LF: the CR before it is white
// space at the end of its line.
fn ends_line(b: u8, rest: &[u8]) -> bool
    ensures { result ≡ (is_one_of line_ends b && not (begins_with_cr_lf rest.now)) }
{
    is_line_end(b) && !rest.starts_with(b"\r\n")
}
