//! Which lines are expectations, and whether they are met.
ghost use Rattle.std.specs.Prelude.{◌≡◌, ◌<◌, ◌∷◌, [], IfSome, MatchOption, length};
ghost use Rattle.std.specs.Str.{bytes_eq};
ghost use Rattle.std.specs.Str.Lines.{lines};
ghost use Rattle.hg_expect.specs.Expectations.{expected, is_done, is_expected, is_head, is_met, marked_line};

use crate::lines::cut_line;

/// Whether the line is neither a comment nor empty.
pub(crate) fn is_done(line: &[u8]) -> bool
    ensures { result ≡ is_done line.now }
{
    match line {
        [] | [b'#', ..] => false,
        _ => true,
    }
}

/// Whether the line with this number is no expectation. The first one never is.
pub(crate) fn is_head(number: usize, line: &[u8]) -> bool
    ensures { result ≡ is_head number line.now }
{
    number == 1 || !is_expected(line)
}

// Whether the line is an expectation.
fn is_expected(line: &[u8]) -> bool
    ensures { result ≡ is_expected line.now }
{
    line == b"#>".as_slice() || line.starts_with(b"#> ")
}

/// The first line, where it is an expectation, and what comes after it.
pub(crate) fn cut_expected(text: &[u8]) -> Option<(&[u8], &[u8])>
    ensures cases { MatchOption result (expected (lines text.now) ≡ [])
        (λ cut. expected (lines text.now) ≡ cut.0.now ∷ expected (lines cut.1.now)) }
    ensures shorter { IfSome result (λ cut. length cut.1.now < length text.now) }
{
    if text.is_empty() {
        return None;
    }
    let (line, after) = cut_line(text);
    if is_expected(line) {
        Some((line, after))
    } else {
        None
    }
}

/// Whether what is expected at the front of the text is this output.
pub(crate) fn is_met(text: &[u8], output: &[u8]) -> bool
    ensures { result ≡ is_met (lines text.now) output.now }
{
    let mut rest = text;
    let mut left = output;
    while let Some((line, after)) = cut_expected(rest) {
        if left.is_empty() {
            return false;
        }
        let (printed, others) = cut_line(left);
        if !is_marked(line, printed) {
            return false;
        }
        rest = after;
        left = others;
    }
    left.is_empty()
}

// Whether the line is what is expected of this printed one.
fn is_marked(line: &[u8], printed: &[u8]) -> bool
    ensures { result ≡ bytes_eq line.now (marked_line printed.now) }
{
    if printed.is_empty() {
        return line == b"#>".as_slice();
    }
    match line {
        [b'#', b'>', b' ', rest @ ..] => rest == printed,
        _ => false,
    }
}
