//! The lines of a text.
ghost use Rattle.std.specs.Prelude.{◌≡◌, ◌≤◌, ◌<◌, ◌==◌, ◌∷◌, IfSome, MatchOption, length, position, take};
ghost use Rattle.std.specs.Str.Lines.{lines, strip_carriage_return};
ghost use Rattle.hg_expect.specs.Fronts.{IsLineLong};

use memchr::memchr;

/// The first line of the text, without its LF and without one CR before that, and what comes after it.
pub fn cut_line(text: &[u8]) -> (&[u8], &[u8])
    requires { 0 < length text.now }
    ensures lines { lines text.now ≡ result.0.now ∷ lines result.1.now }
    ensures shorter { length result.1.now < length text.now }
{
    match end_of_line(text) {
        Some(end) => (without_return(&text[..end]), &text[end + 1..]),
        None => (text, &text[text.len()..]),
    }
}

/// The front of the text that has so many lines, each with its end; none where the text has fewer.
pub fn first_lines(text: &[u8], count: usize) -> Option<&[u8]>
    ensures cut { MatchOption result (length (lines text.now) < count)
        (λ front. (count ≤ length (lines text.now)) × (lines front.now ≡ take count (lines text.now))) }
    ensures front { IfSome result (λ front. front.now ≡ take (length front.now) text.now) }
{
    let mut end = 0;
    for _ in 0..count {
        if end == text.len() {
            return None;
        }
        end += length_of_line(&text[end..]);
    }
    Some(&text[..end])
}

// How many bytes the first line of the text has, its LF among them.
fn length_of_line(text: &[u8]) -> usize
    requires { 0 < length text.now }
    ensures line { IsLineLong text.now result }
    ensures some { 0 < result }
    ensures within { result ≤ length text.now }
{
    match end_of_line(text) {
        Some(end) => end + 1,
        None => text.len(),
    }
}

/// How many lines the text has.
pub fn count_lines(text: &[u8]) -> usize
    ensures count { result ≡ length (lines text.now) }
    ensures few { result ≤ length text.now }
{
    let mut count = 0;
    let mut rest = text;
    while !rest.is_empty() {
        let (_, after) = cut_line(rest);
        count += 1;
        rest = after;
    }
    count
}

// The place of the first LF.
fn end_of_line(text: &[u8]) -> Option<usize>
    ensures { result ≡ position (λ b. b == 10) text.now }
{
    memchr(b'\n', text)
}

// The line without one CR at its end.
fn without_return(line: &[u8]) -> &[u8]
    ensures { result.now ≡ strip_carriage_return line.now }
{
    match line {
        [rest @ .., b'\r'] => rest,
        _ => line,
    }
}
