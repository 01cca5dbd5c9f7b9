//! One line of a text.
ghost use Rattle.std.specs.Prelude.{◌≡◌, ◌<◌, ◌∷◌, [], length, position};
ghost use Rattle.hg_phaseroots.specs.Lines.{is_line_feed, lines_of};
ghost use Rattle.hg_phaseroots.specs.Reading.{is_space, number_of, root_in};

use crate::error::RootsError;
use hg_changeset::Node;
use hg_phases::Phase;

// The first line, and what stands after its line feed.
pub(crate) fn split_line(text: &[u8]) -> (&[u8], &[u8])
    requires { 0 < length text.now }
    ensures line { lines_of text.now ≡ result.0.now ∷ lines_of result.1.now }
    ensures shorter { length result.1.now < length text.now }
{
    match line_feed_in(text) {
        Some(end) => (&text[..end], &text[end + 1..]),
        None => (text, &text[text.len()..]),
    }
}

// Where the first line feed stands.
fn line_feed_in(text: &[u8]) -> Option<usize>
    ensures { result ≡ position is_line_feed text.now }
{
    text.iter().position(|byte| *byte == b'\n')
}

// What the line of this number says.
#[tactic(auto, unfolding(crate::specs::Reading::root_in))]
pub(crate) fn read_line(
    line_number: usize,
    line: &[u8],
) -> Result<Option<(Phase, Node)>, RootsError>
    ensures { result ≡ root_in line_number line.now }
{
    let Some(end) = space_in(line) else {
        return Err(RootsError::BadLine(line_number));
    };
    let Some(number) = read_number(&line[..end]) else {
        return Err(RootsError::BadLine(line_number));
    };
    let Ok(node) = Node::from_hex(&line[end + 1..]) else {
        return Err(RootsError::BadLine(line_number));
    };
    match number {
        0 => Ok(None),
        1 => Ok(Some((Phase::Draft, node))),
        2 => Ok(Some((Phase::Secret, node))),
        _ => Err(RootsError::BadPhase(line_number)),
    }
}

// Where the first space stands.
fn space_in(line: &[u8]) -> Option<usize>
    ensures { result ≡ position is_space line.now }
{
    line.iter().position(|byte| *byte == b' ')
}

// The number of one to nine decimal digits.
fn read_number(digits: &[u8]) -> Option<u32>
    ensures { result ≡ number_of digits.now }
{
    if digits.is_empty() || digits.len() > 9 {
        return None;
    }
    let mut number = 0;
    for digit in digits {
        match digit {
            b'0'..=b'9' => number = number * 10 + (*digit - b'0') as u32,
            _ => return None,
        }
    }
    Some(number)
}
