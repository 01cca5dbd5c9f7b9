//! What changesets are called.
ghost use Rattle.std.specs.Prelude.{◌≡◌, option_map};
ghost use Rattle.std.specs.Char.{is_ascii_hexdigit};
ghost use Rattle.std.specs.List.{before_first, list_all};
ghost use Rattle.hg_log.specs.Titles.{begins_with_manifest, behind_empty_line, is_line_feed, label_of, title};

use hg_changeset::Changeset;

// How many digits the text of an entry begins with.
const MANIFEST_DIGITS: usize = 40;

/// What a changeset is called beside its id: the first line of its description, where its text is that of an entry.
/// Other text is opaque, and gives no label.
pub(crate) fn label_of(changeset: &Changeset) -> &[u8]
    ensures { result.now ≡ label_of changeset.now }
{
    match title_of(changeset) {
        Some(title) => title,
        None => b"",
    }
}

/// The first line of a changeset's description, where its text is that of an entry: that begins with the digits of a
/// manifest and a line's end, and its description stands behind an empty line.
pub fn title_of(changeset: &Changeset) -> Option<&[u8]>
    ensures { option_map (λ s. s.now) result ≡ title changeset.now.text }
{
    title(changeset.text())
}

// The first line of the description in the text of an entry.
fn title(text: &[u8]) -> Option<&[u8]>
    ensures { option_map (λ s. s.now) result ≡ title text.now }
{
    if !begins_with_manifest(text) {
        return None;
    }
    match behind_empty_line(text) {
        Some(description) => Some(first_line(description)),
        None => None,
    }
}

fn begins_with_manifest(text: &[u8]) -> bool
    ensures { result ≡ begins_with_manifest text.now }
{
    if text.len() <= MANIFEST_DIGITS {
        return false;
    }
    text[MANIFEST_DIGITS] == b'\n' && are_digits(&text[..MANIFEST_DIGITS])
}

// Whether these are hexadecimal digits.
fn are_digits(bytes: &[u8]) -> bool
    ensures { result ≡ list_all is_ascii_hexdigit bytes.now }
{
    for byte in bytes {
        if !byte.is_ascii_hexdigit() {
            return false;
        }
    }
    true
}

// What stands behind the first empty line that isn't the first line of all.
fn behind_empty_line(text: &[u8]) -> Option<&[u8]>
    ensures { option_map (λ s. s.now) result ≡ behind_empty_line text.now }
{
    for index in 1..text.len() {
        if text[index - 1] == b'\n' && text[index] == b'\n' {
            return Some(&text[index + 1..]);
        }
    }
    None
}

fn first_line(text: &[u8]) -> &[u8]
    ensures { result.now ≡ before_first is_line_feed text.now }
{
    for index in 0..text.len() {
        if text[index] == b'\n' {
            return &text[..index];
        }
    }
    text
}
