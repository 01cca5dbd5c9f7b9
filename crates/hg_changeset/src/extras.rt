//! Extras: what else is noted of a changeset, as keys with values.
//!
//! In the text of an entry they are items `key:value`, ascending by key and joined by NUL. A byte that would end an
//! item or a line is written as two characters, and so is the backslash that begins such a pair.
ghost use Rattle.std.specs.Prelude.{◌≡◌, ◌≤◌, ◌+◌, ◌-◌, ◌^◌, ◌++◌, ◌∷◌, None, min, length, OnOk};
ghost use Rattle.std.specs.List.{list_any, list_all, flat_map};
ghost use Rattle.hg_changeset.specs.EntryValue.{extra_bytes};
ghost use Rattle.hg_changeset.specs.Extras.{escape, is_plain, item, extras_text, AscendByKey};
ghost use Rattle.hg_changeset.specs.Noted.{listed};
ghost use Rattle.hg_changeset.specs.EntryAnswer.{is_bad_key};
ghost use Rattle.hg_changeset.specs.Lengths.{is_left_out, len_without};

use std::alloc::AllocError;
use std::collections::BTreeMap;

/// Whether some key is empty, holds a colon or is `branch`.
pub fn has_bad_key(extra: &BTreeMap<Vec<u8>, Vec<u8>>) -> bool
    ensures some { result ≡ list_any (λ x. is_bad_key x.0) (extra_bytes extra.now.entries) }
    ensures ascending { AscendByKey (extra_bytes extra.now.entries) }
{
    for (key, _) in extra {
        if is_bad_key(key) {
            return true;
        }
    }
    false
}

/// Whether the key is empty, holds a colon or is `branch`.
pub fn is_bad_key(key: &[u8]) -> bool
    ensures { result ≡ is_bad_key key.now }
{
    key.is_empty() || key.contains(&b':') || key == b"branch".as_slice()
}

/// The extras that a text is to hold: those of an entry, or one alone.
#[derive(Clone, Copy)]
pub(crate) enum Extras<'a> {
    All(&'a BTreeMap<Vec<u8>, Vec<u8>>),
    One(&'a [u8], &'a [u8]),
}

impl Extras<'_> {
    /// Appends a space and the extras; nothing where there are none.
    pub(crate) fn push(self, text: &mut Vec<u8>) -> Result<(), AllocError>
        ensures { OnOk result (text.new.items ≡ text.old.items ++ extras_text (listed self.entry)) }
    {
        match self {
            Extras::All(extra) => push_extras(text, extra),
            Extras::One(key, value) => push_extra(text, b' ', key, value),
        }
    }
}

fn push_extras(text: &mut Vec<u8>, extra: &BTreeMap<Vec<u8>, Vec<u8>>) -> Result<(), AllocError>
    ensures { OnOk result (text.new.items ≡ text.old.items ++ extras_text (extra_bytes extra.now.entries)) }
{
    let mut before = b' ';
    for (key, value) in extra {
        push_extra(text, before, key, value)?;
        before = 0;
    }
    Ok(())
}

// Appends the byte and the extra.
fn push_extra(text: &mut Vec<u8>, before: u8, key: &[u8], value: &[u8]) -> Result<(), AllocError>
    ensures { OnOk result (text.new.items ≡ text.old.items ++ before ∷ item (key.now, value.now)) }
{
    text.push(before)?;
    push_escaped(text, key)?;
    text.push(b':')?;
    push_escaped(text, value)
}

// Plain bytes, as most are, go in at once.
fn push_escaped(text: &mut Vec<u8>, bytes: &[u8]) -> Result<(), AllocError>
    ensures { OnOk result (text.new.items ≡ text.old.items ++ flat_map escape bytes.now) }
{
    if are_plain(bytes) {
        text.extend_from_slice(bytes)?;
        return Ok(());
    }
    for b in bytes {
        push_escape(text, *b)?;
    }
    Ok(())
}

// All are looked at, since many at once cost less than one by one up to the first that isn't.
fn are_plain(bytes: &[u8]) -> bool
    ensures { result ≡ list_all is_plain bytes.now }
{
    let mut plain = true;
    for b in bytes {
        plain &= is_plain(*b);
    }
    plain
}

// Whether the byte is above those that are written as two characters, and no backslash.
fn is_plain(b: u8) -> bool
    ensures { result ≡ is_plain b }
{
    b > b'\r' && b != b'\\'
}

fn push_escape(text: &mut Vec<u8>, b: u8) -> Result<(), AllocError>
    ensures { OnOk result (text.new.items ≡ text.old.items ++ escape b) }
{
    match b {
        b'\\' => text.extend_from_slice(b"\\\\"),
        b'\n' => text.extend_from_slice(b"\\n"),
        b'\r' => text.extend_from_slice(b"\\r"),
        0 => text.extend_from_slice(b"\\0"),
        _ => Ok(text.push(b)?),
    }
}

/// How many bytes the extras take in a text, without the one at a key that is left out. The space before the first, or
/// the NUL before any other, counts as a byte of each.
pub(crate) fn extras_len(extra: &BTreeMap<Vec<u8>, Vec<u8>>, left_out: Option<&[u8]>) -> usize
    ensures { result ≡ min (len_without left_out.entry (extra_bytes extra.now.entries)) (2 ^ 64 - 1) }
{
    let mut len: usize = 0;
    for (key, value) in extra {
        if !is_left_out(left_out, key) {
            len = len.saturating_add(extra_len(key, value));
        }
    }
    len
}

fn is_left_out(left_out: Option<&[u8]>, key: &[u8]) -> bool
    ensures { result ≡ is_left_out left_out.entry key.now }
{
    match left_out {
        Some(other) => other == key,
        None => false,
    }
}

/// No fewer bytes than the extras take in a text. They are told without a look at bytes: of a byte at most two are
/// written.
pub(crate) fn extras_len_bound(extra: &BTreeMap<Vec<u8>, Vec<u8>>) -> usize
    ensures most { min (len_without None (extra_bytes extra.now.entries)) (2 ^ 64 - 1) ≤ result }
    ensures ascending { AscendByKey (extra_bytes extra.now.entries) }
{
    let mut len: usize = 0;
    for (key, value) in extra {
        len = len.saturating_add(extra_len_bound(key, value));
    }
    len
}

/// No fewer bytes than an extra takes, and the byte before it.
pub(crate) fn extra_len_bound(key: &[u8], value: &[u8]) -> usize
    ensures { min (1 + length (item (key.now, value.now))) (2 ^ 64 - 1) ≤ result }
{
    key.len()
        .saturating_add(value.len())
        .saturating_mul(2)
        .saturating_add(2)
}

/// How many bytes an extra takes, and the byte before it.
pub(crate) fn extra_len(key: &[u8], value: &[u8]) -> usize
    ensures { result ≡ min (1 + length (item (key.now, value.now))) (2 ^ 64 - 1) }
{
    escaped_len(key)
        .saturating_add(escaped_len(value))
        .saturating_add(2)
}

fn escaped_len(bytes: &[u8]) -> usize
    ensures { result ≡ min (length (flat_map escape bytes.now)) (2 ^ 64 - 1) }
{
    if are_plain(bytes) {
        return bytes.len();
    }
    let mut len: usize = 0;
    for b in bytes {
        len = len.saturating_add(escape_len(*b));
    }
    len
}

fn escape_len(b: u8) -> usize
    ensures { result ≡ length (escape b) }
{
    match b {
        b'\\' | b'\n' | b'\r' | 0 => 2,
        _ => 1,
    }
}
