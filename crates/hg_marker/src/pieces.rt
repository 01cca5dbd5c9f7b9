//! The reader of metadata.
//!
//! Metadata is spelled as pieces between NULs, each a key, a colon and its value. A piece is split at its first colon,
//! so a value may hold further ones; an empty piece says nothing; and of equal keys the later one wins. The bytes are
//! walked piece by piece, so that no list of pieces is kept: metadata of NULs alone takes no memory.
ghost use Rattle.std.specs.Prelude.{◌≡◌, ◌==◌, ◌||◌, ◌++◌, ◌+◌, ◌<◌, [], ◌∷◌, length, position};
ghost use Rattle.std.specs.Prelude.{map, option_copied, IfOk};
ghost use Rattle.std.specs.Prelude.{IfSome, IfNone, true, false};
ghost use Rattle.std.specs.List.{list_all};
ghost use Rattle.hg_marker.specs.Metadata.{pieces, nonempty, has_colon, entry, texts};
ghost use Rattle.hg_marker.specs.Survey.{IsSurvey};
ghost use Rattle.hg_marker.specs.Written.{is_behind};

use crate::parents::is_parents_key;
use crate::text_map::TextMap;
use memchr::memchr;
use std::alloc::{AllocError, Global};
use std::marker::Model;

/// The keys and values of [`Metadata`](crate::Metadata), ascending by key, seen as the list of those that are left.
#[derive(Drop)]
pub struct Entries<'a> {
    rest: &'a [u8],
}

impl<'a> Model for Entries<'a> {
    ghost use Rattle.std.specs.Prelude.{ℕ, List, map};
    ghost use Rattle.hg_marker.specs.Metadata.{pieces, entry};

    ghost Value = { List (List ℕ × List ℕ) };

    ghost view = { λ it. map entry (pieces it.rest.now) };
}

impl<'a> Entries<'a> {
    // The entries that the pieces of bytes say, from the front.
    pub(crate) fn new(bytes: &'a [u8]) -> Entries<'a>
        ensures { result ≡ map entry (pieces bytes.now) }
    {
        Entries { rest: bytes }
    }
}

impl<'a> Iterator for Entries<'a> {
    ghost use Rattle.std.specs.Iterator.{YieldsFirstBy, item_count};
    ghost use Rattle.hg_marker.specs.Texts.{entry_seen};

    type Item = (&'a [u8], &'a [u8]);

    ghost next_gives = { YieldsFirstBy entry_seen (λ rest. rest) };

    ghost remaining = { item_count (λ rest. rest) };

    #[inline(always)]
    fn next(&mut self) -> Option<(&'a [u8], &'a [u8])> {
        match first_piece(self.rest) {
            Some((piece, rest)) => {
                self.rest = rest;
                Some(split_piece(piece))
            }
            None => None,
        }
    }
}

/// What one walk over the pieces finds of bytes that spell metadata.
#[derive(Clone, Copy)]
pub(crate) struct Survey {
    /// They are its one written spelling: the keys ascend, and nothing stands beside the pieces.
    pub(crate) is_written: bool,
    /// A key says something of parents.
    pub(crate) names_parents: bool,
}

// The first piece that isn't empty, and what stands behind it.
fn first_piece(bytes: &[u8]) -> Option<(&[u8], &[u8])>
    ensures some { IfSome result (λ x. pieces bytes.now ≡ x.0.now ∷ pieces x.1.now) }
    ensures shorter { IfSome result (λ x. length x.1.now < length bytes.now) }
    ensures none { IfNone result (pieces bytes.now ≡ []) }
{
    let mut rest = bytes;
    while !rest.is_empty() {
        let (piece, after) = next_piece(rest);
        if !piece.is_empty() {
            return Some((piece, after));
        }
        rest = after;
    }
    None
}

// What one walk over the pieces finds; nothing where one has no colon, so that the bytes spell no metadata.
pub(crate) fn survey_of(bytes: &[u8]) -> Option<Survey>
    ensures some { IfSome result (λ found. IsSurvey found bytes.now) }
    ensures none { IfNone result (list_all has_colon (pieces bytes.now) ≡ false) }
{
    let mut ascends = true;
    let mut names_parents = false;
    let mut len: usize = 0;
    let mut last: Option<&[u8]> = None;
    let mut rest = bytes;
    while let Some((piece, after)) = first_piece(rest) {
        match key_of(piece) {
            Some(key) => {
                ascends &= is_behind(key, last);
                names_parents |= is_parents_key(key);
                len = len.saturating_add(piece.len() + 1);
                last = Some(key);
            }
            None => return None,
        }
        rest = after;
    }
    Some(Survey {
        is_written: ascends && is_whole(len, bytes),
        names_parents,
    })
}

// What stands before the first colon of a piece that has one.
fn key_of(piece: &[u8]) -> Option<&[u8]>
    ensures some { IfSome result (λ key. (key.now ≡ (entry piece.now).0) × (has_colon piece.now ≡ true)) }
    ensures none { IfNone result (has_colon piece.now ≡ false) }
{
    match place_of(piece, b':') {
        Some(place) => Some(&piece[..place]),
        None => None,
    }
}

// Whether pieces that take so many bytes, each with a NUL behind it, are all of the bytes, but for the last NUL.
fn is_whole(len: usize, bytes: &[u8]) -> bool
    ensures { result ≡ (len == length bytes.now + 1 || length bytes.now == 0) }
{
    len == bytes.len() + 1 || bytes.is_empty()
}

// Whether the key stands behind the last one.
fn is_behind(key: &[u8], last: Option<&[u8]>) -> bool
    ensures { result ≡ is_behind (option_copied last.entry) key.now }
{
    match last {
        Some(last) => last.cmp(key).is_lt(),
        None => true,
    }
}

// The texts that the pieces say.
pub(crate) fn read_texts(alloc: Global, bytes: &[u8]) -> Result<TextMap, AllocError>
    ensures { IfOk result (λ m. m ≡ texts (pieces bytes.now)) }
{
    let mut texts = TextMap::new(alloc);
    let mut rest = bytes;
    while !rest.is_empty() {
        let (piece, after) = next_piece(rest);
        if !piece.is_empty() {
            let (key, value) = split_piece(piece);
            texts.insert(key, value)?;
        }
        rest = after;
    }
    Ok(texts)
}

// What stands before the first colon, and what stands behind it.
fn split_piece(piece: &[u8]) -> (&[u8], &[u8])
    ensures { (result.0.now, result.1.now) ≡ entry piece.now }
{
    match place_of(piece, b':') {
        Some(place) => (&piece[..place], &piece[place + 1..]),
        None => (piece, &[]),
    }
}

// What stands before the first NUL, and what stands behind it.
fn next_piece(bytes: &[u8]) -> (&[u8], &[u8])
    ensures pieces { pieces bytes.now ≡ nonempty (result.0.now ∷ []) ++ pieces result.1.now }
    ensures shorter { 0 < length bytes.now → length result.1.now < length bytes.now }
{
    match place_of(bytes, 0) {
        Some(place) => (&bytes[..place], &bytes[place + 1..]),
        None => (bytes, &[]),
    }
}

// The first place at which this byte stands.
fn place_of(bytes: &[u8], wanted: u8) -> Option<usize>
    ensures { result ≡ position (λ byte. byte == wanted) bytes.now }
{
    memchr(wanted, bytes)
}
