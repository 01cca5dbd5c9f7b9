//! What is noted of an operation in the markers that it makes.
//!
//! A note says when an operation was done, which one it was, by whom, and on which parents what it prunes stood. Its
//! keys ascend and hold nothing that would end them, so that it is written as metadata one key behind the other, and it
//! is known before that how many bytes it takes.
ghost use Rattle.std.specs.Prelude.{◌≡◌, ◌≤◌, ◌+◌, ◌-◌, ◌^◌, ℕ, List, [], ◌∷◌, min, length, OnOk};
ghost use Rattle.hg_changeset.specs.EntryText.{date_text};
ghost use Rattle.hg_marker.specs.Making.{has_bad_value};
ghost use Rattle.hg_marker.specs.Metadata.{written};
ghost use Rattle.hg_marker.specs.Operation.{note_entries, note_texts, parents_entries};
ghost use Rattle.hg_marker.specs.Written.{with_pieces};

use crate::text_map::{has_nul, push_entry};
use hg_changeset::{Node, date_len, date_len_bound, push_date};
use std::alloc::AllocError;

// Bytes of the keys `date`, `operation` and `user`, and of what joins them.
const KEYS_LEN: usize = 22;

// Bytes of a parent: a NUL, its key, a colon and its digits.
const PARENT_LEN: usize = 44;

/// What is noted of an operation in the markers that it makes.
#[derive(Clone, Copy)]
pub struct Note<'a> {
    /// Which operation it is, at the key `operation`.
    pub operation: &'a [u8],
    /// Who did it, at the key `user`.
    pub user: &'a [u8],
    /// When, in seconds since 1970 (UTC): the first half of the value of the key `date`.
    pub secs: i64,
    /// The time zone's offset, in seconds west of UTC: its second half.
    pub offset: i32,
    /// The parents of what is pruned: the first at the key `p1`, and the second, unless it is the null id, at `p2`.
    pub parents: Option<(Node, Node)>,
}

impl Note<'_> {
    // Whether a value holds a NUL. No date does.
    pub(crate) fn has_bad_value(self) -> bool
        ensures { result ≡ has_bad_value (note_entries self.entry) }
    {
        has_nul(self.operation) || hold_nul(self.parents) || has_nul(self.user)
    }

    // How many bytes it takes as it is written.
    pub(crate) fn written_len(&self) -> usize
        ensures { result ≡ min (length (written (note_texts self.now))) (2 ^ 64 - 1) }
    {
        self.len_with(date_len(self.secs, self.offset))
    }

    // No fewer bytes than that, told without a look at digits.
    pub(crate) fn len_bound(&self) -> usize
        ensures { min (length (written (note_texts self.now))) (2 ^ 64 - 1) ≤ result }
    {
        self.len_with(date_len_bound(self.secs, self.offset))
    }

    // How many bytes it would take if its date took so many.
    fn len_with(&self, date: usize) -> usize
        requires { date ≤ 81 }
        ensures within { length (date_text self.now.secs self.now.offset) ≤ length (written (note_texts self.now)) }
        ensures len { result ≡ min (length (written (note_texts self.now))
            - length (date_text self.now.secs self.now.offset) + date) (2 ^ 64 - 1) }
    {
        let known = KEYS_LEN + date + parents_len(self.parents);
        self.operation
            .len()
            .saturating_add(self.user.len())
            .saturating_add(known)
    }

    // Appends it as it is written to what is empty.
    pub(crate) fn write(&self, out: &mut Vec<u8>) -> Result<(), AllocError>
        requires { out.old.items ≡ [] }
        ensures { OnOk result (out.new.items ≡ with_pieces [] (note_entries self.now)) }
    {
        out.extend_from_slice(b"date:")?;
        push_date(out, self.secs, self.offset)?;
        push_entry(out, b"operation", self.operation)?;
        push_parents(out, self.parents)?;
        push_entry(out, b"user", self.user)
    }
}

// Whether the digits of a parent hold a NUL.
fn hold_nul(parents: Option<(Node, Node)>) -> bool
    ensures { result ≡ has_bad_value (parents_entries parents) }
{
    match parents {
        Some((first, second)) => {
            has_nul(&first.to_hex()) || !second.is_null() && has_nul(&second.to_hex())
        }
        None => false,
    }
}

// How many bytes the parents take behind what was noted before.
fn parents_len(parents: Option<(Node, Node)>) -> usize
    ensures len { (front : ℕ) (bytes : List ℕ) → length (with_pieces (front ∷ bytes) (parents_entries parents))
        ≡ length (front ∷ bytes) + result }
    ensures short { result ≤ 88 }
{
    match parents {
        Some((_, second)) => {
            if second.is_null() {
                PARENT_LEN
            } else {
                2 * PARENT_LEN
            }
        }
        None => 0,
    }
}

// Appends the parents.
fn push_parents(out: &mut Vec<u8>, parents: Option<(Node, Node)>) -> Result<(), AllocError>
    ensures { OnOk result (out.new.items ≡ with_pieces out.old.items (parents_entries parents)) }
{
    let Some((first, second)) = parents else {
        return Ok(());
    };
    push_entry(out, b"p1", &first.to_hex())?;
    if second.is_null() {
        return Ok(());
    }
    push_entry(out, b"p2", &second.to_hex())
}
