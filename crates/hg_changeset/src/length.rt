//! Whether the text of an entry is too long for a changeset, told before it is written.
ghost use Rattle.std.specs.Prelude.{◌≡◌, ◌≤◌, ◌-◌, ◌^◌, ℕ, false, length, min, nat_lt};
ghost use Rattle.hg_changeset.specs.Changeset.{text_limit};
ghost use Rattle.hg_changeset.specs.EntryText.{entry_text};
ghost use Rattle.hg_changeset.specs.Lengths.{text_len};
ghost use Rattle.hg_changeset.specs.Noted.{also_noting};

use crate::changeset::TEXT_LIMIT;
use crate::description::description_len;
use crate::entry::{Entry, date_len, date_len_bound, trimmed_user};
use crate::extras::{extra_len, extra_len_bound, extras_len, extras_len_bound};

// Bytes of a text that each has: those that tell that there is no manifest, and the LF that end lines.
const FIXED_LEN: usize = 44;

/// Whether the text of an entry has more than [`TEXT_LIMIT`] bytes. It takes no memory, and of what is clearly shorter
/// no byte is read.
pub fn is_text_too_long(entry: &Entry) -> bool
    ensures { result ≡ nat_lt text_limit (length (entry_text entry.now)) }
{
    if !may_be_too_long(entry, extras_len_bound(&entry.extra)) {
        return false;
    }
    len_with(entry, extras_len(&entry.extra, None)) > TEXT_LIMIT
}

/// Whether the text of an entry has more than [`TEXT_LIMIT`] bytes with this extra noted, in place of one with the same
/// key. It takes no memory, as [`is_text_too_long`] takes none.
pub fn is_noted_text_too_long(entry: &Entry, key: &[u8], value: &[u8]) -> bool
    ensures { result ≡ nat_lt text_limit (length (entry_text (also_noting key.now value.now entry.now))) }
{
    let most = extras_len_bound(&entry.extra).saturating_add(extra_len_bound(key, value));
    if !may_be_too_long(entry, most) {
        return false;
    }
    let others = extras_len(&entry.extra, Some(key));
    len_with(entry, others.saturating_add(extra_len(key, value))) > TEXT_LIMIT
}

// Whether the text may be too long where the extras take no more than so many bytes.
fn may_be_too_long(entry: &Entry, most_extras: usize) -> bool
    ensures { (extras : ℕ) → min extras (2 ^ 64 - 1) ≤ most_extras → result ≡ false
        → text_len entry.now extras ≤ text_limit }
{
    let known = FIXED_LEN + date_len_bound(entry.secs, entry.offset);
    let most = entry
        .user
        .len()
        .saturating_add(entry.desc.len())
        .saturating_add(most_extras)
        .saturating_add(known);
    most > TEXT_LIMIT
}

// How many bytes the text has where the extras take so many.
fn len_with(entry: &Entry, extras: usize) -> usize
    ensures { result ≡ min (text_len entry.now extras) (2 ^ 64 - 1) }
{
    let known = FIXED_LEN + date_len(entry.secs, entry.offset);
    trimmed_user(&entry.user)
        .len()
        .saturating_add(description_len(&entry.desc))
        .saturating_add(extras)
        .saturating_add(known)
}
