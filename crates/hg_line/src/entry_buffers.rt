//! Room for the entries of a script's changesets.
ghost use Rattle.std.specs.Prelude.{◌≡◌, IfOk};
ghost use Rattle.hg_line.specs.Entries.{entry_of};

use hg_changeset::Entry;
use hg_rewrite::Op;
use std::alloc::{AllocError, Global};
use std::collections::BTreeMap;
use std::mem;

/// The user of each entry that a script makes.
pub const USER: &[u8] = b"fleet";

/// The room of an entry that is done with, for the next one.
pub struct EntryBuffers {
    alloc: Global,
    // What they hold is of no account, since they are emptied before they are filled. An empty one has no room.
    user: Vec<u8>,
    desc: Vec<u8>,
}

// Whoever owns one calls this once, and is proved without a look at each collection in it.
impl Drop for EntryBuffers {
    fn drop(self) {
        let EntryBuffers {
            alloc: _,
            user: _,
            desc: _,
        } = self;
    }
}

impl EntryBuffers {
    /// No room yet, which takes no memory.
    pub fn new(alloc: Global) -> EntryBuffers {
        EntryBuffers {
            alloc,
            user: Vec::new(alloc),
            desc: Vec::new(alloc),
        }
    }

    /// The entry of a new changeset, in the room that was kept: the user `fleet`, the date 0 0, no extras, and the
    /// label as description.
    #[inline(always)]
    pub fn entry(&mut self, label: &[u8]) -> Result<Entry, AllocError>
        ensures { IfOk result (λ entry. entry ≡ entry_of label.now) }
    {
        let user = mem::replace(&mut self.user, Vec::new(self.alloc));
        let desc = mem::replace(&mut self.desc, Vec::new(self.alloc));
        Ok(Entry {
            user: filled(self.alloc, user, USER)?,
            secs: 0,
            offset: 0,
            extra: BTreeMap::new(self.alloc),
            desc: filled(self.alloc, desc, label)?,
        })
    }

    /// Takes back the room of the entry of an operation that is done with, if it has one entry.
    #[inline(always)]
    pub fn keep(&mut self, op: &mut Op) {
        match op {
            Op::Commit { entry, .. }
            | Op::Amend { entry, .. }
            | Op::Fold { entry, .. }
            | Op::Relocate { entry, .. } => self.swap(entry),
            Op::Split { .. } | Op::Prune { .. } | Op::Advance { .. } => {}
        }
    }

    #[inline(always)]
    fn swap(&mut self, entry: &mut Entry) {
        mem::swap(&mut self.user, &mut entry.user);
        mem::swap(&mut self.desc, &mut entry.desc);
    }
}

// The buffer with this text alone, or a new one that fits it, where there is no buffer.
#[inline(always)]
fn filled(alloc: Global, mut buffer: Vec<u8>, text: &[u8]) -> Result<Vec<u8>, AllocError>
    ensures { IfOk result (λ filled. filled.items ≡ text.now) }
{
    if buffer.is_empty() {
        return Vec::from_slice(alloc, text);
    }
    buffer.clear();
    buffer.extend_from_slice(text)?;
    Ok(buffer)
}
