//! The new changesets of an operation.
//!
//! Memory is taken only where each entry has a text, and the first of them is short enough for a changeset on its
//! parents: a sole entry is looked at as it is written, which comes first, and several are looked at before the first
//! of them is. All are written before the first changeset is made, since the refusals of entries come first. Each
//! changeset after the first stands on the one before.
ghost use Rattle.std.specs.Prelude.{◌≡◌, ◌==◌, ◌<◌, ◌∷◌, [], Contains, IfOk, OnErr, IsErrOf, MatchResult, ℕ, List};
ghost use Rattle.std.specs.Prelude.{length, map, nat_lt};
ghost use Rattle.hg_changeset.specs.Contents.{Contents};
ghost use Rattle.hg_changeset.specs.Changeset.{IsChangeset, fault_before_hashing, text_limit};
ghost use Rattle.hg_changeset.specs.EntryAnswer.{EntryAnswer};
ghost use Rattle.hg_changeset.specs.Noted.{also_noting};
ghost use Rattle.hg_rewrite.specs.Parts.{with_extra, parents_of_first, made, chain, contents_of, on_parents, written};
ghost use Rattle.hg_rewrite.specs.Memory.{bad_first, bad_prune, refused_first};
ghost use Rattle.hg_rewrite.specs.Refusals.{NoneApplies, IsFirstRefusal, bad_entries, entry_refused};
ghost use Rattle.hg_rewrite.specs.Refusals.{changeset_refused, not_written, unwritten};
ghost use Rattle.hg_rewrite.specs.Answer.{Gives, TextsAnswer, entry_refusal};
ghost use Rattle.hg_graph.specs.Graph.{nodes};

use crate::check::check_entries;
use crate::op::Op;
use crate::query::parents_in;
use crate::refusal::{Cause, Refusal};
use hg_changeset::{
    Changeset, ChangesetError, Entry, EntryError, Node, check_noted, entry_text, is_given_twice,
    is_noted_text_too_long, is_text_too_long, noted_text,
};
use hg_replica::Replica;
use smallvec::SmallVec;
use std::alloc::{AllocError, Global};
use std::slice;

// The new changesets of an operation.
#[inline(always)]
pub(crate) fn new_changesets(
    alloc: Global,
    replica: &Replica,
    op: &Op,
) -> Result<Vec<Changeset>, Refusal>
    ensures answer { Gives (not_written replica.now op.now) (made replica.now.history op.now) result }
    ensures memory { IsErrOf result Refusal.NoMemory → NoneApplies (bad_entries op.now) }
    ensures first { IsErrOf result Refusal.NoMemory → NoneApplies (bad_first replica.now op.now) }
    ensures prune { IsErrOf result Refusal.NoMemory → NoneApplies (bad_prune replica.now op.now) }
    ensures each { IfOk result (λ made. (c : Contents) → Contains made.items c → IsChangeset c) }
{
    match op {
        Op::Commit { p, q, entry, .. } => write_one(alloc, (*p, *q), entry),
        Op::Amend { node, entry } => {
            let parents = parents_in(replica, *node);
            write_noting(alloc, parents, b"amend_source", *node, entry)
        }
        Op::Split { node, entries } => write(alloc, parents_in(replica, *node), entries),
        Op::Fold { nodes, entry } => write_one(alloc, parents_of_first(replica, nodes), entry),
        Op::Relocate { node, p, q, entry } => {
            write_noting(alloc, (*p, *q), b"rebase_source", *node, entry)
        }
        Op::Prune { .. } => Ok(Vec::new(alloc)),
        Op::Advance { .. } => Ok(Vec::new(alloc)),
    }
}

fn parents_of_first(replica: &Replica, nodes: &[Node]) -> (Node, Node)
    ensures { result ≡ parents_of_first replica.now.history nodes.now }
{
    match nodes {
        [] => (Node::NULL, Node::NULL),
        [first, ..] => parents_in(replica, *first),
    }
}

// Refuses the changesets of these entries where the first, on these parents, is at fault in what is seen before its
// text is written. The refusals of all entries come before that.
fn check_first(parents: (Node, Node), entries: &[Entry]) -> Result<(), Refusal>
    ensures { MatchResult result
        (λ _. NoneApplies (refused_first (written parents entries.now)))
        (λ r. IsFirstRefusal (unwritten entries.now (written parents entries.now)) r) }
{
    match entries {
        [] => Ok(()),
        [first, ..] => match seen_fault(parents, is_text_too_long(first)) {
            None => Ok(()),
            Some(fault) => {
                check_entries(entries)?;
                Err(Refusal::Fault(Cause::Changeset(fault)))
            }
        },
    }
}

// The same of the entry with this extra noted.
fn check_first_noted(
    parents: (Node, Node),
    key: &[u8],
    value: &[u8],
    entry: &Entry,
) -> Result<(), Refusal>
    ensures { let e = also_noting key.now value.now entry.now in MatchResult result
        (λ _. NoneApplies (refused_first (written parents (e ∷ []))))
        (λ r. IsFirstRefusal (unwritten (e ∷ []) (written parents (e ∷ []))) r) }
{
    match seen_fault(parents, is_noted_text_too_long(entry, key, value)) {
        None => Ok(()),
        Some(fault) => match check_noted(entry, key) {
            Ok(()) => Err(Refusal::Fault(Cause::Changeset(fault))),
            Err(fault) => Err(Refusal::Fault(Cause::Entry(fault))),
        },
    }
}

// What is seen of a changeset on these parents before its text is written, if it is known whether that is too long.
fn seen_fault(parents: (Node, Node), is_too_long: bool) -> Option<ChangesetError>
    ensures { (text : List ℕ) → is_too_long ≡ nat_lt text_limit (length text)
        → result ≡ fault_before_hashing parents.0 parents.1 text }
{
    let (p, q) = parents;
    if is_given_twice(p, q) {
        return Some(ChangesetError::SameParent);
    }
    if is_too_long {
        return Some(ChangesetError::TextTooLong);
    }
    None
}

// The changeset of the entry with the node noted among its extras, on these parents. The entry is copied for it only
// where it has others, and looked at before.
fn write_noting(
    alloc: Global,
    parents: (Node, Node),
    key: &[u8],
    node: Node,
    entry: &Entry,
) -> Result<Vec<Changeset>, Refusal>
    ensures answer { let e = with_extra key.now node entry.now in
        Gives (unwritten (e ∷ []) (written parents (e ∷ []))) (map contents_of (written parents (e ∷ []))) result }
    ensures memory { IsErrOf result Refusal.NoMemory → NoneApplies (entry_refused entry.now ∷ []) }
    ensures first { IsErrOf result Refusal.NoMemory
        → NoneApplies (refused_first (written parents (with_extra key.now node entry.now ∷ []))) }
    ensures each { IfOk result (λ made. (c : Contents) → Contains made.items c → IsChangeset c) }
{
    let digits = node.to_hex();
    check_first_noted(parents, key, &digits, entry)?;
    if has_no_extra(entry) {
        return write_noted(alloc, parents, key, &digits, entry);
    }
    check_entries(slice::from_ref(entry))?;
    let noted = with_extra(alloc, key, node, entry)?;
    write_seen(alloc, parents, &noted)
}

fn has_no_extra(entry: &Entry) -> bool
    ensures { result ≡ (length entry.now.extra == 0) }
{
    entry.extra.is_empty()
}

// The changeset of an entry without extras with this one noted, after what is seen before was looked at.
fn write_noted(
    alloc: Global,
    parents: (Node, Node),
    key: &[u8],
    value: &[u8],
    entry: &Entry,
) -> Result<Vec<Changeset>, Refusal>
    requires { entry.now.extra ≡ [] }
    ensures answer { let e = also_noting key.now value.now entry.now in
        Gives (unwritten (e ∷ []) (written parents (e ∷ []))) (map contents_of (written parents (e ∷ []))) result }
    ensures memory { IsErrOf result Refusal.NoMemory → NoneApplies (entry_refused entry.now ∷ []) }
    ensures each { IfOk result (λ made. (c : Contents) → Contains made.items c → IsChangeset c) }
{
    match text_noting(alloc, key, value, entry) {
        Ok(text) => chain_one(alloc, parents, text),
        Err(fault) => Err(entry_refusal(fault)),
    }
}

fn text_noting(
    alloc: Global,
    key: &[u8],
    value: &[u8],
    entry: &Entry,
) -> Result<Vec<u8>, EntryError>
    requires { entry.now.extra ≡ [] }
    ensures { EntryAnswer (also_noting key.now value.now entry.now) result }
{
    noted_text(alloc, entry, key, value)
}

// A copy of the entry, with the node noted among its extras.
fn with_extra(alloc: Global, key: &[u8], node: Node, entry: &Entry) -> Result<Entry, AllocError>
    ensures { IfOk result (λ noted. noted ≡ with_extra key.now node entry.now) }
{
    let (secs, offset) = date(entry);
    let mut extra = entry.extra.clone()?;
    extra.insert(
        Vec::from_slice(alloc, key)?,
        Vec::from_slice(alloc, &node.to_hex())?,
    )?;
    Ok(Entry {
        user: Vec::from_slice(alloc, &entry.user)?,
        secs,
        offset,
        extra,
        desc: Vec::from_slice(alloc, &entry.desc)?,
    })
}

// When it was made, and the time zone's offset.
pub(crate) fn date(entry: &Entry) -> (i64, i32)
    ensures { result ≡ (entry.now.secs, entry.now.offset) }
{
    (entry.secs, entry.offset)
}

// The changesets of the entries: the first on these parents, each further one on the one before.
fn write(alloc: Global, parents: (Node, Node), entries: &[Entry]) -> Result<Vec<Changeset>, Refusal>
    ensures answer { Gives (unwritten entries.now (written parents entries.now))
        (map contents_of (written parents entries.now)) result }
    ensures memory { IsErrOf result Refusal.NoMemory → NoneApplies (map entry_refused entries.now) }
    ensures first { IsErrOf result Refusal.NoMemory → NoneApplies (refused_first (written parents entries.now)) }
    ensures each { IfOk result (λ made. (c : Contents) → Contains made.items c → IsChangeset c) }
{
    check_first(parents, entries)?;
    check_entries(entries)?;
    let texts = texts(alloc, entries)?;
    chain(alloc, parents, texts)
}

// The changeset of the entry, on these parents. No list of texts is made for it.
fn write_one(alloc: Global, parents: (Node, Node), entry: &Entry) -> Result<Vec<Changeset>, Refusal>
    ensures answer { Gives (unwritten (entry.now ∷ []) (written parents (entry.now ∷ [])))
        (map contents_of (written parents (entry.now ∷ []))) result }
    ensures memory { IsErrOf result Refusal.NoMemory → NoneApplies (entry_refused entry.now ∷ []) }
    ensures first { IsErrOf result Refusal.NoMemory
        → NoneApplies (refused_first (written parents (entry.now ∷ []))) }
    ensures each { IfOk result (λ made. (c : Contents) → Contains made.items c → IsChangeset c) }
{
    check_first(parents, slice::from_ref(entry))?;
    write_seen(alloc, parents, entry)
}

// The same, after what is seen before its text is written was looked at.
fn write_seen(
    alloc: Global,
    parents: (Node, Node),
    entry: &Entry,
) -> Result<Vec<Changeset>, Refusal>
    ensures answer { Gives (unwritten (entry.now ∷ []) (written parents (entry.now ∷ [])))
        (map contents_of (written parents (entry.now ∷ []))) result }
    ensures memory { IsErrOf result Refusal.NoMemory → NoneApplies (entry_refused entry.now ∷ []) }
    ensures each { IfOk result (λ made. (c : Contents) → Contains made.items c → IsChangeset c) }
{
    match entry_text(alloc, entry) {
        Ok(text) => chain_one(alloc, parents, text),
        Err(fault) => Err(entry_refusal(fault)),
    }
}

// The changeset with this text. Want of memory is told only where there is one.
fn chain_one(alloc: Global, parents: (Node, Node), text: Vec<u8>) -> Result<Vec<Changeset>, Refusal>
    ensures answer { Gives (changeset_refused (on_parents parents text.items) ∷ [])
        (contents_of (on_parents parents text.items) ∷ []) result }
    ensures memory { IsErrOf result Refusal.NoMemory
        → NoneApplies (changeset_refused (on_parents parents text.items) ∷ []) }
    ensures each { IfOk result (λ made. (c : Contents) → Contains made.items c → IsChangeset c) }
{
    let (p, q) = parents;
    match Changeset::new(p, q, text) {
        Ok(changeset) => {
            let mut changesets = Vec::with_capacity(alloc, 1)?;
            changesets.push(changeset)?;
            Ok(changesets)
        }
        Err(fault) => Err(Refusal::Fault(Cause::Changeset(fault))),
    }
}

// The texts of the entries.
fn texts(alloc: Global, entries: &[Entry]) -> Result<Vec<Vec<u8>>, Refusal>
    ensures { TextsAnswer entries.now result }
{
    let mut texts = Vec::new(alloc);
    for entry in entries {
        match entry_text(alloc, entry) {
            Ok(text) => texts.push(text)?,
            Err(fault) => return Err(entry_refusal(fault)),
        }
    }
    Ok(texts)
}

fn entry_refusal(fault: EntryError) -> Refusal
    ensures { result ≡ entry_refusal fault }
{
    match fault {
        EntryError::NoMemory => Refusal::NoMemory,
        _ => Refusal::Fault(Cause::Entry(fault)),
    }
}

// The changesets with these texts.
fn chain(
    alloc: Global,
    parents: (Node, Node),
    texts: Vec<Vec<u8>>,
) -> Result<Vec<Changeset>, Refusal>
    ensures answer { Gives (map changeset_refused (chain parents (map (λ text. text.items) texts.items)))
        (map contents_of (chain parents (map (λ text. text.items) texts.items))) result }
    ensures each { IfOk result (λ made. (c : Contents) → Contains made.items c → IsChangeset c) }
{
    let (mut p, mut q) = parents;
    let mut changesets = Vec::new(alloc);
    for text in texts {
        match Changeset::new(p, q, text) {
            Ok(changeset) => {
                p = changeset.node();
                q = Node::NULL;
                changesets.push(changeset)?;
            }
            Err(fault) => return Err(Refusal::Fault(Cause::Changeset(fault))),
        }
    }
    Ok(changesets)
}

// The ids of new changesets, in order. Of one no list is made.
pub(crate) fn ids_of(
    alloc: Global,
    changesets: &[Changeset],
) -> Result<SmallVec<Node, 1>, AllocError>
    ensures ids { IfOk result (λ ids. ids.items ≡ nodes changesets.now) }
    ensures memory { OnErr result (1 < length changesets.now) }
{
    let mut ids = SmallVec::with_capacity(alloc, changesets.len())?;
    for changeset in changesets {
        ids.push(changeset.node())?;
    }
    Ok(ids)
}
