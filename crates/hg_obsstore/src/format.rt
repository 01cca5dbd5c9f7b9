//! How stores are written and read.
//!
//! A store is a version byte 0 and then its markers, one after the other. Lists of markers with repeats are written and
//! read in the same way; a store that is read holds each marker once, at its first standing.
ghost use Rattle.std.specs.Prelude.{◌≡◌, ◌<◌, ◌+◌, ◌-◌, ◌^◌, ◌++◌, ℕ, List, [], length, IfOk, IfSome, OnOk, OnErr};
ghost use Rattle.std.specs.Prelude.{IsErrOf, MatchResult, Ok, Err, None, take};
ghost use Rattle.hg_marker.specs.declared.error.ReadError.TheVariants.{Fault};
ghost use Rattle.hg_marker.specs.Fields.{Fields};
ghost use Rattle.hg_marker.specs.Faults.{marker_at, left};
ghost use Rattle.hg_marker.specs.Reading.{Gives, IsRead, IsReading};
ghost use Rattle.hg_obsstore.specs.declared.fault.StoreFault.{StoreFault};
ghost use Rattle.hg_obsstore.specs.Places.{picked};
ghost use Rattle.hg_obsstore.specs.Growth.{new_among};
ghost use Rattle.hg_obsstore.specs.Spelling.{IsLength, IsStoreSpelling, store_spelling};
ghost use Rattle.hg_obsstore.specs.Faults.{IsStoreFault, placed_marker, markers_at, store_at};
ghost use Rattle.hg_obsstore.specs.Reads.{StoreAnswer};

use crate::fault::StoreFault;
use crate::store::Store;
use hg_join::NoMemory;
use hg_marker::{Marker, ReadError, read_marker, skip_marker, write_marker};
use hg_node_set::IdKeys;
use std::alloc::{AllocError, Global};

/// The bytes of a store: its one written spelling, with its markers in their order.
pub fn store_bytes(store: &Store) -> Result<Vec<u8>, AllocError>
    ensures written { IfOk result (λ bytes. bytes.items ≡ store_spelling store.now) }
    ensures spells { IfOk result (λ bytes. IsStoreSpelling store.now bytes.items) }
{
    markers_bytes(store.allocator(), store.markers())
}

/// The bytes of markers, with their repeats, as those of a store are written.
pub fn markers_bytes(alloc: Global, markers: &[Marker]) -> Result<Vec<u8>, AllocError>
    ensures written { IfOk result (λ bytes. bytes.items ≡ store_spelling markers.now) }
    ensures spells { IfOk result (λ bytes. IsStoreSpelling markers.now bytes.items) }
{
    let room = markers_len(markers).unwrap_or(0);
    let mut out = Vec::with_capacity(alloc, room)?;
    write_markers(&mut out, markers)?;
    Ok(out)
}

/// Appends the bytes of markers, with their repeats. After an error a front of them may stand there.
pub fn write_markers(out: &mut Vec<u8>, markers: &[Marker]) -> Result<(), AllocError>
    ensures ok { OnOk result (out.new.items ≡ out.old.items ++ store_spelling markers.now) }
    ensures err { OnErr result ((n : ℕ) × (out.new.items ≡ out.old.items ++ take n (store_spelling markers.now))) }
{
    out.push(0)?;
    for marker in markers {
        write_marker(out, marker)?;
    }
    Ok(())
}

/// Appends the bytes of the markers at these places, as [`write_markers`] does. After an error a front of them may
/// stand there.
pub fn write_markers_at(
    out: &mut Vec<u8>,
    store: &Store,
    places: &[usize],
) -> Result<(), AllocError>
    ensures ok { OnOk result (out.new.items ≡ out.old.items ++ store_spelling (picked store.now places.now)) }
    ensures err { OnErr result
        ((n : ℕ) × (out.new.items ≡ out.old.items ++ take n (store_spelling (picked store.now places.now)))) }
{
    out.push(0)?;
    for place in places {
        match store.get(*place) {
            Some(marker) => write_marker(out, marker)?,
            None => {}
        }
    }
    Ok(())
}

/// How many bytes the markers take as they are written, if a `usize` can tell it.
pub fn markers_len(markers: &[Marker]) -> Option<usize>
    ensures some { IfSome result (λ n. n ≡ length (store_spelling markers.now)) }
    ensures none { result ≡ None → 2 ^ 64 - 1 < length (store_spelling markers.now) }

    // Any markers can be spelled.
    ensures spells { IsStoreSpelling markers.now (store_spelling markers.now) }
{
    let mut len = Some(1);
    for marker in markers {
        len = add_len(len, marker.written_len());
    }
    len
}

/// How many bytes the markers at these places take as they are written, if a `usize` can tell it.
pub fn markers_len_at(store: &Store, places: &[usize]) -> Option<usize>
    ensures some { IfSome result (λ n. n ≡ length (store_spelling (picked store.now places.now))) }
    ensures none { result ≡ None → 2 ^ 64 - 1 < length (store_spelling (picked store.now places.now)) }

    // Any markers can be spelled.
    ensures spells { IsStoreSpelling (picked store.now places.now) (store_spelling (picked store.now places.now)) }
{
    let mut total = Some(1);
    for place in places {
        match store.get(*place) {
            Some(marker) => total = add_len(total, marker.written_len()),
            None => {}
        }
    }
    total
}

// So many bytes more.
fn add_len(len: Option<usize>, more: usize) -> Option<usize>
    ensures { (n : ℕ) → IsLength len n → IsLength result (n + more) }
{
    match len {
        Some(len) => len.checked_add(more),
        None => None,
    }
}

/// Reads the bytes of a store. No bytes at all are a store without markers, and of equal markers the first stands.
///
/// Refuses with the first [`StoreFault`] from the front, before it takes any memory. The store hashes ids by the rule
/// that everybody knows. Who reads bytes of strangers takes [`read_store_with_keys`].
pub fn read_store(alloc: Global, bytes: &[u8]) -> Result<Store, ReadError<StoreFault>>
    ensures { StoreAnswer bytes.now result }
{
    read_store_with_keys(alloc, IdKeys::known(), bytes)
}

/// The same as [`read_store`], and the store hashes ids by these keys.
pub fn read_store_with_keys(
    alloc: Global,
    keys: IdKeys,
    bytes: &[u8],
) -> Result<Store, ReadError<StoreFault>>
    ensures { StoreAnswer bytes.now result }
{
    let markers = read_markers(alloc, bytes)?;
    match store_of(alloc, keys, markers) {
        Ok(store) => Ok(store),
        Err(NoMemory) => Err(ReadError::NoMemory),
    }
}

/// Reads the markers of a store with their repeats, in their order. No bytes at all have no markers.
///
/// Refuses with the first [`StoreFault`] from the front, before it takes any memory.
pub fn read_markers(alloc: Global, bytes: &[u8]) -> Result<Vec<Marker>, ReadError<StoreFault>>
    // What is spelled so is read, unless memory runs out, and nothing else.
    ensures only { (ms : List Fields) → IsStoreSpelling ms bytes.now → Gives (λ markers. markers.items) result (Ok ms) }
    ensures found { IfOk result (λ markers. IsStoreSpelling markers.items bytes.now) }

    // The fault is the one that there is, and where there is one it is told: want of memory never stands for it.
    ensures fault { (f : StoreFault) → IsErrOf result (Fault f) → IsStoreFault bytes.now f }
    ensures refused { (f : StoreFault) → IsStoreFault bytes.now f → IsErrOf result (Fault f) }

    // Without a marker behind the version no memory is taken.
    ensures memory { IsErrOf result ReadError.NoMemory → 1 < length bytes.now }

    // The same, marker by marker.
    ensures exact { Gives (λ markers. markers.items) result (store_at bytes.now) }
{
    read_version_and_markers(alloc, bytes)
}

fn read_version_and_markers(
    alloc: Global,
    bytes: &[u8],
) -> Result<Vec<Marker>, ReadError<StoreFault>>
    ensures exact { Gives (λ markers. markers.items) result (store_at bytes.now) }
    ensures memory { IsErrOf result ReadError.NoMemory → 1 < length bytes.now }
{
    match check_markers(bytes) {
        Ok(()) => Ok(read_checked(alloc, bytes)?),
        Err(fault) => Err(ReadError::Fault(fault)),
    }
}

/// Refuses bytes that [`read_markers`] refuses, with the same [`StoreFault`]. It takes no memory.
#[tactic(auto, unfolding(crate::specs::Faults::store_at))]
pub fn check_markers(bytes: &[u8]) -> Result<(), StoreFault>
    ensures { MatchResult result
        (λ _. IsRead (store_at bytes.now))
        (λ fault. store_at bytes.now ≡ Err fault) }
{
    match bytes {
        [] => Ok(()),
        [0, rest @ ..] => check_rest(bytes.len(), rest),
        [version, ..] => Err(StoreFault::BadVersion(*version)),
    }
}

// Refuses the first marker, up to the end of the rest of so many bytes, that can't be read. It takes no memory.
fn check_rest(total: usize, bytes: &[u8]) -> Result<(), StoreFault>
    ensures { MatchResult result
        (λ _. IsRead (markers_at total (length bytes.now) bytes.now))
        (λ fault. markers_at total (length bytes.now) bytes.now ≡ Err fault) }
{
    let mut rest = bytes;
    while !rest.is_empty() {
        match skip_placed(total, rest) {
            Ok(after) => rest = after,
            Err(fault) => return Err(fault),
        }
    }
    Ok(())
}

// The bytes after the marker at the front of the rest of so many bytes.
fn skip_placed(total: usize, rest: &[u8]) -> Result<&[u8], StoreFault>
    ensures after { IsReading (λ after. after.now) result (left (placed_marker total rest.now)) }
    ensures shorter { IfOk result (λ after. length after.now < length rest.now) }
{
    match skip_marker(rest) {
        Ok(after) => Ok(after),
        Err(cause) => {
            let place = total.saturating_sub(rest.len());
            Err(StoreFault::Bad(place, cause))
        }
    }
}

// The markers of bytes that were checked.
fn read_checked(alloc: Global, bytes: &[u8]) -> Result<Vec<Marker>, AllocError>
    requires { IsRead (store_at bytes.now) }
    ensures read { IfOk result (λ markers. store_at bytes.now ≡ Ok markers.items) }
    ensures memory { OnErr result (1 < length bytes.now) }
{
    match bytes {
        [] => Ok(Vec::new(alloc)),
        [_, rest @ ..] => read_to_end(alloc, rest),
    }
}

// The markers up to the end of bytes behind the version that were checked.
fn read_to_end(alloc: Global, bytes: &[u8]) -> Result<Vec<Marker>, AllocError>
    ensures read { (total : ℕ) → IfOk result
        (λ markers. markers_at total (length bytes.now) bytes.now ≡ Ok markers.items) }
    ensures memory { OnErr result (0 < length bytes.now) }
{
    let mut markers = Vec::new(alloc);
    let mut rest = bytes;
    while !rest.is_empty() {
        let (marker, after) = read_next(alloc, rest)?;
        markers.push(marker)?;
        rest = after;
    }
    Ok(markers)
}

// The marker at the front of bytes that were checked, so that memory alone can be wanting, and the bytes after it.
fn read_next(alloc: Global, rest: &[u8]) -> Result<(Marker, &[u8]), AllocError>
    ensures marker { IfOk result (λ x. marker_at rest.now ≡ Ok (x.0, x.1.now)) }
    ensures shorter { IfOk result (λ x. length x.1.now < length rest.now) }
{
    match read_marker(alloc, rest) {
        Ok((marker, after)) => Ok((marker, after)),
        Err(_) => Err(AllocError),
    }
}

// The store of the markers, each once.
fn store_of(alloc: Global, keys: IdKeys, markers: Vec<Marker>) -> Result<Store, NoMemory>
    ensures ok { IfOk result (λ store. store ≡ new_among [] markers.items) }
    ensures err { OnErr result (0 < length markers.items) }
{
    let mut store = Store::with_keys(alloc, keys);
    store.add_owned(markers)?;
    Ok(store)
}
