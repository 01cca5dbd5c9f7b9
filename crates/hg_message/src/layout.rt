//! How a message is read.
//!
//! First the parts of the message are found in its bytes, and all faults before the store are told, without memory.
//! Then the parts are copied. The store's fault, and bytes that follow it, are told before anything else is copied.
ghost use Rattle.std.specs.Prelude.{◌≡◌, ◌<◌, ◌≤◌, ◌+◌, ◌^◌, IfOk, IfErr, IsErrOf, MatchResult, IsTrue, length, Err};
ghost use Rattle.std.specs.Option.{option_copied};
ghost use Rattle.hg_marker.specs.Reading.{Gives};
ghost use Rattle.hg_obsstore.specs.Spelling.{IsStoreSpelling};
ghost use Rattle.hg_message.specs.Layout.{IsLayout, HoldsSomething, KnowsRecords, GivesPart, least_len};
ghost use Rattle.hg_message.specs.Layout.{markers_in, said};
ghost use Rattle.hg_obsstore.specs.Faults.{IsStoreFault, store_at};
ghost use Rattle.hg_message.specs.Message.{message_at, told_in};
ghost use Rattle.hg_message.specs.Part.{part_of};

use crate::bound::{read_bounds, skip_bounds};
use crate::error::MessageFault;
use crate::message::Message;
use crate::place::truncated;
use crate::record::{read_records, skip_records};
use crate::scope::{Scope, VERSION_WITHOUT_SCOPE, read_scope};
use hg_marker::{Marker, ReadError, read_byte, read_field, read_number};
use hg_obsstore::{StoreFault, read_markers};
use hg_replica::{Bounds, Part, Replica};
use std::alloc::Global;

/// `HGFX`.
pub(crate) const MAGIC: u32 = 0x4847_4658;

/// The version that is written.
pub(crate) const VERSION: u8 = 2;

/// The parts of a message where they stand in its bytes. Records and bounds are whole and without fault, the store
/// wasn't looked at yet.
#[derive(Clone, Copy)]
pub(crate) struct Layout<'a> {
    // How many bytes the message has.
    total: usize,
    scope: Scope,
    // How many records, and the bytes from the first on.
    count: u32,
    records: &'a [u8],
    // Whether all their changesets are known.
    are_known: bool,
    // How many bounds, and the bytes from the first on.
    entries: u32,
    bounds: &'a [u8],
    // The place of the store, its bytes, and those behind it.
    start: usize,
    store: &'a [u8],
    rest: &'a [u8],
}

/// The parts of the message, of whose records those of changesets that are held are spared their hash. It takes no
/// memory.
#[tactic(auto, using(crate::proofs::LayoutLemmas::ends_alike), unfolding(crate::specs::Message::parts_at))]
pub(crate) fn split_message<'a>(
    held: Option<&Replica>,
    bytes: &'a [u8],
) -> Result<Layout<'a>, MessageFault>
    ensures exact { MatchResult result
        (λ layout. message_at bytes.now ≡ said layout)
        (λ fault. message_at bytes.now ≡ Err fault) }
    ensures layout { IfOk result IsLayout }
    ensures known { IfOk result (KnowsRecords (option_copied held.entry)) }
    ensures long { IfOk result (λ layout. least_len layout ≤ length bytes.now) }
{
    let total = bytes.len();
    let (magic, rest) = read_number(bytes, truncated(total, bytes))?;
    if magic != MAGIC {
        return Err(MessageFault::BadMagic);
    }
    let (version, rest) = read_byte(rest, truncated(total, rest))?;
    if version != VERSION_WITHOUT_SCOPE && version != VERSION {
        return Err(MessageFault::BadVersion);
    }
    let (scope, rest) = read_scope(total, version, rest)?;
    let (count, records) = read_number(rest, truncated(total, rest))?;
    let (rest, are_known) = skip_records(held, total, count, records)?;
    let (entries, bounds) = read_number(rest, truncated(total, rest))?;
    let rest = skip_bounds(total, entries, bounds)?;
    let (len, rest) = read_number(rest, truncated(total, rest))?;
    let start = total.saturating_sub(rest.len());
    let (store, rest) = read_field(rest, len as usize, truncated(total, rest))?;
    Ok(Layout {
        total,
        scope,
        count,
        records,
        are_known,
        entries,
        bounds,
        start,
        store,
        rest,
    })
}

impl<'a> Layout<'a> {
    /// The message of the parts. Faults are told before want of memory.
    pub(crate) fn read(&self, alloc: Global) -> Result<Message, ReadError<MessageFault>>
        requires { IsLayout self.now }
        ensures exact { Gives (λ message. message) result (said self.now) }
        ensures memory { IsErrOf result ReadError.NoMemory → HoldsSomething self.now }
    {
        let markers = self.read_last(alloc)?;
        let changesets = read_records(alloc, self.total, self.count, self.records)?;
        let bounds = read_bounds(alloc, self.total, self.entries, self.bounds)?;
        Ok(Message::of_parts(self.scope, changesets, bounds, markers))
    }

    /// The part of the message, or what is left of it without the changesets where all of them are known. Faults are
    /// told before want of memory.
    pub(crate) fn part(&self, alloc: Global) -> Result<Part, ReadError<MessageFault>>
        requires { IsLayout self.now }
        ensures part { GivesPart self.now result }
        ensures memory { IsErrOf result ReadError.NoMemory → HoldsSomething self.now }
    {
        if self.are_known {
            return self.read_rest(alloc);
        }
        match self.read(alloc) {
            Ok(message) => part_of_message(message),
            Err(error) => Err(error),
        }
    }

    // What is left of the part without the changesets.
    fn read_rest(&self, alloc: Global) -> Result<Part, ReadError<MessageFault>>
        requires layout { IsLayout self.now }
        requires known { IsTrue self.now.are_known }
        ensures part { GivesPart self.now result }
        ensures memory { IsErrOf result ReadError.NoMemory → HoldsSomething self.now }
    {
        let markers = self.read_last(alloc)?;
        let bounds = read_bounds(alloc, self.total, self.entries, self.bounds)?;
        Ok(Part {
            changesets: Vec::new(alloc),
            bounds: Bounds::from_vec(bounds),
            markers,
        })
    }

    // The markers of the store, behind which nothing may follow. Where bytes follow, want of memory isn't told.
    fn read_last(&self, alloc: Global) -> Result<Vec<Marker>, ReadError<MessageFault>>
        requires { IsLayout self.now }
        ensures exact { Gives (λ markers. markers.items) result (markers_in self.now) }
        ensures spelled { IfOk result (λ markers. IsStoreSpelling markers.items self.now.store.now) }
        ensures memory { IsErrOf result ReadError.NoMemory → 26 < length self.now.store.now }
    {
        match read_placed(alloc, self.start, self.store) {
            Err(ReadError::Fault(fault)) => Err(ReadError::Fault(fault)),
            _ if !self.rest.is_empty() => Err(ReadError::Fault(MessageFault::Trailing)),
            other => other,
        }
    }
}

// The markers of the store that begins at this place of a message.
fn read_placed(
    alloc: Global,
    start: usize,
    store: &[u8],
) -> Result<Vec<Marker>, ReadError<MessageFault>>
    requires { start + length store.now < 2 ^ 64 }
    ensures exact { Gives (λ markers. markers.items) result (told_in start (store_at store.now)) }
    ensures spelled { IfOk result (λ markers. IsStoreSpelling markers.items store.now) }
    ensures memory { IsErrOf result ReadError.NoMemory → 26 < length store.now }
{
    match read_markers(alloc, store) {
        Ok(markers) => Ok(markers),
        Err(ReadError::NoMemory) => Err(ReadError::NoMemory),
        Err(ReadError::Fault(cause)) => Err(ReadError::Fault(placed(start, store, cause))),
    }
}

// The fault of the store that begins at this place of a message.
fn placed(start: usize, store: &[u8], cause: StoreFault) -> MessageFault
    requires within { start + length store.now < 2 ^ 64 }
    requires fault { IsStoreFault store.now cause }
    ensures { told_in {A = Unit} start (Err cause) ≡ Err result }
{
    match cause {
        StoreFault::BadVersion(_) => MessageFault::BadMarker(start, cause),
        StoreFault::Bad(place, _) => MessageFault::BadMarker(start + place, cause),
    }
}

// The part of a message.
fn part_of_message(message: Message) -> Result<Part, ReadError<MessageFault>>
    ensures part { IfOk result (λ part. part ≡ part_of message) }
    ensures memory { IfErr result (λ error. (error ≡ ReadError.NoMemory) × (0 < length message.changesets)) }
{
    match message.into_part() {
        Ok(part) => Ok(part),
        Err(_) => Err(ReadError::NoMemory),
    }
}
