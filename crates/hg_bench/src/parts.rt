//! Cases of a message and its part: what reading it costs, and taking it in.
use crate::timing::since;
use hg_message::Message;
use hg_node_set::IdKeys;
use hg_replica::{Part, Replica};
use hg_view::Kept;
use std::alloc::Global;
use std::io;
use std::io::ErrorKind;
use std::time::{CpuClock, Duration};

/// The part of the message that the bytes spell.
pub fn part_of(alloc: Global, bytes: &[u8]) -> io::Result<Part> {
    match Message::from_bytes(alloc, bytes) {
        Ok(message) => Ok(message.into_part()?),
        Err(_) => Err(ErrorKind::InvalidData.into()),
    }
}

/// A replica with these keys that holds the part alone.
pub fn replica_of(alloc: Global, keys: IdKeys, part: Part) -> io::Result<Replica> {
    let mut replica = Replica::with_keys(alloc, keys);
    match replica.absorb_owned(part) {
        Ok(_) => Ok(replica),
        Err(_) => Err(ErrorKind::InvalidData.into()),
    }
}

/// A message is read.
pub fn read(rt: &impl CpuClock, alloc: Global, bytes: &[u8]) -> io::Result<Duration> {
    let before = rt.thread_cpu_time()?;
    let _read = Message::from_bytes(alloc, bytes);
    since(rt, before)
}

/// A part is taken in by an empty replica with these keys, to which it is handed over.
pub fn take(rt: &impl CpuClock, alloc: Global, keys: IdKeys, part: Part) -> io::Result<Duration> {
    let mut replica = Replica::with_keys(alloc, keys);
    let before = rt.thread_cpu_time()?;
    let _absorbed = replica.absorb_owned(part);
    since(rt, before)
}

/// The same by a replica that keeps its sets of instabilities.
pub fn keep(rt: &impl CpuClock, alloc: Global, keys: IdKeys, part: Part) -> io::Result<Duration> {
    let mut kept = Kept::new(alloc, Replica::with_keys(alloc, keys))?;
    let before = rt.thread_cpu_time()?;
    let _absorbed = kept.absorb_owned(part);
    since(rt, before)
}
