//! Cases of a replica: what joining it costs, telling what follows from what it holds, and offering that.
use crate::timing::since;
use hg_changeset::Node;
use hg_instab::Instabilities;
use hg_message::{Outgoing, Scope};
use hg_replica::Replica;
use hg_succ::several_among;
use hg_view::{Pins, served, visible};
use std::alloc::{AllocError, Global};
use std::io;
use std::io::ErrorKind;
use std::time::{CpuClock, Duration};

// How often roots are told.
const OFTEN: usize = 1000;

/// A replica joins another.
pub fn join(rt: &impl CpuClock, replica: &mut Replica, other: &Replica) -> io::Result<Duration> {
    let before = rt.thread_cpu_time()?;
    let _joined = replica.join(other);
    since(rt, before)
}

/// An equal replica.
pub fn copy_of(replica: &Replica) -> io::Result<Replica> {
    match replica.copy() {
        Ok(copy) => Ok(copy),
        Err(_) => Err(ErrorKind::OutOfMemory.into()),
    }
}

/// Whether a replica is below another.
pub fn ask_below(rt: &impl CpuClock, replica: &Replica, other: &Replica) -> io::Result<Duration> {
    let before = rt.thread_cpu_time()?;
    let _below = replica.is_below(other);
    since(rt, before)
}

/// The roots, told a thousand times.
pub fn tell_roots(rt: &impl CpuClock, replica: &Replica) -> io::Result<Duration> {
    let before = rt.thread_cpu_time()?;
    for _ in 0..OFTEN {
        let _roots = replica.roots();
    }
    since(rt, before)
}

/// All instabilities.
pub fn tell(rt: &impl CpuClock, alloc: Global, replica: &Replica) -> io::Result<Duration> {
    let before = rt.thread_cpu_time()?;
    let _sets = Instabilities::from_scratch(alloc, replica)?;
    since(rt, before)
}

/// What is visible, and what is served.
pub fn view(rt: &impl CpuClock, alloc: Global, replica: &Replica) -> io::Result<Duration> {
    let pins = Pins::new(alloc);
    let before = rt.thread_cpu_time()?;
    let _visible = visible(alloc, replica, &pins)?;
    let _served = served(alloc, replica, &pins)?;
    since(rt, before)
}

/// The successors sets of all predecessors, and which of these have several.
pub fn tell_sets(rt: &impl CpuClock, alloc: Global, replica: &Replica) -> io::Result<Duration> {
    let asked = predecessors(alloc, replica)?;
    let before = rt.thread_cpu_time()?;
    let _several = several_among(alloc, replica, &asked)?;
    since(rt, before)
}

// The predecessors of all markers.
fn predecessors(alloc: Global, replica: &Replica) -> Result<Vec<Node>, AllocError> {
    let mut nodes = Vec::new(alloc);
    for marker in replica.store().markers() {
        nodes.push(marker.predecessor())?;
    }
    Ok(nodes)
}

/// All that is served is found, to be offered.
pub fn find(rt: &impl CpuClock, alloc: Global, replica: &Replica) -> io::Result<Duration> {
    let pins = Pins::new(alloc);
    let before = rt.thread_cpu_time()?;
    let _found = Outgoing::above(alloc, replica, &pins, &[], Scope::Served);
    since(rt, before)
}

/// All that the scope names is found, and written straight from the replica.
pub fn send(
    rt: &impl CpuClock,
    alloc: Global,
    replica: &Replica,
    scope: Scope,
) -> io::Result<Duration> {
    let pins = Pins::new(alloc);
    let before = rt.thread_cpu_time()?;
    if let Ok(found) = Outgoing::above(alloc, replica, &pins, &[], scope) {
        let _written = found.to_bytes();
    }
    since(rt, before)
}
