//! Measures what is done with a message: reading it, taking it in, telling what follows from it, and offering it again.
//!
//! `hg_bench CASE < MESSAGE` does the case with the message, and prints the nanoseconds that it took: of processor
//! time, but where threads work beside each other, of time on the clock. What the case needs is made before, and isn't
//! in it. Its tables have secret keys. By `hg_bench CASE known < MESSAGE` they have those that everybody knows, under
//! which ids may have been chosen to meet. Without a case it prints nothing.
#![tactic(auto)]

mod looking;
mod parts;
mod replicas;
mod timing;

use hg_message::Scope;
use hg_node_set::IdKeys;
use hg_replica::Replica;
use looking::look_beside_writer;
use parts::{keep, part_of, read, replica_of, take};
use replicas::{ask_below, copy_of, find, join, send, tell, tell_roots, tell_sets, view};
use std::alloc::Global;
use std::io::{ErrorKind, Read};
use std::sync::Wait;
use std::thread::Threads;
use std::time::{Clock, CpuClock, Duration};
use std::{env, io};

// The most bytes of a message that are read.
const LIMIT: u64 = 67_108_864;

fn main(rt: HostRuntime) -> io::Result<()> {
    let words: Vec<String> = env::args(&rt)?.collect(rt.alloc())?;
    match words.as_slice() {
        [_, case] => run(&rt, IdKeys::secret(&rt)?, case),
        [_, case, rule] if rule.as_str() == "known" => run(&rt, IdKeys::known(), case),
        _ => Ok(()),
    }
}

fn run<R: Input + Clock + CpuClock + Threads + Wait + Print + AllocGlobal + Sync>(
    rt: &R,
    keys: IdKeys,
    case: &str,
) -> io::Result<()> {
    let mut bytes = Vec::new(rt.alloc());
    rt.reader().take(LIMIT).read_to_end(&mut bytes)?;
    let nanos = spent(rt, rt.alloc(), keys, case, &bytes)?.as_nanos();
    println!(rt; "{nanos}")
}

// What a case took with the message of these bytes, where tables have these keys.
fn spent<R: Clock + CpuClock + Threads + Wait + Sync>(
    rt: &R,
    alloc: Global,
    keys: IdKeys,
    case: &str,
    bytes: &[u8],
) -> io::Result<Duration> {
    match case {
        "read" => read(rt, alloc, bytes),
        "take" => take(rt, alloc, keys, part_of(alloc, bytes)?),
        "keep" => keep(rt, alloc, keys, part_of(alloc, bytes)?),
        _ => spent_on_replica(
            rt,
            alloc,
            keys,
            case,
            replica_of(alloc, keys, part_of(alloc, bytes)?)?,
        ),
    }
}

// What a case took with the replica that holds what the message says.
fn spent_on_replica<R: Clock + CpuClock + Threads + Wait + Sync>(
    rt: &R,
    alloc: Global,
    keys: IdKeys,
    case: &str,
    replica: Replica,
) -> io::Result<Duration> {
    match case {
        "reads-beside-writer-1" => look_beside_writer(rt, alloc, replica, 1),
        "reads-beside-writer-2" => look_beside_writer(rt, alloc, replica, 2),
        "reads-beside-writer-4" => look_beside_writer(rt, alloc, replica, 4),
        _ => spent_on_looks(rt, alloc, keys, case, &replica),
    }
}

// The same, where the case only looks at the replica.
fn spent_on_looks(
    rt: &impl CpuClock,
    alloc: Global,
    keys: IdKeys,
    case: &str,
    replica: &Replica,
) -> io::Result<Duration> {
    match case {
        "join-into-empty" => join(rt, &mut Replica::with_keys(alloc, keys), replica),
        "join-into-equal" => join(rt, &mut copy_of(replica)?, replica),
        "below" => ask_below(rt, &copy_of(replica)?, replica),
        "roots" => tell_roots(rt, replica),
        "tell" => tell(rt, alloc, replica),
        "view" => view(rt, alloc, replica),
        "sets" => tell_sets(rt, alloc, replica),
        "find-offer" => find(rt, alloc, replica),
        "send-offer" => send(rt, alloc, replica, Scope::Served),
        "send-whole" => send(rt, alloc, replica, Scope::Whole),
        _ => Err(ErrorKind::InvalidInput.into()),
    }
}
