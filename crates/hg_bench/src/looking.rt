//! The case of a node that threads share: what looks cost beside a thread that commits.
//!
//! The time is that on the clock, so that waiting counts. It begins once the writer is at work, before the threads of
//! the readers begin, and ends with the last look of all of them. The looks are at the first changeset of what the node
//! opens with. The case ends with an error where a look is refused, or the writer isn't at work in time.
ghost use Rattle.std.specs.Prelude.{◌≡◌};

use hg_changeset::{Entry, Node as Id};
use hg_live::{Blank, Node, NodeName, OpenGate, Pass, Writer};
use hg_replica::Replica;
use hg_rewrite::Op;
use std::alloc::{AllocError, Global};
use std::collections::BTreeMap;
use std::io;
use std::io::ErrorKind;
use std::marker::Brand;
use std::sync::Wait;
use std::sync::atomic::{AtomicBool, Ordering};
use std::thread::{Threads, for_each_mut, join, yield_now};
use std::time::{Clock, Duration, Instant};

// How often each reader looks.
const LOOKS: usize = 1_000_000;

// How often the readers ask whether the writer is at work, before they begin. Each time another thread may run.
const TURNS: usize = 10_000_000;

// A node that is written to with this right to wait.
type Open<'a, K, R> = Node<K, OpenGate, Writer<K, &'a R>>;

// What the writer and the readers tell each other.
#[derive(Drop)]
struct Signals {
    is_writing: AtomicBool,
    have_ended: AtomicBool,
    was_refused: AtomicBool,
}

/// A million looks by each of these readers, side by side, while another thread commits again and again until they have
/// ended: the time on the clock from the first reader's start to the last one's end.
pub fn look_beside_writer<R: Clock + Threads + Wait + Sync>(
    rt: &R,
    alloc: Global,
    replica: Replica,
    readers: usize,
) -> io::Result<Duration> {
    let first = replica.graph().node_at(0).unwrap_or(Id::NULL);
    match Blank::new(alloc, replica) {
        Ok(blank) => time_looks::<Brand, R>(rt, alloc, blank, first, readers),
        Err(_) => Err(ErrorKind::OutOfMemory.into()),
    }
}

fn time_looks<K: NodeName + Send + Sync, R: Clock + Threads + Wait + Sync>(
    rt: &R,
    alloc: Global,
    blank: Blank,
    looked_at: Id,
    readers: usize,
) -> io::Result<Duration>
    requires opening { K.opening ≡ blank.opening }
    requires book { blank.opened ≡ K.book }
    requires name { blank.tokens.name ≡ K.name }
    requires parts { blank.tokens.parts ≡ K.parts }
{
    let node = match Node::new(rt, alloc, blank, OpenGate) {
        Ok(node) => node,
        Err(_) => return Err(ErrorKind::OutOfMemory.into()),
    };
    let mut passes = passes_of(rt, alloc, &node, readers)?;
    let mut writes = pass_of(rt, &node)?;
    let signals = Signals {
        is_writing: AtomicBool::new(false),
        have_ended: AtomicBool::new(false),
        was_refused: AtomicBool::new(false),
    };
    let ((), spent) = join(
        rt,
        || commit_until(rt, alloc, &node, &mut writes, &signals),
        || look_and_end::<K, R>(rt, &mut passes, looked_at, &signals),
    );
    spent
}

// So many passes of the node.
fn passes_of<K: NodeName, R: Wait>(
    rt: &R,
    alloc: Global,
    node: &Open<'_, K, R>,
    count: usize,
) -> Result<Vec<Pass<K>>, AllocError> {
    let mut passes = Vec::new(alloc);
    for _ in 0..count {
        passes.push(pass_of(rt, node)?)?;
    }
    Ok(passes)
}

fn pass_of<K: NodeName, R: Wait>(rt: &R, node: &Open<'_, K, R>) -> Result<Pass<K>, AllocError> {
    match node.pass(rt) {
        Ok(pass) => Ok(pass),
        Err(_) => Err(AllocError),
    }
}

// All looks of all readers, after which the writer ends, too.
fn look_and_end<K: NodeName + Send + Sync, R: Clock + Threads + Wait + Sync>(
    rt: &R,
    passes: &mut [Pass<K>],
    looked_at: Id,
    signals: &Signals,
) -> io::Result<Duration> {
    let spent = look_in_time::<K, R>(rt, passes, looked_at, signals);
    signals.have_ended.store(true, Ordering::SeqCst);
    spent
}

fn look_in_time<K: NodeName + Send + Sync, R: Clock + Threads + Wait + Sync>(
    rt: &R,
    passes: &mut [Pass<K>],
    looked_at: Id,
    signals: &Signals,
) -> io::Result<Duration> {
    if !is_writer_at_work(signals) {
        return Err(ErrorKind::TimedOut.into());
    }
    let threads = passes.len().max(1);
    let before = Instant::now(rt)?;
    for_each_mut(
        rt,
        passes,
        threads,
        &|_, pass| { look_often(pass, looked_at, signals) },
    );
    let spent = before.elapsed(rt)?;
    if signals.was_refused.load(Ordering::SeqCst) {
        return Err(ErrorKind::OutOfMemory.into());
    }
    Ok(spent)
}

// Waits until the writer is at work, and tells whether it is.
fn is_writer_at_work(signals: &Signals) -> bool {
    for _ in 0..TURNS {
        if signals.is_writing.load(Ordering::SeqCst) {
            return true;
        }
        yield_now();
    }
    false
}

fn look_often<K: NodeName>(pass: &mut Pass<K>, looked_at: Id, signals: &Signals) {
    for _ in 0..LOOKS {
        if Node::<K, (), ()>::read(pass, looked_at).is_err() {
            signals.was_refused.store(true, Ordering::SeqCst);
        }
    }
}

// Commits again and again until the readers have ended.
fn commit_until<K: NodeName, R: Wait>(
    rt: &R,
    alloc: Global,
    node: &Open<'_, K, R>,
    pass: &mut Pass<K>,
    signals: &Signals,
) {
    let mut second = 0i64;
    signals.is_writing.store(true, Ordering::SeqCst);
    for _ in rt.forever() {
        if signals.have_ended.load(Ordering::SeqCst) {
            return;
        }
        if let Ok(op) = commit_at(alloc, second) {
            let _answer = node.local(rt, pass, &op);
        }
        second = second.wrapping_add(1);
    }
}

// A commit without parents at this time, which tells it from the others.
fn commit_at(alloc: Global, secs: i64) -> Result<Op, AllocError> {
    Ok(Op::Commit {
        p: Id::NULL,
        q: Id::NULL,
        entry: Entry {
            user: Vec::from_slice(alloc, b"fleet")?,
            secs,
            offset: 0,
            extra: BTreeMap::new(alloc),
            desc: Vec::new(alloc),
        },
        secret: false,
    })
}
