//! One node of a race.
ghost use Rattle.std.specs.Prelude.{◌≡◌};

use crate::rounds::write_rounds;
use crate::station::{Mailbox, Station};
use crate::taking::{Taken, take_rounds};
use hg_join::NoMemory;
use hg_live::{Blank, CloseRefusal, Node, NodeName, OpenGate, Pass, Writer};
use hg_replica::{IdKeys, Replica};
use std::alloc::Global;
use std::marker::Brand;
use std::sync::Wait;
use std::thread;
use std::thread::Threads;

/// A node whose gate is open, written to by what has the right to wait.
pub(crate) type Open<K, W> = Node<K, OpenGate, Writer<K, W>>;

/// Which node it is, what it has to do, and where it gets memory.
#[derive(Clone, Copy)]
pub(crate) struct Lane {
    /// The allocator.
    pub alloc: Global,

    /// What its replicas hash ids by.
    pub keys: IdKeys,

    /// The node's number, from 0.
    pub number: u8,

    /// How many rounds it has.
    pub rounds: u16,
}

/// A node that is about to race.
#[derive(Drop)]
pub(crate) struct Racer {
    /// What it has to do.
    pub lane: Lane,

    /// Where its messages come from.
    pub own: Station,

    /// Where it puts messages for the next node.
    pub next: Station,
}

/// What the rounds of a node came to.
#[derive(Clone, Copy)]
pub(crate) struct Counts {
    /// The operations after which the node published them.
    pub written: u64,

    /// The changesets that were read back and found.
    pub read_back: u64,
}

impl Counts {
    /// Nothing yet.
    pub const NONE: Counts = Counts {
        written: 0,
        read_back: 0,
    };

    /// Both together.
    pub fn and(self, other: Counts) -> Counts {
        Counts {
            written: self.written.saturating_add(other.written),
            read_back: self.read_back.saturating_add(other.read_back),
        }
    }
}

/// What both threads of a node did.
#[derive(Clone, Copy)]
struct Raced {
    // What the rounds of the one came to.
    counts: Counts,

    // That the other one did its rounds.
    taken: Taken,
}

/// What is left of a node when its threads have ended.
#[derive(Drop)]
pub(crate) struct Outcome {
    /// What its rounds came to.
    pub counts: Counts,

    /// Its replica, where it was closed.
    pub replica: Option<Replica>,
}

impl Outcome {
    /// That of a node that gave no passes.
    const NONE: Outcome = Outcome {
        counts: Counts::NONE,
        replica: None,
    };
}

/// Lets one node race. Nothing is in it at first. Where it gives no passes it does no rounds, and none is left of it.
pub(crate) fn race_one<R: Threads + Wait + Sync>(
    rt: &R,
    racer: Racer,
) -> Result<Outcome, NoMemory> {
    let alloc = racer.lane.alloc;
    let blank = Blank::new(alloc, Replica::with_keys(alloc, racer.lane.keys))?;
    race_named::<Brand, R>(rt, blank, racer)
}

fn race_named<K: NodeName + Send + Sync, R: Threads + Wait + Sync>(
    rt: &R,
    blank: Blank,
    racer: Racer,
) -> Result<Outcome, NoMemory>
    requires opening { K.opening ≡ blank.opening }
    requires book { blank.opened ≡ K.book }
    requires name { blank.tokens.name ≡ K.name }
    requires parts { blank.tokens.parts ≡ K.parts }
{
    let alloc = racer.lane.alloc;
    let node: Open<K, &R> = Node::new(rt, alloc, blank, OpenGate)?;
    let Some(passes) = two_passes(rt, &node) else {
        return Ok(Outcome::NONE);
    };
    let (raced, passes) = race_by(rt, &node, racer, passes);
    let replica = close(alloc, node, passes)?;
    Ok(Outcome {
        counts: raced?.counts,
        replica,
    })
}

// Lets a node race by these passes, and gives them back.
fn race_by<K: NodeName + Send + Sync, R: Threads + Wait + Sync>(
    rt: &R,
    node: &Open<K, &R>,
    racer: Racer,
    passes: (Pass<K>, Pass<K>),
) -> (Result<Raced, NoMemory>, (Pass<K>, Pass<K>)) {
    let Racer {
        lane,
        mut own,
        mut next,
    } = racer;
    let (mut writes, mut takes) = passes;
    let raced = race_both(
        rt,
        &lane,
        node,
        (&mut writes, &mut next),
        (&mut takes, &mut own),
    );
    (raced, (writes, takes))
}

// Lets the threads of a node do their rounds: one with what it writes by, the other with what it takes by.
fn race_both<K: NodeName + Send + Sync, R: Threads + Wait + Sync, M: Mailbox + Send>(
    rt: &R,
    lane: &Lane,
    node: &Open<K, &R>,
    writes: (&mut Pass<K>, &mut M),
    takes: (&mut Pass<K>, &mut M),
) -> Result<Raced, NoMemory> {
    let (writing, next) = writes;
    let (taking, own) = takes;
    let (written, taken) = thread::join(
        rt,
        || write_rounds(rt, lane, node, writing, next),
        || take_rounds(rt, lane, node, taking, own),
    );
    let taken = taken?;
    Ok(Raced {
        counts: written?,
        taken,
    })
}

// Two passes, where the node gives them.
fn two_passes<K: NodeName, R: Wait>(rt: &R, node: &Open<K, &R>) -> Option<(Pass<K>, Pass<K>)> {
    let Ok(writes) = node.pass(rt) else {
        return None;
    };
    let Ok(takes) = node.pass(rt) else {
        return None;
    };
    Some((writes, takes))
}

// Closes a node, for which both its passes are back. None is left where one is said to be missing.
fn close<K: NodeName, R: Wait>(
    alloc: Global,
    node: Open<K, &R>,
    passes: (Pass<K>, Pass<K>),
) -> Result<Option<Replica>, NoMemory> {
    let passes = vec![in alloc; passes.0, passes.1]?;
    match node.close(passes) {
        Ok(replica) => Ok(Some(replica)),
        Err(unclosed) => match unclosed.why {
            CloseRefusal::PassesOut => Ok(None),
            CloseRefusal::NoMemory => Err(NoMemory),
        },
    }
}
