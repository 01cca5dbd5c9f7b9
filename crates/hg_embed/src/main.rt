//! How to use these crates: two peers of a fleet commit, pull and amend, and what is unstable then is printed.
//!
//! Alice commits `a` and, on it, `b`. Bob pulls from her and commits `c` on `b`, while Alice amends `b`. Then Bob pulls
//! what is new: his `c` stands on what was rewritten, so it is an orphan.
#![tactic(auto)]

use hg_changeset::{Entry, Node};
use hg_fleet::Fleet;
use hg_join::NoMemory;
use hg_replica::IdKeys;
use hg_rewrite::Op;
use hg_world::Answer;
use std::alloc::{AllocError, AllocFailed, Global};
use std::collections::{BTreeMap, BTreeSet};
use std::io;
use std::process::ExitCode;
use std::random::RandomSource;

// The places of the two peers in their fleet.
const ALICE: usize = 0;

const BOB: usize = 1;

/// Why the example ends early.
#[derive(Clone, Copy, PartialEq, Eq, Debug)]
enum Stop {
    Refused,
    NoMemory,
    Input,
    Output,
}

impl From<AllocError> for Stop {
    fn from(_error: AllocError) -> Stop {
        Stop::NoMemory
    }
}

impl<T: Drop> From<AllocFailed<T>> for Stop {
    fn from(_error: AllocFailed<T>) -> Stop {
        Stop::NoMemory
    }
}

impl From<NoMemory> for Stop {
    fn from(_error: NoMemory) -> Stop {
        Stop::NoMemory
    }
}

impl From<io::Error> for Stop {
    fn from(_error: io::Error) -> Stop {
        Stop::Output
    }
}

fn main(rt: HostRuntime) -> ExitCode {
    match run(&rt) {
        Ok(()) => ExitCode::SUCCESS,
        Err(stop) => {
            let _ = eprintln!(rt; "{stop:?}");
            ExitCode::FAILURE
        }
    }
}

fn run(rt: &(impl Print + RandomSource + AllocGlobal)) -> Result<(), Stop> {
    let alloc = rt.alloc();
    // What peers send is bytes of strangers: ids that they choose to meet cost nothing more where keys are secret.
    let keys = match IdKeys::secret(rt) {
        Ok(keys) => keys,
        Err(_) => return Err(Stop::Input),
    };
    let mut fleet = Fleet::new(alloc, keys, 2)?;
    exchange(alloc, &mut fleet)?;
    print_unstable(rt, &fleet)
}

// What the two commit, pull and amend.
fn exchange(alloc: Global, fleet: &mut Fleet) -> Result<(), Stop> {
    let a = commit(alloc, fleet, ALICE, Node::NULL, b"a")?;
    let b = commit(alloc, fleet, ALICE, a, b"b")?;
    pull(fleet, BOB, ALICE)?;
    amend(alloc, fleet, ALICE, b, b"b2")?;
    commit(alloc, fleet, BOB, b, b"c")?;
    pull(fleet, BOB, ALICE)
}

// What Bob holds that is obsolete, and what is an orphan there.
fn print_unstable(rt: &impl Print, fleet: &Fleet) -> Result<(), Stop> {
    match fleet.kept(BOB) {
        Some(bob) => {
            let sets = bob.instabilities();
            print_set(rt, "obsolete", sets.obsolete())?;
            print_set(rt, "orphan", sets.orphan())
        }
        None => Err(Stop::Refused),
    }
}

fn commit(
    alloc: Global,
    fleet: &mut Fleet,
    at: usize,
    parent: Node,
    description: &[u8],
) -> Result<Node, Stop> {
    let op = Op::Commit {
        p: parent,
        q: Node::NULL,
        entry: entry(alloc, description)?,
        secret: false,
    };
    operate(fleet, at, op)
}

fn amend(
    alloc: Global,
    fleet: &mut Fleet,
    at: usize,
    node: Node,
    description: &[u8],
) -> Result<Node, Stop> {
    let entry = entry(alloc, description)?;
    operate(fleet, at, Op::Amend { node, entry })
}

// A peer decides an operation and absorbs its part. The new changeset's id.
fn operate(fleet: &mut Fleet, at: usize, op: Op) -> Result<Node, Stop> {
    match fleet.local(at, &op) {
        Answer::Accepted(change) => change.added.first().copied().ok_or(Stop::Refused),
        _ => Err(Stop::Refused),
    }
}

// One peer takes in what the other serves and it lacks.
fn pull(fleet: &mut Fleet, taker: usize, giver: usize) -> Result<(), Stop> {
    match fleet.pull(taker, giver)? {
        Some(pulled) => match pulled.taken {
            Some(Answer::Accepted(_)) => Ok(()),
            _ => Err(Stop::Refused),
        },
        None => Err(Stop::Refused),
    }
}

fn entry(alloc: Global, description: &[u8]) -> Result<Entry, AllocError> {
    Ok(Entry {
        user: Vec::from_slice(alloc, b"alice")?,
        secs: 0,
        offset: 0,
        extra: BTreeMap::new(alloc),
        desc: Vec::from_slice(alloc, description)?,
    })
}

fn print_set(rt: &impl Print, word: &str, nodes: &BTreeSet<Node>) -> Result<(), Stop> {
    for node in nodes {
        let digits = node.to_hex();
        let text = str::from_utf8(&digits).unwrap_or("");
        println!(rt; "{word} {text}")?;
    }
    Ok(())
}
