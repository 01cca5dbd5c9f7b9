//! Threads that look at a node while another one is held just before it publishes there.
ghost use Rattle.std.specs.Prelude.{◌≡◌};

use crate::making::{A, id, root};
use hg_live::{Accepted, Blank, Gate, Node, NodeName, Pass, Writer};
use hg_peer::Scope;
use hg_replica::Replica;
use std::alloc::Global;
use std::marker::Brand;
use std::process::Abort;
use std::sync::Wait;
use std::sync::atomic::{AtomicU64, Ordering};
use std::test::*;
use std::thread;
use std::thread::Threads;

// How many turns the one who is held waits for the looks: in each it lets others run, and then sees for so often
// whether they are answered.
const TURNS: u16 = 1000;

const SIGHTS: u16 = 50_000;

// What the thread that publishes and those that look tell each other. Each counts up from 0.
#[derive(Drop)]
struct Signals {
    // How many look, and how often they do in all.
    lookers: u64,
    looks: u64,
    held: AtomicU64,
    running: AtomicU64,
    answered: AtomicU64,
    // Whether all were answered before the turns were over.
    in_time: AtomicU64,
}

impl Signals {
    fn new(lookers: u64, looks: u64) -> Signals {
        Signals {
            lookers,
            looks,
            held: AtomicU64::new(0),
            running: AtomicU64::new(0),
            answered: AtomicU64::new(0),
            in_time: AtomicU64::new(0),
        }
    }
}

// Waits until the count is as wanted, and lets others run meanwhile.
fn wait_for<W: Wait>(rt: &W, count: &AtomicU64, wanted: u64) {
    for _ in rt.forever() {
        if count.load(Ordering::SeqCst) == wanted {
            return;
        }
        thread::yield_now();
    }
}

// Whether the looks are answered within a turn.
fn are_answered_in_a_turn(signals: &Signals) -> bool {
    thread::yield_now();
    for _ in 0..SIGHTS {
        if signals.answered.load(Ordering::SeqCst) == signals.looks {
            return true;
        }
    }
    false
}

// Whether they are within all turns.
fn are_answered(signals: &Signals) -> bool {
    for _ in 0..TURNS {
        if are_answered_in_a_turn(signals) {
            return true;
        }
    }
    false
}

// It holds who publishes until the looks are answered, or the turns are over. These are counted once all who look run,
// which begin only when it holds.
#[derive(Drop)]
struct HeldGate<'a, W> {
    keep: W,
    signals: &'a Signals,
}

impl<W: Wait> Gate for HeldGate<'_, W> {
    fn at_publish(&self) {
        self.signals.held.store(1, Ordering::SeqCst);
        wait_for(&self.keep, &self.signals.running, self.signals.lookers);
        if are_answered(self.signals) {
            self.signals.in_time.store(1, Ordering::SeqCst);
        }
    }
}

type Held<'a, K, R> = Node<K, HeldGate<'a, &'a R>, Writer<K, &'a R>>;

#[test]
fn a_read_is_answered_while_another_thread_is_held_at_the_gate(rt: HostRuntime) {
    let alloc = rt.alloc();
    let blank = Blank::new(alloc, Replica::new(alloc)).expect(&rt, "a blank");
    let signals = Signals::new(1, 1);
    hold_and_read::<Brand, _>(&rt, alloc, blank, &signals);
    assert_eq!(rt; signals.in_time.load(Ordering::SeqCst), 1);
}

fn hold_and_read<K: NodeName + Send + Sync, R: Threads + Wait + Abort + Sync>(
    rt: &R,
    alloc: Global,
    blank: Blank,
    signals: &Signals,
)
    requires opening { K.opening ≡ blank.opening }
    requires book { blank.opened ≡ K.book }
    requires name { blank.tokens.name ≡ K.name }
    requires parts { blank.tokens.parts ≡ K.parts }
{
    let gate = HeldGate { keep: rt, signals };
    let node: Held<'_, K, R> = Node::new(rt, alloc, blank, gate).expect(rt, "a node");
    let mut writes = node.pass(rt).expect(rt, "a pass");
    let mut reads = node.pass(rt).expect(rt, "a pass");
    let op = root(alloc, b"a").expect(rt, "memory");

    let shared = &node;
    thread::join(
        rt,
        move || {
            assert!(rt; shared.local(rt, &mut writes, &op) == Ok(Accepted::Shown));
        },
        move || {
            begin(rt, signals);
            read(rt, signals, &mut reads);
        },
    );
}

#[test]
fn two_threads_look_while_another_is_held_at_the_gate(rt: HostRuntime) {
    let alloc = rt.alloc();
    let blank = Blank::new(alloc, Replica::new(alloc)).expect(&rt, "a blank");
    let signals = Signals::new(2, 6);
    hold_and_look::<Brand, _>(&rt, alloc, blank, &signals);
    assert_eq!(rt; signals.in_time.load(Ordering::SeqCst), 1);
}

fn hold_and_look<K: NodeName + Send + Sync, R: Threads + Wait + Abort + Sync>(
    rt: &R,
    alloc: Global,
    blank: Blank,
    signals: &Signals,
)
    requires opening { K.opening ≡ blank.opening }
    requires book { blank.opened ≡ K.book }
    requires name { blank.tokens.name ≡ K.name }
    requires parts { blank.tokens.parts ≡ K.parts }
{
    let gate = HeldGate { keep: rt, signals };
    let node: Held<'_, K, R> = Node::new(rt, alloc, blank, gate).expect(rt, "a node");
    let mut writes = node.pass(rt).expect(rt, "a pass");
    let one = node.pass(rt).expect(rt, "a pass");
    let other = node.pass(rt).expect(rt, "a pass");
    let op = root(alloc, b"a").expect(rt, "memory");

    let shared = &node;
    thread::join(
        rt,
        move || {
            assert!(rt; shared.local(rt, &mut writes, &op) == Ok(Accepted::Shown));
        },
        move || {
            thread::join(
                rt,
                move || look(rt, signals, one),
                move || look(rt, signals, other),
            );
        },
    );
}

// Waits for the one who is to be held, and says that this thread runs.
fn begin<R: Wait>(rt: &R, signals: &Signals) {
    wait_for(rt, &signals.held, 1);
    signals.running.fetch_add(1, Ordering::SeqCst);
}

// A read while another thread is held sees the state before.
fn read<K: NodeName>(rt: &impl Abort, signals: &Signals, pass: &mut Pass<K>) {
    let status = Node::<K, (), ()>::read(pass, id(rt, A)).expect(rt, "a look");
    signals.answered.fetch_add(1, Ordering::SeqCst);
    assert!(rt; status.phase.is_none());
}

// Three looks, one of each kind. None waits for who is held.
fn look<K: NodeName, R: Wait + Abort>(rt: &R, signals: &Signals, mut pass: Pass<K>) {
    begin(rt, signals);
    read(rt, signals, &mut pass);
    let known = Node::<K, (), ()>::known(&mut pass, &[id(rt, A)]).expect(rt, "a look");
    signals.answered.fetch_add(1, Ordering::SeqCst);
    assert_eq!(rt; known.as_slice(), [false].as_slice());
    let offered = Node::<K, (), ()>::offer(&mut pass, &[], Scope::Served);
    signals.answered.fetch_add(1, Ordering::SeqCst);
    assert!(rt; offered.is_ok());
}
