//! Four threads at one node, in whatever order they get on: two that write there, and two that look for what they
//! write.
ghost use Rattle.std.specs.Prelude.{◌≡◌};

use crate::making::{Open, amend, commit, entry};
use hg_changeset::{Changeset, EntryError, Node as Id, entry_text, noted_text};
use hg_live::{Accepted, Blank, Node, NodeName, OpenGate, Pass};
use hg_replica::Replica;
use hg_rewrite::Op;
use std::alloc::Global;
use std::marker::Brand;
use std::process::Abort;
use std::sync::Wait;
use std::test::*;
use std::thread;
use std::thread::Threads;

// How many calls each of the four makes.
const CALLS: u16 = 250;

// What a writer does, call after call: it commits on its last changeset, and amends that, in turn. Who looks for it
// follows the ids, which are told by its own texts.
#[derive(Clone, Copy)]
struct Author {
    letter: u8,
    calls: u16,
    parent: Id,
    last: Id,
}

impl Author {
    fn new(letter: u8) -> Author {
        Author {
            letter,
            calls: 0,
            parent: Id::NULL,
            last: Id::NULL,
        }
    }

    // The next operation, which makes the changeset that is the last one from then on.
    fn step(&mut self, alloc: Global) -> Option<Op> {
        let [high, low] = self.calls.to_be_bytes();
        let description = [self.letter, high, low];
        let entry = entry(alloc, &description)?;
        let last = self.last;
        let amends = self.calls % 2 == 1;
        let text: Result<Vec<u8>, EntryError> = if amends {
            noted_text(alloc, &entry, b"amend_source", &last.to_hex())
        } else {
            self.parent = last;
            entry_text(alloc, &entry)
        };
        self.last = Changeset::id_of(self.parent, Id::NULL, &text.ok()?).ok()?;
        self.calls = self.calls.wrapping_add(1);
        if amends {
            amend(alloc, last, &description)
        } else {
            commit(alloc, last, &description)
        }
    }
}

#[test]
fn what_threads_see_never_goes_back_and_nothing_is_lost(rt: HostRuntime) {
    let alloc = rt.alloc();
    let blank = Blank::new(alloc, Replica::new(alloc)).expect(&rt, "a blank");
    write_and_look::<Brand, _>(&rt, alloc, blank);
}

fn write_and_look<K: NodeName + Send + Sync, R: Threads + Wait + Abort + Sync>(
    rt: &R,
    alloc: Global,
    blank: Blank,
)
    requires opening { K.opening ≡ blank.opening }
    requires book { blank.opened ≡ K.book }
    requires name { blank.tokens.name ≡ K.name }
    requires parts { blank.tokens.parts ≡ K.parts }
{
    let node: Open<K, &R> = Node::new(rt, alloc, blank, OpenGate).expect(rt, "a node");
    let mut writers = two_passes(rt, &node);
    let mut readers = two_passes(rt, &node);
    let (p, q) = thread::join(
        rt,
        || write_both(rt, alloc, &node, &mut writers),
        || read_both::<K, R>(rt, alloc, &mut readers),
    )
    .0;
    let passes = vec![in alloc; writers.0, writers.1, readers.0, readers.1].expect(rt, "memory");
    match node.close(passes) {
        Ok(replica) => holds_all(rt, &replica, p, q),
        Err(_) => assert!(rt; false, "all passes are back"),
    }
}

// Each writer's 125 commits, and what they were amended to; and a marker for each amend.
fn holds_all(rt: &impl Abort, replica: &Replica, p: Id, q: Id) {
    let graph = replica.graph();
    assert_eq!(rt; (graph.len(), replica.store().len()), (500, 250));
    assert!(rt; graph.contains(p) && graph.contains(q));
}

fn two_passes<K: NodeName, R: Wait + Abort>(rt: &R, node: &Open<K, &R>) -> (Pass<K>, Pass<K>) {
    let one = node.pass(rt).expect(rt, "a pass");
    let other = node.pass(rt).expect(rt, "a pass");
    (one, other)
}

// The last changeset of each.
fn write_both<K: NodeName + Send + Sync, R: Threads + Wait + Abort + Sync>(
    rt: &R,
    alloc: Global,
    node: &Open<K, &R>,
    passes: &mut (Pass<K>, Pass<K>),
) -> (Id, Id) {
    let (p, q) = (&mut passes.0, &mut passes.1);
    thread::join(
        rt,
        || write(rt, alloc, node, p, b'p'),
        || write(rt, alloc, node, q, b'q'),
    )
}

fn read_both<K: NodeName + Send + Sync, R: Threads + Wait + Abort + Sync>(
    rt: &R,
    alloc: Global,
    passes: &mut (Pass<K>, Pass<K>),
) {
    let (r, s) = (&mut passes.0, &mut passes.1);
    thread::join(
        rt,
        || look::<K, R>(rt, alloc, r, b'p'),
        || look::<K, R>(rt, alloc, s, b'q'),
    );
}

// Each call is accepted and shown, and a look finds what it made.
fn write<K: NodeName, R: Wait + Abort>(
    rt: &R,
    alloc: Global,
    node: &Open<K, &R>,
    pass: &mut Pass<K>,
    letter: u8,
) -> Id {
    let mut author = Author::new(letter);
    for _ in 0..CALLS {
        let op = author.step(alloc).expect(rt, "memory");
        assert!(rt; node.local(rt, pass, &op) == Ok(Accepted::Shown));
        assert!(rt; finds(pass, author.last));
    }
    author.last
}

// Looks for what a writer makes, one after the other. What was found once is found at each later look.
fn look<K: NodeName, R: Wait + Abort>(rt: &R, alloc: Global, pass: &mut Pass<K>, letter: u8) {
    let mut author = Author::new(letter);
    let mut found = Id::NULL;
    author.step(alloc).expect(rt, "memory");
    for _ in 0..CALLS {
        if finds(pass, author.last) {
            found = author.last;
            author.step(alloc).expect(rt, "memory");
        }
        assert!(rt; found.is_null() || finds(pass, found));
        thread::yield_now();
    }
}

fn finds<K: NodeName>(pass: &mut Pass<K>, id: Id) -> bool {
    match Node::<K, (), ()>::read(pass, id) {
        Ok(status) => status.phase.is_some(),
        Err(_) => false,
    }
}
