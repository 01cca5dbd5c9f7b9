//! In what two repositories differ, worked out by hand. The ids are the SHA-1 of parents and texts.
use crate::rows::{FIRST, NOTHING, WHOLE, one_changeset};
use crate::scene::{chain, commit, rewrite};
use hg_changeset::Node;
use hg_log::NamedNode;
use hg_node_set::IdKeys;
use hg_phases::Phase;
use hg_preview::{NamedMessage, compare_messages, write_comparison};
use hg_replica::Replica;
use hg_view::Kept;
use std::alloc::Global;

// A draft chain of three.
fn mine(alloc: Global) -> Option<Kept> {
    let mut replica = Replica::new(alloc);
    chain(alloc, &mut replica)?;
    Kept::new(alloc, replica).ok()
}

// The first of them, which is public, and what came in place of the second.
fn theirs(alloc: Global) -> Option<Kept> {
    let mut replica = Replica::new(alloc);
    let a = commit(alloc, &mut replica, Node::NULL, b"a", Phase::Public)?;
    let amended = commit(alloc, &mut replica, a, b"b2", Phase::Draft)?;
    rewrite(
        alloc,
        &mut replica,
        Node([0x11; 20]),
        &[amended],
        (b"operation", b"amend"),
    )?;
    Kept::new(alloc, replica).ok()
}

// What is written of two, the second of which is called in a way that is escaped, and whether they agree.
fn compared(alloc: Global, mine: &Kept, theirs: &Kept) -> Option<(bool, Vec<u8>)> {
    let first = NamedNode {
        name: b"A",
        kept: mine,
    };
    let second = NamedNode {
        name: b"B\n",
        kept: theirs,
    };
    let mut written = Vec::new(alloc);
    let answer = write_comparison(alloc, &first, &second, &mut written).ok()?;
    Some((answer, written))
}

#[test]
fn repositories_that_hold_the_same_agree(rt: HostRuntime) {
    let alloc = rt.alloc();
    let mine = mine(alloc).expect(&rt, "memory");
    let (answer, written) = compared(alloc, &mine, &mine).expect(&rt, "memory");
    assert!(rt; answer && written.as_slice() == b"agree: yes\n".as_slice());
}

#[test]
fn what_either_lacks_and_other_phases_are_told(rt: HostRuntime) {
    let alloc = rt.alloc();
    let mine = mine(alloc).expect(&rt, "memory");
    let theirs = theirs(alloc).expect(&rt, "memory");
    let (answer, written) = compared(alloc, &mine, &theirs).expect(&rt, "memory");
    let lines = b"A lacks: efcbbf9489c6\n\
            A lacks: 1 markers\n\
            B\\n lacks: 544d83e6863f\n\
            B\\n lacks: 0876f885e672\n\
            phases differ: 047b75c6d7a3: draft/public\n\
            agree: no\n";
    assert!(rt; !answer && written.as_slice() == lines.as_slice());
}

// What is written of two messages, and whether what they open agrees.
fn messages_compared(alloc: Global, mine: &[u8], theirs: &[u8]) -> Option<(Option<bool>, Vec<u8>)> {
    let first = NamedMessage {
        name: b"mine",
        bytes: mine,
    };
    let second = NamedMessage {
        name: b"theirs",
        bytes: theirs,
    };
    let mut written = Vec::new(alloc);
    let answer = compare_messages(alloc, IdKeys::known(), &first, &second, &mut written).ok()?;
    Some((answer, written))
}

#[test]
fn what_two_messages_open_is_compared(rt: HostRuntime) {
    let alloc = rt.alloc();
    let mine = one_changeset(alloc, WHOLE).expect(&rt, "memory");
    let (answer, written) = messages_compared(alloc, &mine, NOTHING).expect(&rt, "memory");
    let lines = b"theirs lacks: b80de5d13875\n\
            agree: no\n";
    assert!(rt; answer == Some(false) && written.as_slice() == lines.as_slice());
}

#[test]
fn a_message_that_is_refused_is_not_compared(rt: HostRuntime) {
    let alloc = rt.alloc();
    let (answer, written) = messages_compared(alloc, FIRST, NOTHING).expect(&rt, "memory");
    let line = b"take mine: refused: no message: 1 Truncated at 5\n";
    assert!(rt; answer.is_none() && written.as_slice() == line.as_slice());
}
