//! Messages that are read, written, copied and taken apart, and growths that are refused.
use crate::rows::{CHILD, EMPTY, FIRST, ROOT, SERVED, WHOLE, all_kinds, holder, one_changeset};
use hg_message::{Changeset, Message, Node, Phase, ReadError, Scope};
use hg_replica::Replica;
use std::alloc::{AllocError, Global};
use std::process::Abort;

// The message of the changeset EMPTY, with a draft bound and this scope.
fn message_of_one(alloc: Global, scope: Scope) -> Option<Message> {
    let empty = Changeset::new(Node::NULL, Node::NULL, Vec::new(alloc)).ok()?;
    let bounds = Vec::from_slice(alloc, &[(EMPTY, Phase::Draft)]).ok()?;
    let mut changesets = Vec::new(alloc);
    changesets.push(empty).ok()?;
    Message::new(scope, changesets, bounds, Vec::new(alloc)).ok()
}

// The bytes that are written, where one growth may be refused.
fn written(rt: &impl Abort, message: &Message) -> Vec<u8> {
    match message.to_bytes() {
        Ok(bytes) => bytes,
        Err(AllocError) => message.to_bytes().expect(rt, "memory"),
    }
}

// The message that the bytes spell where some changesets are held, where one growth may be refused.
fn read(rt: &impl Abort, alloc: Global, held: Option<&Replica>, bytes: &[u8]) -> Message {
    match Message::from_bytes_at(alloc, held, bytes) {
        Ok(message) => message,
        Err(ReadError::NoMemory) => {
            Message::from_bytes_at(alloc, held, bytes).expect(rt, "a message")
        }
        Err(ReadError::Fault(_)) => panic!(rt; "a fault in place of want of memory"),
    }
}

#[test]
fn one_changeset_is_written_and_read(rt: HostRuntime) {
    let alloc = rt.alloc();
    for (scope, head) in [(Scope::Served, SERVED), (Scope::Whole, WHOLE)] {
        let message = message_of_one(alloc, scope).expect(&rt, "memory");
        let bytes = one_changeset(alloc, head).expect(&rt, "memory");
        assert!(rt; bytes.len() == 107 && message.scope() == scope);
        assert!(rt; written(&rt, &message) == bytes);
        assert!(rt; read(&rt, alloc, None, &bytes) == message);
    }
}

// Parents in either order are read as the same. Repeats stand.
#[test]
fn version_1_is_served_and_written_as_version_2_in_normal_form(rt: HostRuntime) {
    let alloc = rt.alloc();
    let first = all_kinds(alloc, FIRST, Node::NULL, ROOT).expect(&rt, "memory");
    let second = all_kinds(alloc, SERVED, ROOT, Node::NULL).expect(&rt, "memory");
    assert!(rt; first.len() == 309 && second.len() == 310);
    let message = read(&rt, alloc, None, &first);
    assert!(rt; message.scope() == Scope::Served);
    assert!(rt; message.changesets().len() == 2 && message.markers().len() == 2);
    assert!(rt; message.bounds() == [(ROOT, Phase::Public), (CHILD, Phase::Secret)].as_slice());
    assert!(rt; written(&rt, &message) == second);
}

// One allocation is refused, wherever it falls: the same call with memory answers as ever, whatever is held.
#[test]
fn refused_growth_reads_writes_and_copies_nothing(rt: HostRuntime) {
    let alloc = rt.alloc();
    let Some(bytes) = all_kinds(alloc, WHOLE, ROOT, Node::NULL) else {
        return;
    };
    let message = read(&rt, alloc, None, &bytes);
    assert!(rt; written(&rt, &message) == bytes);
    let copy = match message.copy() {
        Ok(copy) => copy,
        Err(AllocError) => message.copy().expect(&rt, "memory"),
    };
    let Some(replica) = holder(alloc, &bytes) else {
        return;
    };
    assert!(rt; read(&rt, alloc, Some(&replica), &bytes) == copy);
}

#[test]
fn refused_growth_gives_no_part(rt: HostRuntime) {
    let alloc = rt.alloc();
    let Some(bytes) = all_kinds(alloc, SERVED, ROOT, Node::NULL) else {
        return;
    };
    let Some(replica) = holder(alloc, &bytes) else {
        return;
    };
    let part = match Message::part_at(alloc, &replica, &bytes) {
        Ok(part) => part,
        Err(_) => Message::part_at(alloc, &replica, &bytes).expect(&rt, "memory"),
    };
    assert!(rt; part.changesets.is_empty() && part.markers.len() == 2);
    assert!(rt; part.bounds[..] == [(ROOT, Phase::Public), (CHILD, Phase::Secret)]);
    let Some(message) = message_of_one(alloc, Scope::Served) else {
        return;
    };
    let part = match message.part() {
        Ok(part) => part,
        Err(AllocError) => message.part().expect(&rt, "memory"),
    };
    assert!(rt; part.bounds[..] == [(EMPTY, Phase::Draft), (EMPTY, Phase::Draft)]);
}
