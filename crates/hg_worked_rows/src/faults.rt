//! What an operation would write and can't be written.
use crate::making::{A, EMPTY, commit, entry, noted, operate, prune, replica_of_empty, text_at};
use hg_changeset::{ChangesetError, EntryError, Node};
use hg_marker::MarkerError;
use hg_phases::Phase;
use hg_replica::Replica;
use hg_rewrite::{Cause, Op, Refusal, decide};
use hg_view::Pins;
use std::alloc::Global;

// Why the operation is refused.
fn refusal_of(alloc: Global, replica: &Replica, op: &Op) -> Option<Refusal> {
    decide(alloc, replica, &Pins::new(alloc), op).err()
}

// Whether it is refused for this cause, which is number 8.
fn is_fault(alloc: Global, replica: &Replica, op: &Op, cause: Cause) -> bool {
    match refusal_of(alloc, replica, op) {
        Some(refusal) => refusal == Refusal::Fault(cause) && refusal.number() == Some(8),
        None => false,
    }
}

// A commit of a row, which has the user and the key of an extra.
fn commit_of_row(alloc: Global, row: &[u8]) -> Option<Op> {
    let entry = noted(alloc, text_at(row, 0)?, b"x", text_at(row, 1)?, b"v")?;
    Some(commit(Node::NULL, Node::NULL, entry, false))
}

#[test]
fn an_entry_without_a_text_is_a_fault(rt: HostRuntime) {
    let alloc = rt.alloc();
    let replica = Replica::new(alloc);
    for (row, fault) in [
        (b" \t\n|k".as_slice(), EntryError::EmptyUser),
        (b"a\nb|k", EntryError::NewlineInUser),
        (b"a|branch", EntryError::BadExtraKey),
    ] {
        let op = commit_of_row(alloc, row).expect(&rt, "memory");
        assert!(rt; is_fault(alloc, &replica, &op, Cause::Entry(fault)));
    }
}

#[test]
fn a_text_and_metadata_that_are_too_long_are_faults(rt: HostRuntime) {
    let alloc = rt.alloc();
    let replica = replica_of_empty(alloc, Phase::Draft).expect(&rt, "memory");
    let long = vec![in alloc; b'x'; 1_048_576].expect(&rt, "memory");
    let longer = entry(alloc, b"fleet", &long).expect(&rt, "memory");
    let op = commit(Node::NULL, Node::NULL, longer, false);
    let cause = Cause::Changeset(ChangesetError::TextTooLong);
    assert!(rt; is_fault(alloc, &replica, &op, cause));
    let op = prune(alloc, EMPTY, &long).expect(&rt, "memory");
    let cause = Cause::Marker(MarkerError::MetaTooLong);
    assert!(rt; is_fault(alloc, &replica, &op, cause));
}

// To split a node into these two descriptions.
fn split(alloc: Global, node: Node, one: &[u8], other: &[u8]) -> Option<Op> {
    let mut entries = Vec::new(alloc);
    entries.push(entry(alloc, b"fleet", one)?).ok()?;
    entries.push(entry(alloc, b"fleet", other)?).ok()?;
    Some(Op::Split { node, entries })
}

#[test]
fn a_split_into_a_short_text_and_one_that_is_too_long_is_a_fault(rt: HostRuntime) {
    let alloc = rt.alloc();
    let replica = replica_of_empty(alloc, Phase::Draft).expect(&rt, "memory");
    let long = vec![in alloc; b'x'; 1_048_576].expect(&rt, "memory");
    let op = split(alloc, EMPTY, b"a", &long).expect(&rt, "memory");
    let cause = Cause::Changeset(ChangesetError::TextTooLong);
    assert!(rt; is_fault(alloc, &replica, &op, cause));
}

// A root `a` by `fleet`, and a child of it.
fn stack(alloc: Global) -> Option<(Replica, Node)> {
    let mut replica = Replica::new(alloc);
    let root = entry(alloc, b"fleet", b"a")?;
    operate(
        alloc,
        &mut replica,
        &commit(Node::NULL, Node::NULL, root, false),
    )?;
    let child = entry(alloc, b"fleet", b"b")?;
    let change = operate(alloc, &mut replica, &commit(A, Node::NULL, child, false))?;
    let node = *change.added.first()?;
    Some((replica, node))
}

// What is folded would become the lowest of it again.
#[test]
fn a_fold_into_one_of_what_it_folds_is_a_fault(rt: HostRuntime) {
    let alloc = rt.alloc();
    let (replica, child) = stack(alloc).expect(&rt, "memory");
    let nodes = Vec::from_slice(alloc, &[A, child]).expect(&rt, "memory");
    let entry = entry(alloc, b"fleet", b"a").expect(&rt, "memory");
    let op = Op::Fold { nodes, entry };
    let cause = Cause::Marker(MarkerError::SelfSuccessor);
    assert!(rt; is_fault(alloc, &replica, &op, cause));
}
