//! Texts byte for byte, and growths that are refused. What is read of texts, and the first line at fault, is shown by
//! cases of `examples/`.
use hg_changeset::Node;
use hg_phaseroots::{RootsError, read_roots, roots_text};
use hg_phases::{Phase, Roots};
use std::alloc::AllocError;

const ONES: Node = Node([0x11; 20]);

const TWOS: Node = Node([0x22; 20]);

#[test]
fn refused_growth_writes_roots_sorted_and_once_and_reads_them(rt: HostRuntime) {
    let alloc = rt.alloc();
    let listed = [
        (Phase::Secret, ONES),
        (Phase::Draft, TWOS),
        (Phase::Public, TWOS),
        (Phase::Draft, ONES),
        (Phase::Draft, TWOS),
    ];
    let Ok(listed) = Vec::from_slice(alloc, &listed) else {
        return;
    };
    let roots = Roots::new(listed);
    let text = match roots_text(&roots) {
        Ok(text) => text,
        Err(AllocError) => roots_text(&roots).expect(&rt, "memory"),
    };
    let expected =
        b"1 1111111111111111111111111111111111111111\n1 2222222222222222222222222222222222222222\n\
        2 1111111111111111111111111111111111111111\n";
    assert!(rt; text.as_slice() == expected.as_slice());
    let read = match read_roots(alloc, &text) {
        Err(RootsError::NoMemory) => read_roots(alloc, &text),
        answer => answer,
    };
    let sorted = [
        (Phase::Draft, ONES),
        (Phase::Draft, TWOS),
        (Phase::Secret, ONES),
    ];
    assert!(rt; read.is_ok_and(|read| read.as_slice() == sorted.as_slice()));
}
