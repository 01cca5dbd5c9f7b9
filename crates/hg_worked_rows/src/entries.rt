//! The text of an entry.
use crate::making::noted;
use hg_changeset::{Changeset, Node, entry_text};

// The description loses its white space at line ends and its line ends at both ends, and the extra's value is escaped.
const TEXT: &[u8] =
    b"0000000000000000000000000000000000000000\nbob\n0 0 note:a\\\\b\\nc\n\n  first\nsecond";

#[test]
fn an_entry_with_an_extra_has_a_text_of_77_bytes(rt: HostRuntime) {
    let alloc = rt.alloc();
    let description = b"\n  first  \nsecond\t\n\n";
    let entry = noted(alloc, b"bob", description, b"note", b"a\\b\nc").expect(&rt, "memory");
    let text = entry_text(alloc, &entry).expect(&rt, "a text");
    assert!(rt; text.len() == 77 && text.as_slice() == TEXT);
    let made = Changeset::new(Node::NULL, Node::NULL, text).expect(&rt, "a changeset");
    let id = Node::from_hex(b"dac24b1ff5c26aed3689aa3ff70285c1528329b6");
    assert!(rt; id == Ok(made.node()));
}
