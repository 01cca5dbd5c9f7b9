//! Labels, each public call once, and each growth refused.
use hg_changeset::Node;
use hg_names::Labels;
use hg_node_set::IdKeys;

// A label of eleven bytes, of which the first so many differ from those of another number.
fn text_of(number: u8) -> [u8; 11] {
    [
        number, 0, number, b'.', number, b'.', b'l', b'o', b'n', b'g', number,
    ]
}

// Each label is bound by a second call where a growth is refused.
#[test]
fn refused_growth_keeps_what_is_bound(rt: HostRuntime) {
    let mut labels = Labels::with_keys(rt.alloc(), IdKeys::known());
    for number in 0..12u8 {
        let (text, node) = (text_of(number), Node([number; 20]));
        for len in 0..12usize {
            let part = &text[..len];
            assert!(rt; labels.bind(part, node).is_ok() || labels.bind(part, node).is_ok());
        }
    }
    for number in 0..12u8 {
        let text = text_of(number);
        for len in 1..12usize {
            assert!(rt; labels.get(&text[..len]) == Some(Node([number; 20])));
        }
    }
    // The label of no bytes was bound again with each number.
    assert!(rt; labels.get(b"") == Some(Node([11; 20])));
}

// A label of seven bytes and one of eight, which are kept apart, and their like that differ in one byte.
#[test]
fn labels_that_differ_in_a_byte(rt: HostRuntime) {
    let mut labels = Labels::new(rt.alloc());
    for label in [b"seven-1".as_slice(), b"eight-12"] {
        assert!(rt; labels.get(label) == None);
        labels.bind(label, Node([1; 20])).expect(&rt, "memory");
        labels.bind(label, Node([2; 20])).expect(&rt, "memory");
        assert!(rt; labels.get(label) == Some(Node([2; 20])));
    }
    assert!(rt; labels.get(b"seven-2") == None && labels.get(b"eight-13") == None);
    assert!(rt; labels.get(b"seven-") == None && labels.get(b"Eight-12") == None);
}
