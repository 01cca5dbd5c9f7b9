//! Ids with the numbers in whose order they came, by known keys and by secret ones, and each growth refused.
use hg_changeset::Node;
use hg_node_set::{IdKeys, NodeSet};

// An id that begins with so many of the one byte and ends with the other.
fn id(first: u8, last: u8) -> Node {
    let mut bytes = [first; 20];
    bytes[19] = last;
    Node(bytes)
}

// Whether an id that isn't there takes the next number, by a second call where growth is refused.
fn takes(set: &mut NodeSet, node: Node) -> bool {
    let held = set.len();
    let full = match set.insert_full(node) {
        Err(_) if set.len() == held && !set.contains(node) => set.insert_full(node),
        answer => answer,
    };
    full == Ok((held, true)) && set.get_index_of(node) == Some(held)
}

// Whether ids keep their numbers while others come and go.
fn keeps_numbers(mut set: NodeSet) -> bool {
    for number in 0..30u8 {
        if !takes(&mut set, id(7, number)) || !takes(&mut set, id(number, 99)) {
            return false;
        }
    }
    set.truncate(50);
    let kept = set.len() == 50 && set.insert(id(7, 24)) == Ok(false) && !set.contains(id(7, 25));
    kept && takes(&mut set, id(7, 25)) && set.as_slice().get(2).copied() == Some(id(7, 1))
}

#[test]
fn refused_growth_inserts_nothing_and_passes_again(rt: HostRuntime) {
    let alloc = rt.alloc();
    let keys = IdKeys::secret(&rt).expect(&rt, "keys");
    assert!(rt;
        keeps_numbers(NodeSet::new(alloc)) && keeps_numbers(NodeSet::with_keys(alloc, keys))
    );
    let mut set = NodeSet::with_keys(alloc, NodeSet::with_keys(alloc, keys).keys());
    let node = id(1, 2);
    let number = match set.append(node) {
        Ok(number) => number,
        Err(_) => set.append(node).expect(&rt, "memory"),
    };
    assert!(rt; number == 0 && set.get_index_of(node) == Some(0));
}
