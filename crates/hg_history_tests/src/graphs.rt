//! A fork with its merge, and each growth refused.
use hg_changeset::{Changeset, Node};
use hg_graph::{Added, Graph, GraphError, ParentPlaces};
use std::alloc::Global;

// Adds a changeset of these parents without a text, and tells its id. Where a growth is refused it is added again.
fn add(alloc: Global, graph: &mut Graph, p: Node, q: Node) -> Option<Node> {
    let made = Changeset::new(p, q, Vec::new(alloc)).ok()?;
    let added = match graph.add_copy(&made) {
        Err(GraphError::NoMemory) => graph.add_copy(&made),
        answer => answer,
    };
    match added {
        Ok(Added::New) => Some(made.node()),
        _ => None,
    }
}

#[test]
fn a_fork_and_its_merge(rt: HostRuntime) {
    let alloc = rt.alloc();
    let mut graph = Graph::new(alloc);
    let root = add(alloc, &mut graph, Node::NULL, Node::NULL).expect(&rt, "a root");
    let left = add(alloc, &mut graph, root, Node::NULL).expect(&rt, "a child");
    let text = Vec::from_slice(alloc, b"right").expect(&rt, "memory");
    let made = Changeset::new(root, Node::NULL, text).expect(&rt, "a changeset");
    let right = made.node();
    assert!(rt; graph.add(made) == Ok(Added::New));
    let merge = add(alloc, &mut graph, left, right).expect(&rt, "a merge");

    let unknown = Node([7; 20]);
    let above = graph
        .ancestors(&[left, unknown, root, left])
        .expect(&rt, "memory");
    assert!(rt; above.as_slice() == [root, left].as_slice());
    let below = graph
        .descendants(&[left, unknown, merge])
        .expect(&rt, "memory");
    assert!(rt; below.as_slice() == [left, merge].as_slice());
    let ascending = [left.min(right), left.max(right)];
    let heads = graph
        .heads_of(&[right, root, left, unknown])
        .expect(&rt, "memory");
    assert!(rt; heads.as_slice() == ascending.as_slice());
    let (first, second) = if left < right { (1, 2) } else { (2, 1) };
    let places = ParentPlaces {
        first: Some(first),
        second: Some(second),
    };
    assert!(rt; graph.len() == 4 && graph.parent_places(3) == places);
}

// Adds a root and nine more, each a child of the root and of the one before, and tells the root and the last.
fn add_ten(alloc: Global, graph: &mut Graph) -> Option<(Node, Node)> {
    let root = add(alloc, graph, Node::NULL, Node::NULL)?;
    let mut last = Node::NULL;
    for _ in 0..9 {
        last = add(alloc, graph, root, last)?;
    }
    Some((root, last))
}

#[test]
fn refused_growth_adds_nothing_and_passes_again(rt: HostRuntime) {
    let alloc = rt.alloc();
    let mut graph = Graph::new(alloc);
    assert!(rt; add_ten(alloc, &mut graph).is_some());
    let copy = match graph.copy() {
        Ok(copy) => copy,
        Err(_) => graph.copy().expect(&rt, "memory"),
    };
    assert!(rt; copy.len() == 10 && copy.children(0).len() == 9);
}

#[test]
fn refused_growth_of_what_is_asked_passes_again(rt: HostRuntime) {
    let alloc = rt.alloc();
    let mut graph = Graph::new(alloc);
    let (root, last) = add_ten(alloc, &mut graph).expect(&rt, "ten");
    let above = match graph.ancestors(&[last]) {
        Ok(above) => above,
        Err(_) => graph.ancestors(&[last]).expect(&rt, "memory"),
    };
    let below = match graph.descendants(&[root]) {
        Ok(below) => below,
        Err(_) => graph.descendants(&[root]).expect(&rt, "memory"),
    };
    assert!(rt; above.len() == 10 && above.as_slice() == below.as_slice());
    let heads = match graph.heads_of(&[root, last]) {
        Ok(heads) => heads,
        Err(_) => graph.heads_of(&[root, last]).expect(&rt, "memory"),
    };
    assert!(rt; heads.as_slice() == [last].as_slice());
}
