//! Calls that can be refused memory and that no other row makes: each once with ample memory, and its answer.
use crate::making::{EMPTY, ONES, TWOS, empty, mark, push, replica_of, replica_of_empty};
use hg_changeset::{Changeset, Node};
use hg_graph::{Added, Graph};
use hg_history::History;
use hg_instab::Instabilities;
use hg_join::JoinState;
use hg_obsstore::Store;
use hg_phases::{Phase, PhaseMap, PhaseRoots, Roots};
use hg_replica::{Change, Part, Replica};
use hg_view::{Kept, PinRefusal, Pins, served, share};
use std::alloc::Global;
use std::borrow::CowSlice;
use std::collections::BTreeSet;
use std::process::Abort;

#[test]
fn changesets_are_added_to_a_graph_once_and_copied(rt: HostRuntime) {
    let alloc = rt.alloc();
    let root = Changeset::new(Node::NULL, Node::NULL, Vec::new(alloc)).expect(&rt, "a root");
    let copy = root.copy().expect(&rt, "memory");
    assert!(rt; copy == root && copy.node() == EMPTY && copy.text().is_empty());
    let mut graph = Graph::new(alloc);
    let before = graph.copy().expect(&rt, "memory");
    assert!(rt; graph.add(root) == Ok(Added::New) && graph.add(copy) == Ok(Added::Known));
    let after = graph.copy().expect(&rt, "memory");
    assert!(rt; before.is_empty() && after.len() == 1 && after.node_at(0) == Some(EMPTY));
}

// The graph of the root without a text.
fn graph_of_empty(rt: &impl Abort, alloc: Global) -> Graph {
    let root = Changeset::new(Node::NULL, Node::NULL, Vec::new(alloc)).expect(rt, "a root");
    let mut graph = Graph::new(alloc);
    assert!(rt; graph.add(root) == Ok(Added::New));
    graph
}

// The list of that root as a draft.
fn roots_of_empty(rt: &impl Abort, alloc: Global) -> Roots {
    Roots::new(Vec::from_slice(alloc, &[(Phase::Draft, EMPTY)]).expect(rt, "memory"))
}

#[test]
fn a_map_of_phases_is_copied(rt: HostRuntime) {
    let alloc = rt.alloc();
    let graph = graph_of_empty(&rt, alloc);
    let roots = roots_of_empty(&rt, alloc);
    let map = PhaseMap::open(alloc, &graph, &roots).expect(&rt, "memory");
    let copy = map.copy().expect(&rt, "memory");
    assert!(rt; copy.phase_of(&graph, EMPTY) == Ok(Some(Phase::Draft)));
}

#[test]
fn roots_of_phases_are_copied(rt: HostRuntime) {
    let alloc = rt.alloc();
    let graph = graph_of_empty(&rt, alloc);
    let roots = roots_of_empty(&rt, alloc);
    let kept = PhaseRoots::open(alloc, &graph, &roots).expect(&rt, "memory");
    let copy = kept.copy().expect(&rt, "memory");
    assert!(rt; copy.phase_of(&graph, EMPTY) == Ok(Some(Phase::Draft)));
    assert!(rt; copy.roots.places() == [0usize].as_slice());
}

// The history that holds the root without a text, in this phase.
fn history_of_empty(rt: &impl Abort, alloc: Global, phase: Phase) -> History {
    let root = Changeset::new(Node::NULL, Node::NULL, Vec::new(alloc)).expect(rt, "a root");
    let mut history = History::new(alloc);
    let change = history
        .absorb(&[root], &[(EMPTY, phase)])
        .expect(rt, "a change");
    assert!(rt; change.added.as_slice() == [EMPTY].as_slice() && change.lowered.is_empty());
    history
}

// Whether each is below the other.
fn below_each_other(one: &History, other: &History) -> (bool, bool) {
    (one.is_below(other), other.is_below(one))
}

#[test]
fn histories_join(rt: HostRuntime) {
    let alloc = rt.alloc();
    let mut history = history_of_empty(&rt, alloc, Phase::Draft);
    let public = history_of_empty(&rt, alloc, Phase::Public);
    assert!(rt; history.join(&public) == Ok(()));
    assert!(rt; history.phase_of(EMPTY) == Ok(Some(Phase::Public)));
    assert!(rt; history.phase_of(ONES) == Ok(None));
}

#[test]
fn a_copy_of_a_history_stays_as_it_was(rt: HostRuntime) {
    let alloc = rt.alloc();
    let mut history = history_of_empty(&rt, alloc, Phase::Draft);
    let copy = history.copy().expect(&rt, "memory");
    assert!(rt; below_each_other(&copy, &history) == (true, true));
    let change = history
        .absorb(&[], &[(EMPTY, Phase::Public)])
        .expect(&rt, "a change");
    assert!(rt; change.lowered.as_slice() == [EMPTY].as_slice());
    assert!(rt; below_each_other(&copy, &history) == (true, false));
    assert!(rt; copy.phase_of(EMPTY) == Ok(Some(Phase::Draft)));
}

// The part of a marker from one node to another.
fn part_of_marker(alloc: Global, old: Node, new: Node) -> Option<Part> {
    let mut part = empty(alloc);
    mark(alloc, &mut part, old, &[new], 0)?;
    Some(part)
}

// The store of a marker from one node to another.
fn store_of_marker(alloc: Global, old: Node, new: Node) -> Option<Store> {
    let part = part_of_marker(alloc, old, new)?;
    let mut store = Store::new(alloc);
    let places = store.absorb(CowSlice::Borrowed(&part.markers)).ok()?;
    if places.as_slice() == [0usize].as_slice() {
        Some(store)
    } else {
        None
    }
}

#[test]
fn stores_join(rt: HostRuntime) {
    let alloc = rt.alloc();
    let mut store = store_of_marker(alloc, ONES, TWOS).expect(&rt, "memory");
    let other = store_of_marker(alloc, TWOS, ONES).expect(&rt, "memory");
    let before = store.copy().expect(&rt, "memory");
    assert!(rt; store.below(&other) == Ok(false) && store.join(&other) == Ok(()));
    assert!(rt; store.len() == 2 && before.len() == 1 && store.get(1) == other.get(0));
    assert!(rt; before.below(&store) == Ok(true) && other.below(&store) == Ok(true));
}

#[test]
fn markers_are_added_to_a_store_once_and_copied(rt: HostRuntime) {
    let alloc = rt.alloc();
    let part = part_of_marker(alloc, ONES, TWOS).expect(&rt, "memory");
    let marker = part.markers.first().expect(&rt, "a marker");
    let copy = marker.copy().expect(&rt, "memory");
    assert!(rt; copy.predecessor() == ONES && copy.successors() == [TWOS].as_slice());
    let again = copy.copy().expect(&rt, "memory");
    let mut store = Store::new(alloc);
    assert!(rt; store.add(copy) == Ok(hg_obsstore::Added::New));
    assert!(rt; store.add(again) == Ok(hg_obsstore::Added::Known));
    assert!(rt; store.len() == 1 && store.get(0) == Some(marker));
}

// The replica of two draft roots.
fn two_roots(alloc: Global) -> Option<(Replica, [Node; 2])> {
    let mut part = empty(alloc);
    let one = push(alloc, &mut part, Node::NULL, b"b", Phase::Draft)?;
    let other = push(alloc, &mut part, Node::NULL, b"x", Phase::Draft)?;
    Some((replica_of(alloc, &part)?, [one, other]))
}

#[test]
fn sets_are_brought_up_to_date_and_copied(rt: HostRuntime) {
    let alloc = rt.alloc();
    let (mut replica, [one, other]) = two_roots(alloc).expect(&rt, "memory");
    let mut sets = Instabilities::from_scratch(alloc, &replica).expect(&rt, "memory");
    let part = part_of_marker(alloc, one, other).expect(&rt, "memory");
    let change = replica.absorb(&part).expect(&rt, "a change");
    let before = sets.copy().expect(&rt, "memory");
    assert!(rt; sets.update(&replica, &change) == Ok(()));
    assert!(rt; sets.obsolete().contains(&one) && sets.extinct().contains(&one));
    assert!(rt; !sets.obsolete().contains(&other) && before.extinct().is_empty());
}

// Whether a changeset is in each of the six sets.
fn kinds(sets: &Instabilities, node: Node) -> [bool; 6] {
    [
        sets.obsolete().contains(&node),
        sets.orphan().contains(&node),
        sets.suspended().contains(&node),
        sets.extinct().contains(&node),
        sets.phase_divergent().contains(&node),
        sets.content_divergent().contains(&node),
    ]
}

// What was rewritten while a child stands on it, and that child; and both once the child is pruned too.
const BEFORE: [[bool; 6]; 2] = [
    [true, false, true, false, false, false],
    [false, true, false, false, false, false],
];

const AFTER: [[bool; 6]; 2] = [[true, false, false, true, false, false]; 2];

// A replica of two draft roots, one of which was rewritten to the other, and of a child of that one, with its sets.
// Then the child was pruned, which the change tells.
#[derive(Drop)]
struct BeforeUpdate {
    replica: Replica,
    sets: Instabilities,
    change: Change,
    nodes: [Node; 2],
}

// What is there before the sets are brought up to date.
fn outdated(alloc: Global) -> Option<BeforeUpdate> {
    let mut part = empty(alloc);
    let root = push(alloc, &mut part, Node::NULL, b"b", Phase::Draft)?;
    let child = push(alloc, &mut part, root, b"c", Phase::Draft)?;
    let other = push(alloc, &mut part, Node::NULL, b"x", Phase::Draft)?;
    mark(alloc, &mut part, root, &[other], 0)?;
    let mut replica = replica_of(alloc, &part)?;
    let sets = Instabilities::from_scratch(alloc, &replica).ok()?;
    let mut part = empty(alloc);
    mark(alloc, &mut part, child, &[], 0)?;
    let change = replica.absorb(&part).ok()?;
    Some(BeforeUpdate {
        replica,
        sets,
        change,
        nodes: [root, child],
    })
}

// What the sets say of both.
fn told(pruned: &BeforeUpdate) -> [[bool; 6]; 2] {
    [
        kinds(&pruned.sets, pruned.nodes[0]),
        kinds(&pruned.sets, pruned.nodes[1]),
    ]
}

// Whether the sets were brought up to date.
fn is_updated(pruned: &mut BeforeUpdate) -> bool {
    pruned.sets.update(&pruned.replica, &pruned.change).is_ok()
}

#[test]
fn refused_growth_in_an_update_leaves_the_sets_as_they_were(rt: HostRuntime) {
    let Some(mut pruned) = outdated(rt.alloc()) else {
        return;
    };
    assert!(rt; told(&pruned) == BEFORE);
    if !is_updated(&mut pruned) {
        assert!(rt; told(&pruned) == BEFORE && is_updated(&mut pruned));
    }
    assert!(rt; told(&pruned) == AFTER);
}

// Whether the set has these changesets and no others, where none is named twice.
fn has_exactly(set: &BTreeSet<Node>, nodes: &[Node]) -> bool {
    nodes.iter().all(|node| set.contains(node)) && set.len() == nodes.len()
}

// Whether exactly these are in view.
fn are_in_view(kept: &Kept, nodes: &[Node]) -> bool {
    match kept.visible() {
        Ok(set) => has_exactly(&set, nodes),
        Err(_) => false,
    }
}

#[test]
fn what_is_kept_absorbs_is_pinned_and_is_copied(rt: HostRuntime) {
    let alloc = rt.alloc();
    let (replica, [one, other]) = two_roots(alloc).expect(&rt, "memory");
    let part = part_of_marker(alloc, one, other).expect(&rt, "memory");
    let mut kept = Kept::new(alloc, replica).expect(&rt, "memory");
    let before = kept.copy().expect(&rt, "memory");
    let change = kept.absorb(&part).expect(&rt, "a change");
    assert!(rt; change.added.is_empty() && change.markers.as_slice() == [0usize].as_slice());
    assert!(rt; are_in_view(&kept, &[other]) && are_in_view(&before, &[one, other]));
    assert!(rt; kept.pin(one) == Ok(()) && are_in_view(&kept, &[one, other]));
    let pinned = kept.copy().expect(&rt, "memory");
    assert!(rt; kept.unpin(one) == Ok(()) && are_in_view(&kept, &[other]));
    assert!(rt; kept.unpin(one) == Err(PinRefusal::NotPinned(one)));
    assert!(rt; are_in_view(&pinned, &[one, other]));
}

// The replica of a public, a draft and a secret root, and of a draft root that was pruned, in this order.
fn four_roots(alloc: Global) -> Option<(Replica, [Node; 4])> {
    let mut part = empty(alloc);
    let public = push(alloc, &mut part, Node::NULL, b"p", Phase::Public)?;
    let draft = push(alloc, &mut part, Node::NULL, b"d", Phase::Draft)?;
    let secret = push(alloc, &mut part, Node::NULL, b"s", Phase::Secret)?;
    let pruned = push(alloc, &mut part, Node::NULL, b"g", Phase::Draft)?;
    mark(alloc, &mut part, pruned, &[], 0)?;
    Some((replica_of(alloc, &part)?, [public, draft, secret, pruned]))
}

// The phases with which these are shared, where they are.
fn shared(alloc: Global, replica: &Replica, nodes: [Node; 4]) -> Option<[Option<Phase>; 4]> {
    let shared = share(alloc, replica).ok()?;
    Some(nodes.map(|node| shared.get(&node).copied()))
}

#[test]
fn what_is_hidden_is_shared_and_not_served(rt: HostRuntime) {
    let alloc = rt.alloc();
    let (replica, nodes) = four_roots(alloc).expect(&rt, "memory");
    let told = served(alloc, &replica, &Pins::new(alloc)).expect(&rt, "memory");
    assert!(rt; has_exactly(&told, &nodes[..2]));
    let (public, draft) = (Some(Phase::Public), Some(Phase::Draft));
    assert!(rt; shared(alloc, &replica, nodes) == Some([public, draft, None, draft]));
}

#[test]
fn pins_are_set_copied_and_taken_away(rt: HostRuntime) {
    let alloc = rt.alloc();
    let replica = replica_of_empty(alloc, Phase::Draft).expect(&rt, "memory");
    let mut pins = Pins::new(alloc);
    assert!(rt; pins.pin(&replica, EMPTY) == Ok(()) && pins.pin(&replica, EMPTY) == Ok(()));
    let unknown = PinRefusal::Unknown(Node::NULL);
    assert!(rt; pins.pin(&replica, Node::NULL) == Err(unknown) && pins.nodes().len() == 1);
    let copy = pins.copy().expect(&rt, "memory");
    assert!(rt; pins.unpin(EMPTY) == Ok(()) && copy.is_pinned(EMPTY));
    assert!(rt; pins.unpin(EMPTY) == Err(PinRefusal::NotPinned(EMPTY)));
}
