//! Instabilities that are told from scratch and that are kept, and views, where growth is refused. A refusal leaves
//! what is kept as a copy that was made before.
use crate::parts::{BETWEEN, ELSEWHERE, NOWHERE, empty, mark, push, replica_of};
use crate::same::{are_same, has_exactly, is_up_to_date};
use hg_changeset::Node;
use hg_instab::Instabilities;
use hg_join::JoinState;
use hg_phases::Phase;
use hg_replica::{Part, Replica};
use hg_view::{Kept, Pins, is_visible, served, share, shared_marks, visible};
use std::alloc::Global;

// The part of eight changesets, none of which is unstable: draft roots but for `c`, which is a child of `b`, `w`, which
// is public, and `y`, which is secret.
fn stable(alloc: Global) -> Option<(Part, [Node; 8])> {
    let mut part = empty(alloc);
    let b = push(alloc, &mut part, Node::NULL, b'b', Phase::Draft)?;
    let c = push(alloc, &mut part, b, b'c', Phase::Draft)?;
    let d = push(alloc, &mut part, Node::NULL, b'd', Phase::Draft)?;
    let g = push(alloc, &mut part, Node::NULL, b'g', Phase::Draft)?;
    let w = push(alloc, &mut part, Node::NULL, b'w', Phase::Public)?;
    let v = push(alloc, &mut part, Node::NULL, b'v', Phase::Draft)?;
    let x = push(alloc, &mut part, Node::NULL, b'x', Phase::Draft)?;
    let y = push(alloc, &mut part, Node::NULL, b'y', Phase::Secret)?;
    Some((part, [b, c, d, g, w, v, x, y]))
}

// The part that makes some of them unstable in each way: markers that `b` became `d`, that `g` was pruned, that `w`,
// which is public, became `v` in two steps, and that what isn't held became `x` and `y`. And a public changeset that
// became a draft one, as an answer to its being public: bit 0 of the flags says that, and the others say nothing.
fn upsetting(alloc: Global, nodes: &[Node; 8]) -> Option<Part> {
    let [b, _, d, g, w, v, x, y] = *nodes;
    let mut part = empty(alloc);
    mark(alloc, &mut part, b, &[d], 0)?;
    mark(alloc, &mut part, g, &[], 0)?;
    mark(alloc, &mut part, w, &[BETWEEN], 2)?;
    mark(alloc, &mut part, BETWEEN, &[v], 0)?;
    mark(alloc, &mut part, NOWHERE, &[x], 0)?;
    mark(alloc, &mut part, NOWHERE, &[y], 0)?;
    let public = push(alloc, &mut part, Node::NULL, b'p', Phase::Public)?;
    let fixed = push(alloc, &mut part, Node::NULL, b'f', Phase::Draft)?;
    mark(alloc, &mut part, public, &[fixed], 1)?;
    Some(part)
}

// The part that after this takes from each set and brings to it: a child of `g`, a bound by which `b` is public, and
// markers that `v` and `x` were pruned, and that what isn't held became `c` and `d`.
fn turning(alloc: Global, nodes: &[Node; 8]) -> Option<Part> {
    let [b, c, d, g, _, v, x, _] = *nodes;
    let mut part = empty(alloc);
    push(alloc, &mut part, g, b'h', Phase::Draft)?;
    part.bounds.push((b, Phase::Public)).ok()?;
    mark(alloc, &mut part, v, &[], 0)?;
    mark(alloc, &mut part, x, &[], 0)?;
    mark(alloc, &mut part, ELSEWHERE, &[c], 0)?;
    mark(alloc, &mut part, ELSEWHERE, &[d], 0)?;
    Some(part)
}

// A replica with changesets that are unstable in each way.
fn upset(alloc: Global) -> Option<(Replica, [Node; 8])> {
    let (part, nodes) = stable(alloc)?;
    let mut replica = replica_of(alloc, &part)?;
    let part = upsetting(alloc, &nodes)?;
    replica.absorb(&part).ok()?;
    Some((replica, nodes))
}

#[test]
fn a_small_history_has_instabilities_of_each_kind(rt: HostRuntime) {
    let alloc = rt.alloc();
    let (replica, nodes) = upset(alloc).expect(&rt, "memory");
    let sets = Instabilities::from_scratch(alloc, &replica).expect(&rt, "memory");
    let [b, c, _, g, _, v, x, y] = nodes;
    assert!(rt; has_exactly(sets.obsolete(), &[b, g]));
    assert!(rt; has_exactly(sets.orphan(), &[c]));
    assert!(rt; has_exactly(sets.suspended(), &[b]));
    assert!(rt; has_exactly(sets.extinct(), &[g]));
    assert!(rt; has_exactly(sets.phase_divergent(), &[v]));
    assert!(rt; has_exactly(sets.content_divergent(), &[x, y]));
}

// Whether these are the places, each once.
fn has_places(found: &[usize], places: &[usize]) -> bool {
    places.iter().all(|place| found.contains(place)) && found.len() == places.len()
}

#[test]
fn heads_that_are_kept_follow_what_is_absorbed(rt: HostRuntime) {
    let alloc = rt.alloc();
    let (replica, nodes) = upset(alloc).expect(&rt, "memory");
    let part = turning(alloc, &nodes).expect(&rt, "memory");
    let mut kept = Kept::new(alloc, replica).expect(&rt, "memory");

    // `b` has a child, `g` is pruned, and `y` is secret; what came first stands at place 0.
    assert!(rt;
        has_places(
            &kept.served_heads().expect(&rt, "memory"),
            &[1, 2, 4, 5, 6, 8, 9]
        )
    );
    assert!(rt; has_places(kept.public_heads(), &[4, 8]));

    // A child of `g` is there, `b` is public, and `v` and `x` are pruned.
    assert!(rt; kept.absorb(&part).is_ok());
    assert!(rt;
        has_places(
            &kept.served_heads().expect(&rt, "memory"),
            &[1, 2, 4, 8, 9, 10]
        )
    );
    assert!(rt; has_places(kept.public_heads(), &[0, 4, 8]));
}

// Whether the sets are those that are told from scratch, where growth was refused before, at most once.
fn is_right(alloc: Global, kept: &Kept) -> bool {
    match is_up_to_date(alloc, kept) {
        Ok(right) => right,
        Err(_) => is_up_to_date(alloc, kept).unwrap_or(false),
    }
}

// Whether the part is taken in, at once or after growth was refused.
fn is_absorbed(kept: &mut Kept, part: &Part) -> bool {
    match kept.copy() {
        Ok(before) => kept.absorb(part).is_ok()
            || are_alike(kept, &before) && kept.absorb(part).is_ok(),
        Err(_) => kept.absorb(part).is_ok(),
    }
}

// Whether both hold the same, with the same sets.
fn are_alike(one: &Kept, other: &Kept) -> bool {
    let (ours, theirs) = (one.replica(), other.replica());
    let same = are_same(one.instabilities(), other.instabilities());
    same && ours.below(theirs) == Ok(true) && theirs.below(ours) == Ok(true)
}

#[test]
fn refused_growth_leaves_kept_sets_that_parts_turn(rt: HostRuntime) {
    let alloc = rt.alloc();
    let Some(made) = stable(alloc) else {
        return;
    };
    let (held, nodes) = made;
    let (Some(first), Some(second)) = (upsetting(alloc, &nodes), turning(alloc, &nodes)) else {
        return;
    };
    let Some(same) = turning(alloc, &nodes) else {
        return;
    };
    let Ok(mut kept) = Kept::new(alloc, Replica::new(alloc)) else {
        return;
    };
    assert!(rt; is_absorbed(&mut kept, &held) && is_absorbed(&mut kept, &first));
    assert!(rt; kept.absorb_owned(second).is_ok() || kept.absorb_owned(same).is_ok());
    assert!(rt; is_right(alloc, &kept));
}

#[test]
fn refused_growth_leaves_kept_sets_that_are_made_copied_and_joined(rt: HostRuntime) {
    let alloc = rt.alloc();
    let (Some(made), Some(same)) = (upset(alloc), upset(alloc)) else {
        return;
    };
    let (replica, nodes) = made;
    let (again, _) = same;
    let Some(part) = turning(alloc, &nodes) else {
        return;
    };
    let mut kept = match Kept::new(alloc, replica) {
        Ok(kept) => kept,
        Err(_) => Kept::new(alloc, again).expect(&rt, "memory"),
    };
    let mut other = match kept.copy() {
        Ok(copy) => copy,
        Err(_) => kept.copy().expect(&rt, "memory"),
    };
    if other.absorb(&part).is_err() {
        return;
    }
    assert!(rt; kept.join(&other).is_ok() || kept.join(&other).is_ok());
    assert!(rt; is_right(alloc, &kept) && kept.replica().graph().len() == 11);
}

#[test]
fn refused_growth_of_pins_changes_nothing(rt: HostRuntime) {
    let alloc = rt.alloc();
    let Some(made) = upset(alloc) else {
        return;
    };
    let (replica, nodes) = made;
    let Ok(mut kept) = Kept::new(alloc, replica) else {
        return;
    };
    let pruned = nodes[3];
    assert!(rt; !kept.is_visible(pruned));
    assert!(rt; kept.pin(pruned).is_ok() || kept.pin(pruned).is_ok());
    assert!(rt; kept.is_visible(pruned));
    assert!(rt; kept.pins().copy().is_ok() || kept.pins().copy().is_ok());
    assert!(rt; kept.visible().is_ok() || kept.visible().is_ok());
    assert!(rt; kept.served_heads().is_ok() || kept.served_heads().is_ok());
    assert!(rt; kept.unpin(pruned).is_ok() || kept.unpin(pruned).is_ok());
    assert!(rt; !kept.is_visible(pruned));
}

// How many changesets are in view, are served and are shared, of ten, one of which is pruned, and one secret. A number
// that is wanting for want of memory is `None`.
fn views(alloc: Global, replica: &Replica) -> Option<[usize; 4]> {
    let pins = Pins::new(alloc);
    Some([
        visible(alloc, replica, &pins).ok()?.len(),
        served(alloc, replica, &pins).ok()?.len(),
        share(alloc, replica).ok()?.len(),
        shared_marks(alloc, replica).ok()?.len(),
    ])
}

#[test]
fn refused_growth_of_views_is_passed_on(rt: HostRuntime) {
    let alloc = rt.alloc();
    let Some(made) = upset(alloc) else {
        return;
    };
    let (replica, nodes) = made;
    let told = views(alloc, &replica);
    assert!(rt; told == Some([9, 8, 9, 10]) || views(alloc, &replica) == Some([9, 8, 9, 10]));
    let pins = Pins::new(alloc);
    let in_view = is_visible(alloc, &replica, &pins, nodes[0]);
    assert!(rt; in_view == Ok(true) || is_visible(alloc, &replica, &pins, nodes[0]) == Ok(true));
}
