//! What is told of unstable changesets, by blocks written by hand. The ids are the SHA-1 of parents and texts.
use crate::scene::{commit, described, rewrite};
use hg_changeset::Node;
use hg_phases::Phase;
use hg_replica::Replica;
use hg_view::Kept;
use hg_why::{Fate, Reason, Remedy, fate_of, knows, reasons, write_fate, write_why};
use std::alloc::Global;

// An id under which nothing is held.
const ELSEWHERE: Node = Node([0x11; 20]);

// Takes in the marker that a node was amended to the other.
fn amend(alloc: Global, replica: &mut Replica, old: Node, new: Node) -> Option<()> {
    rewrite(alloc, replica, old, &[new], (b"operation", b"amend"))
}

// A feature was amended in two ways, and something stands on it. Gives the feature.
fn twice_amended(alloc: Global, replica: &mut Replica, root: Node) -> Option<Node> {
    let feature = described(alloc, replica, root, b"feature", Phase::Draft)?;
    let tests = described(alloc, replica, feature, b"tests", Phase::Draft)?;
    described(alloc, replica, tests, b"docs\nin two lines", Phase::Draft)?;
    commit(alloc, replica, tests, b"plain", Phase::Draft)?;
    let alice = described(alloc, replica, root, b"feature-alice", Phase::Draft)?;
    let bob = described(alloc, replica, root, b"feature-bob", Phase::Draft)?;
    amend(alloc, replica, feature, alice)?;
    amend(alloc, replica, feature, bob)?;
    Some(feature)
}

// What is public was amended, and so was something that isn't held, in two ways.
fn amended_elsewhere(alloc: Global, replica: &mut Replica, root: Node) -> Option<()> {
    let public = described(alloc, replica, root, b"fix", Phase::Public)?;
    let again = described(alloc, replica, root, b"fix2", Phase::Draft)?;
    let one = described(alloc, replica, root, b"g1", Phase::Draft)?;
    let other = described(alloc, replica, root, b"g2", Phase::Draft)?;
    amend(alloc, replica, public, again)?;
    amend(alloc, replica, ELSEWHERE, one)?;
    amend(alloc, replica, ELSEWHERE, other)
}

// All of that, and the feature.
fn scene(alloc: Global) -> Option<(Kept, Node)> {
    let mut replica = Replica::new(alloc);
    let root = described(alloc, &mut replica, Node::NULL, b"root", Phase::Public)?;
    let feature = twice_amended(alloc, &mut replica, root)?;
    amended_elsewhere(alloc, &mut replica, root)?;
    Some((Kept::new(alloc, replica).ok()?, feature))
}

#[test]
fn each_unstable_changeset_has_a_block(rt: HostRuntime) {
    let alloc = rt.alloc();
    let (kept, _) = scene(alloc).expect(&rt, "memory");
    let blocks = b"why alice\n\
            tests 495c171304c0\n  \
            orphan: its parent feature d93bee5c598b is obsolete, amended as feature-alice; and as feature-bob\n  \
            relocate alice tests NEW feature-bob   (two successors: choose)\n\
            docs f2c049f1a302\n  \
            orphan: its parent tests 495c171304c0 is an orphan\n\
            2eb873917d4b\n  \
            orphan: its parent tests 495c171304c0 is an orphan\n\
            feature-alice c6bf36087013\n  \
            content-divergent with feature-bob 6210d20dac27: both are successors of feature d93bee5c598b \
            (amended, amended)\n\
            feature-bob 6210d20dac27\n  \
            content-divergent with feature-alice c6bf36087013: both are successors of feature d93bee5c598b \
            (amended, amended)\n\
            fix2 f06c5f19a15c\n  \
            phase-divergent: it was amended from fix d4844251b249, which is public\n\
            g1 81828835c3e5\n  \
            content-divergent with g2 cb42ccb0580a: both lead back to 111111111111, which alice doesn't hold\n\
            g2 cb42ccb0580a\n  \
            content-divergent with g1 81828835c3e5: both lead back to 111111111111, which alice doesn't hold\n";
    let mut written = Vec::new(alloc);
    write_why(alloc, b"alice", &kept, Remedy::ScriptLine, &mut written).expect(&rt, "memory");
    assert!(rt; written.as_slice() == blocks.as_slice());
}

// How many markers rewrote it, and whether nothing is unstable about it.
fn rewritten(alloc: Global, kept: &Kept, node: Node) -> Option<(usize, bool)> {
    let found: Vec<Reason> = reasons(alloc, kept, node).ok()?;
    let fate: Fate = fate_of(alloc, kept.replica(), node).ok()??;
    Some((fate.markers.len(), found.is_empty()))
}

#[test]
fn what_is_obsolete_has_a_fate_and_no_reasons(rt: HostRuntime) {
    let alloc = rt.alloc();
    let (kept, feature) = scene(alloc).expect(&rt, "memory");
    assert!(rt; rewritten(alloc, &kept, feature) == Some((2, true)));
}

#[test]
fn a_line_has_what_became_of_a_changeset(rt: HostRuntime) {
    let alloc = rt.alloc();
    let (kept, feature) = scene(alloc).expect(&rt, "memory");
    let lines = b"fate of feature at alice: {feature-bob} or {feature-alice}\n\
            fate of \\\"g\\\" at alice: {g1} or {g2}\n";
    let mut written = Vec::new(alloc);
    write_fate(alloc, b"feature", b"alice", &kept, feature, &mut written).expect(&rt, "memory");
    write_fate(alloc, b"\"g\"", b"alice", &kept, ELSEWHERE, &mut written).expect(&rt, "memory");
    assert!(rt; written.as_slice() == lines.as_slice());
    assert!(rt; knows(&kept, ELSEWHERE));
    assert!(rt; !knows(&kept, Node([0x22; 20])));
}
