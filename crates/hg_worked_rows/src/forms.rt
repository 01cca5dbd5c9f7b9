//! Phases in both of their forms, side by side in the same histories: a plain map, and a map with its roots.
ghost use Rattle.std.specs.Prelude.{◌≡◌, ◌+◌, ◌-◌, length, IfSome};
ghost use Rattle.hg_graph.specs.Graph.{Holds};
ghost use Rattle.hg_graph.specs.Places.{IsAt};
ghost use Rattle.hg_phases.specs.Kept.{before_last, phases_at};
ghost use Rattle.hg_worked_rows.specs.SideBySide.{AreSideBySide};

use crate::making::are_same;
use hg_changeset::{Changeset, Node};
use hg_graph::{Added, Graph};
use hg_phases::{Phase, PhaseMap, PhaseRoots};
use std::alloc::Global;

// How many changesets are added and phases lowered in a history.
const STEPS: u32 = 120;

// Numbers that look as if they were thrown, the same each time.
#[derive(Clone, Copy)]
struct Dice {
    state: u64,
}

impl Dice {
    // A number below another, which isn't 0.
    fn roll(&mut self, below: usize) -> usize {
        self.state = self
            .state
            .wrapping_mul(6_364_136_223_846_793_005)
            .wrapping_add(1_442_695_040_888_963_407);
        (self.state >> 33) as usize % below.max(1)
    }

    // The null id, or what is held at some place.
    fn node(&mut self, graph: &Graph) -> Node {
        if self.roll(4) == 0 {
            return Node::NULL;
        }
        graph.node_at(self.roll(graph.len())).unwrap_or(Node::NULL)
    }

    // A changeset of up to two parents, whose text is the number.
    fn changeset(&mut self, alloc: Global, graph: &Graph, number: u32) -> Option<Changeset> {
        let (p, q) = (self.node(graph), self.node(graph));
        let text = Vec::from_slice(alloc, &number.to_be_bytes()).ok()?;
        if p == q {
            Changeset::new(p, Node::NULL, text).ok()
        } else {
            Changeset::new(p, q, text).ok()
        }
    }

    fn phase(&mut self) -> Phase {
        match self.roll(3) {
            0 => Phase::Public,
            1 => Phase::Draft,
            _ => Phase::Secret,
        }
    }
}

// Makes the changeset that the graph has just added secret in both forms.
fn admit(graph: &Graph, map: &mut PhaseMap, kept: &mut PhaseRoots, node: Node) -> Option<()>
    requires forms { AreSideBySide (before_last graph.now) map.old kept.old }
    requires more { length graph.now ≡ length (before_last graph.now) + 1 }
    requires added { IsAt graph.now node (length graph.now - 1) }
    ensures { IfSome result (λ _. AreSideBySide graph.now map.new kept.new) }
{
    graph.is_valid();
    match (map.admit(graph, node), kept.admit(graph, node)) {
        (Ok(()), Ok(())) => Some(()),
        _ => None,
    }
}

// Adds a changeset to the graph, and to both forms.
fn add(
    graph: &mut Graph,
    map: &mut PhaseMap,
    kept: &mut PhaseRoots,
    changeset: &Changeset,
) -> Option<()>
    requires { AreSideBySide graph.old map.old kept.old }
    ensures { IfSome result (λ _. AreSideBySide graph.new map.new kept.new) }
{
    let node = changeset.node();
    match graph.add_copy(changeset) {
        Ok(Added::New) => admit(graph, map, kept, node),
        _ => None,
    }
}

// Lowers in both forms. Whether the same went down.
fn lower(
    graph: &Graph,
    map: &mut PhaseMap,
    kept: &mut PhaseRoots,
    node: Node,
    phase: Phase,
) -> Option<bool>
    requires forms { AreSideBySide graph.now map.old kept.old }
    requires held { Holds graph.now node }
    ensures { IfSome result (λ _. AreSideBySide graph.now map.new kept.new) }
{
    match (
        map.lower(graph, node, phase),
        kept.lower(graph, node, phase),
    ) {
        (Ok(told), Ok(lowered)) => Some(are_same(&told.nodes, &lowered.nodes)),
        _ => None,
    }
}

// Adds a changeset, or lowers one. Whether both forms did the same.
fn step(
    alloc: Global,
    graph: &mut Graph,
    map: &mut PhaseMap,
    kept: &mut PhaseRoots,
    dice: &mut Dice,
    number: u32,
) -> Option<bool>
    requires { AreSideBySide graph.old map.old kept.old }
    ensures { IfSome result (λ _. AreSideBySide graph.new map.new kept.new) }
{
    let place = dice.roll(graph.len());
    match graph.node_at(place) {
        Some(node) if number % 3 == 2 => lower(graph, map, kept, node, dice.phase()),
        _ => {
            let changeset = dice.changeset(alloc, graph, number)?;
            add(graph, map, kept, &changeset)?;
            Some(true)
        }
    }
}

// Whether the changeset isn't public, and none of its parents has its phase.
fn is_root(graph: &Graph, map: &PhaseMap, changeset: &Changeset, phase: Phase) -> Option<bool>
    requires { length (phases_at graph.now map.now) ≡ length graph.now }
{
    let (p, q) = changeset.parents();
    let phases = [map.phase_of(graph, p).ok()?, map.phase_of(graph, q).ok()?];
    Some(phase != Phase::Public && !phases.contains(&Some(phase)))
}

// Whether both forms have the same phases, and the roots are those of the map.
fn are_alike(graph: &Graph, map: &PhaseMap, kept: &PhaseRoots) -> Option<bool>
    requires { AreSideBySide graph.now map.now kept.now }
{
    let roots = kept.roots(graph).ok()?;
    let mut count = 0usize;
    for place in 0..graph.len() {
        let changeset = graph.changeset_at(place)?;
        let node = changeset.node();
        let phase = map.phase_of(graph, node).ok()??;
        if kept.phase_of(graph, node) != Ok(Some(phase)) {
            return Some(false);
        }
        if is_root(graph, map, changeset, phase)? {
            if !roots.as_slice().contains(&(phase, node)) {
                return Some(false);
            }
            count = count.wrapping_add(1);
        }
    }
    Some(count == roots.as_slice().len())
}

// Whether both forms do the same in a history, step after step.
fn go_together(alloc: Global, seed: u64) -> Option<bool> {
    let mut dice = Dice { state: seed };
    let mut graph = Graph::new(alloc);
    let mut map = PhaseMap::new(alloc);
    let mut kept = PhaseRoots::new(alloc);
    for number in 0..STEPS {
        let same = step(alloc, &mut graph, &mut map, &mut kept, &mut dice, number)?;
        if !same || !are_alike(&graph, &map, &kept)? {
            return Some(false);
        }
    }
    Some(graph.len() == 80)
}

#[test]
fn a_map_and_roots_go_together_in_histories_at_random(rt: HostRuntime) {
    for seed in 0..8u64 {
        assert!(rt; go_together(rt.alloc(), seed) == Some(true), "of {seed}");
    }
}
