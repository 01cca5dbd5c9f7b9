//! Why two nodes don't agree, in words.
use crate::explaining::push_node;
use crate::fleet::Fleet;
use hg_changeset::Node;
use hg_graph::Graph;
use hg_phases::Phase;
use hg_replica::Replica;
use hg_trial::{different_phases, markers_lacked};
use std::alloc::{AllocError, Global};

// So many changesets are named before it is said how many more there are.
const NAMED: usize = 3;

/// What each of the nodes of these names lacks of what the other holds, and which changesets are in another phase
/// there. Nothing where they agree.
pub fn disagreement(
    alloc: Global,
    fleet: &Fleet,
    one: &[u8],
    other: &[u8],
) -> Result<Option<Vec<u8>>, AllocError> {
    let (first, second) = match (fleet.kept_of(one), fleet.kept_of(other)) {
        (Some(first), Some(second)) => (first.replica(), second.replica()),
        _ => return Ok(None),
    };
    let mut reason = Vec::new(alloc);
    push_lack(alloc, fleet, one, first, second, &mut reason)?;
    push_lack(alloc, fleet, other, second, first, &mut reason)?;
    let sides = Sides {
        one,
        other,
        first,
        second,
    };
    push_phases(alloc, fleet, sides, &mut reason)?;
    if reason.is_empty() {
        return Ok(None);
    }
    let mut text = Vec::from_slice(alloc, b":")?;
    text.extend_from_slice(&reason)?;
    Ok(Some(text))
}

// Appends what the first replica, at the node of this name, lacks of the second.
fn push_lack(
    alloc: Global,
    fleet: &Fleet,
    name: &[u8],
    lacking: &Replica,
    having: &Replica,
    text: &mut Vec<u8>,
) -> Result<(), AllocError> {
    let nodes = missing(alloc, having.graph(), lacking.graph())?;
    let markers = markers_lacked(lacking.store(), having.store());
    if nodes.is_empty() && markers == 0 {
        return Ok(());
    }
    push_between(b",", text)?;
    text.extend_from_slice(b" ")?;
    text.extend_from_slice(name)?;
    text.extend_from_slice(b" lacks")?;
    push_names(alloc, fleet, &nodes, text)?;
    if !nodes.is_empty() && markers > 0 {
        text.extend_from_slice(b" and")?;
    }
    push_markers(alloc, markers, text)
}

// Appends what divides two parts, where something stands before already.
fn push_between(between: &[u8], text: &mut Vec<u8>) -> Result<(), AllocError> {
    if text.is_empty() {
        return Ok(());
    }
    text.extend_from_slice(between)
}

// The changesets of the first graph that the second one lacks, parents first.
fn missing(alloc: Global, having: &Graph, lacking: &Graph) -> Result<Vec<Node>, AllocError> {
    let mut nodes = Vec::new(alloc);
    for place in 0..having.len() {
        match having.node_at(place) {
            Some(node) if !lacking.contains(node) => nodes.push(node)?,
            _ => {}
        }
    }
    Ok(nodes)
}

// Appends what the first of the changesets are called, and how many more there are.
fn push_names(
    alloc: Global,
    fleet: &Fleet,
    nodes: &[Node],
    text: &mut Vec<u8>,
) -> Result<(), AllocError> {
    for node in nodes.iter().take(NAMED) {
        push_node(fleet, *node, text)?;
    }
    push_more(alloc, b" ", nodes.len(), text)
}

// Appends how many more there are than are named.
fn push_more(
    alloc: Global,
    before: &[u8],
    count: usize,
    text: &mut Vec<u8>,
) -> Result<(), AllocError> {
    if count <= NAMED {
        return Ok(());
    }
    let more = format!(in alloc; "and {} more", count - NAMED)?;
    text.extend_from_slice(before)?;
    text.extend_from_slice(more.as_bytes())
}

fn push_markers(alloc: Global, count: usize, text: &mut Vec<u8>) -> Result<(), AllocError> {
    let shown = match count {
        0 => return Ok(()),
        1 => String::from_str(alloc, " 1 marker")?,
        _ => format!(in alloc; " {count} markers")?,
    };
    text.extend_from_slice(shown.as_bytes())
}

// Two replicas, and the names of their nodes.
#[derive(Clone, Copy)]
struct Sides<'a> {
    one: &'a [u8],
    other: &'a [u8],
    first: &'a Replica,
    second: &'a Replica,
}

// Appends which changesets are in another phase at the second node, and how many more there are.
fn push_phases(
    alloc: Global,
    fleet: &Fleet,
    sides: Sides<'_>,
    text: &mut Vec<u8>,
) -> Result<(), AllocError> {
    let mut count: usize = 0;
    for place in 0..sides.first.graph().len() {
        let Some(node) = sides.first.graph().node_at(place) else {
            continue;
        };
        if let Some(phases) = different_phases(sides.first, sides.second, node)? {
            if count < NAMED {
                push_phase(fleet, sides, node, phases, text)?;
            }
            count = count.saturating_add(1);
        }
    }
    push_more(alloc, b"; ", count, text)
}

fn push_phase(
    fleet: &Fleet,
    sides: Sides<'_>,
    node: Node,
    phases: (Phase, Phase),
    text: &mut Vec<u8>,
) -> Result<(), AllocError> {
    push_between(b";", text)?;
    push_node(fleet, node, text)?;
    text.extend_from_slice(b" is ")?;
    text.extend_from_slice(phases.0.word().as_bytes())?;
    text.extend_from_slice(b" at ")?;
    text.extend_from_slice(sides.one)?;
    text.extend_from_slice(b", ")?;
    text.extend_from_slice(phases.1.word().as_bytes())?;
    text.extend_from_slice(b" at ")?;
    text.extend_from_slice(sides.other)
}
