//! What was lowered: the log of a walk, from which it is told and taken back.
ghost use Rattle.std.specs.Prelude.{IfOk, OnErr, [], ◌≡◌, List, take};
ghost use Rattle.std.specs.List.{flat_map};
ghost use Rattle.hg_graph.specs.Graph.{IsGraph, nodes};
ghost use Rattle.hg_phases.specs.declared.phase.Phase.{Phase};
ghost use Rattle.hg_phases.specs.State.{state_of};
ghost use Rattle.hg_phases.specs.Log.{IsLog, HasLogged, node_before};
ghost use Rattle.hg_phases.specs.Lowered.{ListsLowered};

use crate::phase::Phase;
use hg_changeset::Node;
use hg_graph::Graph;
use smallvec::SmallVec;
use std::alloc::{AllocError, Global};
use std::default::MadeWith;
use std::marker::Model;

/// A place whose phase went down, and the phase that it had.
#[derive(Clone, Copy, PartialEq, Eq, Debug)]
pub struct LoweredPlace {
    pub place: usize,
    pub had: Phase,
}

// What fills the room of a small list that isn't used.
impl MadeWith<Global> for LoweredPlace {
    fn made_with(_alloc: Global) -> LoweredPlace {
        LoweredPlace {
            place: 0,
            had: Phase::Public,
        }
    }
}

/// What lowering did: the nodes of the changesets whose phase went down, each once, in no promised order.
#[derive(Drop)]
pub struct Lowered {
    pub nodes: Vec<Node>,
}

// The places that went down, in the order in which they did. One or two take no memory.
pub(crate) type LoweredPlaces = SmallVec<LoweredPlace, 2>;

/// What went down, in the order in which it did: it tells the changesets, and takes the lowering back.
pub struct LoweringLog {
    pub(crate) places: LoweredPlaces,
}

// Written out, so that what owns a log proves no more of its drop than this call.
impl Drop for LoweringLog {
    fn drop(self) {
        let LoweringLog { places: _ } = self;
    }
}

impl Model for LoweringLog {
    ghost use Rattle.std.specs.Prelude.{List};
    ghost use Rattle.hg_phases.specs.declared.lowered.LoweredPlace.{LoweredPlace};

    ghost Value = { List LoweredPlace };

    ghost view = { λ log. log.places.items };
}

impl LoweringLog {
    /// Nothing yet.
    pub fn new(alloc: Global) -> LoweringLog
        ensures { result ≡ [] }
    {
        LoweringLog {
            places: SmallVec::new(alloc),
        }
    }

    /// The nodes of what went down and stands before a place, in no promised order: those of the changesets before it
    /// whose phase is lower than when the log was begun. It takes no memory where there are none.
    #[inline(always)]
    pub fn nodes_before(&self, graph: &Graph, before: usize) -> Result<Vec<Node>, AllocError>
        ensures lowered { IfOk result (λ found. (phase : Phase) (start now : List Phase) → IsGraph graph.now
            → IsLog phase start now self.now
            → ListsLowered (state_of (take before graph.now) (take before start)) (state_of graph.now now)
            found.items) }
        ensures memory { OnErr result (HasLogged self.now before) }
    {
        nodes_of(
            graph,
            self.places.as_slice(),
            before,
            *self.places.allocator(),
        )
    }
}

// The nodes of the places in a log that stand before a place.
#[inline(always)]
fn nodes_of(
    graph: &Graph,
    log: &[LoweredPlace],
    before: usize,
    alloc: Global,
) -> Result<Vec<Node>, AllocError>
    ensures nodes { IfOk result (λ found. found.items ≡ flat_map (node_before (nodes graph.now) before) log.now) }
    ensures memory { OnErr result (HasLogged log.now before) }
{
    let mut found = Vec::new(alloc);
    for lowered in log {
        if lowered.place < before {
            match graph.node_at(lowered.place) {
                Some(node) => found.push(node)?,
                None => {}
            }
        }
    }
    Ok(found)
}
