//! Pins: what a node keeps in view though it is obsolete.
ghost use Rattle.std.specs.Prelude.{◌≡◌, ◌↔◌, [], Contains, IfOk, IsTrue};
ghost use Rattle.hg_changeset.specs.declared.node.Node.{Node};
ghost use Rattle.hg_graph.specs.Places.{IsAt};
ghost use Rattle.hg_phases.specs.State.{changesets};
ghost use Rattle.hg_replica.specs.Content.{content_of};
ghost use Rattle.hg_view.specs.Pins.{CountsAsObsolete, PinAnswer, UnpinAnswer};

use crate::refusal::PinRefusal;
use hg_changeset::Node;
use hg_graph::Graph;
use hg_instab::{is_obsolete, is_obsolete_at};
use hg_replica::Replica;
use std::alloc::{AllocError, Global};
use std::collections::BTreeSet;
use std::marker::Model;

/// The changesets that a node pins, since something of its own stands on them: a bookmark, or the working copy. They
/// are the node's alone: no part of what a replica holds, and in no message. What is pinned counts as not obsolete in
/// what is visible, and nowhere else. Contracts see their ids.
#[derive(Drop)]
pub struct Pins {
    nodes: BTreeSet<Node>,
}

impl Model for Pins {
    ghost use Rattle.std.specs.Prelude.{List};
    ghost use Rattle.hg_changeset.specs.declared.node.Node.{Node};

    ghost Value = { List Node };

    ghost view = { λ pins. pins.nodes.keys };
}

impl Pins {
    /// No pins.
    pub fn new(alloc: Global) -> Pins
        ensures { result ≡ [] }
    {
        Pins {
            nodes: BTreeSet::new(alloc),
        }
    }

    /// Equal pins.
    pub fn copy(&self) -> Result<Pins, AllocError>
        ensures { IfOk result (λ copy. copy ≡ self.now) }
    {
        let nodes = self.nodes.clone()?;
        Ok(Pins { nodes })
    }

    /// Pins a changeset that the replica holds. A second pin of it changes nothing.
    ///
    /// Refuses [`PinRefusal::Unknown`] alone, where the replica doesn't hold it. The null id is held by none.
    pub fn pin(&mut self, replica: &Replica, node: Node) -> Result<(), PinRefusal>
        ensures { PinAnswer (content_of replica.now) self.old node result self.new }
    {
        if !replica.graph().contains(node) {
            return Err(PinRefusal::Unknown(node));
        }
        match self.nodes.insert(node) {
            Ok(_) => Ok(()),
            Err(_) => Err(PinRefusal::NoMemory),
        }
    }

    /// Takes the pin of a changeset away, whether it is held or not.
    ///
    /// Refuses [`PinRefusal::NotPinned`] alone, where there is none.
    pub fn unpin(&mut self, node: Node) -> Result<(), PinRefusal>
        ensures { UnpinAnswer self.old node result self.new }
    {
        if self.nodes.remove(&node) {
            return Ok(());
        }
        Err(PinRefusal::NotPinned(node))
    }

    /// Whether a changeset is pinned.
    pub fn is_pinned(&self, node: Node) -> bool
        ensures { IsTrue result ↔ Contains self.now node }
    {
        self.nodes.contains(&node)
    }

    /// What is pinned.
    pub fn nodes(&self) -> &BTreeSet<Node>
        ensures { result.now.keys ≡ self.now }
    {
        &self.nodes
    }
}

// Whether a changeset is obsolete, and not pinned.
pub(crate) fn counts_as_obsolete(replica: &Replica, pins: &Pins, node: Node) -> bool
    ensures { IsTrue result ↔ CountsAsObsolete (content_of replica.now) pins.now node }
{
    is_obsolete(replica, node) && !pins.is_pinned(node)
}

// Whether the changeset at a place of the graph is obsolete, and not pinned.
pub(crate) fn counts_as_obsolete_at(replica: &Replica, pins: &Pins, place: usize) -> bool
    ensures { (n : Node) → IsAt (changesets replica.now.history) n place
        → (IsTrue result ↔ CountsAsObsolete (content_of replica.now) pins.now n) }
{
    is_obsolete_at(replica, place) && !is_pinned_at(replica.graph(), pins, place)
}

// Whether the changeset at a place is pinned.
fn is_pinned_at(graph: &Graph, pins: &Pins, place: usize) -> bool
    ensures { (n : Node) → IsAt graph.now n place → (IsTrue result ↔ Contains pins.now n) }
{
    match graph.node_at(place) {
        Some(node) => pins.is_pinned(node),
        None => false,
    }
}
