//! A discovery, from its start to its end.
ghost use Rattle.std.specs.Prelude.{◌≡◌, ◌↔◌, ◌≤◌, ◌-◌, IfOk, OnOk, IsTrue};
ghost use Rattle.hg_discovery.specs.Search.{IsSearch, nodes_of};
ghost use Rattle.hg_discovery.specs.Answers.{AnswerAnswer};
ghost use Rattle.hg_discovery.specs.Rounds.{undecided};
ghost use Rattle.hg_discovery.specs.Start.{IsStart, AreCommonHeads};
ghost use Rattle.hg_discovery.specs.Limits.{sample_size};

use crate::children::{Children, children_of};
use crate::draw::{common_heads, sample};
use crate::error::DiscoveryError;
use crate::finding::{Finding, PlacedNode};
use crate::spread::answered;
use crate::start::{Baseline, baseline_of};
use hg_changeset::Node;
use hg_graph::ParentPlaces;
use hg_replica::Replica;
use std::alloc::{AllocError, Global};
use std::marker::Model;

/// What is known so far of which changesets two replicas have in common.
///
/// It is of the asker's changesets that weren't secret when it began. Both sides may go on in the meantime.
pub struct Discovery {
    parents: Vec<ParentPlaces>,
    children: Children,

    // Ascending.
    placed_nodes: Vec<PlacedNode>,
    decided: Vec<Finding>,
    asked: Vec<PlacedNode>,
    alloc: Global,
}

// Whoever owns a discovery calls this once, and is proved without a look at each collection in it.
impl Drop for Discovery {
    fn drop(self) {
        let Discovery {
            parents: _,
            children: _,
            placed_nodes: _,
            decided: _,
            asked: _,
            alloc: _,
        } = self;
    }
}

impl Model for Discovery {
    ghost use Rattle.std.specs.Coded.{codes};
    ghost use Rattle.hg_discovery.specs.Children.{AreChildren};
    ghost use Rattle.hg_discovery.specs.Search.{Search, IsAscending, IsSearch};

    ghost Value = { Search };

    ghost coded = { Prim.hlevel codes };

    ghost view = { λ d. record {
      parents = d.parents.items;
      placed_nodes = d.placed_nodes.items;
      decided = d.decided.items;
      asked = d.asked.items;
    } };

    ghost invariant = { λ d. IsSearch
        (record {
          parents = d.parents.items;
          placed_nodes = d.placed_nodes.items;
          decided = d.decided.items;
          asked = d.asked.items;
        }) × AreChildren d.parents.items d.children.places.items
        d.children.stretches.items × IsAscending d.placed_nodes.items };
}

impl Discovery {
    /// Begins: the replica's changesets that aren't secret are undecided.
    pub fn start(alloc: Global, replica: &Replica) -> Result<Discovery, AllocError>
        ensures { IfOk result (IsStart replica.now.history) }
    {
        let baseline = baseline_of(alloc, replica)?;
        let children = children_of(alloc, replica.graph())?;
        let asked = sample(
            alloc,
            &baseline.parents,
            &baseline.placed_nodes,
            &baseline.decided,
        )?;
        let Baseline {
            parents,
            placed_nodes,
            decided,
        } = baseline;
        Ok(Discovery {
            parents,
            children,
            placed_nodes,
            decided,
            asked,
            alloc,
        })
    }

    /// The changesets to ask about: the first 200 of the heads of the undecided ones and then of the others, each
    /// ascending. They are the same until answers come, and none when done.
    pub fn sample(&self) -> Result<Vec<Node>, AllocError>
        ensures sample { IfOk result (λ ns. ns.items ≡ nodes_of self.now.asked) }
        ensures search { IsSearch self.now }
    {
        nodes(self.alloc, &self.asked)
    }

    /// Takes the answers to the sample, in its order: a yes makes the changeset and its undecided ancestors common, a
    /// no makes it and its undecided descendants missing. What an earlier answer decided stays so. Then the next sample
    /// is drawn; each round decides 200 changesets at least, or all. Refuses with [`DiscoveryError::WrongCount`] where
    /// there aren't as many answers as were asked for. A refusal changes nothing.
    pub fn answer(&mut self, answers: &[bool]) -> Result<(), DiscoveryError>
        ensures answer { AnswerAnswer self.old answers.now result self.new }
        ensures fewer { OnOk result (undecided self.new.decided ≤ undecided self.old.decided - sample_size) }
    {
        if answers.len() != self.asked.len() {
            return Err(DiscoveryError::WrongCount);
        }
        let decided = answered(
            self.alloc,
            &self.parents,
            &self.children,
            &self.asked,
            answers,
            &self.decided,
        )?;
        let asked = sample(self.alloc, &self.parents, &self.placed_nodes, &decided)?;
        self.decided = decided;
        self.asked = asked;
        Ok(())
    }

    /// Whether nothing is undecided any more. It takes no memory.
    pub fn done(&self) -> bool
        ensures { IsTrue result ↔ (undecided self.now.decided ≡ 0) }
    {
        self.asked.is_empty()
    }

    /// The heads of what is common so far, ascending.
    pub fn common_heads(&self) -> Result<Vec<Node>, AllocError>
        ensures heads { IfOk result (λ ns. AreCommonHeads self.now ns.items) }
        ensures search { IsSearch self.now }
    {
        let heads = common_heads(self.alloc, &self.parents, &self.placed_nodes, &self.decided)?;
        nodes(self.alloc, &heads)
    }
}

// The ids of the placed nodes, in order.
pub(crate) fn nodes(alloc: Global, placed_nodes: &[PlacedNode]) -> Result<Vec<Node>, AllocError>
    ensures { IfOk result (λ ns. ns.items ≡ nodes_of placed_nodes.now) }
{
    let mut nodes = Vec::with_capacity(alloc, placed_nodes.len())?;
    for placed_node in placed_nodes {
        nodes.push(placed_node.node)?;
    }
    Ok(nodes)
}
