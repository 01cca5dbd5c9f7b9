//! Which families are formed.
//!
//! How many sets a node has is known without a list of them where what its successors lead to has nothing in common:
//! then no union is within another, and the numbers are multiplied and added. Only where ways may meet again are lists
//! formed and compared, and those of all that such a node leads to.
ghost use Rattle.std.specs.Prelude.{◌≡◌, ◌↔◌, ◌<◌, ℕ, length, IsTrue, IfOk};
ghost use Rattle.hg_changeset.specs.declared.node.Node.{Node};
ghost use Rattle.hg_replica.specs.Content.{content_of};
ghost use Rattle.hg_succ.specs.declared.search.Closed.{Closed};
ghost use Rattle.hg_succ.specs.Rows.{rows_of, IsOrder};
ghost use Rattle.hg_succ.specs.Search.{IsListed};
ghost use Rattle.hg_succ.specs.Numbered.{AreOnce, AreRows};
ghost use Rattle.hg_succ.specs.Plan.{Lists, Unites, IsPlan};

use crate::numbered::{Numbered, number};
use crate::ranges::{Ranges, ranges_of};
use crate::search::Closed;
use hg_changeset::Node;
use hg_node_set::{IdKeys, NodeSet};
use hg_replica::Replica;
use std::alloc::{AllocError, Global};

/// What is asked of some nodes.
#[derive(Clone, Copy)]
pub(crate) enum Asked {
    Sets,
    /// Only how many sets each has.
    Counts,
}

/// Which families are formed.
#[derive(Drop)]
pub(crate) struct Plan {
    /// Whether those of all nodes are.
    is_whole: bool,
    /// The nodes whose ways may meet again: their unions are formed, and counted.
    overlapping: NodeSet,
    /// The nodes whose families are formed and kept: all that the overlapping ones lead to.
    listed: NodeSet,
}

impl Plan {
    /// Where sets are asked for, the families of all nodes are formed; else those alone without which the numbers of
    /// sets wouldn't be known.
    pub(crate) fn new(
        alloc: Global,
        replica: &Replica,
        asked: Asked,
        nodes: &NodeSet,
        rows: &[Vec<usize>],
        order: &[Closed],
    ) -> Result<Plan, AllocError>
        requires once { AreOnce nodes.now.keys }
        requires all { length rows.now ≡ length nodes.now.keys }
        requires rows { AreRows (content_of replica.now) nodes.now.keys (rows_of rows.now) }
        requires order { IsOrder (rows_of rows.now) order.now }
        requires listed { (x : ℕ) → x < length rows.now → IsListed order.now x }
        ensures plan { IfOk result (IsPlan replica.now nodes.now.keys) }
        ensures sets { asked ≡ Asked.Sets → IfOk result (λ plan. (n : Node) → Lists plan n) }
    {
        match asked {
            Asked::Sets => Ok(Plan::whole(alloc, replica.keys())),
            Asked::Counts => Plan::of_counts(alloc, replica, nodes, rows, order),
        }
    }

    // The families of all nodes are formed.
    fn whole(alloc: Global, keys: IdKeys) -> Plan
        ensures { (n : Node) → Lists result n }
    {
        Plan {
            is_whole: true,
            overlapping: NodeSet::with_keys(alloc, keys),
            listed: NodeSet::with_keys(alloc, keys),
        }
    }

    // Only those are formed without which the numbers of sets wouldn't be known.
    fn of_counts(
        alloc: Global,
        replica: &Replica,
        nodes: &NodeSet,
        rows: &[Vec<usize>],
        order: &[Closed],
    ) -> Result<Plan, AllocError>
        requires once { AreOnce nodes.now.keys }
        requires all { length rows.now ≡ length nodes.now.keys }
        requires rows { AreRows (content_of replica.now) nodes.now.keys (rows_of rows.now) }
        requires order { IsOrder (rows_of rows.now) order.now }
        requires listed { (x : ℕ) → x < length rows.now → IsListed order.now x }
        ensures { IfOk result (IsPlan replica.now nodes.now.keys) }
    {
        let Ranges {
            ranges: _,
            overlapping,
            starts,
        } = ranges_of(alloc, replica, nodes, rows, order)?;
        let Numbered {
            nodes: listed,
            rows: _,
        } = number(alloc, replica, starts)?;
        Ok(Plan {
            is_whole: false,
            overlapping,
            listed,
        })
    }

    /// Whether the node's family is formed and kept.
    pub(crate) fn lists(&self, node: Node) -> bool
        ensures { IsTrue result ↔ Lists self.now node }
    {
        self.is_whole || self.listed.contains(node)
    }

    /// Whether the node's unions are formed.
    pub(crate) fn unites(&self, node: Node) -> bool
        ensures { IsTrue result ↔ Unites self.now node }
    {
        self.lists(node) || self.overlapping.contains(node)
    }
}
