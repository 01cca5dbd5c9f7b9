//! Which nodes are rewritten to what may lead to something in common.
//!
//! Each node has a rank, its place in the order, and a range: from the first to the last rank of what its picks have.
//! Nodes that are met together are closed together, so where each successor leads to ids of its own, their ranges are
//! disjoint, and nothing is in common. Where ranges overlap, something may be in common, and need not be.
ghost use Rattle.std.specs.Prelude.{◌≡◌, ◌<◌, ℕ, [], length, map, false, Contains, IsTrue, IfOk, OnOk};
ghost use Rattle.std.specs.List.{flat_map};
ghost use Rattle.hg_changeset.specs.declared.node.Node.{Node};
ghost use Rattle.hg_replica.specs.Content.{content_of};
ghost use Rattle.hg_succ.specs.declared.search.Closed.{Closed};
ghost use Rattle.hg_succ.specs.Rows.{At, rows_of, IsOrder};
ghost use Rattle.hg_succ.specs.Numbered.{successors_at, AreOnce, AreRows, IsRow};
ghost use Rattle.hg_succ.specs.Plan.{AreJudged, IsSeen, NotesOverlap};
ghost use Rattle.hg_succ.specs.Plan.{gathered, gather_all, range_at, range_of, no_range};

use crate::families::has_one_successor;
use crate::numbered::successors_at;
use crate::search::Closed;
use hg_changeset::Node;
use hg_marker::Marker;
use hg_node_set::{IdKeys, NodeSet};
use hg_replica::Replica;
use std::alloc::{AllocError, Global};

/// From the first to the last of some ranks.
#[derive(Clone, Copy)]
pub(crate) struct RankRange {
    pub first: usize,
    pub last: usize,
}

/// What several ranges are together.
#[derive(Clone, Copy)]
pub(crate) struct Gathered {
    /// From the first to the last rank; none where there are none.
    pub range: Option<RankRange>,
    /// Whether each is disjoint from those before it.
    pub are_apart: bool,
}

/// What is found of the nodes.
#[derive(Drop)]
pub(crate) struct Ranges {
    /// For each node, by its number, its range, once it is seen.
    pub ranges: Vec<Option<RankRange>>,
    /// The nodes whose successors' ranges aren't all disjoint.
    pub overlapping: NodeSet,
    /// What those nodes were rewritten to.
    pub starts: NodeSet,
}

/// What is found of all nodes.
pub(crate) fn ranges_of(
    alloc: Global,
    replica: &Replica,
    nodes: &NodeSet,
    rows: &[Vec<usize>],
    order: &[Closed],
) -> Result<Ranges, AllocError>
    requires once { AreOnce nodes.now.keys }
    requires all { length rows.now ≡ length nodes.now.keys }
    requires rows { AreRows (content_of replica.now) nodes.now.keys (rows_of rows.now) }
    requires order { IsOrder (rows_of rows.now) order.now }
    ensures { IfOk result (AreJudged replica.now nodes.now.keys order.now) }
{
    let ranks = ranks(alloc, nodes.len(), order)?;
    let mut found = Ranges::new(alloc, replica.keys(), nodes.len())?;
    found.see_all(replica, nodes, &ranks, rows, order)?;
    Ok(found)
}

// For each node, by its number, its place in the order.
fn ranks(alloc: Global, count: usize, order: &[Closed]) -> Result<Vec<usize>, AllocError>
    requires { (k : ℕ) (e : Closed) → At order.now k e → e.node < count }
    ensures { IfOk result (λ ranks. length ranks.items ≡ count) }
{
    let mut ranks = vec![in alloc; 0; count]?;
    for (rank, closed) in order.iter().enumerate() {
        ranks[closed.node] = rank;
    }
    Ok(ranks)
}

impl Ranges {
    // Nothing is seen.
    fn new(alloc: Global, keys: IdKeys, count: usize) -> Result<Ranges, AllocError>
        ensures long { IfOk result (λ found. length found.ranges.items ≡ count) }
        ensures none { IfOk result (λ found. found.overlapping.keys ≡ []) }
    {
        Ok(Ranges {
            ranges: vec![in alloc; None; count]?,
            overlapping: NodeSet::with_keys(alloc, keys),
            starts: NodeSet::with_keys(alloc, keys),
        })
    }

    // Sees the nodes in the order in which they are closed.
    fn see_all(
        &mut self,
        replica: &Replica,
        nodes: &NodeSet,
        ranks: &[usize],
        rows: &[Vec<usize>],
        order: &[Closed],
    ) -> Result<(), AllocError>
        requires none { self.old.overlapping.keys ≡ [] }
        requires long { length self.old.ranges.items ≡ length nodes.now.keys }
        requires ranked { length ranks.now ≡ length nodes.now.keys }
        requires once { AreOnce nodes.now.keys }
        requires all { length rows.now ≡ length nodes.now.keys }
        requires rows { AreRows (content_of replica.now) nodes.now.keys (rows_of rows.now) }
        requires order { IsOrder (rows_of rows.now) order.now }
        ensures { OnOk result (AreJudged replica.now nodes.now.keys order.now self.new) }
    {
        for closed in order {
            let number = closed.node;
            let row = &rows[number];
            let gathered = self.gathered(replica, nodes, ranks[number], number, row, closed.cyclic);
            self.ranges[number] = gathered.range;
            if !gathered.are_apart {
                self.note_overlap(nodes, number, row)?;
            }
        }
        Ok(())
    }

    // The range of a node, whose rank is given, and whether those of its successors are disjoint.
    fn gathered(
        &self,
        replica: &Replica,
        nodes: &NodeSet,
        rank: usize,
        number: usize,
        row: &[usize],
        cyclic: bool,
    ) -> Gathered
        requires number { number < length nodes.now.keys }
        requires once { AreOnce nodes.now.keys }
        requires row { (n : Node) → At nodes.now.keys number n
            → IsRow (content_of replica.now) nodes.now.keys n row.now }
        ensures cyclic { IsTrue cyclic → result ≡ no_range }
        ensures seen { cyclic ≡ false → (n : Node) → At nodes.now.keys number n
            → IsSeen replica.now self.now.ranges.items nodes.now.keys rank n result }
    {
        if cyclic {
            return Gathered::none();
        }
        let node = nodes.as_slice()[number];
        let store = replica.store();
        let places = store.with_predecessor(node);
        if places.is_empty() {
            return Gathered {
                range: Some(RankRange {
                    first: rank,
                    last: rank,
                }),
                are_apart: true,
            };
        }
        let markers = store.markers();
        if has_one_successor(markers, places) && !row.is_empty() {
            return self.passed_on(row[0]);
        }
        self.gather_all(nodes, markers, places)
    }

    // Of one successor alone, whose number is given.
    fn passed_on(&self, number: usize) -> Gathered
        ensures { result ≡ gathered no_range (range_at self.now.ranges.items number) }
    {
        Gathered {
            range: self.range_at(number),
            are_apart: true,
        }
    }

    // Of the successors of the markers at these places.
    fn gather_all(&self, nodes: &NodeSet, markers: &[Marker], places: &[usize]) -> Gathered
        ensures { result ≡ gather_all no_range (map (range_of self.now.ranges.items nodes.now.keys)
            (flat_map (successors_at markers.now) places.now)) }
    {
        let mut all = Gathered::none();
        for place in places {
            all = self.gather(nodes, successors_at(markers, *place), all);
        }
        all
    }

    // With these nodes.
    fn gather(&self, nodes: &NodeSet, more: &[Node], before: Gathered) -> Gathered
        ensures { result ≡ gather_all before (map (range_of self.now.ranges.items nodes.now.keys) more.now) }
    {
        let mut all = before;
        for node in more {
            all = all.with(self.range(nodes, *node));
        }
        all
    }

    // The range of a node.
    fn range(&self, nodes: &NodeSet, node: Node) -> Option<RankRange>
        ensures { result ≡ range_of self.now.ranges.items nodes.now.keys node }
    {
        self.range_at(nodes.get_index_of(node)?)
    }

    // The range of the node with this number.
    fn range_at(&self, number: usize) -> Option<RankRange>
        ensures { result ≡ range_at self.now.ranges.items number }
    {
        match self.ranges.get(number) {
            Some(range) => *range,
            None => None,
        }
    }

    // Notes that the ranges of the successors of the node with this number overlap. Its row is given.
    fn note_overlap(
        &mut self,
        nodes: &NodeSet,
        number: usize,
        row: &[usize],
    ) -> Result<(), AllocError>
        requires number { number < length nodes.now.keys }
        requires row { (j : ℕ) → Contains row.now j → j < length nodes.now.keys }
        ensures { OnOk result ((n : Node) → At nodes.now.keys number n
            → NotesOverlap nodes.now.keys n row.now self.old self.new) }
    {
        self.overlapping.insert(nodes.as_slice()[number])?;
        for successor in row {
            self.starts.insert(nodes.as_slice()[*successor])?;
        }
        Ok(())
    }
}

impl Gathered {
    // Nothing is gathered yet.
    fn none() -> Gathered
        ensures { result ≡ no_range }
    {
        Gathered {
            range: None,
            are_apart: true,
        }
    }

    // With one more range.
    fn with(self, other: Option<RankRange>) -> Gathered
        ensures { result ≡ gathered self other }
    {
        match (self.range, other) {
            (None, _) => Gathered {
                range: other,
                are_apart: self.are_apart,
            },
            (Some(_), None) => self,
            (Some(range), Some(other)) => Gathered {
                range: Some(RankRange {
                    first: range.first.min(other.first),
                    last: range.last.max(other.last),
                }),
                are_apart: self.are_apart && (range.last < other.first || other.last < range.first),
            },
        }
    }
}
