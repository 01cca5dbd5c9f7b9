//! Heads, by one sweep between the first place and the last.
//!
//! Parents of what is marked get a second mark, and then all that reach them: what has both marks is an ancestor of
//! another marked changeset, and no head.
ghost use Rattle.std.specs.Prelude.{◌≡◌, ◌↔◌, ℕ, ◌+◌, ◌≤◌, min, max, length, Contains, MatchOption, IfOk, OnErr};
ghost use Rattle.std.specs.List.Sorted.{IsStrictlySortedBy};
ghost use Rattle.hg_changeset.specs.declared.node.Node.{Node};
ghost use Rattle.hg_changeset.specs.Node.{node_cmp};
ghost use Rattle.hg_graph.specs.Graph.{Holds, IsHeadOfThem};
ghost use Rattle.hg_graph.specs.Places.{IsAt, IsParentPlace, IsPlaceOfOne, IsHeadPlace, IsSpan};
ghost use Rattle.hg_graph.specs.Marks.{IsMarked, MarksAlso};

use crate::graph::Graph;
use hg_changeset::Node;
use std::alloc::{AllocError, Global};
use std::collections::BTreeSet;

impl Graph {
    /// Those of the nodes that are held and have no other of them as a descendant, each once, ascending by id, as
    /// Mercurial's `heads(SET)`. Ids that aren't held change nothing. It costs what stands between the first of them
    /// and the last.
    pub fn heads_of(&self, nodes: &[Node]) -> Result<Vec<Node>, AllocError>
        ensures exact { IfOk result (λ heads. (n : Node) → Contains heads.items n ↔ IsHeadOfThem self.now nodes.now n) }
        ensures ascending { IfOk result (λ heads. IsStrictlySortedBy node_cmp heads.items) }

        // Memory is taken only where one of the nodes is held.
        ensures memory { OnErr result ((n : Node) × Contains nodes.now n × Holds self.now n) }
    {
        let alloc = self.alloc();
        self.is_valid();
        match self.span_of(nodes) {
            Some((first, last)) => {
                let mut window = vec![in alloc; false; last - first + 1]?;
                let marks = window.as_mut_slice();
                self.mark_nodes(nodes, first, marks);
                self.heads_between(first, last + 1, marks)
            }
            None => Ok(Vec::new(alloc)),
        }
    }

    // The first and the last of the places at which one of the nodes stands.
    fn span_of(&self, nodes: &[Node]) -> Option<(usize, usize)>
        ensures { MatchOption result ((k : ℕ) → ¬ (IsPlaceOfOne self.now nodes.now k)) (IsSpan self.now nodes.now) }
    {
        let mut span = None;
        for node in nodes {
            if let Some(place) = self.place(*node) {
                span = Some(widened(span, place));
            }
        }
        span
    }

    // The nodes at those of the marked places from which no other one of them is reached, ascending by id. The marks
    // are for the places from `low` up to `high`.
    fn heads_between(
        &self,
        low: usize,
        high: usize,
        marks: &[bool],
    ) -> Result<Vec<Node>, AllocError>
        requires window { low + length marks.now ≡ high }
        requires within { high ≤ length self.now }
        ensures exact { IfOk result
            (λ heads. (n : Node) → Contains heads.items n
            ↔ ((k : ℕ) × IsAt self.now n k × IsHeadPlace self.now (IsMarked low marks.now) k)) }
        ensures ascending { IfOk result (λ heads. IsStrictlySortedBy node_cmp heads.items) }
    {
        let alloc = self.alloc();
        let mut window = vec![in alloc; false; high - low]?;
        let above = window.as_mut_slice();
        self.mark_parents_of(low, high, marks, above);
        self.sweep(low, high, above);
        let heads = self.unmarked(low, high, marks, above)?;
        listed(alloc, heads)
    }

    // Marks, in `above`, the parents of the marked changesets.
    fn mark_parents_of(&self, low: usize, high: usize, marks: &[bool], above: &mut [bool])
        requires window { low + length marks.now ≡ high }
        requires within { high ≤ length self.now }
        ensures { MarksAlso low (λ k. (j : ℕ) × IsMarked low marks.now j × IsParentPlace self.now j k) above.old
            above.new }
    {
        for place in low..high {
            if marks[place - low] {
                self.mark_parents(place, low, above);
            }
        }
    }

    // The nodes at the marked places that have no mark in `above`.
    fn unmarked(
        &self,
        low: usize,
        high: usize,
        marks: &[bool],
        above: &[bool],
    ) -> Result<BTreeSet<Node>, AllocError>
        requires window { low + length marks.now ≡ high }
        requires same_window { low + length above.now ≡ high }
        requires within { high ≤ length self.now }
        ensures { IfOk result
            (λ heads. (n : Node) → Contains heads.keys n
            ↔ ((k : ℕ) × IsAt self.now n k × IsMarked low marks.now k × ¬ (IsMarked low above.now k))) }
    {
        let mut found = BTreeSet::new(self.alloc());
        for place in low..high {
            if marks[place - low] && !above[place - low] {
                if let Some(node) = self.node_at(place) {
                    found.insert(node)?;
                }
            }
        }
        Ok(found)
    }
}

// The nodes of a set, ascending.
fn listed(alloc: Global, nodes: BTreeSet<Node>) -> Result<Vec<Node>, AllocError>
    ensures all { IfOk result (λ list. list.items ≡ nodes.keys) }
    ensures ascending { IfOk result (λ list. IsStrictlySortedBy node_cmp list.items) }
{
    nodes.into_iter().collect(alloc)
}

// From the first to the last of the places between and of one more.
fn widened(span: Option<(usize, usize)>, place: usize) -> (usize, usize)
    ensures { MatchOption span (result ≡ (place, place)) (λ s. result ≡ (min s.0 place, max s.1 place)) }
{
    match span {
        Some((first, last)) => (first.min(place), last.max(place)),
        None => (place, place),
    }
}
