//! Ancestors, by one sweep from the last place to the first.
//!
//! Each place has a mark. Since a parent's place is before its child's, a walk down the places that marks the parents
//! of each marked changeset has marked, when it comes to a changeset, all that reach it. Where only the changesets from
//! a place on are asked for, the marks begin there, and so does the walk end there: whatever lies on the way to a
//! changeset stands after it.
ghost use Rattle.std.specs.Prelude.{◌≡◌, ◌↔◌, ℕ, ◌+◌, ◌<◌, ◌≤◌, Some, length, Contains, IsTrue, IfOk};
ghost use Rattle.hg_changeset.specs.declared.node.Node.{Node};
ghost use Rattle.hg_graph.specs.Graph.{IsGraph, IsAncestorOfOne, Reaches, Selects};
ghost use Rattle.hg_graph.specs.Places.{IsParentPlace, IsPlaceOfOne};
ghost use Rattle.hg_graph.specs.Marks.{IsMarked, IsMarkedNode, MarksAlso, MarksAncestors};

use crate::graph::Graph;
use hg_changeset::Node;
use std::alloc::AllocError;

impl Graph {
    /// The nodes that are held and their ancestors, in the graph's order. Doubles, and ids that aren't held, change
    /// nothing.
    pub fn ancestors(&self, nodes: &[Node]) -> Result<Vec<Node>, AllocError>
        ensures { IfOk result (λ found. Selects self.now (IsAncestorOfOne self.now nodes.now) found.items) }
    {
        let marks = self.ancestor_marks(nodes)?;
        self.marked(&marks)
    }

    /// A mark for each place: whether the changeset there is one of the nodes, or an ancestor of one. Doubles, and ids
    /// that aren't held, change nothing.
    pub fn ancestor_marks(&self, nodes: &[Node]) -> Result<Vec<bool>, AllocError>
        ensures len { IfOk result (λ marks. length marks.items ≡ length self.now) }
        ensures marked { IfOk result (λ marks. (a : Node) → IsMarkedNode self.now marks.items a
            ↔ IsAncestorOfOne self.now nodes.now a) }
    {
        let mut marks = vec![in self.alloc(); false; self.len()]?;
        self.mark_ancestors(nodes, &mut marks);
        Ok(marks)
    }

    /// Marks the ancestors of the changesets that are marked. There is a mark for each place.
    pub fn add_ancestors(&self, marks: &mut [bool])
        requires { length marks.old ≡ length self.now }
        ensures len { length marks.new ≡ length self.now }
        ensures marked { (a : Node) → IsMarkedNode self.now marks.new a
            ↔ ((d : Node) × IsMarkedNode self.now marks.old d × Reaches self.now a d) }
    {
        self.is_valid();
        self.sweep(0, self.len(), marks);
    }

    // Marks the nodes that are held, and their ancestors.
    fn mark_ancestors(&self, nodes: &[Node], marks: &mut [bool])
        requires graph { IsGraph self.now }
        requires len { length marks.old ≡ length self.now }
        requires clear { (k : ℕ) → ¬ (IsMarked 0 marks.old k) }
        ensures len { length marks.new ≡ length self.now }
        ensures marked { (a : Node) → IsMarkedNode self.now marks.new a ↔ IsAncestorOfOne self.now nodes.now a }
    {
        self.mark_nodes(nodes, 0, marks);
        self.sweep(0, marks.len(), marks);
    }

    // Marks the nodes that are held, from the place `low` on.
    pub(crate) fn mark_nodes(&self, nodes: &[Node], low: usize, marks: &mut [bool])
        ensures { MarksAlso low (IsPlaceOfOne self.now nodes.now) marks.old marks.new }
    {
        for node in nodes {
            mark(self.place(*node), low, marks);
        }
    }

    // Marks the ancestors of the marked changesets. The marks are for the places from `low` up to `high`.
    pub(crate) fn sweep(&self, low: usize, high: usize, marks: &mut [bool])
        requires graph { IsGraph self.now }
        requires window { low + length marks.old ≡ high }
        requires within { high ≤ length self.now }
        ensures { MarksAncestors self.now low marks.old marks.new }
    {
        for place in (low..high).rev() {
            if marks[place - low] {
                self.mark_parents(place, low, marks);
            }
        }
    }

    // Marks the parents of the changeset at a place, from the place `low` on.
    pub(crate) fn mark_parents(&self, place: usize, low: usize, marks: &mut [bool])
        requires { place < length self.now }
        ensures { MarksAlso low (IsParentPlace self.now place) marks.old marks.new }
    {
        let parents = self.parent_places(place);
        mark(parents.first, low, marks);
        mark(parents.second, low, marks);
    }

    /// Whether the changeset with this id is held and marked. There is a mark for each place.
    pub fn is_marked(&self, marks: &[bool], node: Node) -> bool
        requires { length marks.now ≡ length self.now }
        ensures { IsTrue result ↔ IsMarkedNode self.now marks.now node }
    {
        match self.place(node) {
            Some(place) => marks[place],
            None => false,
        }
    }

    /// The nodes at the marked places, in the graph's order. There is a mark for each place.
    pub fn marked(&self, marks: &[bool]) -> Result<Vec<Node>, AllocError>
        requires { length marks.now ≡ length self.now }
        ensures { IfOk result (λ found. Selects self.now (IsMarkedNode self.now marks.now) found.items) }
    {
        let mut found = Vec::new(self.alloc());
        for i in 0..marks.len() {
            if marks[i] {
                if let Some(node) = self.node_at(i) {
                    found.push(node)?;
                }
            }
        }
        Ok(found)
    }
}

// Marks the place, where there is one and a mark for it.
fn mark(place: Option<usize>, low: usize, marks: &mut [bool])
    ensures { MarksAlso low (λ k. place ≡ Some k) marks.old marks.new }
{
    if let Some(place) = place {
        if low <= place && place - low < marks.len() {
            marks[place - low] = true;
        }
    }
}
