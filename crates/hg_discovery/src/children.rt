//! The children of each changeset.
ghost use Rattle.std.specs.Prelude.{◌≡◌, List, IfOk};
ghost use Rattle.hg_graph.specs.declared.graph.ParentPlaces.{ParentPlaces};
ghost use Rattle.hg_discovery.specs.Children.{AreChildren};
ghost use Rattle.hg_discovery.specs.Under.{IsShapeOf};

use hg_graph::Graph;
use std::alloc::{AllocError, Global};

/// Where a changeset's children stand in the list of all children: from one index up to another.
#[derive(Clone, Copy, PartialEq, Eq, Debug)]
pub struct Stretch {
    /// The first.
    pub from: usize,
    /// Behind the last.
    pub to: usize,
}

// The children of all changesets, and by place where each one's stand.
pub(crate) struct Children {
    pub(crate) places: Vec<usize>,
    pub(crate) stretches: Vec<Stretch>,
}

impl Drop for Children {
    fn drop(self) {
        let Children {
            places: _,
            stretches: _,
        } = self;
    }
}

// The children of each changeset of a graph.
pub(crate) fn children_of(alloc: Global, graph: &Graph) -> Result<Children, AllocError>
    ensures { IfOk result (λ children. (ps : List ParentPlaces) → IsShapeOf graph.now ps
        → AreChildren ps children.places.items children.stretches.items) }
{
    let mut places = Vec::new(alloc);
    let mut stretches = Vec::with_capacity(alloc, graph.len())?;
    for place in 0..graph.len() {
        let from = places.len();
        places.extend_from_slice(graph.children(place))?;
        let to = places.len();
        stretches.push(Stretch { from, to })?;
    }
    Ok(Children { places, stretches })
}
