//! Which changesets are drawn.
ghost use Rattle.std.specs.Prelude.{◌<◌, ◌↔◌, IsTrue, length};
ghost use Rattle.hg_phases.specs.State.{changesets};
ghost use Rattle.hg_log.specs.Drawings.{IsPlaceToBeDrawn, StandsAt};

use hg_changeset::Node;
use hg_view::Kept;

/// What of a replica is drawn.
#[derive(Clone, Copy)]
pub(crate) struct Shown<'a> {
    pub(crate) kept: &'a Kept,
    pub(crate) shows_hidden: bool,
}

impl<'a> Shown<'a> {
    /// Whether the changeset with this id is drawn: it is held, and hidden only where that is asked for.
    pub(crate) fn has(&self, node: Node) -> bool {
        if self.shows_hidden {
            self.kept.replica().graph().contains(node)
        } else {
            self.kept.is_visible(node)
        }
    }

    /// Whether what rewrote the changeset with this id is drawn: that of each that is drawn, or of all.
    pub(crate) fn has_rewritten(&self, node: Node) -> bool {
        self.shows_hidden || self.has(node)
    }

    /// Whether the changeset at this place is drawn.
    pub(crate) fn has_place(&self, place: usize) -> bool
        ensures { IsTrue result ↔ IsPlaceToBeDrawn self.now.kept.now self.now.shows_hidden place }
    {
        match self.kept.replica().graph().node_at(place) {
            Some(node) => self.shows_hidden || self.kept.is_visible(node),
            None => false,
        }
    }
}

/// The id of the changeset at a place.
pub fn node_at(kept: &Kept, place: usize) -> Node
    requires { place < length (changesets kept.now.replica.history) }
    ensures { StandsAt kept.now place result }
{
    kept.replica().graph().node_at(place).unwrap()
}
