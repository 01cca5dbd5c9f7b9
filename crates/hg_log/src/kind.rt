//! Of which kind a changeset is, as its mark in a drawing tells.
ghost use Rattle.std.specs.Prelude.{◌≡◌, ◌∷◌, ◌↔◌, ◌⊎◌, [], IsTrue};
ghost use Rattle.hg_replica.specs.Content.{content_of};
ghost use Rattle.hg_log.specs.Kinds.{IsOfKind, mark_of};

use hg_changeset::Node;
use hg_view::{Kept, Status};

/// Of which kind a changeset is: the first that applies, from the bottom up.
#[derive(Clone, Copy, PartialEq, Eq)]
pub(crate) enum Kind {
    /// None of the others.
    Ordinary,
    /// An orphan, phase-divergent or content-divergent.
    Unstable,
    /// Rewritten, and in view.
    Obsolete,
    /// Not in view.
    Hidden,
}

impl Kind {
    /// The mark in its column: Mercurial's, and for what it wouldn't draw `#`, which stands for nothing else there.
    pub(crate) fn mark(self) -> u8
        ensures { result ∷ [] ≡ mark_of self }
    {
        match self {
            Kind::Ordinary => b'o',
            Kind::Unstable => b'*',
            Kind::Obsolete => b'x',
            Kind::Hidden => b'#',
        }
    }
}

/// The kind of a changeset of the replica, under the pins.
pub(crate) fn kind_of(kept: &Kept, node: Node) -> Kind
    ensures { IsOfKind (content_of kept.now.replica) kept.now.pins node result }
{
    let status = kept.status(node);
    if !status.visible {
        return Kind::Hidden;
    }
    if status.obsolete {
        return Kind::Obsolete;
    }
    if is_unstable(status) {
        return Kind::Unstable;
    }
    Kind::Ordinary
}

fn is_unstable(status: Status) -> bool
    ensures { IsTrue result
        ↔ (IsTrue status.orphan ⊎ (IsTrue status.phase_divergent ⊎ IsTrue status.content_divergent)) }
{
    status.orphan || status.phase_divergent || status.content_divergent
}
