//! A reason why a changeset is unstable.
use hg_changeset::Node;
use hg_succ::Sets;

/// Why a changeset is unstable.
#[derive(Drop)]
pub enum Reason {
    /// It is an orphan, and this parent of it is obsolete, or else an orphan itself.
    Orphan {
        /// The parent.
        parent: Node,
        /// Whether the parent is obsolete.
        is_obsolete: bool,
    },
    /// It is phase-divergent: steps over markers that aren't bumpedfix lead to it from this public changeset.
    PhaseDivergent {
        /// The public changeset.
        predecessor: Node,
    },
    /// It is content-divergent: steps over markers lead to it from this id, held or not, which became different
    /// changesets with the markers that are followed.
    ContentDivergent {
        /// The id that it comes from.
        predecessor: Node,
        /// The successors sets of that id: two or more, or too many to tell.
        sets: Sets,
    },
}
