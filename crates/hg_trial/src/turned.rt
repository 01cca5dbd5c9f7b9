//! What came to each kind of changesets, and what went from it.
ghost use Rattle.std.specs.Prelude.{IfOk};
ghost use Rattle.hg_replica.specs.Content.{Content};
ghost use Rattle.hg_instab.specs.Instabilities.{AreInstabilities};
ghost use Rattle.hg_trial.specs.Moved.{AreTurned};

use crate::moved::Moved;
use hg_instab::Instabilities;
use std::alloc::AllocError;

/// What came to each kind of changesets, and what went from it, by the names of Mercurial's instabilities.
#[derive(Drop)]
pub struct Turned {
    /// Not public, and rewritten or pruned.
    pub obsolete: Moved,

    /// Neither public nor obsolete, above something obsolete.
    pub orphan: Moved,

    /// Obsolete, below an orphan.
    pub suspended: Moved,

    /// Obsolete and not suspended: hidden, where nothing is pinned.
    pub extinct: Moved,

    /// Neither public nor obsolete, though it rewrites what is public.
    pub phase_divergent: Moved,

    /// Neither public nor obsolete, though something that it rewrites was rewritten in another way, too.
    pub content_divergent: Moved,
}

impl Turned {
    /// What changed from the instabilities of one state to those of another. It costs these, and nothing of what else
    /// the states hold.
    pub fn between(before: &Instabilities, after: &Instabilities) -> Result<Turned, AllocError>
        ensures { IfOk result (λ turned. (f g : Content) → AreInstabilities f before.now → AreInstabilities g after.now
            → AreTurned f g turned) }
    {
        Ok(Turned {
            obsolete: Moved::between(before.obsolete(), after.obsolete())?,
            orphan: Moved::between(before.orphan(), after.orphan())?,
            suspended: Moved::between(before.suspended(), after.suspended())?,
            extinct: Moved::between(before.extinct(), after.extinct())?,
            phase_divergent: Moved::between(before.phase_divergent(), after.phase_divergent())?,
            content_divergent: Moved::between(
                before.content_divergent(),
                after.content_divergent(),
            )?,
        })
    }
}
