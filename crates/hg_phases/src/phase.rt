//! How far a changeset may be passed on.
ghost use Rattle.std.specs.Prelude.{◌≡◌};
ghost use Rattle.hg_phases.specs.Words.{phase_word};

/// The phase of a changeset: each is below the next. The default is public, as of what stands above no root.
#[derive(Clone, Copy, Default, PartialEq, Eq, PartialOrd, Ord, Hash, Debug)]
pub enum Phase {
    /// Passed on for good: the changeset isn't rewritten any more.
    #[default]
    Public,
    /// Passed on, and may still be rewritten.
    Draft,
    /// Not passed on.
    Secret,
}

impl Phase {
    /// The word for the phase, as Mercurial has it.
    pub fn word(self) -> &'static str
        ensures { result.now ≡ phase_word self }
    {
        match self {
            Phase::Public => "public",
            Phase::Draft => "draft",
            Phase::Secret => "secret",
        }
    }
}
