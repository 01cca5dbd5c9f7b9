//! What is told of a remedy.

/// What is told of a remedy, which is the step by which an orphan is moved.
#[derive(Clone, Copy)]
pub enum Remedy {
    /// The line of a script.
    ScriptLine,
    /// Nothing, as of a replica that no script made.
    Untold,
}
