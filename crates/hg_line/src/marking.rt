//! Marks of a script: by a label, and what they ask of a node once the label stands for an id.
ghost use Rattle.std.specs.Prelude.{◌∷◌, [], IfOk, IfErr};
ghost use Rattle.hg_line.specs.Events.{IsMark, IsUnresolved, marked_label};
ghost use Rattle.hg_names.specs.Labels.{labelled};

use crate::command_fault::CommandFault;
use crate::operation::Names;
use hg_peer::Mark;

/// What is to be done to what a node pins, by the label of its line.
#[derive(Clone, Copy)]
pub enum Marking<'a> {
    Pin(&'a [u8]),
    Unpin(&'a [u8]),
}

impl Marking<'_> {
    /// What the mark asks of a node. Its label has to be bound.
    pub fn resolve(self, names: &Names) -> Result<Mark, CommandFault>
        ensures ok { IfOk result (IsMark (labelled names.now.labels.now) self.entry) }
        ensures err { IfErr result (IsUnresolved names.now (marked_label self.entry ∷ [])) }
    {
        match self {
            Marking::Pin(label) => Ok(Mark::Pin(names.node(label)?)),
            Marking::Unpin(label) => Ok(Mark::Unpin(names.node(label)?)),
        }
    }
}
