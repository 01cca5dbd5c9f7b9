//! Operations of a script: by labels, and what they ask of a replica once the labels stand for ids.
ghost use Rattle.std.specs.Prelude.{◌≡◌, ◌∷◌, [], map, Some, IfOk, IfErr};
ghost use Rattle.hg_line.specs.Commands.{parent_words, texts};
ghost use Rattle.hg_line.specs.Entries.{entry_of};
ghost use Rattle.hg_line.specs.Events.{AreIds, AreParentIds, IsOperation, IsUnresolved, new_labels, old_labels};
ghost use Rattle.hg_names.specs.Labels.{labelled};

use crate::command_fault::CommandFault;
use crate::entry_buffers::{EntryBuffers, USER};
use crate::fault::LineFault;
use hg_changeset::{Entry, Node};
use hg_names::Labels;
use hg_phases::Phase;
use hg_rewrite::Op;
use std::alloc::{AllocError, Global};
use std::slice::from_ref;

/// The labels of at most two parents.
#[derive(Clone, Copy)]
pub enum Parents<'a> {
    NoParent,
    One(&'a [u8]),
    Two(&'a [u8], &'a [u8]),
}

/// An operation, by the labels of its line.
#[derive(Clone, Copy)]
pub enum Operation<'a> {
    Commit {
        new: &'a [u8],
        is_secret: bool,
        parents: Parents<'a>,
    },
    Amend {
        old: &'a [u8],
        new: &'a [u8],
    },
    Split {
        old: &'a [u8],
        new: &'a [&'a [u8]],
    },
    Fold {
        new: &'a [u8],
        old: &'a [&'a [u8]],
    },
    Prune {
        old: &'a [u8],
    },
    Relocate {
        old: &'a [u8],
        new: &'a [u8],
        parents: Parents<'a>,
    },
    Advance {
        label: &'a [u8],
        phase: Phase,
    },
}

impl<'a> Operation<'a> {
    /// The new labels, in the order in which the operation makes their changesets.
    pub fn new_labels(&self) -> &[&'a [u8]]
        ensures { map (λ w. w.now) result.now ≡ new_labels self.now }
    {
        match self {
            Operation::Commit { new, .. }
            | Operation::Amend { new, .. }
            | Operation::Fold { new, .. }
            | Operation::Relocate { new, .. } => from_ref(new),
            Operation::Split { new, .. } => *new,
            Operation::Prune { .. } | Operation::Advance { .. } => &[],
        }
    }

    /// What the operation asks of a replica, with the entry of a new changeset in these buffers. All its labels but
    /// the new ones have to be bound.
    #[inline(always)]
    pub fn resolve(self, names: &Names, buffers: &mut EntryBuffers) -> Result<Op, CommandFault>
        ensures ok { IfOk result (IsOperation (labelled names.now.labels.now) self.entry) }
        ensures err { IfErr result (IsUnresolved names.now (old_labels self.entry)) }
    {
        match self {
            Operation::Commit {
                new,
                is_secret,
                parents,
            } => names.commit(new, is_secret, parents, buffers),
            Operation::Amend { old, new } => names.amend(old, new, buffers),
            Operation::Split { old, new } => names.split(old, new, buffers),
            Operation::Fold { new, old } => names.fold(new, old, buffers),
            Operation::Prune { old } => names.prune(old),
            Operation::Relocate { old, new, parents } => names.relocate(old, new, parents, buffers),
            Operation::Advance { label, phase } => names.advance(label, phase),
        }
    }
}

/// What the labels of a line stand for.
#[derive(Clone, Copy)]
pub struct Names<'a> {
    pub alloc: Global,
    pub labels: &'a Labels,
}

impl Names<'_> {
    /// The id that a label names.
    pub fn node(&self, label: &[u8]) -> Result<Node, CommandFault>
        ensures ok { IfOk result (λ node. labelled self.now.labels.now label.now ≡ Some node) }
        ensures err { IfErr result (IsUnresolved self.now (label.now ∷ [])) }
    {
        match self.labels.get(label) {
            Some(node) => Ok(node),
            None => Err(CommandFault::Name(LineFault::UnknownName)),
        }
    }

    // The ids that the labels of parents name, and the null id for each that is absent.
    #[inline(always)]
    fn parents(&self, labels: Parents<'_>) -> Result<(Node, Node), CommandFault>
        ensures ok { IfOk result (λ ps. AreParentIds (labelled self.now.labels.now) labels.entry ps.0 ps.1) }
        ensures err { IfErr result (IsUnresolved self.now (parent_words labels.entry)) }
    {
        match labels {
            Parents::NoParent => Ok((Node::NULL, Node::NULL)),
            Parents::One(p) => Ok((self.node(p)?, Node::NULL)),
            Parents::Two(p, q) => Ok((self.node(p)?, self.node(q)?)),
        }
    }

    #[inline(always)]
    fn commit(
        &self,
        new: &[u8],
        secret: bool,
        parents: Parents<'_>,
        buffers: &mut EntryBuffers,
    ) -> Result<Op, CommandFault>
        ensures ok { IfOk result (IsOperation (labelled self.now.labels.now)
            (Operation.Commit new.entry secret parents.entry)) }
        ensures err { IfErr result (IsUnresolved self.now (parent_words parents.entry)) }
    {
        let (p, q) = self.parents(parents)?;
        Ok(Op::Commit {
            p,
            q,
            entry: buffers.entry(new)?,
            secret,
        })
    }

    #[inline(always)]
    fn amend(&self, old: &[u8], new: &[u8], buffers: &mut EntryBuffers) -> Result<Op, CommandFault>
        ensures ok { IfOk result (IsOperation (labelled self.now.labels.now) (Operation.Amend old.entry new.entry)) }
        ensures err { IfErr result (IsUnresolved self.now (old.now ∷ [])) }
    {
        Ok(Op::Amend {
            node: self.node(old)?,
            entry: buffers.entry(new)?,
        })
    }

    fn split(
        &self,
        old: &[u8],
        new: &[&[u8]],
        buffers: &mut EntryBuffers,
    ) -> Result<Op, CommandFault>
        ensures ok { IfOk result (IsOperation (labelled self.now.labels.now) (Operation.Split old.entry new.entry)) }
        ensures err { IfErr result (IsUnresolved self.now (old.now ∷ [])) }
    {
        Ok(Op::Split {
            node: self.node(old)?,
            entries: self.entries(new, buffers)?,
        })
    }

    fn fold(
        &self,
        new: &[u8],
        old: &[&[u8]],
        buffers: &mut EntryBuffers,
    ) -> Result<Op, CommandFault>
        ensures ok { IfOk result (IsOperation (labelled self.now.labels.now) (Operation.Fold new.entry old.entry)) }
        ensures err { IfErr result (IsUnresolved self.now (texts old.now)) }
    {
        Ok(Op::Fold {
            nodes: self.nodes(old)?,
            entry: buffers.entry(new)?,
        })
    }

    // The user and the date of a prune are those of an entry.
    fn prune(&self, old: &[u8]) -> Result<Op, CommandFault>
        ensures ok { IfOk result (IsOperation (labelled self.now.labels.now) (Operation.Prune old.entry)) }
        ensures err { IfErr result (IsUnresolved self.now (old.now ∷ [])) }
    {
        Ok(Op::Prune {
            node: self.node(old)?,
            user: Vec::from_slice(self.alloc, USER)?,
            secs: 0,
            offset: 0,
        })
    }

    fn relocate(
        &self,
        old: &[u8],
        new: &[u8],
        parents: Parents<'_>,
        buffers: &mut EntryBuffers,
    ) -> Result<Op, CommandFault>
        ensures ok { IfOk result (IsOperation (labelled self.now.labels.now)
            (Operation.Relocate old.entry new.entry parents.entry)) }
        ensures err { IfErr result (IsUnresolved self.now (old.now ∷ parent_words parents.entry)) }
    {
        let node = self.node(old)?;
        let (p, q) = self.parents(parents)?;
        Ok(Op::Relocate {
            node,
            p,
            q,
            entry: buffers.entry(new)?,
        })
    }

    fn advance(&self, label: &[u8], phase: Phase) -> Result<Op, CommandFault>
        ensures ok { IfOk result (IsOperation (labelled self.now.labels.now) (Operation.Advance label.entry phase)) }
        ensures err { IfErr result (IsUnresolved self.now (label.now ∷ [])) }
    {
        Ok(Op::Advance {
            node: self.node(label)?,
            phase,
        })
    }

    /// The ids that labels name.
    pub fn nodes(&self, labels: &[&[u8]]) -> Result<Vec<Node>, CommandFault>
        ensures ok { IfOk result (λ nodes. AreIds (labelled self.now.labels.now) labels.now nodes.items) }
        ensures err { IfErr result (IsUnresolved self.now (texts labels.now)) }
    {
        let mut nodes = Vec::new(self.alloc);
        for label in labels {
            nodes.push(self.node(*label)?)?;
        }
        Ok(nodes)
    }

    fn entries(
        &self,
        labels: &[&[u8]],
        buffers: &mut EntryBuffers,
    ) -> Result<Vec<Entry>, AllocError>
        ensures { IfOk result (λ entries. entries.items ≡ map (λ w. entry_of w.now) labels.now) }
    {
        let mut entries = Vec::new(self.alloc);
        for label in labels {
            entries.push(buffers.entry(*label)?)?;
        }
        Ok(entries)
    }
}
