//! Lines of changesets that came to a kind, or went from it.
ghost use Rattle.std.specs.Prelude.{OnOk};
ghost use Rattle.std.specs.Io.KnownBytes.{Appends};
ghost use Rattle.hg_log.specs.Drawings.{Text};
ghost use Rattle.hg_preview.specs.Lines.{AreLinesOf, IsLineOf, IsMovedText};

use crate::order::{list_of, put_in_order};
use hg_changeset::Node;
use hg_log::{DrawFault, write_line};
use hg_trial::Moved;
use hg_view::Kept;
use hg_why::push_named;
use std::alloc::{AllocError, Global};
use std::io::Write;

/// What is told of changesets, and from which place on they are new.
#[derive(Clone, Copy)]
pub(crate) struct Scene<'a> {
    pub(crate) alloc: Global,
    pub(crate) kept: &'a Kept,
    pub(crate) first_new: usize,
}

// What became of a changeset.
#[derive(Clone, Copy)]
enum Way {
    // It came to a kind.
    Came,
    // It went from it.
    Went,
}

impl<'a> Scene<'a> {
    /// Writes a line for each changeset that came to a kind of this name, and then one for each that went from it, by
    /// means of the empty line that is lent.
    pub(crate) fn write_moved<W: Write>(
        &self,
        kind: &[u8],
        moved: &Moved,
        line: &mut Vec<u8>,
        writer: &mut W,
    ) -> Result<(), DrawFault>
        ensures { OnOk result ((text : Text) × IsMovedText moved.now text
            × Appends (W.contents writer.old) (W.contents writer.new) text) }
    {
        let graph = self.kept.replica().graph();
        let mut came = list_of(self.alloc, &moved.came)?;
        put_in_order(graph, &mut came);
        self.write_each(Way::Came, kind, &came, line, writer)?;
        let mut went = list_of(self.alloc, &moved.went)?;
        put_in_order(graph, &mut went);
        self.write_each(Way::Went, kind, &went, line, writer)
    }

    // Writes a line for each of the changesets, by what became of it.
    fn write_each<W: Write>(
        &self,
        way: Way,
        kind: &[u8],
        nodes: &[Node],
        line: &mut Vec<u8>,
        writer: &mut W,
    ) -> Result<(), DrawFault>
        ensures { OnOk result ((text : Text) × AreLinesOf nodes.now text
            × Appends (W.contents writer.old) (W.contents writer.new) text) }
    {
        for node in nodes {
            let word = self.word_of(way, *node);
            self.write_one(word, kind, *node, line, writer)?;
        }
        Ok(())
    }

    /// Writes a line with a word, a kind, and what the changeset is called.
    pub(crate) fn write_one<W: Write>(
        &self,
        word: &[u8],
        kind: &[u8],
        node: Node,
        line: &mut Vec<u8>,
        writer: &mut W,
    ) -> Result<(), DrawFault>
        ensures { OnOk result ((text : Text) × IsLineOf node text
            × Appends (W.contents writer.old) (W.contents writer.new) text) }
    {
        line.extend_from_slice(b"  ")?;
        line.extend_from_slice(word)?;
        line.push(b' ')?;
        line.extend_from_slice(kind)?;
        line.extend_from_slice(b": ")?;
        push_named(line, self.kept.replica(), node)?;
        write_line(line, writer)
    }

    // The word for what became of a changeset. What is new has one of its own.
    fn word_of(&self, way: Way, node: Node) -> &'static [u8] {
        match way {
            Way::Came => match self.kept.replica().graph().place(node) {
                Some(place) if place < self.first_new => b"becomes",
                _ => b"comes as",
            },
            Way::Went => b"no longer",
        }
    }

    /// The word for the phase that a changeset has now, which is held.
    pub(crate) fn phase_word(&self, node: Node) -> Result<&'static [u8], AllocError> {
        match self.kept.replica().phase_of(node)? {
            Some(phase) => Ok(phase.word().as_bytes()),
            None => Ok(b""),
        }
    }
}
