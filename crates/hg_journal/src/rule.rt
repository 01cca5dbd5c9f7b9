//! The rule of a journal, and its steps.
use logbook::{Gain, Pen, Plain, Play, Rule};

/// What is noted of a step: the entry that was added, if any, and a number that no program sees, the key of the cell
/// that is away since then.
pub type Note<E> = (Option<E>, u64);

/// The rule of a journal: a word is the number of its notes, and of all notes but the last the cell is at home.
///
/// So whoever has the pen of a cell that is away, which the last note names, has seen the whole journal, and nobody
/// else can add to it.
pub struct Counted;

impl<E> Rule<Note<E>, u64> for Counted {
    ghost use Rattle.std.specs.Prelude.{[]};
    ghost use base.Fml.{ftrue};
    ghost use Rattle.hg_journal.specs.Rules.{IsJournal};

    ghost holds = { λ cells notes. IsJournal cells notes };

    ghost first = { [] };

    ghost hinted = { λ n notes. Unit {0} };

    ghost shows = { λ notes. [] };

    ghost keeps = { λ names notes. ftrue };

    ghost moves = { λ ask before after answer. Unit {0} };
}

/// Callers trade nothing.
pub struct Nothing;

impl<E> Gain<Note<E>, u64> for Nothing {
    ghost use base.Fml.{ftrue};

    ghost after = { λ names about answer. ftrue };
}

/// The first step of a journal: a note without an entry, which names a new cell.
pub struct Begin;

impl<E> Play<Note<E>, u64> for Begin {
    ghost use Rattle.hg_journal.specs.Rules.{Begins};

    ghost then = { Begins };
}

/// A step that makes a new cell.
pub struct Grow;

impl<E> Play<Note<E>, u64> for Grow {
    ghost use Rattle.hg_journal.specs.Rules.{Grows};

    ghost then = { Grows };
}

/// A step that adds an entry, and brings the cell home that the last note names.
pub struct Add;

impl<E> Play<Note<E>, u64> for Add {
    ghost use Rattle.hg_journal.specs.Rules.{Adds};

    ghost then = { Adds };
}

/// What is to be noted: an entry, and the pen of the cell that is away afterwards.
pub struct Draft<E> {
    pub entry: E,
    pub next: Pen,
}

impl<E> Plain<Draft<E>, Note<E>, u64> for Add {
    ghost use Rattle.std.specs.Prelude.{None, Some};

    ghost ask = { λ draft. (Some draft.entry, draft.next.nib.key) };

    ghost state = { λ draft. None };
}

/// A step that notes nothing of its own.
impl<E> Plain<u64, Note<E>, u64> for Grow {
    ghost use Rattle.std.specs.Prelude.{None};

    ghost ask = { λ n. (None, n) };

    ghost state = { λ n. None };
}
