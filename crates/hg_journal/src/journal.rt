//! The journal, which one alone can add to.
ghost use Rattle.std.specs.Prelude.{◌≡◌, ◌<◌, ◌++◌, ◌∷◌, [], length};
ghost use mathlib.Core.List.{IsPrefix};
ghost use Rattle.logbook.specs.Pages.{Named, may_write};
ghost use Rattle.hg_journal.specs.Limits.{entry_limit};
ghost use Rattle.hg_journal.specs.Rules.{head_of};

use crate::front::Front;
use crate::name::JournalName;
use crate::rule::{Add, Begin, Counted, Draft, Grow, Note, Nothing};
use logbook::{Offer, Pen, Seen, Start, Word};
use std::marker::{Model, PhantomData};

/// A journal with no entry, which has no name yet. Contracts see its book.
#[derive(Drop)]
pub struct Opened<E> {
    head: Word<Note<E>, u64, Counted>,
    seen: Seen<Note<E>, u64, Counted>,
    pen: Pen,
}

impl<E> Model for Opened<E> {
    ghost use Rattle.std.specs.Prelude.{◌≡◌, [], ◌∷◌, None};
    ghost use Rattle.logbook.specs.Pages.{Book, book_coded, may_write};
    ghost use Rattle.hg_journal.specs.Rules.{head_of};

    ghost Value = { Book };

    ghost coded = { book_coded };

    ghost view = { λ o. o.seen.book };

    ghost invariant = { λ o. (o.head ≡ head_of o.seen.book) × (o.pen.book ≡ o.seen.book) × (o.pen.nib.right ≡ may_write)
        × (o.seen.log ≡ (None, o.pen.nib.key) ∷ []) };
}

/// A journal. Whoever has it is the only one who can add to it. Contracts see it as its entries.
#[derive(Drop)]
pub struct Journal<K: JournalName, E> {
    head: Word<Note<E>, u64, Counted>,
    seen: Seen<Note<E>, u64, Counted>,
    pen: Pen,
    count: u64,
    of: PhantomData<K>,
}

impl<K: JournalName, E> Model for Journal<K, E> {
    ghost use Rattle.std.specs.Prelude.{◌≡◌, ◌+◌, List, length};
    ghost use Rattle.logbook.specs.Pages.{may_write};
    ghost use Rattle.hg_journal.specs.Rules.{entries, head_of, EndsWith};

    ghost Value = { List E };

    ghost view = { λ h. entries h.seen.log };

    ghost invariant = { λ h. (h.head ≡ head_of K.book) × (h.seen.book ≡ K.book) × (h.pen.book ≡ K.book)
        × (h.pen.nib.right ≡ may_write) × EndsWith h.seen.log h.pen.nib.key × (length h.seen.log ≡ h.count + 1)
        × (length (entries h.seen.log) ≡ h.count) };
}

impl<E> Opened<E> {
    /// A journal with no entry. There is none only if somebody else could reach what is made here, which nobody can.
    pub fn new() -> Option<Opened<E>> {
        let (mut seen, mut first, _second) = Seen::open(Start::alone(), 0, 0);
        let head = Word::tracked(0, &mut first);
        let mut pen = seen.no_pen();
        let mut nothing: Offer<Note<E>, u64, Counted, Nothing> = seen.plain::<Nothing, u64, Grow>(
            &0,
        );
        let found = head.compare_exchange::<Begin, Nothing>(
            0,
            1,
            &mut seen,
            &mut nothing,
            &mut pen,
        );
        if found != 0 {
            return None;
        }
        let _cell = Word::<Note<E>, u64, Counted>::tracked(0, &mut pen);
        Some(Opened { head, seen, pen })
    }

    /// The journal under a name, with no entry.
    pub fn named<K: JournalName>(self) -> Journal<K, E>
        requires { self ≡ K.book }
        ensures { result ≡ [] }
    {
        let Opened { head, seen, pen } = self;
        Journal {
            head,
            seen,
            pen,
            count: 0,
            of: PhantomData,
        }
    }
}

impl<K: JournalName, E> Journal<K, E> {
    /// All of it, as a beginning.
    pub fn front(&self) -> Front<K, E>
        ensures { result ≡ self.now }
    {
        Front {
            count: self.count,
            seen: self.seen.again(),
            of: PhantomData,
        }
    }

    /// How many entries it has.
    pub fn len(&self) -> u64
        ensures { result ≡ length self.now }
    {
        self.count
    }

    /// Adds an entry, and gives it back. What was seen of the journal begins it as it was before.
    pub fn extend(&mut self, one: &Front<K, E>, other: &Front<K, E>, entry: E) -> E
        requires room { length self.old < entry_limit }
        ensures new { self.new ≡ self.old ++ entry ∷ [] }
        ensures one { IsPrefix one.now self.old }
        ensures other { IsPrefix other.now self.old }
        ensures same { result ≡ entry }
    {
        let mut seen = self.seen.again();
        seen.learn(&one.seen);
        seen.learn(&other.seen);
        let next = grow(&self.head, &mut seen);
        let draft = Draft { entry, next };
        let mut offer: Offer<Note<E>, u64, Counted, Nothing> = seen.plain::<Nothing, Draft<E>, Add>(
            &draft,
        );
        let notes = self.count + 1;
        let _found = self
            .head
            .compare_exchange::<Add, Nothing>(
                notes,
                notes + 1,
                &mut seen,
                &mut offer,
                &mut self.pen,
            );
        let Draft { entry, next } = draft;
        self.seen = seen;
        self.pen = next;
        self.count += 1;
        entry
    }
}

// A pen of a new cell, whose word is made, but isn't at home.
fn grow<E>(head: &Word<Note<E>, u64, Counted>, seen: &mut Seen<Note<E>, u64, Counted>) -> Pen
    requires head { head.now ≡ head_of seen.old.book }
    ensures seen { (seen.new.book ≡ seen.old.book) × IsPrefix seen.old.log seen.new.log }
    ensures pen { (result.book ≡ seen.old.book) × (result.nib.right ≡ may_write) }
{
    let mut pen = seen.no_pen();
    let mut nothing: Offer<Note<E>, u64, Counted, Nothing> = seen.plain::<Nothing, u64, Grow>(&0);
    let _found = head.compare_exchange::<Grow, Nothing>(0, 0, seen, &mut nothing, &mut pen);
    let _cell = Word::<Note<E>, u64, Counted>::tracked(0, &mut pen);
    pen
}
