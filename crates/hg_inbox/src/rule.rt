//! The rule of an inbox: what its queue holds, and what each seat knows.
use crossbeam_queue::protocol::{Join, Lesson, Outcome, Protocol, Split};
use std::collections::LinkedList;
use std::marker::Model;

/// A message. Contracts see its bytes.
#[derive(Drop)]
pub struct Message {
    pub bytes: Vec<u8>,
}

impl Model for Message {
    ghost use Rattle.std.specs.Prelude.{List, ℕ};

    ghost Value = { List ℕ };

    ghost view = { λ m. m.bytes.items };
}

/// A message under its number. No value of it is made.
pub struct Numbered {
    pub number: u64,
    pub message: LinkedList<u8>,
}

/// What a pass has put and taken, and its parts of the right to know the whole. No value of it is made.
pub struct Log {
    pub parts: u64,
    pub puts: LinkedList<Numbered>,
    pub takes: LinkedList<Numbered>,
}

/// The rule: each number is put once and taken once at most, and what was put is what was taken and then what the queue
/// holds, in order.
pub struct InOrder;

impl Protocol<Message, Log> for InOrder {
    ghost use Rattle.std.specs.Prelude.{[]};
    ghost use Rattle.hg_inbox.specs.Limits.{all_parts};
    ghost use Rattle.hg_inbox.specs.Rule.{log, Ordered};

    ghost holds = { Ordered };

    ghost first = { log all_parts [] [] };
}

/// Seats are made and given back.
pub struct Seats;

/// A seat is made: one part, with nothing put and nothing taken.
impl Split<Log> for Seats {
    ghost use Rattle.std.specs.Prelude.{[], ◌-◌};
    ghost use Rattle.hg_inbox.specs.Rule.{log};

    ghost left = { λ v. log (v.parts - 1) v.puts v.takes };

    ghost right = { λ v. log 1 [] [] };
}

/// A seat is given back.
impl Join<Log> for Seats {
    ghost use Rattle.std.specs.Prelude.{[], ◌+◌, ◌++◌};
    ghost use Rattle.hg_inbox.specs.Rule.{log};

    ghost both = { λ v w. log (v.parts + w.parts) (v.puts ++ w.puts) (v.takes ++ w.takes) };

    ghost spent = { log 0 [] [] };
}

/// A put, under a number above those of the pass's other puts.
pub struct Puts;

impl Outcome<Message, Log> for Puts {
    ghost use Rattle.hg_inbox.specs.Rule.{Put};

    ghost then = { Put };
}

impl Lesson<Message, Log> for Puts {
    ghost use Rattle.hg_inbox.specs.Rule.{Agrees};

    ghost fact = { λ v. Agrees v.puts v.takes };
}

/// A take, under a number above those of the pass's other takes.
pub struct Takes;

impl Outcome<Message, Log> for Takes {
    ghost use Rattle.hg_inbox.specs.Rule.{Taken};

    ghost then = { Taken };
}

impl Lesson<Message, Log> for Takes {
    ghost use Rattle.hg_inbox.specs.Rule.{Agrees};

    ghost fact = { λ v. Agrees v.puts v.takes };
}

/// The last takes, by the pass that has every part.
pub struct Empties;

impl Outcome<Message, Log> for Empties {
    ghost use Rattle.std.specs.Prelude.{◌≡◌, ◌++◌, ◌∷◌, [], length};
    ghost use Rattle.hg_inbox.specs.Rule.{log, numbered};

    ghost then = { λ v m w. w ≡ log v.parts v.puts (v.takes ++ numbered (length v.takes) m ∷ []) };
}

impl Lesson<Message, Log> for Empties {
    ghost use Rattle.hg_inbox.specs.Rule.{IsWhole};

    ghost fact = { IsWhole };
}

/// No pass has more parts than there are.
pub struct Parts;

impl Lesson<Message, Log> for Parts {
    ghost use Rattle.std.specs.Prelude.{◌≤◌};
    ghost use Rattle.hg_inbox.specs.Limits.{all_parts};

    ghost fact = { λ v items. v.parts ≤ all_parts };
}
