//! A place at an inbox.
ghost use Rattle.std.specs.Prelude.{◌≡◌, ◌∷◌, ◌++◌, ℕ, List, [], MatchOption, MatchResult};
ghost use Rattle.std.specs.Arc.{arc_value};

use hg_inbox::{Full, Inbox, Seat};
use std::alloc::Global;
use std::sync::{Arc, Wait};

/// Where a thread puts messages, or takes them. Contracts see those that it was given and those that were taken from
/// it, in their order.
pub(crate) trait Mailbox {
    /// The messages that were put.
    ghost given: { Self → List (List ℕ) };

    /// The messages that were taken.
    ghost taken: { Self → List (List ℕ) };

    /// A put found no room, and left the second of the first.
    ghost FindsNoRoom: { Self → Self → Type 0 };

    /// A take found no message, and left the second of the first.
    ghost FindsNone: { Self → Self → Type 0 };

    /// Puts a message. It comes back where there is no room.
    fn put<R: Wait>(&mut self, rt: &R, message: Vec<u8>) -> Result<(), Full>
        ensures given { MatchResult result (λ _. given self.new ≡ given self.old ++ message.items ∷ [])
            (λ full. (full.message.items ≡ message.items) × FindsNoRoom self.old self.new) }
        ensures taken { taken self.new ≡ taken self.old };

    /// Takes a message, if there is one.
    fn take<R: Wait>(&mut self, rt: &R) -> Option<Vec<u8>>
        ensures given { given self.new ≡ given self.old }
        ensures taken { MatchOption result (FindsNone self.old self.new)
            (λ message. taken self.new ≡ taken self.old ++ message.items ∷ []) };
}

/// An inbox, and a seat at it.
#[derive(Drop)]
pub(crate) struct Station {
    inbox: Arc<Inbox, Global>,
    seat: Seat,
    ghost of: { seat.inbox ≡ (arc_value inbox).name },
}

impl Station {
    /// A seat with the inbox that it is of.
    pub(crate) fn new(inbox: Arc<Inbox, Global>, seat: Seat) -> Station
        requires { seat.inbox ≡ (arc_value inbox).name }
        ensures { result.seat ≡ seat }
    {
        Station { inbox, seat }
    }
}

/// It finds no room only where the inbox held as many messages as it may at one moment of the call, and no message only
/// where the inbox was empty at one moment of the call.
impl Mailbox for Station {
    ghost use Rattle.std.specs.Prelude.{◌≡◌};
    ghost use Rattle.std.specs.Arc.{arc_value};
    ghost use Rattle.crossbeam_queue.specs.Fifo.{Held};
    ghost use Rattle.hg_inbox.specs.Rule.{Agrees};
    ghost use Rattle.hg_race.specs.Stations.{given_at, taken_at};

    ghost given = { given_at };

    ghost taken = { taken_at };

    ghost FindsNoRoom = { λ s t. (t.seat ≡ s.seat)
        × Held (arc_value s.inbox).capacity (Agrees s.seat.puts s.seat.takes) };

    ghost FindsNone = { λ s t. (t.seat ≡ s.seat) × Held 0 (Agrees s.seat.puts s.seat.takes) };

    fn put<R: Wait>(&mut self, rt: &R, message: Vec<u8>) -> Result<(), Full> {
        let Station { inbox, seat } = self;
        inbox.put(rt, seat, message)
    }

    fn take<R: Wait>(&mut self, rt: &R) -> Option<Vec<u8>> {
        let Station { inbox, seat } = self;
        inbox.take(rt, seat)
    }
}
