//! A bounded inbox that threads share, and the seats of its callers.
ghost use Rattle.std.specs.Prelude.{◌≡◌, ◌↔◌, ℕ, ◌+◌, ◌-◌, ◌<◌, ◌≤◌, ◌⊎◌, List, [], ◌∷◌, ◌++◌, All, IfOk, OnOk};
ghost use Rattle.std.specs.Prelude.{IfErr, IfSome, IsErrOf, IsNone, MatchResult, MatchOption, length, map};
ghost use Rattle.crossbeam_queue.specs.Fifo.{Held};
ghost use Rattle.crossbeam_queue.specs.Passes.{view, IsPassOf, IsSamePass};
ghost use Rattle.hg_inbox.specs.Limits.{all_parts, seat_limit};
ghost use Rattle.hg_inbox.specs.Rule.{log, Agrees};
ghost use Rattle.hg_inbox.specs.Views.{seat_log, inbox_state, AddsPut, AddsTake, IsRest, EachAscends, all_puts};
ghost use Rattle.hg_inbox.specs.Views.{all_takes};
ghost use Rattle.hg_inbox.specs.declared.refusal.InboxRefusal.TheVariants.{ZeroCapacity, SeatsOut, NoSeat, NoMemory};

use crate::refusal::{Full, InboxRefusal};
use crate::rule::Message;
use crate::steps::{self, Known, Queue};
use std::alloc::Global;
use std::marker::Model;
use std::sync::Wait;

/// The most seats that one inbox gives.
pub const SEAT_LIMIT: u64 = 1 << 62;

/// A caller's seat at an inbox, by which it puts and takes. Contracts see which inbox it is of, and what was put and
/// taken by it, each message under its number.
#[derive(Drop)]
pub struct Seat {
    pass: Known,
}

impl Model for Seat {
    ghost use Rattle.hg_inbox.specs.Views.{SeatLog};

    ghost Value = { SeatLog };

    ghost use Rattle.std.specs.Prelude.{◌≡◌, []};
    ghost use Rattle.crossbeam_queue.specs.Passes.{view as known};
    ghost use Rattle.hg_inbox.specs.Rule.{Ascends};
    ghost use Rattle.hg_inbox.specs.Views.{seat_log};

    ghost view = { λ s. seat_log s.pass.table_id (known s.pass).puts (known s.pass).takes };

    ghost invariant = { λ s. (s.pass.me.1 ≡ []) × ((known s.pass).parts ≡ 1) × Ascends (known s.pass).puts
        × Ascends (known s.pass).takes };
}

/// A bounded queue of messages that threads share. Contracts see its name, which only its own seats have, how many
/// messages it may hold, and how many seats were made.
///
/// `origin` holds what no seat knows: all parts of the right to see the whole that no seat was given.
#[derive(Drop)]
pub struct Inbox {
    queue: Queue,
    origin: Known,
    seats: u64,
    alloc: Global,
}

impl Model for Inbox {
    ghost use Rattle.hg_inbox.specs.Views.{InboxState};

    ghost Value = { InboxState };

    ghost use Rattle.std.specs.Prelude.{◌≡◌, ◌-◌, ◌≤◌, []};
    ghost use Rattle.hg_inbox.specs.Limits.{all_parts, seat_limit};
    ghost use Rattle.crossbeam_queue.specs.Passes.{view as known, IsPassOf, ruled_capacity};
    ghost use Rattle.hg_inbox.specs.Rule.{log};
    ghost use Rattle.hg_inbox.specs.Views.{inbox_state};

    ghost view = { λ i. inbox_state i.queue.table.shared.table_id (ruled_capacity i.queue) i.seats };

    ghost invariant = { λ i. IsPassOf i.queue i.origin × (known i.origin ≡ log (all_parts - i.seats) [] [])
        × (i.seats ≤ seat_limit) };
}

/// The inbox was not closed. It comes back as it was, with the seats.
#[derive(Drop)]
pub struct Unclosed {
    /// [`InboxRefusal::SeatsOut`] or [`InboxRefusal::NoMemory`].
    pub refusal: InboxRefusal,
    /// The inbox, which holds what it held.
    pub inbox: Inbox,
    /// The seats, in their order.
    pub seats: Vec<Seat>,
}

impl Inbox {
    /// An inbox for so many messages, with no seats yet. It takes the room for all of them here, so that no put and no
    /// take wants memory.
    ///
    /// Refuses [`InboxRefusal::ZeroCapacity`] where it may hold no message.
    pub fn new(alloc: Global, capacity: usize) -> Result<Inbox, InboxRefusal>
        ensures made { IfOk result (λ inbox. (inbox.capacity ≡ capacity) × (inbox.seats ≡ 0)) }
        ensures zero { IsErrOf result ZeroCapacity ↔ (capacity ≡ 0) }
        ensures refused { IfErr result (λ e. (e ≡ ZeroCapacity) ⊎ (e ≡ NoMemory)) }
    {
        if capacity == 0 {
            return Err(InboxRefusal::ZeroCapacity);
        }
        let Ok((queue, origin)) = Queue::ruled(alloc, capacity) else {
            return Err(InboxRefusal::NoMemory);
        };
        Ok(Inbox {
            queue,
            origin,
            seats: 0,
            alloc,
        })
    }

    /// A seat for one caller, made before the inbox is shared.
    ///
    /// Refuses [`InboxRefusal::NoSeat`] where [`SEAT_LIMIT`] seats were made.
    pub fn seat(&mut self) -> Result<Seat, InboxRefusal>
        ensures made { IfOk result
            (λ seat. (seat ≡ seat_log self.old.name [] [])
            × (self.new ≡ inbox_state self.old.name self.old.capacity (self.old.seats + 1))) }
        ensures refused { IfErr result (λ e. (e ≡ NoSeat) × (self.new ≡ self.old)) }
        ensures none_left { IsErrOf result NoSeat ↔ (self.old.seats ≡ seat_limit) }
    {
        if self.seats >= SEAT_LIMIT {
            return Err(InboxRefusal::NoSeat);
        }
        let pass = steps::cut(&self.queue, &mut self.origin);
        self.seats += 1;
        Ok(Seat { pass })
    }

    /// Puts a message behind all others, by a seat of this inbox. It takes no memory.
    ///
    /// Refuses [`Full`], with the message, only where the inbox held as many messages as it may at one moment of the
    /// call.
    pub fn put<R: Wait>(&self, rt: &R, seat: &mut Seat, message: Vec<u8>) -> Result<(), Full>
        requires { seat.old.inbox ≡ self.now.name }
        ensures of { seat.new.inbox ≡ seat.old.inbox }
        ensures put { MatchResult result (λ _. AddsPut seat.old message.items seat.new)
            (λ full. (full.message.items ≡ message.items) × (seat.new ≡ seat.old)
            × Held self.now.capacity (Agrees seat.old.puts seat.old.takes)) }
    {
        match steps::put(rt, &self.queue, &mut seat.pass, Message { bytes: message }) {
            Ok(()) => Ok(()),
            Err(back) => Err(Full {
                message: back.bytes,
            }),
        }
    }

    /// Takes the message that was put before all others that are left, by a seat of this inbox. It takes no memory.
    ///
    /// There is none only where the inbox was empty at one moment of the call.
    pub fn take<R: Wait>(&self, rt: &R, seat: &mut Seat) -> Option<Vec<u8>>
        requires { seat.old.inbox ≡ self.now.name }
        ensures of { seat.new.inbox ≡ seat.old.inbox }
        ensures take { MatchOption result ((seat.new ≡ seat.old) × Held 0 (Agrees seat.old.puts seat.old.takes))
            (λ message. AddsTake seat.old message.items seat.new) }
    {
        match steps::take(rt, &self.queue, &mut seat.pass) {
            Some(message) => Some(message.bytes),
            None => None,
        }
    }

    /// Closes the inbox, by all the seats that were made, and gives the messages that are left, front first.
    ///
    /// Refuses [`InboxRefusal::SeatsOut`] where fewer seats came, and hands the inbox and the seats back, as it does
    /// for want of memory.
    pub fn close<R: Wait>(self, rt: &R, seats: Vec<Seat>) -> Result<Vec<Vec<u8>>, Unclosed>
        requires { All (λ seat. seat.inbox ≡ self.name) seats.items }
        ensures rest { IfOk result (λ rest. IsRest seats.items (map (λ m. m.items) rest.items)) }
        ensures bounded { IfOk result (λ rest. length rest.items ≤ self.capacity) }
        ensures numbers { OnOk result (EachAscends seats.items) }
        ensures all { OnOk result (length seats.items ≡ self.seats) }
        ensures back { IfErr result (λ e. (e.inbox ≡ self) × (e.seats.items ≡ seats.items)) }
        ensures refused { IfErr result (λ e. (e.refusal ≡ SeatsOut) ⊎ (e.refusal ≡ NoMemory)) }
        ensures seats_out { IfErr result (λ e. (e.refusal ≡ SeatsOut) ↔ (length seats.items < self.seats)) }
    {
        if (seats.len() as u64) < self.seats {
            return Err(Unclosed {
                refusal: InboxRefusal::SeatsOut,
                inbox: self,
                seats,
            });
        }
        let Ok(rest) = Vec::with_capacity(self.alloc, self.queue.capacity()) else {
            return Err(Unclosed {
                refusal: InboxRefusal::NoMemory,
                inbox: self,
                seats,
            });
        };
        let Inbox {
            queue,
            mut origin,
            seats: _,
            alloc: _,
        } = self;
        gather(&queue, &mut origin, seats);
        Ok(steps::take_rest(rt, &queue, &mut origin, rest))
    }
}

/// Gives all the seats back, so that `origin` knows what they put and took.
fn gather(queue: &Queue, origin: &mut Known, seats: Vec<Seat>)
    requires { IsPassOf queue.now origin.old × All (λ seat. seat.inbox ≡ queue.now.table.shared.table_id) seats.items }
    ensures same { IsSamePass origin.old origin.new }
    ensures all { view origin.new ≡ log ((view origin.old).parts + length seats.items)
        ((view origin.old).puts ++ all_puts seats.items) ((view origin.old).takes ++ all_takes seats.items) }
    ensures numbers { EachAscends seats.items }
    ensures parts { (view origin.new).parts ≤ all_parts }
{
    for seat in seats {
        let Seat { pass } = seat;
        steps::give_back(queue, origin, pass);
    }
    steps::count_parts(queue, origin);
}
