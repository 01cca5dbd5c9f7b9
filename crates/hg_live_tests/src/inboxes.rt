//! An inbox in one thread and in two, and each growth refused in turn.
ghost use Rattle.std.specs.Prelude.{◌≡◌};

use hg_inbox::{Full, Inbox, InboxRefusal, Seat};
use std::alloc::Global;
use std::process::Abort;
use std::sync::Wait;
use std::test::*;
use std::thread::{Threads, join};

fn message(rt: &impl Abort, alloc: Global, text: &[u8]) -> Vec<u8> {
    Vec::from_slice(alloc, text).expect(rt, "memory")
}

// Whether the put was refused as full, and handed these bytes back.
fn hands_back(put: Result<(), Full>, text: &[u8]) -> bool {
    match put {
        Ok(()) => false,
        Err(full) => full.message.as_slice() == text,
    }
}

// Whether the take gave these bytes.
fn gives(taken: Option<Vec<u8>>, text: &[u8]) -> bool {
    match taken {
        Some(message) => message.as_slice() == text,
        None => false,
    }
}

// What is left where the inbox is closed with one seat, which is refused, and then with both.
fn left<R: Wait + Abort>(
    rt: &R,
    alloc: Global,
    inbox: Inbox,
    one: Seat,
    other: Seat,
) -> Vec<Vec<u8>>
    requires one { one.inbox ≡ inbox.name }
    requires other { other.inbox ≡ inbox.name }
{
    let seats = vec![in alloc; one].expect(rt, "memory");
    let Err(mut unclosed) = inbox.close(rt, seats) else {
        assert!(rt; false, "a seat is out");
        return Vec::new(alloc);
    };
    assert!(rt; unclosed.refusal == InboxRefusal::SeatsOut);
    unclosed.seats.push(other).expect(rt, "memory");
    let Ok(rest) = unclosed.inbox.close(rt, unclosed.seats) else {
        assert!(rt; false, "all seats are back");
        return Vec::new(alloc);
    };
    rest
}

#[test]
fn messages_come_out_in_order_at_any_seat_and_the_last_at_the_close(rt: HostRuntime) {
    let alloc = rt.alloc();
    let mut inbox = Inbox::new(alloc, 2).expect(&rt, "an inbox");
    let mut s = inbox.seat().expect(&rt, "a seat");
    let mut t = inbox.seat().expect(&rt, "a seat");

    assert!(rt; inbox.put(&rt, &mut s, message(&rt, alloc, b"x")).is_ok());
    assert!(rt; inbox.put(&rt, &mut s, message(&rt, alloc, b"y")).is_ok());
    assert!(rt; hands_back(inbox.put(&rt, &mut s, message(&rt, alloc, b"z")), b"z"));
    assert!(rt; gives(inbox.take(&rt, &mut t), b"x"));
    assert!(rt; gives(inbox.take(&rt, &mut s), b"y"));
    assert!(rt; inbox.take(&rt, &mut t).is_none());
    assert!(rt; inbox.put(&rt, &mut s, message(&rt, alloc, b"z")).is_ok());

    let rest = left(&rt, alloc, inbox, s, t);
    assert_eq!(rt; rest.len(), 1);
    assert_eq!(rt; rest[0].as_slice(), b"z".as_slice());
}

#[test]
fn an_inbox_for_no_message_is_refused(rt: HostRuntime) {
    match Inbox::new(rt.alloc(), 0) {
        Ok(_) => assert!(rt; false, "it holds nothing"),
        Err(refusal) => assert!(rt; refusal == InboxRefusal::ZeroCapacity),
    }
}

#[test]
fn refused_growth_makes_no_inbox_and_hands_it_back_unclosed(rt: HostRuntime) {
    let alloc = rt.alloc();
    let mut inbox = match Inbox::new(alloc, 2) {
        Ok(inbox) => inbox,
        Err(_) => Inbox::new(alloc, 2).expect(&rt, "there is memory again"),
    };
    let mut seat = inbox.seat().expect(&rt, "a seat wants no memory");
    let Ok(message) = Vec::from_slice(alloc, b"x") else {
        return;
    };
    assert!(rt;
        inbox.put(&rt, &mut seat, message).is_ok(),
        "nor does a put"
    );
    let Ok(seats) = vec![in alloc; seat] else {
        return;
    };
    let Err(unclosed) = inbox.close(&rt, seats) else {
        return;
    };
    assert!(rt; unclosed.refusal == InboxRefusal::NoMemory);
    let closed = unclosed.inbox.close(&rt, unclosed.seats);
    assert!(rt; closed.is_ok(), "there is memory again");
}

// Puts a message, or takes one where the inbox is full. Says how many more it put than it took.
fn put_or_take<R: Wait + Abort>(rt: &R, alloc: Global, inbox: &Inbox, seat: &mut Seat) -> i64
    requires { seat.old.inbox ≡ inbox.now.name }
    ensures { seat.new.inbox ≡ inbox.now.name }
{
    match inbox.put(rt, seat, message(rt, alloc, b"x")) {
        Ok(()) => 1,
        Err(_) => match inbox.take(rt, seat) {
            Some(_) => -1,
            None => 0,
        },
    }
}

// Does so 10,000 times.
fn trade<R: Wait + Abort>(rt: &R, alloc: Global, inbox: &Inbox, mut seat: Seat) -> (Seat, i64)
    requires { seat.inbox ≡ inbox.now.name }
    ensures { result.0.inbox ≡ inbox.now.name }
{
    let mut more = 0i64;
    for _ in 0..10_000u16 {
        more = more.wrapping_add(put_or_take(rt, alloc, inbox, &mut seat));
    }
    (seat, more)
}

// How many more messages two threads put than they took at one inbox, and how many are left.
fn trade_side_by_side<R: Threads + Wait + Abort + Sync>(rt: &R, alloc: Global) -> (i64, usize) {
    let mut inbox = Inbox::new(alloc, 4).expect(rt, "an inbox");
    let one = inbox.seat().expect(rt, "a seat");
    let other = inbox.seat().expect(rt, "a seat");
    let shared = &inbox;
    let ((one, ours), (other, theirs)) = join(
        rt,
        move || -> (Seat, i64)
            requires { one.inbox ≡ shared.now.name }
            ensures { result.0.inbox ≡ shared.entry.now.name }
        { trade(rt, alloc, shared, one) },
        move || -> (Seat, i64)
            requires { other.inbox ≡ shared.now.name }
            ensures { result.0.inbox ≡ shared.entry.now.name }
        { trade(rt, alloc, shared, other) },
    );
    let seats = vec![in alloc; one, other].expect(rt, "memory");
    match inbox.close(rt, seats) {
        Ok(rest) => (ours.wrapping_add(theirs), rest.len()),
        Err(_) => panic!(rt; "all seats are back"),
    }
}

#[test]
fn two_threads_leave_as_many_messages_as_they_put_and_did_not_take(rt: HostRuntime) {
    let (more, left) = trade_side_by_side(&rt, rt.alloc());
    assert!(rt; usize::try_from(more).ok() == Some(left));
}
