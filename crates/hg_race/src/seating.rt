//! Makes the two stations of a new inbox, which has room for four messages.
ghost use Rattle.std.specs.Prelude.{◌≡◌, ◌+◌, ◌≤◌, [], IfOk};
ghost use Rattle.hg_inbox.specs.Views.{inbox_state, seat_log};
ghost use Rattle.hg_race.specs.Stations.{given_at, taken_at};

use crate::station::Station;
use hg_inbox::{Inbox, InboxRefusal, Seat};
use hg_join::NoMemory;
use std::alloc::Global;
use std::sync::Arc;

/// How many messages an inbox holds at most.
const CAPACITY: usize = 4;

/// Two stations at a new inbox: the first one for who puts messages, the second one for who takes them.
pub(crate) fn stations(alloc: Global) -> Result<(Station, Station), NoMemory>
    ensures given { IfOk result (λ both. (given_at both.0 ≡ []) × (given_at both.1 ≡ [])) }
    ensures taken { IfOk result (λ both. (taken_at both.0 ≡ []) × (taken_at both.1 ≡ [])) }
{
    let (inbox, puts, takes) = seated(alloc)?;
    let inbox = Arc::new(alloc, inbox)?;
    let other = Arc::try_clone(&inbox)?;
    Ok((Station::new(inbox, puts), Station::new(other, takes)))
}

// An inbox with two seats. It holds messages, and a new one has seats left.
fn seated(alloc: Global) -> Result<(Inbox, Seat, Seat), NoMemory>
    ensures { IfOk result (λ r. (r.1 ≡ seat_log r.0.name [] []) × (r.2 ≡ seat_log r.0.name [] [])) }
{
    let mut inbox = match Inbox::new(alloc, CAPACITY) {
        Ok(inbox) => inbox,
        Err(InboxRefusal::NoMemory) => return Err(NoMemory),
        Err(_) => unreachable!(),
    };
    let puts = seat(&mut inbox);
    let takes = seat(&mut inbox);
    Ok((inbox, puts, takes))
}

// A seat at an inbox that has given two at most.
fn seat(inbox: &mut Inbox) -> Seat
    requires { inbox.old.seats ≤ 2 }
    ensures seat { result ≡ seat_log inbox.old.name [] [] }
    ensures inbox { inbox.new ≡ inbox_state inbox.old.name inbox.old.capacity (inbox.old.seats + 1) }
{
    match inbox.seat() {
        Ok(seat) => seat,
        Err(_) => unreachable!(),
    }
}
