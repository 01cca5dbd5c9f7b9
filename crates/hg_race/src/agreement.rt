//! Peers in a ring that take what others hold, and agree.
ghost use Rattle.std.specs.Prelude.{◌≡◌, ◌↔◌, ◌<◌, ◌+◌, ◌*◌, ◌≤◌, length, IsTrue, IfOk, OnOk};
ghost use Rattle.hg_replica.specs.Content.{content_of, ContentBelow};
ghost use Rattle.hg_fleet.specs.Pulls.{answers_of};
ghost use Rattle.hg_race.specs.Limits.{most_nodes};
ghost use Rattle.hg_race.specs.Pairs.{Agree, AgreeWith, PairsAgree};
ghost use Rattle.hg_race.specs.Ring.{EndsRound, GoesRound, GoesRoundTwice, IsOfMemory, NoneIsOfMemory, RunsOn};
ghost use Rattle.hg_race.specs.Ring.{Shares};

use hg_fleet::{Fleet, PeerAnswer, Pulled};
use hg_history::Fault;
use hg_join::{JoinState, NoMemory};
use hg_peer::{Peer, PeerRefusal};
use hg_world::{Answer, EventRefusal};

/// Lets the peers of a fleet, as a ring, take from each other, twice round, and tells how many pairs agree then: each
/// holds what the other holds.
///
/// Each time round the second peer takes first, the whole offer of the first one; then each other takes that of the one
/// before; and the first peer takes last, that of the last. What is refused is left out. All of that is a run of the
/// fleet's world, so each offer stays among the messages.
///
/// Refuses [`NoMemory`], and what was taken before stays.
pub fn share_in_ring(fleet: &mut Fleet) -> Result<u64, NoMemory>
    requires { length fleet.old.nodes ≤ most_nodes }
    ensures run { RunsOn fleet.old fleet.new }
    ensures taken { OnOk result (GoesRoundTwice fleet.old.nodes fleet.new.nodes) }
    ensures count { IfOk result (PairsAgree fleet.new.nodes) }
{
    go_round(fleet)?;
    go_round(fleet)?;
    Ok(agreeing(fleet.peers()))
}

// Once round the ring.
fn go_round(fleet: &mut Fleet) -> Result<(), NoMemory>
    ensures run { RunsOn fleet.old fleet.new }
    ensures round { OnOk result (GoesRound fleet.old.nodes fleet.new.nodes) }
{
    if fleet.peers().is_empty() {
        return Ok(());
    }
    end_round(fleet, 1)
}

// Each peer from this place on takes the whole offer of the one before, and then the first one that of the last.
fn end_round(fleet: &mut Fleet, taker: usize) -> Result<(), NoMemory>
    requires some { 1 ≤ taker }
    requires within { taker ≤ length fleet.old.nodes }
    ensures run { RunsOn fleet.old fleet.new }
    ensures round { OnOk result (EndsRound taker fleet.old.nodes fleet.new.nodes) }
{
    if taker == fleet.peers().len() {
        share(fleet, 0, taker - 1)
    } else {
        share(fleet, taker, taker - 1)?;
        end_round(fleet, taker + 1)
    }
}

// The taker takes the whole offer of the giver. What one of them refuses is left out.
fn share(fleet: &mut Fleet, taker: usize, giver: usize) -> Result<(), NoMemory>
    requires taker { taker < length fleet.old.nodes }
    requires giver { giver < length fleet.old.nodes }
    ensures run { RunsOn fleet.old fleet.new }
    ensures shared { OnOk result (Shares taker giver fleet.old.nodes fleet.new.nodes) }
{
    fleet.peers()[taker].replica().is_valid();
    match fleet.share(taker, giver)? {
        Some(shared) => check_shared(&shared),
        None => unreachable!(),
    }
}

// What was refused in a sharing is left out, but for want of memory.
fn check_shared(shared: &Pulled) -> Result<(), NoMemory>
    ensures { OnOk result (NoneIsOfMemory (answers_of shared.now)) }
{
    unless_memory(&shared.offered)?;
    match &shared.taken {
        Some(answer) => unless_memory(answer),
        None => Ok(()),
    }
}

// Any answer but want of memory.
fn unless_memory(answer: &PeerAnswer) -> Result<(), NoMemory>
    ensures { OnOk result (¬ (IsOfMemory answer.now)) }
{
    match answer {
        Answer::Refused(EventRefusal::ByActor(PeerRefusal::NoMemory)) => Err(NoMemory),
        Answer::Refused(EventRefusal::ByState(Fault::NoMemory)) => Err(NoMemory),
        _ => Ok(()),
    }
}

// How many pairs agree.
fn agreeing(peers: &[Peer]) -> u64
    requires { length peers.now ≤ most_nodes }
    ensures count { PairsAgree peers.now result }
    ensures most { result ≤ most_nodes * length peers.now }
{
    match peers.split_first() {
        Some((first, others)) => agreeing_with(first, others) + agreeing(others),
        None => 0,
    }
}

// How many of the others agree with this one.
fn agreeing_with(peer: &Peer, others: &[Peer]) -> u64
    requires { length others.now ≤ most_nodes }
    ensures count { AgreeWith peer.now others.now result }
    ensures most { result ≤ length others.now }
{
    match others.split_first() {
        Some((other, rest)) => u64::from(agree(peer, other)) + agreeing_with(peer, rest),
        None => 0,
    }
}

// Whether each holds what the other holds.
fn agree(one: &Peer, other: &Peer) -> bool
    ensures { IsTrue result ↔ Agree one.now other.now }
{
    is_below(one, other) && is_below(other, one)
}

// Whether the other holds what this one holds.
fn is_below(one: &Peer, other: &Peer) -> bool
    ensures { IsTrue result ↔ ContentBelow (content_of one.now.replica) (content_of other.now.replica) }
{
    match one.below(other) {
        Ok(answer) => answer,
        Err(_) => unreachable!(),
    }
}
