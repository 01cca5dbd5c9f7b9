//! A race from its first round to its last line.
ghost use Rattle.std.specs.Prelude.{◌≡◌, ◌≤◌, ◌⊎◌, ℕ, IfErr, IfOk, OnOk, vec_len};
ghost use Rattle.std.specs.Io.KnownBytes.{Appends};
ghost use Rattle.hg_race.specs.Limits.{least_nodes, most_nodes, most_rounds};
ghost use Rattle.hg_race.specs.Lines.{race_lines};
ghost use Rattle.hg_race.specs.Pairs.{IsOfPairs};

use crate::agreement::share_in_ring;
use crate::racer::{Counts, Lane, Outcome, Racer, race_one};
use crate::result::{RaceResult, print_result};
use crate::seating::stations;
use hg_fleet::Fleet;
use hg_join::NoMemory;
use hg_line::RunFault;
use hg_peer::Peer;
use hg_replica::IdKeys;
use hg_view::Kept;
use std::alloc::Global;
use std::io::Write;
use std::random::RandomSource;
use std::sync::Wait;
use std::thread;
use std::thread::Threads;

/// Lets so many nodes race for so many rounds, and prints what came of it, one write for each line: how many nodes and
/// rounds there were, the operations after which a node published them, the changesets that were read back and found,
/// and how many pairs of nodes agree in the end. It waits for its threads.
///
/// The nodes hash ids by one secret. A node that gives its threads no passes writes nothing, and like one that isn't
/// closed it agrees with none; neither comes of want of memory.
///
/// Refuses [`RunFault::Read`] where the system draws no secret and [`RunFault::NoMemory`], which print nothing, and
/// [`RunFault::Write`] where a line can't be written.
pub fn run_race<R: RandomSource + Threads + Wait + Sync, W: Write>(
    rt: &R,
    alloc: Global,
    nodes: u8,
    rounds: u16,
    writer: &mut W,
) -> Result<(), RunFault>
    requires nodes { (least_nodes ≤ nodes) × (nodes ≤ most_nodes) }
    requires rounds { (1 ≤ rounds) × (rounds ≤ most_rounds) }
    ensures printed { OnOk result ((written : ℕ) × (read_back : ℕ) × (agreeing : ℕ) × IsOfPairs nodes agreeing
        × Appends (W.contents writer.old) (W.contents writer.new)
        (race_lines nodes rounds written read_back agreeing)) }
    ensures err { IfErr result
        (λ fault. (fault ≡ RunFault.Read) ⊎ (fault ≡ RunFault.Write) ⊎ (fault ≡ RunFault.NoMemory)) }
    ensures unprinted { IfErr result
        (λ fault. (fault ≡ RunFault.Write) ⊎ (W.contents writer.new ≡ W.contents writer.old)) }
{
    let keys = match IdKeys::secret(rt) {
        Ok(keys) => keys,
        Err(_) => return Err(RunFault::Read),
    };
    let outcomes = race_all(rt, ring(alloc, keys, nodes, rounds)?)?;
    let counts = all_counts(&outcomes);
    let race = RaceResult {
        nodes: u64::from(nodes),
        rounds: u64::from(rounds),
        written: counts.written,
        read_back: counts.read_back,
        agreeing: count_agreeing(alloc, outcomes)?,
    };
    print_result(alloc, writer, &race)?;
    Ok(())
}

// Lets all nodes race, and tells what is left of each, in their order.
fn race_all<R: Threads + Wait + Sync>(rt: &R, racers: Vec<Racer>) -> Result<Vec<Outcome>, NoMemory>
    ensures { IfOk result (λ outcomes. vec_len outcomes ≡ vec_len racers) }
{
    let alloc = *racers.allocator();
    let results = thread::map_vec(rt, racers, &|racer| race_one(rt, racer))?;
    let mut outcomes = Vec::with_capacity(alloc, results.len())?;
    for result in results {
        outcomes.push(result?)?;
    }
    Ok(outcomes)
}

// The nodes in a ring: each puts messages into the inbox of the next one, and the last one into that of the first.
fn ring(alloc: Global, keys: IdKeys, nodes: u8, rounds: u16) -> Result<Vec<Racer>, NoMemory>
    requires { 1 ≤ nodes }
    ensures { IfOk result (λ racers. vec_len racers ≡ nodes) }
{
    let (first, mut own) = stations(alloc)?;
    let mut racers = Vec::new(alloc);
    for number in 0..nodes - 1 {
        let (next, takes) = stations(alloc)?;
        let lane = Lane {
            alloc,
            keys,
            number,
            rounds,
        };
        racers.push(Racer { lane, own, next })?;
        own = takes;
    }
    let lane = Lane {
        alloc,
        keys,
        number: nodes - 1,
        rounds,
    };
    racers.push(Racer {
        lane,
        own,
        next: first,
    })?;
    Ok(racers)
}

// What the rounds of all nodes came to.
fn all_counts(outcomes: &[Outcome]) -> Counts {
    let mut all = Counts::NONE;
    for outcome in outcomes {
        all = all.and(outcome.counts);
    }
    all
}

// Lets the replicas that are left take from each other, twice round the ring, and counts the pairs that agree.
fn count_agreeing(alloc: Global, outcomes: Vec<Outcome>) -> Result<u64, NoMemory>
    requires { vec_len outcomes ≤ most_nodes }
    ensures { IfOk result (IsOfPairs (vec_len outcomes)) }
{
    let mut fleet = Fleet::of(alloc, peers_left(alloc, outcomes)?);
    let count = share_in_ring(&mut fleet)?;
    Ok(count)
}

// A peer for each replica that is left.
fn peers_left(alloc: Global, outcomes: Vec<Outcome>) -> Result<Vec<Peer>, NoMemory>
    ensures { IfOk result (λ peers. vec_len peers ≤ vec_len outcomes) }
{
    let mut peers = Vec::new(alloc);
    for outcome in outcomes {
        match outcome.replica {
            Some(replica) => peers.push(Peer::new(Kept::new(alloc, replica)?))?,
            None => {}
        }
    }
    Ok(peers)
}
