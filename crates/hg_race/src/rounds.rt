//! The rounds of the first thread of a node.
ghost use Rattle.std.specs.Prelude.{OnOk};
ghost use Rattle.hg_race.specs.Rounds.{AreRounds, PutsOffer};

use crate::author::{amend, commit, finds, foretell, offer, write};
use crate::racer::{Counts, Lane, Open};
use crate::station::Mailbox;
use hg_changeset::Node as Id;
use hg_join::NoMemory;
use hg_live::{NodeName, Pass};
use hg_replica::Replica;
use hg_rewrite::Op;
use std::alloc::Global;
use std::sync::Wait;

/// Does all rounds of a node, which are numbered from 1. The thread keeps its own changesets in a replica beside, which
/// tells it their ids.
pub(crate) fn write_rounds<K: NodeName, R: Wait, M: Mailbox>(
    rt: &R,
    lane: &Lane,
    node: &Open<K, &R>,
    pass: &mut Pass<K>,
    next: &mut M,
) -> Result<Counts, NoMemory>
    ensures { OnOk result (AreRounds M.given M.FindsNoRoom K.opening lane.now.rounds next.old next.new) }
{
    let Lane {
        alloc,
        keys,
        number,
        rounds,
    } = *lane;
    let mut own = Replica::with_keys(alloc, keys);
    let mut last = Id::NULL;
    let mut counts = Counts::NONE;
    for done in 0..rounds {
        let round = done + 1;
        let commit = commit(alloc, last, number, round)?;
        let (committed, entered) = enter(rt, alloc, node, pass, &mut own, &commit)?;
        let amend = amend(alloc, committed, number, round)?;
        let (amended, entered_too) = enter(rt, alloc, node, pass, &mut own, &amend)?;
        counts = counts.and(Counts {
            written: u64::from(entered) + u64::from(entered_too),
            read_back: count_found(pass, committed, amended)?,
        });
        put_offer(rt, pass, next)?;
        last = amended;
    }
    Ok(counts)
}

// How many of the two changesets a look finds.
fn count_found<K: NodeName>(
    pass: &mut Pass<K>,
    committed: Id,
    amended: Id,
) -> Result<u64, NoMemory> {
    let first = finds(pass, committed)?;
    let second = finds(pass, amended)?;
    Ok(u64::from(first) + u64::from(second))
}

// Does an operation, and tells the id of what it makes, the null id where it makes nothing, and whether it is
// published.
fn enter<K: NodeName, R: Wait>(
    rt: &R,
    alloc: Global,
    node: &Open<K, &R>,
    pass: &mut Pass<K>,
    own: &mut Replica,
    op: &Op,
) -> Result<(Id, bool), NoMemory> {
    let id = foretell(alloc, own, op)?.unwrap_or(Id::NULL);
    let done = write(rt, node, pass, op)?;
    Ok((id, done))
}

// Puts an offer of what the node serves into the mailbox of the next one. It is dropped where there is no room.
fn put_offer<K: NodeName, R: Wait, M: Mailbox>(
    rt: &R,
    pass: &mut Pass<K>,
    next: &mut M,
) -> Result<(), NoMemory>
    ensures { OnOk result (PutsOffer M.given M.FindsNoRoom K.opening pass.old pass.new next.old next.new) }
{
    match offer(pass)? {
        Some(bytes) => drop(next.put(rt, bytes)),
        None => {}
    }
    Ok(())
}
