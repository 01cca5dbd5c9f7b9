//! What the second thread of a node takes in.
ghost use Rattle.std.specs.Prelude.{OnOk};
ghost use Rattle.hg_race.specs.Turns.{IsHanded, IsTurn, AreTurns};

use crate::racer::{Lane, Open};
use crate::station::Mailbox;
use hg_join::NoMemory;
use hg_live::{CallRefusal, NodeName, Pass};
use std::sync::Wait;

/// That a node took in what lay in its mailbox, as often as there are rounds: [`take_rounds`] alone gives it.
#[derive(Clone, Copy)]
pub(crate) struct Taken(());

/// Takes in what lies in the node's mailbox, as often as there are rounds.
pub(crate) fn take_rounds<K: NodeName, R: Wait, M: Mailbox>(
    rt: &R,
    lane: &Lane,
    node: &Open<K, &R>,
    pass: &mut Pass<K>,
    own: &mut M,
) -> Result<Taken, NoMemory>
    ensures { OnOk result
        (AreTurns M.taken M.FindsNone K.opening lane.now.rounds own.old pass.old own.new pass.new) }
{
    for _round in 0..lane.rounds {
        take_all(rt, node, pass, own)?;
    }
    Ok(Taken(()))
}

// Takes messages until there is none.
fn take_all<K: NodeName, R: Wait, M: Mailbox>(
    rt: &R,
    node: &Open<K, &R>,
    pass: &mut Pass<K>,
    own: &mut M,
) -> Result<(), NoMemory>
    ensures { OnOk result (IsTurn M.taken M.FindsNone K.opening own.old pass.old own.new pass.new) }
{
    for _ in rt.forever() {
        match own.take(rt) {
            Some(message) => take_one(rt, node, pass, &message)?,
            None => return Ok(()),
        }
    }
    unreachable!()
}

// Hands a message to the node. What it refuses is dropped.
fn take_one<K: NodeName, R: Wait>(
    rt: &R,
    node: &Open<K, &R>,
    pass: &mut Pass<K>,
    message: &[u8],
) -> Result<(), NoMemory>
    ensures { OnOk result (IsHanded K.opening message.now pass.old pass.new) }
{
    match node.take(rt, pass, message) {
        Err(CallRefusal::NoMemory) => Err(NoMemory),
        _ => Ok(()),
    }
}
