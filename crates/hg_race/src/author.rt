//! What the first thread of a node writes.
ghost use Rattle.std.specs.Prelude.{◌≡◌, false, IfOk};
ghost use Rattle.hg_changeset.specs.Node.{null_node};
ghost use Rattle.hg_race.specs.Rounds.{amended_description, description, entry_of_race, IsServedOffer};

use crate::racer::Open;
use hg_changeset::{Entry, Node as Id};
use hg_history::Fault;
use hg_join::{JoinState, NoMemory};
use hg_live::{Accepted, CallRefusal, LookRefusal, Node, NodeName, NotOffered, Pass};
use hg_peer::Scope;
use hg_replica::{Part, Replica};
use hg_rewrite::{Op, Refusal, decide};
use hg_view::Pins;
use std::alloc::{AllocError, Global};
use std::collections::BTreeMap;
use std::sync::Wait;

/// To commit a draft changeset on this parent.
pub(crate) fn commit(alloc: Global, parent: Id, node: u8, round: u16) -> Result<Op, NoMemory>
    ensures { IfOk result
        (λ op. op ≡ Op.Commit parent null_node (entry_of_race (description node round)) false) }
{
    let description = format!(in alloc; "race {node} {round}")?;
    Ok(Op::Commit {
        p: parent,
        q: Id::NULL,
        entry: entry(alloc, description.as_bytes())?,
        secret: false,
    })
}

/// To amend this changeset.
pub(crate) fn amend(alloc: Global, id: Id, node: u8, round: u16) -> Result<Op, NoMemory>
    ensures { IfOk result (λ op. op ≡ Op.Amend id (entry_of_race (amended_description node round))) }
{
    let description = format!(in alloc; "race {node} {round} amended")?;
    Ok(Op::Amend {
        node: id,
        entry: entry(alloc, description.as_bytes())?,
    })
}

// An entry of the user `fleet` at `0 0`.
fn entry(alloc: Global, description: &[u8]) -> Result<Entry, AllocError>
    ensures { IfOk result (λ entry. entry ≡ entry_of_race description.now) }
{
    Ok(Entry {
        user: Vec::from_slice(alloc, b"fleet")?,
        secs: 0,
        offset: 0,
        extra: BTreeMap::new(alloc),
        desc: Vec::from_slice(alloc, description)?,
    })
}

/// The id of what an operation makes at a replica, which takes it in. None is made by what is refused.
pub(crate) fn foretell(
    alloc: Global,
    replica: &mut Replica,
    op: &Op,
) -> Result<Option<Id>, NoMemory> {
    match decide(alloc, replica, &Pins::new(alloc), op) {
        Ok(part) => take_in(replica, part),
        Err(Refusal::NoMemory) => Err(NoMemory),
        Err(_) => Ok(None),
    }
}

fn take_in(replica: &mut Replica, part: Part) -> Result<Option<Id>, NoMemory> {
    let id = match part.changesets.first() {
        Some(changeset) => Some(changeset.node()),
        None => None,
    };
    match replica.absorb_owned(part) {
        Ok(_) => Ok(id),
        Err(Fault::NoMemory) => Err(NoMemory),
        Err(_) => Ok(None),
    }
}

/// Does an operation at a node, and tells whether it is published.
pub(crate) fn write<K: NodeName, R: Wait>(
    rt: &R,
    node: &Open<K, &R>,
    pass: &mut Pass<K>,
    op: &Op,
) -> Result<bool, NoMemory> {
    match node.local(rt, pass, op) {
        Ok(Accepted::Shown) => Ok(true),
        Ok(Accepted::Later) => Ok(false),
        Err(CallRefusal::NoMemory) => Err(NoMemory),
        Err(_) => Ok(false),
    }
}

/// Whether a look at a changeset finds it.
pub(crate) fn finds<K: NodeName>(pass: &mut Pass<K>, id: Id) -> Result<bool, NoMemory> {
    match Node::<K, (), ()>::read(pass, id) {
        Ok(status) => Ok(status.phase.is_some()),
        Err(LookRefusal::NoMemory) => Err(NoMemory),
        Err(LookRefusal::NotEntered) => Ok(false),
    }
}

/// An offer of all that the node serves, unless it is refused.
pub(crate) fn offer<K: NodeName>(pass: &mut Pass<K>) -> Result<Option<Vec<u8>>, NoMemory>
    ensures { IfOk result (IsServedOffer K.opening pass.old pass.new) }
{
    match Node::<K, (), ()>::offer(pass, &[], Scope::Served) {
        Ok(bytes) => Ok(Some(bytes)),
        Err(NotOffered::NoMemory) => Err(NoMemory),
        Err(NotOffered::NotEntered) => Ok(None),
        Err(NotOffered::Refused(_)) => Ok(None),
    }
}
