//! A whole discovery between two replicas of one process.
ghost use Rattle.std.specs.Prelude.{◌≡◌, IfOk, IfErr};
ghost use Rattle.hg_discovery.specs.declared.error.DiscoveryError.TheVariants.{NoMemory};
ghost use Rattle.hg_discovery.specs.Between.{AreHeadsInCommon};
ghost use Rattle.hg_discovery.specs.Compared.{WereCompared};

use crate::answers::known_kept;
use crate::compared::Compared;
use crate::discovery::Discovery;
use crate::error::DiscoveryError;
use crate::heads::heads_by_walk;
use hg_changeset::Node;
use hg_replica::Replica;
use hg_view::Kept;
use std::alloc::Global;

/// The heads of what the asker has in common with the other replica, ascending: those with which rounds end in which it
/// asks, and the other tells which of the asked changesets it serves under its pins. It is refused for want of memory
/// alone.
///
/// It costs the asker's changesets without a child, what came to either side since both were compared, and what the
/// asker holds and the other doesn't serve. Only where an id stands for two changesets rounds are made, which cost what
/// both hold.
pub fn heads_in_common_compared(
    alloc: Global,
    asker: &Kept,
    other: &Kept,
    compared: &mut Compared,
) -> Result<Vec<Node>, DiscoveryError>
    requires { WereCompared asker.now other.now compared.old }
    ensures heads { IfOk result
        (λ heads. AreHeadsInCommon asker.now.replica other.now.replica other.now.pins heads.items) }
    ensures compared { WereCompared asker.now other.now compared.new }
    ensures memory { IfErr result (λ error. error ≡ NoMemory) }
{
    if compared.go_on(asker.replica().graph(), other.replica().graph()) {
        let heads = heads_by_walk(alloc, asker, other)?;
        return Ok(heads);
    }
    ask_in_rounds(alloc, asker.replica(), other)
}

// The heads of what the asker has in common with the other replica, as it asks in rounds.
fn ask_in_rounds(alloc: Global, asker: &Replica, other: &Kept) -> Result<Vec<Node>, DiscoveryError>
    ensures heads { IfOk result
        (λ heads. AreHeadsInCommon asker.now other.now.replica other.now.pins heads.items) }
    ensures memory { IfErr result (λ error. error ≡ NoMemory) }
{
    let mut discovery = Discovery::start(alloc, asker)?;
    while !discovery.done() {
        let asked = discovery.sample()?;
        let answers = known_kept(alloc, other, &asked)?;
        discovery.answer(&answers)?;
    }
    let heads = discovery.common_heads()?;
    Ok(heads)
}
