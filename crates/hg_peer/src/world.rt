//! Worlds of peers that hash ids by keys of their own.
ghost use Rattle.std.specs.Prelude.{◌≡◌, ◌<◌, [], length, IfOk, OnErr};
ghost use Rattle.hg_world.specs.Runs.{AllEmpty, AllUnmarked};
ghost use Rattle.hg_peer.specs.Words.{peer_state, peer_words};

use crate::peer::Peer;
use hg_join::NoMemory;
use hg_node_set::IdKeys;
use hg_world::World;
use std::alloc::Global;

/// A world of so many empty peers, none of which pins anything, and no message: what [`World::new`] gives, of peers
/// that hash ids by these keys. Whoever hands bytes of strangers to a world makes it so, with secret keys.
pub fn world_with_keys(alloc: Global, keys: IdKeys, count: usize) -> Result<World<Peer>, NoMemory>
    ensures nodes { IfOk result (λ world. length world.nodes ≡ count) }
    ensures empty { IfOk result (AllEmpty peer_state) }
    ensures unmarked { IfOk result (AllUnmarked peer_state peer_words) }
    ensures messages { IfOk result (λ world. world.messages ≡ []) }
    ensures memory { OnErr result (0 < count) }
{
    let mut peers = Vec::with_capacity(alloc, count)?;
    for _ in 0..count {
        peers.push(Peer::with_keys(alloc, keys)?).unwrap();
    }
    Ok(World::of(alloc, peers))
}
