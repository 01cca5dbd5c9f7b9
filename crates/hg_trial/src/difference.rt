//! In what two replicas differ.
ghost use Rattle.std.specs.Prelude.{◌≡◌, ◌≢◌, IsOkAnd, MatchOption, length};
ghost use Rattle.hg_replica.specs.Content.{content_of};
ghost use Rattle.hg_trial.specs.Differences.{ArePhases, HasOtherPhase, markers_lacked};

use hg_changeset::Node;
use hg_obsstore::Store;
use hg_phases::Phase;
use hg_replica::Replica;
use std::alloc::AllocError;

/// How many markers of the second store the first one lacks. It costs a look-up for each marker of the second, and
/// takes no memory.
pub fn markers_lacked(lacking: &Store, having: &Store) -> usize
    ensures { result ≡ length (markers_lacked lacking.now having.now) }
{
    let mut count = 0;
    let markers = having.markers();
    for marker in markers {
        if !lacking.contains(marker) {
            count += 1;
        }
    }
    count
}

/// The phases of a changeset at both replicas, where they hold it in different ones. It costs two look-ups, and is
/// never refused.
pub fn different_phases(
    first: &Replica,
    second: &Replica,
    node: Node,
) -> Result<Option<(Phase, Phase)>, AllocError>
    ensures { IsOkAnd result (λ phases. MatchOption phases
        (¬ (HasOtherPhase (content_of first.now) (content_of second.now) node))
        (ArePhases (content_of first.now) (content_of second.now) node)) }
{
    match first.phase_of(node)? {
        Some(here) => match second.phase_of(node)? {
            Some(there) => Ok(both_if_different(here, there)),
            None => Ok(None),
        },
        None => Ok(None),
    }
}

fn both_if_different(here: Phase, there: Phase) -> Option<(Phase, Phase)>
    ensures { MatchOption result (here ≡ there) (λ phases. (phases ≡ (here, there)) × (here ≢ there)) }
{
    if here == there {
        None
    } else {
        Some((here, there))
    }
}
