//! The bounds of a message.
//!
//! A bound is a phase in four bytes, and a node id. Bounds are checked before any memory is taken, and then copied.
ghost use Rattle.std.specs.Prelude.{◌≡◌, ◌<◌, List, IfOk, OnErr, MatchResult, Ok, Err};
ghost use Rattle.hg_marker.specs.Reading.{IsReading};
ghost use Rattle.hg_changeset.specs.declared.node.Node.{Node};
ghost use Rattle.hg_phases.specs.declared.phase.Phase.{Phase};
ghost use Rattle.hg_phases.specs.State.{rank};
ghost use Rattle.hg_message.specs.Bound.{bound_at};
ghost use Rattle.hg_message.specs.Counted.{counted, first_of};

use crate::error::MessageFault;
use crate::place::truncated;
use hg_changeset::Node;
use hg_marker::{read_node, read_number};
use hg_phases::Phase;
use std::alloc::{AllocError, Global};

/// The number of a phase.
pub(crate) fn phase_number(phase: Phase) -> u32
    ensures { result ≡ rank phase }
{
    match phase {
        Phase::Public => 0,
        Phase::Draft => 1,
        Phase::Secret => 2,
    }
}

// The bound at the front of the rest of so many bytes, and the bytes after it.
#[tactic(auto, unfolding(crate::specs::Bound::bound_at))]
fn read_bound(total: usize, bytes: &[u8]) -> Result<((Node, Phase), &[u8]), MessageFault>
    ensures { IsReading (λ x. (x.0, x.1.now)) result (bound_at total bytes.now) }
{
    let (number, rest) = read_number(bytes, truncated(total, bytes))?;
    let phase = match number {
        0 => Phase::Public,
        1 => Phase::Draft,
        2 => Phase::Secret,
        _ => return Err(MessageFault::BadPhase),
    };
    let (node, rest) = read_node(rest, truncated(total, rest))?;
    Ok(((node, phase), rest))
}

/// The bytes after so many bounds. It takes no memory.
pub(crate) fn skip_bounds(total: usize, count: u32, bytes: &[u8]) -> Result<&[u8], MessageFault>
    ensures { MatchResult result
        (λ rest. (bounds : List (Node × Phase))
        × (counted (λ _. bound_at total) 0 count bytes.now ≡ Ok (bounds, rest.now)))
        (λ fault. counted (λ _. bound_at total) 0 count bytes.now ≡ Err fault) }
{
    let mut rest = bytes;
    for _ in 0..count {
        match read_bound(total, rest) {
            Ok((_, after)) => rest = after,
            Err(fault) => return Err(fault),
        }
    }
    Ok(rest)
}

/// So many bounds that were checked. Room is taken for just so many.
pub(crate) fn read_bounds(
    alloc: Global,
    total: usize,
    count: u32,
    bytes: &[u8],
) -> Result<Vec<(Node, Phase)>, AllocError>
    ensures read { IfOk result
        (λ bounds. first_of (counted (λ _. bound_at total) 0 count bytes.now) ≡ Ok bounds.items) }
    ensures memory { OnErr result (0 < count) }
{
    let mut bounds = Vec::with_capacity(alloc, count as usize)?;
    let mut rest = bytes;
    for _ in 0..count {
        match read_bound(total, rest) {
            Ok((bound, after)) => {
                bounds.push(bound)?;
                rest = after;
            }
            Err(_) => return Err(AllocError),
        }
    }
    Ok(bounds)
}
