//! Two states side by side: whichever half refuses is told, with its own fault.
use crate::parts::empty;
use hg_changeset::Node;
use hg_join::{Both, BothFault, JoinState, LowMap, NoMemory};
use hg_phases::Phase;
use hg_replica::{Fault, Part, Replica};
use std::alloc::Global;

// The part of a bound on the null id, which is at fault wherever it comes.
fn bound_on_nothing(alloc: Global) -> Option<Part> {
    let mut part = empty(alloc);
    part.bounds.push((Node::NULL, Phase::Draft)).ok()?;
    Some(part)
}

#[test]
fn a_fault_in_a_part_is_told_of_the_half_that_it_is_for(rt: HostRuntime) {
    let alloc = rt.alloc();
    let mut pair = Both::new(Replica::new(alloc), Replica::new(alloc));
    let first = (bound_on_nothing(alloc).expect(&rt, "memory"), empty(alloc));
    let second = (empty(alloc), bound_on_nothing(alloc).expect(&rt, "memory"));
    assert!(rt; pair.absorb(&first).err() == Some(BothFault::First(Fault::NullBound)));
    assert!(rt; pair.absorb(&second).err() == Some(BothFault::Second(Fault::NullBound)));
}

// The map of one key.
fn one_key(alloc: Global) -> Option<LowMap<u8>> {
    let numbers = Vec::from_slice(alloc, &[(3, 7)]).ok()?;
    let mut map = LowMap::new(alloc);
    map.absorb(&numbers).ok()?;
    Some(map)
}

// A copy of a map without keys takes no memory, and joining one neither: so only the half that gets the key can want
// it.
#[test]
fn refused_growth_in_a_join_is_told_of_the_half_that_grows(rt: HostRuntime) {
    let alloc = rt.alloc();
    let (Some(one), Some(same)) = (one_key(alloc), one_key(alloc)) else {
        return;
    };
    let mut pair: Both<LowMap<u8>, LowMap<u8>> = Both::new(LowMap::new(alloc), LowMap::new(alloc));
    let joined = pair.join(&Both::new(one, LowMap::new(alloc)));
    assert!(rt; joined == Ok(()) || joined == Err(BothFault::First(NoMemory)));
    let mut pair: Both<LowMap<u8>, LowMap<u8>> = Both::new(LowMap::new(alloc), LowMap::new(alloc));
    let joined = pair.join(&Both::new(LowMap::new(alloc), same));
    assert!(rt; joined == Ok(()) || joined == Err(BothFault::Second(NoMemory)));
}
