//! A pair of two maps, each public call once; and each growth refused.
use hg_join::{Both, JoinState, LowMap, NoMemory};
use std::alloc::Global;

/// Two maps, side by side.
type Pair = Both<LowMap<u8>, LowMap<u8>>;

/// Keys with the number of each, as a map takes them in.
type Numbers = Vec<(u8, u8)>;

/// The keys from the one to the other, with the same number each.
fn numbers(alloc: Global, from: u8, to: u8, number: u8) -> Option<Numbers> {
    let mut numbers = Vec::new(alloc);
    for key in from..to {
        numbers.push((key, number)).ok()?;
    }
    Some(numbers)
}

/// What a map has for the keys below 16, and 0 where it has nothing.
fn listed(map: &LowMap<u8>) -> [u8; 16] {
    let mut listed = [0; 16];
    for key in 0..16u8 {
        listed[key as usize] = map.get(key).unwrap_or(0);
    }
    listed
}

// The second half of a pair changes last, and in many steps.
#[test]
fn refused_growth_in_a_half_changes_neither_and_passes_again(rt: HostRuntime) {
    let alloc = rt.alloc();
    let (Some(twenties), Some(fives), Some(one)) = (
        numbers(alloc, 4, 12, 20),
        numbers(alloc, 0, 16, 5),
        numbers(alloc, 3, 4, 1),
    ) else {
        return;
    };
    let (few, part) = ((Vec::new(alloc), twenties), (one, fives));
    let mut pair: Pair = Both::new(LowMap::new(alloc), LowMap::new(alloc));
    assert!(rt; pair.absorb(&few).is_ok() || pair.absorb(&few).is_ok());
    let mut copy = match pair.copy() {
        Ok(copy) => copy,
        Err(NoMemory) => pair.copy().expect(&rt, "memory"),
    };
    let before = listed(pair.second());
    if pair.absorb(&part).is_err() {
        assert!(rt; pair.first().get(3).is_none() && listed(pair.second()) == before);
        assert!(rt; pair.absorb(&part).is_ok());
    }
    assert!(rt; pair.first().get(3) == Some(1) && listed(pair.second()) == [5; 16]);
    assert!(rt; copy.below(&pair) == Ok(true) && pair.below(&copy) == Ok(false));
    if copy.join(&pair).is_err() {
        assert!(rt; copy.first().get(3).is_none() && listed(copy.second()) == before);
        assert!(rt; copy.join(&pair).is_ok());
    }
    assert!(rt; copy.first().get(3) == Some(1) && listed(copy.second()) == [5; 16]);
}
