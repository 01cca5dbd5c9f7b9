//! From keys to the lowest number given to each: the plain state that joins.
//!
//! Every growth is a lowering of one key: it takes a number where it has none or a higher one. Memory can run out
//! between two lowerings of one call, so each first notes in a log what its key had; a refused call puts that back,
//! the last first, which takes no memory.
ghost use Rattle.std.specs.Prelude.{◌≡◌, ◌↔◌, ℕ, Option, List, [], ⊤, IsTrue, IfOk, IsOkAnd, OnOk, OnErr};
ghost use Rattle.std.specs.BTreeMap.{IsOrdered};
ghost use Rattle.hg_join.specs.Lows.{LowsBelow, LowsJoined, LowsCover, LowsAfter, lower_of, lows_of, given, put_back};
ghost use Rattle.hg_join.specs.Lows.{undone};
ghost use Rattle.hg_join.specs.LowLaws.{lows_ordered, lows_commute, lows_associate, lows_idempotent, lows_least};
ghost use Rattle.hg_join.specs.LowLaws.{lows_stay_covered, lows_absorbed, lows_again, lows_swap};

use crate::memory::NoMemory;
use crate::state::JoinState;
use std::alloc::Global;
use std::collections::BTreeMap;
use std::marker::Model;

/// From keys to the lowest number given to each.
///
/// Contracts see its entries, in the order of the keys. It is a [`JoinState`] whose part is a list of pairs of a key
/// and a number for it. It refuses for want of memory alone. A call costs about the part or the other map, and the
/// logarithm of the keys held; a refused call costs no more.
#[derive(Drop)]
pub struct LowMap<K: Ord + Copy> {
    alloc: Global,
    lows: BTreeMap<K, u8>,
}

impl<K: Ord + Copy> Model for LowMap<K> {
    ghost use Rattle.std.specs.Prelude.{List, ℕ};
    ghost use Rattle.std.specs.BTreeMap.{IsOrdered};

    ghost Value = { List (K × ℕ) };

    ghost view = { λ m. m.lows.entries };

    ghost invariant = { λ m. IsOrdered K.cmp m.lows };
}

impl<K: Ord + Copy> LowMap<K> {
    /// A map without keys. It takes its memory from the allocator.
    pub fn new(alloc: Global) -> LowMap<K>
        ensures { result ≡ [] }
    {
        LowMap {
            alloc,
            lows: BTreeMap::new(alloc),
        }
    }

    /// The lowest number given to a key, if any was.
    pub fn get(&self, key: K) -> Option<u8>
        ensures { result ≡ lows_of K.cmp self.now key }
    {
        self.lows.get(&key).copied()
    }
}

impl<K: Ord + Copy> JoinState for LowMap<K> {
    type Part = Vec<(K, u8)>;

    type Change = ();

    type Fault = NoMemory;

    // The number of each key that has one: two maps with one content answer every `get` alike.
    ghost Content = { K → Option ℕ };

    ghost content = { λ m. lows_of K.cmp m };

    // Any numbers at any keys, so the least is the least of all functions.
    ghost IsValid = { λ f. ⊤ };

    ghost Below = { LowsBelow };

    ghost Joined = { LowsJoined };

    // Any two maps join.
    ghost Collides = { λ f g fault. ⊥ };

    ghost PartContent = { List (K × ℕ) };

    ghost part_content = { λ p. p.items };

    ghost Covers = { LowsCover K.cmp };

    // Any pairs can be taken.
    ghost Admits = { λ f p. ⊤ };

    ghost After = { LowsAfter K.cmp };

    ghost IsFirstFault = { λ f p fault. ⊥ };

    // The change `()` tells nothing.
    ghost Tells = { λ old part change new. ⊤ };

    ghost IsWantOfMemory = { λ fault. ⊤ };

    ghost ordered = { lows_ordered };

    ghost stays_covered = { lows_stay_covered K.cmp };

    ghost absorbed = { lows_absorbed K.cmp };

    ghost after_is_admitted = { λ a b p v h. tt };

    ghost faultless = { λ a p fault v admitted h. h };

    ghost apart = { λ a b c fault v w joined h. h };

    ghost covered_is_admitted = { λ a p v c. tt };

    ghost collides_for_good = { λ a b c fault u v w p q h. h };

    ghost memory_is_no_fault = { λ a p fault v w h. h };

    ghost memory_is_no_collision = { λ a b fault u v w h. h };

    ghost commutes = { λ a b c v w. (lows_commute a b c, lows_commute b a c) };

    ghost associates = { λ a b c abc u v w. lows_associate a b c abc };

    ghost idempotent = { λ a v. lows_idempotent a };

    ghost least = { λ a b c v w. lows_least a b c };

    ghost again = { lows_again K.cmp };

    ghost swap = { lows_swap K.cmp };

    fn copy(&self) -> Result<LowMap<K>, NoMemory> {
        Ok(LowMap {
            alloc: self.alloc,
            lows: copy_of(self.alloc, &self.lows)?,
        })
    }

    fn absorb(&mut self, part: &Vec<(K, u8)>) -> Result<(), NoMemory> {
        let mut log = Vec::new(self.alloc);
        let lowered = lower_each(&mut self.lows, &mut log, part.as_slice());
        keep_or_undo(&mut self.lows, log, lowered)
    }

    fn join(&mut self, other: &LowMap<K>) -> Result<(), NoMemory> {
        let mut log = Vec::new(self.alloc);
        let lowered = lower_by(&mut self.lows, &mut log, &other.lows);
        keep_or_undo(&mut self.lows, log, lowered)
    }

    fn below(&self, other: &LowMap<K>) -> Result<bool, NoMemory>
        // It takes no memory, so it is never refused.
        ensures { IsOkAnd result
            (λ answer. IsTrue answer ↔ LowsBelow (lows_of K.cmp self.now) (lows_of K.cmp other.now)) }
    {
        Ok(are_below(&self.lows, &other.lows))
    }
}

/// The same entries.
fn copy_of<K: Ord + Copy>(
    alloc: Global,
    lows: &BTreeMap<K, u8>,
) -> Result<BTreeMap<K, u8>, NoMemory>
    requires { IsOrdered K.cmp lows.now }
    ensures entries { IfOk result (λ copy. copy.entries ≡ lows.now.entries) }
{
    let mut copy = BTreeMap::new(alloc);
    for (key, low) in lows {
        copy.insert(*key, *low)?;
    }
    Ok(copy)
}

/// Gives a key a number, which counts if it is the lowest so far; what the key had goes into the log first.
fn lower<K: Ord + Copy>(
    lows: &mut BTreeMap<K, u8>,
    log: &mut Vec<(K, Option<u8>)>,
    key: K,
    low: u8,
) -> Result<(), NoMemory>
    requires { IsOrdered K.cmp lows.old }
    ensures lowered { OnOk result ((k : K) →
        lows_of K.cmp lows.new.entries k ≡ lower_of (lows_of K.cmp lows.old.entries k) (given K.cmp (key, low) k)) }
    ensures log { undone K.cmp log.new.items lows.new.entries ≡ undone K.cmp log.old.items lows.old.entries }
    ensures ordered { IsOrdered K.cmp lows.new }
{
    let had = lows.get(&key).copied();
    if had.is_some_and(|present| present <= low) {
        return Ok(());
    }
    log.push((key, had))?;
    lows.insert(key, low)?;
    Ok(())
}

/// Gives each key of the pairs its number.
fn lower_each<K: Ord + Copy>(
    lows: &mut BTreeMap<K, u8>,
    log: &mut Vec<(K, Option<u8>)>,
    pairs: &[(K, u8)],
) -> Result<(), NoMemory>
    requires { IsOrdered K.cmp lows.old }
    ensures lowered { OnOk result
        (LowsAfter K.cmp (lows_of K.cmp lows.old.entries) pairs.now (lows_of K.cmp lows.new.entries)) }
    ensures log { undone K.cmp log.new.items lows.new.entries ≡ undone K.cmp log.old.items lows.old.entries }
    ensures ordered { IsOrdered K.cmp lows.new }
{
    for (key, low) in pairs {
        lower(lows, log, *key, *low)?;
    }
    Ok(())
}

/// Gives each key of another map its number there.
fn lower_by<K: Ord + Copy>(
    lows: &mut BTreeMap<K, u8>,
    log: &mut Vec<(K, Option<u8>)>,
    others: &BTreeMap<K, u8>,
) -> Result<(), NoMemory>
    requires ordered { IsOrdered K.cmp lows.old }
    requires others { IsOrdered K.cmp others.now }
    ensures lowered { OnOk result (LowsJoined (lows_of K.cmp lows.old.entries) (lows_of K.cmp others.now.entries)
        (lows_of K.cmp lows.new.entries)) }
    ensures log { undone K.cmp log.new.items lows.new.entries ≡ undone K.cmp log.old.items lows.old.entries }
    ensures ordered { IsOrdered K.cmp lows.new }
{
    for (key, low) in others {
        lower(lows, log, *key, *low)?;
    }
    Ok(())
}

/// Keeps what was lowered or, where memory ran out, puts it all back.
fn keep_or_undo<K: Ord + Copy>(
    lows: &mut BTreeMap<K, u8>,
    log: Vec<(K, Option<u8>)>,
    lowered: Result<(), NoMemory>,
) -> Result<(), NoMemory>
    ensures same { result ≡ lowered }
    ensures ok { OnOk result (lows.new.entries ≡ lows.old.entries) }
    ensures err { OnErr result (lows.new.entries ≡ undone K.cmp log.items lows.old.entries) }
{
    if lowered.is_err() {
        undo(lows, log);
    }
    lowered
}

/// Gives each key of a log back what it had, the last first.
fn undo<K: Ord + Copy>(lows: &mut BTreeMap<K, u8>, mut log: Vec<(K, Option<u8>)>)
    ensures { lows.new.entries ≡ undone K.cmp log.items lows.old.entries }
{
    while let Some((key, had)) = log.pop() {
        restore(lows, key, had);
    }
}

/// Gives a key back what it had: the number that it had, or none.
fn restore<K: Ord + Copy>(lows: &mut BTreeMap<K, u8>, key: K, had: Option<u8>)
    ensures { lows.new.entries ≡ put_back K.cmp key had lows.old.entries }
{
    match had {
        Some(low) => {
            if let Some(present) = lows.get_mut(&key) {
                *present = low;
            }
        }
        None => {
            lows.remove(&key);
        }
    }
}

/// Whether the others have each key, with a number as low.
fn are_below<K: Ord + Copy>(lows: &BTreeMap<K, u8>, others: &BTreeMap<K, u8>) -> bool
    requires { IsOrdered K.cmp lows.now }
    ensures { IsTrue result ↔ LowsBelow (lows_of K.cmp lows.now.entries) (lows_of K.cmp others.now.entries) }
{
    for (key, low) in lows {
        match others.get(key) {
            Some(other) if *other <= *low => {}
            _ => return false,
        }
    }
    true
}
