//! How much room a list or a table keeps once it was cut.
ghost use Rattle.std.specs.Prelude.{◌≡◌, ◌≤◌, ◌*◌, ◌+◌, IfSome, IsNone};

use crate::keys::IdKeys;
use indexmap::IndexMap;
use std::hash::Hash;

// So much room is kept whatever is held.
const LEAST: usize = 16;

// How much room is kept of what a list or a table has, where that is less: twice what it holds, where there is room for
// more than four times that. So moving the rest costs no more than what was cut did.
fn room_after_cut(held: usize, room: usize) -> Option<usize>
    ensures holds { IfSome result (λ kept. held ≤ kept) }
    ensures less { IfSome result (λ kept. 2 * kept ≤ room) }
    ensures enough { IsNone result → room ≤ 4 * held + 33 }
{
    let kept = held.saturating_mul(2).max(LEAST);
    if room / 2 > kept { Some(kept) } else { None }
}

/// Gives back the memory that a list has no use for once it was cut.
pub fn give_back_list<T>(list: &mut Vec<T>)
    ensures { list.new.items ≡ list.old.items }
{
    if let Some(kept) = room_after_cut(list.len(), list.capacity()) {
        list.shrink_to(kept);
    }
}

/// Gives back the memory that a table has no use for once it was cut.
pub fn give_back_table<K: Eq + Hash, V>(table: &mut IndexMap<K, V, IdKeys>)
    ensures { table.new.entries ≡ table.old.entries }
{
    if let Some(kept) = room_after_cut(table.len(), table.capacity()) {
        table.shrink_to(kept);
    }
}
