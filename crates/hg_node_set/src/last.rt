//! What came last is found without a hash: mostly it is that which is asked of.
ghost use Rattle.std.specs.Prelude.{◌≡◌, IfSome, Some, slice_get};

use crate::keys::IdKeys;
use hg_changeset::Node;
use indexmap::IndexMap;

/// The number of an id that came last into a table, with its value, and nothing for any other id. It takes no hash.
#[inline(always)]
pub fn find_if_last<V>(table: &IndexMap<Node, V, IdKeys>, node: Node) -> Option<(usize, &V)>
    ensures { IfSome result (λ found. slice_get table.now.entries found.0 ≡ Some (node, found.1.now)) }
{
    let number = table.len().checked_sub(1)?;
    match table.get_index(number) {
        Some((last, value)) if node == *last => Some((number, value)),
        _ => None,
    }
}
