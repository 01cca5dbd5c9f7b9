//! Names of a script, and what each stands for.
ghost use Rattle.std.specs.Prelude.{◌≡◌, ◌↔◌, IfOk, IsTrue, OnErr, OnOk};
ghost use Rattle.hg_names.specs.Names.{AreDistinct, AreSameNames, value_of, Binds};

use std::alloc::{AllocError, Global};
use std::collections::{BTreeMap, BTreeSet};

/// What the name stands for, if it is bound.
pub fn bound<V: Copy>(names: &BTreeMap<Vec<u8>, V>, name: &[u8]) -> Option<V>
    ensures { result ≡ value_of names.now name.now }
{
    names.get(name).copied()
}

/// Binds the name to the value, in place of what it stood for. Where memory is refused all names stay as they were.
pub fn bind<V: Drop>(
    alloc: Global,
    names: &mut BTreeMap<Vec<u8>, V>,
    name: &[u8],
    value: V,
) -> Result<(), AllocError>
    ensures bound { OnOk result (Binds names.old name.now value names.new) }
    ensures unchanged { OnErr result (AreSameNames names.old names.new) }
{
    let name = Vec::from_slice(alloc, name)?;
    names.insert(name, value)?;
    Ok(())
}

/// Whether no name comes twice. One name or none takes no memory.
pub fn are_distinct(alloc: Global, names: &[&[u8]]) -> Result<bool, AllocError>
    ensures { IfOk result (λ answer. IsTrue answer ↔ AreDistinct names.now) }
{
    if names.len() < 2 {
        return Ok(true);
    }
    let set: BTreeSet<&[u8]> = names.iter().copied().collect(alloc)?;
    Ok(set.len() == names.len())
}
