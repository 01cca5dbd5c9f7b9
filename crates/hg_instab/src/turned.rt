//! A set of which some nodes are turned: they leave it, or come to it.
ghost use Rattle.std.specs.Prelude.{◌↔◌, IsTrue, OnOk};
ghost use Rattle.hg_instab.specs.Changed.{IsNow};
ghost use Rattle.hg_instab.specs.Settling.{IsTurned};

use crate::among::{has, is_missing};
use crate::turn::put;
use hg_changeset::Node;
use std::alloc::AllocError;
use std::collections::BTreeSet;

// Whether the node is in the set now.
pub(crate) fn has_now(set: &BTreeSet<Node>, turned: &BTreeSet<Node>, node: Node) -> bool
    ensures { IsTrue result ↔ IsNow set.now.keys turned.now.keys node }
{
    if has(set, node) {
        is_missing(turned, node)
    } else {
        has(turned, node)
    }
}

// Turns the node. One that was turned is as it was again.
pub(crate) fn turn(turned: &mut BTreeSet<Node>, node: Node) -> Result<(), AllocError>
    ensures { OnOk result (IsTurned node turned.old.keys turned.new.keys) }
{
    if !put(turned, node)? {
        turned.remove(&node);
    }
    Ok(())
}
