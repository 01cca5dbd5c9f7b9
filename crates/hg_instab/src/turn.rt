//! What comes to a kept set and what goes from it, found before the set is touched.
//!
//! All that comes is put in first, which alone takes memory; where that is refused, what came is taken out again, and
//! the set is as it was.
ghost use Rattle.std.specs.Prelude.{◌≡◌, ◌↔◌, ◌⊎◌, List, Contains, IfOk, OnOk, OnErr, IsTrue};
ghost use Rattle.std.specs.List.Sorted.{IsStrictlySortedBy};
ghost use Rattle.hg_changeset.specs.declared.node.Node.{Node};
ghost use Rattle.hg_changeset.specs.Node.{node_cmp};
ghost use Rattle.hg_instab.specs.Changed.{IsNow};
ghost use Rattle.hg_instab.specs.Turns.{IsTurn, IsThen, IsGrowth, IsStage, HasCome, HasPut};

use crate::among::{among, has, inside, is_missing, list_of, outside, set_of};
use hg_changeset::Node;
use std::alloc::{AllocError, Global};
use std::collections::BTreeSet;

// What comes to a set and what goes from it.
#[derive(Drop)]
pub(crate) struct Turn {
    come: Vec<Node>,
    gone: Vec<Node>,
}

impl Turn {
    // Of these nodes those are to be in the set that `now` lists, and no others.
    pub(crate) fn to(
        alloc: Global,
        set: &BTreeSet<Node>,
        nodes: &[Node],
        now: Vec<Node>,
    ) -> Result<Turn, AllocError>
        ensures turn { IfOk result (IsTurn set.now.keys) }
        ensures then { IfOk result (λ turn. (n : Node) → IsThen set.now.keys turn n
            ↔ (Contains now.items n ⊎ (Contains set.now.keys n × ¬ (Contains nodes.now n)))) }
    {
        let come = outside(alloc, &now, set)?;
        let now = set_of(alloc, now)?;
        let gone = going(alloc, set, nodes, &now)?;
        Ok(Turn { come, gone })
    }

    // The nodes that turn: those of the set go from it, and the others come to it.
    pub(crate) fn of(
        alloc: Global,
        set: &BTreeSet<Node>,
        turned: &BTreeSet<Node>,
    ) -> Result<Turn, AllocError>
        ensures turn { IfOk result (IsTurn set.now.keys) }
        ensures then { IfOk result (λ turn. (n : Node) → IsThen set.now.keys turn n
            ↔ IsNow set.now.keys turned.now.keys n) }
    {
        let nodes = list_of(alloc, turned)?;
        let come = outside(alloc, &nodes, set)?;
        let gone = inside(alloc, &nodes, set)?;
        Ok(Turn { come, gone })
    }

    // Those of the nodes that the set hasn't come to it, and nothing goes.
    pub(crate) fn growing(
        alloc: Global,
        set: &BTreeSet<Node>,
        nodes: &[Node],
    ) -> Result<Turn, AllocError>
        ensures turn { IfOk result (IsTurn set.now.keys) }
        ensures then { IfOk result (λ turn. IsGrowth set.now.keys turn (Contains nodes.now)) }
    {
        let come = outside(alloc, nodes, set)?;
        Ok(Turn {
            come,
            gone: Vec::new(alloc),
        })
    }

    // All that comes and all that goes.
    pub(crate) fn nodes(&self, alloc: Global) -> Result<Vec<Node>, AllocError>
        ensures { IfOk result (λ nodes. (set : List Node) (n : Node) → ¬ (Contains nodes.items n)
            → IsThen set self.now n ↔ Contains set n) }
    {
        let mut nodes = Vec::new(alloc);
        nodes.extend_from_slice(&self.come)?;
        nodes.extend_from_slice(&self.gone)?;
        Ok(nodes)
    }

    // Puts what comes into the set. Where memory is refused, some of it may have come.
    pub(crate) fn come(&self, set: &mut BTreeSet<Node>) -> Result<(), AllocError>
        ensures stage { IsStage self.now.come.items set.old.keys set.new.keys }
        ensures all { OnOk result (HasCome self.now set.new.keys) }
    {
        insert_all(set, &self.come)
    }

    // Takes out what has come, so that the set is as it was before.
    pub(crate) fn give_back(&self, set: &mut BTreeSet<Node>)
        ensures { (before : List Node) → IsTurn before self.now → IsStage self.now.come.items before set.old.keys
            → set.new.keys ≡ before }
    {
        remove_all(set, &self.come);
    }

    // Takes out what goes, where all that comes has come.
    pub(crate) fn go(&self, set: &mut BTreeSet<Node>)
        ensures { (before : List Node) (n : Node) → IsTurn before self.now
            → IsStage self.now.come.items before set.old.keys → HasCome self.now set.old.keys
            → Contains set.new.keys n ↔ IsThen before self.now n }
    {
        remove_all(set, &self.gone);
    }
}

// Those of the nodes that the set has, and the nodes that are to be in it haven't.
fn going(
    alloc: Global,
    set: &BTreeSet<Node>,
    nodes: &[Node],
    now: &BTreeSet<Node>,
) -> Result<Vec<Node>, AllocError>
    ensures { IfOk result (λ found. (n : Node) → Contains found.items n
        ↔ (Contains nodes.now n × (Contains set.now.keys n × ¬ (Contains now.now.keys n)))) }
{
    among(
        alloc,
        nodes,
        |node|
            ensures { IsTrue result ↔ (Contains set.entry.now.keys node × ¬ (Contains now.entry.now.keys node)) }
        { goes(set, now, node) },
    )
}

fn goes(set: &BTreeSet<Node>, now: &BTreeSet<Node>, node: Node) -> bool
    ensures { IsTrue result ↔ (Contains set.now.keys node × ¬ (Contains now.now.keys node)) }
{
    has(set, node) && is_missing(now, node)
}

// It says that the set is in order.
fn is_in_order(set: &BTreeSet<Node>)
    ensures { IsStrictlySortedBy node_cmp set.now.keys }
{
    let _len = set.len();
}

// Inserts the nodes. Where memory is refused, some of them may be there.
fn insert_all(set: &mut BTreeSet<Node>, nodes: &[Node]) -> Result<(), AllocError>
    ensures stage { IsStage nodes.now set.old.keys set.new.keys }
    ensures all { OnOk result ((n : Node) → Contains nodes.now n → Contains set.new.keys n) }
{
    is_in_order(set);
    for node in nodes {
        set.insert(*node)?;
    }
    Ok(())
}

// Puts the node into the set, and answers whether it came.
pub(crate) fn put(set: &mut BTreeSet<Node>, node: Node) -> Result<bool, AllocError>
    ensures ok { IfOk result (λ came. HasPut node came set.old.keys set.new.keys) }
    ensures unchanged { OnErr result (set.new.keys ≡ set.old.keys) }
{
    is_in_order(set);
    let came = set.insert(node)?;
    Ok(came)
}

// Takes the node out again, if it came.
pub(crate) fn take_back(set: &mut BTreeSet<Node>, node: Node, came: bool)
    ensures { (before : List Node) → HasPut node came before set.old.keys → set.new.keys ≡ before }
{
    if came {
        set.remove(&node);
    }
}

// Removes the nodes.
fn remove_all(set: &mut BTreeSet<Node>, nodes: &[Node])
    ensures ordered { IsStrictlySortedBy node_cmp set.old.keys }
    ensures still_ordered { IsStrictlySortedBy node_cmp set.new.keys }
    ensures members { (n : Node) → Contains set.new.keys n
        ↔ (Contains set.old.keys n × ¬ (Contains nodes.now n)) }
{
    is_in_order(set);
    for node in nodes {
        set.remove(node);
    }
}
