//! Writing roots.
ghost use Rattle.std.specs.Prelude.{◌≡◌, ◌↔◌, ◌++◌, All, Contains, IfOk, OnOk, List, Ok, map};
ghost use Rattle.std.specs.List.Sorted.{IsStrictlySortedBy};
ghost use Rattle.hg_changeset.specs.declared.node.Node.{Node};
ghost use Rattle.hg_changeset.specs.Node.{node_cmp};
ghost use Rattle.hg_phaseroots.specs.Reading.{Root, roots_of};
ghost use Rattle.hg_phaseroots.specs.Spelling.{IsSpelling};
ghost use Rattle.hg_phaseroots.specs.Writing.{AreInOrder, IsWritten, IsSpelled, line_of, text_of, digit_of};

use hg_changeset::Node;
use hg_phases::{Phase, Roots};
use std::alloc::{AllocError, Global};
use std::collections::BTreeSet;

/// The text of roots: a line for each, draft ones first, then secret ones, each in ascending order of ids and once.
/// Public ones have no line.
pub fn roots_text(roots: &Roots) -> Result<Vec<u8>, AllocError>
    ensures written { IfOk result (λ text. IsWritten roots.now text.items) }

    // It is a spelling of the roots in that order.
    ensures spells { IfOk result (λ text. (sorted : List Root) → AreInOrder roots.now sorted
        → IsSpelling sorted text.items) }

    // Read back, the text lists the roots in that order.
    ensures reads_back { IfOk result (λ text. (sorted : List Root) → AreInOrder roots.now sorted
        → roots_of text.items ≡ Ok sorted) }
{
    let alloc = roots.allocator();
    let drafts = nodes_with(alloc, roots.as_slice(), Phase::Draft)?;
    let secrets = nodes_with(alloc, roots.as_slice(), Phase::Secret)?;
    let mut text = Vec::new(alloc);
    write_lines(&mut text, Phase::Draft, &drafts)?;
    write_lines(&mut text, Phase::Secret, &secrets)?;
    Ok(text)
}

// The nodes that are listed with this phase.
fn nodes_with(
    alloc: Global,
    listed: &[(Phase, Node)],
    phase: Phase,
) -> Result<BTreeSet<Node>, AllocError>
    ensures { IfOk result (λ nodes. (n : Node) → Contains nodes.keys n ↔ Contains listed.now (phase, n)) }
{
    let mut nodes = BTreeSet::new(alloc);
    for (its, node) in listed {
        if *its == phase {
            nodes.insert(*node)?;
        }
    }
    Ok(nodes)
}

// Appends a line for each node, in ascending order.
fn write_lines(text: &mut Vec<u8>, phase: Phase, nodes: &BTreeSet<Node>) -> Result<(), AllocError>
    ensures written { OnOk result (text.new.items ≡ text.old.items ++ text_of (map (λ n. (phase, n)) nodes.now.keys)) }
    ensures ascending { OnOk result (IsStrictlySortedBy node_cmp nodes.now.keys) }
    ensures ids { OnOk result (All IsSpelled nodes.now.keys) }
{
    for node in nodes {
        write_line(text, phase, *node)?;
    }
    Ok(())
}

// Appends a line.
fn write_line(text: &mut Vec<u8>, phase: Phase, node: Node) -> Result<(), AllocError>
    ensures written { OnOk result (text.new.items ≡ text.old.items ++ line_of (phase, node)) }
    ensures id { IsSpelled node }
{
    let id = node.to_hex();
    text.push(digit_of(phase))?;
    text.push(b' ')?;
    text.extend_from_slice(&id)?;
    text.push(b'\n')?;
    Ok(())
}

// The digit of a phase's number.
fn digit_of(phase: Phase) -> u8
    ensures { result ≡ digit_of phase }
{
    match phase {
        Phase::Public => b'0',
        Phase::Draft => b'1',
        Phase::Secret => b'2',
    }
}
