//! Which of some sets have what, sixty-four sets in a number.
//!
//! The members of the sets have numbers, and each has a word for every sixty-four sets: a bit for each of these that
//! has it. The bits that the words of all members of a set have in common are those of the sets that it is within. So a
//! set is compared with sixty-four others at once, whatever ids its members have.
ghost use Rattle.std.specs.Prelude.{◌≡◌, ◌↔◌, ◌<◌, ◌≤◌, ◌*◌, ℕ, length, Contains, IfOk, false};
ghost use Rattle.hg_succ.specs.Answer.{sets_of};
ghost use Rattle.hg_succ.specs.Rows.{rows_of};
ghost use Rattle.hg_succ.specs.Holders.{AreNumberings, AreBlocks, IsBlock, IsCommon, IsOwnBit, HaveWords};
ghost use Rattle.hg_succ.specs.Holders.{IsWithinNone, Indexes, Notes, AreBelow, row_in};

use crate::numbered::{Numbered, number_each};
use hg_changeset::Node;
use hg_node_set::{IdKeys, NodeSet};
use std::alloc::{AllocError, Global};

/// So many sets share a word.
const WIDTH: usize = 64;

/// Which of some sets have what.
#[derive(Drop)]
pub(crate) struct Holders {
    /// For each set, the numbers of its members.
    rows: Vec<Vec<usize>>,
    /// For every sixty-four sets, the word of each member, by its number.
    blocks: Vec<Vec<u64>>,
}

impl Holders {
    /// Of these sets.
    pub(crate) fn of(alloc: Global, keys: IdKeys, sets: &[Vec<Node>]) -> Result<Holders, AllocError>
        ensures { IfOk result (Indexes (sets_of sets.now)) }
    {
        let Numbered {
            nodes: members,
            rows,
        } = number_members(alloc, keys, sets)?;
        let blocks = blocks_of(alloc, &rows, members.len())?;
        Ok(Holders { rows, blocks })
    }

    /// Whether another set has all that the one at the place has.
    pub(crate) fn is_within_another(&self, place: usize) -> bool
        requires place { place < length self.now.rows.items }
        requires some { (m : ℕ) × Contains (row_in (rows_of self.now.rows.items) place) m }
        requires blocks { AreBlocks (rows_of self.now.rows.items) (rows_of self.now.blocks.items) }
        requires words { HaveWords (rows_of self.now.rows.items) (rows_of self.now.blocks.items) }
        ensures { result ≡ false ↔ IsWithinNone (rows_of self.now.rows.items) place }
    {
        is_within_another(&self.rows, &self.blocks, place)
    }
}

// Numbers the members of the sets.
fn number_members(alloc: Global, keys: IdKeys, sets: &[Vec<Node>]) -> Result<Numbered, AllocError>
    ensures { IfOk result
        (λ numbered. AreNumberings (sets_of sets.now) numbered.nodes.keys (rows_of numbered.rows.items)) }
{
    let mut nodes = NodeSet::with_keys(alloc, keys);
    let mut rows = Vec::new(alloc);
    for set in sets {
        let mut row = Vec::new(alloc);
        number_each(set, &mut nodes, &mut row)?;
        rows.push(row)?;
    }
    Ok(Numbered { nodes, rows })
}

// The words of all members, whose number is given.
fn blocks_of(alloc: Global, rows: &[Vec<usize>], count: usize) -> Result<Vec<Vec<u64>>, AllocError>
    requires { AreBelow (rows_of rows.now) count }
    ensures blocks { IfOk result (λ blocks. AreBlocks (rows_of rows.now) (rows_of blocks.items)) }
    ensures words { IfOk result (λ blocks. HaveWords (rows_of rows.now) (rows_of blocks.items)) }
{
    let mut blocks = Vec::new(alloc);
    for block in 0..rows.len() / WIDTH + 1 {
        let words = block_of(alloc, rows, block * WIDTH, count)?;
        blocks.push(words)?;
    }
    Ok(blocks)
}

// Those of the sets from a place on.
fn block_of(
    alloc: Global,
    rows: &[Vec<usize>],
    first: usize,
    count: usize,
) -> Result<Vec<u64>, AllocError>
    requires first { first ≤ length rows.now }
    requires count { AreBelow (rows_of rows.now) count }
    ensures long { IfOk result (λ words. length words.items ≡ count) }
    ensures block { IfOk result (λ words. IsBlock (rows_of rows.now) first words.items) }
{
    let mut words = vec![in alloc; 0; count]?;
    for bit in 0..WIDTH {
        if let Some(row) = rows.get(first + bit) {
            note(&mut words, bit, row);
        }
    }
    Ok(words)
}

// Sets the bit in the words of these members.
fn note(words: &mut Vec<u64>, bit: usize, row: &[usize])
    requires bit { bit < 64 }
    requires within { (m : ℕ) → Contains row.now m → m < length words.old.items }
    ensures { Notes bit row.now words.old.items words.new.items }
{
    for number in row {
        words[*number] |= 1 << bit;
    }
}

// Whether another row has all numbers of the one at the place.
fn is_within_another(rows: &[Vec<usize>], blocks: &[Vec<u64>], place: usize) -> bool
    requires place { place < length rows.now }
    requires some { (m : ℕ) × Contains (row_in (rows_of rows.now) place) m }
    requires blocks { AreBlocks (rows_of rows.now) (rows_of blocks.now) }
    requires words { HaveWords (rows_of rows.now) (rows_of blocks.now) }
    ensures { result ≡ false ↔ IsWithinNone (rows_of rows.now) place }
{
    let row = &rows[place];
    for block in 0..blocks.len() {
        if common(&blocks[block], row) != own_bit(block, place) {
            return true;
        }
    }
    false
}

// The bits that the words of all of these members have in common.
fn common(words: &[u64], row: &[usize]) -> u64
    requires { (m : ℕ) → Contains row.now m → m < length words.now }
    ensures { IsCommon words.now row.now result }
{
    let mut common = u64::MAX;
    for number in row {
        common &= words[*number];
        if common == 0 {
            return 0;
        }
    }
    common
}

// The bit of the set at the place, if it is one of the block's.
fn own_bit(block: usize, place: usize) -> u64
    ensures { IsOwnBit (block * 64) place result }
{
    if place / WIDTH == block {
        return 1 << (place % WIDTH);
    }
    0
}
