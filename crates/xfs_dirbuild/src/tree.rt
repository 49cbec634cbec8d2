//! The tree of index blocks of the node form, written from its leaves up. The root comes first, and behind it
//! each level from the left.

ghost use Rattle.std.specs.Prelude.{◌≡◌, ℕ, true, false, [], ◌+◌, ◌*◌, ◌<◌, ◌≤◌, ◌⊎◌, ◌^◌, List, length, All, IfOk, OnOk, slice_index_or};
ghost use Rattle.xfs_disk.specs.Shares.{share_of};
ghost use Rattle.xfs_word.specs.Field.{field_of};
ghost use Rattle.xfs_dirindex.specs.Mapped.{Mapped};
ghost use Rattle.xfs_dirindex.specs.IndexTree.{pairs_of_places, are_members, pairs_below};
ghost use Rattle.xfs_dirbuild.specs.Blocks.{row_blocks, index_links, index_tree_blocks, bank_part};
ghost use Rattle.xfs_dirbuild.specs.Forms.{tree_count};
ghost use Rattle.xfs_dirbuild.specs.Index.{IsPointer, IsIndexBlock, IsIndexed, before_at, next_at, HoldsIndex, leaf_places, IsTreeOf};

use crate::forms::{leaf_blocks, nodes_above};
use crate::index_blocks::put_index;
use crate::writing::{blank, put_block};
use std::alloc::Global;
use xfs_collections::BlockBank;
use xfs_dirindex::layouts::INDEX_START;
use xfs_dirindex::{PAIR_SIZE, Pair};
use xfs_disk::{NoMemory, share_of};
use xfs_word::get32;

/// Writes the tree over these pairs, which are in order, from block `base` of a bank on.
#[tactic(auto, unfolding(crate::specs::Forms::tree_count))]
pub fn put_tree(
    alloc: Global,
    pairs: &[Pair],
    base: usize,
    blocks: &mut BlockBank,
) -> Result<(), NoMemory>
    requires pointers { All IsPointer pairs.now }
    requires some { 1 ≤ length pairs.now }
    requires few { length pairs.now ≤ 2 ^ 24 + 2 }
    requires base { base ≤ 2 ^ 32 }
    requires room { base + tree_count (length pairs.now) ≤ length blocks.old }
    ensures tree { OnOk result ((ms : List Mapped) → HoldsIndex ms blocks.new base 0 (tree_count (length pairs.now)) → IsTreeOf ms (tree_count (length pairs.now)) pairs.now) }
    ensures bytes { OnOk result (bank_part blocks.new base (tree_count (length pairs.now)) ≡ index_tree_blocks pairs.now) }
    ensures indexed { OnOk result ((k : ℕ) → k < tree_count (length pairs.now) → IsIndexed (slice_index_or blocks.new (base + k) [])) }
    ensures count { length blocks.new ≡ length blocks.old }
    ensures others { (k : ℕ) → k < base → slice_index_or blocks.new k [] ≡ slice_index_or blocks.old k [] }
{
    let leaves = leaf_blocks(pairs.len());
    let nodes = nodes_above(leaves);
    let tops = nodes_above(nodes);
    let below = put_row(alloc, 0, pairs, tops + nodes, leaves, base, blocks)?;
    if nodes == 0 {
        return Ok(());
    }
    let upper = put_row(alloc, 1, &below, tops, nodes, base, blocks)?;
    if tops == 0 {
        return Ok(());
    }
    put_row(alloc, 2, &upper, 0, tops, base, blocks)?;
    Ok(())
}

/// Writes a level of the tree: these pairs, shared out over `count` blocks from block `first` of the index on,
/// which stands behind the first `base` blocks of a bank. Returns the pairs of the level above: the greatest
/// hash and the file block of each.
fn put_row(
    alloc: Global,
    level: u16,
    pairs: &[Pair],
    first: usize,
    count: usize,
    base: usize,
    blocks: &mut BlockBank,
) -> Result<Vec<Pair>, NoMemory>
    requires pointers { All IsPointer pairs.now }
    requires some { 1 ≤ count }
    requires enough { count ≤ length pairs.now }
    requires fit { length pairs.now ≤ count * 504 }
    requires few { length pairs.now ≤ 2 ^ 24 + 2 }
    requires base { base ≤ 2 ^ 32 }
    requires room { base + first + count ≤ length blocks.old }
    requires low { first + count ≤ 0x800000 }
    ensures members { IfOk result (λ links. (ms : List Mapped) → HoldsIndex ms blocks.new base first count → are_members ms false level 0 links.items ≡ true) }
    ensures below { IfOk result (λ links. (ms : List Mapped) → HoldsIndex ms blocks.new base first count → pairs_below ms links.items ≡ pairs.now) }
    ensures places { IfOk result (λ links. pairs_of_places links.items ≡ leaf_places first count) }
    ensures pointers { IfOk result (λ links. All IsPointer links.items) }
    ensures row { IfOk result (λ links. links.items ≡ index_links first count pairs.now) }
    ensures bytes { OnOk result (bank_part blocks.new (base + first) count ≡ row_blocks level first count pairs.now) }
    ensures indexed { OnOk result ((k : ℕ) → k < count → IsIndexed (slice_index_or blocks.new (base + first + k) [])) }
    ensures links { IfOk result (λ links. length links.items ≡ count) }
    ensures count { length blocks.new ≡ length blocks.old }
    ensures others { (k : ℕ) → (k < base + first) ⊎ (base + first + count ≤ k) → slice_index_or blocks.new k [] ≡ slice_index_or blocks.old k [] }
{
    let mut links = Vec::new(alloc);
    let mut start = 0;
    for i in 0..count {
        let share = share_of(pairs.len(), count, i);
        let mut block = blank();
        let before = before_at(first, i);
        let next = next_at(first, count, i + 1);
        put_index(
            level,
            &pairs[start..start + share],
            before,
            next,
            &mut block,
        );
        put_block(base + first + i, &block, blocks);
        links.push(link_to(&block, share, first + i))?;
        start += share;
    }
    Ok(links)
}

/// The pair of a node for an index block with so many pairs, which is number `place` of the index.
fn link_to(block: &[u8], count: usize, place: usize) -> Pair
    requires some { 1 ≤ count }
    requires most { count ≤ 504 }
    requires long { length block.now ≡ 4096 }
    requires low { place < 0x800000 }
    ensures hash { result.hash ≡ field_of block.now (56 + 8 * count) 4 }
    ensures address { result.address ≡ 0x800000 + place }
{
    Pair {
        hash: get32(block, 56 + PAIR_SIZE * count),
        address: INDEX_START + place as u64,
    }
}

/// The file block in front of number `i` of a row that begins with block `first` of the index.
fn before_at(first: usize, i: usize) -> u32
    requires { first + i ≤ 0x800000 }
    ensures { result ≡ before_at first i }
{
    if 0 < i {
        (INDEX_START as usize + first + i - 1) as u32
    } else {
        0
    }
}

/// The file block of number `i` of a row of `count` blocks that begins with block `first` of the index.
fn next_at(first: usize, count: usize, i: usize) -> u32
    requires { first + i ≤ 0x800000 }
    ensures { result ≡ next_at first count i }
{
    if i < count {
        (INDEX_START as usize + first + i) as u32
    } else {
        0
    }
}
