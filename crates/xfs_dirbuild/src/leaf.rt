//! The leaf form and the node form of a directory, built.

ghost use Rattle.std.specs.Prelude.{◌≡◌, ◌+◌, ◌<◌, ◌≤◌, ◌^◌, length, All, IfOk, IsTrue};
ghost use Rattle.xfs_dirdata.specs.Written.{IsWritableEntry};
ghost use Rattle.xfs_dirindex.specs.Data.{have_no_dots};
ghost use Rattle.xfs_dirbuild.specs.declared.forms.DirectoryForm.TheVariants.{Leaf, Node};
ghost use Rattle.xfs_dirbuild.specs.Blocks.{dir_blocks};
ghost use Rattle.xfs_dirbuild.specs.Forms.{data_count, fits_leaf, tree_count, value_blocks};
ghost use Rattle.xfs_dirbuild.specs.Placed.{HaveMagics, IsBuilt};

use crate::filling::{fill_blocks, sort_pairs};
use crate::forms::{data_count, tree_count, value_blocks};
use crate::free_blocks::put_free_blocks;
use crate::index_blocks::put_leaf;
use crate::tree::put_tree;
use crate::writing::{blank, put_block};
use std::alloc::Global;
use xfs_collections::BlockBank;
use xfs_dirdata::EntryRec;
use xfs_disk::NoMemory;

/// The blocks of a directory whose index fits one block: data blocks, and behind them the index block.
pub fn build_leaf(
    alloc: Global,
    entries: &[EntryRec],
    dir: u64,
    parent: u64,
) -> Result<BlockBank, NoMemory>
    requires writable { All IsWritableEntry entries.now }
    requires names { IsTrue (have_no_dots entries.now) }
    requires few { length entries.now ≤ 2 ^ 24 }
    requires dir { dir < 2 ^ 32 }
    requires parent { parent < 2 ^ 32 }
    requires fits { IsTrue (fits_leaf entries.now) }
    ensures count { IfOk result (λ blocks. length blocks ≡ data_count entries.now + 1) }
    ensures magics { IfOk result (λ blocks. HaveMagics (data_count entries.now) 1 0 blocks) }
    ensures whole { IfOk result (λ blocks. IsBuilt Leaf dir parent (data_count entries.now) 1 0 entries.now blocks) }
    ensures bytes { IfOk result (λ blocks. blocks ≡ dir_blocks Leaf dir parent entries.now) }
{
    let data = data_count(entries);
    let mut blocks = BlockBank::make(alloc, data + 1)?;
    let mut stated = fill_blocks(alloc, entries, dir, parent, &mut blocks)?;
    sort_pairs(&mut stated.pairs)?;
    let mut block = blank();
    put_leaf(&stated.pairs, &stated.rests, &mut block);
    put_block(data, &block, &mut blocks);
    Ok(blocks)
}

/// The blocks of a directory whose index is a tree: data blocks, behind them the tree, and behind it the free
/// blocks.
#[tactic(auto, unfolding(crate::specs::Forms::tree_count, crate::specs::Forms::value_blocks))]
pub fn build_node(
    alloc: Global,
    entries: &[EntryRec],
    dir: u64,
    parent: u64,
) -> Result<BlockBank, NoMemory>
    requires writable { All IsWritableEntry entries.now }
    requires names { IsTrue (have_no_dots entries.now) }
    requires few { length entries.now ≤ 2 ^ 24 }
    requires dir { dir < 2 ^ 32 }
    requires parent { parent < 2 ^ 32 }
    ensures count { IfOk result (λ blocks. length blocks ≡ data_count entries.now + tree_count (length entries.now + 2) + value_blocks (data_count entries.now)) }
    ensures magics { IfOk result (λ blocks. HaveMagics (data_count entries.now) (tree_count (length entries.now + 2)) (value_blocks (data_count entries.now)) blocks) }
    ensures whole { IfOk result (λ blocks. IsBuilt Node dir parent (data_count entries.now) (tree_count (length entries.now + 2)) (value_blocks (data_count entries.now)) entries.now blocks) }
    ensures bytes { IfOk result (λ blocks. blocks ≡ dir_blocks Node dir parent entries.now) }
{
    let data = data_count(entries);
    let index = tree_count(entries.len() + 2);
    let mut blocks = BlockBank::make(alloc, data + index + value_blocks(data))?;
    let mut stated = fill_blocks(alloc, entries, dir, parent, &mut blocks)?;
    sort_pairs(&mut stated.pairs)?;
    put_tree(alloc, &stated.pairs, data, &mut blocks)?;
    put_free_blocks(&stated.rests, data + index, &mut blocks);
    Ok(blocks)
}
