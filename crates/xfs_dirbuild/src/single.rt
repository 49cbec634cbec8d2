//! The single-block form of a directory, built.

ghost use Rattle.std.specs.Prelude.{◌≡◌, ℕ, [], ◌+◌, ◌-◌, ◌*◌, ◌<◌, ◌≤◌, ◌^◌, ◌%◌, length, All, IfOk, OnOk, IsTrue, Some, slice_index_or};
ghost use Rattle.xfs_word.specs.Field.{field_of, part_of};
ghost use Rattle.xfs_dirdata.specs.Data.{area_of};
ghost use Rattle.xfs_dirdata.specs.Written.{IsWritableEntry, data_length, written_area};
ghost use Rattle.xfs_dirindex.specs.Pairs.{pairs_at};
ghost use Rattle.xfs_dirindex.specs.Data.{have_no_dots};
ghost use Rattle.xfs_dirbuild.specs.declared.forms.DirectoryForm.TheVariants.{Single};
ghost use Rattle.xfs_dirbuild.specs.Blocks.{area_bytes, single_block, dir_blocks};
ghost use Rattle.xfs_dirbuild.specs.Filling.{all_entries};
ghost use Rattle.xfs_dirbuild.specs.Index.{IsPointer};
ghost use Rattle.xfs_dirbuild.specs.Placed.{HaveMagics, IsBuilt};
ghost use Rattle.xfs_dirbuild.specs.Private.SingleBlock.{IsSingleBlock};
ghost use Rattle.xfs_dirbuild.specs.Forms.{fits_single};

use crate::filling::{add_first, add_pairs, sort_pairs};
use crate::writing::{put_block, put_pairs};
use std::alloc::Global;
use xfs_collections::BlockBank;
use xfs_dirdata::layouts::data_block::{COUNT, STALE};
use xfs_dirdata::{EntryRec, put_data};
use xfs_dirindex::layouts::data_magic;
use xfs_dirindex::{PAIR_SIZE, Pair};
use xfs_disk::{BLOCK_SIZE, NoMemory};
use xfs_word::{put_part, put32};

/// The one block of a directory whose entries and index fit it.
#[tactic(auto, unfolding(crate::specs::Forms::fits_single))]
pub fn build_single(
    alloc: Global,
    entries: &[EntryRec],
    dir: u64,
    parent: u64,
) -> Result<BlockBank, NoMemory>
    requires writable { All IsWritableEntry entries.now }
    requires names { IsTrue (have_no_dots entries.now) }
    requires dir { dir < 2 ^ 32 }
    requires parent { parent < 2 ^ 32 }
    requires fits { IsTrue (fits_single entries.now) }
    ensures count { IfOk result (λ blocks. length blocks ≡ 1) }
    ensures magics { IfOk result (λ blocks. HaveMagics 1 0 0 blocks) }
    ensures whole { IfOk result (λ blocks. IsBuilt Single dir parent 1 0 0 entries.now blocks) }
    ensures bytes { IfOk result (λ blocks. blocks ≡ dir_blocks Single dir parent entries.now) }
{
    let mut pairs = Vec::new(alloc);
    let start = add_first(Some((dir, parent)), 0, &mut pairs)?;
    add_pairs(entries, 0, start, &mut pairs)?;
    sort_pairs(&mut pairs)?;
    let mut block = [0; BLOCK_SIZE];
    put_single(alloc, entries, dir, parent, &pairs, &mut block)?;
    let mut blocks = BlockBank::make(alloc, 1)?;
    put_block(0, &block, &mut blocks);
    Ok(blocks)
}

/// Writes the entries, the pairs and the tail.
fn put_single(
    alloc: Global,
    entries: &[EntryRec],
    dir: u64,
    parent: u64,
    pairs: &[Pair],
    block: &mut [u8],
) -> Result<(), NoMemory>
    requires writable { All IsWritableEntry entries.now }
    requires dir { dir < 2 ^ 32 }
    requires parent { parent < 2 ^ 32 }
    requires pointers { All IsPointer pairs.now }
    requires all { length pairs.now ≡ length entries.now + 2 }
    requires fit { 96 + data_length entries.now + 8 * length pairs.now + 8 ≤ 4096 }
    requires long { length block.old ≡ 4096 }
    ensures stands { OnOk result (IsSingleBlock dir parent entries.now pairs.now block.new) }
    ensures bytes { OnOk result (block.new ≡ single_block (all_entries dir parent entries.now) pairs.now) }
{
    let end = COUNT.offset - PAIR_SIZE * pairs.len();
    put_area(alloc, entries, dir, parent, end, block)?;
    put32(block, COUNT.offset, pairs.len() as u32);
    put32(block, STALE.offset, 0);
    put_pairs(pairs, end, block);
    Ok(())
}

/// Writes the entries of a block whose index begins at the byte offset `end`, and what stands in front of them.
fn put_area(
    alloc: Global,
    entries: &[EntryRec],
    dir: u64,
    parent: u64,
    end: usize,
    block: &mut [u8],
) -> Result<(), NoMemory>
    requires writable { All IsWritableEntry entries.now }
    requires dir { dir < 2 ^ 32 }
    requires parent { parent < 2 ^ 32 }
    requires fit { 96 + data_length entries.now ≤ end }
    requires end { end ≤ length block.old }
    requires whole { end % 8 ≡ 0 }
    requires long { length block.old ≡ 4096 }
    ensures magic { OnOk result (field_of block.new 0 4 ≡ 0x58444233) }
    ensures area { OnOk result ((d : ℕ) → area_of d (part_of block.new 0 end) ≡ Some (written_area d (all_entries dir parent entries.now) end)) }
    ensures bytes { OnOk result (part_of block.new 0 end ≡ area_bytes (all_entries dir parent entries.now) end) }
{
    let mut bytes = vec![in alloc; 0; end]?;
    let area = bytes.as_mut_slice();
    put32(area, 0, data_magic(true));
    put_data(entries, Some((dir, parent)), area);
    put_part(block, 0, area);
    Ok(())
}
