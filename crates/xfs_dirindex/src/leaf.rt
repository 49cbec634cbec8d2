//! The leaf form of a directory.

ghost use Rattle.std.specs.Prelude.{◌≡◌, ◌*◌, true, false, length, IfOk, IfErr, OnOk};
ghost use Rattle.std.specs.List.Sorted.{IsNonDecreasingBy};
ghost use Rattle.xfs_dirindex.specs.declared.data.Best.{Best};
ghost use Rattle.xfs_dirindex.specs.Faults.{OnUnsoundIndex};
ghost use Rattle.xfs_dirindex.specs.Mapped.{OffsetsAscend, mapped};
ghost use Rattle.xfs_dirindex.specs.Leaf.{end_of, is_leaf, is_whole_leaf};

use crate::data::{StatedData, read_blocks};
use crate::layouts::INDEX_START;
use crate::layouts::index_block::{
    COUNT, HEADER_SIZE, LEAF_MAGIC, MAGIC, STALE, VALUE_COUNT, VALUE_SIZE,
};
use crate::pairs::{PAIR_SIZE, is_index, read_pairs};
use crate::seen::{DirSeen, IndexFault};
use crate::values::{are_values, has_size};
use std::alloc::{AllocError, Global};
use xfs_disk::BLOCK_SIZE;
use xfs_word::{get16, get32};

/// Whether a directory is whole in the leaf form, apart from its seals. `Unsound` where it breaks a rule
/// of this form (chapter "Directories").
#[tactic(auto, unfolding(crate::specs::Leaf::is_whole_leaf))]
pub fn check_leaf(alloc: Global, dir: &DirSeen) -> Result<(), IndexFault>
    requires mapped { length dir.now.blocks ≡ length dir.now.offsets.items }
    requires ascending { OffsetsAscend 0 dir.now.offsets.items }
    ensures whole { OnOk result (is_whole_leaf dir.now.dir dir.now.size (mapped dir.now.offsets.items dir.now.blocks) ≡ true) }
    ensures unsound { IfErr result (λ fault. OnUnsoundIndex fault (is_whole_leaf dir.now.dir dir.now.size (mapped dir.now.offsets.items dir.now.blocks) ≡ false)) }
{
    let taken = match read_blocks(alloc, dir) {
        Ok(taken) => taken,
        Err(fault) => return Err(fault),
    };
    if !has_size(&taken.bests, dir.size) {
        return Err(IndexFault::Unsound);
    }
    let data_blocks = taken.bests.len();
    if dir.blocks.len() != data_blocks + 1 {
        return Err(IndexFault::Unsound);
    }
    if dir.offsets[data_blocks] != INDEX_START {
        return Err(IndexFault::Unsound);
    }
    let end = dir.size / BLOCK_SIZE as u64;
    if is_leaf(alloc, &taken, end, dir.blocks.view(data_blocks))? {
        Ok(())
    } else {
        Err(IndexFault::Unsound)
    }
}

/// Whether the index block of a directory keeps the rules of this form; `end` is the number of file
/// blocks up to the last data block.
#[tactic(auto, unfolding(crate::specs::Leaf::is_leaf))]
fn is_leaf(alloc: Global, taken: &StatedData, end: u64, bytes: &[u8]) -> Result<bool, AllocError>
    requires block { length bytes.now ≡ 4096 }
    requires end { end ≡ end_of taken.now.bests.items }
    requires rise { IsNonDecreasingBy (λ (b : Best). b.offset) taken.now.bests.items }
    ensures { IfOk result (λ sound. sound ≡ is_leaf taken.now.bests.items taken.now.due.items bytes.now) }
{
    if get16(bytes, MAGIC.offset) != LEAF_MAGIC {
        return Ok(false);
    }
    let count = get16(bytes, COUNT.offset) as usize;
    let values = get32(bytes, VALUE_COUNT.offset) as usize;
    if HEADER_SIZE + PAIR_SIZE * count + VALUE_SIZE * values > VALUE_COUNT.offset {
        return Ok(false);
    }
    let pairs = read_pairs(alloc, bytes, HEADER_SIZE, count)?;
    let stale = get16(bytes, STALE.offset) as usize;
    if !is_index(alloc, &pairs, stale, &taken.due)? {
        return Ok(false);
    }
    if (values as u64) < end {
        return Ok(false);
    }
    Ok(are_values(
        &taken.bests,
        bytes,
        VALUE_COUNT.offset - VALUE_SIZE * values,
        0,
        values,
    ))
}
