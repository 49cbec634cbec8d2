//! Whether the blocks of a directory are whole in one of the forms with blocks.

ghost use Rattle.std.specs.Prelude.{◌≡◌, ◌<◌, length, map, nat_le, count_by, IfOk, IfErr, slice_set};
ghost use Rattle.xfs_dirindex.specs.Block.{is_whole_block};
ghost use Rattle.xfs_dirindex.specs.Leaf.{is_whole_leaf};
ghost use Rattle.xfs_dirindex.specs.Mapped.{OffsetsAscend, mapped};
ghost use Rattle.xfs_dirindex.specs.Node.{is_whole_node};
ghost use Rattle.xfs_image.specs.Directories.{has_whole_form};
ghost use Rattle.xfs_dirs.specs.declared.gathered.KeptBlock.{KeptBlock};
ghost use Rattle.xfs_dirs.specs.Gathered.{BlocksInOrder, AscendWhole, is_whole_kept, mapped_of_kept};

use crate::gathered::{KeptBlock, KeptBlocks};
use std::alloc::Global;
use xfs_collections::BlockBank;
use xfs_dirindex::layouts::INDEX_START;
use xfs_dirindex::{DirSeen, IndexFault, check_block, check_leaf, check_node};
use xfs_disk::NoMemory;

/// Whether the blocks of a directory of this size, in bytes, are all kept, and are whole in one of the forms (chapter
/// "Directories").
pub fn is_whole_directory(
    alloc: Global,
    dir: u64,
    size: u64,
    kept: &Option<KeptBlocks>,
) -> Result<bool, NoMemory>
    requires { BlocksInOrder kept.now }
    ensures { IfOk result (λ whole. whole ≡ is_whole_kept dir size (mapped_of_kept kept.now)) }
{
    match kept {
        None => Ok(false),
        Some(kept) => has_whole_form(alloc, &seen_of(alloc, dir, size, &kept.blocks)?),
    }
}

/// The blocks as they are checked.
fn seen_of(alloc: Global, dir: u64, size: u64, kept: &[KeptBlock]) -> Result<DirSeen, NoMemory>
    requires { AscendWhole 0 kept.now }
    ensures dir { IfOk result (λ seen. seen.dir ≡ dir) }
    ensures size { IfOk result (λ seen. seen.size ≡ size) }
    ensures offsets { IfOk result (λ seen. seen.offsets.items ≡ map (λ (k : KeptBlock). k.offset) kept.now) }
    ensures blocks { IfOk result (λ seen. seen.blocks ≡ map (λ (k : KeptBlock). k.bytes) kept.now) }
{
    let mut offsets = Vec::with_capacity(alloc, kept.len())?;
    let mut blocks = BlockBank::make(alloc, kept.len())?;
    for i in 0..kept.len() {
        offsets.push(kept[i].offset)?;
        put_block(i, kept[i].bytes.bytes(), &mut blocks);
    }
    Ok(DirSeen {
        dir,
        size,
        offsets,
        blocks,
    })
}

/// Puts a block in the place of block `i` of a bank.
fn put_block(i: usize, block: &[u8], blocks: &mut BlockBank)
    requires inside { i < length blocks.old }
    requires whole { length block.now ≡ 4096 }
    ensures { blocks.new ≡ slice_set blocks.old i block.now }
{
    blocks.view_mut(i).copy_from_slice(block);
}

/// Whether blocks are whole in one of the forms.
fn has_whole_form(alloc: Global, seen: &DirSeen) -> Result<bool, NoMemory>
    requires mapped { length seen.now.blocks ≡ length seen.now.offsets.items }
    requires ascending { OffsetsAscend 0 seen.now.offsets.items }
    ensures { IfOk result (λ whole. whole ≡ has_whole_form seen.now.dir seen.now.size (mapped seen.now.offsets.items seen.now.blocks)) }
{
    if is_block(alloc, seen)? {
        return Ok(true);
    }
    if is_leaf(alloc, seen)? {
        return Ok(true);
    }
    is_node(alloc, seen)
}

/// Whether blocks are whole in the single-block form.
fn is_block(alloc: Global, seen: &DirSeen) -> Result<bool, NoMemory>
    requires { length seen.now.blocks ≡ length seen.now.offsets.items }
    ensures { IfOk result (λ whole. whole ≡ is_whole_block seen.now.dir seen.now.size (mapped seen.now.offsets.items seen.now.blocks)) }
{
    match check_block(alloc, seen) {
        Ok(()) => Ok(true),
        Err(IndexFault::Unsound) => Ok(false),
        Err(IndexFault::NoMemory) => Err(NoMemory),
    }
}

/// Whether blocks are whole in the leaf form, which has one block behind the data blocks.
fn is_leaf(alloc: Global, seen: &DirSeen) -> Result<bool, NoMemory>
    requires mapped { length seen.now.blocks ≡ length seen.now.offsets.items }
    requires ascending { OffsetsAscend 0 seen.now.offsets.items }
    ensures { IfOk result (λ whole. whole ≡ is_whole_leaf seen.now.dir seen.now.size (mapped seen.now.offsets.items seen.now.blocks)) }
{
    if beyond(&seen.offsets) != 1 {
        return Ok(false);
    }
    match check_leaf(alloc, seen) {
        Ok(()) => Ok(true),
        Err(IndexFault::Unsound) => Ok(false),
        Err(IndexFault::NoMemory) => Err(NoMemory),
    }
}

/// How many of these file blocks stand behind the data blocks.
fn beyond(offsets: &[u64]) -> usize
    ensures { result ≡ count_by (nat_le 0x800000) offsets.now }
{
    let mut count = 0;
    for offset in offsets {
        if *offset >= INDEX_START {
            count += 1;
        }
    }
    count
}

/// Whether blocks are whole in the node form.
fn is_node(alloc: Global, seen: &DirSeen) -> Result<bool, NoMemory>
    requires mapped { length seen.now.blocks ≡ length seen.now.offsets.items }
    requires ascending { OffsetsAscend 0 seen.now.offsets.items }
    ensures { IfOk result (λ whole. whole ≡ is_whole_node seen.now.dir seen.now.size (mapped seen.now.offsets.items seen.now.blocks)) }
{
    match check_node(alloc, seen) {
        Ok(()) => Ok(true),
        Err(IndexFault::Unsound) => Ok(false),
        Err(IndexFault::NoMemory) => Err(NoMemory),
    }
}
