//! The single-block form of a directory.

ghost use Rattle.std.specs.Prelude.{◌≡◌, true, false, length, IfErr, OnOk};
ghost use Rattle.xfs_dirindex.specs.Faults.{OnUnsoundIndex};
ghost use Rattle.xfs_dirindex.specs.Mapped.{mapped_block, mapped};
ghost use Rattle.xfs_dirindex.specs.Block.{is_single, is_whole_block};

use crate::data::{StatedData, take_first};
use crate::pairs::{PAIR_SIZE, is_index, read_pairs};
use crate::seen::{DirSeen, IndexFault};
use std::alloc::Global;
use xfs_dirdata::layouts::data_block::{COUNT, HEADER_SIZE, STALE};
use xfs_disk::BLOCK_SIZE;
use xfs_word::get32;

/// Whether a directory is whole in the single-block form, apart from its seal. `Unsound` where it breaks a
/// rule of this form (chapter "Directories").
pub fn check_block(alloc: Global, dir: &DirSeen) -> Result<(), IndexFault>
    requires mapped { length dir.now.blocks ≡ length dir.now.offsets.items }
    ensures whole { OnOk result (is_whole_block dir.now.dir dir.now.size (mapped dir.now.offsets.items dir.now.blocks) ≡ true) }
    ensures unsound { IfErr result (λ fault. OnUnsoundIndex fault (is_whole_block dir.now.dir dir.now.size (mapped dir.now.offsets.items dir.now.blocks) ≡ false)) }
{
    if dir.size != BLOCK_SIZE as u64 {
        return Err(IndexFault::Unsound);
    }
    if dir.blocks.len() != 1 {
        return Err(IndexFault::Unsound);
    }
    check_single(alloc, dir.dir, dir.offsets[0], dir.blocks.view(0))
}

/// Whether the only block of a directory keeps the rules of this form.
#[tactic(auto, unfolding(crate::specs::Block::is_single))]
fn check_single(alloc: Global, dir: u64, offset: u64, block: &[u8]) -> Result<(), IndexFault>
    requires { length block.now ≡ 4096 }
    ensures whole { OnOk result (is_single dir (mapped_block offset block.now) ≡ true) }
    ensures unsound { IfErr result (λ fault. OnUnsoundIndex fault (is_single dir (mapped_block offset block.now) ≡ false)) }
{
    let count = get32(block, COUNT.offset) as usize;
    if COUNT.offset - HEADER_SIZE < PAIR_SIZE * count {
        return Err(IndexFault::Unsound);
    }
    let mut taken = StatedData::new(alloc);
    match take_first(alloc, dir, true, offset, block, &mut taken) {
        Ok(()) => {}
        Err(fault) => return Err(fault),
    }
    let pairs = read_pairs(alloc, block, COUNT.offset - PAIR_SIZE * count, count)?;
    let stale = get32(block, STALE.offset) as usize;
    if is_index(alloc, &pairs, stale, &taken.due)? {
        Ok(())
    } else {
        Err(IndexFault::Unsound)
    }
}
