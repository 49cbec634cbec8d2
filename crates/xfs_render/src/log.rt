//! The blocks of a blank log (chapter "Journaling Log").

ghost use Rattle.std.specs.Prelude.{◌≡◌, ◌≤◌, ◌<◌, ◌+◌, ◌*◌, ◌^◌, length, OnOk};
ghost use Rattle.xfs_word.specs.Field.{KeepsParts};
ghost use Rattle.xfs_geom.specs.Volumes.{volume_of};
ghost use Rattle.xfs_render.specs.Drafts.{IsDraft, last_block};
ghost use Rattle.xfs_render.specs.Logs.{AddsLog, AddsRest, IsBlankAt, IsBlankBlock, sector_of};

use crate::draft::Draft;
use xfs_disk::{BLOCK_SIZE, NoMemory};
use xfs_geom::Geometry;
use xfs_log::blank_log_sector;
use xfs_word::put_part;

/// Puts down the blocks of a blank log of a cycle. From the second on all have the same bytes.
pub fn add_log(g: &Geometry, cycle: u32, draft: &mut Draft) -> Result<(), NoMemory>
    requires some { 1 ≤ cycle }
    requires few { cycle < 2 ^ 31 }
    requires draft { IsDraft draft.old }
    ensures { OnOk result (AddsLog (volume_of g.now) cycle draft.old draft.new) }
{
    let mut block = [0; BLOCK_SIZE];
    put_block(cycle, 0, &g.uuid, &mut block);
    draft.add_block(g.log, &block)?;
    put_block(cycle, 1, &g.uuid, &mut block);
    draft.add_block(g.log + 1, &block)?;
    add_rest(g, cycle, draft)?;
    Ok(())
}

/// Puts down the blocks of a blank log behind its second one, with the bytes of that one, which stands last.
fn add_rest(g: &Geometry, _cycle: u32, draft: &mut Draft) -> Result<(), NoMemory>
    requires draft { IsDraft draft.old }
    requires some { 1 ≤ length draft.old.bank }
    requires last { IsBlankBlock _cycle g.now.uuid 1 (last_block draft.old.bank) }
    ensures { OnOk result (AddsRest (volume_of g.now) _cycle g.now.logblocks draft.old draft.new) }
{
    for i in 2..g.logblocks {
        draft.add_again(g.log + i as u64)?;
    }
    Ok(())
}

/// Writes a block of a blank log.
fn put_block(cycle: u32, number: u32, uuid: &[u8; 16], block: &mut [u8])
    requires some { 1 ≤ cycle }
    requires few { cycle < 2 ^ 31 }
    requires block { length block.old ≡ 4096 }
    ensures { IsBlankBlock cycle uuid.now number block.new }
{
    for k in 0..8 {
        put_sector(cycle, 8 * number as u64 + k as u64, uuid, k, block);
    }
}

/// Writes the sector of a blank log at a place, as one of the eight of its block.
fn put_sector(cycle: u32, place: u64, uuid: &[u8; 16], k: usize, block: &mut [u8])
    requires some { 1 ≤ cycle }
    requires few { cycle < 2 ^ 31 }
    requires sector { k < 8 }
    requires block { length block.old ≡ 4096 }
    ensures blank { IsBlankAt cycle uuid.now place (sector_of block.new k) }
    ensures keeps { KeepsParts block.old block.new (512 * k) 512 }
{
    let mut sector = [0; 512];
    blank_log_sector(cycle, place, uuid, &mut sector);
    put_part(block, 512 * k, &sector);
}
