//! The first block of an allocation group: eight sectors, of which the first four are headers.

ghost use Rattle.std.specs.Prelude.{◌≡◌, ℕ, ◌+◌, ◌<◌, ◌≤◌, length, Some};
ghost use Rattle.xfs_word.specs.Crc.{little_field_of};
ghost use Rattle.xfs_word.specs.Field.{KeepsParts, field_of, part_of, IsZero};
ghost use Rattle.xfs_geom.specs.Volumes.{volume_of};
ghost use Rattle.xfs_heads.specs.FreeList.{agfl_of};
ghost use Rattle.xfs_heads.specs.FreeSpace.{agf_of};
ghost use Rattle.xfs_heads.specs.Heads.{numbers};
ghost use Rattle.xfs_heads.specs.Inodes.{agi_of};
ghost use Rattle.xfs_render.specs.Groups.{IsSoundGroup, due_agf, due_agi, due_agfl};
ghost use Rattle.xfs_render.specs.HeaderBlocks.{IsHeaderBlock};

use crate::heads::{due_agf, due_agi};
use xfs_geom::{Geometry, InoRec};
use xfs_heads::{Agfl, put_agf, put_agfl, put_agi};
use xfs_place::GroupPlaced;
use xfs_word::{part, put_part};

/// Writes the first block of a group: a superblock, the headers of the group as they are due, and what stood behind
/// them.
pub fn put_headers(
    g: &Geometry,
    ag: u32,
    inodes: &[InoRec],
    placed: &GroupPlaced,
    sector: &[u8],
    old: &[u8],
    block: &mut [u8],
)
    requires group { ag < g.now.agcount }
    requires sound { IsSoundGroup (volume_of g.now) ag inodes.now placed.now }
    requires sector { length sector.now ≡ 512 }
    requires old { length old.now ≡ 4096 }
    requires block { length block.old ≡ 4096 }
    ensures { IsHeaderBlock (volume_of g.now) ag sector.now old.now inodes.now placed.now block.new }
{
    put_part(block, 2048, part(old, 2048, 2048));
    put_sector(sector, 0, block);
    put_free_space(g, ag, inodes, placed, block);
    put_inodes(g, ag, inodes, placed, block);
    put_free_list(g, ag, inodes, placed, block);
}

/// Writes the header of free space into its sector.
fn put_free_space(g: &Geometry, ag: u32, inodes: &[InoRec], placed: &GroupPlaced, block: &mut [u8])
    requires group { ag < g.now.agcount }
    requires sound { IsSoundGroup (volume_of g.now) ag inodes.now placed.now }
    requires block { length block.old ≡ 4096 }
    ensures agf { agf_of (volume_of g.now) ag (part_of block.new 512 512)
        ≡ Some (record (due_agf (volume_of g.now) ag placed.now) { crc = little_field_of (part_of block.new 512 512) 216 4 }) }
    ensures zero_before_lsn { IsZero (part_of block.new 512 512) 84 124 }
    ensures zero_behind_crc { IsZero (part_of block.new 512 512) 220 292 }
    ensures keeps { KeepsParts block.old block.new 512 512 }
{
    let mut sector = [0; 512];
    put_agf(g, ag, &due_agf(g, ag, inodes, placed), &mut sector);
    put_sector(&sector, 512, block);
}

/// Writes the header of inodes into its sector.
fn put_inodes(g: &Geometry, ag: u32, inodes: &[InoRec], placed: &GroupPlaced, block: &mut [u8])
    requires group { ag < g.now.agcount }
    requires sound { IsSoundGroup (volume_of g.now) ag inodes.now placed.now }
    requires block { length block.old ≡ 4096 }
    ensures agi { agi_of (volume_of g.now) ag (part_of block.new 1024 512)
        ≡ Some (record (due_agi (volume_of g.now) ag inodes.now placed.now) { crc = little_field_of (part_of block.new 1024 512) 312 4 }) }
    ensures zero_behind_crc { IsZero (part_of block.new 1024 512) 316 4 }
    ensures zero_behind_levels { IsZero (part_of block.new 1024 512) 336 176 }
    ensures keeps { KeepsParts block.old block.new 1024 512 }
{
    let mut sector = [0; 512];
    put_agi(g, ag, &due_agi(g, ag, inodes, placed), &mut sector);
    put_sector(&sector, 1024, block);
}

/// Writes the free list into its sector.
fn put_free_list(g: &Geometry, ag: u32, inodes: &[InoRec], placed: &GroupPlaced, block: &mut [u8])
    requires group { ag < g.now.agcount }
    requires sound { IsSoundGroup (volume_of g.now) ag inodes.now placed.now }
    requires block { length block.old ≡ 4096 }
    ensures agfl { (crc : ℕ) → agfl_of (volume_of g.now) ag (record (due_agf (volume_of g.now) ag placed.now) { crc = crc }) (part_of block.new 1536 512)
        ≡ Some (due_agfl placed.now) }
    ensures entries { numbers (part_of block.new 1536 512) 36 119 ≡ (due_agfl placed.now).entries }
    ensures lsn { field_of (part_of block.new 1536 512) 24 8 ≡ 0 }
    ensures keeps { KeepsParts block.old block.new 1536 512 }
{
    let mut sector = [0; 512];
    put_agfl(g, ag, &Agfl::new(placed.agfl.as_slice()), &mut sector);
    put_sector(&sector, 1536, block);
}

/// Writes a sector at a byte offset of a block.
fn put_sector(sector: &[u8], at: usize, block: &mut [u8])
    requires sector { length sector.now ≡ 512 }
    requires inside { at + 512 ≤ length block.old }
    ensures put { part_of block.new at 512 ≡ sector.now }
    ensures keeps { KeepsParts block.old block.new at 512 }
{
    put_part(block, at, sector);
}
