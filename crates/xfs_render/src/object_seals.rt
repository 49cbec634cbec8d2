//! The seals of blocks of objects: each block states the sector and the inode that it is of, and the volume, and has a checksum.

ghost use Rattle.std.specs.Prelude.{◌≡◌, ◌<◌, ◌*◌, length, Some, IsTrue};
ghost use Rattle.xfs_word.specs.Field.{KeepsBeside, SameBeside, field_of, part_of};
ghost use Rattle.xfs_word.specs.Seal.{has_magic, is_ready, is_sealed, layout_of};
ghost use Rattle.xfs_geom.specs.Volumes.{volume_of};
ghost use Rattle.xfs_render.specs.Objects.{IsSealedBlock, object_seal};

use crate::object_blocks::ObjectBlock;
use xfs_geom::Geometry;
use xfs_word::{Seal, SealKind, get16, put_part, put64, seal};

/// The sectors of a block.
const SECTORS: u64 = 8;

/// Seals a data block of a directory, or its only block.
pub fn seal_data(g: &Geometry, at: &ObjectBlock, block: &mut [u8])
    requires inside { at.now.place < g.now.dblocks }
    requires block { length block.old ≡ 4096 }
    ensures { IsSealedBlock (object_seal (volume_of g.now) SealKind.DirData at.now) block.old block.new }
{
    state_data(g, at, block);
    seal_block(g, SealKind::DirData, at, block);
}

/// Seals a free block of a directory.
pub fn seal_free(g: &Geometry, at: &ObjectBlock, block: &mut [u8])
    requires inside { at.now.place < g.now.dblocks }
    requires block { length block.old ≡ 4096 }
    ensures { IsSealedBlock (object_seal (volume_of g.now) SealKind.DirFree at.now) block.old block.new }
{
    state_data(g, at, block);
    seal_block(g, SealKind::DirFree, at, block);
}

/// Seals a block of the index of a directory, by the magic number that it has.
pub fn seal_index(g: &Geometry, at: &ObjectBlock, block: &mut [u8])
    requires inside { at.now.place < g.now.dblocks }
    requires block { length block.old ≡ 4096 }
    ensures { IsSealedBlock (object_seal (volume_of g.now) (SealKind.Index (field_of block.old 8 2)) at.now) block.old block.new }
{
    let magic = get16(block, 8);
    state_index(g, at, block);
    seal_block(g, SealKind::Index { magic }, at, block);
}

/// Seals the block of a symbolic link.
pub fn seal_link(g: &Geometry, at: &ObjectBlock, block: &mut [u8])
    requires inside { at.now.place < g.now.dblocks }
    requires block { length block.old ≡ 4096 }
    ensures { IsSealedBlock (object_seal (volume_of g.now) SealKind.Symlink at.now) block.old block.new }
{
    state_link(g, at, block);
    seal_block(g, SealKind::Symlink, at, block);
}

/// Writes what a data block or a free block of a directory states of itself, but for its checksum.
fn state_data(g: &Geometry, at: &ObjectBlock, block: &mut [u8])
    requires inside { at.now.place < g.now.dblocks }
    requires block { length block.old ≡ 4096 }
    ensures place { field_of block.new 8 8 ≡ 8 * at.now.place }
    ensures lsn { field_of block.new 16 8 ≡ 0 }
    ensures uuid { part_of block.new 24 16 ≡ g.now.uuid }
    ensures owner { field_of block.new 40 8 ≡ at.now.owner }
    ensures keeps { KeepsBeside block.old block.new 8 40 }
    ensures others { SameBeside block.old block.new 8 40 }
{
    put64(block, 8, SECTORS * at.place);
    put64(block, 16, 0);
    put_part(block, 24, &g.uuid);
    put64(block, 40, at.owner);
}

/// Writes what a block of an index states of itself, but for its checksum.
fn state_index(g: &Geometry, at: &ObjectBlock, block: &mut [u8])
    requires inside { at.now.place < g.now.dblocks }
    requires block { length block.old ≡ 4096 }
    ensures place { field_of block.new 16 8 ≡ 8 * at.now.place }
    ensures lsn { field_of block.new 24 8 ≡ 0 }
    ensures uuid { part_of block.new 32 16 ≡ g.now.uuid }
    ensures owner { field_of block.new 48 8 ≡ at.now.owner }
    ensures keeps { KeepsBeside block.old block.new 16 40 }
    ensures others { SameBeside block.old block.new 16 40 }
{
    put64(block, 16, SECTORS * at.place);
    put64(block, 24, 0);
    put_part(block, 32, &g.uuid);
    put64(block, 48, at.owner);
}

/// Writes what the block of a symbolic link states of itself, but for its checksum.
fn state_link(g: &Geometry, at: &ObjectBlock, block: &mut [u8])
    requires inside { at.now.place < g.now.dblocks }
    requires block { length block.old ≡ 4096 }
    ensures uuid { part_of block.new 16 16 ≡ g.now.uuid }
    ensures owner { field_of block.new 32 8 ≡ at.now.owner }
    ensures place { field_of block.new 40 8 ≡ 8 * at.now.place }
    ensures lsn { field_of block.new 48 8 ≡ 0 }
    ensures keeps { KeepsBeside block.old block.new 16 40 }
    ensures others { SameBeside block.old block.new 16 40 }
{
    put_part(block, 16, &g.uuid);
    put64(block, 32, at.owner);
    put64(block, 40, SECTORS * at.place);
    put64(block, 48, 0);
}

/// Writes the checksum of a block that states all else, which seals it.
fn seal_block(g: &Geometry, kind: SealKind, at: &ObjectBlock, block: &mut [u8])
    requires inside { at.now.place < g.now.dblocks }
    requires block { length block.old ≡ (layout_of kind).size }
    ensures sealed { IsTrue (is_ready (object_seal (volume_of g.now) kind at.now) block.old) → IsTrue (is_sealed (object_seal (volume_of g.now) kind at.now) block.new) }
    ensures keeps { KeepsBeside block.old block.new (layout_of kind).checksum 4 }
    ensures others { SameBeside block.old block.new (layout_of kind).checksum 4 }
{
    let what = Seal {
        kind,
        place: SECTORS * at.place,
        owner: Some(at.owner),
        uuid: g.uuid,
    };
    seal(&what, block);
}
