//! Superblocks that are written anew from an accepted one.

ghost use Rattle.std.specs.Prelude.{◌≡◌, ℕ, ◌+◌, ◌%◌, ◌^◌, ◌<◌, ◌≤◌, length, None, IsTrue};
ghost use Rattle.xfs_word.specs.Field.{field_of, KeepsBeside, KeepsParts};
ghost use Rattle.xfs_word.specs.Seal.{is_ready, is_sealed};
ghost use Rattle.xfs_geom.specs.Stated.{stated};
ghost use Rattle.xfs_geom.specs.Superblocks.{super_fault, super_seal};
ghost use Rattle.xfs_geom.specs.Volumes.{stated_volume};
ghost use Rattle.xfs_geom.specs.Writing.{IsAcceptedSector, IsSuperOf};

use crate::reading::super_seal;
use crate::records::Counts;
use crate::superblock::{
    FDBLOCKS, FREXTENTS, ICOUNT, IFREE, INPROGRESS, LSN, RBMINO, ROOTINO, RSUMINO,
};
use xfs_word::{get64, put8, put64, seal};

/// Writes a superblock with these counters, sealed. All else is the base's, but that the superblock
/// states its system inodes, no log sequence number, and that it is complete.
pub fn write_super(base: &[u8], counts: &Counts, sector: &mut [u8])
    requires base { length base.now ≡ 512 }
    requires accepted { IsAcceptedSector base.now }
    requires sector { length sector.old ≡ 512 }
    ensures written { IsSuperOf base.now counts.now sector.new }
    ensures accepted { (place blocks : ℕ) → place % (stated base.now).agblocks ≡ 0 → place < (stated base.now).dblocks → (stated base.now).dblocks ≤ blocks
        → super_fault sector.new place blocks ≡ None }
    ensures primary { (blocks : ℕ) → (stated base.now).dblocks ≤ blocks → super_fault sector.new 0 blocks ≡ None }
    ensures states { stated_volume sector.new ≡ stated_volume base.now }
{
    let rootino = get64(base, ROOTINO.offset);
    sector.copy_from_slice(base);
    put_system_inodes(sector, rootino);
    put8(sector, INPROGRESS.offset, 0);
    put_counters(sector, counts);
    put64(sector, LSN.offset, 0);
    seal_super(sector);
}

/// Seals a superblock in which all but the checksum is right.
fn seal_super(sector: &mut [u8])
    requires sector { length sector.old ≡ 512 }
    requires ready { IsTrue (is_ready super_seal sector.old) }
    ensures sealed { IsTrue (is_sealed super_seal sector.new) }
    ensures keeps { KeepsBeside sector.old sector.new 224 4 }
    ensures keeps_parts { KeepsParts sector.old sector.new 224 4 }
{
    seal(&super_seal(), sector);
}

/// Writes the numbers of the two system inodes, which follow the root.
fn put_system_inodes(sector: &mut [u8], rootino: u64)
    requires sector { length sector.old ≡ 512 }
    requires low { rootino + 2 < 2 ^ 64 }
    ensures rbmino { field_of sector.new 64 8 ≡ rootino + 1 }
    ensures rsumino { field_of sector.new 72 8 ≡ rootino + 2 }
    ensures keeps { KeepsBeside sector.old sector.new 64 16 }
    ensures keeps_parts { KeepsParts sector.old sector.new 64 16 }
{
    put64(sector, RBMINO.offset, rootino + 1);
    put64(sector, RSUMINO.offset, rootino + 2);
}

/// Writes the counters, that of real-time extents as 0.
fn put_counters(sector: &mut [u8], counts: &Counts)
    requires sector { length sector.old ≡ 512 }
    ensures icount { field_of sector.new 128 8 ≡ counts.now.icount }
    ensures ifree { field_of sector.new 136 8 ≡ counts.now.ifree }
    ensures fdblocks { field_of sector.new 144 8 ≡ counts.now.fdblocks }
    ensures frextents { field_of sector.new 152 8 ≡ 0 }
    ensures keeps { KeepsBeside sector.old sector.new 128 32 }
    ensures keeps_parts { KeepsParts sector.old sector.new 128 32 }
{
    put64(sector, ICOUNT.offset, counts.icount);
    put64(sector, IFREE.offset, counts.ifree);
    put64(sector, FDBLOCKS.offset, counts.fdblocks);
    put64(sector, FREXTENTS.offset, 0);
}
