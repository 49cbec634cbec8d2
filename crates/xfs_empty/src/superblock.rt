//! The superblock of a new volume (chapter "Superblocks").

ghost use Rattle.std.specs.Prelude.{◌≡◌, ℕ, ◌+◌, ◌-◌, ◌≤◌, ◌<◌, ◌^◌, length, replicate, IsTrue};
ghost use Rattle.xfs_word.specs.Field.{KeepsBeside, KeepsParts, part_of};
ghost use Rattle.xfs_word.specs.Seal.{is_ready, is_sealed};
ghost use Rattle.xfs_geom.specs.Superblocks.{super_seal};
ghost use Rattle.xfs_geom.specs.Volumes.{stated_volume, volume_of};
ghost use Rattle.xfs_geom.specs.Writing.{IsAcceptedSector};
ghost use Rattle.xfs_empty.specs.Supers.{HasLabel, HasNumbers, IsNewSuper, counter_numbers, feature_numbers, part_numbers, place_numbers, size_numbers};

use xfs_geom::Geometry;
use xfs_geom::superblock::*;
use xfs_word::{Seal, SealKind, put_part, put8, put16, put32, put64, seal};

/// Writes the superblock of a new volume of this geometry with this label, of at most 12 bytes. Its counters are 0.
pub fn put_super(g: &Geometry, label: &[u8], sector: &mut [u8; 512])
    requires label { length label.now ≤ 12 }
    requires no_sectors { g.now.logsectlog ≡ 0 }
    requires low { g.now.rootino < 2 ^ 32 }
    ensures fields { IsNewSuper (volume_of g.now) label.now sector.new }
    ensures accepted { IsAcceptedSector sector.new }
    ensures states { stated_volume sector.new ≡ volume_of g.now }
{
    *sector = [0; SECTOR_SIZE];
    put_places(g, sector);
    put_parts(g, sector);
    put_sizes(g, label, sector);
    put_counters(sector);
    put_features(sector);
    seal_super(sector);
}

/// Writes what kind of object it is, the volume's blocks and identifier, and where the log begins, up to byte 56.
fn put_places(g: &Geometry, sector: &mut [u8])
    requires sector { length sector.old ≡ 512 }
    ensures numbers { HasNumbers sector.new (place_numbers (volume_of g.now)) }
    ensures uuid { part_of sector.new 32 16 ≡ g.now.uuid }
    ensures keeps { KeepsBeside sector.old sector.new 0 56 }
    ensures keeps_parts { KeepsParts sector.old sector.new 0 56 }
{
    put32(sector, MAGICNUM.offset, 0x5846_5342);
    put32(sector, BLOCKSIZE.offset, 4096);
    put64(sector, DBLOCKS.offset, g.dblocks);
    put64(sector, RBLOCKS.offset, 0);
    put64(sector, REXTENTS.offset, 0);
    put_part(sector, UUID.offset, &g.uuid);
    put64(sector, LOGSTART.offset, g.address_of_block(g.log));
}

/// Writes its first inodes, its groups and the blocks of its log, from byte 56 up to byte 100.
fn put_parts(g: &Geometry, sector: &mut [u8])
    requires sector { length sector.old ≡ 512 }
    requires low { g.now.rootino < 2 ^ 32 }
    ensures numbers { HasNumbers sector.new (part_numbers (volume_of g.now)) }
    ensures keeps { KeepsBeside sector.old sector.new 56 44 }
    ensures keeps_parts { KeepsParts sector.old sector.new 56 44 }
{
    put64(sector, ROOTINO.offset, g.rootino);
    put64(sector, RBMINO.offset, g.rootino + 1);
    put64(sector, RSUMINO.offset, g.rootino + 2);
    put32(sector, REXTSIZE.offset, 1);
    put32(sector, AGBLOCKS.offset, g.agblocks);
    put32(sector, AGCOUNT.offset, g.agcount);
    put32(sector, RBMBLOCKS.offset, 0);
    put32(sector, LOGBLOCKS.offset, g.logblocks);
}

/// Writes the sizes of its objects and the label, from byte 100 up to byte 128, where there were zeros.
fn put_sizes(g: &Geometry, label: &[u8], sector: &mut [u8])
    requires sector { length sector.old ≡ 512 }
    requires label { length label.now ≤ 12 }
    requires blank { part_of sector.old (108 + length label.now) (12 - length label.now) ≡ replicate (12 - length label.now) 0 }
    ensures numbers { HasNumbers sector.new (size_numbers (volume_of g.now)) }
    ensures label { HasLabel label.now sector.new }
    ensures keeps { KeepsBeside sector.old sector.new 100 28 }
    ensures keeps_parts { KeepsParts sector.old sector.new 100 28 }
{
    put16(sector, VERSIONNUM.offset, 0xb4a5);
    put16(sector, SECTSIZE.offset, 512);
    put16(sector, INODESIZE.offset, 512);
    put16(sector, INOPBLOCK.offset, 8);
    put_part(sector, FNAME.offset, label);
    put8(sector, BLOCKLOG.offset, 12);
    put8(sector, SECTLOG.offset, 9);
    put8(sector, INODELOG.offset, 9);
    put8(sector, INOPBLOG.offset, 3);
    put8(sector, AGBLKLOG.offset, g.agblklog);
    put8(sector, REXTSLOG.offset, 0);
    put8(sector, INPROGRESS.offset, 0);
    put8(sector, IMAX_PCT.offset, 25);
}

/// Writes counters of 0 and no quotas, from byte 128 up to byte 180.
fn put_counters(sector: &mut [u8])
    requires sector { length sector.old ≡ 512 }
    ensures numbers { HasNumbers sector.new counter_numbers }
    ensures keeps { KeepsBeside sector.old sector.new 128 52 }
    ensures keeps_parts { KeepsParts sector.old sector.new 128 52 }
{
    put64(sector, ICOUNT.offset, 0);
    put64(sector, IFREE.offset, 0);
    put64(sector, FDBLOCKS.offset, 0);
    put64(sector, FREXTENTS.offset, 0);
    put64(sector, UQUOTINO.offset, 0);
    put64(sector, GQUOTINO.offset, 0);
    put16(sector, QFLAGS.offset, 0);
    put8(sector, FLAGS.offset, 0);
    put8(sector, SHARED_VN.offset, 0);
}

/// Writes the features, from byte 180 up to byte 264.
fn put_features(sector: &mut [u8])
    requires sector { length sector.old ≡ 512 }
    ensures numbers { HasNumbers sector.new feature_numbers }
    ensures no_uuid { part_of sector.new 248 16 ≡ replicate 16 0 }
    ensures keeps { KeepsBeside sector.old sector.new 180 84 }
    ensures keeps_parts { KeepsParts sector.old sector.new 180 84 }
{
    put32(sector, INOALIGNMT.offset, 8);
    put32(sector, UNIT.offset, 0);
    put32(sector, WIDTH.offset, 0);
    put8(sector, DIRBLKLOG.offset, 0);
    put8(sector, LOGSECTLOG.offset, 0);
    put16(sector, LOGSECTSIZE.offset, 0);
    put32(sector, LOGSUNIT.offset, 1);
    put32(sector, FEATURES2.offset, 0x18a);
    put32(sector, BAD_FEATURES2.offset, 0x18a);
    put32(sector, FEATURES_COMPAT.offset, 0);
    put32(sector, FEATURES_RO_COMPAT.offset, 3);
    put32(sector, FEATURES_INCOMPAT.offset, 3);
    put32(sector, FEATURES_LOG_INCOMPAT.offset, 0);
    put32(sector, SPINO_ALIGN.offset, 4);
    put64(sector, PQUOTINO.offset, 0);
    put64(sector, LSN.offset, 0);
    put_part(sector, META_UUID.offset, &[0; 16]);
}

/// Seals a superblock in which all but the checksum is right.
fn seal_super(sector: &mut [u8])
    requires sector { length sector.old ≡ 512 }
    requires ready { IsTrue (is_ready super_seal sector.old) }
    ensures sealed { IsTrue (is_sealed super_seal sector.new) }
    ensures keeps { KeepsBeside sector.old sector.new 224 4 }
    ensures keeps_parts { KeepsParts sector.old sector.new 224 4 }
{
    let what = Seal {
        kind: SealKind::Super,
        place: 0,
        owner: None,
        uuid: [0; 16],
    };
    seal(&what, sector);
}
