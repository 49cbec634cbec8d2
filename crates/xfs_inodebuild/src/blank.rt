//! Slots that are written anew: free, and of a fresh inode.

ghost use Rattle.std.specs.Prelude.{◌≡◌, ℕ, ◌+◌, ◌-◌, ◌%◌, ◌<◌, ◌≤◌, length, IsTrue};
ghost use Rattle.xfs_word.specs.Crc.{little_field_of};
ghost use Rattle.xfs_word.specs.Field.{part_of, IsZero};
ghost use Rattle.xfs_word.specs.Seal.{is_lsn, is_sealed};
ghost use Rattle.xfs_geom.specs.Volumes.{volume_of};
ghost use Rattle.xfs_inode.specs.Cores.{stated_core};
ghost use Rattle.xfs_inode.specs.Slots.{has_bit, slot_read, slot_seal};
ghost use Rattle.xfs_inodebuild.specs.Writing.{free_core};
ghost use Rattle.xfs_inode.specs.declared.reading.SlotRead.TheVariants as Read;

use crate::cores::put_core;
use crate::seals::seal_slot;
use xfs_disk::Stamp;
use xfs_geom::Geometry;
use xfs_inode::layouts::inode::DATA_FORK;
use xfs_volume::Core;
use xfs_word::put_part;

/// Writes the slot, of 512 bytes, of an inode that is free, with the generation number of the stamp, and seals it.
/// All bytes beside the fields of the core are zero.
pub fn free_slot(g: &Geometry, ino: u64, stamp: &Stamp, slot: &mut [u8])
    requires { length slot.old ≡ 512 }
    ensures read { slot_read (volume_of g.now) ino slot.new ≡ Read.Free }
    ensures sealed { IsTrue (is_sealed (slot_seal (volume_of g.now) ino) slot.new) }
    ensures stated { stated_core slot.new ≡ record (free_core (volume_of g.now) ino stamp.now.generation) { crc = little_field_of slot.new 100 4 } }
    ensures zero_behind_format { IsZero slot.new 6 2 }
    ensures zero_before_times { IsZero slot.new 24 8 }
    ensures zero_before_flags { IsZero slot.new 84 6 }
    ensures zero_before_crtime { IsZero slot.new 132 12 }
    ensures zero_forks { IsZero slot.new 176 336 }
{
    empty_slot(g, &free_core(g, ino, stamp.generation), slot);
}

/// Writes the slot, of 512 bytes, of an inode that is free, with this core, and seals it. All bytes beside the fields of the core are zero.
fn empty_slot(g: &Geometry, core: &Core, slot: &mut [u8])
    requires slot { length slot.old ≡ 512 }
    requires magic { core.now.magic ≡ 0x494e }
    requires version { core.now.version ≡ 3 }
    requires free { core.now.mode ≡ 0 }
    requires uuid { core.now.uuid ≡ g.now.uuid }
    requires lsn { IsTrue (is_lsn core.now.lsn) }
    ensures read { slot_read (volume_of g.now) core.now.ino slot.new ≡ Read.Free }
    ensures sealed { IsTrue (is_sealed (slot_seal (volume_of g.now) core.now.ino) slot.new) }
    ensures stated { stated_core slot.new ≡ record core.now { crc = little_field_of slot.new 100 4 } }
    ensures zero_behind_format { IsZero slot.new 6 2 }
    ensures zero_before_times { IsZero slot.new 24 8 }
    ensures zero_before_flags { IsZero slot.new 84 6 }
    ensures zero_before_crtime { IsZero slot.new 132 12 }
    ensures zero_forks { IsZero slot.new 176 336 }
{
    put_core(core, slot);
    seal_slot(g, core.ino, slot);
}

/// The core of a slot that is free, apart from its checksum.
fn free_core(g: &Geometry, ino: u64, generation: u32) -> Core
    ensures { result ≡ free_core (volume_of g.now) ino generation }
{
    Core {
        magic: 0x494e,
        mode: 0,
        version: 3,
        format: 0,
        uid: 0,
        gid: 0,
        nlink: 0,
        projid_lo: 0,
        projid_hi: 0,
        atime: 0,
        mtime: 0,
        ctime: 0,
        size: 0,
        nblocks: 0,
        extsize: 0,
        nextents: 0,
        anextents: 0,
        forkoff: 0,
        aformat: 0,
        flags: 0,
        generation,
        next_unlinked: u32::MAX,
        crc: 0,
        changecount: 0,
        lsn: 0,
        flags2: 0,
        cowextsize: 0,
        crtime: 0,
        ino,
        uuid: g.uuid,
    }
}

/// Writes the slot, of 512 bytes, of a fresh inode without attributes, and seals it. The data fork begins with the
/// bytes of `fork`, at most 336; all bytes behind them and beside the fields of the core are zero.
pub fn fresh_slot(g: &Geometry, core: &Core, fork: &[u8], slot: &mut [u8])
    requires slot { length slot.old ≡ 512 }
    requires fork { length fork.now ≤ 336 }
    requires magic { core.now.magic ≡ 0x494e }
    requires version { core.now.version ≡ 3 }
    requires used { 0 < core.now.mode }
    requires uuid { core.now.uuid ≡ g.now.uuid }
    requires lsn { IsTrue (is_lsn core.now.lsn) }
    requires no_attributes { core.now.forkoff ≡ 0 }
    requires data { core.now.flags % 2 ≡ 0 }
    requires plain { core.now.flags2 ≡ 0 }
    ensures read { slot_read (volume_of g.now) core.now.ino slot.new ≡ Read.InUse (record core.now { crc = little_field_of slot.new 100 4 }) }
    ensures sealed { IsTrue (is_sealed (slot_seal (volume_of g.now) core.now.ino) slot.new) }
    ensures stated { stated_core slot.new ≡ record core.now { crc = little_field_of slot.new 100 4 } }
    ensures fork { part_of slot.new 176 (length fork.now) ≡ fork.now }
    ensures zero_behind_fork { IsZero slot.new (176 + length fork.now) (336 - length fork.now) }
    ensures zero_behind_format { IsZero slot.new 6 2 }
    ensures zero_before_times { IsZero slot.new 24 8 }
    ensures zero_before_flags { IsZero slot.new 84 6 }
    ensures zero_before_crtime { IsZero slot.new 132 12 }
{
    put_fresh(core, fork, slot);
    seal_slot(g, core.ino, slot);
}

/// Writes all of a fresh inode but the checksum.
fn put_fresh(core: &Core, fork: &[u8], slot: &mut [u8])
    requires slot { length slot.old ≡ 512 }
    requires fork { length fork.now ≤ 336 }
    ensures stated { stated_core slot.new ≡ record core.now { crc = little_field_of slot.new 100 4 } }
    ensures fork { part_of slot.new 176 (length fork.now) ≡ fork.now }
    ensures zero_behind_fork { IsZero slot.new (176 + length fork.now) (336 - length fork.now) }
    ensures zero_behind_format { IsZero slot.new 6 2 }
    ensures zero_before_times { IsZero slot.new 24 8 }
    ensures zero_before_flags { IsZero slot.new 84 6 }
    ensures zero_before_crtime { IsZero slot.new 132 12 }
{
    put_core(core, slot);
    put_part(slot, DATA_FORK, fork);
}
