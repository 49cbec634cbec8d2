//! The core of an inode, written into a slot.

ghost use Rattle.std.specs.Prelude.{◌≡◌, ℕ, ◌+◌, ◌≤◌, length};
ghost use Rattle.xfs_word.specs.Crc.{little_field_of};
ghost use Rattle.xfs_word.specs.Field.{field_of, part_of, KeepsBeside, KeepsParts, IsZero};
ghost use Rattle.xfs_inode.specs.Cores.{stated_core};

use crate::zeroing::clear_slot;
use xfs_inode::layouts::inode::{
    AFORMAT, ANEXTENTS, ATIME, CHANGECOUNT, COWEXTSIZE, CRTIME, CTIME, EXTSIZE, FLAGS, FLAGS2,
    FORKOFF, FORMAT, GENERATION, GID, INO, LSN, MAGIC, MODE, MTIME, NBLOCKS, NEXT_UNLINKED,
    NEXTENTS, NLINK, PROJID_HI, PROJID_LO, SIZE, UID, UUID, VERSION,
};
use xfs_volume::Core;
use xfs_word::{put_part, put8, put16, put32, put64};

/// Writes all values but the checksum, and zeros beside them.
pub fn put_core(core: &Core, slot: &mut [u8])
    requires { length slot.old ≡ 512 }
    ensures stated { stated_core slot.new ≡ record core.now { crc = little_field_of slot.new 100 4 } }
    ensures zero_behind_format { IsZero slot.new 6 2 }
    ensures zero_before_times { IsZero slot.new 24 8 }
    ensures zero_before_flags { IsZero slot.new 84 6 }
    ensures zero_before_crtime { IsZero slot.new 132 12 }
    ensures zero_forks { (at width : ℕ) → 176 ≤ at → at + width ≤ 512 → IsZero slot.new at width }
{
    clear_slot(slot);
    put_kind(core, slot);
    put_owner(core, slot);
    put_times(core, slot);
    put_counts(core, slot);
    put_flags(core, slot);
    put_birth(core, slot);
}

/// Writes what the slot holds.
fn put_kind(core: &Core, slot: &mut [u8])
    requires { length slot.old ≡ 512 }
    ensures magic { field_of slot.new 0 2 ≡ core.now.magic }
    ensures mode { field_of slot.new 2 2 ≡ core.now.mode }
    ensures version { field_of slot.new 4 1 ≡ core.now.version }
    ensures format { field_of slot.new 5 1 ≡ core.now.format }
    ensures keeps { KeepsBeside slot.old slot.new 0 6 }
    ensures keeps_parts { KeepsParts slot.old slot.new 0 6 }
{
    put16(slot, MAGIC.offset, core.magic);
    put16(slot, MODE.offset, core.mode);
    put8(slot, VERSION.offset, core.version);
    put8(slot, FORMAT.offset, core.format);
}

/// Writes whose the file is, and how many names it has.
fn put_owner(core: &Core, slot: &mut [u8])
    requires { length slot.old ≡ 512 }
    ensures uid { field_of slot.new 8 4 ≡ core.now.uid }
    ensures gid { field_of slot.new 12 4 ≡ core.now.gid }
    ensures nlink { field_of slot.new 16 4 ≡ core.now.nlink }
    ensures projid_lo { field_of slot.new 20 2 ≡ core.now.projid_lo }
    ensures projid_hi { field_of slot.new 22 2 ≡ core.now.projid_hi }
    ensures keeps { KeepsBeside slot.old slot.new 8 16 }
    ensures keeps_parts { KeepsParts slot.old slot.new 8 16 }
{
    put32(slot, UID.offset, core.uid);
    put32(slot, GID.offset, core.gid);
    put32(slot, NLINK.offset, core.nlink);
    put16(slot, PROJID_LO.offset, core.projid_lo);
    put16(slot, PROJID_HI.offset, core.projid_hi);
}

/// Writes the times of the file, and its size.
fn put_times(core: &Core, slot: &mut [u8])
    requires { length slot.old ≡ 512 }
    ensures atime { field_of slot.new 32 8 ≡ core.now.atime }
    ensures mtime { field_of slot.new 40 8 ≡ core.now.mtime }
    ensures ctime { field_of slot.new 48 8 ≡ core.now.ctime }
    ensures size { field_of slot.new 56 8 ≡ core.now.size }
    ensures keeps { KeepsBeside slot.old slot.new 32 32 }
    ensures keeps_parts { KeepsParts slot.old slot.new 32 32 }
{
    put64(slot, ATIME.offset, core.atime);
    put64(slot, MTIME.offset, core.mtime);
    put64(slot, CTIME.offset, core.ctime);
    put64(slot, SIZE.offset, core.size);
}

/// Writes how much the file and its forks hold.
fn put_counts(core: &Core, slot: &mut [u8])
    requires { length slot.old ≡ 512 }
    ensures nblocks { field_of slot.new 64 8 ≡ core.now.nblocks }
    ensures extsize { field_of slot.new 72 4 ≡ core.now.extsize }
    ensures nextents { field_of slot.new 76 4 ≡ core.now.nextents }
    ensures anextents { field_of slot.new 80 2 ≡ core.now.anextents }
    ensures forkoff { field_of slot.new 82 1 ≡ core.now.forkoff }
    ensures aformat { field_of slot.new 83 1 ≡ core.now.aformat }
    ensures keeps { KeepsBeside slot.old slot.new 64 20 }
    ensures keeps_parts { KeepsParts slot.old slot.new 64 20 }
{
    put64(slot, NBLOCKS.offset, core.nblocks);
    put32(slot, EXTSIZE.offset, core.extsize);
    put32(slot, NEXTENTS.offset, core.nextents);
    put16(slot, ANEXTENTS.offset, core.anextents);
    put8(slot, FORKOFF.offset, core.forkoff);
    put8(slot, AFORMAT.offset, core.aformat);
}

/// Writes the flags, and what tells this inode from others.
fn put_flags(core: &Core, slot: &mut [u8])
    requires { length slot.old ≡ 512 }
    ensures flags { field_of slot.new 90 2 ≡ core.now.flags }
    ensures generation { field_of slot.new 92 4 ≡ core.now.generation }
    ensures next_unlinked { field_of slot.new 96 4 ≡ core.now.next_unlinked }
    ensures changecount { field_of slot.new 104 8 ≡ core.now.changecount }
    ensures lsn { field_of slot.new 112 8 ≡ core.now.lsn }
    ensures flags2 { field_of slot.new 120 8 ≡ core.now.flags2 }
    ensures cowextsize { field_of slot.new 128 4 ≡ core.now.cowextsize }
    ensures keeps { KeepsBeside slot.old slot.new 90 42 }
    ensures keeps_parts { KeepsParts slot.old slot.new 90 42 }
{
    put16(slot, FLAGS.offset, core.flags);
    put32(slot, GENERATION.offset, core.generation);
    put32(slot, NEXT_UNLINKED.offset, core.next_unlinked);
    put64(slot, CHANGECOUNT.offset, core.changecount);
    put64(slot, LSN.offset, core.lsn);
    put64(slot, FLAGS2.offset, core.flags2);
    put32(slot, COWEXTSIZE.offset, core.cowextsize);
}

/// Writes what stays for as long as the inode is there.
fn put_birth(core: &Core, slot: &mut [u8])
    requires { length slot.old ≡ 512 }
    ensures crtime { field_of slot.new 144 8 ≡ core.now.crtime }
    ensures ino { field_of slot.new 152 8 ≡ core.now.ino }
    ensures uuid { part_of slot.new 160 16 ≡ core.now.uuid }
    ensures keeps { KeepsBeside slot.old slot.new 144 32 }
    ensures keeps_parts { KeepsParts slot.old slot.new 144 32 }
{
    put64(slot, CRTIME.offset, core.crtime);
    put64(slot, INO.offset, core.ino);
    put_part(slot, UUID.offset, &core.uuid);
}
