//! Slots of which a few fields change, and all else stays.

ghost use Rattle.std.specs.Prelude.{◌≡◌, ℕ, ◌+◌, ◌-◌, ◌*◌, ◌≤◌, length, IsTrue, [], ◌∷◌};
ghost use Rattle.xfs_word.specs.Crc.{little_field_of};
ghost use Rattle.xfs_word.specs.Field.{field_of, IsZero};
ghost use Rattle.xfs_word.specs.Seal.{is_sealed};
ghost use Rattle.xfs_geom.specs.Volumes.{volume_of};
ghost use Rattle.xfs_inode.specs.Cores.{stated_core};
ghost use Rattle.xfs_inode.specs.Slots.{slot_read, slot_seal, fork_bytes};
ghost use Rattle.xfs_inode.specs.declared.reading.SlotRead.TheVariants as Read;
ghost use Rattle.xfs_volume.specs.declared.cores.Core.{Core};
ghost use Rattle.xfs_inodebuild.specs.Writing.{field_place, KeepsOthers};

use crate::seals::seal_slot;
use crate::zeroing::clear_part;
use xfs_geom::Geometry;
use xfs_inode::fork_bytes;
use xfs_inode::layouts::inode::{
    AFORMAT, ANEXTENTS, DATA_FORK, FORKOFF, FORKS_SIZE, NBLOCKS, NEXT_UNLINKED, NLINK,
};
use xfs_word::{get8, put8, put16, put32, put64};

/// Sets how many names the file of a sealed slot, of 512 bytes, has, takes it out of the chains of unlinked inodes,
/// and seals it. All else stays, and a slot in use reads as in use.
pub fn set_links(g: &Geometry, ino: u64, nlink: u32, slot: &mut [u8])
    requires slot { length slot.old ≡ 512 }
    requires was_sealed { IsTrue (is_sealed (slot_seal (volume_of g.now) ino) slot.old) }
    ensures sealed { IsTrue (is_sealed (slot_seal (volume_of g.now) ino) slot.new) }
    ensures read { (core : Core) → slot_read (volume_of g.now) ino slot.old ≡ Read.InUse core → slot_read (volume_of g.now) ino slot.new ≡ Read.InUse (stated_core slot.new) }
    ensures stated { stated_core slot.new ≡ record (stated_core slot.old) { nlink = nlink; next_unlinked = 0xffff_ffff; crc = little_field_of slot.new 100 4 } }
    ensures others { KeepsOthers slot.old slot.new (field_place 16 4 ∷ field_place 96 4 ∷ field_place 100 4 ∷ []) }
{
    put_links(nlink, slot);
    seal_slot(g, ino, slot);
}

/// Writes what `set_links` sets.
fn put_links(nlink: u32, slot: &mut [u8])
    requires { length slot.old ≡ 512 }
    ensures stated { stated_core slot.new ≡ record (stated_core slot.old) { nlink = nlink; next_unlinked = 0xffff_ffff; crc = little_field_of slot.new 100 4 } }
    ensures others { KeepsOthers slot.old slot.new (field_place 16 4 ∷ field_place 96 4 ∷ []) }
{
    put32(slot, NLINK.offset, nlink);
    put32(slot, NEXT_UNLINKED.offset, u32::MAX);
}

/// Takes all attributes from a sealed slot, of 512 bytes, and seals it: the format of the attribute fork is 2, of no
/// extent, `nblocks` is the number of blocks that the file still has, and the fork's bytes are zero. All else stays,
/// and a slot in use reads as in use.
pub fn drop_attrs(g: &Geometry, ino: u64, nblocks: u64, slot: &mut [u8])
    requires slot { length slot.old ≡ 512 }
    requires was_sealed { IsTrue (is_sealed (slot_seal (volume_of g.now) ino) slot.old) }
    requires forkoff { field_of slot.old 82 1 ≤ 41 }
    ensures sealed { IsTrue (is_sealed (slot_seal (volume_of g.now) ino) slot.new) }
    ensures read { (core : Core) → slot_read (volume_of g.now) ino slot.old ≡ Read.InUse core → slot_read (volume_of g.now) ino slot.new ≡ Read.InUse (stated_core slot.new) }
    ensures stated { stated_core slot.new ≡ record (stated_core slot.old) { nblocks = nblocks; anextents = 0; aformat = 2; crc = little_field_of slot.new 100 4 } }
    ensures zero { let bytes = fork_bytes (field_of slot.old 82 1) in IsZero slot.new (176 + bytes) (336 - bytes) }
    ensures others { let bytes = fork_bytes (field_of slot.old 82 1) in KeepsOthers slot.old slot.new (field_place 64 8 ∷ field_place 80 2 ∷ field_place 83 1 ∷ field_place (176 + bytes) (336 - bytes) ∷ field_place 100 4 ∷ []) }
{
    put_no_attrs(nblocks, slot);
    seal_slot(g, ino, slot);
}

/// Writes what `drop_attrs` sets.
fn put_no_attrs(nblocks: u64, slot: &mut [u8])
    requires slot { length slot.old ≡ 512 }
    requires forkoff { field_of slot.old 82 1 ≤ 41 }
    ensures stated { stated_core slot.new ≡ record (stated_core slot.old) { nblocks = nblocks; anextents = 0; aformat = 2; crc = little_field_of slot.new 100 4 } }
    ensures zero { let bytes = fork_bytes (field_of slot.old 82 1) in IsZero slot.new (176 + bytes) (336 - bytes) }
    ensures others { let bytes = fork_bytes (field_of slot.old 82 1) in KeepsOthers slot.old slot.new (field_place 64 8 ∷ field_place 80 2 ∷ field_place 83 1 ∷ field_place (176 + bytes) (336 - bytes) ∷ []) }
{
    let bytes = fork_bytes(get8(slot, FORKOFF.offset));
    put64(slot, NBLOCKS.offset, nblocks);
    put16(slot, ANEXTENTS.offset, 0);
    put8(slot, AFORMAT.offset, 2);
    clear_part(slot, DATA_FORK + bytes, FORKS_SIZE - bytes);
}
