//! The data fork of an inode, written: from byte 176 of its slot on, in front of the attribute fork.

ghost use Rattle.std.specs.Prelude.{◌≡◌, ℕ, ◌+◌, ◌-◌, ◌*◌, ◌<◌, ◌≤◌, ◌^◌, length, IsTrue, [], ◌∷◌};
ghost use Rattle.xfs_word.specs.Crc.{little_field_of};
ghost use Rattle.xfs_word.specs.Field.{field_of, part_of, IsZero};
ghost use Rattle.xfs_word.specs.Seal.{is_sealed};
ghost use Rattle.xfs_geom.specs.Volumes.{volume_of};
ghost use Rattle.xfs_inode.specs.Cores.{stated_core};
ghost use Rattle.xfs_inode.specs.Slots.{slot_read, slot_seal, fork_bytes};
ghost use Rattle.xfs_inode.specs.declared.reading.SlotRead.TheVariants as Read;
ghost use Rattle.xfs_volume.specs.declared.cores.Core.{Core};
ghost use Rattle.xfs_inodebuild.specs.Writing.{field_place, KeepsOthers};

use crate::seals::seal_slot;
use crate::zeroing::clear_part;
use xfs_disk::Word;
use xfs_geom::Geometry;
use xfs_inode::fork_bytes;
use xfs_inode::layouts::inode::{DATA_FORK, FORKOFF, FORMAT, NBLOCKS, NEXTENTS, SIZE};
use xfs_word::{get8, put_part, put8, put32, put64};

/// A data fork that is to be written, and the numbers of the core that go with it.
#[derive(Drop)]
pub struct ForkWanted {
    /// What the fork is: 1 local, 2 extents, 3 a tree of extents.
    pub format: u8,
    /// The bytes of the file.
    pub size: u64,
    /// The blocks of data, extent trees and attributes.
    pub nblocks: u64,
    /// The extents of the fork.
    pub nextents: u64,
    /// The bytes at the fork's begin.
    pub bytes: Word,
}

/// Replaces the data fork of a sealed slot, of 512 bytes, and the numbers that go with it, and seals it. What is left
/// of the fork is zero. All else stays, and a slot in use reads as in use.
pub fn set_fork(g: &Geometry, ino: u64, fork: &ForkWanted, slot: &mut [u8])
    requires slot { length slot.old ≡ 512 }
    requires was_sealed { IsTrue (is_sealed (slot_seal (volume_of g.now) ino) slot.old) }
    requires forkoff { field_of slot.old 82 1 ≤ 41 }
    requires nextents { fork.now.nextents < 2 ^ 32 }
    requires bytes { length fork.now.bytes ≤ fork_bytes (field_of slot.old 82 1) }
    ensures sealed { IsTrue (is_sealed (slot_seal (volume_of g.now) ino) slot.new) }
    ensures read { (core : Core) → slot_read (volume_of g.now) ino slot.old ≡ Read.InUse core → slot_read (volume_of g.now) ino slot.new ≡ Read.InUse (stated_core slot.new) }
    ensures stated { stated_core slot.new ≡ record (stated_core slot.old) { format = fork.now.format; size = fork.now.size; nblocks = fork.now.nblocks; nextents = fork.now.nextents; crc = little_field_of slot.new 100 4 } }
    ensures put { part_of slot.new 176 (length fork.now.bytes) ≡ fork.now.bytes }
    ensures zero { IsZero slot.new (176 + length fork.now.bytes) (fork_bytes (field_of slot.old 82 1) - length fork.now.bytes) }
    ensures others { KeepsOthers slot.old slot.new (field_place 5 1 ∷ field_place 56 8 ∷ field_place 64 8 ∷ field_place 76 4 ∷ field_place 176 (fork_bytes (field_of slot.old 82 1)) ∷ field_place 100 4 ∷ []) }
{
    put_fork(fork, slot);
    seal_slot(g, ino, slot);
}

/// Writes what `set_fork` sets.
fn put_fork(fork: &ForkWanted, slot: &mut [u8])
    requires slot { length slot.old ≡ 512 }
    requires forkoff { field_of slot.old 82 1 ≤ 41 }
    requires nextents { fork.now.nextents < 2 ^ 32 }
    requires bytes { length fork.now.bytes ≤ fork_bytes (field_of slot.old 82 1) }
    ensures stated { stated_core slot.new ≡ record (stated_core slot.old) { format = fork.now.format; size = fork.now.size; nblocks = fork.now.nblocks; nextents = fork.now.nextents; crc = little_field_of slot.new 100 4 } }
    ensures put { part_of slot.new 176 (length fork.now.bytes) ≡ fork.now.bytes }
    ensures zero { IsZero slot.new (176 + length fork.now.bytes) (fork_bytes (field_of slot.old 82 1) - length fork.now.bytes) }
    ensures others { KeepsOthers slot.old slot.new (field_place 5 1 ∷ field_place 56 8 ∷ field_place 64 8 ∷ field_place 76 4 ∷ field_place 176 (fork_bytes (field_of slot.old 82 1)) ∷ []) }
{
    let room = fork_bytes(get8(slot, FORKOFF.offset));
    let bytes = fork.bytes.bytes();
    put8(slot, FORMAT.offset, fork.format);
    put64(slot, SIZE.offset, fork.size);
    put64(slot, NBLOCKS.offset, fork.nblocks);
    put32(slot, NEXTENTS.offset, fork.nextents as u32);
    put_part(slot, DATA_FORK, bytes);
    clear_part(slot, DATA_FORK + bytes.len(), room - bytes.len());
}
