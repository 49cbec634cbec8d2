//! Slots, sealed.

ghost use Rattle.std.specs.Prelude.{◌≡◌, ℕ, length, IsTrue};
ghost use Rattle.xfs_word.specs.Crc.{little_field_of};
ghost use Rattle.xfs_word.specs.Field.{KeepsBeside, KeepsParts};
ghost use Rattle.xfs_word.specs.Seal.{is_ready, is_sealed};
ghost use Rattle.xfs_geom.specs.Volumes.{volume_of};
ghost use Rattle.xfs_inode.specs.Cores.{stated_core};
ghost use Rattle.xfs_inode.specs.Slots.{slot_seal};

use xfs_geom::Geometry;
use xfs_inode::slot_seal;
use xfs_word::seal;

/// Seals a slot in which all but the checksum is right.
pub fn seal_slot(g: &Geometry, ino: u64, slot: &mut [u8])
    requires slot { length slot.old ≡ 512 }
    requires ready { IsTrue (is_ready (slot_seal (volume_of g.now) ino) slot.old) }
    ensures sealed { IsTrue (is_sealed (slot_seal (volume_of g.now) ino) slot.new) }
    ensures stated { stated_core slot.new ≡ record (stated_core slot.old) { crc = little_field_of slot.new 100 4 } }
    ensures keeps { KeepsBeside slot.old slot.new 100 4 }
    ensures keeps_parts { KeepsParts slot.old slot.new 100 4 }
{
    seal(&slot_seal(g, ino), slot);
}
