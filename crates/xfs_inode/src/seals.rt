//! The seal of a slot.

ghost use Rattle.std.specs.Prelude.{◌≡◌, ℕ};
ghost use Rattle.xfs_geom.specs.Volumes.{volume_of};
ghost use Rattle.xfs_inode.specs.Slots.{slot_seal};

use xfs_geom::Geometry;
use xfs_word::{Seal, SealKind};

/// The seal of an inode's slot.
pub fn slot_seal(g: &Geometry, ino: u64) -> Seal
    ensures { result ≡ slot_seal (volume_of g.now) ino }
{
    Seal {
        kind: SealKind::Slot,
        place: ino,
        owner: None,
        uuid: g.uuid,
    }
}
