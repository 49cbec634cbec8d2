//! What the slot of an inode reads as by itself.

ghost use Rattle.std.specs.Prelude.{◌≡◌, length};
ghost use Rattle.xfs_geom.specs.Volumes.{volume_of};
ghost use Rattle.xfs_inode.specs.Slots.{slot_read};

use crate::cores::stated;
use crate::seals::slot_seal;
use crate::support::unsupported;
use xfs_geom::Geometry;
use xfs_volume::Core;
use xfs_word::sealed;

/// What a slot reads as without any other block.
#[derive(Clone, Copy, Debug, PartialEq, Eq)]
pub enum SlotRead {
    /// It is not sealed as the slot of its inode.
    Unsound,
    /// It holds no file.
    Free,
    /// It holds a file with a feature that is not supported: 2 attributes in more than one block, 3 a real-time
    /// file, 4 blocks shared by files, 5 times of 64 bits, 6 counts of 64 bits.
    Unsupported { what: u8 },
    /// It holds an inode whose forks are still to be judged.
    InUse(Core),
}

/// What the slot of an inode, of 512 bytes, reads as without any other block (chapter "On-disk Inode").
#[tactic(auto, unfolding(crate::specs::Slots::slot_read))]
pub fn read_slot(g: &Geometry, ino: u64, slot: &[u8]) -> SlotRead
    requires { length slot.now ≡ 512 }
    ensures { result ≡ slot_read (volume_of g.now) ino slot.now }
{
    if !sealed(&slot_seal(g, ino), slot) {
        return SlotRead::Unsound;
    }
    let core = stated(slot);
    if core.mode == 0 {
        return SlotRead::Free;
    }
    match unsupported(&core, slot) {
        Some(what) => SlotRead::Unsupported { what },
        None => SlotRead::InUse(core),
    }
}
