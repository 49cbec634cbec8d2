//! Files whose slots name no block.

ghost use Rattle.std.specs.Prelude.{◌≡◌, None, length, IfOk, IfSome, IsTrue};
ghost use Rattle.xfs_disk.specs.Blocks.{Image};
ghost use Rattle.xfs_geom.specs.Volumes.{volume_of};
ghost use Rattle.xfs_inode.specs.Named.{slot_reads};
ghost use Rattle.xfs_inode.specs.Slots.{slot_read};
ghost use Rattle.xfs_inode.specs.Sound.{IsSound};

use crate::deciding::decide_read;
use crate::files::FileRead;
use crate::named::Needs;
use crate::naming::needs_of;
use crate::reading::SlotRead;
use std::alloc::Global;
use xfs_disk::NoMemory;
use xfs_geom::Geometry;

/// What the slot of an inode, of 512 bytes, that reads so by itself reads as whatever other blocks hold, or `None` where it names
/// one.
pub fn decide_alone(
    alloc: Global,
    g: &Geometry,
    ino: u64,
    slot: &[u8],
    read: &SlotRead,
) -> Result<Option<FileRead>, NoMemory>
    requires slot { length slot.now ≡ 512 }
    requires itself { read.now ≡ slot_read (volume_of g.now) ino slot.now }
    ensures read { IfOk result (λ file. IfSome file (λ file. (image : Image) → file ≡ slot_reads (volume_of g.now) image ino slot.now)) }
    ensures sound { IfOk result (λ file. IfSome file (λ file. IsSound (volume_of g.now) ino file)) }
{
    let needs = needs_of(alloc, g, ino, slot, read)?;
    if !names_none(needs) {
        return Ok(None);
    }
    let file = decide_read(alloc, g, ino, slot, read, None, None, None)?;
    Ok(Some(file))
}

/// Whether a slot names no block.
fn names_none(needs: Needs) -> bool
    ensures top { IsTrue result → needs.top ≡ None }
    ensures attr_leaf { IsTrue result → needs.attr_leaf ≡ None }
    ensures link { IsTrue result → needs.link ≡ None }
{
    needs.top.is_none() && needs.attr_leaf.is_none() && needs.link.is_none()
}
