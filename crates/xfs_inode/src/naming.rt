//! The blocks that the slot of an inode names.

ghost use Rattle.std.specs.Prelude.{◌≡◌, ℕ, ◌<◌, Some, None, IfOk, IfSome, length};
ghost use Rattle.xfs_geom.specs.Volumes.{volume_of};
ghost use Rattle.xfs_inode.specs.Named.{IsTopNamed, named_attr, named_link, named_top};
ghost use Rattle.xfs_inode.specs.Slots.{slot_read};

use crate::extents::{attr_place, link_place};
use crate::named::Needs;
use crate::reading::{SlotRead, read_slot};
use crate::roots::top_of;
use std::alloc::Global;
use xfs_disk::NoMemory;
use xfs_geom::Geometry;

/// The blocks that the slot of an inode, of 512 bytes, names. A slot that is not in use by itself, or has a feature
/// that is not supported, names none. A block outside the volume is not named.
pub fn needs(alloc: Global, g: &Geometry, ino: u64, slot: &[u8]) -> Result<Needs, NoMemory>
    requires { length slot.now ≡ 512 }
    ensures top { IfOk result (λ needs. IsTopNamed (named_top (volume_of g.now) ino slot.now) needs.top) }
    ensures attr_leaf { IfOk result (λ needs. needs.attr_leaf ≡ named_attr (volume_of g.now) ino slot.now) }
    ensures link { IfOk result (λ needs. needs.link ≡ named_link (volume_of g.now) ino slot.now) }
    ensures attr_inside { IfOk result (λ needs. IfSome needs.attr_leaf (λ block. block < g.now.dblocks)) }
    ensures link_inside { IfOk result (λ needs. IfSome needs.link (λ block. block < g.now.dblocks)) }
{
    needs_of(alloc, g, ino, slot, &read_slot(g, ino, slot))
}

/// The same of a slot that reads so by itself.
#[tactic(auto, unfolding(crate::specs::Named::named_top, crate::specs::Named::named_attr, crate::specs::Named::named_link))]
pub fn needs_of(
    alloc: Global,
    g: &Geometry,
    ino: u64,
    slot: &[u8],
    read: &SlotRead,
) -> Result<Needs, NoMemory>
    requires slot { length slot.now ≡ 512 }
    requires read { read.now ≡ slot_read (volume_of g.now) ino slot.now }
    ensures top { IfOk result (λ needs. IsTopNamed (named_top (volume_of g.now) ino slot.now) needs.top) }
    ensures attr_leaf { IfOk result (λ needs. needs.attr_leaf ≡ named_attr (volume_of g.now) ino slot.now) }
    ensures link { IfOk result (λ needs. needs.link ≡ named_link (volume_of g.now) ino slot.now) }
    ensures attr_inside { IfOk result (λ needs. IfSome needs.attr_leaf (λ block. block < g.now.dblocks)) }
    ensures link_inside { IfOk result (λ needs. IfSome needs.link (λ block. block < g.now.dblocks)) }
{
    match read {
        SlotRead::InUse(core) => {
            let top = top_of(alloc, g, core, slot)?;
            Ok(Needs {
                top,
                attr_leaf: attr_place(g, core, slot),
                link: link_place(g, core, slot),
            })
        }
        SlotRead::Unsound | SlotRead::Free | SlotRead::Unsupported { .. } => Ok(Needs {
            top: None,
            attr_leaf: None,
            link: None,
        }),
    }
}
