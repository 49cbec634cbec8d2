//! The slots of inodes, changed as it is wanted (chapter "On-disk Inode").

ghost use Rattle.std.specs.Prelude.{◌≡◌, ℕ, ◌≤◌, ◌<◌, ◌+◌, length, IsTrue, MatchOption};
ghost use Rattle.xfs_word.specs.Field.{field_of};
ghost use Rattle.xfs_word.specs.Seal.{is_sealed};
ghost use Rattle.xfs_geom.specs.Volumes.{volume_of};
ghost use Rattle.xfs_inodebuild.specs.xfs_inode.Slots.{slot_seal};
ghost use Rattle.xfs_render.specs.Slots.{CanBase, CanFork, CanMake, DropsAttrs, IsBased, IsMadeSlot, SetsFork, SetsLinks, forkoff_of};

use crate::wanted_slots::{SlotBase, SlotWanted};
use xfs_disk::Stamp;
use xfs_geom::Geometry;
use xfs_inodebuild::{ForkWanted, drop_attrs, free_slot, fresh_slot, set_fork, set_links};

/// Makes of a slot, of 512 bytes, what is wanted of it.
pub fn make_slot(g: &Geometry, wanted: &SlotWanted, stamp: &Stamp, slot: &mut [u8])
    requires slot { length slot.old ≡ 512 }
    requires can { CanMake (volume_of g.now) wanted.now slot.old }
    ensures { IsMadeSlot (volume_of g.now) stamp.now.generation wanted.now slot.old slot.new }
{
    put_base(g, wanted.ino, &wanted.base, stamp, slot);
    put_attrs(g, wanted.ino, wanted.drop_attrs, slot);
    put_fork(g, wanted.ino, &wanted.fork, slot);
    put_links(g, wanted.ino, wanted.nlink, slot);
}

/// Makes of a slot what it is before anything else is changed in it.
fn put_base(g: &Geometry, ino: u64, base: &SlotBase, stamp: &Stamp, slot: &mut [u8])
    requires slot { length slot.old ≡ 512 }
    requires can { CanBase (volume_of g.now) ino base.now slot.old }
    ensures based { IsBased (volume_of g.now) stamp.now.generation ino base.now slot.old slot.new }
    ensures sealed { IsTrue (is_sealed (slot_seal (volume_of g.now) ino) slot.new) }
    ensures forkoff { field_of slot.new 82 1 ≡ forkoff_of base.now slot.old }
{
    match base {
        SlotBase::Kept => {}
        SlotBase::Free => free_slot(g, ino, stamp, slot),
        SlotBase::Fresh(core) => fresh_slot(g, core, &[], slot),
    }
}

/// Drops the attributes of a slot, where that is wanted.
fn put_attrs(g: &Geometry, ino: u64, nblocks: Option<u64>, slot: &mut [u8])
    requires slot { length slot.old ≡ 512 }
    requires was_sealed { IsTrue (is_sealed (slot_seal (volume_of g.now) ino) slot.old) }
    requires forkoff { field_of slot.old 82 1 ≤ 41 }
    ensures due { MatchOption nblocks (slot.new ≡ slot.old) (λ n. DropsAttrs (volume_of g.now) ino n slot.old slot.new) }
    ensures sealed { IsTrue (is_sealed (slot_seal (volume_of g.now) ino) slot.new) }
    ensures forkoff { field_of slot.new 82 1 ≡ field_of slot.old 82 1 }
{
    if let Some(nblocks) = nblocks {
        drop_attrs(g, ino, nblocks, slot);
    }
}

/// Replaces the data fork of a slot, where that is wanted.
fn put_fork(g: &Geometry, ino: u64, fork: &Option<ForkWanted>, slot: &mut [u8])
    requires slot { length slot.old ≡ 512 }
    requires was_sealed { IsTrue (is_sealed (slot_seal (volume_of g.now) ino) slot.old) }
    requires forkoff { field_of slot.old 82 1 ≤ 41 }
    requires fits { MatchOption fork.now (Unit {0}) (CanFork (field_of slot.old 82 1)) }
    ensures due { MatchOption fork.now (slot.new ≡ slot.old) (λ f. SetsFork (volume_of g.now) ino f slot.old slot.new) }
    ensures sealed { IsTrue (is_sealed (slot_seal (volume_of g.now) ino) slot.new) }
{
    if let Some(fork) = fork {
        set_fork(g, ino, fork, slot);
    }
}

/// Sets how many names the file of a slot has, where that is wanted.
fn put_links(g: &Geometry, ino: u64, nlink: Option<u32>, slot: &mut [u8])
    requires slot { length slot.old ≡ 512 }
    requires was_sealed { IsTrue (is_sealed (slot_seal (volume_of g.now) ino) slot.old) }
    ensures { MatchOption nlink (slot.new ≡ slot.old) (λ n. SetsLinks (volume_of g.now) ino n slot.old slot.new) }
{
    if let Some(nlink) = nlink {
        set_links(g, ino, nlink, slot);
    }
}
