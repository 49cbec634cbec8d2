//! Whether what is wanted of slots can be made of the bytes that stand there.

ghost use Rattle.std.specs.Prelude.{◌≡◌, ℕ, ◌<◌, ◌≤◌, false, length, IsTrue, Option, Some};
ghost use Rattle.std.specs.List.{All};
ghost use Rattle.std.specs.List.Sorted.{IsNonDecreasingBy};
ghost use Rattle.xfs_geom.specs.Conversions.{inode_of};
ghost use Rattle.xfs_geom.specs.Volumes.{volume_of};
ghost use Rattle.xfs_render.specs.Clusters.{slot_in};
ghost use Rattle.xfs_render.specs.Rendering.{is_head};
ghost use Rattle.xfs_render.specs.Slots.{forkoff_of};
ghost use Rattle.xfs_render.specs.declared.wanted_slots.SlotWanted.{SlotWanted};
ghost use Rattle.xfs_rebuild.specs.Changes.{CanChange, CanChangeAll, can_base, can_change, can_fork, can_make, is_whole_slot};

use xfs_collections::BlockList;
use xfs_geom::Geometry;
use xfs_inode::{fork_bytes, slot_seal};
use xfs_inodebuild::ForkWanted;
use xfs_render::{SlotBase, SlotWanted, find_slot};
use xfs_word::{get8, part, sealed};

/// The slots of a block, and the bytes of a slot.
const SLOTS: u8 = 8;

const SLOT_SIZE: usize = 512;

/// Where a slot says where its attribute fork begins, in 8 bytes, and the farthest place.
const FORKOFF: usize = 82;

const MOST_FORKOFF: u8 = 41;

/// Whether they can in all blocks of some places, but those where a group begins. So it is of each image whose files are kept.
pub(crate) fn can_change_all(
    g: &Geometry,
    places: &[u64],
    old: &BlockList,
    slots: &[SlotWanted],
) -> bool
    requires many { length old.now ≡ length places.now }
    requires inside { All (λ place. place < g.now.dblocks) places.now }
    requires order { IsNonDecreasingBy (λ (w : SlotWanted). w.ino) slots.now }
    ensures { IsTrue result → CanChangeAll (volume_of g.now) slots.now places.now old.now }
{
    for i in 0..places.len() {
        if !can_change_at(g, places[i], old.view(i), slots) {
            return false;
        }
    }
    true
}

/// Whether they can in a block, unless a group begins there.
fn can_change_at(g: &Geometry, number: u64, block: &[u8], slots: &[SlotWanted]) -> bool
    requires inside { number < g.now.dblocks }
    requires whole { length block.now ≡ 4096 }
    requires order { IsNonDecreasingBy (λ (w : SlotWanted). w.ino) slots.now }
    ensures { IsTrue result → is_head (volume_of g.now) number ≡ false → CanChange (volume_of g.now) slots.now number block.now }
{
    number % g.agblocks as u64 == 0 || can_change(g, number, block, slots)
}

/// Whether they can in a block.
fn can_change(g: &Geometry, number: u64, block: &[u8], slots: &[SlotWanted]) -> bool
    requires inside { number < g.now.dblocks }
    requires whole { length block.now ≡ 4096 }
    requires order { IsNonDecreasingBy (λ (w : SlotWanted). w.ino) slots.now }
    ensures { IsTrue result → CanChange (volume_of g.now) slots.now number block.now }
{
    for k in 0..SLOTS {
        let ino = g.inode_of_slot(number, k);
        if !can_change_slot(
            g,
            ino,
            part(block, SLOT_SIZE * k as usize, SLOT_SIZE),
            slots,
        ) {
            return false;
        }
    }
    true
}

/// Whether it can in the slot of an inode.
fn can_change_slot(g: &Geometry, ino: u64, slot: &[u8], slots: &[SlotWanted]) -> bool
    requires slot { length slot.now ≡ 512 }
    requires order { IsNonDecreasingBy (λ (w : SlotWanted). w.ino) slots.now }
    ensures { result ≡ can_change (volume_of g.now) slots.now ino slot.now }
{
    match find_slot(slots, ino) {
        Some(wanted) => can_make(g, wanted, slot),
        None => true,
    }
}

/// Whether what is wanted of a slot can be made of it.
fn can_make(g: &Geometry, wanted: &SlotWanted, slot: &[u8]) -> bool
    requires slot { length slot.now ≡ 512 }
    ensures { result ≡ can_make (volume_of g.now) slot.now (Some wanted.now) }
{
    can_base(g, wanted.ino, &wanted.base, slot)
        && can_fork(forkoff_of(&wanted.base, slot), &wanted.fork)
}

/// Where the attribute fork of the base begins, in 8 bytes from the data fork on; 0 where there is none.
fn forkoff_of(base: &SlotBase, slot: &[u8]) -> u8
    requires slot { length slot.now ≡ 512 }
    ensures { result ≡ forkoff_of base.now slot.now }
{
    match base {
        SlotBase::Kept => get8(slot, FORKOFF),
        SlotBase::Free => 0,
        SlotBase::Fresh(_) => 0,
    }
}

/// Whether a fork fits in front of an attribute fork.
fn can_fork(forkoff: u8, fork: &Option<ForkWanted>) -> bool
    ensures { result ≡ can_fork forkoff fork.now }
{
    match fork {
        Some(fork) => fork.nextents < 1 << 32 && fork.bytes.bytes().len() <= fork_bytes(forkoff),
        None => true,
    }
}

/// Whether the base of a slot serves.
fn can_base(g: &Geometry, ino: u64, base: &SlotBase, slot: &[u8]) -> bool
    requires slot { length slot.now ≡ 512 }
    ensures { result ≡ can_base (volume_of g.now) ino base.now slot.now }
{
    match base {
        SlotBase::Kept => is_whole_slot(g, ino, slot),
        SlotBase::Free => true,
        SlotBase::Fresh(_) => true,
    }
}

/// Whether a slot is sealed as that of its inode, and its attribute fork begins inside it.
fn is_whole_slot(g: &Geometry, ino: u64, slot: &[u8]) -> bool
    requires slot { length slot.now ≡ 512 }
    ensures { result ≡ is_whole_slot (volume_of g.now) ino slot.now }
{
    sealed(&slot_seal(g, ino), slot) && get8(slot, FORKOFF) <= MOST_FORKOFF
}
