//! The blocks of clusters of inodes, of eight slots each (chapter "AG Inode Management").

ghost use Rattle.std.specs.Prelude.{◌≡◌, ◌<◌, ◌≤◌, ◌*◌, length};
ghost use Rattle.std.specs.List.{AllWithin};
ghost use Rattle.std.specs.List.Sorted.{IsNonDecreasingBy};
ghost use Rattle.std.specs.Option.{option_copied};
ghost use Rattle.xfs_word.specs.Field.{KeepsParts};
ghost use Rattle.xfs_geom.specs.Volumes.{volume_of};
ghost use Rattle.xfs_render.specs.Clusters.{CanCluster, IsClusterBlock, slot_in};
ghost use Rattle.xfs_render.specs.Slots.{CanSlot, IsSlotDue, wanted_of};
ghost use Rattle.xfs_render.specs.declared.wanted_slots.SlotWanted.{SlotWanted};

use crate::slots::make_slot;
use crate::wanted_slots::SlotWanted;
use xfs_disk::Stamp;
use xfs_geom::Geometry;
use xfs_word::{part, put_part};

/// The bytes of a slot.
const SLOT_SIZE: usize = 512;

/// Writes the block of a cluster that has this number: its slots as they were, but those of which something is wanted.
pub fn put_cluster(
    g: &Geometry,
    number: u64,
    slots: &[SlotWanted],
    stamp: &Stamp,
    old: &[u8],
    block: &mut [u8],
)
    requires inside { number < g.now.dblocks }
    requires order { IsNonDecreasingBy (λ (w : SlotWanted). w.ino) slots.now }
    requires old { length old.now ≡ 4096 }
    requires block { length block.old ≡ 4096 }
    requires can { CanCluster (volume_of g.now) slots.now number old.now }
    ensures { IsClusterBlock (volume_of g.now) stamp.now.generation slots.now number old.now block.new }
{
    for k in 0..8 {
        let ino = g.inode_of_slot(number, k);
        put_slot(g, ino, slots, stamp, k as usize, old, block);
    }
}

/// Writes one of the eight slots of a block.
fn put_slot(
    g: &Geometry,
    ino: u64,
    slots: &[SlotWanted],
    stamp: &Stamp,
    k: usize,
    old: &[u8],
    block: &mut [u8],
)
    requires slot { k < 8 }
    requires order { IsNonDecreasingBy (λ (w : SlotWanted). w.ino) slots.now }
    requires old { length old.now ≡ 4096 }
    requires block { length block.old ≡ 4096 }
    requires can { CanSlot (volume_of g.now) slots.now ino (slot_in old.now k) }
    ensures due { IsSlotDue (volume_of g.now) stamp.now.generation slots.now ino (slot_in old.now k) (slot_in block.new k) }
    ensures keeps { KeepsParts block.old block.new (512 * k) 512 }
{
    let mut slot = [0; SLOT_SIZE];
    slot.copy_from_slice(part(old, SLOT_SIZE * k, SLOT_SIZE));
    make_wanted(g, ino, slots, stamp, &mut slot);
    put_part(block, SLOT_SIZE * k, &slot);
}

/// Makes of a slot what is wanted of it, where something is.
fn make_wanted(g: &Geometry, ino: u64, slots: &[SlotWanted], stamp: &Stamp, slot: &mut [u8])
    requires order { IsNonDecreasingBy (λ (w : SlotWanted). w.ino) slots.now }
    requires slot { length slot.old ≡ 512 }
    requires can { CanSlot (volume_of g.now) slots.now ino slot.old }
    ensures { IsSlotDue (volume_of g.now) stamp.now.generation slots.now ino slot.old slot.new }
{
    if let Some(wanted) = find_slot(slots, ino) {
        make_slot(g, wanted, stamp, slot);
    }
}

/// What is wanted of the slot of an inode.
pub fn find_slot(slots: &[SlotWanted], ino: u64) -> Option<&SlotWanted>
    requires { IsNonDecreasingBy (λ (w : SlotWanted). w.ino) slots.now }
    ensures { option_copied result ≡ wanted_of slots.now ino }
{
    let place = first_from(slots, ino);
    if place >= slots.len() {
        return None;
    }
    let wanted = &slots[place];
    if wanted.ino == ino {
        Some(wanted)
    } else {
        None
    }
}

/// How many of the slots are those of inodes before one.
fn first_from(slots: &[SlotWanted], ino: u64) -> usize
    requires { IsNonDecreasingBy (λ (w : SlotWanted). w.ino) slots.now }
    ensures within { result ≤ length slots.now }
    ensures before { AllWithin (λ (w : SlotWanted). w.ino < ino) slots.now 0 result }
    ensures after { AllWithin (λ (w : SlotWanted). ino ≤ w.ino) slots.now result (length slots.now) }
{
    slots.partition_point(|wanted| wanted.ino < ino)
}
