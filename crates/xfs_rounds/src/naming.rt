//! The slots of a round that name other blocks, found.

ghost use Rattle.std.specs.Prelude.{◌≡◌, ℕ, ◌+◌, ◌<◌, ◌++◌, IfOk, IfSome, OnOk, length, slice_index_or};
ghost use Rattle.std.specs.List.{All};
ghost use Rattle.xfs_rounds.specs.Named.{AreNamedParts, AreWithin, IsAtHand, IsInPlace, IsMore, IsNamedPart, IsNaming, IsNumbered, StandsAt, listed};
ghost use Rattle.xfs_geom.specs.Volumes.{volume_of};
ghost use Rattle.xfs_inode.specs.Slots.{slot_read};
ghost use Rattle.xfs_rounds.specs.Judged.{ArePartsOf, IsPartOf};

use crate::judging::{SlotFile, SlotPart};
use crate::named::{NamedSlots, NamingSlot};
use crate::pieces::BlockParts;
use std::alloc::Global;
use xfs_collections::BlockBank;
use xfs_disk::NoMemory;
use xfs_geom::Geometry;
use xfs_inode::{SlotRead, needs_of};
use xfs_word::part;

/// The bytes of a slot.
pub(crate) const SLOT_SIZE: usize = 512;

/// Finds the slots of a round that name other blocks, and gives each its number.
pub(crate) fn name_slots(
    alloc: Global,
    g: &Geometry,
    bank: &BlockBank,
    judged: &mut [BlockParts],
) -> Result<NamedSlots, NoMemory>
    requires judged { (i : ℕ) (d : BlockParts) → i < length judged.old → IsAtHand (volume_of g.now) g.now.dblocks bank.now (slice_index_or judged.old i d) }
    ensures numbered { IfOk result (λ named. (i : ℕ) (d : BlockParts) → i < length judged.old → IsNumbered (volume_of g.now) g.now.dblocks named bank.now (slice_index_or judged.new i d)) }
    ensures placed { OnOk result ((i : ℕ) (d : BlockParts) → i < length judged.old → IsInPlace (slice_index_or judged.old i d) (slice_index_or judged.new i d)) }
    ensures within { IfOk result (AreWithin g.now.dblocks) }
{
    let mut named = NamedSlots::new(alloc);
    for i in 0..judged.len() {
        name_block(alloc, g, bank, &mut judged[i], &mut named)?;
    }
    Ok(named)
}

/// Finds those of a block.
fn name_block(
    alloc: Global,
    g: &Geometry,
    bank: &BlockBank,
    block: &mut BlockParts,
    named: &mut NamedSlots,
) -> Result<(), NoMemory>
    requires at_hand { IsAtHand (volume_of g.now) g.now.dblocks bank.now block.old }
    requires within { AreWithin g.now.dblocks named.old }
    ensures numbered { OnOk result (IsNumbered (volume_of g.now) g.now.dblocks named.new bank.now block.new) }
    ensures placed { OnOk result (IsInPlace block.old block.new) }
    ensures more { OnOk result (IsMore named.old named.new) }
    ensures within { OnOk result (AreWithin g.now.dblocks named.new) }
{
    let bytes = bank.view(block.at);
    let place = block.place;
    match &mut block.slots {
        Ok(parts) => name_parts(alloc, g, place, bytes, parts, named),
        Err(NoMemory) => Err(NoMemory),
    }
}

/// Finds those of some slots of a block.
fn name_parts(
    alloc: Global,
    g: &Geometry,
    place: u64,
    bytes: &[u8],
    parts: &mut [SlotPart],
    named: &mut NamedSlots,
) -> Result<(), NoMemory>
    requires volume { place < g.now.dblocks }
    requires whole { length bytes.now ≡ 4096 }
    requires parts { ArePartsOf (volume_of g.now) place bytes.now parts.old }
    requires within { AreWithin g.now.dblocks named.old }
    ensures parts { OnOk result (AreNamedParts (volume_of g.now) named.new place bytes.now parts.new) }
    ensures more { OnOk result (IsMore named.old named.new) }
    ensures within { OnOk result (AreWithin g.now.dblocks named.new) }
{
    for i in 0..parts.len() {
        name_part(alloc, g, place, bytes, &mut parts[i], named)?;
    }
    Ok(())
}

/// Takes down a slot, where it names other blocks.
fn name_part(
    alloc: Global,
    g: &Geometry,
    place: u64,
    bytes: &[u8],
    known: &mut SlotPart,
    named: &mut NamedSlots,
) -> Result<(), NoMemory>
    requires volume { place < g.now.dblocks }
    requires whole { length bytes.now ≡ 4096 }
    requires part { IsPartOf (volume_of g.now) place bytes.now known.old }
    requires within { AreWithin g.now.dblocks named.old }
    ensures part { OnOk result (IsNamedPart (volume_of g.now) named.new place bytes.now known.new) }
    ensures slot { OnOk result (known.new.slot ≡ known.old.slot) }
    ensures more { OnOk result (IsMore named.old named.new) }
    ensures within { OnOk result (AreWithin g.now.dblocks named.new) }
{
    let SlotFile::Naming(read) = &known.file else {
        return Ok(());
    };
    let read = *read.as_read();
    let number = named.slots.len();
    let ino = g.inode_of_slot(place, known.slot);
    let slot = part(bytes, SLOT_SIZE * known.slot as usize, SLOT_SIZE);
    push_slot(alloc, g, ino, slot, read, named)?;
    known.file = SlotFile::Named(number);
    Ok(())
}

/// Adds a slot, of 512 bytes, that reads so by itself, with the blocks that it names.
fn push_slot(
    alloc: Global,
    g: &Geometry,
    ino: u64,
    slot: &[u8],
    read: SlotRead,
    named: &mut NamedSlots,
) -> Result<(), NoMemory>
    requires slot { length slot.now ≡ 512 }
    requires itself { read ≡ slot_read (volume_of g.now) ino slot.now }
    requires within { AreWithin g.now.dblocks named.old }
    ensures count { OnOk result (length named.new.slots.items ≡ length named.old.slots.items + 1) }
    ensures naming { OnOk result ((d : NamingSlot) → IsNaming (volume_of g.now) named.new.leaves.items named.new.links.items ino slot.now (slice_index_or named.new.slots.items (length named.old.slots.items) d)) }
    ensures more { OnOk result (IsMore named.old named.new) }
    ensures within { OnOk result (AreWithin g.now.dblocks named.new) }
{
    let needs = needs_of(alloc, g, ino, slot, &read)?;
    let leaf_at = push_block(needs.attr_leaf, &mut named.leaves)?;
    let link_at = push_block(needs.link, &mut named.links)?;
    named.slots.push(NamingSlot {
        ino,
        read,
        needs,
        leaf_at,
        link_at,
    })?;
    Ok(())
}

/// Adds a block, where one is named, and says where it stands.
fn push_block(block: Option<u64>, blocks: &mut Vec<u64>) -> Result<Option<usize>, NoMemory>
    ensures at { IfOk result (StandsAt blocks.new.items block) }
    ensures more { OnOk result (blocks.new.items ≡ blocks.old.items ++ listed block) }
    ensures within { OnOk result ((end : ℕ) → All (λ place. place < end) blocks.old.items → IfSome block (λ place. place < end) → All (λ place. place < end) blocks.new.items) }
{
    let Some(block) = block else {
        return Ok(None);
    };
    let at = blocks.len();
    blocks.push(block)?;
    Ok(Some(at))
}
