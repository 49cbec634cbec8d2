//! What is wanted of the slots of the kept clusters (chapter "On-disk Inode").

ghost use Rattle.std.specs.Prelude.{◌≡◌, ◌++◌, ◌==◌, ◌<◌, ◌≤◌, ◌*◌, ◌+◌, ◌^◌, IfOk, OnOk, length};
ghost use Rattle.std.specs.List.{sum_by};
ghost use Rattle.xfs_disk.specs.Lists.{is_among};
ghost use Rattle.xfs_geom.specs.Volumes.{volume_of};
ghost use Rattle.xfs_word.specs.declared.extents.Extent.{Extent};
ghost use Rattle.xfs_request.specs.Slots.{CanBeSearched, attrs_wanted, bare_slot, block_slots, cluster_slots, file_slot, freed_slot, kept_slot, as_list, own_blocks, slot_listed, slot_wanted, wanted_slots};

use crate::fresh::new_slot;
use crate::links::{Near, links_due, nlink_wanted};
use crate::seen::{SlotSeen, SlotState, is_bare, is_free, state_at};
use std::alloc::Global;
use xfs_disk::{NoMemory, Stamp};
use xfs_geom::Geometry;
use xfs_naming::{Link, records_near};
use xfs_render::{SlotBase, SlotWanted};
use xfs_salvage::Salvaged;
use xfs_volume::FileRec;
use xfs_word::Extent;

/// How many slots a block has, and how many blocks a cluster.
const SLOTS: u8 = 8;

const CLUSTER_BLOCKS: u64 = 4;

/// What the slots are decided by.
#[derive(Clone, Copy)]
pub(crate) struct Basis<'a> {
    pub g: &'a Geometry,
    pub stamp: &'a Stamp,
    pub kept: &'a Salvaged,
    /// The numbers of the kept directories, ascending.
    pub directories: &'a [u64],
    /// What is known of the slots of all clusters, by inode.
    pub slots: &'a [SlotSeen],
    /// A link for each kept entry, by what it names.
    pub links: &'a [Link],
}

/// What is wanted of the slots of all kept clusters, where something is. `NoMemory` where memory is wanting, or where a cluster
/// ends past the volume.
#[tactic(auto, unfolding(crate::specs::Slots::wanted_slots))]
pub(crate) fn wanted_slots(alloc: Global, basis: &Basis) -> Result<Vec<SlotWanted>, NoMemory>
    requires low { basis.now.g.now.rootino < 2 ^ 32 }
    requires order { CanBeSearched basis.now.kept.now basis.now.directories.now basis.now.slots.now basis.now.links.now }
    ensures { IfOk result (λ slots. slots.items ≡ wanted_slots (volume_of basis.now.g.now) basis.now.stamp.now basis.now.kept.now basis.now.slots.now) }
{
    let mut slots = Vec::new(alloc);
    let mut near = Near::first();
    let clusters = basis.kept.clusters.as_slice();
    for cluster in clusters {
        push_cluster(alloc, basis, &mut near, *cluster, &mut slots)?;
    }
    Ok(slots)
}

/// Adds those of a cluster.
#[tactic(auto, unfolding(crate::specs::Slots::cluster_slots))]
fn push_cluster(
    alloc: Global,
    basis: &Basis,
    near: &mut Near,
    cluster: u64,
    slots: &mut Vec<SlotWanted>,
) -> Result<(), NoMemory>
    requires low { basis.now.g.now.rootino < 2 ^ 32 }
    requires order { CanBeSearched basis.now.kept.now basis.now.directories.now basis.now.slots.now basis.now.links.now }
    ensures { OnOk result (slots.new.items ≡ slots.old.items ++ cluster_slots (volume_of basis.now.g.now) basis.now.stamp.now basis.now.kept.now basis.now.slots.now cluster) }
{
    if basis.g.dblocks <= cluster || basis.g.dblocks - cluster < CLUSTER_BLOCKS {
        return Err(NoMemory);
    }
    for block in cluster..cluster + CLUSTER_BLOCKS {
        push_block(alloc, basis, near, block, slots)?;
    }
    Ok(())
}

/// Adds those of a block.
#[tactic(auto, unfolding(crate::specs::Slots::block_slots))]
fn push_block(
    alloc: Global,
    basis: &Basis,
    near: &mut Near,
    block: u64,
    slots: &mut Vec<SlotWanted>,
) -> Result<(), NoMemory>
    requires low { basis.now.g.now.rootino < 2 ^ 32 }
    requires order { CanBeSearched basis.now.kept.now basis.now.directories.now basis.now.slots.now basis.now.links.now }
    requires inside { block < basis.now.g.now.dblocks }
    ensures { OnOk result (slots.new.items ≡ slots.old.items ++ block_slots (volume_of basis.now.g.now) basis.now.stamp.now basis.now.kept.now basis.now.slots.now block) }
{
    for slot in 0..SLOTS {
        push_slot(
            alloc,
            basis,
            near,
            basis.g.inode_of_slot(block, slot),
            slots,
        )?;
    }
    Ok(())
}

/// Adds that of an inode, where something is wanted of it.
fn push_slot(
    alloc: Global,
    basis: &Basis,
    near: &mut Near,
    ino: u64,
    slots: &mut Vec<SlotWanted>,
) -> Result<(), NoMemory>
    requires low { basis.now.g.now.rootino < 2 ^ 32 }
    requires order { CanBeSearched basis.now.kept.now basis.now.directories.now basis.now.slots.now basis.now.links.now }
    ensures { OnOk result (slots.new.items ≡ slots.old.items ++ slot_listed (volume_of basis.now.g.now) basis.now.stamp.now basis.now.kept.now basis.now.slots.now ino) }
{
    match slot_wanted(alloc, basis, near, ino)? {
        Some(slot) => slots.push(slot)?,
        None => {}
    }
    Ok(())
}

/// What is wanted of the slot of an inode.
#[tactic(auto, unfolding(crate::specs::Slots::slot_wanted))]
fn slot_wanted(
    alloc: Global,
    basis: &Basis,
    near: &mut Near,
    ino: u64,
) -> Result<Option<SlotWanted>, NoMemory>
    requires low { basis.now.g.now.rootino < 2 ^ 32 }
    requires order { CanBeSearched basis.now.kept.now basis.now.directories.now basis.now.slots.now basis.now.links.now }
    ensures { IfOk result (λ slot. slot ≡ slot_wanted (volume_of basis.now.g.now) basis.now.stamp.now basis.now.kept.now basis.now.slots.now ino) }
{
    match records_near(basis.kept.files.as_slice(), &mut near.files, ino).first() {
        Some(file) => file_slot(basis, near, file),
        None => bare_slot(alloc, basis, near, ino),
    }
}

/// What is wanted of the slot of a kept file.
fn file_slot(basis: &Basis, near: &mut Near, file: &FileRec) -> Result<Option<SlotWanted>, NoMemory>
    requires low { basis.now.g.now.rootino < 2 ^ 32 }
    requires order { CanBeSearched basis.now.kept.now basis.now.directories.now basis.now.slots.now basis.now.links.now }
    ensures { IfOk result (λ slot. slot ≡ file_slot (volume_of basis.now.g.now) basis.now.stamp.now basis.now.kept.now basis.now.slots.now file.now) }
{
    let attrs = attrs_wanted(file, state_at(basis.slots, &mut near.slots, file.ino))?;
    let due = links_due(
        basis.g.rootino,
        basis.directories,
        basis.kept.entries.as_slice(),
        basis.links,
        near,
        file,
    );
    Ok(kept_slot(file.ino, attrs, nlink_wanted(file, due)?))
}

/// The blocks that a file has without its attributes, where they do not read. `NoMemory` where their number cannot be held.
fn attrs_wanted(file: &FileRec, state: SlotState) -> Result<Option<u64>, NoMemory>
    ensures { IfOk result (λ blocks. blocks ≡ attrs_wanted file.now state) }
{
    if !is_bare(state) {
        return Ok(None);
    }
    match u64::try_from(own_blocks(file)) {
        Ok(blocks) => Ok(Some(blocks)),
        Err(_) => Err(NoMemory),
    }
}

/// The blocks of data and of the tree of extents of a file.
fn own_blocks(file: &FileRec) -> u128
    ensures { result ≡ own_blocks file.now }
{
    extent_blocks(file.extents.as_slice()) + file.rest.tree().len() as u128
}

/// The blocks of some extents.
fn extent_blocks(extents: &[Extent]) -> u128
    ensures value { result ≡ sum_by (λ (e : Extent). e.count) extents.now }
    ensures less { result ≤ length extents.now * 2 ^ 64 }
{
    let mut blocks = 0;
    for extent in extents {
        blocks += extent.count as u128;
    }
    blocks
}

/// A slot that stays but for its attributes and its number of names; none where both stay.
fn kept_slot(ino: u64, attrs: Option<u64>, nlink: Option<u32>) -> Option<SlotWanted>
    ensures { result ≡ kept_slot ino attrs nlink }
{
    if attrs.is_some() || nlink.is_some() {
        return Some(SlotWanted {
            ino,
            base: SlotBase::Kept,
            drop_attrs: attrs,
            fork: None,
            nlink,
        });
    }
    None
}

/// What is wanted of a slot without a kept file.
fn bare_slot(
    alloc: Global,
    basis: &Basis,
    near: &mut Near,
    ino: u64,
) -> Result<Option<SlotWanted>, NoMemory>
    requires low { basis.now.g.now.rootino < 2 ^ 32 }
    requires order { CanBeSearched basis.now.kept.now basis.now.directories.now basis.now.slots.now basis.now.links.now }
    ensures { IfOk result (λ slot. slot ≡ bare_slot (volume_of basis.now.g.now) basis.now.stamp.now basis.now.kept.now basis.now.slots.now ino) }
{
    if is_one_of(basis.kept.fresh.as_slice(), ino) {
        return Ok(Some(new_slot(alloc, basis.g, basis.stamp, ino)?));
    }
    if is_free(state_at(basis.slots, &mut near.slots, ino)) {
        return Ok(None);
    }
    Ok(Some(freed_slot(ino)))
}

/// Whether a number is one of a few.
pub(crate) fn is_one_of(numbers: &[u64], number: u64) -> bool
    ensures { result ≡ is_among numbers.now number }
{
    for other in numbers {
        if *other == number {
            return true;
        }
    }
    false
}

/// What is wanted of a slot that is freed.
fn freed_slot(ino: u64) -> SlotWanted
    ensures { result ≡ freed_slot ino }
{
    SlotWanted {
        ino,
        base: SlotBase::Free,
        drop_attrs: None,
        fork: None,
        nlink: None,
    }
}
