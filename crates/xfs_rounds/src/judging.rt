//! What is known of the slots of a block from their bytes alone (chapter "On-disk Inode").

ghost use Rattle.std.specs.Prelude.{◌≡◌, ◌+◌, ◌<◌, length, IfOk, OnOk};
ghost use Rattle.xfs_geom.specs.Volumes.{volume_of};
ghost use Rattle.xfs_inode.specs.Slots.{slot_read};
ghost use Rattle.xfs_rounds.specs.Judged.{ArePartsBelow, ArePartsOf, IsFileOf, IsPartOf};

use crate::facts::{SlotFact, fact_of};
use std::alloc::{AllocError, Global};
use std::marker::Model;
use xfs_disk::NoMemory;
use xfs_geom::Geometry;
use xfs_inode::{FileRead, SlotRead, decide_alone, read_slot};
use xfs_word::part;

/// The slots of a block, and the bytes of a slot.
const SLOTS: u8 = 8;

const SLOT_SIZE: usize = 512;

/// What the bytes of a slot alone say of what it reads as.
#[derive(Drop)]
pub enum SlotFile {
    /// It names no other block, and reads so.
    Decided(FileRead),
    /// It names other blocks. By itself it reads so.
    Naming(BoxedRead),
    /// It names other blocks, and has this number among the slots of its round that do.
    Named(usize),
}

/// What a slot reads as by itself, set apart: few slots name other blocks, and what is kept of each slot is small so. Contracts see what it
/// reads as.
#[derive(Drop)]
pub struct BoxedRead {
    read: Box<SlotRead>,
}

impl Model for BoxedRead {
    ghost use Rattle.xfs_inode.specs.declared.reading.SlotRead.{SlotRead};

    ghost Value = { SlotRead };

    ghost view = { λ boxed. boxed.read.value };
}

impl BoxedRead {
    /// What a slot reads as, set apart.
    pub(crate) fn new(alloc: Global, read: SlotRead) -> Result<BoxedRead, AllocError>
        ensures { IfOk result (λ boxed. boxed ≡ read) }
    {
        Ok(BoxedRead {
            read: Box::new(alloc, read)?,
        })
    }

    /// What the slot reads as.
    pub(crate) fn as_read(&self) -> &SlotRead
        ensures { result.now ≡ self.now }
    {
        &self.read
    }
}

/// What is known of a slot from its bytes alone.
#[derive(Drop)]
pub struct SlotPart {
    /// Its number in its block, from 0 to 7.
    pub slot: u8,
    /// What is kept of it.
    pub fact: SlotFact,
    /// What it reads as.
    pub file: SlotFile,
}

/// Judges the eight slots of a block.
pub(crate) fn judge_block(
    alloc: Global,
    g: &Geometry,
    block: u64,
    bytes: &[u8],
) -> Result<Vec<SlotPart>, NoMemory>
    requires volume { block < g.now.dblocks }
    requires whole { length bytes.now ≡ 4096 }
    ensures { IfOk result (λ parts. ArePartsOf (volume_of g.now) block bytes.now parts.items) }
{
    let mut parts = Vec::with_capacity(alloc, SLOTS as usize)?;
    for slot in 0..SLOTS {
        push_slot(alloc, g, block, slot, bytes, &mut parts)?;
    }
    Ok(parts)
}

/// Adds what is known of one of the eight slots of a block.
fn push_slot(
    alloc: Global,
    g: &Geometry,
    block: u64,
    slot: u8,
    bytes: &[u8],
    parts: &mut Vec<SlotPart>,
) -> Result<(), NoMemory>
    requires volume { block < g.now.dblocks }
    requires slot { slot < 8 }
    requires whole { length bytes.now ≡ 4096 }
    requires before { ArePartsBelow (volume_of g.now) block bytes.now slot parts.old.items }
    ensures { OnOk result (ArePartsBelow (volume_of g.now) block bytes.now (slot + 1) parts.new.items) }
{
    let part = judge_slot(alloc, g, block, slot, bytes)?;
    parts.push(part)?;
    Ok(())
}

/// What is known of one of the eight slots of a block.
fn judge_slot(
    alloc: Global,
    g: &Geometry,
    block: u64,
    slot: u8,
    bytes: &[u8],
) -> Result<SlotPart, NoMemory>
    requires volume { block < g.now.dblocks }
    requires slot { slot < 8 }
    requires whole { length bytes.now ≡ 4096 }
    ensures number { IfOk result (λ part. part.slot ≡ slot) }
    ensures part { IfOk result (λ part. IsPartOf (volume_of g.now) block bytes.now part) }
{
    let ino = g.inode_of_slot(block, slot);
    let held = part(bytes, SLOT_SIZE * slot as usize, SLOT_SIZE);
    let read = read_slot(g, ino, held);
    let fact = fact_of(held, &read);
    let file = judge_file(alloc, g, ino, held, &read)?;
    Ok(SlotPart { slot, fact, file })
}

/// What the bytes of the slot of an inode say of what it reads as, where it reads so by itself.
fn judge_file(
    alloc: Global,
    g: &Geometry,
    ino: u64,
    slot: &[u8],
    read: &SlotRead,
) -> Result<SlotFile, NoMemory>
    requires slot { length slot.now ≡ 512 }
    requires itself { read.now ≡ slot_read (volume_of g.now) ino slot.now }
    ensures { IfOk result (IsFileOf (volume_of g.now) ino slot.now) }
{
    match decide_alone(alloc, g, ino, slot, read)? {
        Some(file) => Ok(SlotFile::Decided(file)),
        None => Ok(SlotFile::Naming(BoxedRead::new(alloc, *read)?)),
    }
}
