//! The blocks of clusters, and the slots in them (chapter "AG Inode Management").

ghost use Rattle.std.specs.Prelude.{◌≡◌, ◌+◌, ◌<◌, ◌≤◌, ◌++◌, [], ◌∷◌, length, OnOk};
ghost use Rattle.std.specs.Option.{ForSome};
ghost use Rattle.xfs_geom.specs.Conversions.{inode_of};
ghost use Rattle.xfs_geom.specs.Volumes.{volume_of};
ghost use Rattle.xfs_disk.specs.Reads.{OnlyReads};
ghost use Rattle.xfs_disk.specs.Blocks.{bytes_of_block};
ghost use Rattle.xfs_image.specs.Slots.{inodes_of_block};
ghost use Rattle.xfs_slots.specs.Causes.{HasReadCause};
ghost use Rattle.xfs_slots.specs.Facts.{AddsFacts};
ghost use Rattle.xfs_slots.specs.Gathered.{gathered, held_in, gathered_both, of_slot};
ghost use Rattle.xfs_rounds.specs.Settled.{ArePartsIn, IsPartIn, IsTold};

use crate::faults::PartFault;
use crate::inodes::Inodes;
use crate::slots::{see_slot, take_read};
use std::alloc::Global;
use std::sync::ledger::Ledger;
use xfs_collections::Steps;
use xfs_disk::{Disk, NoMemory};
use xfs_geom::Geometry;
use xfs_inode::read_slot;
use xfs_rounds::{SlotFact, SlotFile, SlotPart};
use xfs_word::part;

/// The slots of a block, and the bytes of a slot.
const SLOTS: u8 = 8;

const SLOT_SIZE: usize = 512;

/// Takes up the eight slots of a block.
pub fn see_block<D: Disk, L: Ledger>(
    alloc: Global,
    g: &Geometry,
    disk: &mut D,
    block: u64,
    bytes: &[u8],
    inodes: &mut Inodes,
    steps: &mut Steps<L>,
) -> Result<(), PartFault>
    requires inside { g.now.dblocks ≤ D.size disk.old }
    requires volume { block < g.now.dblocks }
    requires whole { length bytes.now ≡ 4096 }
    requires held { ForSome (D.holds disk.old) (λ image. bytes_of_block image block ≡ bytes.now) }
    ensures held { OnOk result (ForSome (D.holds disk.old) (λ image. held_in inodes.new ≡ gathered_both (held_in inodes.old) (gathered (volume_of g.now) image (inodes_of_block (volume_of g.now) block)))) }
    ensures cause { HasReadCause (D.faults disk.old) (D.faults disk.new) result }
    ensures disk { OnlyReads D.size D.holds D.write_faults D.writes D.tells_stops D.moment D.may_leave D.left_since disk.old disk.new }
    ensures reads { D.reads disk.new + steps.old ≤ D.reads disk.old + steps.new }
{
    for slot in 0..SLOTS {
        match see_part(alloc, g, disk, block, slot, bytes, inodes, steps) {
            Ok(()) => {}
            Err(fault) => return Err(fault),
        }
    }
    Ok(())
}

/// Takes up one of the eight slots of a block.
fn see_part<D: Disk, L: Ledger>(
    alloc: Global,
    g: &Geometry,
    disk: &mut D,
    block: u64,
    slot: u8,
    bytes: &[u8],
    inodes: &mut Inodes,
    steps: &mut Steps<L>,
) -> Result<(), PartFault>
    requires inside { g.now.dblocks ≤ D.size disk.old }
    requires volume { block < g.now.dblocks }
    requires slot { slot < 8 }
    requires whole { length bytes.now ≡ 4096 }
    requires held { ForSome (D.holds disk.old) (λ image. bytes_of_block image block ≡ bytes.now) }
    ensures held { OnOk result (ForSome (D.holds disk.old) (λ image. held_in inodes.new ≡ gathered_both (held_in inodes.old) (of_slot (volume_of g.now) image (inode_of (volume_of g.now) block slot)))) }
    ensures cause { HasReadCause (D.faults disk.old) (D.faults disk.new) result }
    ensures disk { OnlyReads D.size D.holds D.write_faults D.writes D.tells_stops D.moment D.may_leave D.left_since disk.old disk.new }
    ensures reads { D.reads disk.new + steps.old ≤ D.reads disk.old + steps.new }
{
    let ino = g.inode_of_slot(block, slot);
    let held = part(bytes, SLOT_SIZE * slot as usize, SLOT_SIZE);
    let read = read_slot(g, ino, held);
    see_slot(alloc, g, disk, ino, held, &read, inodes, steps)
}

/// Takes up the eight slots of a block, of which it is decided what they read as, and adds what is kept of each by itself.
pub(crate) fn take_block<D: Disk, L: Ledger>(
    alloc: Global,
    g: &Geometry,
    disk: &mut D,
    block: u64,
    bytes: &[u8],
    parts: Vec<SlotPart>,
    facts: &mut Vec<SlotFact>,
    inodes: &mut Inodes,
    steps: &mut Steps<L>,
) -> Result<(), PartFault>
    requires inside { g.now.dblocks ≤ D.size disk.old }
    requires volume { block < g.now.dblocks }
    requires whole { length bytes.now ≡ 4096 }
    requires held { ForSome (D.holds disk.old) (λ image. bytes_of_block image block ≡ bytes.now) }
    requires parts { ArePartsIn (volume_of g.now) (IsTold (D.holds disk.old)) block bytes.now parts.items }
    ensures facts { OnOk result (AddsFacts (volume_of g.now) block bytes.now (inodes_of_block (volume_of g.now) block) facts.old.items facts.new.items) }
    ensures held { OnOk result (ForSome (D.holds disk.old) (λ image. held_in inodes.new ≡ gathered_both (held_in inodes.old) (gathered (volume_of g.now) image (inodes_of_block (volume_of g.now) block)))) }
    ensures cause { HasReadCause (D.faults disk.old) (D.faults disk.new) result }
    ensures disk { OnlyReads D.size D.holds D.write_faults D.writes D.tells_stops D.moment D.may_leave D.left_since disk.old disk.new }
    ensures reads { D.reads disk.new + steps.old ≤ D.reads disk.old + steps.new }
{
    for part in parts {
        match take_part(alloc, g, disk, block, bytes, part, facts, inodes, steps) {
            Ok(()) => {}
            Err(fault) => return Err(fault),
        }
    }
    Ok(())
}

/// Takes up one of the eight slots of a block, and adds what is kept of it by itself.
fn take_part<D: Disk, L: Ledger>(
    alloc: Global,
    g: &Geometry,
    disk: &mut D,
    block: u64,
    bytes: &[u8],
    known: SlotPart,
    facts: &mut Vec<SlotFact>,
    inodes: &mut Inodes,
    steps: &mut Steps<L>,
) -> Result<(), PartFault>
    requires inside { g.now.dblocks ≤ D.size disk.old }
    requires volume { block < g.now.dblocks }
    requires whole { length bytes.now ≡ 4096 }
    requires held { ForSome (D.holds disk.old) (λ image. bytes_of_block image block ≡ bytes.now) }
    requires known { IsPartIn (volume_of g.now) (IsTold (D.holds disk.old)) block bytes.now known }
    ensures facts { OnOk result (AddsFacts (volume_of g.now) block bytes.now (inode_of (volume_of g.now) block known.slot ∷ []) facts.old.items facts.new.items) }
    ensures held { OnOk result (ForSome (D.holds disk.old) (λ image. held_in inodes.new ≡ gathered_both (held_in inodes.old) (of_slot (volume_of g.now) image (inode_of (volume_of g.now) block known.slot)))) }
    ensures cause { HasReadCause (D.faults disk.old) (D.faults disk.new) result }
    ensures disk { OnlyReads D.size D.holds D.write_faults D.writes D.tells_stops D.moment D.may_leave D.left_since disk.old disk.new }
    ensures reads { D.reads disk.new + steps.old ≤ D.reads disk.old + steps.new }
{
    let SlotPart { slot, fact, file } = known;
    match push_fact(fact, facts) {
        Ok(()) => {}
        Err(NoMemory) => {
            drop(file);
            return Err(PartFault::NoMemory);
        }
    }
    let ino = g.inode_of_slot(block, slot);
    let held = part(bytes, SLOT_SIZE * slot as usize, SLOT_SIZE);
    match file {
        SlotFile::Decided(file) => take_read(alloc, g, disk, ino, held, file, inodes, steps),
        SlotFile::Naming(_) | SlotFile::Named(_) => unreachable!(),
    }
}

/// Adds what is kept of a slot.
fn push_fact(fact: SlotFact, facts: &mut Vec<SlotFact>) -> Result<(), NoMemory>
    ensures { OnOk result (facts.new.items ≡ facts.old.items ++ fact ∷ []) }
{
    facts.push(fact)?;
    Ok(())
}
