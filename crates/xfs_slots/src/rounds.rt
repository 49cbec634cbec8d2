//! The blocks of a round, of whose slots it is decided what they read as, taken up in order.

ghost use Rattle.std.specs.Prelude.{◌≡◌, ◌+◌, ◌<◌, ◌≤◌, ◌++◌, ℕ, length, map, OnOk};
ghost use Rattle.std.specs.List.{All};
ghost use Rattle.std.specs.Option.{ForSome};
ghost use Rattle.xfs_collections.specs.Bank.{blocks_at};
ghost use Rattle.xfs_geom.specs.Volumes.{volume_of};
ghost use Rattle.xfs_disk.specs.Reads.{OnlyReads};
ghost use Rattle.xfs_image.specs.Slots.{inodes_of_block};
ghost use Rattle.xfs_rounds.specs.Settled.{AreSettled, IsSettled, IsTold};
ghost use Rattle.xfs_rounds.specs.Judged.{IsListed};
ghost use Rattle.xfs_slots.specs.Causes.{HasReadCause};
ghost use Rattle.xfs_slots.specs.Facts.{slot_fact};
ghost use Rattle.xfs_slots.specs.Gathered.{gathered, held_in, inodes_of_blocks, gathered_both};

use crate::clusters::take_block;
use crate::faults::PartFault;
use crate::inodes::Inodes;
use std::alloc::Global;
use std::sync::ledger::Ledger;
use xfs_collections::{BlockBank, Steps};
use xfs_disk::{Disk, NoMemory};
use xfs_geom::Geometry;
use xfs_rounds::{BlockParts, SlotFact};

/// Takes up the slots of the blocks of a round, of which it is decided what they read as.
pub fn take_round<D: Disk, L: Ledger>(
    alloc: Global,
    g: &Geometry,
    disk: &mut D,
    round: &[u64],
    bank: &BlockBank,
    settled: Vec<BlockParts>,
    facts: &mut Vec<SlotFact>,
    inodes: &mut Inodes,
    steps: &mut Steps<L>,
) -> Result<(), PartFault>
    requires inside { g.now.dblocks ≤ D.size disk.old }
    requires volume { All (λ block. block < g.now.dblocks) round.now }
    requires bank { length bank.now ≡ length round.now }
    requires held { ForSome (D.holds disk.old) (λ image. bank.now ≡ blocks_at image round.now) }
    requires settled { AreSettled (volume_of g.now) (IsTold (D.holds disk.old)) bank.now round.now settled.items }
    ensures facts { OnOk result (ForSome (D.holds disk.old) (λ image. facts.new.items ≡ facts.old.items ++ map (slot_fact (volume_of g.now) image) (inodes_of_blocks (volume_of g.now) round.now))) }
    ensures held { OnOk result (ForSome (D.holds disk.old) (λ image. held_in inodes.new ≡ gathered_both (held_in inodes.old) (gathered (volume_of g.now) image (inodes_of_blocks (volume_of g.now) round.now)))) }
    ensures cause { HasReadCause (D.faults disk.old) (D.faults disk.new) result }
    ensures disk { OnlyReads D.size D.holds D.write_faults D.writes D.tells_stops D.moment D.may_leave D.left_since disk.old disk.new }
    ensures reads { D.reads disk.new + steps.old ≤ D.reads disk.old + steps.new }
{
    for block in settled {
        match take_settled(alloc, g, disk, round, bank, block, facts, inodes, steps) {
            Ok(()) => {}
            Err(fault) => return Err(fault),
        }
    }
    Ok(())
}

/// Takes up the slots of a block of a round.
fn take_settled<D: Disk, L: Ledger>(
    alloc: Global,
    g: &Geometry,
    disk: &mut D,
    round: &[u64],
    bank: &BlockBank,
    block: BlockParts,
    facts: &mut Vec<SlotFact>,
    inodes: &mut Inodes,
    steps: &mut Steps<L>,
) -> Result<(), PartFault>
    requires inside { g.now.dblocks ≤ D.size disk.old }
    requires volume { All (λ block. block < g.now.dblocks) round.now }
    requires bank { length bank.now ≡ length round.now }
    requires held { ForSome (D.holds disk.old) (λ image. bank.now ≡ blocks_at image round.now) }
    requires listed { IsListed round.now block }
    requires settled { IsSettled (volume_of g.now) (IsTold (D.holds disk.old)) bank.now block }
    ensures facts { OnOk result (ForSome (D.holds disk.old) (λ image. facts.new.items ≡ facts.old.items ++ map (slot_fact (volume_of g.now) image) (inodes_of_block (volume_of g.now) block.place))) }
    ensures held { OnOk result (ForSome (D.holds disk.old) (λ image. held_in inodes.new ≡ gathered_both (held_in inodes.old) (gathered (volume_of g.now) image (inodes_of_block (volume_of g.now) block.place)))) }
    ensures cause { HasReadCause (D.faults disk.old) (D.faults disk.new) result }
    ensures disk { OnlyReads D.size D.holds D.write_faults D.writes D.tells_stops D.moment D.may_leave D.left_since disk.old disk.new }
    ensures reads { D.reads disk.new + steps.old ≤ D.reads disk.old + steps.new }
{
    let BlockParts { place, at, slots } = block;
    match slots {
        Ok(parts) => take_block(
            alloc,
            g,
            disk,
            place,
            bank.view(at),
            parts,
            facts,
            inodes,
            steps,
        ),
        Err(NoMemory) => Err(PartFault::NoMemory),
    }
}
