//! What the slots of a round read as with the blocks that they name.

ghost use Rattle.std.specs.Prelude.{◌≡◌, ℕ, ◌+◌, ◌<◌, ◌≤◌, List, IfOk, OnOk, length, slice_index_or};
ghost use Rattle.std.specs.Option.{ForSome};
ghost use Rattle.xfs_disk.specs.Reads.{OnlyReads};
ghost use Rattle.xfs_rounds.specs.Named.{AreFound, AreFoundIn, AreWithin, IsAtHand};
ghost use Rattle.xfs_rounds.specs.Settled.{AreSettled, IsTold};
ghost use Rattle.xfs_geom.specs.Volumes.{volume_of};
ghost use Rattle.xfs_rounds.specs.Causes.{HasRoundCause};
ghost use Rattle.xfs_rounds.specs.Judged.{AreListed};

use crate::faults::RoundFault;
use crate::loading::load_round;
use crate::named::NamedSlots;
use crate::naming::name_slots;
use crate::pieces::BlockParts;
use crate::settling::{FoundBlocks, settle_pieces};
use crate::trees::read_trees;
use std::alloc::Global;
use std::sync::ledger::Ledger;
use std::thread::Threads;
use xfs_collections::{BlockBank, Steps};
use xfs_disk::{Disk, Gate, NoMemory};
use xfs_geom::Geometry;

/// Decides what each slot of a round reads as, where its bytes alone do not say it: the blocks that it names are read, those of
/// all slots together, and it is then decided in pieces by several workers, each of which first goes through the gate. Each block
/// that is read counts as a step, also where the read fails. Where no slot names a block, nothing is read.
pub fn settle_round<R: Threads + Sync, D: Disk, G: Gate, L: Ledger>(
    rt: &R,
    alloc: Global,
    g: &Geometry,
    disk: &mut D,
    bank: &BlockBank,
    judged: &mut [BlockParts],
    workers: u32,
    gate: &G,
    steps: &mut Steps<L>,
) -> Result<(), RoundFault>
    requires inside { g.now.dblocks ≤ D.size disk.old }
    requires judged { (i : ℕ) (d : BlockParts) → i < length judged.old → IsAtHand (volume_of g.now) g.now.dblocks bank.now (slice_index_or judged.old i d) }
    ensures settled { OnOk result ((round : List ℕ) → AreListed round judged.old → AreSettled (volume_of g.now) (IsTold (D.holds disk.old)) bank.now round judged.new) }
    ensures cause { HasRoundCause (D.faults disk.old) (D.faults disk.new) result }
    ensures disk { OnlyReads D.size D.holds D.write_faults D.writes D.tells_stops D.moment D.may_leave D.left_since disk.old disk.new }
    ensures reads { D.reads disk.new + steps.old ≤ D.reads disk.old + steps.new }
{
    let named = match name_slots(alloc, g, bank, judged) {
        Ok(named) => named,
        Err(NoMemory) => return Err(RoundFault::NoMemory),
    };
    if named.slots.is_empty() {
        drop(named);
        return Ok(());
    }
    match read_named(rt, alloc, g, disk, &named, workers, gate, steps) {
        Ok(found) => {
            settle_pieces(rt, alloc, g, bank, &named, &found, workers, gate, judged);
            drop(found);
            drop(named);
            Ok(())
        }
        Err(fault) => {
            drop(named);
            Err(fault)
        }
    }
}

/// Reads the blocks that slots name.
fn read_named<R: Threads + Sync, D: Disk, G: Gate, L: Ledger>(
    rt: &R,
    alloc: Global,
    g: &Geometry,
    disk: &mut D,
    named: &NamedSlots,
    workers: u32,
    gate: &G,
    steps: &mut Steps<L>,
) -> Result<FoundBlocks, RoundFault>
    requires inside { g.now.dblocks ≤ D.size disk.old }
    requires within { AreWithin g.now.dblocks named.now }
    ensures found { IfOk result (AreFound named.now) }
    ensures read { IfOk result (λ found. ForSome (D.holds disk.old) (AreFoundIn (volume_of g.now) named.now found)) }
    ensures cause { HasRoundCause (D.faults disk.old) (D.faults disk.new) result }
    ensures disk { OnlyReads D.size D.holds D.write_faults D.writes D.tells_stops D.moment D.may_leave D.left_since disk.old disk.new }
    ensures reads { D.reads disk.new + steps.old ≤ D.reads disk.old + steps.new }
{
    let trees = match read_trees(rt, alloc, g, disk, &named.slots, workers, gate, steps) {
        Ok(trees) => trees,
        Err(fault) => return Err(fault),
    };
    let leaves = match load_round(alloc, disk, &named.leaves, steps) {
        Ok(leaves) => leaves,
        Err(fault) => return Err(fault),
    };
    match load_round(alloc, disk, &named.links, steps) {
        Ok(links) => Ok(FoundBlocks {
            trees,
            leaves,
            links,
        }),
        Err(fault) => Err(fault),
    }
}
