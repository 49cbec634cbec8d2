//! The trees of extents of a round's slots, read together (chapter "Data Extents").

ghost use Rattle.std.specs.Prelude.{◌≡◌, ◌+◌, ◌≤◌, IfOk, OnOk, length};
ghost use Rattle.std.specs.Option.{ForSome};
ghost use Rattle.xfs_disk.specs.Reads.{OnlyReads};
ghost use Rattle.xfs_rounds.specs.Named.{ArePlantsOf, AreTreesOf, IsPlantOf, IsPlanted};
ghost use Rattle.xfs_geom.specs.Volumes.{volume_of};
ghost use Rattle.xfs_rounds.specs.Causes.{HasRoundCause};

use crate::faults::RoundFault;
use crate::named::NamingSlot;
use std::alloc::Global;
use std::sync::ledger::Ledger;
use std::thread::Threads;
use xfs_collections::Steps;
use xfs_disk::{Disk, Gate, NoMemory};
use xfs_forest::{ForestFault, Plant, read_forest};
use xfs_geom::Geometry;
use xfs_kinds::Bmbt;
use xfs_tree::{Tree, Unread};

/// Reads the trees of slots, of each what is below the root in its data fork. One without a tree gets one of no block.
pub(crate) fn read_trees<R: Threads + Sync, D: Disk, G: Gate, L: Ledger>(
    rt: &R,
    alloc: Global,
    g: &Geometry,
    disk: &mut D,
    slots: &[NamingSlot],
    workers: u32,
    gate: &G,
    steps: &mut Steps<L>,
) -> Result<Vec<Result<Tree<Bmbt>, Unread>>, RoundFault>
    requires inside { g.now.dblocks ≤ D.size disk.old }
    ensures read { IfOk result (λ trees. ForSome (D.holds disk.old) (λ image. AreTreesOf (volume_of g.now) image slots.now trees.items)) }
    ensures cause { HasRoundCause (D.faults disk.old) (D.faults disk.new) result }
    ensures disk { OnlyReads D.size D.holds D.write_faults D.writes D.tells_stops D.moment D.may_leave D.left_since disk.old disk.new }
    ensures reads { D.reads disk.new + steps.old ≤ D.reads disk.old + steps.new }
{
    let plants = match plants_of(alloc, slots) {
        Ok(plants) => plants,
        Err(NoMemory) => return Err(RoundFault::NoMemory),
    };
    match read_forest(rt, alloc, g, disk, plants, workers, gate, steps) {
        Ok(trees) => Ok(trees),
        Err(ForestFault::ReadFault) => Err(RoundFault::ReadFault),
        Err(ForestFault::NoMemory) => Err(RoundFault::NoMemory),
    }
}

/// What is to be read of the trees of slots.
fn plants_of(alloc: Global, slots: &[NamingSlot]) -> Result<Vec<Plant<Bmbt>>, NoMemory>
    ensures { IfOk result (λ plants. ArePlantsOf slots.now (length slots.now) plants.items) }
{
    let mut plants = Vec::with_capacity(alloc, slots.len())?;
    for i in 0..slots.len() {
        push_plant(alloc, &slots[i], &mut plants)?;
    }
    Ok(plants)
}

/// Adds what is to be read of the tree of a slot.
fn push_plant(
    alloc: Global,
    slot: &NamingSlot,
    plants: &mut Vec<Plant<Bmbt>>,
) -> Result<(), NoMemory>
    ensures { OnOk result (IsPlanted slot.now plants.old.items plants.new.items) }
{
    let plant = plant_of(alloc, slot)?;
    plants.push(plant)?;
    Ok(())
}

/// What is to be read of the tree of a slot.
fn plant_of(alloc: Global, slot: &NamingSlot) -> Result<Plant<Bmbt>, NoMemory>
    ensures { IfOk result (IsPlantOf slot.now) }
{
    let kind = Bmbt { ino: slot.ino };
    match &slot.needs.top {
        Some(top) => {
            let tops = top.seats(alloc)?;
            Ok(Plant {
                kind,
                tops,
                height: top.level,
            })
        }
        None => Ok(Plant {
            kind,
            tops: Vec::new(alloc),
            height: 0,
        }),
    }
}
