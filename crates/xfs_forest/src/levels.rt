//! The levels of trees, one after the other.

ghost use Rattle.std.specs.Prelude.{ℕ, ◌+◌, ◌≤◌, [], length, OnOk};
ghost use Rattle.std.specs.Option.{ForSome};
ghost use Rattle.xfs_disk.specs.Reads.{OnlyReads};
ghost use Rattle.xfs_geom.specs.Volumes.{volume_of};
ghost use Rattle.xfs_forest.specs.Causes.{HasForestCause};
ghost use Rattle.xfs_forest.specs.Forest.{AreGrowing, Each, EachBoth, IsDescended, IsDone, IsForest, IsLow, IsThrough};

use crate::faults::ForestFault;
use crate::growing::{Growing, descend};
use crate::plants::Plant;
use crate::sweeping::read_level;
use std::alloc::Global;
use std::sync::ledger::Ledger;
use std::thread::Threads;
use xfs_collections::Steps;
use xfs_disk::{Disk, Gate};
use xfs_geom::Geometry;
use xfs_tree::Kind;

/// Reads all levels of trees, from those that they stand at.
pub(crate) fn grow_trees<K: Kind + Drop, R: Threads + Sync, D: Disk, G: Gate, L: Ledger>(
    rt: &R,
    alloc: Global,
    g: &Geometry,
    disk: &mut D,
    plants: &[Plant<K>],
    trees: &mut [Growing<K::Record, K::Key>],
    workers: u32,
    gate: &G,
    steps: &mut Steps<L>,
) -> Result<(), ForestFault>
    requires inside { g.now.dblocks ≤ D.size disk.old }
    requires forest { IsForest (length plants.now) g.now.dblocks trees.old [] }
    ensures done { OnOk result (Each IsDone (length plants.now) trees.new) }
    ensures grows { OnOk result (ForSome (D.holds disk.old) (λ image. AreGrowing K.shape (volume_of g.now) image plants.now trees.old [] → AreGrowing K.shape (volume_of g.now) image plants.now trees.new [])) }
    ensures cause { HasForestCause (D.faults disk.old) (D.faults disk.new) result }
    ensures disk { OnlyReads D.size D.holds D.write_faults D.writes D.tells_stops D.moment D.may_leave D.left_since disk.old disk.new }
    ensures reads { D.reads disk.new + steps.old ≤ D.reads disk.old + steps.new }
{
    let mut cells = Vec::new(alloc);
    let mut level = highest(trees);
    while level > 0 {
        match read_level(
            rt, alloc, g, disk, plants, trees, &mut cells, workers, gate, steps,
        ) {
            Ok(()) => {}
            Err(fault) => return Err(fault),
        }
        descend_all(alloc, trees);
        level = highest(trees);
    }
    match read_level(
        rt, alloc, g, disk, plants, trees, &mut cells, workers, gate, steps,
    ) {
        Ok(()) => Ok(()),
        Err(fault) => Err(fault),
    }
}

/// The highest level at which a tree without a fault stands.
fn highest<Record: Drop, Key: Drop>(trees: &[Growing<Record, Key>]) -> u32
    ensures all { Each (IsLow result) (length trees.now) trees.now }
    ensures least { (n : ℕ) → Each (IsLow n) (length trees.now) trees.now → result ≤ n }
{
    let mut level = 0;
    for i in 0..trees.len() {
        level = higher(level, &trees[i]);
    }
    level
}

/// The higher one of a level and that of a tree without a fault.
fn higher<Record: Drop, Key: Drop>(level: u32, tree: &Growing<Record, Key>) -> u32
    ensures same { level ≤ result }
    ensures tree { IsLow result tree.now }
    ensures least { (n : ℕ) → level ≤ n → IsLow n tree.now → result ≤ n }
{
    if tree.fault.is_none() && tree.level > level {
        tree.level
    } else {
        level
    }
}

/// Begins the level below in each tree that has one.
fn descend_all<Record: Drop, Key: Drop>(alloc: Global, trees: &mut [Growing<Record, Key>])
    requires through { Each IsThrough (length trees.old) trees.old }
    ensures { EachBoth IsDescended trees.old trees.new }
{
    for i in 0..trees.len() {
        descend(alloc, &mut trees[i]);
    }
}
