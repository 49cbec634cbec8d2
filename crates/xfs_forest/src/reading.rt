//! Trees, read together.

ghost use Rattle.std.specs.Prelude.{◌≡◌, ◌+◌, ◌≤◌, [], length, map, IfOk};
ghost use Rattle.std.specs.Option.{ForSome};
ghost use Rattle.xfs_disk.specs.Reads.{OnlyReads};
ghost use Rattle.xfs_geom.specs.Volumes.{volume_of};
ghost use Rattle.xfs_forest.specs.Causes.{HasForestCause};
ghost use Rattle.xfs_forest.specs.Forest.{AreGrowing, contents_of, IsForest, reads_as};

use crate::faults::ForestFault;
use crate::growing::Growing;
use crate::levels::grow_trees;
use crate::planting::{begin_all, finish_all};
use crate::plants::Plant;
use std::alloc::Global;
use std::sync::ledger::Ledger;
use std::thread::Threads;
use xfs_collections::Steps;
use xfs_disk::{Disk, Gate, NoMemory};
use xfs_geom::Geometry;
use xfs_tree::{Kind, Tree, Unread};

/// Reads trees, level by level, all trees of a level together: of each its records in order and its blocks, or the first block that
/// breaks a rule. The blocks of a level are read in order, tree by tree, in rounds of at most 64 blocks for each worker, of eight
/// workers at most. A round is judged in as many pieces of neighbouring blocks as there are workers or fewer, each of which first goes
/// through the gate by its number, from 0, and is then joined from the left. Each block that is read counts as a step, also where the
/// read fails; a block outside the volume, of fixed use or met before is not read, nor one of a level below a block that breaks a rule.
pub fn read_forest<K: Kind + Drop, R: Threads + Sync, D: Disk, G: Gate, L: Ledger>(
    rt: &R,
    alloc: Global,
    g: &Geometry,
    disk: &mut D,
    plants: Vec<Plant<K>>,
    workers: u32,
    gate: &G,
    steps: &mut Steps<L>,
) -> Result<Vec<Result<Tree<K>, Unread>>, ForestFault>
    requires inside { g.now.dblocks ≤ D.size disk.old }
    ensures read { IfOk result (λ grown. ForSome (D.holds disk.old) (λ image. map contents_of grown.items ≡ map (reads_as K.shape (volume_of g.now) image) plants.items)) }
    ensures cause { HasForestCause (D.faults disk.old) (D.faults disk.new) result }
    ensures disk { OnlyReads D.size D.holds D.write_faults D.writes D.tells_stops D.moment D.may_leave D.left_since disk.old disk.new }
    ensures reads { D.reads disk.new + steps.old ≤ D.reads disk.old + steps.new }
{
    let mut trees = match begin_all(alloc, &plants) {
        Ok(trees) => trees,
        Err(NoMemory) => return Err(ForestFault::NoMemory),
    };
    match read_planted(
        rt, alloc, g, disk, &plants, &mut trees, workers, gate, steps,
    ) {
        Ok(grown) => Ok(grown),
        Err(fault) => Err(fault),
    }
}

/// Reads trees of which no block is read yet.
fn read_planted<K: Kind + Drop, R: Threads + Sync, D: Disk, G: Gate, L: Ledger>(
    rt: &R,
    alloc: Global,
    g: &Geometry,
    disk: &mut D,
    plants: &[Plant<K>],
    trees: &mut [Growing<K::Record, K::Key>],
    workers: u32,
    gate: &G,
    steps: &mut Steps<L>,
) -> Result<Vec<Result<Tree<K>, Unread>>, ForestFault>
    requires inside { g.now.dblocks ≤ D.size disk.old }
    requires forest { IsForest (length plants.now) g.now.dblocks trees.old [] }
    ensures read { IfOk result (λ grown. ForSome (D.holds disk.old) (λ image. AreGrowing K.shape (volume_of g.now) image plants.now trees.old [] →
        map contents_of grown.items ≡ map (reads_as K.shape (volume_of g.now) image) plants.now)) }
    ensures cause { HasForestCause (D.faults disk.old) (D.faults disk.new) result }
    ensures disk { OnlyReads D.size D.holds D.write_faults D.writes D.tells_stops D.moment D.may_leave D.left_since disk.old disk.new }
    ensures reads { D.reads disk.new + steps.old ≤ D.reads disk.old + steps.new }
{
    match grow_trees(rt, alloc, g, disk, plants, trees, workers, gate, steps) {
        Ok(()) => {}
        Err(fault) => return Err(fault),
    }
    match finish_all(alloc, g, plants, trees) {
        Ok(grown) => Ok(grown),
        Err(NoMemory) => Err(ForestFault::NoMemory),
    }
}
