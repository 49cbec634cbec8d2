//! A round of blocks: read, judged in pieces, and joined to their trees.

ghost use Rattle.std.specs.Prelude.{◌≡◌, ◌+◌, ◌≤◌, [], length, OnOk};
ghost use Rattle.std.specs.Option.{ForSome};
ghost use Rattle.xfs_collections.specs.Bank.{blocks_at};
ghost use Rattle.xfs_disk.specs.Blocks.{Image};
ghost use Rattle.xfs_disk.specs.Reads.{OnlyReads};
ghost use Rattle.xfs_geom.specs.Volumes.{volume_of};
ghost use Rattle.xfs_forest.specs.Causes.{HasForestCause};
ghost use Rattle.xfs_forest.specs.Forest.{AreGrowing, AreListed, cell_places, EachBoth, IsForest, IsKept, spots_of};

use crate::cells::Cell;
use crate::faults::ForestFault;
use crate::growing::Growing;
use crate::joining::join_round;
use crate::loading::{load_round, places_of};
use crate::pieces::judge_pieces;
use crate::plants::Plant;
use std::alloc::Global;
use std::sync::ledger::Ledger;
use std::thread::Threads;
use xfs_collections::{BlockBank, Steps};
use xfs_disk::{Disk, Gate, NoMemory};
use xfs_geom::Geometry;
use xfs_tree::Kind;

/// Reads the blocks of a round in order, judges them in pieces, and joins them to their trees. Then the round has no block.
pub(crate) fn read_round<K: Kind + Drop, R: Threads + Sync, D: Disk, G: Gate, L: Ledger>(
    rt: &R,
    alloc: Global,
    g: &Geometry,
    disk: &mut D,
    plants: &[Plant<K>],
    trees: &mut [Growing<K::Record, K::Key>],
    cells: &mut Vec<Cell<K::Record, K::Key>>,
    workers: u32,
    gate: &G,
    steps: &mut Steps<L>,
) -> Result<(), ForestFault>
    requires inside { g.now.dblocks ≤ D.size disk.old }
    requires forest { IsForest (length plants.now) g.now.dblocks trees.old cells.old.items }
    ensures kept { OnOk result (EachBoth IsKept trees.old trees.new) }
    ensures none { OnOk result (cells.new.items ≡ []) }
    ensures grows { OnOk result (ForSome (D.holds disk.old) (λ image. AreGrowing K.shape (volume_of g.now) image plants.now trees.old (spots_of cells.old.items) → AreGrowing K.shape (volume_of g.now) image plants.now trees.new [])) }
    ensures cause { HasForestCause (D.faults disk.old) (D.faults disk.new) result }
    ensures disk { OnlyReads D.size D.holds D.write_faults D.writes D.tells_stops D.moment D.may_leave D.left_since disk.old disk.new }
    ensures reads { D.reads disk.new + steps.old ≤ D.reads disk.old + steps.new }
{
    let places = match places_of(alloc, cells) {
        Ok(places) => places,
        Err(NoMemory) => return Err(ForestFault::NoMemory),
    };
    let bank = match load_round(alloc, disk, &places, steps) {
        Ok(bank) => bank,
        Err(fault) => return Err(fault),
    };
    match settle(rt, alloc, g, plants, &bank, trees, cells, workers, gate) {
        Ok(()) => {
            cells.clear();
            Ok(())
        }
        Err(NoMemory) => Err(ForestFault::NoMemory),
    }
}

/// Judges the blocks of a round, whose bytes stand in a bank, in pieces, and joins them to their trees.
fn settle<K: Kind + Drop, R: Threads + Sync, G: Gate>(
    rt: &R,
    alloc: Global,
    g: &Geometry,
    plants: &[Plant<K>],
    bank: &BlockBank,
    trees: &mut [Growing<K::Record, K::Key>],
    cells: &mut [Cell<K::Record, K::Key>],
    workers: u32,
    gate: &G,
) -> Result<(), NoMemory>
    requires bank { length bank.now ≡ length cells.old }
    requires trees { length trees.old ≡ length plants.now }
    requires cells { AreListed (length plants.now) g.now.dblocks cells.old }
    ensures kept { OnOk result (EachBoth IsKept trees.old trees.new) }
    ensures grows { OnOk result ((image : Image) → bank.now ≡ blocks_at image (cell_places cells.old) →
        AreGrowing K.shape (volume_of g.now) image plants.now trees.old (spots_of cells.old) →
        AreGrowing K.shape (volume_of g.now) image plants.now trees.new []) }
{
    judge_pieces(rt, alloc, g, plants, bank, workers, gate, cells);
    join_round(g, plants, trees, cells)?;
    Ok(())
}
