//! The blocks of one level of all trees, taken into rounds.

ghost use Rattle.std.specs.Prelude.{◌≡◌, ℕ, ◌+◌, ◌<◌, ◌≤◌, [], Some, true, false, drop, length, OnOk, slice_index_or};
ghost use Rattle.std.specs.Option.{ForSome};
ghost use Rattle.xfs_disk.specs.Blocks.{Image};
ghost use Rattle.xfs_disk.specs.Reads.{OnlyReads};
ghost use Rattle.xfs_geom.specs.Volumes.{volume_of};
ghost use Rattle.xfs_forest.specs.Causes.{HasForestCause};
ghost use Rattle.xfs_forest.specs.declared.plants.Plant.{Plant};
ghost use Rattle.xfs_forest.specs.declared.growing.Growing.{Growing};
ghost use Rattle.xfs_tree.specs.Rules.{place_fault};
ghost use Rattle.xfs_forest.specs.Forest.{AreGrowing, Each, EachBoth, IsForest, IsKept, IsNext, IsOnward, IsThrough, room_of, spots_of};

use crate::cells::Cell;
use crate::faults::ForestFault;
use crate::growing::Growing;
use crate::plants::Plant;
use crate::rounds::read_round;
use crate::taking::{Next, next_seat, pass_seat};
use std::alloc::Global;
use std::sync::ledger::Ledger;
use std::thread::Threads;
use xfs_collections::Steps;
use xfs_disk::{Disk, Gate, NoMemory};
use xfs_geom::Geometry;
use xfs_tree::Kind;

/// The blocks of a round for each worker.
const PIECE: usize = 64;

/// The most workers whose blocks a round has.
const WORKERS: u32 = 8;

/// How many blocks a round has at most.
fn round_size(workers: u32) -> usize {
    PIECE * workers.max(1).min(WORKERS) as usize
}

/// Reads the blocks of one level of all trees, in rounds, the trees one behind the other.
pub(crate) fn read_level<K: Kind + Drop, R: Threads + Sync, D: Disk, G: Gate, L: Ledger>(
    rt: &R,
    alloc: Global,
    g: &Geometry,
    disk: &mut D,
    plants: &[Plant<K>],
    trees: &mut [Growing<K::Record, K::Key>],
    cells: &mut Vec<Cell<K::Record, K::Key>>,
    workers: u32,
    gate: &G,
    steps: &mut Steps<L>,
) -> Result<(), ForestFault>
    requires inside { g.now.dblocks ≤ D.size disk.old }
    requires forest { IsForest (length plants.now) g.now.dblocks trees.old cells.old.items }
    ensures forest { OnOk result (IsForest (length plants.now) g.now.dblocks trees.new cells.new.items) }
    ensures onward { OnOk result (EachBoth IsOnward trees.old trees.new) }
    ensures through { OnOk result (Each IsThrough (length plants.now) trees.new) }
    ensures none { OnOk result (cells.new.items ≡ []) }
    ensures grows { OnOk result (ForSome (D.holds disk.old) (λ image. AreGrowing K.shape (volume_of g.now) image plants.now trees.old (spots_of cells.old.items) → AreGrowing K.shape (volume_of g.now) image plants.now trees.new [])) }
    ensures cause { HasForestCause (D.faults disk.old) (D.faults disk.new) result }
    ensures disk { OnlyReads D.size D.holds D.write_faults D.writes D.tells_stops D.moment D.may_leave D.left_since disk.old disk.new }
    ensures reads { D.reads disk.new + steps.old ≤ D.reads disk.old + steps.new }
{
    for t in 0..trees.len() {
        match read_row(
            rt, alloc, g, disk, plants, t, trees, cells, workers, gate, steps,
        ) {
            Ok(()) => {}
            Err(fault) => return Err(fault),
        }
    }
    match read_round(
        rt, alloc, g, disk, plants, trees, cells, workers, gate, steps,
    ) {
        Ok(()) => Ok(()),
        Err(fault) => Err(fault),
    }
}

/// Takes the blocks of a tree's row into rounds, and reads each round that is full.
fn read_row<K: Kind + Drop, R: Threads + Sync, D: Disk, G: Gate, L: Ledger>(
    rt: &R,
    alloc: Global,
    g: &Geometry,
    disk: &mut D,
    plants: &[Plant<K>],
    t: usize,
    trees: &mut [Growing<K::Record, K::Key>],
    cells: &mut Vec<Cell<K::Record, K::Key>>,
    workers: u32,
    gate: &G,
    steps: &mut Steps<L>,
) -> Result<(), ForestFault>
    requires inside { g.now.dblocks ≤ D.size disk.old }
    requires forest { IsForest (length plants.now) g.now.dblocks trees.old cells.old.items }
    requires number { t < length plants.now }
    ensures forest { OnOk result (IsForest (length plants.now) g.now.dblocks trees.new cells.new.items) }
    ensures onward { OnOk result (EachBoth IsOnward trees.old trees.new) }
    ensures through { OnOk result ((d : Growing K.Record K.Key) → IsThrough (slice_index_or trees.new t d)) }
    ensures grows { OnOk result (ForSome (D.holds disk.old) (λ image. AreGrowing K.shape (volume_of g.now) image plants.now trees.old (spots_of cells.old.items) → AreGrowing K.shape (volume_of g.now) image plants.now trees.new (spots_of cells.new.items))) }
    ensures cause { HasForestCause (D.faults disk.old) (D.faults disk.new) result }
    ensures disk { OnlyReads D.size D.holds D.write_faults D.writes D.tells_stops D.moment D.may_leave D.left_since disk.old disk.new }
    ensures reads { D.reads disk.new + steps.old ≤ D.reads disk.old + steps.new }
{
    'taking: while has_more(&trees[t]) {
        match read_next(
            rt, alloc, g, disk, plants, t, trees, cells, workers, gate, steps,
        ) {
            Ok(()) => {}
            Err(fault) => return Err(fault),
        }
    }
    Ok(())
}

/// Whether a tree has no fault, and its row a block that was not taken.
fn has_more<Record: Drop, Key: Drop>(tree: &Growing<Record, Key>) -> bool
    ensures more { result ≡ true → tree.now.at < length tree.now.row.items }
    ensures through { result ≡ false → IsThrough tree.now }
{
    tree.fault.is_none() && tree.at < tree.row.len()
}

/// Passes the next block of a tree's row. The round is read before, where it is full or the block breaks a rule by its place.
fn read_next<K: Kind + Drop, R: Threads + Sync, D: Disk, G: Gate, L: Ledger>(
    rt: &R,
    alloc: Global,
    g: &Geometry,
    disk: &mut D,
    plants: &[Plant<K>],
    t: usize,
    trees: &mut [Growing<K::Record, K::Key>],
    cells: &mut Vec<Cell<K::Record, K::Key>>,
    workers: u32,
    gate: &G,
    steps: &mut Steps<L>,
) -> Result<(), ForestFault>
    requires inside { g.now.dblocks ≤ D.size disk.old }
    requires forest { IsForest (length plants.now) g.now.dblocks trees.old cells.old.items }
    requires number { t < length plants.now }
    requires more { (d : Growing K.Record K.Key) → (slice_index_or trees.old t d).at < length (slice_index_or trees.old t d).row.items }
    ensures forest { OnOk result (IsForest (length plants.now) g.now.dblocks trees.new cells.new.items) }
    ensures onward { OnOk result (EachBoth IsOnward trees.old trees.new) }
    ensures less { OnOk result (room_of (drop t trees.new) < room_of (drop t trees.old)) }
    ensures grows { OnOk result (ForSome (D.holds disk.old) (λ image. AreGrowing K.shape (volume_of g.now) image plants.now trees.old (spots_of cells.old.items) → AreGrowing K.shape (volume_of g.now) image plants.now trees.new (spots_of cells.new.items))) }
    ensures cause { HasForestCause (D.faults disk.old) (D.faults disk.new) result }
    ensures disk { OnlyReads D.size D.holds D.write_faults D.writes D.tells_stops D.moment D.may_leave D.left_since disk.old disk.new }
    ensures reads { D.reads disk.new + steps.old ≤ D.reads disk.old + steps.new }
{
    let next = next_seat(&plants[t].kind, g, &trees[t]);
    let needed = needs_room(&next, cells.len(), workers);
    match make_room(
        rt, alloc, g, disk, plants, needed, trees, cells, workers, gate, steps,
    ) {
        Ok(()) => {}
        Err(fault) => return Err(fault),
    }
    match pass_next(g, plants, t, next, trees, cells) {
        Ok(()) => Ok(()),
        Err(NoMemory) => Err(ForestFault::NoMemory),
    }
}

/// Whether the round is to be read before a block is passed: it is full, or the block breaks a rule by its place.
fn needs_room<Key: Copy>(next: &Next<Key>, taken: usize, workers: u32) -> bool
    ensures { (broken : ℕ) → next.now.rule ≡ Some broken → result ≡ true }
{
    next.rule.is_some() || taken >= round_size(workers)
}

/// Reads the round, where that is needed.
fn make_room<K: Kind + Drop, R: Threads + Sync, D: Disk, G: Gate, L: Ledger>(
    rt: &R,
    alloc: Global,
    g: &Geometry,
    disk: &mut D,
    plants: &[Plant<K>],
    needed: bool,
    trees: &mut [Growing<K::Record, K::Key>],
    cells: &mut Vec<Cell<K::Record, K::Key>>,
    workers: u32,
    gate: &G,
    steps: &mut Steps<L>,
) -> Result<(), ForestFault>
    requires inside { g.now.dblocks ≤ D.size disk.old }
    requires forest { IsForest (length plants.now) g.now.dblocks trees.old cells.old.items }
    ensures kept { OnOk result (EachBoth IsKept trees.old trees.new) }
    ensures forest { OnOk result (IsForest (length plants.now) g.now.dblocks trees.new cells.new.items) }
    ensures none { OnOk result (needed ≡ true → cells.new.items ≡ []) }
    ensures grows { OnOk result (ForSome (D.holds disk.old) (λ image. AreGrowing K.shape (volume_of g.now) image plants.now trees.old (spots_of cells.old.items) → AreGrowing K.shape (volume_of g.now) image plants.now trees.new (spots_of cells.new.items))) }
    ensures cause { HasForestCause (D.faults disk.old) (D.faults disk.new) result }
    ensures disk { OnlyReads D.size D.holds D.write_faults D.writes D.tells_stops D.moment D.may_leave D.left_since disk.old disk.new }
    ensures reads { D.reads disk.new + steps.old ≤ D.reads disk.old + steps.new }
{
    if !needed {
        return Ok(());
    }
    match read_round(
        rt, alloc, g, disk, plants, trees, cells, workers, gate, steps,
    ) {
        Ok(()) => Ok(()),
        Err(fault) => Err(fault),
    }
}

/// Passes the next block of a tree's row.
fn pass_next<K: Kind + Drop>(
    g: &Geometry,
    plants: &[Plant<K>],
    t: usize,
    next: Next<K::Key>,
    trees: &mut [Growing<K::Record, K::Key>],
    cells: &mut Vec<Cell<K::Record, K::Key>>,
) -> Result<(), NoMemory>
    requires forest { IsForest (length plants.now) g.now.dblocks trees.old cells.old.items }
    requires number { t < length plants.now }
    requires next { (d : Growing K.Record K.Key) → IsNext g.now.dblocks (slice_index_or trees.old t d) next.seat next.rule }
    requires broken { (p : Plant K K.Record K.Key) (d : Growing K.Record K.Key) → next.rule ≡ place_fault (K.shape (slice_index_or plants.now t p).kind) (volume_of g.now) (slice_index_or trees.old t d).met.blocks.items next.seat.place }
    requires alone { (broken : ℕ) → next.rule ≡ Some broken → cells.old.items ≡ [] }
    ensures forest { OnOk result (IsForest (length plants.now) g.now.dblocks trees.new cells.new.items) }
    ensures onward { OnOk result (EachBoth IsOnward trees.old trees.new) }
    ensures less { OnOk result (room_of (drop t trees.new) < room_of (drop t trees.old)) }
    ensures grows { OnOk result ((image : Image) → AreGrowing K.shape (volume_of g.now) image plants.now trees.old (spots_of cells.old.items) → AreGrowing K.shape (volume_of g.now) image plants.now trees.new (spots_of cells.new.items)) }
{
    pass_seat(t, next.seat, next.rule, &mut trees[t], cells)?;
    Ok(())
}
