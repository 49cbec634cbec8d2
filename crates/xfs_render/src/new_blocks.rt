//! Which blocks of a volume are those of new chunks.

ghost use Rattle.std.specs.Prelude.{◌≡◌, ◌+◌, ◌≤◌, ◌<◌, List, length, All, IfOk};
ghost use Rattle.std.specs.List.{AllWithin};
ghost use Rattle.std.specs.List.Sorted.{IsNonDecreasingBy, IsPermutation};
ghost use Rattle.xfs_geom.specs.declared.records.Run.{Run};
ghost use Rattle.xfs_place.specs.Pool.{IsRunOf, is_taken};
ghost use Rattle.xfs_render.specs.NewBlocks.{AreReaches, reaches_of};
ghost use Rattle.xfs_render.specs.declared.new_blocks.Reach.{Reach};

use std::alloc::Global;
use xfs_disk::NoMemory;
use xfs_geom::Run;

/// The block at which a run begins, and where the farthest of the runs that begin there or before ends.
#[derive(Clone, Copy)]
pub struct Reach {
    pub start: u64,
    pub end: u64,
}

/// How far the runs of a volume of so many blocks reach, in the order in which they begin.
pub fn list_reaches(alloc: Global, _blocks: u64, runs: &[Run]) -> Result<Vec<Reach>, NoMemory>
    requires { All (IsRunOf _blocks) runs.now }
    ensures { IfOk result (λ reaches. AreReaches runs.now reaches.items) }
{
    let sorted = sort_runs(alloc, runs)?;
    reaches_of(alloc, _blocks, &sorted)
}

/// Runs in the order in which they begin.
fn sort_runs(alloc: Global, runs: &[Run]) -> Result<Vec<Run>, NoMemory>
    ensures same { IfOk result (λ sorted. IsPermutation runs.now sorted.items) }
    ensures ascend { IfOk result (λ sorted. IsNonDecreasingBy (λ (r : Run). r.start) sorted.items) }
{
    let mut sorted = Vec::from_slice(alloc, runs)?;
    sorted.sort_by_key(|run| run.start)?;
    Ok(sorted)
}

/// How far runs in this order reach.
fn reaches_of(alloc: Global, _blocks: u64, runs: &[Run]) -> Result<Vec<Reach>, NoMemory>
    requires { All (IsRunOf _blocks) runs.now }
    ensures { IfOk result (λ reaches. reaches.items ≡ reaches_of 0 runs.now) }
{
    let mut reaches = Vec::new(alloc);
    let mut far = 0;
    for run in runs {
        far = end_of(_blocks, run).max(far);
        reaches.push(Reach {
            start: run.start,
            end: far,
        })?;
    }
    Ok(reaches)
}

/// The block behind a run.
fn end_of(_blocks: u64, run: &Run) -> u64
    requires { IsRunOf _blocks run.now }
    ensures { result ≡ run.now.start + run.now.count }
{
    run.start + run.count
}

/// Whether a block is one of the runs that reach so far.
pub fn lies_in_runs(reaches: &[Reach], block: u64) -> bool
    ensures { (runs : List Run) → AreReaches runs reaches.now → result ≡ is_taken runs block }
{
    let count = count_begun(reaches, block);
    if count == 0 {
        return false;
    }
    block < reaches[count - 1].end
}

/// How many of the runs begin at a block or before it.
fn count_begun(reaches: &[Reach], block: u64) -> usize
    ensures within { result ≤ length reaches.now }
    ensures begun { IsNonDecreasingBy (λ (r : Reach). r.start) reaches.now → AllWithin (λ (r : Reach). r.start ≤ block) reaches.now 0 result }
    ensures behind { IsNonDecreasingBy (λ (r : Reach). r.start) reaches.now → AllWithin (λ (r : Reach). block < r.start) reaches.now result (length reaches.now) }
{
    reaches.partition_point(|reach| reach.start <= block)
}
