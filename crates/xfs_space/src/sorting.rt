//! Owned runs in order.

ghost use Rattle.std.specs.Prelude.{◌≡◌, ℕ, IfOk, IsPermutation, OnOk};
ghost use Rattle.xfs_space.specs.Sorted.{StartsRise};

use rayon::prelude::*;
use std::alloc::Global;
use std::thread::Threads;
use xfs_disk::NoMemory;
use xfs_geom::Run;

/// How many runs are sorted by themselves first. The runs of files mostly ascend, but for one or two of each directory, and a sort
/// leaves a stretch that ascends as it is where the stretch is long for the list: in a piece these are, in the whole list they are not.
const PIECE: usize = 2048;

/// The runs in the order of their starts, sorted by several threads where there are several workers.
pub fn in_order<R: Threads + Sync>(
    rt: &R,
    alloc: Global,
    workers: u32,
    runs: Vec<Run>,
) -> Result<Vec<Run>, NoMemory>
    ensures moved { IfOk result (λ sorted. IsPermutation runs.items sorted.items) }
    ensures rise { IfOk result (λ sorted. StartsRise 0 sorted.items) }
{
    if workers < 2 {
        in_order_alone(alloc, runs)
    } else {
        in_order_beside(rt, alloc, runs)
    }
}

/// The same, by this thread alone.
fn in_order_alone(alloc: Global, runs: Vec<Run>) -> Result<Vec<Run>, NoMemory>
    ensures moved { IfOk result (λ sorted. IsPermutation runs.items sorted.items) }
    ensures rise { IfOk result (λ sorted. StartsRise 0 sorted.items) }
{
    let mut sorted = runs;
    sort_pieces(alloc, sorted.as_mut_slice())?;
    sorted.sort()?;
    Ok(sorted)
}

/// Puts the runs of each piece in order.
fn sort_pieces(alloc: Global, runs: &mut [Run]) -> Result<(), NoMemory>
    ensures { IsPermutation runs.old runs.new }
{
    let mut at = 0;
    while at < runs.len() {
        let end = at + (runs.len() - at).min(PIECE);
        runs[at..end].sort(alloc)?;
        at = end;
    }
    Ok(())
}

/// The same, by as many threads as there are processors.
fn in_order_beside<R: Threads + Sync>(
    rt: &R,
    alloc: Global,
    runs: Vec<Run>,
) -> Result<Vec<Run>, NoMemory>
    ensures moved { IfOk result (λ sorted. IsPermutation runs.items sorted.items) }
    ensures rise { IfOk result (λ sorted. StartsRise 0 sorted.items) }
{
    let mut sorted = runs;
    par_sort(rt, alloc, &mut sorted)?;
    Ok(sorted)
}
