//! The runs of blocks that a file claims (chapter "Reverse-Mapping B+tree").

ghost use Rattle.std.specs.Prelude.{◌≡◌, ◌++◌, ◌<◌, ◌↔◌, ◌^◌, ◌≤◌, IsTrue, map, IfOk, OnOk};
ghost use Rattle.std.specs.List.{All};
ghost use Rattle.xfs_geom.specs.Volumes.{volume_of};
ghost use Rattle.xfs_views.specs.xfs_image.Clusters.{cluster_of, root_cluster};
ghost use Rattle.xfs_claims.specs.Spans.{SpansApart, IsRun, spans_of};
ghost use Rattle.xfs_views.specs.xfs_space.Owners.{runs_of_blocks, extent_run, file_runs};
ghost use Rattle.xfs_views.specs.xfs_space.Parts.{HasLawfulForks};
ghost use Rattle.xfs_views.specs.xfs_space.Private.Places.{IsPlacedExtent};

use std::alloc::Global;
use std::sync::ledger::Ledger;
use xfs_collections::{RunSet, Steps};
use xfs_disk::NoMemory;
use xfs_geom::{Geometry, Run};
use xfs_space::word_of;
use xfs_volume::FileRec;
use xfs_word::Extent;

/// The flag of blocks of an extent tree.
const TREE_BLOCK: u64 = 1 << 62;

/// The flag of blocks of the attribute fork.
const ATTRIBUTE: u64 = 1 << 63;

/// What a file claims: its data, its attributes, the blocks of its tree of extents.
pub(crate) fn file_runs(alloc: Global, g: &Geometry, file: &FileRec) -> Result<Vec<Run>, NoMemory>
    requires { HasLawfulForks (volume_of g.now) file.now }
    ensures { IfOk result (λ runs. runs.items ≡ file_runs (volume_of g.now) file.now) }
{
    let mut runs = Vec::new(alloc);
    push_file_runs(&mut runs, g, file)?;
    Ok(runs)
}

/// Adds what a file claims.
pub fn push_file_runs(runs: &mut Vec<Run>, g: &Geometry, file: &FileRec) -> Result<(), NoMemory>
    requires { HasLawfulForks (volume_of g.now) file.now }
    ensures { OnOk result (runs.new.items ≡ runs.old.items ++ file_runs (volume_of g.now) file.now) }
{
    push_extents(runs, g, file.ino, 0, file.extents.as_slice())?;
    push_extents(runs, g, file.ino, ATTRIBUTE, file.rest.attr_extents())?;
    push_blocks(runs, file.ino, file.rest.tree())
}

/// Adds the blocks of the extents of a fork, with the fork's flag.
fn push_extents(
    runs: &mut Vec<Run>,
    g: &Geometry,
    ino: u64,
    flag: u64,
    extents: &[Extent],
) -> Result<(), NoMemory>
    requires flag { flag ≤ 2 ^ 63 }
    requires placed { All (IsPlacedExtent (volume_of g.now)) extents.now }
    ensures { OnOk result (runs.new.items ≡ runs.old.items ++ map (extent_run (volume_of g.now) ino flag) extents.now) }
{
    for extent in extents {
        runs.push(Run {
            start: g.number_of_address(extent.start),
            count: extent.count,
            owner: ino,
            offset_word: word_of(flag, extent),
        })?;
    }
    Ok(())
}

/// Adds the single blocks of the tree of a file's extents.
fn push_blocks(runs: &mut Vec<Run>, ino: u64, blocks: &[u64]) -> Result<(), NoMemory>
    ensures { OnOk result (runs.new.items ≡ runs.old.items ++ runs_of_blocks ino (2 ^ 62) blocks.now) }
{
    for block in blocks {
        runs.push(Run {
            start: *block,
            count: 1,
            owner: ino,
            offset_word: TREE_BLOCK,
        })?;
    }
    Ok(())
}

/// The first block of the cluster of an inode.
pub fn cluster_of(g: &Geometry, ino: u64) -> u64
    ensures { result ≡ cluster_of (volume_of g.now) ino }
{
    g.number_of_address(ino / 32 * 4)
}

/// The first block of the cluster of the root.
pub(crate) fn root_cluster(g: &Geometry) -> u64
    ensures { result ≡ root_cluster (volume_of g.now) }
{
    cluster_of(g, g.rootino)
}

/// Whether no block is of two of the runs. A single run, as most files have, is put into no set.
#[tactic(auto, using(crate::proofs::Apart::single_told))]
pub(crate) fn are_apart<L: Ledger>(
    alloc: Global,
    runs: &[Run],
    steps: &mut Steps<L>,
) -> Result<bool, NoMemory>
    requires { All IsRun runs.now }
    ensures { IfOk result (λ apart. IsTrue apart ↔ SpansApart (spans_of runs.now)) }
{
    if runs.len() <= 1 {
        return Ok(true);
    }
    are_all_apart(alloc, runs, steps)
}

/// The same, by a set of the blocks of the runs in front.
fn are_all_apart<L: Ledger>(
    alloc: Global,
    runs: &[Run],
    steps: &mut Steps<L>,
) -> Result<bool, NoMemory>
    requires { All IsRun runs.now }
    ensures { IfOk result (λ apart. IsTrue apart ↔ SpansApart (spans_of runs.now)) }
{
    let mut set = RunSet::make(alloc);
    for run in runs {
        if set.meets(run.start, run.count, steps) {
            return Ok(false);
        }
        set.add(run.start, run.count, steps)?;
    }
    Ok(true)
}
