//! The blocks of what is kept (chapter "Reverse-Mapping B+tree").

ghost use Rattle.std.specs.Prelude.{◌≡◌, ◌++◌, map, IfOk, OnOk};
ghost use Rattle.std.specs.List.{All, flat_map};
ghost use Rattle.xfs_geom.specs.Volumes.{volume_of};
ghost use Rattle.xfs_space.specs.Parts.{HasLawfulForks};
ghost use Rattle.xfs_space.specs.Owners.{file_runs};
ghost use Rattle.xfs_salvage.specs.Kept.{run_of_cluster, taken_of};

use std::alloc::Global;
use xfs_disk::NoMemory;
use xfs_geom::{Geometry, Run};
use xfs_salvage::{Salvaged, push_file_runs};
use xfs_volume::FileRec;

/// The owner of the blocks of inodes.
const INODES: u64 = u64::MAX - 6;

/// The blocks of a cluster.
const CLUSTER_BLOCKS: u64 = 4;

/// The runs of the kept clusters, and behind them those that the kept files claim.
pub fn taken_runs(alloc: Global, g: &Geometry, kept: &Salvaged) -> Result<Vec<Run>, NoMemory>
    requires { All (HasLawfulForks (volume_of g.now)) kept.now.files }
    ensures { IfOk result (λ runs. runs.items ≡ taken_of (volume_of g.now) kept.now.clusters kept.now.files) }
{
    let mut runs = Vec::new(alloc);
    push_clusters(kept.clusters.as_slice(), &mut runs)?;
    push_files(g, kept.files.as_slice(), &mut runs)?;
    Ok(runs)
}

/// Adds the runs of clusters.
fn push_clusters(clusters: &[u64], runs: &mut Vec<Run>) -> Result<(), NoMemory>
    ensures { OnOk result (runs.new.items ≡ runs.old.items ++ map run_of_cluster clusters.now) }
{
    for block in clusters {
        runs.push(Run {
            start: *block,
            count: CLUSTER_BLOCKS,
            owner: INODES,
            offset_word: 0,
        })?;
    }
    Ok(())
}

/// Adds the runs that files claim.
fn push_files(g: &Geometry, files: &[FileRec], runs: &mut Vec<Run>) -> Result<(), NoMemory>
    requires { All (HasLawfulForks (volume_of g.now)) files.now }
    ensures { OnOk result (runs.new.items ≡ runs.old.items ++ flat_map (file_runs (volume_of g.now)) files.now) }
{
    for file in files {
        push_file_runs(runs, g, file)?;
    }
    Ok(())
}
