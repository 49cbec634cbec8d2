//! What is kept of what was found.

ghost use Rattle.std.specs.Prelude.{◌≡◌, ◌<◌, ◌^◌, IfOk, OnOk};
ghost use Rattle.xfs_geom.specs.Volumes.{volume_of};
ghost use Rattle.xfs_naming.specs.Naming.{NumbersAscend, numbers_of};
ghost use Rattle.xfs_salvage.specs.Claimable.{CanBeSalvaged};
ghost use Rattle.xfs_salvage.specs.Kept.{dirs_among, entries_among, fresh_among, fresh_inodes, claims_held, kept_clusters, kept_dirs, entries_of_kept, kept_files};

use crate::claiming::claims_in;
use crate::found::{FoundRecords, Salvaged};
use crate::order::{directories_of, dirs_of, entries_of, files_that_stay, fresh_among};
use std::alloc::Global;
use std::sync::ledger::Ledger;
use std::thread::Threads;
use xfs_claims::{KeptClaims, keep};
use xfs_collections::Steps;
use xfs_dirdata::EntryRec;
use xfs_disk::NoMemory;
use xfs_geom::Geometry;
use xfs_volume::{ClusterRec, DirRec, FileRec, Records};

/// What is kept of what was found in a volume: the clusters and files that meet nothing of a higher rank, without a root
/// that is no directory and without system inodes that are no empty regular files; which of these are to be made anew; and
/// the kept directories with their entries.
///
/// `NoMemory` where memory is wanting, or where what was found cannot be that of any image.
pub fn salvage<R: Threads + Sync, L: Ledger>(
    rt: &R,
    alloc: Global,
    g: &Geometry,
    found: FoundRecords,
    steps: &mut Steps<L>,
) -> Result<Salvaged, NoMemory>
    ensures can { OnOk result (CanBeSalvaged (volume_of g.now) found.clusters found.files) }
    ensures clusters { IfOk result (λ kept. kept.clusters ≡ kept_clusters (volume_of g.now) found.clusters found.files) }
    ensures files { IfOk result (λ kept. kept.files ≡ kept_files (volume_of g.now) found.clusters found.files) }
    ensures fresh { IfOk result (λ kept. kept.fresh ≡ fresh_inodes (volume_of g.now) found.clusters found.files) }
    ensures entries { IfOk result (λ kept. kept.entries ≡ entries_of_kept (volume_of g.now) found.clusters found.files found.entries) }
    ensures dirs { IfOk result (λ kept. kept.dirs ≡ kept_dirs (volume_of g.now) found.clusters found.files found.dirs) }
{
    let FoundRecords {
        clusters,
        files,
        entries,
        dirs,
    } = found;
    let KeptClaims {
        clusters,
        files: numbers,
    } = held(rt, alloc, g, clusters.as_slice(), files.as_slice(), steps)?;
    let files = files_that_stay(g.rootino, files, numbers.as_slice());
    with_names(alloc, g.rootino, clusters, files, entries, dirs)
}

/// What is kept, from the kept clusters and files.
fn with_names(
    alloc: Global,
    root: u64,
    clusters: Records<u64>,
    files: Records<FileRec>,
    entries: Records<EntryRec>,
    dirs: Records<DirRec>,
) -> Result<Salvaged, NoMemory>
    requires low { root < 2 ^ 32 }
    requires ascend { NumbersAscend 0 (numbers_of files) }
    ensures clusters { IfOk result (λ kept. kept.clusters ≡ clusters) }
    ensures files { IfOk result (λ kept. kept.files ≡ files) }
    ensures fresh { IfOk result (λ kept. kept.fresh ≡ fresh_among files root) }
    ensures entries { IfOk result (λ kept. kept.entries ≡ entries_among files entries) }
    ensures dirs { IfOk result (λ kept. kept.dirs ≡ dirs_among files dirs) }
{
    let fresh = fresh_among(alloc, files.as_slice(), root)?;
    let directories = directories_of(alloc, files.as_slice())?;
    let entries = entries_of(&directories, entries);
    let dirs = dirs_of(&directories, dirs);
    Ok(Salvaged {
        clusters,
        files,
        fresh: Records::from_vec(fresh),
        entries,
        dirs,
    })
}

/// The clusters and files that meet nothing of a higher rank.
fn held<R: Threads + Sync, L: Ledger>(
    rt: &R,
    alloc: Global,
    g: &Geometry,
    clusters: &[ClusterRec],
    files: &[FileRec],
    steps: &mut Steps<L>,
) -> Result<KeptClaims, NoMemory>
    ensures can { OnOk result (CanBeSalvaged (volume_of g.now) clusters.now files.now) }
    ensures clusters { IfOk result (λ kept. kept.clusters ≡ (claims_held (volume_of g.now) clusters.now files.now).clusters) }
    ensures files { IfOk result (λ kept. kept.files ≡ (claims_held (volume_of g.now) clusters.now files.now).files) }
    ensures ascend { IfOk result (λ kept. NumbersAscend 0 kept.files) }
{
    match claims_in(alloc, g, clusters, files, steps)? {
        Some(claims) => keep(rt, alloc, &claims, steps),
        None => Err(NoMemory),
    }
}
