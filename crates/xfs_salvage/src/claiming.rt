//! What the clusters and files that were found claim, where they can.

ghost use Rattle.std.specs.Prelude.{◌≡◌, ◌==◌, ◌&&◌, ◌↔◌, IsTrue, map, IfOk};
ghost use Rattle.std.specs.Option.{SomeIff};
ghost use Rattle.xfs_geom.specs.Volumes.{volume_of};
ghost use Rattle.xfs_claims.specs.Ranks.{is_recorded_cluster};
ghost use Rattle.xfs_views.specs.xfs_image.Clusters.{cluster_of, root_cluster};
ghost use Rattle.xfs_views.specs.Claimed.{claims_in, file_claim};
ghost use Rattle.xfs_kinds.specs.FixedRuns.{fixed_runs};
ghost use Rattle.xfs_salvage.specs.Claimable.{AscendClaiming, CanBeSalvaged, CanClaim};

use crate::extents::is_file;
use crate::order::ascend_within;
use crate::runs::{are_apart, cluster_of, file_runs, root_cluster};
use std::alloc::{AllocError, Global};
use std::sync::ledger::Ledger;
use xfs_claims::{Claims, FileClaim};
use xfs_collections::Steps;
use xfs_disk::NoMemory;
use xfs_geom::{Geometry, Run};
use xfs_volume::{ClusterRec, FileRec, Records};

/// The owner of a group's headers. The owners that are no inode are below 0, in two's complement.
const HEADERS: u64 = u64::MAX - 2;

/// The owner of the log.
const LOG: u64 = u64::MAX - 3;

/// No inode has this number or a higher one.
const NO_INODE: u64 = 1 << 63;

/// What the clusters and files of a volume claim, beside the blocks with a fixed use; none where they cannot: where the
/// clusters do not lie in the volume in their order, the root's is no recorded one, or the files do not stand by number or
/// have extents that no file can have. What is gathered of any image can.
///
/// `NoMemory` where memory is wanting.
pub fn claims_in<L: Ledger>(
    alloc: Global,
    g: &Geometry,
    clusters: &[ClusterRec],
    files: &[FileRec],
    steps: &mut Steps<L>,
) -> Result<Option<Claims>, NoMemory>
    ensures { IfOk result (λ claims. SomeIff claims (CanBeSalvaged (volume_of g.now) clusters.now files.now) (claims_in (volume_of g.now) clusters.now files.now)) }
{
    if !has_recorded(clusters, root_cluster(g)) {
        return Ok(None);
    }
    if !ascend_within(g.dblocks, clusters) {
        return Ok(None);
    }
    match file_claims(alloc, g, files, steps)? {
        Some(claims) => Ok(Some(joined(alloc, g, clusters, claims)?)),
        None => Ok(None),
    }
}

/// Whether a recorded cluster begins at a block.
fn has_recorded(clusters: &[ClusterRec], block: u64) -> bool
    ensures { result ≡ is_recorded_cluster clusters.now block }
{
    for cluster in clusters {
        if is_recorded_at(cluster, block) {
            return true;
        }
    }
    false
}

/// Whether a cluster is recorded and begins at a block.
fn is_recorded_at(cluster: &ClusterRec, block: u64) -> bool
    ensures { result ≡ (cluster.now.recorded && cluster.now.block == block) }
{
    cluster.recorded && cluster.block == block
}

/// All claims, from those of the files.
fn joined(
    alloc: Global,
    g: &Geometry,
    clusters: &[ClusterRec],
    files: Records<FileClaim>,
) -> Result<Claims, NoMemory>
    ensures { IfOk result (λ claims. claims ≡ record { root = root_cluster (volume_of g.now); fixed = fixed_runs (volume_of g.now); clusters = clusters.now; files = files }) }
{
    let fixed = fixed_runs(alloc, g)?;
    let clusters = Vec::from_slice(alloc, clusters)?;
    Ok(Claims {
        root: root_cluster(g),
        fixed: Records::from_vec(fixed),
        clusters: Records::from_vec(clusters),
        files,
    })
}

/// The runs of the blocks with a fixed use: the log, and the first block of each group.
fn fixed_runs(alloc: Global, g: &Geometry) -> Result<Vec<Run>, AllocError>
    ensures { IfOk result (λ runs. runs.items ≡ fixed_runs (volume_of g.now)) }
{
    let mut runs = Vec::new(alloc);
    runs.push(Run {
        start: g.log,
        count: g.logblocks as u64,
        owner: LOG,
        offset_word: 0,
    })?;
    for ag in 0..g.agcount {
        runs.push(Run {
            start: g.start_of_group(ag),
            count: 1,
            owner: HEADERS,
            offset_word: 0,
        })?;
    }
    Ok(runs)
}

/// What files claim, where they stand by number and each can.
fn file_claims<L: Ledger>(
    alloc: Global,
    g: &Geometry,
    files: &[FileRec],
    steps: &mut Steps<L>,
) -> Result<Option<Records<FileClaim>>, NoMemory>
    ensures { IfOk result (λ claims. SomeIff claims (AscendClaiming (volume_of g.now) 0 files.now) (map (file_claim (volume_of g.now)) files.now)) }
{
    let mut claims = Vec::new(alloc);
    let mut low = 0;
    for file in files {
        if file.ino < low {
            return Ok(None);
        }
        match file_claim(alloc, g, file, steps)? {
            Some(claim) => claims.push(claim)?,
            None => return Ok(None),
        }
        low = file.ino + 1;
    }
    Ok(Some(Records::from_vec(claims)))
}

/// What a file claims, where it can.
fn file_claim<L: Ledger>(
    alloc: Global,
    g: &Geometry,
    file: &FileRec,
    steps: &mut Steps<L>,
) -> Result<Option<FileClaim>, NoMemory>
    ensures { IfOk result (λ claim. SomeIff claim (CanClaim (volume_of g.now) file.now) (file_claim (volume_of g.now) file.now)) }
{
    if file.ino >= NO_INODE {
        return Ok(None);
    }
    if !is_file(g, file) {
        return Ok(None);
    }
    let runs = file_runs(alloc, g, file)?;
    if !are_apart(alloc, &runs, steps)? {
        return Ok(None);
    }
    Ok(Some(claim_of(g, file.ino, runs)))
}

/// The claim of a file on some runs.
fn claim_of(g: &Geometry, ino: u64, runs: Vec<Run>) -> FileClaim
    ensures { result ≡ record { ino = ino; cluster = cluster_of (volume_of g.now) ino; runs = runs.items } }
{
    FileClaim {
        ino,
        cluster: cluster_of(g, ino),
        runs: Records::from_vec(runs),
    }
}
