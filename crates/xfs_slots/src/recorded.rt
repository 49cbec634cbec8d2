//! The clusters of the chunks that the groups of a volume have (chapter "AG Inode Management").

ghost use Rattle.std.specs.Prelude.{◌≡◌, ◌*◌, ◌^◌, ◌<◌, ◌≤◌, ◌++◌, [], ◌∷◌, if◌then◌else◌, length, IfOk, OnOk};
ghost use Rattle.std.specs.List.{All, flat_map};
ghost use Rattle.xfs_geom.specs.Volumes.{volume_of};
ghost use Rattle.xfs_image.specs.Clusters.{clusters_in};
ghost use Rattle.xfs_image.specs.Files.{clusters_of};

use std::alloc::Global;
use xfs_disk::NoMemory;
use xfs_geom::{Geometry, InoRec};
use xfs_kinds::is_missing;
use xfs_volume::GroupRec;

/// The most clusters that a chunk has.
const CHUNK_CLUSTERS: usize = 2;

/// The first blocks of the clusters of all chunks.
pub fn clusters_of(alloc: Global, g: &Geometry, groups: &[GroupRec]) -> Result<Vec<u64>, NoMemory>
    requires few { length groups.now ≤ 512 }
    ensures clusters { IfOk result (λ clusters. clusters.items ≡ clusters_of (volume_of g.now) groups.now) }
    ensures low { IfOk result (λ clusters. All (λ cluster. cluster < 2 ^ 42) clusters.items) }
{
    let mut clusters = Vec::new(alloc);
    for (ag, group) in groups.iter().enumerate() {
        push_chunks(
            ag as u64 * g.agblocks as u64,
            group.ino.as_slice(),
            &mut clusters,
        )?;
    }
    Ok(clusters)
}

/// Adds the clusters of the chunks of a group that begins at a block.
fn push_chunks(base: u64, chunks: &[InoRec], clusters: &mut Vec<u64>) -> Result<(), NoMemory>
    requires base { base < 2 ^ 41 }
    requires low { All (λ cluster. cluster < 2 ^ 42) clusters.old.items }
    ensures more { OnOk result (clusters.new.items ≡ clusters.old.items ++ flat_map (clusters_in base) chunks.now) }
    ensures low { OnOk result (All (λ cluster. cluster < 2 ^ 42) clusters.new.items) }
{
    clusters.reserve(CHUNK_CLUSTERS.saturating_mul(chunks.len()))?;
    for chunk in chunks {
        push_chunk(base, chunk, clusters)?;
    }
    Ok(())
}

/// Adds the clusters of a chunk: two, where neither half of its inodes is missing.
fn push_chunk(base: u64, chunk: &InoRec, clusters: &mut Vec<u64>) -> Result<(), NoMemory>
    requires base { base < 2 ^ 41 }
    requires low { All (λ cluster. cluster < 2 ^ 42) clusters.old.items }
    ensures more { OnOk result (clusters.new.items ≡ clusters.old.items ++ clusters_in base chunk.now) }
    ensures low { OnOk result (All (λ cluster. cluster < 2 ^ 42) clusters.new.items) }
{
    let first = base + chunk.startino as u64 / 8;
    push_unless(is_missing(chunk.holemask, 0), first, clusters)?;
    push_unless(is_missing(chunk.holemask, 8), first + 4, clusters)?;
    Ok(())
}

/// Adds a cluster, unless it is missing.
fn push_unless(missing: bool, cluster: u64, clusters: &mut Vec<u64>) -> Result<(), NoMemory>
    requires cluster { cluster < 2 ^ 42 }
    requires low { All (λ cluster. cluster < 2 ^ 42) clusters.old.items }
    ensures more { OnOk result (clusters.new.items ≡ clusters.old.items ++ (if missing then [] else cluster ∷ [])) }
    ensures low { OnOk result (All (λ cluster. cluster < 2 ^ 42) clusters.new.items) }
{
    if !missing {
        clusters.push(cluster)?;
    }
    Ok(())
}
