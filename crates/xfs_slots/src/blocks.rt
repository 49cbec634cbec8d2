//! The blocks of clusters.

ghost use Rattle.std.specs.Prelude.{◌≡◌, ◌+◌, ◌^◌, ◌<◌, ◌≤◌, ◌++◌, [], ◌∷◌, IfOk, OnOk};
ghost use Rattle.std.specs.List.{All, flat_map};
ghost use Rattle.xfs_volume.specs.declared.clusters.ClusterRec.{ClusterRec};
ghost use Rattle.xfs_image.specs.Slots.{cluster_blocks};

use std::alloc::Global;
use xfs_disk::NoMemory;
use xfs_volume::ClusterRec;

/// A block behind all that a chunk can have.
const END: u64 = 1 << 43;

/// The blocks of a cluster.
const CLUSTER_BLOCKS: usize = 4;

/// The blocks of clusters, in order.
pub fn blocks_of(alloc: Global, clusters: &[u64]) -> Result<Vec<u64>, NoMemory>
    requires { All (λ cluster. cluster < 2 ^ 42) clusters.now }
    ensures blocks { IfOk result (λ blocks. blocks.items ≡ flat_map cluster_blocks clusters.now) }
    ensures low { IfOk result (λ blocks. All (λ block. block < 2 ^ 43) blocks.items) }
{
    let mut blocks = room_for_blocks(alloc, clusters.len())?;
    for cluster in clusters {
        push_blocks(*cluster, END, &mut blocks)?;
    }
    Ok(blocks)
}

/// The blocks of candidate clusters, in order.
pub fn blocks_of_candidates(
    alloc: Global,
    clusters: &[ClusterRec],
    end: u64,
) -> Result<Vec<u64>, NoMemory>
    requires low { All (λ (c : ClusterRec). c.block + 4 ≤ end) clusters.now }
    ensures blocks { IfOk result (λ blocks. blocks.items ≡ flat_map (λ (c : ClusterRec). cluster_blocks c.block) clusters.now) }
    ensures low { IfOk result (λ blocks. All (λ block. block < end) blocks.items) }
{
    let mut blocks = room_for_blocks(alloc, clusters.len())?;
    for cluster in clusters {
        push_blocks(cluster.block, end, &mut blocks)?;
    }
    Ok(blocks)
}

/// An empty list with room for the blocks of so many clusters.
fn room_for_blocks(alloc: Global, clusters: usize) -> Result<Vec<u64>, NoMemory>
    ensures { IfOk result (λ blocks. blocks.items ≡ []) }
{
    let blocks = Vec::with_capacity(alloc, CLUSTER_BLOCKS.saturating_mul(clusters))?;
    Ok(blocks)
}

/// Adds the four blocks of a cluster that ends at a block or before it.
fn push_blocks(cluster: u64, end: u64, blocks: &mut Vec<u64>) -> Result<(), NoMemory>
    requires cluster { cluster + 4 ≤ end }
    requires low { All (λ block. block < end) blocks.old.items }
    ensures more { OnOk result (blocks.new.items ≡ blocks.old.items ++ cluster_blocks cluster) }
    ensures low { OnOk result (All (λ block. block < end) blocks.new.items) }
{
    for i in 0..4 {
        push(cluster + i, end, blocks)?;
    }
    Ok(())
}

/// Adds a block before an end.
fn push(block: u64, end: u64, blocks: &mut Vec<u64>) -> Result<(), NoMemory>
    requires block { block < end }
    requires low { All (λ block. block < end) blocks.old.items }
    ensures more { OnOk result (blocks.new.items ≡ blocks.old.items ++ block ∷ []) }
    ensures low { OnOk result (All (λ block. block < end) blocks.new.items) }
{
    blocks.push(block)?;
    Ok(())
}
