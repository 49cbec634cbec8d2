//! The places of log sequence numbers (chapter "Journaling Log").

ghost use Rattle.std.specs.Prelude.{◌≡◌, ◌+◌, ◌^◌, ◌≤◌, ◌<◌, ◌++◌, [], ◌∷◌, map, length, IfOk, OnOk};
ghost use Rattle.std.specs.List.{All};
ghost use Rattle.xfs_geom.specs.Volumes.{volume_of};
ghost use Rattle.xfs_image.specs.Files.{clusters_of};
ghost use Rattle.xfs_image.specs.Lsns.{at, lsn_places};
ghost use Rattle.xfs_journal.specs.Placed.{IsInBlock, listed};

use crate::files::push_file_places;
use crate::groups::{push_cluster_places, push_group_places};
use std::alloc::Global;
use xfs_disk::NoMemory;
use xfs_geom::Geometry;
use xfs_volume::{FileRec, GroupRec};

/// Where the primary superblock has its number, in bytes.
const SUPER_LSN: u16 = 240;

/// The slots of a cluster of inodes; each has one place.
const CLUSTER_SLOTS: usize = 32;

/// Where a log sequence number stands.
#[derive(Clone, Copy, PartialEq, Eq, PartialOrd, Ord)]
pub struct LsnPosition {
    /// The block number.
    pub block: u64,
    /// The offset in the block, in bytes.
    pub byte: u16,
}

/// All places of a volume: those of the primary superblock, the groups, the slots of their clusters, and the files.
pub fn all_places(
    alloc: Global,
    g: &Geometry,
    groups: &[GroupRec],
    clusters: &[u64],
    files: &[FileRec],
) -> Result<Vec<LsnPosition>, NoMemory>
    requires few { length groups.now ≤ 512 }
    requires clusters { clusters.now ≡ clusters_of (volume_of g.now) groups.now }
    requires low { All (λ cluster. cluster < 2 ^ 60) clusters.now }
    ensures listed { IfOk result (λ places. listed places.items ≡ lsn_places (volume_of g.now) groups.now files.now) }
    ensures inside { IfOk result (λ places. All IsInBlock places.items) }
{
    let mut places = room_for_places(alloc, clusters, files)?;
    push(0, SUPER_LSN, &mut places)?;
    push_group_places(g, groups, &mut places)?;
    push_cluster_places(clusters, &mut places)?;
    push_file_places(g, files, &mut places)?;
    Ok(places)
}

/// An empty list with room for the places of all slots of clusters, and for some of files, so that it seldom grows.
fn room_for_places(
    alloc: Global,
    clusters: &[u64],
    files: &[FileRec],
) -> Result<Vec<LsnPosition>, NoMemory>
    ensures { IfOk result (λ places. places.items ≡ []) }
{
    let slots = CLUSTER_SLOTS.saturating_mul(clusters.len());
    let places = Vec::with_capacity(alloc, slots.saturating_add(files.len()))?;
    Ok(places)
}

/// Adds the place at this byte of a block.
pub fn push(block: u64, byte: u16, places: &mut Vec<LsnPosition>) -> Result<(), NoMemory>
    requires byte { byte + 8 ≤ 4096 }
    requires inside { All IsInBlock places.old.items }
    ensures listed { OnOk result (listed places.new.items ≡ listed places.old.items ++ at byte block ∷ []) }
    ensures inside { All IsInBlock places.new.items }
{
    places.push(LsnPosition { block, byte })?;
    Ok(())
}

/// Adds the place at this byte of each block.
pub fn push_each(blocks: &[u64], byte: u16, places: &mut Vec<LsnPosition>) -> Result<(), NoMemory>
    requires byte { byte + 8 ≤ 4096 }
    requires inside { All IsInBlock places.old.items }
    ensures listed { OnOk result (listed places.new.items ≡ listed places.old.items ++ map (at byte) blocks.now) }
    ensures inside { All IsInBlock places.new.items }
{
    for block in blocks {
        push(*block, byte, places)?;
    }
    Ok(())
}
