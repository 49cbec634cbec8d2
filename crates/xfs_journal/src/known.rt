//! The log sequence numbers of slots of inodes that are known before anything is read for them.

ghost use Rattle.std.specs.Prelude.{◌≡◌, IfSome};
ghost use Rattle.xfs_disk.specs.Blocks.{Image};
ghost use Rattle.xfs_journal.specs.Placed.{AreFirstNumbers, IsInBlock, lsn_place_of, number_at};

use crate::places::LsnPosition;

/// The blocks of a cluster, its slots, and those of a block.
const BLOCKS: u64 = 4;

const CLUSTER_SLOTS: usize = 32;

const BLOCK_SLOTS: usize = 8;

/// The bytes of a slot, and where it has its number.
const SLOT_SIZE: u16 = 512;

const SLOT_LSN: u16 = 112;

/// The index of the first cluster, from one on, that does not end before a block; the number of clusters, where there is none.
pub fn cluster_from(clusters: &[u64], start: usize, block: u64) -> usize {
    for cluster in start..clusters.len() {
        let first = clusters[cluster];
        if block < first || block - first < BLOCKS {
            return cluster;
        }
    }
    clusters.len()
}

/// The number at a place, where it is that of a slot of one of the clusters, the one at this index, and is known.
pub fn known_at(clusters: &[u64], known: &[u64], cluster: usize, place: &LsnPosition) -> Option<u64>
    requires inside { IsInBlock place.now }
    ensures { (image : Image) → AreFirstNumbers image clusters.now known.now → IfSome result (λ lsn. lsn ≡ number_at image (lsn_place_of place.now)) }
{
    if clusters.len() <= cluster || known.len() / CLUSTER_SLOTS <= cluster {
        return None;
    }
    let first = clusters[cluster];
    if place.block < first || BLOCKS <= place.block - first {
        return None;
    }
    if place.byte % SLOT_SIZE != SLOT_LSN {
        return None;
    }
    let slot = (place.block - first) as usize * BLOCK_SLOTS + (place.byte / SLOT_SIZE) as usize;
    Some(known[cluster * CLUSTER_SLOTS + slot])
}
