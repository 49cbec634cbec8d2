//! Where lost+found stands.

ghost use Rattle.std.specs.Prelude.{◌≡◌, ℕ, ◌+◌, ◌<◌, ◌≤◌, ◌^◌, List};
ghost use Rattle.std.specs.List.{All, find};
ghost use Rattle.xfs_dirdata.specs.declared.records.EntryRec.{EntryRec};
ghost use Rattle.xfs_links.specs.Entries.{NodesAscend};
ghost use Rattle.xfs_names.specs.Wanted.{AreDecided};
ghost use Rattle.xfs_names.specs.Place.{inodes_from, is_free_inode, free_inode, new_place, place_for, lost_place};

use crate::lookup::is_kept;
use xfs_disk::Word;
use xfs_links::{DecidedNames, NodeRec, is_reserved_inode};

/// The directory that takes orphans.
#[derive(Clone, Copy, Debug)]
pub enum LostPlace {
    /// None: there are no orphans.
    Unneeded,
    /// The root's `lost+found` that is there.
    Old(u64),
    /// A new one, in a free inode of a kept cluster.
    Slot(u64),
    /// A new one, in the first inode of a new cluster.
    Cluster,
}

/// How many inodes a cluster has.
const CLUSTER_INODES: u64 = 32;

/// Where lost+found stands, of files by number with the names that were decided for them. The clusters that are kept are told
/// by the number of the first inode of each, ascending; of their inodes the first that no file has is taken, and none of the
/// root's and the two behind it. Nothing is read.
pub fn lost_place(nodes: &[NodeRec], root: u64, clusters: &[u64], names: &DecidedNames) -> LostPlace
    requires nodes { NodesAscend 0 nodes.now }
    requires root { root < 2 ^ 32 }
    requires clusters { All (λ (first : ℕ). first < 2 ^ 32) clusters.now }
    ensures { (listed : List EntryRec) → AreDecided nodes.now listed root names.now → result ≡ lost_place nodes.now listed root clusters.now }
{
    place_for(nodes, root, clusters, names.orphans.as_slice(), names.lost)
}

/// Where these orphans go, if there are any, with the lost+found that is there.
fn place_for(
    nodes: &[NodeRec],
    root: u64,
    clusters: &[u64],
    orphans: &[(u64, Word)],
    old: Option<u64>,
) -> LostPlace
    requires nodes { NodesAscend 0 nodes.now }
    requires root { root < 2 ^ 32 }
    requires clusters { All (λ (first : ℕ). first < 2 ^ 32) clusters.now }
    ensures { result ≡ place_for orphans.now old (free_inode nodes.now root clusters.now) }
{
    if orphans.is_empty() {
        return LostPlace::Unneeded;
    }
    match old {
        Some(old) => LostPlace::Old(old),
        None => new_place(free_inode(nodes, root, clusters)),
    }
}

/// Where a new lost+found stands: in the free inode, if there is one.
fn new_place(free: Option<u64>) -> LostPlace
    ensures { result ≡ new_place free }
{
    match free {
        Some(ino) => LostPlace::Slot(ino),
        None => LostPlace::Cluster,
    }
}

/// The first free inode of some clusters.
fn free_inode(nodes: &[NodeRec], root: u64, clusters: &[u64]) -> Option<u64>
    requires nodes { NodesAscend 0 nodes.now }
    requires root { root < 2 ^ 32 }
    requires clusters { All (λ (first : ℕ). first < 2 ^ 32) clusters.now }
    ensures { result ≡ free_inode nodes.now root clusters.now }
{
    for first in clusters {
        let free = free_in_cluster(nodes, root, *first);
        if free.is_some() {
            return free;
        }
    }
    None
}

/// The first free inode of a cluster.
fn free_in_cluster(nodes: &[NodeRec], root: u64, first: u64) -> Option<u64>
    requires nodes { NodesAscend 0 nodes.now }
    requires root { root < 2 ^ 32 }
    requires first { first < 2 ^ 32 }
    ensures { result ≡ find (is_free_inode nodes.now root) (inodes_from first) }
{
    for ino in first..first + CLUSTER_INODES {
        if is_free(nodes, root, ino) {
            return Some(ino);
        }
    }
    None
}

/// Whether no file has the inode, and it is none of the root's and the system's.
fn is_free(nodes: &[NodeRec], root: u64, ino: u64) -> bool
    requires nodes { NodesAscend 0 nodes.now }
    requires root { root < 2 ^ 32 }
    ensures { result ≡ is_free_inode nodes.now root ino }
{
    !is_kept(nodes, ino) && !is_reserved_inode(root, ino)
}
