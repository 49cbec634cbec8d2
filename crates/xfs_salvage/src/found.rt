//! What was found in a volume, and what is kept of it.

use xfs_dirdata::EntryRec;
use xfs_volume::{ClusterRec, DirRec, FileRec, Records};

/// What the candidate clusters of a volume gave.
#[derive(Drop)]
pub struct FoundRecords {
    /// The candidate clusters, by block.
    pub clusters: Records<ClusterRec>,
    /// The files that their slots have, by inode, with their attributes or without.
    pub files: Records<FileRec>,
    /// The entries that read of the directories among the files, by directory and then as they stand in it.
    pub entries: Records<EntryRec>,
    /// These directories, by inode.
    pub dirs: Records<DirRec>,
}

/// What is kept of it.
#[derive(Drop)]
pub struct Salvaged {
    /// The number of the first block of each kept cluster, ascending.
    pub clusters: Records<u64>,
    /// The kept files, by inode.
    pub files: Records<FileRec>,
    /// Those of the root and the two system inodes behind it that are to be made anew, ascending.
    pub fresh: Records<u64>,
    /// The entries of the kept directories, in their order.
    pub entries: Records<EntryRec>,
    /// The kept directories, by inode.
    pub dirs: Records<DirRec>,
}
