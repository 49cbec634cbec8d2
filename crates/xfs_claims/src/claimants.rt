//! What claims blocks, and what is kept of it.

use xfs_geom::Run;
use xfs_volume::{ClusterRec, Records};

/// A file with the blocks that it claims.
#[derive(Drop)]
pub struct FileClaim {
    /// The number of its inode.
    pub ino: u64,
    /// The number of the first block of the cluster that its inode lies in.
    pub cluster: u64,
    /// The runs of its data, its attributes and its tree of extents.
    pub runs: Records<Run>,
}

/// All that claims blocks of a volume, in any order.
#[derive(Drop)]
pub struct Claims {
    /// The number of the first block of the root inode's cluster.
    pub root: u64,
    /// The runs of fixed blocks: the headers of the groups and the log.
    pub fixed: Records<Run>,
    /// The clusters, the root's among them.
    pub clusters: Records<ClusterRec>,
    pub files: Records<FileClaim>,
}

/// What is kept of the claims.
#[derive(Drop)]
pub struct KeptClaims {
    /// The number of the first block of each kept cluster, ascending.
    pub clusters: Records<u64>,
    /// The number of the inode of each kept file, ascending.
    pub files: Records<u64>,
}
