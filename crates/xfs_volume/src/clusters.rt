//! Clusters of inodes.

/// A cluster: four neighbouring blocks with 32 inodes (chapter "AG Inode Management").
#[derive(Clone, Copy, Debug, PartialEq, Eq, PartialOrd, Ord)]
pub struct ClusterRec {
    /// The number of its first block, counted from the start of the image.
    pub block: u64,
    /// Whether a tree of its group names it; otherwise it was found by its bytes.
    pub recorded: bool,
}
