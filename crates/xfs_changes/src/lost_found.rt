//! Where lost+found stands.

use xfs_volume::Records;

/// Where lost+found stands.
#[derive(Drop)]
pub struct Lost {
    /// It is made anew.
    pub made: bool,
    /// Its inode, where it is made anew; else a number that no inode has.
    pub new: u64,
    /// The first block of the cluster that is made for it: one, or none.
    pub added: Records<u64>,
    /// Of each group the AG block from which on its blocks are spared for its trees.
    pub spared: Records<u32>,
}
