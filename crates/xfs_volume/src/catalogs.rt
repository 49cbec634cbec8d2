//! What a whole volume holds.

use crate::directories::DirRec;
use crate::files::FileRec;
use crate::groups::GroupRec;
use crate::lists::Records;
use xfs_dirdata::EntryRec;
use xfs_geom::{Counts, Geometry};
use xfs_heads::LogState;

/// A block with a log sequence number that it states.
#[derive(Clone, Copy, PartialEq, Eq)]
pub struct BlockLsn {
    /// The block number.
    pub block: u64,
    pub lsn: u64,
}

/// All that the trees, inodes and directories of a volume say.
#[derive(Drop)]
pub struct Catalog {
    pub geometry: Geometry,
    /// Each allocation group, in order.
    pub groups: Records<GroupRec>,
    /// The inodes in use, by number.
    pub files: Records<FileRec>,
    /// The entries of the directories without `.` and `..`, by directory and then as they stand in it.
    pub entries: Records<EntryRec>,
    /// The directories among the files, by number.
    pub dirs: Records<DirRec>,
    /// The counters of the primary superblock.
    pub counts: Counts,
    pub log: LogState,
    /// The log sequence numbers that stand in the blocks, by block and then by byte.
    pub lsns: Records<BlockLsn>,
}
