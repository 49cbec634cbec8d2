//! What is found of a directory, or why nothing is.

use xfs_dirdata::EntryRec;
use xfs_volume::Records;

/// What is found of a directory.
#[derive(Drop)]
pub struct DirFound {
    /// The inode number that it states as its parent; 0 where none reads.
    pub parent: u64,
    /// Whether it keeps every rule of its form, and all its blocks are sealed for it.
    pub whole: bool,
    /// Its entries, in its order, without those of itself and its parent.
    pub entries: Records<EntryRec>,
}

/// Why a directory is not read.
#[derive(Clone, Copy)]
pub enum DirectoryFault {
    /// A read failed.
    ReadFault,
    /// There is not enough memory.
    NoMemory,
}
