//! Plain records of files and of what is decided about their names.

use xfs_dirdata::EntryRec;
use xfs_disk::Word;
use xfs_volume::Records;

/// A file that is kept.
#[derive(Clone, Copy)]
pub struct NodeRec {
    /// The number of its inode.
    pub ino: u64,
    /// What kind of file it is: the upper four bits of its mode, 4 for a directory.
    pub kind: u8,
}

/// What is decided about the names of all files.
#[derive(Drop)]
pub struct DecidedNames {
    /// The entries that stay, in the order in which they came.
    pub entries: Records<EntryRec>,
    /// Each directory that has a parent, and its parent, by the directory's number. The root is its own
    /// parent.
    pub parents: Records<(u64, u64)>,
    /// Each orphan by number, and the name that it gets in `lost+found`.
    pub orphans: Records<(u64, Word)>,
    /// The directory `lost+found` of the root, if there is one.
    pub lost: Option<u64>,
}

/// The kind of a directory in a `NodeRec`.
pub const DIRECTORY: u8 = 4;
