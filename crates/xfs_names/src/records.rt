//! Plain records of the names that are wanted.

use xfs_dirdata::EntryRec;
use xfs_volume::Records;

/// The names that all files are to have.
#[derive(Drop)]
pub struct WantedNames {
    /// The entries of all directories, one directory after the other, each with the type of the file that it names: those that
    /// stay, in lost+found the orphans behind them, in the root at last a new lost+found.
    pub entries: Records<EntryRec>,
    /// Each directory by number, and its parent. The root is its own.
    pub parents: Records<(u64, u64)>,
    /// Each file by number, and how many links it is to have.
    pub links: Records<(u64, u64)>,
    /// The directories that are built anew, by number.
    pub rebuilt: Records<u64>,
}
