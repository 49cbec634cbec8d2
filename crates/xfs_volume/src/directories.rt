//! Directories, as they are found.

/// A directory with what its blocks say of it (chapter "Directories").
#[derive(Clone, Copy, Debug, PartialEq, Eq)]
pub struct DirRec {
    /// The number of its inode.
    pub ino: u64,
    /// The inode number that it states as its parent.
    pub parent: u64,
    /// Whether its blocks keep every rule of their form, and its index is exactly that of its entries.
    pub whole: bool,
}
