//! What the laws of names look at.

use crate::kinds::FileKind;
use crate::runs::Link;
use xfs_dirdata::EntryRec;
use xfs_volume::{DirRec, FileRec};

/// The files, directories and entries of a volume, and its links in the order of what they name.
#[derive(Clone, Copy)]
pub struct Names<'a> {
    /// The inode number of the root.
    pub root: u64,
    /// The files in use, by number.
    pub files: &'a [FileRec],
    /// What is asked of each of them again and again, in their order.
    pub kinds: &'a [FileKind],
    /// The entries of all directories, by directory.
    pub entries: &'a [EntryRec],
    /// The directories, by number.
    pub dirs: &'a [DirRec],
    /// A link for each entry, by what it names.
    pub links: &'a [Link],
}

/// Where files and links are looked for first: what goes by ascending numbers finds them so.
#[derive(Clone, Copy)]
pub struct Near {
    /// A place among the files and their kinds.
    pub files: usize,
    /// A place among the links.
    pub links: usize,
}
