//! What the slots of inodes give.

ghost use Rattle.std.specs.Prelude.{◌≡◌};
ghost use Rattle.xfs_slots.specs.Gathered.{held_in, gathered_both, nothing_gathered, of_none};

use std::alloc::Global;
use xfs_dirdata::EntryRec;
use xfs_volume::{DirRec, FileRec};

/// An inode with a feature that is not supported.
#[derive(Clone, Copy)]
pub struct InodeFeature {
    /// The number of the inode.
    pub ino: u64,
    /// The number of the feature.
    pub what: u8,
}

/// What the slots of some inodes give.
#[derive(Drop)]
pub struct Inodes {
    /// The files, with their attributes or without.
    pub files: Vec<FileRec>,
    /// The inodes of the files without their attributes.
    pub bare: Vec<u64>,
    /// The entries of the directories among the files.
    pub entries: Vec<EntryRec>,
    /// These directories.
    pub dirs: Vec<DirRec>,
    /// The first inode that is neither free nor a file with its attributes.
    pub unread: Option<u64>,
    /// The first inode with a feature that is not supported.
    pub feature: Option<InodeFeature>,
}

impl Inodes {
    /// What no slot gives.
    pub fn new(alloc: Global) -> Inodes
        ensures { held_in result ≡ nothing_gathered }
    {
        Inodes {
            files: Vec::new(alloc),
            bare: Vec::new(alloc),
            entries: Vec::new(alloc),
            dirs: Vec::new(alloc),
            unread: None,
            feature: None,
        }
    }

    /// Passes over an inode that has no file to be read.
    pub fn pass(&mut self, ino: u64, feature: Option<InodeFeature>)
        ensures { held_in self.new ≡ gathered_both (held_in self.old) (of_none ino feature) }
    {
        if self.unread.is_none() {
            self.unread = Some(ino);
        }
        if self.feature.is_none() {
            self.feature = feature;
        }
    }
}
