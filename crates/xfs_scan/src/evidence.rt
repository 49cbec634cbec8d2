//! The evidence of a volume.

ghost use Rattle.std.specs.Prelude.{◌≡◌, IfOk};
ghost use Rattle.xfs_scan.specs.Evidence.{dirs_seen, entries_seen, files_seen, view_seen};

use std::alloc::{AllocError, Global};
use std::marker::Model;
use xfs_dirdata::EntryRec;
use xfs_groups::GroupTrees;
use xfs_image::Finding;
use xfs_log::LogState;
use xfs_rounds::SlotFact;
use xfs_volume::{Blocks, Catalog, ClusterRec, DirRec, FileRec, Records};

/// All that a repair goes by.
#[derive(Drop)]
pub struct Evidence {
    /// The candidate clusters, by block.
    pub clusters: Records<ClusterRec>,
    /// What is kept of each of their slots, in order, 32 for each cluster.
    pub slots: Records<SlotFact>,
    /// The inodes of the files that read without their attributes.
    pub bare: Blocks,
    /// What is known of the trees of each group.
    pub trees: Records<GroupTrees>,
    /// The files that the slots have, and what the whole image says.
    pub seen: BoxedSeen,
    pub log: LogState,
}

/// The files of the candidate clusters, and what the whole image says, or the first part that does not read. No list is held twice.
#[derive(Drop)]
pub enum Seen {
    /// All reads, and the files of the catalog are those of the candidate clusters.
    Whole(Catalog),
    /// The candidate clusters have files of their own.
    Apart(Lists, Result<Catalog, Finding>),
}

/// What is seen, set apart, so that an evidence is small. Contracts see what it holds.
#[derive(Drop)]
pub struct BoxedSeen {
    seen: Box<Seen>,
}

impl Model for BoxedSeen {
    ghost use Rattle.xfs_scan.specs.declared.evidence.Seen.{Seen};

    ghost Value = { Seen };

    ghost view = { λ boxed. boxed.seen.value };
}

impl BoxedSeen {
    /// What is seen, set apart.
    pub fn new(alloc: Global, seen: Seen) -> Result<BoxedSeen, AllocError>
        ensures { IfOk result (λ boxed. boxed ≡ seen) }
    {
        Ok(BoxedSeen {
            seen: Box::new(alloc, seen)?,
        })
    }

    /// What is seen.
    pub fn as_seen(&self) -> &Seen
        ensures { result.now ≡ self.now }
    {
        &self.seen
    }

    /// What is seen, no longer apart.
    pub fn into_seen(self) -> Seen
        ensures { result ≡ self }
    {
        let BoxedSeen { seen } = self;
        Box::into_inner(seen)
    }
}

/// The files of some slots, and what is found of them.
#[derive(Drop)]
pub struct Lists {
    /// The files, by inode, with their attributes or without.
    pub files: Records<FileRec>,
    /// The entries that read of the directories among the files, by directory and then as they stand in it.
    pub entries: Records<EntryRec>,
    /// These directories, by inode.
    pub dirs: Records<DirRec>,
}

impl Seen {
    /// The files of the candidate clusters, by inode, with their attributes or without.
    pub fn files(&self) -> &[FileRec]
        ensures { result.now ≡ files_seen self.now }
    {
        match self {
            Seen::Whole(catalog) => catalog.files.as_slice(),
            Seen::Apart(lists, _) => lists.files.as_slice(),
        }
    }

    /// The entries that read of the directories among the files, by directory and then as they stand in it.
    pub fn entries(&self) -> &[EntryRec]
        ensures { result.now ≡ entries_seen self.now }
    {
        match self {
            Seen::Whole(catalog) => catalog.entries.as_slice(),
            Seen::Apart(lists, _) => lists.entries.as_slice(),
        }
    }

    /// These directories, by inode.
    pub fn dirs(&self) -> &[DirRec]
        ensures { result.now ≡ dirs_seen self.now }
    {
        match self {
            Seen::Whole(catalog) => catalog.dirs.as_slice(),
            Seen::Apart(lists, _) => lists.dirs.as_slice(),
        }
    }

    /// What the whole image says, or the first part that does not read.
    pub fn into_view(self) -> Result<Catalog, Finding>
        ensures { result ≡ view_seen self }
    {
        match self {
            Seen::Whole(catalog) => Ok(catalog),
            Seen::Apart(_, view) => view,
        }
    }
}
