//! What is known of a volume in which a name or a directory has to change.

ghost use Rattle.std.specs.Prelude.{◌≡◌, IfOk};

use std::alloc::{AllocError, Global};
use std::marker::Model;
use xfs_dirdata::EntryRec;
use xfs_log::LogState;
use xfs_place::Wanted;
use xfs_render::SlotWanted;
use xfs_request::SlotSeen;
use xfs_volume::{DirRec, FileRec, Records};

/// What is kept of it, and what would be asked of it if no name changed.
#[derive(Drop)]
pub struct NamesDue {
    /// What would be placed, beside which blocks are taken and which reserved.
    pub wanted: Wanted,
    /// What would be made of slots, by inode.
    pub slots: Records<SlotWanted>,
    /// The files that are then in use, by inode: the kept ones, each with as many links as the kept entries give it, and those that
    /// are made anew.
    pub files: Records<FileRec>,
    /// The entries of the kept directories, by directory.
    pub entries: Records<EntryRec>,
    /// What was found of the directories, by inode; a root that is made anew is whole, without entries.
    pub dirs: Records<DirRec>,
    /// The first block of each kept cluster, ascending.
    pub clusters: Records<u64>,
    /// The inodes that are made anew, ascending.
    pub fresh: Records<u64>,
    /// What is known of the slots of the candidate clusters, by inode.
    pub seen: Records<SlotSeen>,
    pub log: LogState,
}

/// What is known, set apart: a fault that may hold it is then small, and cheap to drop. Contracts see what it holds.
#[derive(Drop)]
pub struct BoxedNames {
    due: Box<NamesDue>,
}

impl Model for BoxedNames {
    ghost use Rattle.xfs_rebuild.specs.declared.names_due.NamesDue.{NamesDue};

    ghost Value = { NamesDue };

    ghost view = { λ boxed. boxed.due.value };
}

impl BoxedNames {
    /// What is known, set apart.
    pub fn new(alloc: Global, due: NamesDue) -> Result<BoxedNames, AllocError>
        ensures { IfOk result (λ boxed. boxed ≡ due) }
    {
        Ok(BoxedNames {
            due: Box::new(alloc, due)?,
        })
    }

    /// What is known.
    pub fn as_names(&self) -> &NamesDue
        ensures { result.now ≡ self.now }
    {
        &self.due
    }

    /// What is known, no longer apart.
    pub fn into_names(self) -> NamesDue
        ensures { result ≡ self }
    {
        let BoxedNames { due } = self;
        Box::into_inner(due)
    }
}
