//! The blocks of a directory, and what a check of them may answer.

ghost use Rattle.std.specs.Prelude.{◌≡◌};

use std::alloc::{AllocError, AllocFailed};
use xfs_collections::BlockBank;

/// The mapped blocks of a directory, in the order of the file.
#[derive(Drop)]
pub struct DirSeen {
    /// The inode number of the directory.
    pub dir: u64,
    /// The size of the directory, in bytes.
    pub size: u64,
    /// The number in the file of each mapped block, in blocks.
    pub offsets: Vec<u64>,
    /// The blocks.
    pub blocks: BlockBank,
}

/// Why a directory is not whole.
#[derive(Clone, Copy, Debug)]
pub enum IndexFault {
    /// It breaks a rule of its form.
    Unsound,
    /// There is not enough memory.
    NoMemory,
}

impl From<AllocError> for IndexFault {
    ghost use Rattle.xfs_dirindex.specs.declared.seen.IndexFault.TheVariants.{NoMemory};

    ghost from_gives = { λ _ fault. fault ≡ NoMemory };

    fn from(_error: AllocError) -> IndexFault {
        IndexFault::NoMemory
    }
}

impl<T: Drop> From<AllocFailed<T>> for IndexFault {
    ghost use Rattle.xfs_dirindex.specs.declared.seen.IndexFault.TheVariants.{NoMemory};

    ghost from_gives = { λ _ fault. fault ≡ NoMemory };

    fn from(_error: AllocFailed<T>) -> IndexFault {
        IndexFault::NoMemory
    }
}
