//! Plain records of directories.

ghost use Rattle.std.specs.Prelude.{◌≡◌};

use std::alloc::{AllocError, AllocFailed};
use xfs_disk::Word;

/// An entry of a directory (chapter "Directories").
#[derive(Debug, Drop)]
pub struct EntryRec {
    /// The inode number of the directory.
    pub dir: u64,
    /// The name: at most 255 bytes, of which nothing else is known.
    pub name: Word,
    /// The inode number that the entry names.
    pub ino: u64,
    /// What kind of file the entry says that the inode is: 1 a regular file, 2 a directory, 3 a character device, 4 a block device,
    /// 5 a pipe, 6 a socket, 7 a link; 0 says nothing.
    pub ftype: u8,
}

/// An unused span of a data block.
#[derive(Clone, Copy, Debug, PartialEq, Eq)]
pub struct FreeSpan {
    /// Where it begins, in bytes from the block's start.
    pub offset: u16,
    /// How many bytes it has.
    pub length: u16,
}

/// Why a short form or a data block is not read.
#[derive(Clone, Copy)]
pub enum DirDataFault {
    /// It breaks a rule of its format.
    Unsound,
    /// There is not enough memory.
    NoMemory,
}

impl From<AllocError> for DirDataFault {
    ghost use Rattle.xfs_dirdata.specs.declared.records.DirDataFault.TheVariants.{NoMemory};

    ghost from_gives = { λ _ fault. fault ≡ NoMemory };

    fn from(_error: AllocError) -> DirDataFault {
        DirDataFault::NoMemory
    }
}

impl<T: Drop> From<AllocFailed<T>> for DirDataFault {
    ghost use Rattle.xfs_dirdata.specs.declared.records.DirDataFault.TheVariants.{NoMemory};

    ghost from_gives = { λ _ fault. fault ≡ NoMemory };

    fn from(_error: AllocFailed<T>) -> DirDataFault {
        DirDataFault::NoMemory
    }
}
