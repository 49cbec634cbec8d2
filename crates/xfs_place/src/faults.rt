//! What finds no room, and why placing fails.

use std::alloc::{AllocError, AllocFailed};
use xfs_disk::NoMemory;

/// What is placed.
#[derive(Clone, Copy, Debug)]
pub enum Unplaced {
    /// The trees and the free list of an allocation group, by its number.
    Group(u32),
    /// The blocks of a directory, by its inode's number.
    Directory(u64),
    /// The blocks of another file, by its inode's number.
    File(u64),
    /// A chunk of inodes of a new volume.
    Chunk,
    /// The inodes for a directory `lost+found`.
    LostFound,
}

/// Why placing fails.
#[derive(Clone, Copy, Debug)]
pub enum PlaceFault {
    /// The volume has no room for this, the first that finds none.
    NoRoom(Unplaced),
    /// Memory is wanting.
    NoMemory,
}

impl From<NoMemory> for PlaceFault {
    ghost use Rattle.std.specs.Prelude.{◌≡◌};
    ghost use Rattle.xfs_place.specs.declared.faults.PlaceFault.TheVariants.{NoMemory};

    ghost from_gives = { λ _ fault. fault ≡ NoMemory };

    fn from(_error: NoMemory) -> PlaceFault {
        PlaceFault::NoMemory
    }
}

impl From<AllocError> for PlaceFault {
    ghost use Rattle.std.specs.Prelude.{◌≡◌};
    ghost use Rattle.xfs_place.specs.declared.faults.PlaceFault.TheVariants.{NoMemory};

    ghost from_gives = { λ _ fault. fault ≡ NoMemory };

    fn from(_error: AllocError) -> PlaceFault {
        PlaceFault::NoMemory
    }
}

impl<T: Drop> From<AllocFailed<T>> for PlaceFault {
    ghost use Rattle.std.specs.Prelude.{◌≡◌};
    ghost use Rattle.xfs_place.specs.declared.faults.PlaceFault.TheVariants.{NoMemory};

    ghost from_gives = { λ _ fault. fault ≡ NoMemory };

    fn from(_error: AllocFailed<T>) -> PlaceFault {
        PlaceFault::NoMemory
    }
}
