//! How many bytes the data forks of directories that are built anew may have.

ghost use Rattle.std.specs.Prelude.{◌≡◌, ◌++◌, [], ◌∷◌, if◌then◌else◌, IfOk, OnOk};
ghost use Rattle.xfs_naming.specs.Naming.{NumbersAscend};
ghost use Rattle.xfs_changes.specs.Rooms.{fork_rooms, has_attributes_behind, room_before_attributes};

use std::alloc::Global;
use xfs_disk::NoMemory;
use xfs_names::ForkRoom;
use xfs_salvage::is_among;
use xfs_volume::FileRec;

/// Those of the directories with these numbers that have an attribute fork.
pub fn fork_rooms(
    alloc: Global,
    rebuilt: &[u64],
    files: &[FileRec],
) -> Result<Vec<ForkRoom>, NoMemory>
    requires rebuilt { NumbersAscend 0 rebuilt.now }
    ensures { IfOk result (λ rooms. rooms.items ≡ fork_rooms rebuilt.now files.now) }
{
    let mut rooms = Vec::new(alloc);
    for file in files {
        if has_attributes_behind(rebuilt, file) {
            rooms.push(room_before_attributes(file))?;
        }
    }
    Ok(rooms)
}

/// Whether a file is one of them.
fn has_attributes_behind(rebuilt: &[u64], file: &FileRec) -> bool
    requires rebuilt { NumbersAscend 0 rebuilt.now }
    ensures { result ≡ has_attributes_behind rebuilt.now file.now }
{
    is_among(rebuilt, file.ino) && file.core.forkoff != 0
}

/// The bytes in front of the attribute fork of a file.
fn room_before_attributes(file: &FileRec) -> ForkRoom
    ensures { result ≡ room_before_attributes file.now }
{
    ForkRoom {
        ino: file.ino,
        bytes: 8 * file.core.forkoff as u16,
    }
}
