//! Files and directories by their numbers.

ghost use Rattle.std.specs.Prelude.{◌≡◌, ◌<◌, ◌^◌, ◌==◌};
ghost use Rattle.std.specs.List.{list_any};
ghost use Rattle.std.specs.Option.{option_copied};
ghost use Rattle.xfs_volume.specs.declared.directories.DirRec.{DirRec};
ghost use Rattle.xfs_volume.specs.Names.{entry_type};
ghost use Rattle.xfs_naming.specs.Naming.{is_system, is_directory_at, file_at, states_parent};
ghost use Rattle.xfs_naming.specs.Ordered.{IsOrdered};

use crate::kinds::kind_at;
use crate::naming::Names;
use crate::runs::records_by_number;
use xfs_volume::{DirRec, FileRec};

/// The type of a directory (chapter "On-disk Inode").
pub const DIRECTORY: u16 = 4;

/// Whether a number is that of one of the two files of the system's own, which stand behind the root.
pub fn is_system(root: u64, ino: u64) -> bool
    requires { root < 2 ^ 32 }
    ensures { result ≡ is_system root ino }
{
    ino == root + 1 || ino == root + 2
}

/// The number by which an entry states a type; 0 for one that is not known.
#[tactic(auto, unfolding(xfs_volume::specs::Names::entry_type))]
pub fn entry_type(kind: u16) -> u8
    ensures { result ≡ entry_type kind }
{
    match kind {
        8 => 1,
        4 => 2,
        2 => 3,
        6 => 4,
        1 => 5,
        12 => 6,
        10 => 7,
        _ => 0,
    }
}

/// The file with a number.
pub fn file_at<'a>(names: &Names<'a>, ino: u64) -> Option<&'a FileRec>
    requires { IsOrdered names.now }
    ensures { option_copied result ≡ file_at names.now.files.now ino }
{
    records_by_number(names.files, ino).first()
}

/// Whether one of these directories states the parent.
fn have_parent(dirs: &[DirRec], parent: u64) -> bool
    ensures { result ≡ list_any (λ (d : DirRec). d.parent == parent) dirs.now }
{
    for dir in dirs {
        if dir.parent == parent {
            return true;
        }
    }
    false
}

/// Whether a directory with the number is in use.
pub fn is_directory_at(names: &Names, near: &mut usize, ino: u64) -> bool
    requires { IsOrdered names.now }
    ensures { result ≡ is_directory_at names.now.files.now ino }
{
    match kind_at(names, near, ino) {
        Some(kind) => kind.kind == DIRECTORY,
        None => false,
    }
}

/// Whether a directory states this parent.
pub fn states_parent(names: &Names, ino: u64, parent: u64) -> bool
    requires { IsOrdered names.now }
    ensures { result ≡ states_parent names.now.dirs.now ino parent }
{
    have_parent(records_by_number(names.dirs, ino), parent)
}
