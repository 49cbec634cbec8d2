//! Files by their numbers.

ghost use Rattle.std.specs.Prelude.{◌≡◌};
ghost use Rattle.xfs_laws.specs.Counting.{FilesOrdered, is_used};

use xfs_naming::records_near;
use xfs_volume::FileRec;

/// Whether a file with this number is in use. The files ascend by number; `near` is a place among them at which it may
/// stand, and then the one behind it.
pub fn is_used(files: &[FileRec], near: &mut usize, ino: u64) -> bool
    requires { FilesOrdered files.now }
    ensures { result ≡ is_used files.now ino }
{
    !records_near(files, near, ino).is_empty()
}
