//! The data fork of an inode, from byte 176 of its slot on; behind it stands the attribute fork.

ghost use Rattle.std.specs.Prelude.{◌≡◌, ℕ};
ghost use Rattle.xfs_inode.specs.Slots.{fork_bytes};

use crate::layouts::inode::FORKS_SIZE;

/// How many bytes the data fork has, by the byte that says where the attribute fork begins.
pub fn fork_bytes(forkoff: u8) -> usize
    ensures { result ≡ fork_bytes forkoff }
{
    if forkoff == 0 {
        return FORKS_SIZE;
    }
    8 * forkoff as usize
}
