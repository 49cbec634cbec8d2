//! The short form of a directory, which stands in its slot.

ghost use Rattle.std.specs.Prelude.{◌≡◌, length, is_some, IfOk};
ghost use Rattle.xfs_word.specs.Field.{part_of};
ghost use Rattle.xfs_dirdata.specs.Short.{short_of};
ghost use Rattle.xfs_image.specs.Directories.{entries_of_form, parent_of_form};

use crate::found::DirFound;
use std::alloc::Global;
use xfs_dirdata::{DirDataFault, read_short_entries};
use xfs_disk::NoMemory;
use xfs_inode::layouts::inode::{DATA_FORK, FORKS_SIZE};
use xfs_volume::Records;
use xfs_word::part;

/// What the short form in the slot of a directory states, where it has so many bytes.
pub fn read_form(alloc: Global, dir: u64, size: u64, slot: &[u8]) -> Result<DirFound, NoMemory>
    requires { length slot.now ≡ 512 }
    ensures entries { IfOk result (λ found. found.entries ≡ entries_of_form (short_of dir (part_of slot.now 176 size))) }
    ensures parent { IfOk result (λ found. found.parent ≡ parent_of_form (short_of dir (part_of slot.now 176 size))) }
    ensures whole { IfOk result (λ found. found.whole ≡ is_some (short_of dir (part_of slot.now 176 size))) }
{
    match read_short_entries(alloc, dir, form_in(slot, size)) {
        Ok(form) => Ok(DirFound {
            parent: form.parent,
            whole: true,
            entries: Records::from_vec(form.entries),
        }),
        Err(DirDataFault::Unsound) => Ok(DirFound {
            parent: 0,
            whole: false,
            entries: Records::from_vec(Vec::new(alloc)),
        }),
        Err(DirDataFault::NoMemory) => Err(NoMemory),
    }
}

/// So many bytes of the data fork, or all that follow in the slot.
fn form_in(slot: &[u8], size: u64) -> &[u8]
    requires { length slot.now ≡ 512 }
    ensures { result.now ≡ part_of slot.now 176 size }
{
    if size <= FORKS_SIZE as u64 {
        part(slot, DATA_FORK, size as usize)
    } else {
        part(slot, DATA_FORK, FORKS_SIZE)
    }
}
