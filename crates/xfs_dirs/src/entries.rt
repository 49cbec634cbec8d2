//! Entries, taken from a data block.

ghost use Rattle.std.specs.Prelude.{◌≡◌, ◌++◌, length, filter, IfOk, OnOk};
ghost use Rattle.xfs_dirindex.specs.Mapped.{mapped_block};
ghost use Rattle.xfs_image.specs.Directories.{is_beside_dots};
ghost use Rattle.xfs_dirs.specs.Gathered.{entries_where, parent_in};

use std::alloc::Global;
use xfs_dirdata::{DirDataFault, EntryRec, read_data};
use xfs_dirindex::layouts::{INDEX_START, data_magic};
use xfs_dirindex::{is_dots, is_parent_name};
use xfs_disk::NoMemory;
use xfs_word::get32;

/// The entries of a block, of 4096 bytes, that stands at this block of the file, where it is its directory's (chapter
/// "Directories"). A data block that breaks a rule has none.
pub fn entries_where(
    alloc: Global,
    dir: u64,
    own: bool,
    offset: u64,
    block: &[u8],
) -> Result<Vec<EntryRec>, NoMemory>
    requires { length block.now ≡ 4096 }
    ensures { IfOk result (λ entries. entries.items ≡ entries_where own dir (mapped_block offset block.now)) }
{
    if offset >= INDEX_START || !own {
        return Ok(Vec::new(alloc));
    }
    let whole = get32(block, 0) == data_magic(true);
    match read_data(alloc, dir, block, whole) {
        Ok(data) => Ok(data.entries),
        Err(DirDataFault::Unsound) => Ok(Vec::new(alloc)),
        Err(DirDataFault::NoMemory) => Err(NoMemory),
    }
}

/// The target of the first entry of the parent.
pub fn parent_in(entries: &[EntryRec]) -> Option<u64>
    ensures { result ≡ parent_in entries.now }
{
    for entry in entries {
        if is_parent_name(entry.name.bytes()) {
            return Some(entry.ino);
        }
    }
    None
}

/// Adds the entries but those of the directory itself and its parent.
pub fn push_named(entries: Vec<EntryRec>, named: &mut Vec<EntryRec>) -> Result<(), NoMemory>
    ensures { OnOk result (named.new.items ≡ named.old.items ++ filter is_beside_dots entries.items) }
{
    for entry in entries {
        if !is_dots(&entry) {
            named.push(entry)?;
        }
    }
    Ok(())
}
