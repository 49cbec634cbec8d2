//! What the names of a catalog keep by themselves, before any law: their order.

ghost use Rattle.std.specs.Prelude.{◌≡◌, ◌+◌, ◌<◌, ◌≤◌, ◌==◌, ◌↔◌, map, filter, length, drop, slice_index_or, IsTrue};
ghost use Rattle.std.specs.List.{prefix_len};
ghost use Rattle.xfs_dirdata.specs.declared.records.EntryRec.{EntryRec};
ghost use Rattle.xfs_volume.specs.Names.{is_directory};
ghost use Rattle.xfs_volume.specs.declared.directories.DirRec.{DirRec};
ghost use Rattle.xfs_volume.specs.declared.files.FileRec.{FileRec};
ghost use Rattle.xfs_naming.specs.Naming.{AreGrouped, AreNamed, NumbersAscend, numbers_of};

use xfs_dirdata::EntryRec;
use xfs_volume::{DirRec, FileRec, is_directory};

/// Whether files ascend by number, each directory among them has its record, and the entries of the directories stand in
/// the same order.
pub fn are_named(files: &[FileRec], entries: &[EntryRec], dirs: &[DirRec]) -> bool
    ensures { IsTrue result ↔ AreNamed files.now entries.now dirs.now }
{
    if !ascend(files) {
        return false;
    }
    if !are_directories(files, dirs) {
        return false;
    }
    are_grouped(dirs, entries)
}

/// Whether files ascend by number.
fn ascend(files: &[FileRec]) -> bool
    ensures { IsTrue result ↔ NumbersAscend 0 (numbers_of files.now) }
{
    // Behind the last of all numbers none can come, so what may come next has more bits.
    let mut least = 0;
    for file in files {
        if (file.ino as u128) < least {
            return false;
        }
        least = file.ino as u128 + 1;
    }
    true
}

/// Whether these are the directories among the files.
fn are_directories(files: &[FileRec], dirs: &[DirRec]) -> bool
    ensures { IsTrue result ↔ map (λ (d : DirRec). d.ino) dirs.now ≡ map (λ (f : FileRec). f.ino) (filter is_directory files.now) }
{
    let mut at = 0;
    for file in files {
        if is_directory(file) {
            if at == dirs.len() {
                return false;
            }
            if dirs[at].ino != file.ino {
                return false;
            }
            at += 1;
        }
    }
    at == dirs.len()
}

/// Whether the entries are those of the directories, in their order.
fn are_grouped(dirs: &[DirRec], entries: &[EntryRec]) -> bool
    ensures { IsTrue result ↔ AreGrouped dirs.now entries.now }
{
    let mut at = 0;
    for index in 0..dirs.len() {
        at += own_entries(dirs, index, entries, at);
    }
    at == entries.len()
}

/// How many entries from a place on are those of one of the directories.
fn own_entries(dirs: &[DirRec], index: usize, entries: &[EntryRec], at: usize) -> usize
    requires index { index < length dirs.now }
    requires at { at ≤ length entries.now }
    ensures own { (d : DirRec) → result ≡ prefix_len (λ (e : EntryRec). e.dir == (slice_index_or dirs.now index d).ino) (drop at entries.now) }
    ensures within { at + result ≤ length entries.now }
{
    count_own(&entries[at..], dirs[index].ino)
}

/// How many entries at the start are those of a directory.
fn count_own(entries: &[EntryRec], dir: u64) -> usize
    ensures own { result ≡ prefix_len (λ (e : EntryRec). e.dir == dir) entries.now }
    ensures within { result ≤ length entries.now }
{
    for (index, entry) in entries.iter().enumerate() {
        if entry.dir != dir {
            return index;
        }
    }
    entries.len()
}
