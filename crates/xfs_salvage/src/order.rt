//! The order of what was found, and what is found by it.

ghost use Rattle.std.specs.Prelude.{not, ◌≡◌, ◌<◌, ◌^◌, ◌&&◌, ◌↔◌, [], ◌∷◌, ◌++◌, if◌then◌else◌, IsTrue, IfOk, OnOk};
ghost use Rattle.std.specs.List.{filter};
ghost use Rattle.xfs_disk.specs.Lists.{is_among};
ghost use Rattle.xfs_dirdata.specs.declared.records.EntryRec.{EntryRec};
ghost use Rattle.xfs_volume.specs.Names.{is_directory};
ghost use Rattle.xfs_volume.specs.declared.directories.DirRec.{DirRec};
ghost use Rattle.xfs_naming.specs.Naming.{NumbersAscend, is_empty_regular, is_in_use, numbers_of};
ghost use Rattle.xfs_views.specs.Standing.{stands};
ghost use Rattle.xfs_salvage.specs.Claimable.{AscendWithin};
ghost use Rattle.xfs_salvage.specs.Kept.{fresh_among};

use std::alloc::{AllocError, Global};
use xfs_dirdata::EntryRec;
use xfs_volume::{ClusterRec, DirRec, FileRec, Records, is_directory, type_of};

/// The type of a regular file, in the upper four bits of its mode.
const REGULAR: u16 = 8;

/// How many blocks a cluster has.
const CLUSTER_BLOCKS: u64 = 4;

/// Whether clusters ascend with no block in common, and end by a block.
pub(crate) fn ascend_within(top: u64, clusters: &[ClusterRec]) -> bool
    ensures { IsTrue result ↔ AscendWithin top 0 clusters.now }
{
    let mut low = 0;
    for cluster in clusters {
        if cluster.block < low || cluster.block > top || top - cluster.block < CLUSTER_BLOCKS {
            return false;
        }
        low = cluster.block + CLUSTER_BLOCKS;
    }
    true
}

/// Whether an ascending list has a number.
pub fn is_among(numbers: &[u64], number: u64) -> bool
    requires { NumbersAscend 0 numbers.now }
    ensures { result ≡ is_among numbers.now number }
{
    numbers.binary_search(&number).is_ok()
}

/// Whether a file is regular and empty: with no bytes, no data and no tree of extents.
fn is_empty_regular(file: &FileRec) -> bool
    ensures { result ≡ is_empty_regular file.now }
{
    type_of(file) == REGULAR
        && file.core.size == 0
        && file.extents.as_slice().is_empty()
        && file.rest.tree().is_empty()
}

/// Whether a file is what its number asks for: the root a directory, a system inode an empty regular file.
fn stands(root: u64, file: &FileRec) -> bool
    ensures { result ≡ stands root file.now }
{
    if file.ino == root {
        return is_directory(file);
    }
    if file.ino > root && file.ino - root <= 2 {
        return is_empty_regular(file);
    }
    true
}

/// Of files those with one of the numbers that are what their numbers ask for.
pub(crate) fn files_that_stay(
    root: u64,
    files: Records<FileRec>,
    numbers: &[u64],
) -> Records<FileRec>
    requires { NumbersAscend 0 numbers.now }
    ensures { result ≡ filter (λ f. is_among numbers.now f.ino && stands root f) files }
{
    let mut files = files.into_vec();
    files.retain(|file| is_among(numbers, file.ino) && stands(root, file));
    Records::from_vec(files)
}

/// Whether a file has the number.
fn is_in_use(files: &[FileRec], ino: u64) -> bool
    ensures { result ≡ is_in_use files.now ino }
{
    for file in files {
        if file.ino == ino {
            return true;
        }
    }
    false
}

/// Which of the root and the two inodes behind it no file has.
pub(crate) fn fresh_among(
    alloc: Global,
    files: &[FileRec],
    root: u64,
) -> Result<Vec<u64>, AllocError>
    requires { root < 2 ^ 32 }
    ensures { IfOk result (λ fresh. fresh.items ≡ fresh_among files.now root) }
{
    let mut fresh = Vec::new(alloc);
    put_fresh(files, root, &mut fresh)?;
    put_fresh(files, root + 1, &mut fresh)?;
    put_fresh(files, root + 2, &mut fresh)?;
    Ok(fresh)
}

/// Puts a number behind the others, where no file has it.
fn put_fresh(files: &[FileRec], ino: u64, fresh: &mut Vec<u64>) -> Result<(), AllocError>
    ensures { OnOk result (fresh.new.items ≡ fresh.old.items ++ filter (λ k. not (is_in_use files.now k)) (ino ∷ [])) }
{
    if !is_in_use(files, ino) {
        fresh.push(ino)?;
    }
    Ok(())
}

/// The numbers of the directories among files.
pub fn directories_of(alloc: Global, files: &[FileRec]) -> Result<Vec<u64>, AllocError>
    ensures { IfOk result (λ numbers. numbers.items ≡ numbers_of (filter is_directory files.now)) }
{
    let mut numbers = Vec::new(alloc);
    for file in files {
        put_directory(&mut numbers, file)?;
    }
    Ok(numbers)
}

/// Puts the number of a directory behind the others.
fn put_directory(numbers: &mut Vec<u64>, file: &FileRec) -> Result<(), AllocError>
    ensures { OnOk result (numbers.new.items ≡ (if is_directory file.now then numbers.old.items ++ file.now.ino ∷ [] else numbers.old.items)) }
{
    if is_directory(file) {
        numbers.push(file.ino)?;
    }
    Ok(())
}

/// What is found of the directories with these numbers.
pub(crate) fn dirs_of(directories: &[u64], dirs: Records<DirRec>) -> Records<DirRec>
    requires { NumbersAscend 0 directories.now }
    ensures { result ≡ filter (λ (d : DirRec). is_among directories.now d.ino) dirs }
{
    let mut dirs = dirs.into_vec();
    dirs.retain(|dir| is_among(directories, dir.ino));
    Records::from_vec(dirs)
}

/// The entries of the directories with these numbers.
pub(crate) fn entries_of(directories: &[u64], entries: Records<EntryRec>) -> Records<EntryRec>
    requires { NumbersAscend 0 directories.now }
    ensures { result ≡ filter (λ (e : EntryRec). is_among directories.now e.dir) entries }
{
    let mut entries = entries.into_vec();
    entries.retain(|entry| is_among(directories, entry.dir));
    Records::from_vec(entries)
}
