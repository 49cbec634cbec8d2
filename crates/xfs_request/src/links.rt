//! How many names a kept file is to have.

ghost use Rattle.std.specs.Prelude.{◌≡◌, ◌<◌, ◌^◌, IfOk, List, count_by, filter};
ghost use Rattle.std.specs.List.Sorted.{IsNonDecreasing, IsNonDecreasingBy};
ghost use Rattle.xfs_disk.specs.Lists.{is_among};
ghost use Rattle.xfs_dirdata.specs.declared.records.EntryRec.{EntryRec};
ghost use Rattle.xfs_volume.specs.Names.{is_directory};
ghost use Rattle.xfs_volume.specs.declared.files.FileRec.{FileRec};
ghost use Rattle.xfs_naming.specs.Naming.{is_system, numbers_of};
ghost use Rattle.xfs_naming.specs.Ordered.{AreLinks};
ghost use Rattle.xfs_naming.specs.declared.runs.Link.{Link};
ghost use Rattle.xfs_request.specs.Slots.{AreNumbers, links_among, links_due, nlink_wanted};

use std::alloc::{AllocError, Global};
use xfs_dirdata::EntryRec;
use xfs_disk::NoMemory;
use xfs_naming::{Link, records_near};
use xfs_volume::{FileRec, is_directory};

/// Where files, entries, links and slots are looked for first: what goes by ascending numbers is found so.
#[derive(Clone, Copy)]
pub struct Near {
    /// A place among the files.
    pub files: usize,
    /// A place among the entries.
    pub entries: usize,
    /// A place among the links.
    pub links: usize,
    /// A place among the slots.
    pub slots: usize,
}

impl Near {
    /// The first place of each.
    pub fn first() -> Near {
        Near {
            files: 0,
            entries: 0,
            links: 0,
            slots: 0,
        }
    }
}

/// The numbers that these files have.
fn each_number(alloc: Global, files: &[FileRec]) -> Result<Vec<u64>, AllocError>
    ensures { IfOk result (λ numbers. numbers.items ≡ numbers_of files.now) }
{
    let mut numbers = Vec::with_capacity(alloc, files.len())?;
    for file in files {
        numbers.push(file.ino)?;
    }
    Ok(numbers)
}

/// The numbers of files, kept close together: 8 bytes each, where a record has some 300.
pub(crate) fn numbers_of(alloc: Global, files: &[FileRec]) -> Result<Vec<u64>, AllocError>
    requires { IsNonDecreasingBy (λ (f : FileRec). f.ino) files.now }
    ensures { IfOk result (λ numbers. AreNumbers files.now numbers.items) }
{
    let numbers = each_number(alloc, files)?;
    Ok(numbers)
}

/// The numbers of the directories among files.
pub fn directories_of(alloc: Global, files: &[FileRec]) -> Result<Vec<u64>, AllocError>
    requires { IsNonDecreasingBy (λ (f : FileRec). f.ino) files.now }
    ensures { IfOk result (λ numbers. AreNumbers (filter is_directory files.now) numbers.items) }
{
    let numbers = xfs_salvage::directories_of(alloc, files)?;
    Ok(numbers)
}

/// Whether a number is among ascending ones. `near` is a place at which it may stand, and then the one behind it.
pub(crate) fn is_in_use(numbers: &[u64], near: &mut usize, ino: u64) -> bool
    requires { IsNonDecreasing numbers.now }
    ensures { result ≡ is_among numbers.now ino }
{
    !records_near(numbers, near, ino).is_empty()
}

/// How many of some entries name a directory.
fn count_directories(directories: &[u64], own: &[EntryRec]) -> usize
    requires { IsNonDecreasing directories.now }
    ensures { result ≡ count_by (λ (e : EntryRec). is_among directories.now e.ino) own.now }
{
    let mut near = 0;
    let mut count = 0;
    for entry in own {
        if is_in_use(directories, &mut near, entry.ino) {
            count += 1;
        }
    }
    count
}

/// How many names the entries give a file: a directory two and one for each directory in it.
fn links_of(
    directories: &[u64],
    entries: &[EntryRec],
    links: &[Link],
    near: &mut Near,
    file: &FileRec,
) -> u128
    requires directories { IsNonDecreasing directories.now }
    requires entries { IsNonDecreasingBy (λ (e : EntryRec). e.dir) entries.now }
    requires links { IsNonDecreasingBy (λ (l : Link). l.target) links.now }
    requires linked { AreLinks entries.now links.now }
    ensures { result ≡ links_among directories.now entries.now file.now }
{
    if is_directory(file) {
        let own = records_near(entries, &mut near.entries, file.ino);
        2 + count_directories(directories, own) as u128
    } else {
        records_near(links, &mut near.links, file.ino).len() as u128
    }
}

/// Whether a number is that of a system inode.
fn is_system(root: u64, ino: u64) -> bool
    requires { root < 2 ^ 32 }
    ensures { result ≡ is_system root ino }
{
    ino == root + 1 || ino == root + 2
}

/// How many names a file is to have, by the numbers of all directories. `near` says where what names it may stand.
pub fn links_due(
    root: u64,
    directories: &[u64],
    entries: &[EntryRec],
    links: &[Link],
    near: &mut Near,
    file: &FileRec,
) -> u128
    requires low { root < 2 ^ 32 }
    requires directories { IsNonDecreasing directories.now }
    requires entries { IsNonDecreasingBy (λ (e : EntryRec). e.dir) entries.now }
    requires links { IsNonDecreasingBy (λ (l : Link). l.target) links.now }
    requires linked { AreLinks entries.now links.now }
    ensures { (files : List FileRec) → directories.now ≡ numbers_of (filter is_directory files) → result ≡ links_due root files entries.now file.now }
{
    if is_system(root, file.ino) {
        return 1;
    }
    links_of(directories, entries, links, near, file)
}

/// Their number where it is to be set: where the file has another, or waits to be removed. `NoMemory` where it cannot be held.
pub(crate) fn nlink_wanted(file: &FileRec, due: u128) -> Result<Option<u32>, NoMemory>
    ensures { IfOk result (λ nlink. nlink ≡ nlink_wanted file.now due) }
{
    if file.core.nlink as u128 == due && file.core.next_unlinked == u32::MAX {
        return Ok(None);
    }
    match u32::try_from(due) {
        Ok(due) => Ok(Some(due)),
        Err(_) => Err(NoMemory),
    }
}
