//! The files and directories that a rebuilt volume has, as the laws of names see them.

ghost use Rattle.std.specs.Prelude.{◌≡◌, ℕ, ◌<◌, ◌≤◌, ◌^◌, map, nat_lt, length, IfOk, OnOk};
ghost use Rattle.std.specs.List.{prefix_len};
ghost use Rattle.std.specs.List.Sorted.{IsNonDecreasingBy};
ghost use Rattle.xfs_dirdata.specs.declared.records.EntryRec.{EntryRec};
ghost use Rattle.xfs_disk.specs.Lists.{is_among};
ghost use Rattle.xfs_naming.specs.Ordered.{AreLinks};
ghost use Rattle.xfs_naming.specs.declared.runs.Link.{Link};
ghost use Rattle.xfs_volume.specs.declared.files.FileRec.{FileRec};
ghost use Rattle.xfs_request.specs.Slots.{links_due};
ghost use Rattle.xfs_rebuild.specs.Names.{dirs_with, made_files, made_of, new_file, new_root, with_dir, with_made_file, with_made_files, with_nlink};

use std::alloc::Global;
use xfs_dirdata::EntryRec;
use xfs_disk::NoMemory;
use xfs_naming::{Link, Numbered};
use xfs_render::{SlotBase, SlotWanted};
use xfs_request::{Near, directories_of, links_due};
use xfs_volume::{Core, DirRec, Extents, FileRec, Rest};

/// How many links each file is to have. `NoMemory` where memory is wanting, or where a number cannot be held.
pub(crate) fn all_due(
    alloc: Global,
    root: u64,
    files: &[FileRec],
    entries: &[EntryRec],
    links: &[Link],
) -> Result<Vec<u32>, NoMemory>
    requires low { root < 2 ^ 32 }
    requires files { IsNonDecreasingBy (λ (f : FileRec). f.ino) files.now }
    requires entries { IsNonDecreasingBy (λ (e : EntryRec). e.dir) entries.now }
    requires links { IsNonDecreasingBy (λ (l : Link). l.target) links.now }
    requires linked { AreLinks entries.now links.now }
    ensures { IfOk result (λ dues. dues.items ≡ map (links_due root files.now entries.now) files.now) }
{
    let mut dues = Vec::new(alloc);
    let directories = directories_of(alloc, files)?;
    let mut near = Near::first();
    for file in files {
        let due = links_due(
            root,
            directories.as_slice(),
            entries,
            links,
            &mut near,
            file,
        );
        dues.push(narrow(due)?)?;
    }
    Ok(dues)
}

/// A number of links, where 32 bits hold it.
fn narrow(due: u128) -> Result<u32, NoMemory>
    ensures { IfOk result (λ nlink. nlink ≡ due) }
{
    match u32::try_from(due) {
        Ok(nlink) => Ok(nlink),
        Err(_) => Err(NoMemory),
    }
}

/// Sets how many links each file has.
pub(crate) fn set_links(files: &mut [FileRec], dues: &[u32])
    requires { length dues.now ≡ length files.old }
    ensures { (due : FileRec → ℕ) → dues.now ≡ map due files.old → files.new ≡ map (λ (f : FileRec). with_nlink f (due f)) files.old }
{
    for (i, file) in files.iter_mut().enumerate() {
        set_nlink(file, dues[i]);
    }
}

/// Sets how many links a file has, and that it does not wait to be removed.
fn set_nlink(file: &mut FileRec, nlink: u32)
    ensures { file.new ≡ with_nlink file.old nlink }
{
    file.core.nlink = nlink;
    file.core.next_unlinked = u32::MAX;
}

/// Adds the files that are made anew, at their places.
pub(crate) fn add_made(slots: &[SlotWanted], files: &mut Vec<FileRec>) -> Result<(), NoMemory>
    ensures { OnOk result (files.new.items ≡ with_made_files (made_files slots.now) files.old.items) }
{
    for slot in slots {
        add_made_of(slot.ino, &slot.base, files)?;
    }
    Ok(())
}

/// Adds that of a slot, where it is made anew.
fn add_made_of(ino: u64, base: &SlotBase, files: &mut Vec<FileRec>) -> Result<(), NoMemory>
    ensures { OnOk result (files.new.items ≡ with_made_files (made_of ino base.now) files.old.items) }
{
    match base {
        SlotBase::Kept => Ok(()),
        SlotBase::Free => Ok(()),
        SlotBase::Fresh(core) => add_file(new_file(ino, core), files),
    }
}

/// A file that is made anew.
fn new_file(ino: u64, core: &Core) -> FileRec
    ensures { result ≡ new_file ino core.now }
{
    FileRec {
        ino,
        core: *core,
        extents: Extents::new(),
        rest: Rest::none(),
    }
}

/// Adds a file in front of the first that has its number or a higher one.
fn add_file(file: FileRec, files: &mut Vec<FileRec>) -> Result<(), NoMemory>
    ensures { OnOk result (files.new.items ≡ with_made_file file files.old.items) }
{
    let place = place_of(files.as_slice(), file.ino);
    files.insert(place, file)?;
    Ok(())
}

/// How many records stand in front of the first that has a number or a higher one.
fn place_of<T: Numbered>(records: &[T], number: u64) -> usize
    ensures place { result ≡ prefix_len (λ x. nat_lt (T.key x) number) records.now }
    ensures within { result ≤ length records.now }
{
    for (index, record) in records.iter().enumerate() {
        if record.number() >= number {
            return index;
        }
    }
    records.len()
}

/// The directories, where these inodes are made anew.
pub(crate) fn dirs_with(
    root: u64,
    fresh: &[u64],
    dirs: Vec<DirRec>,
) -> Result<Vec<DirRec>, NoMemory>
    ensures { IfOk result (λ all. all.items ≡ dirs_with root fresh.now dirs.items) }
{
    let mut dirs = dirs;
    if !is_made(fresh, root) {
        return Ok(dirs);
    }
    add_dir(new_root(root), &mut dirs)?;
    Ok(dirs)
}

/// Whether an inode is made anew.
fn is_made(fresh: &[u64], inode: u64) -> bool
    ensures { result ≡ is_among fresh.now inode }
{
    for other in fresh {
        if *other == inode {
            return true;
        }
    }
    false
}

/// A root that is made anew.
fn new_root(root: u64) -> DirRec
    ensures { result ≡ new_root root }
{
    DirRec {
        ino: root,
        parent: root,
        whole: true,
    }
}

/// Adds a directory in front of the first that has its number or a higher one.
fn add_dir(dir: DirRec, dirs: &mut Vec<DirRec>) -> Result<(), NoMemory>
    ensures { OnOk result (dirs.new.items ≡ with_dir dir dirs.old.items) }
{
    let place = place_of(dirs.as_slice(), dir.ino);
    dirs.insert(place, dir)?;
    Ok(())
}
