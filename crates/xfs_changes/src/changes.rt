//! What names change in slots.

ghost use Rattle.std.specs.Prelude.{◌≡◌, ℕ, ◌+◌, ◌==◌, ◌||◌, ◌++◌, [], ◌∷◌, if◌then◌else◌, map, IfOk, OnOk};
ghost use Rattle.std.specs.List.{flat_map, range_with_len};
ghost use Rattle.std.specs.List.Sorted.{IsNonDecreasingBy};
ghost use Rattle.std.specs.Option.{is_some};
ghost use Rattle.xfs_geom.specs.Volumes.{volume_of};
ghost use Rattle.xfs_volume.specs.declared.files.FileRec.{FileRec};
ghost use Rattle.xfs_changes.specs.declared.forks.DirectoryFork.{DirectoryFork};
ghost use Rattle.xfs_changes.specs.Slots.{base_made, change_of, changes_of, changes_something, fork_at, free_change, free_changes, links_held_at, links_set, lost_core};

use crate::forks::DirectoryFork;
use crate::lost_found::Lost;
use crate::slots::copy_fork;
use std::alloc::Global;
use xfs_disk::{NoMemory, Stamp};
use xfs_empty::{fresh_core, time_of};
use xfs_geom::Geometry;
use xfs_inodebuild::ForkWanted;
use xfs_naming::{records_by_number, records_near};
use xfs_render::SlotBase;
use xfs_volume::{Core, FileRec};

/// A directory with permissions 0700.
const LOST_MODE: u16 = 0x41c0;

/// The bytes of the short form of a directory without entries.
const EMPTY_FORM: u64 = 6;

/// How many inodes of a cluster stand behind its first.
const OTHERS: u64 = 31;

/// What changes in the slot of an inode.
#[derive(Drop)]
pub struct SlotChange {
    /// The number of the inode.
    pub ino: u64,
    /// What the slot is before anything else is changed in it, where that is another.
    pub base: Option<SlotBase>,
    /// The data fork, where it is replaced.
    pub fork: Option<ForkWanted>,
    /// How many names the file has, where that is set.
    pub nlink: Option<u32>,
}

/// What the changes are found by.
#[derive(Clone, Copy)]
pub struct Ways<'a> {
    pub g: &'a Geometry,
    pub stamp: &'a Stamp,
    pub lost: &'a Lost,
    /// The files that were there before, by inode, with the links that the kept entries give them.
    pub files: &'a [FileRec],
    /// The forks of the directories that are built anew, by inode.
    pub forks: &'a [DirectoryFork],
}

/// The changes of all files by number, each with the links that it is to have.
#[tactic(auto, unfolding(crate::specs::Slots::changes_of))]
pub fn changes_of(
    alloc: Global,
    ways: &Ways,
    links: &[(u64, u64)],
) -> Result<Vec<SlotChange>, NoMemory>
    requires files { IsNonDecreasingBy (λ (f : FileRec). f.ino) ways.now.files.now }
    requires forks { IsNonDecreasingBy (λ (f : DirectoryFork). f.ino) ways.now.forks.now }
    ensures { IfOk result (λ changes. changes.items ≡ changes_of (volume_of ways.now.g.now) ways.now.stamp.now ways.now.lost.now ways.now.files.now ways.now.forks.now links.now) }
{
    let mut changes = Vec::new(alloc);
    let mut near = 0;
    for link in links {
        push_change(alloc, ways, &mut near, link.0, link.1, &mut changes)?;
        push_free(ways.lost, link.0, &mut changes)?;
    }
    Ok(changes)
}

/// Adds that of a file, where there is one. `near` is a place among the files at which it may stand.
fn push_change(
    alloc: Global,
    ways: &Ways,
    near: &mut usize,
    ino: u64,
    due: u64,
    changes: &mut Vec<SlotChange>,
) -> Result<(), NoMemory>
    requires files { IsNonDecreasingBy (λ (f : FileRec). f.ino) ways.now.files.now }
    requires forks { IsNonDecreasingBy (λ (f : DirectoryFork). f.ino) ways.now.forks.now }
    ensures { OnOk result (changes.new.items ≡ changes.old.items ++ (let c = change_of (volume_of ways.now.g.now) ways.now.stamp.now ways.now.lost.now ways.now.files.now ways.now.forks.now (ino, due) in
        if changes_something (volume_of ways.now.g.now) ways.now.stamp.now ways.now.lost.now ways.now.files.now ways.now.forks.now c then c ∷ [] else [])) }
{
    let nlink = links_set(links_held_at(ways.files, near, ino), due)?;
    let fork = fork_at(alloc, ways.forks, ino)?;
    let change = SlotChange {
        ino,
        base: base_made(ways, ino),
        fork,
        nlink,
    };
    push_changed(change, changes)
}

/// Adds a change, where it changes something.
fn push_changed(change: SlotChange, changes: &mut Vec<SlotChange>) -> Result<(), NoMemory>
    ensures { OnOk result (changes.new.items ≡ changes.old.items ++ (if is_some change.base || (is_some change.fork || is_some change.nlink) then change ∷ [] else [])) }
{
    if change.base.is_some() || change.fork.is_some() || change.nlink.is_some() {
        changes.push(change)?;
    }
    Ok(())
}

/// Adds those of the other inodes of a new cluster, of which this is the first.
fn push_free(lost: &Lost, ino: u64, changes: &mut Vec<SlotChange>) -> Result<(), NoMemory>
    ensures { OnOk result (changes.new.items ≡ changes.old.items ++ free_changes lost.now ino) }
{
    push_clusters(lost.added.as_slice(), lost.new, ino, changes)
}

/// The same, for the clusters that are new, and the inode of lost+found.
fn push_clusters(
    clusters: &[u64],
    new: u64,
    ino: u64,
    changes: &mut Vec<SlotChange>,
) -> Result<(), NoMemory>
    ensures { OnOk result (changes.new.items ≡ changes.old.items ++ flat_map (λ (cluster : ℕ). if new == ino then map free_change (range_with_len (ino + 1) 31) else []) clusters.now) }
{
    for i in 0..clusters.len() {
        push_cluster(new, ino, changes)?;
    }
    Ok(())
}

/// The same, for one cluster.
fn push_cluster(new: u64, ino: u64, changes: &mut Vec<SlotChange>) -> Result<(), NoMemory>
    ensures { OnOk result (changes.new.items ≡ changes.old.items ++ (if new == ino then map free_change (range_with_len (ino + 1) 31) else [])) }
{
    if new != ino {
        return Ok(());
    }
    push_others(ino, changes)
}

/// Adds those of the inodes behind the first of a cluster, which are free.
fn push_others(ino: u64, changes: &mut Vec<SlotChange>) -> Result<(), NoMemory>
    ensures { OnOk result (changes.new.items ≡ changes.old.items ++ map free_change (range_with_len (ino + 1) 31)) }
{
    if ino > u64::MAX - OTHERS - 1 {
        return Err(NoMemory);
    }
    for i in 0..OTHERS {
        changes.push(free_change(ino + 1 + i))?;
    }
    Ok(())
}

/// A slot that is free.
fn free_change(ino: u64) -> SlotChange
    ensures { result ≡ free_change ino }
{
    SlotChange {
        ino,
        base: Some(SlotBase::Free),
        fork: None,
        nlink: None,
    }
}

/// What the slot of an inode becomes where that is made anew for lost+found.
fn base_made(ways: &Ways, ino: u64) -> Option<SlotBase>
    ensures { result ≡ base_made (volume_of ways.now.g.now) ways.now.stamp.now ways.now.lost.now ino }
{
    if ways.lost.made && ways.lost.new == ino {
        Some(SlotBase::Fresh(lost_core(ways.g, ways.stamp, ino)))
    } else {
        None
    }
}

/// The core of a new lost+found.
fn lost_core(g: &Geometry, stamp: &Stamp, ino: u64) -> Core
    ensures { result ≡ lost_core (volume_of g.now) stamp.now ino }
{
    Core {
        format: 1,
        nlink: 2,
        size: EMPTY_FORM,
        ..fresh_core(g, time_of(stamp), stamp.generation, ino, LOST_MODE)
    }
}

/// The fork of the directory with a number, where it is built anew.
fn fork_at(alloc: Global, forks: &[DirectoryFork], ino: u64) -> Result<Option<ForkWanted>, NoMemory>
    requires forks { IsNonDecreasingBy (λ (f : DirectoryFork). f.ino) forks.now }
    ensures { IfOk result (λ fork. fork ≡ fork_at forks.now ino) }
{
    match records_by_number(forks, ino).first() {
        Some(found) => Ok(Some(copy_fork(alloc, &found.fork)?)),
        None => Ok(None),
    }
}

/// How many links the file with a number states, where it is there. `near` is a place at which it may stand.
fn links_held_at(files: &[FileRec], near: &mut usize, ino: u64) -> Option<u32>
    requires files { IsNonDecreasingBy (λ (f : FileRec). f.ino) files.now }
    ensures { result ≡ links_held_at files.now ino }
{
    match records_near(files, near, ino).first() {
        Some(file) => Some(file.core.nlink),
        None => None,
    }
}

/// A number of links where it is to be set. `NoMemory` where 32 bits do not hold it.
fn links_set(held: Option<u32>, due: u64) -> Result<Option<u32>, NoMemory>
    ensures { IfOk result (λ nlink. nlink ≡ links_set held due) }
{
    match held {
        Some(held) => {
            if held as u64 == due {
                return Ok(None);
            }
        }
        None => {}
    }
    match u32::try_from(due) {
        Ok(due) => Ok(Some(due)),
        Err(_) => Err(NoMemory),
    }
}
