//! How many links files are to have.

ghost use Rattle.std.specs.Prelude.{◌≡◌, ◌==◌, ◌<◌, ◌≤◌, ◌^◌, map, filter, length, IfOk};
ghost use Rattle.std.specs.List.Sorted.{IsNonDecreasingBy};
ghost use Rattle.xfs_dirdata.specs.declared.records.EntryRec.{EntryRec};
ghost use Rattle.xfs_names.specs.declared.linking.Target.{Target};
ghost use Rattle.xfs_links.specs.Entries.{NodesAscend, is_directory_number};
ghost use Rattle.xfs_names.specs.Wanted.{link_count, with_links};
ghost use Rattle.xfs_names.specs.Private.Targets.{AreTargets, target_of};

use crate::lookup::is_directory_near;
use std::alloc::{AllocError, Global};
use xfs_dirdata::EntryRec;
use xfs_disk::NoMemory;
use xfs_links::{DIRECTORY, NodeRec, is_reserved_inode};
use xfs_naming::{Numbered, records_by_number, records_near};
use xfs_volume::Records;

/// An inode that an entry names.
#[derive(Clone, Copy)]
pub struct Target {
    /// The number of the inode.
    pub ino: u64,
}

impl Numbered for Target {
    ghost key = { λ t. t.ino };

    fn number(&self) -> u64 {
        self.ino
    }
}

/// What an entry names.
fn target_of(entry: &EntryRec) -> Target
    ensures { result ≡ target_of entry.now }
{
    Target { ino: entry.ino }
}

/// What entries name, ascending.
fn targets_of(alloc: Global, entries: &[EntryRec]) -> Result<Vec<Target>, NoMemory>
    ensures { IfOk result (λ targets. AreTargets entries.now targets.items) }
{
    let mut targets = each_target(alloc, entries)?;
    targets.sort_by_key(|target| target.ino)?;
    Ok(targets)
}

/// What each entry names, in the order of the entries.
fn each_target(alloc: Global, entries: &[EntryRec]) -> Result<Vec<Target>, AllocError>
    ensures { IfOk result (λ targets. targets.items ≡ map target_of entries.now) }
{
    entries.iter().map(|entry| target_of(entry)).collect(alloc)
}

/// How many links name a number. `near` is a place at which the first of them may stand.
fn count_of(targets: &[Target], near: &mut usize, ino: u64) -> u64
    requires { IsNonDecreasingBy (λ (t : Target). t.ino) targets.now }
    ensures { result ≡ length (filter (λ (t : Target). t.ino == ino) targets.now) }
{
    records_near(targets, near, ino).len() as u64
}

/// How many of these entries name a directory.
fn count_directories(nodes: &[NodeRec], own: &[EntryRec]) -> usize
    requires { NodesAscend 0 nodes.now }
    ensures { result ≡ length (filter (λ (e : EntryRec). is_directory_number nodes.now e.ino) own.now) }
{
    let mut near = 0;
    let mut count = 0;
    for entry in own {
        if is_directory_near(nodes, &mut near, entry.ino) {
            count += 1;
        }
    }
    count
}

/// The links of a file. `near` is a place at which those that name it may stand.
fn link_count(
    nodes: &[NodeRec],
    entries: &[EntryRec],
    targets: &[Target],
    near: &mut usize,
    root: u64,
    node: &NodeRec,
) -> u64
    requires nodes { NodesAscend 0 nodes.now }
    requires entries { IsNonDecreasingBy (λ (e : EntryRec). e.dir) entries.now }
    requires few { length entries.now ≤ 2 ^ 24 }
    requires targets { AreTargets entries.now targets.now }
    requires root { root < 2 ^ 32 }
    ensures { result ≡ link_count nodes.now entries.now root node.now }
{
    if node.kind == DIRECTORY {
        return 2 + count_directories(nodes, records_by_number(entries, node.ino)) as u64;
    }
    if is_reserved_inode(root, node.ino) {
        return 1;
    }
    count_of(targets, near, node.ino)
}

/// Each file with the links that it is to have.
pub fn all_links(
    alloc: Global,
    nodes: &[NodeRec],
    entries: &[EntryRec],
    root: u64,
) -> Result<Records<(u64, u64)>, NoMemory>
    requires nodes { NodesAscend 0 nodes.now }
    requires entries { IsNonDecreasingBy (λ (e : EntryRec). e.dir) entries.now }
    requires few { length entries.now ≤ 2 ^ 24 }
    requires root { root < 2 ^ 32 }
    ensures { IfOk result (λ all. all ≡ map (with_links nodes.now entries.now root) nodes.now) }
{
    let targets = targets_of(alloc, entries)?;
    let mut all = Vec::with_capacity(alloc, nodes.len())?;
    let mut near = 0;
    for node in nodes {
        all.push((
            node.ino,
            link_count(nodes, entries, &targets, &mut near, root, node),
        ))?;
    }
    Ok(Records::from_vec(all))
}
