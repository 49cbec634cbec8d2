//! The parents of directories.

ghost use Rattle.std.specs.Prelude.{◌≡◌, map, IfOk};
ghost use Rattle.std.specs.List.{filter};
ghost use Rattle.xfs_links.specs.Connected.{directory_numbers};
ghost use Rattle.xfs_names.specs.Pairs.{PairsAscend, parent_among};
ghost use Rattle.xfs_names.specs.Private.Joined.{parent_told, told_parents};

use std::alloc::Global;
use xfs_disk::NoMemory;
use xfs_links::{DIRECTORY, NodeRec};
use xfs_volume::Records;

/// The parent that pairs tell of a directory.
pub fn parent_among(parents: &[(u64, u64)], dir: u64) -> Option<u64>
    requires { PairsAscend 0 parents.now }
    ensures { result ≡ parent_among parents.now dir }
{
    match parents.binary_search_by_key(&dir, |pair| pair.0) {
        Ok(place) => Some(parents[place].1),
        Err(_) => None,
    }
}

/// The parent of a directory: the root is that of a new lost+found, and lost+found that of a directory that hangs nowhere.
fn parent_told(parents: &[(u64, u64)], root: u64, lost: u64, new: u64, dir: u64) -> u64
    requires { PairsAscend 0 parents.now }
    ensures { result ≡ parent_told parents.now root lost new dir }
{
    if dir == new {
        return root;
    }
    match parent_among(parents, dir) {
        Some(parent) => parent,
        None => lost,
    }
}

/// Each directory with its parent.
pub fn all_parents(
    alloc: Global,
    nodes: &[NodeRec],
    parents: &[(u64, u64)],
    root: u64,
    lost: u64,
    new: u64,
) -> Result<Records<(u64, u64)>, NoMemory>
    requires { PairsAscend 0 parents.now }
    ensures { IfOk result (λ all. all ≡ map (told_parents parents.now root lost new) (directory_numbers nodes.now)) }
{
    let mut all = Vec::new(alloc);
    for node in nodes {
        if node.kind != DIRECTORY {
            continue;
        }
        all.push((node.ino, parent_told(parents, root, lost, new, node.ino)))?;
    }
    Ok(Records::from_vec(all))
}
