//! Who owns the blocks of a volume (chapter "Reverse-Mapping B+tree").

ghost use Rattle.std.specs.Prelude.{◌≡◌, ℕ, ◌++◌, ◌∷◌, [], List, length, IfOk, OnOk};
ghost use Rattle.std.specs.List.{All};
ghost use Rattle.xfs_geom.specs.Volumes.{volume_of};
ghost use Rattle.xfs_space.specs.Owners.{new_run, runs_of_blocks, owned_runs};
ghost use Rattle.xfs_space.specs.Parts.{AreGroups, HasLawfulForks};
ghost use Rattle.xfs_space.specs.Sorted.{IsOfOneGroup, IsOwned};

use crate::owned_files::push_files;
use crate::owned_groups::push_groups;
use std::alloc::Global;
use xfs_disk::NoMemory;
use xfs_geom::{Geometry, Run};
use xfs_volume::{FileRec, GroupRec};

/// The owner of a group's headers. The owners that are no inode are below 0, in two's complement.
pub const HEADERS: u64 = u64::MAX - 2;

/// The owner of the log.
pub const LOG: u64 = u64::MAX - 3;

/// The owner of the blocks of a group's trees of blocks and of its free list.
pub const GROUP: u64 = u64::MAX - 4;

/// The owner of the blocks of a group's trees of inodes.
pub const INODE_TREES: u64 = u64::MAX - 5;

/// The owner of the clusters of inodes.
pub const CLUSTERS: u64 = u64::MAX - 6;

/// The flag of blocks that are not written yet, in an offset word.
pub const UNWRITTEN: u64 = 1 << 61;

/// The flag of blocks of an extent tree.
pub const TREE_BLOCK: u64 = 1 << 62;

/// The flag of blocks of the attribute fork.
pub const ATTRIBUTE: u64 = 1 << 63;

/// How many runs a group of few inodes has: its headers, its five trees, its free list and its clusters.
const GROUP_RUNS: usize = 16;

/// All owned runs of a volume with these groups and files, in no order: blocks of the volume, with their
/// owners and offset words. The groups are those of the volume in their order; each has lawful records in its
/// trees and lists, and each file lawful extents.
///
/// `NoMemory` where memory is wanting.
#[tactic(auto, unfolding(crate::specs::Owners::owned_runs))]
pub fn owned_runs(
    alloc: Global,
    g: &Geometry,
    groups: &[GroupRec],
    files: &[FileRec],
) -> Result<Vec<Run>, NoMemory>
    requires count { length groups.now ≡ g.now.agcount }
    requires groups { AreGroups (volume_of g.now) 0 groups.now }
    requires files { All (HasLawfulForks (volume_of g.now)) files.now }
    ensures all { IfOk result (λ runs. runs.items ≡ owned_runs (volume_of g.now) groups.now files.now) }
    ensures inside { IfOk result (λ runs. All (IsOwned (volume_of g.now)) runs.items) }
    ensures groups { IfOk result (λ runs. All (IsOfOneGroup (volume_of g.now)) runs.items) }
{
    let mut runs = room_for_runs(alloc, groups, files)?;
    push_groups(&mut runs, g, groups)?;
    push_run(&mut runs, g.log, g.logblocks as u64, LOG, 0)?;
    push_files(&mut runs, g, files)?;
    Ok(runs)
}

/// An empty list with room for what groups mostly own by themselves, for a run of each file and for an eighth more, so that it
/// seldom grows.
fn room_for_runs(
    alloc: Global,
    groups: &[GroupRec],
    files: &[FileRec],
) -> Result<Vec<Run>, NoMemory>
    ensures { IfOk result (λ runs. runs.items ≡ []) }
{
    let shared = GROUP_RUNS.saturating_mul(groups.len());
    let own = files.len().saturating_add(files.len() / 8);
    let runs = Vec::with_capacity(alloc, shared.saturating_add(own))?;
    Ok(runs)
}

/// Adds a run.
pub fn push_run(
    runs: &mut Vec<Run>,
    start: u64,
    count: u64,
    owner: u64,
    offset: u64,
) -> Result<(), NoMemory>
    ensures { OnOk result (runs.new.items ≡ runs.old.items ++ new_run start count owner offset ∷ []) }
{
    runs.push(Run {
        start,
        count,
        owner,
        offset_word: offset,
    })?;
    Ok(())
}

/// Adds single blocks of one owner.
pub fn push_blocks(
    runs: &mut Vec<Run>,
    owner: u64,
    offset: u64,
    blocks: &[u64],
) -> Result<(), NoMemory>
    ensures { OnOk result (runs.new.items ≡ runs.old.items ++ runs_of_blocks owner offset blocks.now) }
{
    for block in blocks {
        push_run(runs, *block, 1, owner, offset)?;
    }
    Ok(())
}
