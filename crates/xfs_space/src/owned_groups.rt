//! What allocation groups own by themselves (chapter "Allocation Groups").

ghost use Rattle.std.specs.Prelude.{◌≡◌, ℕ, ◌++◌, ◌<◌, ◌≤◌, ◌^◌, List, map, length, OnOk};
ghost use Rattle.std.specs.List.{All};
ghost use Rattle.xfs_geom.specs.Volumes.{volume_of};
ghost use Rattle.xfs_volume.specs.declared.groups.GroupRec.{GroupRec};
ghost use Rattle.xfs_space.specs.Owners.{cluster_run, clusters_of_chunk, cluster_runs, different, group_runs, groups_runs, listed_run, tree_runs};
ghost use Rattle.xfs_space.specs.Parts.{AreGroups};

use crate::owners::{CLUSTERS, GROUP, HEADERS, INODE_TREES, push_blocks, push_run};
use xfs_disk::NoMemory;
use xfs_geom::{Geometry, InoRec, Run};
use xfs_volume::{GroupRec, TreeBlocks};

/// The owners of the five trees: free runs by start and by length, chunks, chunks with a free inode, owners.
const TREES: [u64; 5] = [GROUP, GROUP, INODE_TREES, INODE_TREES, GROUP];

/// Adds what the groups own.
pub fn push_groups(runs: &mut Vec<Run>, g: &Geometry, groups: &[GroupRec]) -> Result<(), NoMemory>
    requires count { length groups.now ≡ g.now.agcount }
    requires groups { AreGroups (volume_of g.now) 0 groups.now }
    ensures { OnOk result (runs.new.items ≡ runs.old.items ++ groups_runs g.now.agblocks 0 groups.now) }
{
    for (ag, group) in groups.iter().enumerate() {
        push_group(runs, g.start_of_group(ag as u32), group)?;
    }
    Ok(())
}

/// Adds what a group owns that begins at block `base`, its headers first.
fn push_group(runs: &mut Vec<Run>, base: u64, group: &GroupRec) -> Result<(), NoMemory>
    requires base { base < 2 ^ 26 }
    requires list { group.now.agfl.count ≤ 119 }
    requires trees { length group.now.blocks ≡ 5 }
    ensures { OnOk result (runs.new.items ≡ runs.old.items ++ group_runs base group.now) }
{
    push_run(runs, base, 1, HEADERS, 0)?;
    push_trees(runs, &TREES, group.blocks.as_slice())?;
    push_listed(runs, base, group.agfl.active())?;
    push_clusters(runs, base, group.ino.as_slice())
}

/// Adds the blocks of trees with these owners.
fn push_trees(runs: &mut Vec<Run>, owners: &[u64], trees: &[TreeBlocks]) -> Result<(), NoMemory>
    requires { length trees.now ≤ length owners.now }
    ensures { OnOk result (runs.new.items ≡ runs.old.items ++ tree_runs owners.now trees.now) }
{
    for (index, tree) in trees.iter().enumerate() {
        push_blocks(runs, owners[index], 0, tree.blocks.as_slice())?;
    }
    Ok(())
}

/// Adds these AG blocks of the free list of the group that begins at block `base`, each different one once.
fn push_listed(runs: &mut Vec<Run>, base: u64, ag_blocks: &[u32]) -> Result<(), NoMemory>
    requires { base < 2 ^ 26 }
    ensures { OnOk result (runs.new.items ≡ runs.old.items ++ map (listed_run base) (different ag_blocks.now)) }
{
    for (index, ag_block) in ag_blocks.iter().enumerate() {
        if !ag_blocks[index + 1..].contains(ag_block) {
            push_run(runs, base + *ag_block as u64, 1, GROUP, 0)?;
        }
    }
    Ok(())
}

/// Adds the clusters of the chunks of the group that begins at block `base`.
fn push_clusters(runs: &mut Vec<Run>, base: u64, chunks: &[InoRec]) -> Result<(), NoMemory>
    requires { base < 2 ^ 26 }
    ensures { OnOk result (runs.new.items ≡ runs.old.items ++ cluster_runs base chunks.now) }
{
    for chunk in chunks {
        push_chunk(runs, base, chunk)?;
    }
    Ok(())
}

/// Adds the clusters of a chunk: two, or the first or the second is missing.
fn push_chunk(runs: &mut Vec<Run>, base: u64, chunk: &InoRec) -> Result<(), NoMemory>
    requires { base < 2 ^ 26 }
    ensures { OnOk result (runs.new.items ≡ runs.old.items ++ map (cluster_run base) (clusters_of_chunk chunk.now)) }
{
    let first = base + chunk.startino as u64 / 8;
    if chunk.holemask != 0x00ff {
        push_run(runs, first, 4, CLUSTERS, 0)?;
    }
    if chunk.holemask != 0xff00 {
        push_run(runs, first + 4, 4, CLUSTERS, 0)?;
    }
    Ok(())
}
