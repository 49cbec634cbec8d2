//! The places of log sequence numbers of groups, and of the slots of inodes.

ghost use Rattle.std.specs.Prelude.{◌≡◌, ◌^◌, ◌≤◌, ◌<◌, ◌++◌, [], ◌∷◌, length, OnOk};
ghost use Rattle.std.specs.List.{All, flat_map};
ghost use Rattle.xfs_geom.specs.Volumes.{volume_of};
ghost use Rattle.xfs_tree.specs.Blocks.{each_of};
ghost use Rattle.xfs_image.specs.Lsns.{at, cluster_places, groups_places, slot_place, tree_lsn_places};
ghost use Rattle.xfs_journal.specs.Placed.{IsInBlock, listed};

use crate::places::{LsnPosition, push, push_each};
use xfs_disk::NoMemory;
use xfs_geom::Geometry;
use xfs_volume::GroupRec;

/// Where the headers of a group have their numbers in its first block, in bytes: those of its free space and of its
/// inodes, and its free list.
const AGF_LSN: u16 = 720;

const AGI_LSN: u16 = 1344;

const AGFL_LSN: u16 = 1560;

/// Where a block of a group's tree has its number, in bytes.
const TREE_LSN: u16 = 24;

/// Where a slot has its number, and the bytes of a slot.
const SLOT_LSN: u16 = 112;

const SLOT_SIZE: u16 = 512;

/// Adds the places of groups.
pub fn push_group_places(
    g: &Geometry,
    groups: &[GroupRec],
    places: &mut Vec<LsnPosition>,
) -> Result<(), NoMemory>
    requires few { length groups.now ≤ 512 }
    requires inside { All IsInBlock places.old.items }
    ensures listed { OnOk result (listed places.new.items ≡ listed places.old.items ++ groups_places (volume_of g.now) 0 groups.now) }
    ensures inside { All IsInBlock places.new.items }
{
    for (ag, group) in groups.iter().enumerate() {
        push_heads(ag as u64 * g.agblocks as u64, places)?;
        push_trees(group, places)?;
    }
    Ok(())
}

/// Adds the places of the headers of a group, which stand in this block.
fn push_heads(block: u64, places: &mut Vec<LsnPosition>) -> Result<(), NoMemory>
    requires inside { All IsInBlock places.old.items }
    ensures listed { OnOk result (listed places.new.items ≡ listed places.old.items ++ at 720 block ∷ at 1344 block ∷ at 1560 block ∷ []) }
    ensures inside { All IsInBlock places.new.items }
{
    push(block, AGF_LSN, places)?;
    push(block, AGI_LSN, places)?;
    push(block, AGFL_LSN, places)
}

/// Adds the places of the blocks of a group's trees.
fn push_trees(group: &GroupRec, places: &mut Vec<LsnPosition>) -> Result<(), NoMemory>
    requires inside { All IsInBlock places.old.items }
    ensures listed { OnOk result (listed places.new.items ≡ listed places.old.items ++ tree_lsn_places group.now) }
    ensures inside { All IsInBlock places.new.items }
{
    for tree in group.blocks.as_slice() {
        push_each(tree.blocks.as_slice(), TREE_LSN, places)?;
    }
    Ok(())
}

/// Adds the places of all slots of clusters.
pub fn push_cluster_places(clusters: &[u64], places: &mut Vec<LsnPosition>) -> Result<(), NoMemory>
    requires low { All (λ cluster. cluster < 2 ^ 60) clusters.now }
    requires inside { All IsInBlock places.old.items }
    ensures listed { OnOk result (listed places.new.items ≡ listed places.old.items ++ flat_map cluster_places clusters.now) }
    ensures inside { All IsInBlock places.new.items }
{
    for cluster in clusters {
        push_cluster(*cluster, places)?;
    }
    Ok(())
}

/// Adds the places of the slots of a cluster.
fn push_cluster(cluster: u64, places: &mut Vec<LsnPosition>) -> Result<(), NoMemory>
    requires low { cluster < 2 ^ 60 }
    requires inside { All IsInBlock places.old.items }
    ensures listed { OnOk result (listed places.new.items ≡ listed places.old.items ++ cluster_places cluster) }
    ensures inside { All IsInBlock places.new.items }
{
    push_slots(cluster, places)?;
    push_slots(cluster + 1, places)?;
    push_slots(cluster + 2, places)?;
    push_slots(cluster + 3, places)?;
    Ok(())
}

/// Adds the places of the eight slots of a block.
fn push_slots(block: u64, places: &mut Vec<LsnPosition>) -> Result<(), NoMemory>
    requires inside { All IsInBlock places.old.items }
    ensures listed { OnOk result (listed places.new.items ≡ listed places.old.items ++ each_of 8 (slot_place block)) }
    ensures inside { All IsInBlock places.new.items }
{
    for slot in 0..8u16 {
        push(block, SLOT_SIZE * slot + SLOT_LSN, places)?;
    }
    Ok(())
}
