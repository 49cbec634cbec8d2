//! The counters of a volume once all is placed (chapter "Superblocks").

ghost use Rattle.std.specs.Prelude.{◌≡◌, ◌≤◌, ◌<◌, ◌*◌, ◌^◌, [], length, All};
ghost use Rattle.xfs_place.specs.Counts.{tree_block_count, placed_counts, room_placed, spare_blocks};

use crate::placed::GroupPlaced;
use crate::wanted::GroupInodes;
use xfs_geom::{Counts, free_blocks, free_slots, slots};
use xfs_volume::TreeBlocks;

/// The counters of a volume with these records of inodes and these trees and free lists in its groups.
pub fn count_all(inodes: &[GroupInodes], groups: &[GroupPlaced]) -> Counts
    requires groups { (length inodes.now ≤ 512) × (length groups.now ≤ 512) }
    requires few { All (λ group. length group.records < 2 ^ 32) inodes.now }
    requires small { (placed_counts [] groups.now).fdblocks < 2 ^ 64 }
    ensures { result ≡ placed_counts inodes.now groups.now }
{
    let (icount, ifree) = count_inodes(inodes);
    Counts {
        icount: icount as u64,
        ifree: ifree as u64,
        fdblocks: count_rooms(groups) as u64,
    }
}

/// The inodes of all groups, and how many of them are free.
fn count_inodes(inodes: &[GroupInodes]) -> (u128, u128)
    requires groups { length inodes.now ≤ 512 }
    requires few { All (λ group. length group.records < 2 ^ 32) inodes.now }
    ensures all { result.0 ≡ (placed_counts inodes.now []).icount }
    ensures free { result.1 ≡ (placed_counts inodes.now []).ifree }
    ensures small { (result.0 < 2 ^ 64) × (result.1 < 2 ^ 64) }
{
    let mut all = 0;
    let mut free = 0;
    for group in inodes {
        all += slots(group.records.as_slice());
        free += free_slots(group.records.as_slice());
    }
    (all, free)
}

/// The free blocks of all groups.
fn count_rooms(groups: &[GroupPlaced]) -> u128
    requires { length groups.now ≤ 512 }
    ensures { result ≡ (placed_counts [] groups.now).fdblocks }
{
    let mut blocks = 0;
    for group in groups {
        blocks += room_placed(group);
    }
    blocks
}

/// The free blocks of a group, those of its free list and those that its trees could spare.
fn room_placed(group: &GroupPlaced) -> u128
    ensures value { result ≡ room_placed group.now }
    ensures less { result < 2 ^ 100 }
{
    free_blocks(group.bno.as_slice())
        + group.agfl.as_slice().len() as u128
        + spare_blocks(group.trees.as_slice())
}

/// The blocks of the trees by start, by length and by owner, but for one each.
fn spare_blocks(trees: &[TreeBlocks]) -> u128
    ensures value { result ≡ spare_blocks trees.now }
    ensures less { result < 2 ^ 66 }
{
    let all = tree_block_count(trees, 0) + tree_block_count(trees, 1) + tree_block_count(trees, 4);
    all.saturating_sub(3)
}

/// The blocks of one of the trees, by its place among them.
fn tree_block_count(trees: &[TreeBlocks], tree: usize) -> u128
    ensures value { result ≡ tree_block_count trees.now tree }
    ensures less { result < 2 ^ 64 }
{
    match trees.get(tree) {
        Some(tree) => tree.blocks.as_slice().len() as u128,
        None => 0,
    }
}
