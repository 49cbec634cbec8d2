//! The blocks that objects and chunks leave to the trees of their group.

ghost use Rattle.std.specs.Prelude.{◌≡◌, ◌+◌, ◌-◌, ◌≤◌, ◌<◌, ◌==◌, ◌^◌, ◌&&◌, ℕ, length, slice_index, if◌then◌else◌, All, IfOk};
ghost use Rattle.xfs_geom.specs.Volumes.{volume_of};
ghost use Rattle.xfs_place.specs.Pool.{IsRunOf, is_open, is_pool, use_at};
ghost use Rattle.xfs_place.specs.Sparing.{lasting_room, room_for, spared_below, spared_of, tree_room};

use crate::lowest::tree_blocks;
use crate::uses::{Use, is_open};
use crate::windows::Window;
use std::alloc::Global;
use xfs_disk::NoMemory;
use xfs_geom::{Geometry, Run};
use xfs_volume::Records;

/// Of each group the AG block from which on its blocks are spared for its trees: so that as many blocks of the pool stand there as
/// the trees of the group and six blocks of its free list may need, or all where it has fewer. In a volume that is made anew the trees
/// of inodes and of owners that a repair would place beside them have room too. The pool is the blocks that have no fixed use and are
/// neither taken nor reserved.
///
/// `NoMemory` where memory is wanting.
pub fn spare(
    alloc: Global,
    g: &Geometry,
    taken: &[Run],
    reserved: &[u64],
    anew: bool,
) -> Result<Records<u32>, NoMemory>
    requires taken { All (IsRunOf g.now.dblocks) taken.now }
    ensures all { IfOk result (λ spared. length spared ≡ g.now.agcount) }
    ensures each { IfOk result (λ spared. (ag : ℕ) → ag < g.now.agcount
        → slice_index spared ag ≡ spared_of (volume_of g.now) (is_pool (volume_of g.now) taken.now reserved.now) anew ag) }
{
    let mut window = Window::new(alloc);
    let mut spared = Vec::new(alloc);
    for ag in 0..g.agcount {
        window.reach(alloc, g, taken, reserved, ag)?;
        spared.push(spared_of(window.group(g, ag), anew))?;
    }
    Ok(Records::from_vec(spared))
}

/// The AG block from which on the blocks of a group are spared, by the uses of its blocks.
fn spared_of(uses: &[Use], anew: bool) -> u32
    requires few { length uses.now < 2 ^ 32 }
    ensures { result ≡ spared_below (λ block. is_open (use_at uses.now block)) (room_for anew (length uses.now)) (length uses.now) }
{
    let room = room_for(anew, uses.len() as u64);
    spared_below(uses, room)
}

/// The least AG block from which on at most so many blocks of a group are of the pool, by their uses.
fn spared_below(uses: &[Use], room: u64) -> u32
    requires few { length uses.now < 2 ^ 32 }
    ensures { result ≡ spared_below (λ block. is_open (use_at uses.now block)) room (length uses.now) }
{
    let blocks = uses.len();
    let mut left = room;
    for i in 0..blocks {
        let block = blocks - 1 - i;
        let open = is_open(uses[block]);
        if is_over(left, open) {
            return block as u32 + 1;
        }
        left = less(left, open);
    }
    0
}

/// Whether one more block of the pool is more than so many.
fn is_over(left: u64, more: bool) -> bool
    ensures { result ≡ (more && left == 0) }
{
    more && left == 0
}

/// How many blocks may still be of the pool behind one more.
fn less(left: u64, more: bool) -> u64
    ensures { result ≡ (if more then left - 1 else left) }
{
    if more { left.saturating_sub(1) } else { left }
}

/// How many blocks are spared of a group of so many blocks.
fn room_for(anew: bool, blocks: u64) -> u64
    requires { blocks < 2 ^ 32 }
    ensures { result ≡ room_for anew blocks }
{
    if anew {
        tree_room(blocks) + lasting_room(blocks)
    } else {
        tree_room(blocks)
    }
}

/// The blocks of all trees of a group of so many blocks, of which each second is free, and six of its free list.
fn tree_room(blocks: u64) -> u64
    requires { blocks < 2 ^ 32 }
    ensures value { result ≡ tree_room blocks }
    ensures small { result < 2 ^ 40 }
{
    let inodes = tree_blocks(252, 505, blocks / 8);
    let free = tree_blocks(505, 336, (blocks + 1) / 2);
    lasting_room(blocks) + inodes + 2 * free + 6
}

/// The blocks of the trees of owners and of inodes of a group of so many blocks.
fn lasting_room(blocks: u64) -> u64
    requires { blocks < 2 ^ 32 }
    ensures value { result ≡ lasting_room blocks }
    ensures small { result < 2 ^ 36 }
{
    tree_blocks(168, 91, blocks) + tree_blocks(252, 505, blocks / 8)
}
