//! Where chunks of inodes stand (chapter "AG Inode Management").

ghost use Rattle.std.specs.Prelude.{◌≡◌, ◌+◌, ◌*◌, ◌≤◌, ◌<◌, ◌^◌, ◌⊎◌, ◌++◌, ◌&&◌, nat_le, length, slice_index_or, take, All, IfErr, IfOk, OnOk};
ghost use Rattle.std.specs.List.{list_all, range_with_len};
ghost use Rattle.xfs_geom.specs.Conversions.{group_length};
ghost use Rattle.xfs_geom.specs.Volumes.{volume_of};
ghost use Rattle.xfs_place.specs.Chunks.{asked_pool, asked_rooms, is_room, lies_in_chunks, rooms_of};
ghost use Rattle.xfs_place.specs.Pool.{IsRunOf, is_open, use_at};
ghost use Rattle.xfs_place.specs.Wanted.{uses_in};

use crate::faults::{PlaceFault, Unplaced};
use crate::open_rows::spared_from;
use crate::uses::{Use, is_open};
use crate::windows::Window;
use std::alloc::Global;
use xfs_disk::NoMemory;
use xfs_geom::{Geometry, Run};
use xfs_volume::Records;

/// A request for chunks of inodes.
#[derive(Drop)]
pub struct ChunkAsk {
    pub geometry: Geometry,
    /// The runs of what is kept, in any order.
    pub taken: Records<Run>,
    /// Blocks that nothing new may stand on, by their numbers, in any order.
    pub reserved: Records<u64>,
    /// The blocks of a chunk.
    pub size: u32,
    /// No chunk begins before this AG block.
    pub from: u32,
    /// Of each group the AG block from which on its blocks are spared for its trees (`spare`); of a group that lacks here none is.
    pub spared_from: Records<u32>,
    /// How many chunks are wanted.
    pub count: u32,
    /// What they are for.
    pub what: Unplaced,
}

/// The first blocks of the `count` lowest chunks, ascending, by their numbers. A chunk is `size` blocks of the
/// pool in one allocation group, of which the first is a multiple of `size` and at or behind AG block `from`. It lies
/// behind the first eight blocks of the group and before the end of its last whole eight. The pool is the blocks that have
/// no fixed use and are neither taken nor reserved, nor spared.
///
/// `NoRoom` of `what` where there are fewer such chunks; `NoMemory` where memory is wanting.
pub fn chunks(alloc: Global, ask: &ChunkAsk) -> Result<Records<u64>, PlaceFault>
    requires size { 1 ≤ ask.now.size }
    requires taken { All (IsRunOf ask.now.geometry.dblocks) ask.now.taken }
    ensures lowest { IfOk result (λ starts. starts ≡ take ask.now.count (asked_rooms ask.now)) }
    ensures all { IfOk result (λ starts. length starts ≡ ask.now.count) }
    ensures cause { IfErr result (λ fault. (fault ≡ PlaceFault.NoMemory)
        ⊎ ((fault ≡ PlaceFault.NoRoom ask.now.what) × (length (asked_rooms ask.now) < ask.now.count))) }
{
    let starts = find_chunks(alloc, ask)?;
    if starts.len() < ask.count as usize {
        return Err(PlaceFault::NoRoom(ask.what));
    }
    Ok(Records::from_vec(starts))
}

/// As many of the lowest chunks as are wanted, or all where there are fewer.
fn find_chunks(alloc: Global, ask: &ChunkAsk) -> Result<Vec<u64>, NoMemory>
    requires size { 1 ≤ ask.now.size }
    requires taken { All (IsRunOf ask.now.geometry.dblocks) ask.now.taken }
    ensures { IfOk result (λ starts. starts.items ≡ take ask.now.count (asked_rooms ask.now)) }
{
    let g = &ask.geometry;
    let taken = ask.taken.as_slice();
    let reserved = ask.reserved.as_slice();
    let mut window = Window::new(alloc);
    let mut starts = Vec::new(alloc);
    for ag in 0..g.agcount {
        if starts.len() >= ask.count as usize {
            return Ok(starts);
        }
        window.reach(alloc, g, taken, reserved, ag)?;
        push_rooms(&mut starts, ask, window.group(g, ag), ag)?;
    }
    Ok(starts)
}

/// Adds the chunks of a group, up to the number that is wanted, by the uses of its blocks.
fn push_rooms(starts: &mut Vec<u64>, ask: &ChunkAsk, uses: &[Use], ag: u32) -> Result<(), NoMemory>
    requires size { 1 ≤ ask.now.size }
    requires group { ag < ask.now.geometry.agcount }
    requires uses { uses.now ≡ uses_in (volume_of ask.now.geometry) ask.now.taken ask.now.reserved ag }
    requires few { length starts.old.items ≤ ask.now.count }
    ensures { OnOk result (starts.new.items ≡ take ask.now.count (starts.old.items
        ++ rooms_of (volume_of ask.now.geometry) (asked_pool ask.now) ask.now.size ask.now.from ag)) }
{
    let size = ask.size as u64;
    let base = ask.geometry.start_of_group(ag);
    for i in 0..ask.geometry.group_length(ag) as u64 / size {
        if starts.len() >= ask.count as usize {
            return Ok(());
        }
        if is_room(ask, uses, ag, i) {
            starts.push(base + i * size)?;
        }
    }
    Ok(())
}

/// Whether the blocks of this number, among those of `size` blocks of a group, can be a chunk, by the uses of the group's blocks.
fn is_room(ask: &ChunkAsk, uses: &[Use], ag: u32, i: u64) -> bool
    requires size { 1 ≤ ask.now.size }
    requires group { ag < ask.now.geometry.agcount }
    requires inside { i * ask.now.size + ask.now.size ≤ group_length (volume_of ask.now.geometry) ag }
    requires uses { uses.now ≡ uses_in (volume_of ask.now.geometry) ask.now.taken ask.now.reserved ag }
    ensures { result ≡ is_room (volume_of ask.now.geometry) (asked_pool ask.now) ask.now.size ask.now.from ag i }
{
    let length = ask.geometry.group_length(ag);
    let at = i * ask.size as u64;
    lies_in_chunks(ask, length, at) && are_asked(ask, uses, ag, at)
}

/// Whether the `size` blocks from an AG block on are of the pool and not spared, by the uses of the group's blocks.
fn are_asked(ask: &ChunkAsk, uses: &[Use], ag: u32, at: u64) -> bool
    requires { at + ask.now.size ≤ length uses.now }
    ensures { result ≡ (nat_le (at + ask.now.size) (slice_index_or ask.now.spared_from ag ask.now.geometry.agblocks)
        && list_all (λ block. is_open (use_at uses.now block)) (range_with_len at ask.now.size)) }
{
    let size = ask.size as u64;
    let spared = spared_from(
        ask.spared_from.as_slice(),
        ag as usize,
        ask.geometry.agblocks,
    );
    at + size <= spared as u64 && are_open(uses, at, size)
}

/// Whether the `size` blocks from an AG block on lie where chunks may stand, in a group of so many blocks.
fn lies_in_chunks(ask: &ChunkAsk, length: u32, at: u64) -> bool
    requires { at + ask.now.size ≤ length }
    ensures { result ≡ lies_in_chunks length ask.now.size ask.now.from at }
{
    let end = length as u64 / 8 * 8;
    8 <= at && ask.from as u64 <= at && at + ask.size as u64 <= end
}

/// Whether the `count` blocks from `start` on are all of the pool.
fn are_open(uses: &[Use], start: u64, count: u64) -> bool
    requires { start + count ≤ length uses.now }
    ensures { result ≡ list_all (λ block. is_open (use_at uses.now block)) (range_with_len start count) }
{
    for block in start..start + count {
        if !is_open(uses[block as usize]) {
            return false;
        }
    }
    true
}
