//! The root of a tree of extents, in the data fork of a slot (chapter "Data Extents").

ghost use Rattle.std.specs.Prelude.{◌≡◌, ℕ, ◌+◌, ◌-◌, ◌*◌, ◌<◌, ◌≤◌, [], Some, None, IfOk, length, true};
ghost use Rattle.xfs_geom.specs.Conversions.{block_at};
ghost use Rattle.xfs_geom.specs.Volumes.{volume_of};
ghost use Rattle.xfs_tree.specs.Blocks.{each_of};
ghost use Rattle.xfs_inode.specs.Forks.{are_addresses, has_children, is_fork_root, names_block, keys_ascend, level_under, place_under, root_capacity, root_count, root_key, root_level, root_pointer, top_of};
ghost use Rattle.xfs_inode.specs.Named.{IsTopNamed, IsTop};

use crate::forks::fork_bytes;
use crate::layouts::root::{HEADER_SIZE, KEYS, LEVEL, NUMRECS, WIDTH};
use std::alloc::{AllocError, Global};
use xfs_geom::Geometry;
use xfs_kinds::Bmbt;
use xfs_tree::Frontier;
use xfs_volume::Core;
use xfs_word::{get16, get64};

/// The highest level of a root.
const HIGHEST: u16 = 9;

/// The level under the root of a data fork in tree format, or `None` where there is no such fork, or its root breaks
/// a rule or names an address outside the volume.
pub fn top_of(
    alloc: Global,
    g: &Geometry,
    core: &Core,
    slot: &[u8],
) -> Result<Option<Frontier<Bmbt>>, AllocError>
    requires { length slot.now ≡ 512 }
    ensures { IfOk result (λ top. IsTopNamed (top_of (volume_of g.now) core.now slot.now) top) }
{
    if core.format != 3 || !is_fork_root(g, core, slot) {
        return Ok(None);
    }
    let top = level_under(alloc, g, root_capacity(core.forkoff), slot)?;
    Ok(Some(top))
}

/// Whether the root of a data fork that lies inside the slot keeps the rules.
fn is_fork_root(g: &Geometry, core: &Core, slot: &[u8]) -> bool
    requires { length slot.now ≡ 512 }
    ensures value { result ≡ is_fork_root (volume_of g.now) core.now slot.now }
    ensures count { result ≡ true → root_count slot.now ≤ root_capacity core.now.forkoff }
    ensures room { result ≡ true → 180 + 16 * root_capacity core.now.forkoff ≤ 512 }
    ensures level { result ≡ true → 1 ≤ root_level slot.now }
{
    if core.forkoff > 41 {
        return false;
    }
    let capacity = root_capacity(core.forkoff);
    if !has_children(capacity, slot) {
        return false;
    }
    keys_ascend(slot) && are_addresses(g, capacity, slot)
}

/// How many children a root can have, by the byte that says where the attribute fork begins.
fn root_capacity(forkoff: u8) -> usize
    ensures value { result ≡ root_capacity forkoff }
    ensures room { forkoff ≤ 41 → 180 + 16 * result ≤ 512 }
{
    (fork_bytes(forkoff) - HEADER_SIZE) / (2 * WIDTH)
}

/// The level of the root.
fn root_level(slot: &[u8]) -> u16
    requires { length slot.now ≡ 512 }
    ensures { result ≡ root_level slot.now }
{
    get16(slot, LEVEL.offset)
}

/// How many children the root has.
fn root_count(slot: &[u8]) -> usize
    requires { length slot.now ≡ 512 }
    ensures { result ≡ root_count slot.now }
{
    get16(slot, NUMRECS.offset) as usize
}

/// The key of a child.
fn root_key(slot: &[u8], i: usize) -> u64
    requires { 188 + 8 * i ≤ length slot.now }
    ensures { result ≡ root_key slot.now i }
{
    get64(slot, KEYS + WIDTH * i)
}

/// The address of a child.
fn root_pointer(capacity: usize, slot: &[u8], i: usize) -> u64
    requires { 188 + 8 * capacity + 8 * i ≤ length slot.now }
    ensures { result ≡ root_pointer capacity slot.now i }
{
    get64(slot, KEYS + WIDTH * capacity + WIDTH * i)
}

/// Whether a root has one to nine levels under it, and one child up to its capacity.
fn has_children(capacity: usize, slot: &[u8]) -> bool
    requires { length slot.now ≡ 512 }
    ensures value { result ≡ has_children capacity slot.now }
    ensures count { result ≡ true → root_count slot.now ≤ capacity }
    ensures level { result ≡ true → 1 ≤ root_level slot.now }
{
    1 <= root_level(slot)
        && root_level(slot) <= HIGHEST
        && 1 <= root_count(slot)
        && root_count(slot) <= capacity
}

/// Whether each key is above the one in front of it.
#[tactic(auto, unfolding(crate::specs::Forks::keys_ascend))]
fn keys_ascend(slot: &[u8]) -> bool
    requires room { 180 + 8 * root_count slot.now ≤ length slot.now }
    requires whole { length slot.now ≡ 512 }
    ensures { result ≡ keys_ascend slot.now }
{
    for i in 1..root_count(slot) {
        let low = root_key(slot, i - 1);
        let high = root_key(slot, i);
        if low >= high {
            return false;
        }
    }
    true
}

/// Whether each address is one of the volume.
#[tactic(auto, unfolding(crate::specs::Forks::are_addresses))]
fn are_addresses(g: &Geometry, capacity: usize, slot: &[u8]) -> bool
    requires whole { length slot.now ≡ 512 }
    requires count { root_count slot.now ≤ capacity }
    requires room { 180 + 16 * capacity ≤ 512 }
    ensures { result ≡ are_addresses (volume_of g.now) capacity slot.now }
{
    for i in 0..root_count(slot) {
        if !is_address(g, root_pointer(capacity, slot, i)) {
            return false;
        }
    }
    true
}

/// Whether an address is one of the volume.
fn is_address(g: &Geometry, address: u64) -> bool
    ensures { result ≡ names_block (block_at (volume_of g.now) address) }
{
    match g.block_of_address(address) {
        Some(_) => true,
        None => false,
    }
}

/// The level under a root.
fn level_under(
    alloc: Global,
    g: &Geometry,
    capacity: usize,
    slot: &[u8],
) -> Result<Frontier<Bmbt>, AllocError>
    requires whole { length slot.now ≡ 512 }
    requires count { root_count slot.now ≤ capacity }
    requires room { 180 + 16 * capacity ≤ 512 }
    requires level { 1 ≤ root_level slot.now }
    ensures { IfOk result (λ f. IsTop (Some (level_under (volume_of g.now) capacity slot.now)) f) }
{
    let places = places_under(alloc, g, capacity, slot)?;
    let lows = keys_under(alloc, slot)?;
    Ok(Frontier {
        places,
        lows,
        highs: Vec::new(alloc),
        level: root_level(slot) as u32 - 1,
        left: None,
        right: None,
        from: 0,
    })
}

/// The blocks under a root.
fn places_under(
    alloc: Global,
    g: &Geometry,
    capacity: usize,
    slot: &[u8],
) -> Result<Vec<u64>, AllocError>
    requires whole { length slot.now ≡ 512 }
    requires count { root_count slot.now ≤ capacity }
    requires room { 180 + 16 * capacity ≤ 512 }
    ensures { IfOk result (λ places. places.items ≡ each_of (root_count slot.now) (place_under (volume_of g.now) capacity slot.now)) }
{
    let mut places = Vec::with_capacity(alloc, root_count(slot))?;
    for i in 0..root_count(slot) {
        places.push(place_under(g, capacity, slot, i))?;
    }
    Ok(places)
}

/// The keys that a root states.
fn keys_under(alloc: Global, slot: &[u8]) -> Result<Vec<u64>, AllocError>
    requires whole { length slot.now ≡ 512 }
    requires room { 180 + 8 * root_count slot.now ≤ length slot.now }
    ensures { IfOk result (λ keys. keys.items ≡ each_of (root_count slot.now) (root_key slot.now)) }
{
    let mut keys = Vec::with_capacity(alloc, root_count(slot))?;
    for i in 0..root_count(slot) {
        keys.push(root_key(slot, i))?;
    }
    Ok(keys)
}

/// The block of a child; all ones where its address lies outside the volume.
fn place_under(g: &Geometry, capacity: usize, slot: &[u8], i: usize) -> u64
    requires { 188 + 8 * capacity + 8 * i ≤ length slot.now }
    ensures { result ≡ place_under (volume_of g.now) capacity slot.now i }
{
    g.block_of_address(root_pointer(capacity, slot, i))
        .unwrap_or(u64::MAX)
}
