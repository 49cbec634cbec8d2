//! The trees and the free list of one group.

ghost use Rattle.std.specs.Prelude.{◌≡◌, ◌≤◌, ◌<◌, ◌+◌, ◌++◌, ◌^◌, ℕ, map, drop, length, take, IfOk, MatchOption, None};
ghost use Rattle.std.specs.List.{filter, sum};
ghost use Rattle.xfs_geom.specs.Sums.{has_free};
ghost use Rattle.xfs_place.specs.Choice.{IsChosenCount, IsPlacingGroup, Stands, group_claimed, rank};
ghost use Rattle.xfs_place.specs.Claims.{AreClaims};
ghost use Rattle.xfs_place.specs.Placing.{IsPlacedGroup, cut, inner_blocks, tree_blocks_at, tree_sizes};

use crate::choice::choose_count;
use crate::claims::count_records;
use crate::group_lists::{list_free, list_records, take_blocks, with_free};
use crate::lowest::{Lowest, tree_blocks};
use crate::owned::list_owned;
use crate::placed::GroupPlaced;
use crate::uses::Use;
use std::alloc::Global;
use xfs_disk::NoMemory;
use xfs_geom::{InoRec, Run};
use xfs_kinds::by_length;
use xfs_volume::{Records, TreeBlocks};

/// Places the trees and the free list of a group from block `base` on, by the uses of its blocks, its claims as runs of AG blocks
/// in order, and its records of inodes. `None` where there is no room.
pub fn place_group(
    alloc: Global,
    uses: &[Use],
    claims: &[Run],
    inodes: &[InoRec],
    base: u64,
) -> Result<Option<GroupPlaced>, NoMemory>
    requires few { (length uses.now < 2 ^ 32) × (length inodes.now < 2 ^ 32) }
    requires base { base < 2 ^ 40 }
    requires group { IsPlacingGroup (group_claimed uses.now claims.now (inner_blocks inodes.now)) }
    requires claims { AreClaims (length uses.now) claims.now }
    ensures { IfOk result (λ placed. MatchOption placed (IsChosenCount (group_claimed uses.now claims.now (inner_blocks inodes.now)) None)
        (IsPlacedGroup (group_claimed uses.now claims.now (inner_blocks inodes.now)) base inodes.now)) }
{
    let fino = with_free(alloc, inodes)?;
    let inner = inner_size(inodes, &fino);
    let Some(blocks) = choose_blocks(alloc, uses, claims, inner)? else {
        return Ok(None);
    };
    let taken = Lowest::first(alloc, uses, blocks)?;
    let placed = fill_group(alloc, uses, claims, inodes, fino, &taken, base)?;
    Ok(Some(placed))
}

/// How many of the lowest blocks of the pool go to the trees and the free list, of which the two inode trees take `inner`. `None` where there is
/// no room.
fn choose_blocks(
    alloc: Global,
    uses: &[Use],
    claims: &[Run],
    inner: u64,
) -> Result<Option<usize>, NoMemory>
    requires few { length uses.now < 2 ^ 32 }
    requires inner { (0 < inner) × (inner < 2 ^ 40) }
    requires group { IsPlacingGroup (group_claimed uses.now claims.now inner) }
    requires claims { AreClaims (length uses.now) claims.now }
    ensures there { IfOk result (λ chosen. MatchOption chosen (Unit {0}) (λ n. n ≤ rank uses.now (length uses.now))) }
    ensures chosen { IfOk result (λ chosen. IsChosenCount (group_claimed uses.now claims.now inner) chosen) }
{
    let records = count_records(alloc, claims, uses.len() as u64)?;
    let mut lowest = Lowest::new(alloc, uses)?;
    choose_count(&mut lowest, uses, inner, records)
}

/// The trees and the free list on these blocks.
fn fill_group(
    alloc: Global,
    uses: &[Use],
    claims: &[Run],
    inodes: &[InoRec],
    fino: Vec<InoRec>,
    taken: &Lowest,
    base: u64,
) -> Result<GroupPlaced, NoMemory>
    requires few { (length uses.now < 2 ^ 32) × (length inodes.now < 2 ^ 32) }
    requires base { base < 2 ^ 40 }
    requires group { IsPlacingGroup (group_claimed uses.now claims.now (inner_blocks inodes.now)) }
    requires claims { AreClaims (length uses.now) claims.now }
    requires free { fino.items ≡ filter has_free inodes.now }
    requires taken { Stands uses.now taken.now }
    ensures { IfOk result (λ placed. IsChosenCount (group_claimed uses.now claims.now (inner_blocks inodes.now)) (Some (length taken.now.blocks.items))
        → IsPlacedGroup (group_claimed uses.now claims.now (inner_blocks inodes.now)) base inodes.now placed) }
{
    let inner = inner_size(inodes, &fino);
    let space = taken.space_blocks(uses);
    let owned = list_owned(alloc, claims, &taken.blocks, space, inner)?;
    let length = uses.len() as u32;
    let bno = list_free(alloc, &owned, length)?;
    let cnt = by_length(alloc, &bno)?;
    let rmap = list_records(alloc, &owned, length)?;
    let sizes = list_sizes(bno.len(), inodes.len(), fino.len(), rmap.len());
    let trees = cut_trees(alloc, &taken.blocks, &sizes, base)?;
    let agfl = rest_of(alloc, &taken.blocks, all_of(&sizes))?;
    Ok(GroupPlaced {
        bno: Records::from_vec(bno),
        cnt: Records::from_vec(cnt),
        fino: Records::from_vec(fino),
        rmap: Records::from_vec(rmap),
        trees: Records::from_vec(trees),
        agfl: Records::from_vec(agfl),
    })
}

/// The blocks of the two inode trees.
fn inner_size(inodes: &[InoRec], free: &[InoRec]) -> u64
    requires few { length inodes.now < 2 ^ 32 }
    requires free { free.now ≡ filter has_free inodes.now }
    ensures value { result ≡ inner_blocks inodes.now }
    ensures some { 0 < result }
    ensures small { result < 2 ^ 36 }
{
    tree_blocks(252, 505, inodes.len() as u64) + tree_blocks(252, 505, free.len() as u64)
}

/// The blocks of the five trees of so many records.
fn list_sizes(free: usize, inodes: usize, free_inodes: usize, owners: usize) -> [u64; 5]
    requires { (free < 2 ^ 34) × (inodes < 2 ^ 34) × (free_inodes < 2 ^ 34) × (owners < 2 ^ 34) }
    ensures sizes { result ≡ tree_sizes free inodes free_inodes owners }
    ensures small { sum result < 2 ^ 40 }
{
    let space = tree_blocks(505, 336, free as u64);
    [
        space,
        space,
        tree_blocks(252, 505, inodes as u64),
        tree_blocks(252, 505, free_inodes as u64),
        tree_blocks(168, 91, owners as u64),
    ]
}

/// The sum of the sizes.
fn all_of(sizes: &[u64]) -> u64
    requires { sum sizes.now < 2 ^ 40 }
    ensures { result ≡ sum sizes.now }
{
    sizes.iter().sum()
}

/// The blocks cut into trees of these sizes.
fn cut_trees(
    alloc: Global,
    blocks: &[u32],
    sizes: &[u64],
    base: u64,
) -> Result<Vec<TreeBlocks>, NoMemory>
    requires base { base < 2 ^ 40 }
    requires sizes { sum sizes.now < 2 ^ 40 }
    ensures { IfOk result (λ trees. trees.items ≡ map (tree_blocks_at base) (cut sizes.now blocks.now)) }
{
    let mut trees = Vec::new(alloc);
    let mut from = 0;
    for size in sizes {
        let places = take_blocks(alloc, blocks, from as usize, *size as usize, base)?;
        trees.push(TreeBlocks {
            blocks: Records::from_vec(places),
        })?;
        from += *size;
    }
    Ok(trees)
}

/// The blocks behind the first ones.
fn rest_of(alloc: Global, blocks: &[u32], from: u64) -> Result<Vec<u32>, NoMemory>
    ensures { IfOk result (λ rest. rest.items ≡ drop from blocks.now) }
{
    let first = (from as usize).min(blocks.len());
    let mut rest = Vec::new(alloc);
    rest.extend_from_slice(&blocks[first..])?;
    Ok(rest)
}
