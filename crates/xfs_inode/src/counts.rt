//! The blocks of a file, counted against what its core states.

ghost use Rattle.std.specs.Prelude.{◌≡◌, ℕ, ◌+◌, ◌<◌, ◌≤◌, ◌==◌, length, true, MatchOption, IfOk};
ghost use Rattle.std.specs.List.{list_all};
ghost use Rattle.xfs_geom.specs.Volumes.{volume_of};
ghost use Rattle.xfs_inode.specs.Files.{extent_blocks, is_apart, is_off_attributes, is_counted, is_placed, range_of_block};

use crate::attributes::AttrHeld;
use crate::claims::{BlockRange, ranges_of};
use crate::held::DataHeld;
use std::alloc::{AllocError, Global};
use xfs_geom::Geometry;
use xfs_volume::Core;
use xfs_word::Extent;

/// Whether the blocks of data, of their tree and of attributes are as many as the core states.
pub fn is_counted(core: &Core, held: &DataHeld, fork: &AttrHeld) -> bool
    ensures { result ≡ is_counted core.now held.now fork.now }
{
    match left_behind(core.nblocks, held.extents()) {
        None => false,
        Some(left) => is_sum(left, held.blocks().len(), fork.blocks().len()),
    }
}

/// Whether a number is the sum of two others.
fn is_sum(sum: u64, one: usize, other: usize) -> bool
    ensures { result ≡ sum == one + other }
{
    let one = one as u64;
    one <= sum && sum - one == other as u64
}

/// How many of some blocks are left without those of the extents, where there are as many.
fn left_behind(blocks: u64, extents: &[Extent]) -> Option<u64>
    ensures { MatchOption result (blocks < extent_blocks extents.now) (λ left. left + extent_blocks extents.now ≡ blocks) }
{
    let mut left = blocks;
    for extent in extents {
        if left < extent.count {
            return None;
        }
        left -= extent.count;
    }
    Some(left)
}

/// Whether no block of attributes is one of the data or of their tree. Most files have none.
#[tactic(auto, using(crate::proofs::Single::none_met))]
pub fn is_off_attributes(
    alloc: Global,
    g: &Geometry,
    held: &DataHeld,
    fork: &AttrHeld,
) -> Result<bool, AllocError>
    requires { is_placed (volume_of g.now) held.now ≡ true }
    ensures { IfOk result (λ clear. clear ≡ is_off_attributes (volume_of g.now) held.now fork.now) }
{
    if fork.blocks().is_empty() {
        return Ok(true);
    }
    let runs = ranges_of(alloc, g, held)?;
    Ok(miss(fork.blocks(), &runs))
}

/// Whether no block lies in one of the runs.
fn miss(blocks: &[u64], runs: &[BlockRange]) -> bool
    ensures { result ≡ list_all (λ block. list_all (is_apart (range_of_block block)) runs.now) blocks.now }
{
    for block in blocks {
        if !misses(*block, runs) {
            return false;
        }
    }
    true
}

/// Whether a block lies in none of the runs.
fn misses(block: u64, runs: &[BlockRange]) -> bool
    ensures { result ≡ list_all (is_apart (range_of_block block)) runs.now }
{
    for run in runs {
        if !is_beside(block, *run) {
            return false;
        }
    }
    true
}

/// Whether a block does not lie in a run.
fn is_beside(block: u64, run: BlockRange) -> bool
    ensures { result ≡ is_apart (range_of_block block) run }
{
    block < run.start || run.end <= block
}
