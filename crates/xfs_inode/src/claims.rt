//! Runs of blocks that a file claims.

ghost use Rattle.std.specs.Prelude.{None, ◌≡◌, ℕ, ◌+◌, ◌<◌, ◌≤◌, ◌++◌, nat_lt, map, true, IsTrue, IfOk, OnOk, IsPermutation};
ghost use Rattle.std.specs.List.{All, list_all};
ghost use Rattle.xfs_word.specs.declared.extents.Extent.{Extent};
ghost use Rattle.xfs_geom.specs.Volumes.{Volume, volume_of};
ghost use Rattle.xfs_kinds.specs.FileTrees.{is_extent};
ghost use Rattle.xfs_inode.specs.Private.Claims.{RangesRanked, in_turn};
ghost use Rattle.xfs_inode.specs.Files.{ranges_apart, are_blocks, are_extents, is_apart, is_placed, range_of, range_of_block, ranges_of};

use crate::held::DataHeld;
use std::alloc::{AllocError, Global};
use xfs_geom::Geometry;
use xfs_kinds::Bmbt;
use xfs_tree::Kind;
use xfs_word::Extent;

/// A run of blocks, by block numbers.
#[derive(Clone, Copy, PartialEq, Eq, PartialOrd, Ord)]
pub struct BlockRange {
    /// The first block.
    pub start: u64,
    /// The block behind the last.
    pub end: u64,
}

/// Whether what a data fork holds lies in the volume.
pub fn is_placed(g: &Geometry, held: &DataHeld) -> bool
    ensures { result ≡ is_placed (volume_of g.now) held.now }
{
    are_extents(g, held.extents()) && are_blocks(g, held.blocks())
}

/// Whether each extent is one of the volume, behind the one in front of it.
fn are_extents(g: &Geometry, extents: &[Extent]) -> bool
    ensures { result ≡ are_extents (volume_of g.now) None extents.now }
{
    let mut before = None;
    for extent in extents {
        if !(Bmbt { ino: 0 }).lawful(g, before.as_ref(), extent) {
            return false;
        }
        before = Some(*extent);
    }
    true
}

/// Whether each block is one of the volume.
fn are_blocks(g: &Geometry, blocks: &[u64]) -> bool
    ensures { result ≡ are_blocks (volume_of g.now) blocks.now }
{
    for block in blocks {
        if *block >= g.dblocks {
            return false;
        }
    }
    true
}

/// Whether no block lies in two of the runs of what a data fork holds.
pub fn ranges_apart(alloc: Global, g: &Geometry, held: &DataHeld) -> Result<bool, AllocError>
    requires { is_placed (volume_of g.now) held.now ≡ true }
    ensures { IfOk result (λ apart. apart ≡ ranges_apart (ranges_of (volume_of g.now) held.now)) }
{
    if is_single(held) {
        return Ok(true);
    }
    are_apart(alloc, g, held)
}

/// Whether a data fork has one extent at most, and no tree, as most have.
#[tactic(auto, using(crate::proofs::Single::single_apart))]
fn is_single(held: &DataHeld) -> bool
    ensures { result ≡ true → (v : Volume) → true ≡ ranges_apart (ranges_of v held.now) }
{
    held.blocks().is_empty() && held.extents().len() <= 1
}

/// Whether no block lies in two of the runs, by their order.
fn are_apart(alloc: Global, g: &Geometry, held: &DataHeld) -> Result<bool, AllocError>
    requires { is_placed (volume_of g.now) held.now ≡ true }
    ensures { IfOk result (λ apart. apart ≡ ranges_apart (ranges_of (volume_of g.now) held.now)) }
{
    let runs = ranges_of(alloc, g, held)?;
    let ranked = sorted(alloc, &runs)?;
    Ok(in_turn(&ranked))
}

/// All runs of what a data fork holds.
pub fn ranges_of(
    alloc: Global,
    g: &Geometry,
    held: &DataHeld,
) -> Result<Vec<BlockRange>, AllocError>
    requires { is_placed (volume_of g.now) held.now ≡ true }
    ensures { IfOk result (λ runs. runs.items ≡ ranges_of (volume_of g.now) held.now) }
{
    let mut runs = Vec::new(alloc);
    push_extents(g, held.extents(), &mut runs)?;
    push_blocks(g, held.blocks(), &mut runs)?;
    Ok(runs)
}

/// Adds the runs of extents.
fn push_extents(
    g: &Geometry,
    extents: &[Extent],
    runs: &mut Vec<BlockRange>,
) -> Result<(), AllocError>
    requires { All (λ (e : Extent). IsTrue (is_extent (volume_of g.now) e)) extents.now }
    ensures { OnOk result (runs.new.items ≡ runs.old.items ++ map (range_of (volume_of g.now)) extents.now) }
{
    for extent in extents {
        runs.push(range_of(g, extent))?;
    }
    Ok(())
}

/// Adds the runs of blocks.
fn push_blocks(g: &Geometry, blocks: &[u64], runs: &mut Vec<BlockRange>) -> Result<(), AllocError>
    requires { All (λ (b : ℕ). IsTrue (nat_lt b g.now.dblocks)) blocks.now }
    ensures { OnOk result (runs.new.items ≡ runs.old.items ++ map range_of_block blocks.now) }
{
    for block in blocks {
        runs.push(range_of_block(g, *block))?;
    }
    Ok(())
}

/// The blocks of an extent.
pub fn range_of(g: &Geometry, extent: &Extent) -> BlockRange
    requires { IsTrue (is_extent (volume_of g.now) extent.now) }
    ensures { result ≡ range_of (volume_of g.now) extent.now }
{
    let start = g.number_of_address(extent.start);
    BlockRange {
        start,
        end: start + extent.count,
    }
}

/// One block.
fn range_of_block(g: &Geometry, block: u64) -> BlockRange
    requires { IsTrue (nat_lt block g.now.dblocks) }
    ensures { result ≡ range_of_block block }
{
    BlockRange {
        start: block,
        end: block + 1,
    }
}

/// These runs, in order.
fn sorted(alloc: Global, runs: &[BlockRange]) -> Result<Vec<BlockRange>, AllocError>
    ensures moved { IfOk result (λ sorted. IsPermutation runs.now sorted.items) }
    ensures ranked { IfOk result (λ sorted. RangesRanked sorted.items) }
{
    let mut sorted = Vec::from_slice(alloc, runs)?;
    sorted.sort()?;
    Ok(sorted)
}

/// Whether each run begins where the one in front of it ends, or behind.
fn in_turn(runs: &[BlockRange]) -> bool
    ensures { result ≡ in_turn 0 runs.now }
{
    let mut end = 0;
    for run in runs {
        if run.start < end {
            return false;
        }
        end = run.end;
    }
    true
}
