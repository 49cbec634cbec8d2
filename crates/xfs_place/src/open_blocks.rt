//! The blocks of the pool on which objects may stand, and runs of them.

ghost use Rattle.std.specs.Prelude.{◌≡◌, ◌≢◌, ◌≤◌, ◌<◌, ◌+◌, ◌-◌, ◌^◌, ◌&&◌, ◌⊎◌, ℕ, Bool, Option, None, min, nat_lt, length, slice_index, if◌then◌else◌, IfOk, IfSome, OnOk, MatchOption};
ghost use Rattle.xfs_geom.specs.Volumes.{volume_of};
ghost use Rattle.xfs_place.specs.Choice.{IsLeast, IsNone};
ghost use Rattle.xfs_place.specs.Finding.{AreCounts, Finds, HasNone, HasRows, HasRun, InRow, IsFront, IsLongest, IsOpen, Takes, counts_in, free_in, pair_of_piece};
ghost use Rattle.xfs_place.specs.Greatest.{AreGreatest, SetsNumber, leaves_of};
ghost use Rattle.xfs_place.specs.Objects.{most_extent_blocks, found_or, most_blocks, piece_of};
ghost use Rattle.xfs_place.specs.Wanted.{CanBeKept};

use crate::greatest::Greatest;
use crate::open_rows::{Site, list_rows, list_unspared, list_uses_open};
use std::alloc::Global;
use xfs_disk::NoMemory;
use xfs_geom::Run;

/// The most blocks of an extent.
const EXTENT_BLOCKS: u64 = (1 << 21) - 1;

/// The most blocks of a run: 21 extents fill a fork.
const MOST_BLOCKS: u64 = 21 * EXTENT_BLOCKS;

/// A run of open blocks that is found: the first blocks of a row.
#[derive(Clone, Copy)]
pub struct Piece {
    pub start: u64,
    pub blocks: u64,
    /// The number of the row.
    pub row: usize,
}

/// The blocks on which objects may stand, in rows: a block on which none may stand lies between each and the next.
#[derive(Drop)]
pub struct OpenBlocks {
    /// The first block of each row, ascending.
    pub starts: Vec<u32>,
    /// How many blocks each has: none where all are given away.
    pub counts: Greatest,
    /// How many of these are not spared: they are its first blocks.
    pub unspared: Greatest,
}

impl OpenBlocks {
    /// The blocks of the pool that what is kept leaves, but for those of each group before the AG block of the site.
    pub fn new(alloc: Global, site: &Site<'_>, kept: &[Run]) -> Result<OpenBlocks, NoMemory>
        requires kept { CanBeKept (volume_of site.now.geometry.now) kept.now }
        ensures { IfOk result (λ pool. IsOpen (volume_of site.now.geometry.now) kept.now site.now.reserved.now site.now.from site.now.spared.now pool) }
    {
        let uses = list_uses_open(alloc, site, kept)?;
        let rows = list_rows(alloc, &uses)?;
        let parts = list_unspared(alloc, site, &rows)?;
        let counts = Greatest::new(alloc, &rows.counts)?;
        let unspared = Greatest::new(alloc, &parts)?;
        Ok(OpenBlocks {
            starts: rows.starts,
            counts,
            unspared,
        })
    }

    /// A run for all of so many blocks, or for some of them: of an ask that is split already, or is not yet; of all blocks, or of those
    /// that are not spared.
    pub fn piece(&self, all: bool, blocks: u64, split: bool) -> Option<Piece>
        requires some { 1 ≤ blocks }
        requires rows { HasRows self.now }
        ensures piece { (low : ℕ → Option ℕ) → Finds (free_in all self.now) low → piece_of low split blocks ≡ pair_of_piece result }
        ensures least { IfSome result (λ piece. IsLeast (HasRun (free_in all self.now) piece.blocks) piece.start) }
        ensures front { IfSome result (λ piece. IsFront self.now.starts.items (leaves_of (counts_in all self.now)) piece) }
        ensures few { IfSome result (λ piece. piece.blocks ≤ blocks) }
    {
        piece_of(&self.starts, self.counts_in(all), blocks, split)
    }

    /// The numbers of blocks of all rows, or of those that are not spared.
    fn counts_in(&self, all: bool) -> &Greatest
        ensures { result.now ≡ counts_in all self.now }
    {
        if all { &self.counts } else { &self.unspared }
    }

    /// Gives away the first blocks of a row.
    pub fn take(&mut self, piece: Piece)
        requires inside { piece.row < length self.old.starts.items }
        requires fits { piece.blocks ≤ leaves_of self.old.counts piece.row }
        requires rows { HasRows self.old }
        ensures takes { (all : Bool) → Takes (free_in all self.old) (free_in all self.new) (slice_index self.old.starts.items piece.row) piece.blocks }
        ensures rows { HasRows self.new }
    {
        let Piece { blocks, row, .. } = piece;
        self.starts[row] = start_behind(self.starts[row], blocks);
        shorten(&mut self.counts, row, blocks);
        shorten(&mut self.unspared, row, blocks);
    }
}

/// The block so many behind another.
fn start_behind(start: u32, blocks: u64) -> u32
    requires { start + blocks < 2 ^ 32 }
    ensures { result ≡ start + blocks }
{
    start + blocks as u32
}

/// Takes so many from a number, or all where there are fewer.
fn shorten(counts: &mut Greatest, row: usize, blocks: u64)
    requires stands { AreGreatest counts.old.nodes.items counts.old.leaves counts.old.depth }
    requires inside { row < counts.old.leaves }
    requires few { blocks < 2 ^ 32 }
    ensures { SetsNumber counts.old counts.new row (leaves_of counts.old row - blocks) }
{
    let left = counts.number(row).saturating_sub(blocks as u32);
    counts.set(row, left);
}

/// A run for all of so many blocks, or for some of them, of rows that begin at these blocks.
fn piece_of(starts: &[u32], counts: &Greatest, blocks: u64, split: bool) -> Option<Piece>
    requires some { 1 ≤ blocks }
    requires rows { AreCounts starts.now counts.now }
    ensures piece { (low : ℕ → Option ℕ) → Finds (InRow starts.now (leaves_of counts.now)) low → piece_of low split blocks ≡ pair_of_piece result }
    ensures least { IfSome result (λ piece. IsLeast (HasRun (InRow starts.now (leaves_of counts.now)) piece.blocks) piece.start) }
    ensures front { IfSome result (λ piece. IsFront starts.now (leaves_of counts.now) piece) }
    ensures few { IfSome result (λ piece. piece.blocks ≤ blocks) }
{
    if let Some(piece) = whole_of(starts, counts, blocks, split) {
        return Some(piece);
    }
    longest_of(starts, counts, (blocks - 1).min(EXTENT_BLOCKS))
}

/// The lowest run of so many blocks, which is an extent where the ask is split.
fn whole_of(starts: &[u32], counts: &Greatest, blocks: u64, split: bool) -> Option<Piece>
    requires some { 1 ≤ blocks }
    requires rows { AreCounts starts.now counts.now }
    ensures whole { (low : ℕ → Option ℕ) → Finds (InRow starts.now (leaves_of counts.now)) low
        → found_or (if split && nat_lt most_extent_blocks blocks then None else low blocks) blocks None ≡ pair_of_piece result }
    ensures least { IfSome result (λ piece. IsLeast (HasRun (InRow starts.now (leaves_of counts.now)) piece.blocks) piece.start) }
    ensures front { IfSome result (λ piece. IsFront starts.now (leaves_of counts.now) piece) }
    ensures blocks { IfSome result (λ piece. piece.blocks ≡ blocks) }
{
    if is_too_long(blocks, split) {
        return None;
    }
    lowest_of(starts, counts, blocks)
}

/// The lowest run of so many blocks.
fn lowest_of(starts: &[u32], counts: &Greatest, blocks: u64) -> Option<Piece>
    requires some { 1 ≤ blocks }
    requires rows { AreCounts starts.now counts.now }
    ensures lowest { MatchOption result (IsNone (HasRun (InRow starts.now (leaves_of counts.now)) blocks))
        (λ piece. IsLeast (HasRun (InRow starts.now (leaves_of counts.now)) blocks) piece.start) }
    ensures front { IfSome result (λ piece. IsFront starts.now (leaves_of counts.now) piece) }
    ensures blocks { IfSome result (λ piece. piece.blocks ≡ blocks) }
    ensures there { MatchOption result ((most_blocks < blocks) ⊎ (slice_index counts.now.nodes.items 1 < blocks)) (λ _. Unit {0}) }
{
    if blocks > MOST_BLOCKS {
        return None;
    }
    let Some(row) = counts.first(blocks as u32) else {
        return None;
    };
    Some(Piece {
        start: starts[row] as u64,
        blocks,
        row,
    })
}

/// The longest run of at most so many blocks, and of those the lowest.
fn longest_of(starts: &[u32], counts: &Greatest, most: u64) -> Option<Piece>
    requires few { most ≤ 2097151 }
    requires rows { AreCounts starts.now counts.now }
    ensures longest { MatchOption result (HasNone (InRow starts.now (leaves_of counts.now)) most)
        (λ piece. IsLongest (InRow starts.now (leaves_of counts.now)) most piece.start piece.blocks) }
    ensures front { IfSome result (λ piece. IsFront starts.now (leaves_of counts.now) piece) }
    ensures few { IfSome result (λ piece. piece.blocks ≤ most) }
{
    let blocks = most.min(counts.greatest() as u64);
    if blocks == 0 {
        return None;
    }
    lowest_of(starts, counts, blocks)
}

/// Whether a run of so many blocks is no extent, as it has to be where the ask is split.
fn is_too_long(blocks: u64, split: bool) -> bool
    ensures { result ≡ (split && nat_lt most_extent_blocks blocks) }
{
    split && blocks > EXTENT_BLOCKS
}
