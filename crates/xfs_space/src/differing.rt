//! Two maps of owners, compared by one sweep.

ghost use Rattle.std.specs.Prelude.{◌≡◌, ℕ, ◌+◌, ◌<◌, ◌≤◌, ◌^◌, ◌==◌, ◌&&◌, if◌then◌else◌, nat_le, List, map, max, min, MatchOption};
ghost use Rattle.xfs_kinds.specs.MergedRuns.{offset_word_at};
ghost use Rattle.xfs_space.specs.SpaceLaws.{recorded_run};
ghost use Rattle.xfs_space.specs.Maps.{AreAlike, AreMapped, IsFirstDifference, IsMapped};

use crate::holding::{offset_word_at, recorded_run};
use xfs_geom::{RmapRec, Run};

/// The first block to which the records of the group that begins at block `base` and the runs give different
/// owners or offset words. Nothing here takes memory.
pub fn first_difference(base: u64, records: &[RmapRec], runs: &[Run]) -> Option<u64>
    requires base { base < 2 ^ 26 }
    requires recorded { AreMapped (map (recorded_run base) records.now) }
    requires owned { AreMapped runs.now }
    ensures { MatchOption result (AreAlike (map (recorded_run base) records.now) runs.now) (IsFirstDifference (map (recorded_run base) records.now) runs.now) }
{
    let mut at = 0;
    let mut i = 0;
    let mut j = 0;
    while i < records.len() && j < runs.len() {
        let x = recorded_run(base, &records[i]);
        let y = runs[j];
        let held = later(x.start, at);
        let due = later(y.start, at);
        if held != due {
            return Some(earlier(held, due));
        }
        if !agree(&x, &y, held) {
            return Some(held);
        }
        at = earlier(x.start + x.count, y.start + y.count);
        i = passed(&x, at, i);
        j = passed(&y, at, j);
    }
    if i < records.len() {
        return Some(later(base + records[i].start as u64, at));
    }
    if j < runs.len() {
        return Some(later(runs[j].start, at));
    }
    None
}

/// Whether two runs give a block that both have the same owner and offset word.
fn agree(x: &Run, y: &Run, block: u64) -> bool
    requires x { IsMapped x.now }
    requires y { IsMapped y.now }
    requires on_x { block < x.now.start + x.now.count }
    requires on_y { block < y.now.start + y.now.count }
    ensures { result ≡ (x.now.owner == y.now.owner && offset_word_at x.now block == offset_word_at y.now block) }
{
    x.owner == y.owner && offset_word_at(x, block) == offset_word_at(y, block)
}

/// The place behind a run that ends by a block, or its own.
fn passed(run: &Run, block: u64, place: usize) -> usize
    requires run { IsMapped run.now }
    requires place { place < 2 ^ 63 }
    ensures { result ≡ (if nat_le (run.now.start + run.now.count) block then place + 1 else place) }
{
    if run.start + run.count <= block {
        place + 1
    } else {
        place
    }
}

/// The greater of two numbers.
fn later(a: u64, b: u64) -> u64
    ensures { result ≡ max a b }
{
    if a < b { b } else { a }
}

/// The lesser of two numbers.
fn earlier(a: u64, b: u64) -> u64
    ensures { result ≡ min a b }
{
    if a < b { a } else { b }
}
