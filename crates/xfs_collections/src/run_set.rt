//! Sets of blocks, as runs in an ordered map from the first block of each to its number of blocks.

ghost use Rattle.std.specs.Prelude.{◌≡◌, ℕ, false, ◌+◌, ◌^◌, ◌<◌, ◌≤◌, ◌||◌, nat_lt, [], OnOk, OnErr};
ghost use Rattle.xfs_disk.specs.Lists.{is_in_range};
ghost use Rattle.xfs_collections.specs.Blocks.{is_in, meets, placed, RunsAscend};

use crate::counting::Steps;
use std::alloc::Global;
use std::collections::BTreeMap;
use std::marker::Model;
use std::ops::Bound;
use std::sync::ledger::Ledger;
use xfs_disk::NoMemory;

/// A set of blocks: runs that ascend, of which no two have a block in common. A run is the number of its first
/// block with its number of blocks.
#[derive(Drop)]
pub struct RunSet {
    runs: BTreeMap<u64, u64>,
}

impl Model for RunSet {
    ghost use Rattle.std.specs.Prelude.{ℕ, List};
    ghost use Rattle.xfs_collections.specs.Blocks.{RunsAscend};

    ghost Value = { List (ℕ × ℕ) };

    ghost view = { λ s. s.runs.entries };

    ghost invariant = { λ s. RunsAscend 0 s.runs.entries };
}

/// Whether the run of `count` blocks from `first` on ends behind a block.
fn ends_behind(first: u64, count: u64, block: u64) -> bool
    ensures { result ≡ nat_lt block (first + count) }
{
    block < first || block - first < count
}

impl RunSet {
    /// The empty set. Takes no memory.
    pub fn make(alloc: Global) -> RunSet
        ensures { result ≡ [] }
    {
        RunSet {
            runs: BTreeMap::new(alloc),
        }
    }

    /// Whether one of the `count` blocks from `start` on is in the set. Counts one step, and takes no memory.
    pub fn meets<L: Ledger>(&self, start: u64, count: u64, steps: &mut Steps<L>) -> bool
        requires some { 1 ≤ count }
        requires end { start + count < 2 ^ 63 }
        ensures met { result ≡ meets (is_in self.now) start count }
        ensures ascending { RunsAscend 0 self.now }
        ensures ticks { steps.new ≡ steps.old + 1 }
    {
        steps.tick();
        let before_end = (Bound::Unbounded, Bound::Excluded(start + count));
        match self.runs.range(before_end).next_back() {
            Some((first, length)) => ends_behind(*first, *length, start),
            None => false,
        }
    }

    /// Puts the run of `count` blocks from `start` on at its place among the others. None is joined with another.
    /// Counts one step. Where memory lacks the set is as it was.
    pub fn add<L: Ledger>(
        &mut self,
        start: u64,
        count: u64,
        steps: &mut Steps<L>,
    ) -> Result<(), NoMemory>
        requires some { 1 ≤ count }
        requires end { start + count < 2 ^ 63 }
        requires apart { meets (is_in self.old) start count ≡ false }
        ensures placed { OnOk result (self.new ≡ placed (start, count) self.old) }
        ensures blocks { OnOk result ((b : ℕ) → is_in self.new b ≡ (is_in_range start count b || is_in self.old b)) }
        ensures same { OnErr result (self.new ≡ self.old) }
        ensures ticks { steps.new ≡ steps.old + 1 }
    {
        steps.tick();
        self.runs.insert(start, count)?;
        Ok(())
    }
}
