//! The uses of the blocks of a volume, some groups at a time: a byte for each block of a large volume would be too many.

ghost use Rattle.std.specs.Prelude.{◌≡◌, ◌≤◌, ◌<◌, ◌+◌, ◌*◌, ◌^◌, ◌&&◌, ℕ, List, length, nat_le, All, OnOk};
ghost use Rattle.xfs_geom.specs.Conversions.{group_length};
ghost use Rattle.xfs_geom.specs.Volumes.{Volume, volume_of};
ghost use Rattle.xfs_geom.specs.declared.records.Run.{Run};
ghost use Rattle.xfs_place.specs.Pool.{IsRunOf};
ghost use Rattle.xfs_place.specs.Wanted.{uses_in};
ghost use Rattle.xfs_place.specs.Windows.{HasBlocks, IsWindow};

use crate::uses::{Use, list_uses_in};
use std::alloc::Global;
use xfs_disk::NoMemory;
use xfs_geom::{Geometry, Run};

/// How many blocks are listed at a time, where a group has no more.
const WINDOW_BLOCKS: u64 = 1 << 22;

/// The uses of some blocks of a volume, one behind another.
#[derive(Drop)]
pub struct Window {
    /// The first block.
    pub from: u64,
    pub uses: Vec<Use>,
}

impl Window {
    /// No block.
    pub fn new(alloc: Global) -> Window
        ensures { (v : Volume) (runs : List Run) (reserved : List ℕ) → IsWindow v runs reserved result }
    {
        Window {
            from: 0,
            uses: Vec::new(alloc),
        }
    }

    /// Lists the groups from one on, as many as are listed at a time, where that one is not listed. What was listed is given up before.
    pub fn reach(
        &mut self,
        alloc: Global,
        g: &Geometry,
        runs: &[Run],
        reserved: &[u64],
        ag: u32,
    ) -> Result<(), NoMemory>
        requires group { ag < g.now.agcount }
        requires runs { All (IsRunOf g.now.dblocks) runs.now }
        requires stands { IsWindow (volume_of g.now) runs.now reserved.now self.old }
        ensures stands { OnOk result (IsWindow (volume_of g.now) runs.now reserved.now self.new) }
        ensures there { OnOk result (HasBlocks self.new (ag * g.now.agblocks) (group_length (volume_of g.now) ag)) }
    {
        let base = g.start_of_group(ag);
        let blocks = g.group_length(ag) as u64;
        if self.has(base, blocks) {
            return Ok(());
        }
        self.uses = Vec::new(alloc);
        let count = window_blocks(g, base, blocks);
        let uses = list_uses_in(alloc, g, runs, reserved, base, count)?;
        self.from = base;
        self.uses = uses;
        Ok(())
    }

    /// Whether the `count` blocks from block `start` on are listed.
    fn has(&self, start: u64, count: u64) -> bool
        requires { start + count < 2 ^ 63 }
        ensures { result ≡ (nat_le self.now.from start && nat_le (start + count) (self.now.from + length self.now.uses.items)) }
    {
        self.from <= start && start - self.from + count <= self.uses.len() as u64
    }

    /// The uses of the blocks of a group.
    pub fn group(&self, g: &Geometry, ag: u32) -> &[Use]
        requires group { ag < g.now.agcount }
        requires there { HasBlocks self.now (ag * g.now.agblocks) (group_length (volume_of g.now) ag) }
        ensures { (runs : List Run) (reserved : List ℕ) → IsWindow (volume_of g.now) runs reserved self.now → result.now ≡ uses_in (volume_of g.now) runs reserved ag }
    {
        let first = g.start_of_group(ag) - self.from;
        let blocks = g.group_length(ag) as u64;
        &self.uses[first as usize..(first + blocks) as usize]
    }
}

/// How many blocks are listed at a time, from the group of `blocks` blocks from block `base` on.
fn window_blocks(g: &Geometry, base: u64, blocks: u64) -> u64
    requires { base + blocks ≤ g.now.dblocks }
    ensures some { blocks ≤ result }
    ensures inside { base + result ≤ g.now.dblocks }
{
    let width = g.agblocks as u64;
    let whole = WINDOW_BLOCKS / width * width;
    whole.min(g.dblocks - base).max(blocks)
}
