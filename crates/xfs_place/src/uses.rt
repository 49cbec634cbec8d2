//! What each block of a volume is for, in one list: a byte a block.

ghost use Rattle.std.specs.Prelude.{◌≡◌, ◌+◌, ◌%◌, ◌^◌, ◌==◌, ◌≤◌, ◌<◌, ℕ, length, All, IfOk};
ghost use Rattle.xfs_disk.specs.Lists.{is_in_range};
ghost use Rattle.xfs_geom.specs.Volumes.{volume_of};
ghost use Rattle.xfs_geom.specs.Conversions.{is_fixed};
ghost use Rattle.xfs_place.specs.Pool.{IsRunOf, MarksUses, PutsUses, Shows, is_listed, is_open, use_at, use_held, use_of, use_of_run};

use std::alloc::Global;
use xfs_disk::NoMemory;
use xfs_geom::{Geometry, Run};

/// The owner of the header block of a group.
pub const HEADER_OWNER: u64 = u64::MAX - 2;

/// The owner of the blocks of the log.
pub const LOG_OWNER: u64 = u64::MAX - 3;

/// The owner of the blocks of the trees of free space and of owners, and of the free list.
pub const SPACE_OWNER: u64 = u64::MAX - 4;

/// The owner of the blocks of the inode trees.
pub const INODE_TREE_OWNER: u64 = u64::MAX - 5;

/// The lowest flag of an offset word.
const FIRST_FLAG: u64 = 1 << 61;

/// What a block is for.
#[derive(Clone, Copy)]
pub enum Use {
    /// It may be given to something new.
    Pool,
    /// Nothing new may stand on it, and it becomes free.
    Reserved,
    /// It has a fixed use, or something stands on it.
    Claimed,
    /// It is claimed with the owner of the trees of free space and of owners, as a new block of them would be.
    ForSpace,
    /// It is claimed with the owner of the inode trees, as a new block of them would be.
    ForInodes,
}

/// The use of each block of the volume: claimed where it has a fixed use or is one of the runs, else
/// reserved where it is listed, else of the pool.
///
/// `NoMemory` where memory is wanting.
pub fn list_uses(
    alloc: Global,
    g: &Geometry,
    runs: &[Run],
    reserved: &[u64],
) -> Result<Vec<Use>, NoMemory>
    requires { All (IsRunOf g.now.dblocks) runs.now }
    ensures { IfOk result (λ uses. Shows uses.items g.now.dblocks (use_of (volume_of g.now) runs.now reserved.now)) }
{
    Ok(list_uses_in(alloc, g, runs, reserved, 0, g.dblocks)?)
}

/// The uses of the `count` blocks from block `from` on, as `list_uses` has them.
///
/// `NoMemory` where memory is wanting.
pub fn list_uses_in(
    alloc: Global,
    g: &Geometry,
    runs: &[Run],
    reserved: &[u64],
    from: u64,
    count: u64,
) -> Result<Vec<Use>, NoMemory>
    requires runs { All (IsRunOf g.now.dblocks) runs.now }
    requires inside { from + count ≤ g.now.dblocks }
    ensures { IfOk result (λ uses. Shows uses.items count (λ b. use_of (volume_of g.now) runs.now reserved.now (from + b))) }
{
    let mut uses = vec![in alloc; Use::Pool; count as usize]?;
    set_uses(&mut uses, g, runs, reserved, from);
    Ok(uses)
}

/// Sets the use of each block, of blocks from block `from` on that are all of the pool.
fn set_uses(uses: &mut [Use], g: &Geometry, runs: &[Run], reserved: &[u64], from: u64)
    requires runs { All (IsRunOf g.now.dblocks) runs.now }
    requires inside { from + length uses.old ≤ g.now.dblocks }
    requires all { (b : ℕ) → b < length uses.old → use_at uses.old b ≡ Use.Pool }
    ensures { Shows uses.new (length uses.old) (λ b. use_of (volume_of g.now) runs.now reserved.now (from + b)) }
{
    reserve(uses, reserved, from);
    claim_fixed(uses, g, from);
    claim_runs(uses, runs, from);
}

/// Gives the `count` blocks from `start` on a use.
pub fn mark(uses: &mut [Use], start: u64, count: u64, now: Use)
    requires { start + count ≤ length uses.old }
    ensures { MarksUses uses.old uses.new (is_in_range start count) now }
{
    for block in start..start + count {
        uses[block as usize] = now;
    }
}

/// Gives the `count` blocks from block `start` on a use, of a list of those from block `from` on.
fn mark_in(uses: &mut [Use], from: u64, start: u64, count: u64, now: Use)
    requires { start + count < 2 ^ 63 }
    ensures { MarksUses uses.old uses.new (λ b. is_in_range start count (from + b)) now }
{
    let all = uses.len() as u64;
    let first = start.saturating_sub(from).min(all);
    let end = (start + count).saturating_sub(from).min(all);
    mark(uses, first, end - first, now);
}

/// Reserves the listed blocks, of a list of those from block `from` on.
fn reserve(uses: &mut [Use], reserved: &[u64], from: u64)
    ensures { MarksUses uses.old uses.new (λ b. is_listed reserved.now (from + b)) Use.Reserved }
{
    for block in reserved {
        if is_in_range(from, uses.len() as u64, *block) {
            uses[(*block - from) as usize] = Use::Reserved;
        }
    }
}

/// Whether a block is one of the `count` blocks from block `from` on.
fn is_in_range(from: u64, count: u64, block: u64) -> bool
    ensures { result ≡ is_in_range from count block }
{
    from <= block && block - from < count
}

/// Claims the blocks of the runs, of a list of those from block `from` on. A block of several runs goes by the first of them.
fn claim_runs(uses: &mut [Use], runs: &[Run], from: u64)
    requires { All (λ run. run.start + run.count < 2 ^ 63) runs.now }
    ensures { PutsUses uses.old uses.new (λ b. use_held runs.now (from + b)) }
{
    for i in 0..runs.len() {
        let run = &runs[runs.len() - 1 - i];
        mark_in(uses, from, run.start, run.count, use_of_run(run));
    }
}

/// What the blocks of a run are for.
fn use_of_run(run: &Run) -> Use
    ensures { result ≡ use_of_run run.now }
{
    if run.offset_word >= FIRST_FLAG {
        return Use::Claimed;
    }
    match run.owner {
        SPACE_OWNER => Use::ForSpace,
        INODE_TREE_OWNER => Use::ForInodes,
        _ => Use::Claimed,
    }
}

/// Claims the blocks that have a fixed use: the first of each group, and the log. The list is of the blocks from block `from` on.
fn claim_fixed(uses: &mut [Use], g: &Geometry, from: u64)
    requires { from + length uses.old ≤ g.now.dblocks }
    ensures { MarksUses uses.old uses.new (λ b. is_fixed (volume_of g.now) (from + b)) Use.Claimed }
{
    claim_headers(uses, g, from);
    mark_in(uses, from, g.log, g.logblocks as u64, Use::Claimed);
}

/// Claims the first block of each group, of a list of the blocks from block `from` on.
fn claim_headers(uses: &mut [Use], g: &Geometry, from: u64)
    requires { from + length uses.old ≤ g.now.dblocks }
    ensures { MarksUses uses.old uses.new (λ b. (from + b) % g.now.agblocks == 0) Use.Claimed }
{
    for ag in 0..g.agcount {
        mark_in(uses, from, g.start_of_group(ag), 1, Use::Claimed);
    }
}

/// Whether a block of this use may be given to something new.
pub fn is_open(now: Use) -> bool
    ensures { result ≡ is_open now }
{
    match now {
        Use::Pool => true,
        Use::Reserved => false,
        Use::Claimed | Use::ForSpace | Use::ForInodes => false,
    }
}
