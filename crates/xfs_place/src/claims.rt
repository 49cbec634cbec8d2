//! Runs of blocks that belong to something, in order.

ghost use Rattle.std.specs.Prelude.{◌≡◌, ◌<◌, ◌++◌, ◌^◌, ℕ, List, length, map, All, IfOk};
ghost use Rattle.std.specs.List.{filter};
ghost use Rattle.std.specs.List.Sorted.{IsNonDecreasingBy, IsPermutation};
ghost use Rattle.xfs_geom.specs.Volumes.{volume_of};
ghost use Rattle.xfs_kinds.specs.MergedRuns.{held_at};
ghost use Rattle.xfs_place.specs.Choice.{claim_count, group_claimed};
ghost use Rattle.xfs_place.specs.Claims.{ClaimedOnce, AreClaims, IsClaimedRun};
ghost use Rattle.xfs_place.specs.Wanted.{AreAllClaims, CanBeKept, begins_in, run_in_group};
ghost use Rattle.xfs_kinds.specs.FixedRuns.{fixed_runs};
ghost use Rattle.xfs_place.specs.declared.uses.Use.{Use};

use crate::uses::{HEADER_OWNER, LOG_OWNER};
use std::alloc::{AllocError, Global};
use xfs_disk::NoMemory;
use xfs_geom::{Geometry, Run};
use xfs_kinds::merge_runs;

/// The runs by their first blocks.
pub fn sort_runs(runs: Vec<Run>) -> Result<Vec<Run>, NoMemory>
    ensures ascend { IfOk result (λ sorted. (top : ℕ) → top < 2 ^ 63 → ClaimedOnce runs.items → All (IsClaimedRun top) runs.items → AreClaims top sorted.items) }
    ensures same { IfOk result (λ sorted. IsPermutation runs.items sorted.items) }
    ensures held { IfOk result (λ sorted. ClaimedOnce runs.items → (block : ℕ) → held_at sorted.items block ≡ held_at runs.items block) }
{
    let mut sorted = runs;
    sorted.sort_by_key(|run| run.start)?;
    Ok(sorted)
}

/// How many records of owners a group has with these claims alone.
pub fn count_records(alloc: Global, claims: &[Run], blocks: u64) -> Result<u64, NoMemory>
    requires claims { AreClaims blocks claims.now }
    requires blocks { blocks < 2 ^ 63 }
    ensures { IfOk result (λ records. (uses : List Use) (inner : ℕ) → length uses ≡ blocks → claim_count (group_claimed uses claims.now inner) ≡ records) }
{
    Ok(merge_runs(alloc, claims)?.len() as u64)
}

/// The claims of a volume in order: the first block of each group, the log and what is kept.
pub fn list_claims(alloc: Global, g: &Geometry, kept: &[Run]) -> Result<Vec<Run>, NoMemory>
    requires { CanBeKept (volume_of g.now) kept.now }
    ensures { IfOk result (λ claims. AreAllClaims (volume_of g.now) kept.now claims.items) }
{
    let mut claims = list_fixed(alloc, g)?;
    claims.extend_from_slice(kept)?;
    Ok(sort_runs(claims)?)
}

/// The runs of the blocks with a fixed use.
fn list_fixed(alloc: Global, g: &Geometry) -> Result<Vec<Run>, NoMemory>
    ensures { IfOk result (λ runs. runs.items ≡ fixed_runs (volume_of g.now)) }
{
    let mut runs = Vec::new(alloc);
    runs.push(Run {
        start: g.log,
        count: g.logblocks as u64,
        owner: LOG_OWNER,
        offset_word: 0,
    })?;
    for ag in 0..g.agcount {
        runs.push(Run {
            start: g.start_of_group(ag),
            count: 1,
            owner: HEADER_OWNER,
            offset_word: 0,
        })?;
    }
    Ok(runs)
}

/// The claims that begin in the group of `blocks` blocks from block `base` on, by their AG blocks, of claims in order.
pub fn list_group(
    alloc: Global,
    claims: &[Run],
    base: u64,
    blocks: u64,
) -> Result<Vec<Run>, NoMemory>
    requires bounds { (base < 2 ^ 60) × (blocks < 2 ^ 60) }
    requires order { IsNonDecreasingBy (λ r. r.start) claims.now }
    ensures { IfOk result (λ group. group.items ≡ map (run_in_group base) (filter (begins_in base blocks) claims.now)) }
{
    let part = claims_in(claims, base, blocks);
    let mut group = Vec::new(alloc);
    for run in part {
        group.push(run_in_group(*run, base))?;
    }
    Ok(group)
}

/// The claims that begin in the `blocks` blocks from block `base` on.
fn claims_in(claims: &[Run], base: u64, blocks: u64) -> &[Run]
    requires bounds { (base < 2 ^ 60) × (blocks < 2 ^ 60) }
    requires order { IsNonDecreasingBy (λ r. r.start) claims.now }
    ensures { result.now ≡ filter (begins_in base blocks) claims.now }
{
    let from = claims.partition_point(|run| run.start < base);
    let behind = &claims[from..];
    let count = behind.partition_point(|run| run.start < base + blocks);
    &behind[..count]
}

/// The run by its AG blocks.
fn run_in_group(run: Run, base: u64) -> Run
    ensures { result ≡ run_in_group base run }
{
    Run {
        start: run.start.saturating_sub(base),
        ..run
    }
}
