//! The records of the trees of a group once its blocks have their owners.

ghost use Rattle.std.specs.Prelude.{◌≡◌, ◌≤◌, ◌<◌, ◌+◌, ◌^◌, ◌&&◌, ℕ, nat_lt, true, map, take, drop, length, IfOk, None};
ghost use Rattle.std.specs.List.{filter};
ghost use Rattle.xfs_geom.specs.Sums.{has_free};
ghost use Rattle.xfs_kinds.specs.FreeRuns.{AreSeparate, is_in_spans};
ghost use Rattle.xfs_kinds.specs.MergedRuns.{NoneJoin, held_at};
ghost use Rattle.xfs_place.specs.Claims.{AreClaims, span_of_run};
ghost use Rattle.xfs_place.specs.Placing.{run_of_record};

use std::alloc::Global;
use xfs_disk::NoMemory;
use xfs_geom::{InoRec, RmapRec, Run, Span};
use xfs_kinds::{free_runs, merge_runs};

/// The maximal runs of the AG blocks below `end` that none of the runs has.
pub fn list_free(alloc: Global, owned: &[Run], end: u32) -> Result<Vec<Span>, NoMemory>
    requires { AreClaims end owned.now }
    ensures held { IfOk result (λ free. (block : ℕ) → block < end → held_at owned.now block ≡ None → is_in_spans free.items block ≡ true) }
    ensures taken { IfOk result (λ free. (block : ℕ) → is_in_spans free.items block ≡ true → (block < end) × (held_at owned.now block ≡ None)) }
    ensures separate { IfOk result (λ free. AreSeparate 0 free.items) }
    ensures few { IfOk result (λ free. length free.items ≤ end + 1) }
{
    let used = list_spans(alloc, owned, end)?;
    Ok(free_runs(alloc, &used, end)?)
}

/// The blocks of the runs.
fn list_spans(alloc: Global, owned: &[Run], end: u32) -> Result<Vec<Span>, NoMemory>
    requires { AreClaims end owned.now }
    ensures { IfOk result (λ spans. spans.items ≡ map span_of_run owned.now) }
{
    let mut spans = Vec::new(alloc);
    for run in owned {
        spans.push(Span {
            start: run.start as u32,
            count: run.count as u32,
        })?;
    }
    Ok(spans)
}

/// The records of inodes of which some are free.
pub fn with_free(alloc: Global, inodes: &[InoRec]) -> Result<Vec<InoRec>, NoMemory>
    ensures { IfOk result (λ free. free.items ≡ filter has_free inodes.now) }
{
    let mut free = Vec::new(alloc);
    for chunk in inodes {
        if 0 < chunk.freecount {
            free.push(*chunk)?;
        }
    }
    Ok(free)
}

/// The records of owners: the runs, with those joined that go on where the one before ends.
pub fn list_records(alloc: Global, owned: &[Run], end: u32) -> Result<Vec<RmapRec>, NoMemory>
    requires { AreClaims end owned.now }
    ensures claims { IfOk result (λ records. AreClaims end (map run_of_record records.items)) }
    ensures held { IfOk result (λ records. (block : ℕ) → held_at (map run_of_record records.items) block ≡ held_at owned.now block) }
    ensures apart { IfOk result (λ records. NoneJoin (map run_of_record records.items)) }
    ensures few { IfOk result (λ records. length records.items ≤ end) }
{
    let joined = merge_runs(alloc, owned)?;
    Ok(to_records(alloc, &joined, end)?)
}

/// The runs of AG blocks as records.
fn to_records(alloc: Global, runs: &[Run], end: u32) -> Result<Vec<RmapRec>, NoMemory>
    requires { AreClaims end runs.now }
    ensures { IfOk result (λ records. map run_of_record records.items ≡ runs.now) }
{
    let mut records = Vec::new(alloc);
    for run in runs {
        records.push(RmapRec {
            start: run.start as u32,
            count: run.count as u32,
            owner: run.owner,
            offset_word: run.offset_word,
        })?;
    }
    Ok(records)
}

/// The numbers of `count` of the AG blocks from place `from` on, in a group from block `base` on.
pub fn take_blocks(
    alloc: Global,
    blocks: &[u32],
    from: usize,
    count: usize,
    base: u64,
) -> Result<Vec<u64>, NoMemory>
    requires { base < 2 ^ 40 }
    ensures { IfOk result (λ places. places.items ≡ map (λ block. base + block) (take count (drop from blocks.now))) }
{
    let part = part_of(blocks, from, count);
    let mut places = Vec::new(alloc);
    for block in part {
        places.push(base + *block as u64)?;
    }
    Ok(places)
}

/// The `count` numbers from place `from` on, or as many as there are.
fn part_of(numbers: &[u32], from: usize, count: usize) -> &[u32]
    ensures { result.now ≡ take count (drop from numbers.now) }
{
    let first = from.min(numbers.len());
    let behind = &numbers[first..];
    let most = count.min(behind.len());
    &behind[..most]
}
