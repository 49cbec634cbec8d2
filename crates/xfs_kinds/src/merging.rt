//! Runs of blocks with their owners, joined where they follow each other (chapter "Reverse-Mapping
//! B+tree").

ghost use Rattle.std.specs.Prelude.{◌≡◌, ℕ, ◌+◌, ◌<◌, ◌^◌, ◌∷◌, IfOk};
ghost use Rattle.xfs_kinds.specs.MergedRuns.{AreRuns, NoneJoin, OffsetsAreOfData, held_at, joins, longer, merged, offsets_follow};

use crate::offset_words::{flags_of, is_file_data, offset_in_fork};
use std::alloc::Global;
use xfs_disk::NoMemory;
use xfs_geom::Run;

/// The runs, with neighbours joined where the blocks follow, the owners and the flags are equal and, for data
/// of a file or of its attributes, the offsets follow. The runs ascend, no two have a block in common, and
/// they end below 2^63.
///
/// `NoMemory` where memory is wanting.
#[tactic(auto, unfolding(crate::specs::MergedRuns::merged))]
pub fn merge_runs(alloc: Global, runs: &[Run]) -> Result<Vec<Run>, NoMemory>
    requires { AreRuns 0 runs.now }
    ensures joined { IfOk result (λ joined. joined.items ≡ merged runs.now) }
    ensures apart { IfOk result (λ joined. NoneJoin joined.items) }
    ensures held { OffsetsAreOfData runs.now → IfOk result (λ joined. (block : ℕ) → held_at joined.items block ≡ held_at runs.now block) }
{
    match runs.split_first() {
        Some((first, rest)) => merge_behind(alloc, first, rest),
        None => Ok(Vec::new(alloc)),
    }
}

/// The same for a run and those behind it.
fn merge_behind(alloc: Global, first: &Run, rest: &[Run]) -> Result<Vec<Run>, NoMemory>
    requires { AreRuns 0 (first.now ∷ rest.now) }
    ensures joined { IfOk result (λ joined. joined.items ≡ merged (first.now ∷ rest.now)) }
    ensures apart { IfOk result (λ joined. NoneJoin joined.items) }
    ensures held { OffsetsAreOfData (first.now ∷ rest.now)
        → IfOk result (λ joined. (block : ℕ) → held_at joined.items block ≡ held_at (first.now ∷ rest.now) block) }
{
    let mut joined = Vec::new(alloc);
    let mut last = *first;
    for run in rest {
        if joins(&last, run) {
            last = longer(&last, run.count);
        } else {
            joined.push(last)?;
            last = *run;
        }
    }
    joined.push(last)?;
    Ok(joined)
}

/// Whether a run goes on where another ends, for the same owner and with the same flags.
fn joins(run: &Run, next: &Run) -> bool
    requires { run.now.start + run.now.count < 2 ^ 63 }
    ensures { result ≡ joins run.now next.now }
{
    run.start + run.count == next.start
        && run.owner == next.owner
        && flags_of(run.offset_word) == flags_of(next.offset_word)
        && offsets_follow(run, next)
}

/// Whether the offset of one run follows that of another, or they say nothing.
fn offsets_follow(run: &Run, next: &Run) -> bool
    requires { run.now.start + run.now.count < 2 ^ 63 }
    ensures { result ≡ offsets_follow run.now next.now }
{
    !is_file_data(run.owner, run.offset_word)
        || offset_in_fork(run.offset_word) + run.count == offset_in_fork(next.offset_word)
}

/// The run with so many more blocks.
fn longer(run: &Run, count: u64) -> Run
    requires { run.now.count + count < 2 ^ 63 }
    ensures { result ≡ longer run.now count }
{
    Run {
        count: run.count + count,
        ..*run
    }
}
