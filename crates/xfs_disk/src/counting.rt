//! How failures, and what went well, are counted.

ghost use Rattle.std.specs.Prelude.{◌≡◌, ◌+◌, ◌≤◌, OnOk};
ghost use Rattle.std.specs.Result.{result_ok};
ghost use Rattle.xfs_disk.specs.Counts.{CountsDone, CountsFailure, raised_times};
ghost use Rattle.xfs_disk.specs.Faults.{Rose};

use crate::failed::Failed;
use std::io;

/// A failure, which is counted.
pub fn count_failure(faults: &mut u64) -> Failed
    ensures risen { Rose faults.old faults.new }
    ensures once { faults.new ≤ faults.old + 1 }
{
    *faults = faults.saturating_add(1);
    Failed
}

/// The outcome of a call of the system, whose failure is counted.
pub fn counted<T: Drop>(outcome: io::Result<T>, faults: &mut u64) -> Result<T, Failed>
    ensures ok { result_ok result ≡ result_ok outcome }
    ensures faults { CountsFailure faults.old faults.new result }
{
    match outcome {
        Ok(value) => Ok(value),
        Err(_) => Err(count_failure(faults)),
    }
}

/// Counts a call where it went well.
pub fn count_done<T>(outcome: &Result<T, Failed>, done: &mut u64)
    ensures { CountsDone done.old done.new outcome.now }
{
    if outcome.is_ok() {
        *done = done.saturating_add(1);
    }
}

/// Counts the blocks of a call where it went well.
pub fn count_all_done<T>(outcome: &Result<T, Failed>, blocks: u64, done: &mut u64)
    ensures all { OnOk outcome.now (done.new ≡ raised_times blocks done.old) }
    ensures most { done.new ≤ done.old + blocks }
{
    if outcome.is_ok() {
        *done = done.saturating_add(blocks);
    }
}
