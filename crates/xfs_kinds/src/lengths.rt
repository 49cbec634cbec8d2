//! Free runs by length (chapter "AG Free Space Management").

ghost use Rattle.std.specs.Prelude.{◌≡◌, IfOk, IsPermutation};
ghost use Rattle.std.specs.List.Sorted.{IsSortedBy};
ghost use Rattle.xfs_kinds.specs.Lengths.{by_length, sorts_before};

use std::alloc::Global;
use xfs_disk::NoMemory;
use xfs_geom::Span;

/// The runs by length, and among equal lengths by start.
pub fn by_length(alloc: Global, runs: &[Span]) -> Result<Vec<Span>, NoMemory>
    ensures value { IfOk result (λ sorted. sorted.items ≡ by_length runs.now) }
    ensures moved { IfOk result (λ sorted. IsPermutation runs.now sorted.items) }
    ensures sorted { IfOk result (λ sorted. IsSortedBy sorts_before sorted.items) }
{
    let mut sorted = Vec::from_slice(alloc, runs)?;
    sorted.sort_by_key(|run| (run.count, run.start))?;
    Ok(sorted)
}
