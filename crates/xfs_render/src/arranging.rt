//! Blocks that were put down, in the order in which they are to be written.

ghost use Rattle.std.specs.Prelude.{◌≤◌, length, IfOk};
ghost use Rattle.std.specs.List.Sorted.{IsNonDecreasingBy, IsPermutation};
ghost use Rattle.xfs_render.specs.Drafts.{IsDraft};
ghost use Rattle.xfs_render.specs.Plans.{IsArranged};
ghost use Rattle.xfs_writing.specs.declared.rows.Row.{Row};

use crate::draft::Draft;
use crate::plan::Plan;
use std::alloc::Global;
use xfs_disk::NoMemory;
use xfs_volume::Records;
use xfs_writing::Row;

/// The blocks of a draft: the first so many, which nothing kept stands on, by their places, and the others by theirs.
pub fn arrange(alloc: Global, draft: Draft, first: usize) -> Result<Plan, NoMemory>
    requires draft { IsDraft draft }
    requires inside { first ≤ length draft.rows.items }
    ensures { IfOk result (λ plan. IsArranged draft first plan) }
{
    let Draft { rows, bank } = draft;
    let fresh = sort_rows(alloc, &rows[..first])?;
    let in_place = sort_rows(alloc, &rows[first..])?;
    Ok(Plan {
        fresh: Records::from_vec(fresh),
        in_place: Records::from_vec(in_place),
        bank,
    })
}

/// Rows in the order of their places.
fn sort_rows(alloc: Global, rows: &[Row]) -> Result<Vec<Row>, NoMemory>
    ensures same { IfOk result (λ sorted. IsPermutation rows.now sorted.items) }
    ensures ascend { IfOk result (λ sorted. IsNonDecreasingBy (λ (r : Row). r.at) sorted.items) }
{
    let mut sorted = Vec::from_slice(alloc, rows)?;
    sorted.sort_by_key(|row| row.at)?;
    Ok(sorted)
}
