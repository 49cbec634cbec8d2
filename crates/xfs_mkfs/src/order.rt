//! The order in which planned blocks are written.

ghost use Rattle.std.specs.Prelude.{◌≡◌, IfOk};
ghost use Rattle.xfs_render.specs.Plans.{plan_rows};
ghost use Rattle.xfs_mkfs.specs.Order.{AreRowsOfPlan, first_part, last_part};

use std::alloc::Global;
use xfs_disk::NoMemory;
use xfs_render::Plan;
use xfs_writing::Row;

/// The blocks of a plan in ascending order.
pub fn rows_in_order(alloc: Global, plan: &Plan) -> Result<Vec<Row>, NoMemory>
    ensures { IfOk result (λ rows. AreRowsOfPlan plan.now rows.items) }
{
    let mut rows = all_rows(alloc, plan)?;
    rows.sort_by_key(|row| row.at)?;
    Ok(rows)
}

/// All rows but the first: the blocks that are written before block 0.
pub fn first_part(rows: &[Row]) -> &[Row]
    ensures { result.now ≡ first_part rows.now }
{
    &rows[rows.len().min(1)..]
}

/// The first row alone: block 0, which makes the others a volume.
pub fn last_part(rows: &[Row]) -> &[Row]
    ensures { result.now ≡ last_part rows.now }
{
    &rows[..rows.len().min(1)]
}

/// The blocks of a plan in its order.
fn all_rows(alloc: Global, plan: &Plan) -> Result<Vec<Row>, NoMemory>
    ensures { IfOk result (λ rows. rows.items ≡ plan_rows plan.now) }
{
    let mut rows = Vec::from_slice(alloc, plan.fresh.as_slice())?;
    rows.extend_from_slice(plan.in_place.as_slice())?;
    Ok(rows)
}
