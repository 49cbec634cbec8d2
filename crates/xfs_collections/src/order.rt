//! The order in which the blocks of a list are read: ascending by their numbers.

ghost use Rattle.std.specs.Prelude.{◌≡◌, length, IfOk};
ghost use Rattle.xfs_collections.specs.Scattered.{NamesEach};

use std::alloc::Global;
use xfs_disk::NoMemory;

/// The places, each with its index in the list, in ascending order.
pub(crate) fn reading_order(alloc: Global, places: &[u64]) -> Result<Vec<(u64, usize)>, NoMemory>
    ensures each { IfOk result (λ order. NamesEach (length places.now) order.items) }
    ensures count { IfOk result (λ order. length order.items ≡ length places.now) }
{
    let mut order = numbered(alloc, places)?;
    order.sort_unstable();
    Ok(order)
}

/// The places, each with its index in the list, in the order of the list.
fn numbered(alloc: Global, places: &[u64]) -> Result<Vec<(u64, usize)>, NoMemory>
    ensures each { IfOk result (λ pairs. NamesEach (length places.now) pairs.items) }
    ensures count { IfOk result (λ pairs. length pairs.items ≡ length places.now) }
{
    let mut pairs = Vec::with_capacity(alloc, places.len())?;
    for i in 0..places.len() {
        pairs.push((places[i], i))?;
    }
    Ok(pairs)
}
