//! Numbers that come one after the other, and stand in ascending order in the end.

ghost use Rattle.std.specs.Prelude.{◌≡◌, [], IfOk, IsTrue};
ghost use Rattle.xfs_claims.specs.Private.Arrived.{AscendFrom, arrived};

use std::alloc::{AllocError, Global};
use std::collections::BTreeSet;

/// The numbers, each once, in ascending order. Those that come so already are handed on as they are.
pub(crate) fn in_ascending_order(alloc: Global, numbers: Vec<u64>) -> Result<Vec<u64>, AllocError>
    ensures { IfOk result (λ all. all.items ≡ arrived [] numbers.items) }
{
    if ascend(&numbers) {
        return Ok(numbers);
    }
    through_set(alloc, &numbers)
}

/// Whether each number is above the one in front of it.
fn ascend(numbers: &[u64]) -> bool
    ensures { IsTrue result → AscendFrom 0 numbers.now }
{
    let mut least = 0;
    for number in numbers {
        if (*number as u128) < least {
            return false;
        }
        least = *number as u128 + 1;
    }
    true
}

/// The numbers, each once, in ascending order, whatever order they come in.
fn through_set(alloc: Global, numbers: &[u64]) -> Result<Vec<u64>, AllocError>
    ensures { IfOk result (λ all. all.items ≡ arrived [] numbers.now) }
{
    let mut set = BTreeSet::new(alloc);
    for number in numbers {
        set.insert(*number)?;
    }
    all_of(alloc, &set)
}

/// The numbers of a set, ascending.
pub(crate) fn all_of(alloc: Global, set: &BTreeSet<u64>) -> Result<Vec<u64>, AllocError>
    ensures { IfOk result (λ all. all.items ≡ set.now.keys) }
{
    set.iter().copied().collect(alloc)
}
