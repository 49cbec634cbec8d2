//! Lists of pairs that are the same but for their order.

ghost use Rattle.std.specs.Prelude.{◌≡◌, IfOk, IsPermutation};
ghost use Rattle.xfs_dirindex.specs.Pairs.{same_pairs};
ghost use Rattle.xfs_dirindex.specs.Sorted.{PairsRanked};

use crate::pairs::Pair;
use std::alloc::{AllocError, Global};

/// Whether two lists have the same pairs, each as often.
pub fn same_pairs(alloc: Global, xs: &[Pair], ys: &[Pair]) -> Result<bool, AllocError>
    ensures { IfOk result (λ same. same ≡ same_pairs xs.now ys.now) }
{
    let a = sorted(alloc, xs)?;
    let b = sorted(alloc, ys)?;
    Ok(a == b)
}

/// These pairs, in order.
fn sorted(alloc: Global, pairs: &[Pair]) -> Result<Vec<Pair>, AllocError>
    ensures moved { IfOk result (λ sorted. IsPermutation pairs.now sorted.items) }
    ensures ranked { IfOk result (λ sorted. PairsRanked sorted.items) }
{
    let mut sorted = Vec::from_slice(alloc, pairs)?;
    sorted.sort()?;
    Ok(sorted)
}
