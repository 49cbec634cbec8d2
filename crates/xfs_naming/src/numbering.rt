//! The numbers of files, and of some that should be.

ghost use Rattle.std.specs.Prelude.{◌≡◌, ◌<◌, length, slice_index, IfOk, MatchResult};
ghost use Rattle.xfs_naming.specs.Naming.{NumbersAscend, numbers_of};
ghost use Rattle.xfs_disk.specs.Lists.{with_number};
ghost use Rattle.xfs_naming.specs.Ordered.{IsOrdered, IsPlaceFor};

use crate::naming::Names;
use std::alloc::{AllocError, AllocFailed, Global};

/// The numbers of all files.
pub fn numbers_of(alloc: Global, names: &Names) -> Result<Vec<u64>, AllocError>
    requires { IsOrdered names.now }
    ensures numbers { IfOk result (λ numbers. numbers.items ≡ numbers_of names.now.files.now) }
    ensures ascend { IfOk result (λ numbers. NumbersAscend 0 numbers.items) }
{
    let mut numbers = Vec::with_capacity(alloc, names.kinds.len())?;
    for kind in names.kinds {
        numbers.push(kind.ino)?;
    }
    Ok(numbers)
}

/// Where a number stands among ascending ones, or where it has to stand.
fn place_of(numbers: &[u64], number: u64) -> Result<usize, usize>
    requires { NumbersAscend 0 numbers.now }
    ensures { MatchResult result (λ i. (i < length numbers.now) × (slice_index numbers.now i ≡ number)) (IsPlaceFor numbers.now number) }
{
    numbers.binary_search(&number)
}

/// A number at its place among ascending ones.
pub fn with_number(numbers: Vec<u64>, number: u64) -> Result<Vec<u64>, AllocFailed<u64>>
    requires { NumbersAscend 0 numbers.items }
    ensures placed { IfOk result (λ more. more.items ≡ with_number number numbers.items) }
    ensures ascend { IfOk result (λ more. NumbersAscend 0 more.items) }
{
    let mut numbers = numbers;
    match place_of(numbers.as_slice(), number) {
        Ok(_) => Ok(numbers),
        Err(place) => {
            numbers.insert(place, number)?;
            Ok(numbers)
        }
    }
}
