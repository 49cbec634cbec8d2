//! What the volume has once its names are settled.

ghost use Rattle.std.specs.Prelude.{◌≡◌, ◌≤◌, nat_lt, length, map, IfOk, OnOk};
ghost use Rattle.std.specs.List.{filter, prefix_len};
ghost use Rattle.xfs_disk.specs.Lists.{is_among};
ghost use Rattle.xfs_naming.specs.Naming.{NumbersAscend};
ghost use Rattle.xfs_rename.specs.Settled.{fresh_with, is_old, staying_file, staying_files, with_number_in_order, with_numbers};

use xfs_changes::Lost;
use xfs_disk::NoMemory;
use xfs_salvage::is_among;
use xfs_volume::{Extents, FileRec};

/// The files that were there before, without the blocks of directories that are built anew.
#[tactic(auto, unfolding(crate::specs::Settled::staying_files))]
pub(crate) fn staying_files(rebuilt: &[u64], fresh: &[u64], files: Vec<FileRec>) -> Vec<FileRec>
    requires rebuilt { NumbersAscend 0 rebuilt.now }
    ensures { result.items ≡ staying_files rebuilt.now fresh.now files.items }
{
    leave_all(rebuilt, old_files(fresh, files))
}

/// The files that were there before. Mostly none is made anew, and they are not gone through.
fn old_files(fresh: &[u64], files: Vec<FileRec>) -> Vec<FileRec>
    ensures { result.items ≡ filter (is_old fresh.now) files.items }
{
    if fresh.is_empty() {
        return files;
    }
    let mut files = files;
    files.retain(|file| !is_one_of(fresh, file.ino));
    files
}

/// Has each of these directories among files give its blocks up.
fn leave_all(rebuilt: &[u64], files: Vec<FileRec>) -> Vec<FileRec>
    requires rebuilt { NumbersAscend 0 rebuilt.now }
    ensures { result.items ≡ map (staying_file rebuilt.now) files.items }
{
    let mut files = files;
    leave_each(rebuilt, files.as_mut_slice());
    files
}

/// The same in place.
fn leave_each(rebuilt: &[u64], files: &mut [FileRec])
    requires rebuilt { NumbersAscend 0 rebuilt.now }
    ensures { files.new ≡ map (staying_file rebuilt.now) files.old }
{
    for file in files.iter_mut() {
        leave_data(rebuilt, file);
    }
}

/// Has a file give its blocks up, but for those of its attributes, where it is a directory that is built anew.
fn leave_data(rebuilt: &[u64], file: &mut FileRec)
    requires rebuilt { NumbersAscend 0 rebuilt.now }
    ensures { file.new ≡ staying_file rebuilt.now file.old }
{
    if is_among(rebuilt, file.ino) {
        file.extents = Extents::new();
        file.rest.clear_tree();
    }
}

/// Whether a number is one of some.
pub(crate) fn is_one_of(numbers: &[u64], number: u64) -> bool
    ensures { result ≡ is_among numbers.now number }
{
    for other in numbers {
        if *other == number {
            return true;
        }
    }
    false
}

/// The inodes that are made anew, with lost+found where it is.
pub(crate) fn fresh_with(lost: &Lost, fresh: Vec<u64>) -> Result<Vec<u64>, NoMemory>
    ensures { IfOk result (λ all. all.items ≡ fresh_with lost.now fresh.items) }
{
    let mut fresh = fresh;
    if lost.made {
        fresh.push(lost.new)?;
    }
    Ok(fresh)
}

/// Ascending numbers with some more, each at its place.
pub(crate) fn with_numbers(more: &[u64], numbers: Vec<u64>) -> Result<Vec<u64>, NoMemory>
    ensures { IfOk result (λ all. all.items ≡ with_numbers more.now numbers.items) }
{
    let mut numbers = numbers;
    for number in more {
        add_number(*number, &mut numbers)?;
    }
    Ok(numbers)
}

/// Adds a number in front of the first that is not lower.
fn add_number(number: u64, numbers: &mut Vec<u64>) -> Result<(), NoMemory>
    ensures { OnOk result (numbers.new.items ≡ with_number_in_order number numbers.old.items) }
{
    let place = place_of(numbers.as_slice(), number);
    numbers.insert(place, number)?;
    Ok(())
}

/// How many numbers stand in front of the first that is not lower.
fn place_of(numbers: &[u64], number: u64) -> usize
    ensures place { result ≡ prefix_len (λ x. nat_lt x number) numbers.now }
    ensures within { result ≤ length numbers.now }
{
    for (index, other) in numbers.iter().enumerate() {
        if *other >= number {
            return index;
        }
    }
    numbers.len()
}
