//! The places of log sequence numbers in the blocks of a fork.

ghost use Rattle.std.specs.Prelude.{◌≡◌, ◌+◌, ◌^◌, ◌≤◌, ◌<◌, ◌++◌, true, length, OnOk, SomeIff};
ghost use Rattle.std.specs.List.{All};
ghost use Rattle.xfs_geom.specs.Groups.{block_of_address};
ghost use Rattle.xfs_geom.specs.Volumes.{volume_of};
ghost use Rattle.xfs_image.specs.Lsns.{at, dir_byte, extent_places};
ghost use Rattle.xfs_tree.specs.Blocks.{each_of};
ghost use Rattle.xfs_journal.specs.Placed.{IsInBlock, byte_of, fork_places, listed};

use crate::places::{LsnPosition, push};
use xfs_disk::NoMemory;
use xfs_geom::Geometry;
use xfs_word::Extent;

/// Where the data and the free blocks of a directory have their numbers, in bytes, and where all other blocks of its
/// index and of attributes do.
const DATA_LSN: u16 = 16;

const INDEX_LSN: u16 = 24;

/// Where a block of a symbolic link has its number, in bytes.
const LINK_LSN: u16 = 48;

/// The blocks of a directory's index, by their numbers in the file: from the first on, before the end.
const INDEX_START: u64 = 0x80_0000;

const INDEX_END: u64 = 0x100_0000;

/// What the blocks of a fork belong to.
#[derive(Clone, Copy)]
pub enum Owner {
    Directory,
    Link,
    Attributes,
}

/// Adds the places of the blocks of a fork. No number of a block is so great that eight bytes do not hold it.
pub fn push_fork(
    g: &Geometry,
    owner: Owner,
    extents: &[Extent],
    places: &mut Vec<LsnPosition>,
) -> Result<(), NoMemory>
    requires inside { All IsInBlock places.old.items }
    ensures listed { OnOk result (listed places.new.items ≡ listed places.old.items ++ fork_places (volume_of g.now) owner extents.now) }
    ensures inside { All IsInBlock places.new.items }
{
    for extent in extents {
        push_extent(g, owner, extent, places)?;
    }
    Ok(())
}

/// Adds the places of the blocks of an extent. A disk that does not tell what it holds, as a file, says nothing of what was read
/// from it. So both sums are tested here, though each extent of a file that reads has them (`extents_have_sums`).
fn push_extent(
    g: &Geometry,
    owner: Owner,
    extent: &Extent,
    places: &mut Vec<LsnPosition>,
) -> Result<(), NoMemory>
    requires inside { All IsInBlock places.old.items }
    ensures listed { OnOk result (listed places.new.items ≡ listed places.old.items ++ extent_places (volume_of g.now) (byte_of owner) extent.now) }
    ensures inside { All IsInBlock places.new.items }
{
    let start = start_of(g, extent.start);
    if !have_sums(start, extent.offset, extent.count) {
        return Err(NoMemory);
    }
    push_run(owner, start, extent.offset, extent.count, places)
}

/// Adds the places of so many blocks from one on, the first of which has this number in the file.
fn push_run(
    owner: Owner,
    start: u64,
    offset: u64,
    count: u64,
    places: &mut Vec<LsnPosition>,
) -> Result<(), NoMemory>
    requires blocks { start + count < 2 ^ 64 }
    requires file { offset + count < 2 ^ 64 }
    requires inside { All IsInBlock places.old.items }
    ensures listed { OnOk result (listed places.new.items ≡ listed places.old.items ++ each_of count (λ i. at (byte_of owner (offset + i)) (start + i))) }
    ensures inside { All IsInBlock places.new.items }
{
    for i in 0..count {
        push(start + i, byte_of(owner, offset + i), places)?;
    }
    Ok(())
}

/// Whether eight bytes hold the sums of a count and of each of two numbers.
fn have_sums(start: u64, offset: u64, count: u64) -> bool
    ensures { result ≡ true → (start + count < 2 ^ 64) × (offset + count < 2 ^ 64) }
{
    sum_of(start, count).is_some() && sum_of(offset, count).is_some()
}

/// The sum of two numbers, just where eight bytes hold it.
fn sum_of(number: u64, count: u64) -> Option<u64>
    ensures { SomeIff result (number + count < 2 ^ 64) (number + count) }
{
    number.checked_add(count)
}

/// The number of the block at an address.
fn start_of(g: &Geometry, address: u64) -> u64
    ensures { result ≡ block_of_address g.now.agblocks g.now.agblklog address }
{
    let size = 1u64 << g.agblklog;
    address / size * g.agblocks as u64 + address % size
}

/// Where the block of this number in a fork has its number.
fn byte_of(owner: Owner, offset: u64) -> u16
    ensures value { result ≡ byte_of owner offset }
    ensures inside { result + 8 ≤ 4096 }
{
    match owner {
        Owner::Directory => dir_byte(offset),
        Owner::Link => LINK_LSN,
        Owner::Attributes => INDEX_LSN,
    }
}

/// Where the block of this number in a directory has its number.
fn dir_byte(offset: u64) -> u16
    ensures value { result ≡ dir_byte offset }
    ensures inside { result ≤ 24 }
{
    if INDEX_START <= offset && offset < INDEX_END {
        INDEX_LSN
    } else {
        DATA_LSN
    }
}
