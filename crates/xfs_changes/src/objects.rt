//! The directories that are built anew, as objects that are to be placed.

ghost use Rattle.std.specs.Prelude.{◌≡◌, ◌++◌, ◌≤◌, ◌<◌, ◌^◌, [], ◌∷◌, IfOk, OnOk};
ghost use Rattle.std.specs.List.Sorted.{IsNonDecreasingBy};
ghost use Rattle.xfs_names.specs.Built.{fork_room};
ghost use Rattle.xfs_names.specs.declared.building.ForkRoom.{ForkRoom};
ghost use Rattle.xfs_built.specs.Asks.{asked_run, asks_for, blocks_of_built, object_of, objects_of, stands_in_blocks};

use std::alloc::Global;
use xfs_collections::BlockList;
use xfs_dirbuild::DirImage;
use xfs_disk::NoMemory;
use xfs_names::{BuiltDirectory, ForkRoom};
use xfs_naming::records_by_number;
use xfs_place::{Object, ObjectKind, RunAsk};
use xfs_volume::Records;

/// The file block from which on the index of a directory stands, and that of its free blocks.
const INDEX_BEGIN: u64 = 0x800000;

const FREE_BEGIN: u64 = 0x1000000;

/// The bytes of a data fork where no attribute fork stands behind it, and those of an extent in it.
const WHOLE_FORK: u16 = 336;

const EXTENT_SIZE: u16 = 16;

/// Those that have blocks.
pub fn objects_of(
    alloc: Global,
    rooms: &[ForkRoom],
    built: &[BuiltDirectory],
) -> Result<Vec<Object>, NoMemory>
    requires rooms { IsNonDecreasingBy (λ (r : ForkRoom). r.ino) rooms.now }
    ensures { IfOk result (λ objects. objects.items ≡ objects_of rooms.now built.now) }
{
    let mut objects = Vec::new(alloc);
    for directory in built {
        if stands_in_blocks(directory) {
            objects.push(object_of(alloc, rooms, directory)?)?;
        }
    }
    Ok(objects)
}

/// Whether a directory has blocks: it has none in its short form.
pub(crate) fn stands_in_blocks(directory: &BuiltDirectory) -> bool
    ensures { result ≡ stands_in_blocks directory.now }
{
    directory.image.data_blocks != 0
}

/// A directory as an object.
fn object_of(
    alloc: Global,
    rooms: &[ForkRoom],
    directory: &BuiltDirectory,
) -> Result<Object, NoMemory>
    requires rooms { IsNonDecreasingBy (λ (r : ForkRoom). r.ino) rooms.now }
    ensures { IfOk result (λ object. object ≡ object_of rooms.now directory.now) }
{
    Ok(Object {
        ino: directory.ino,
        kind: ObjectKind::Directory,
        runs: Records::from_vec(asks_for(alloc, directory.ino, &directory.image)?),
        most: (fork_room(rooms, directory.ino) / EXTENT_SIZE) as u32,
    })
}

/// The runs that a directory asks for.
pub(crate) fn asks_for(alloc: Global, ino: u64, image: &DirImage) -> Result<Vec<RunAsk>, NoMemory>
    ensures { IfOk result (λ asks. asks.items ≡ asks_for ino image.now) }
{
    let mut asks = Vec::new(alloc);
    push_ask(ino, 0, image.data_blocks, &mut asks)?;
    push_ask(ino, INDEX_BEGIN, image.index_blocks, &mut asks)?;
    push_ask(ino, FREE_BEGIN, image.free_blocks, &mut asks)?;
    Ok(asks)
}

/// Adds a run of so many blocks, where there are some. `NoMemory` where 32 bits do not hold their number.
fn push_ask(ino: u64, offset: u64, blocks: u64, asks: &mut Vec<RunAsk>) -> Result<(), NoMemory>
    ensures { OnOk result (asks.new.items ≡ asks.old.items ++ asked_run ino offset blocks) }
{
    if blocks == 0 {
        return Ok(());
    }
    let Ok(blocks) = u32::try_from(blocks) else {
        return Err(NoMemory);
    };
    asks.push(RunAsk {
        blocks,
        owner: ino,
        offset_word: offset,
    })?;
    Ok(())
}

/// How many bytes the data fork of a directory may have.
fn fork_room(rooms: &[ForkRoom], dir: u64) -> u16
    requires rooms { IsNonDecreasingBy (λ (r : ForkRoom). r.ino) rooms.now }
    ensures { result ≡ fork_room rooms.now dir }
{
    match records_by_number(rooms, dir).first() {
        Some(room) => room.bytes,
        None => WHOLE_FORK,
    }
}

/// The blocks of all directories, one after the other.
pub fn blocks_of_built(alloc: Global, built: &[BuiltDirectory]) -> Result<BlockList, NoMemory>
    ensures { IfOk result (λ bank. bank ≡ blocks_of_built built.now) }
{
    let mut bank = BlockList::make(alloc);
    for directory in built {
        bank.push_bank(&directory.image.blocks)?;
    }
    Ok(bank)
}
