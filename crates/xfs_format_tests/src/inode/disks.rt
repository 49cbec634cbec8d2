//! A file of 300 extents in two leaves, read from a disk.

ghost use Rattle.std.specs.Prelude.{◌≤◌};
ghost use Rattle.xfs_word.specs.Extent.{IsPackable};

use super::*;
use crate::checks::{equal, must, sure};
use crate::text::{put_parts, tells};
use std::marker::Brand;
use std::sync::ledger::Blank;
use xfs_disk::{BLOCK_SIZE, Disk};
use xfs_memory::MemoryDisk;
use xfs_volume::FileRec;
use xfs_word::{Extent, Seal, SealKind, pack_extent};

/// How many extents the file has.
const EXTENTS: u64 = 300;

/// An extent of one block at an even file block; the last one is not written.
fn extent(i: u64) -> Extent
    requires { i ≤ 300 }
    ensures { IsPackable result }
{
    Extent {
        offset: 2 * i,
        start: 302 + i,
        count: 1,
        unwritten: i + 1 == EXTENTS,
    }
}

/// A leaf of 150 extents, from the extent of a number on, with its siblings and its place.
fn leaf(rt: &(impl Abort + AllocGlobal), place: u64, parts: &str, first: u64) -> [u8; BLOCK_SIZE] {
    let mut block = [0; BLOCK_SIZE];
    put_parts(
        rt,
        &mut block,
        "0 424d4133, 6 0096, 40 00112233445566778899aabbccddeeff, 63 83",
    );
    put_parts(rt, &mut block, parts);
    sure(rt, first <= 150, parts);
    for i in 0..150 {
        put_part(
            &mut block,
            72 + 16 * i as usize,
            &pack_extent(&extent(first + i)),
        );
    }
    let wanted = Seal {
        kind: SealKind::LongTree,
        place,
        owner: Some(131),
        uuid: IDENTIFIER,
    };
    seal(&wanted, &mut block);
    block
}

/// What in the slot of the file differs from the fresh file's, but for the first key of its second leaf.
const SLOT: &str = "\
5 03, 60 00256064, 70 012e, 78 012c
176 00010002, 188 000000000000
340 000000000000012c 000000000000012d";

/// The slot of the file, with this key.
fn slot_with(rt: &(impl Abort + AllocGlobal), key: &str) -> [u8; 512] {
    let mut slot = file_with(rt, SLOT);
    put_parts(rt, &mut slot, key);
    seal_file(&mut slot);
    slot
}

/// What the slot with a key reads as.
fn reads(
    rt: &(impl Abort + AllocGlobal),
    disk: &mut MemoryDisk,
    key: &str,
) -> Result<FileRead, InodeFault> {
    assert!(rt; matches!(disk.blocks(), Ok(count) if 2048 <= count));
    let slot = slot_with(rt, key);
    read_counted::<MemoryDisk, Brand>(rt.alloc(), IDENTIFIER, disk, 131, &slot, Blank::new(1))
}

/// Tests that the file is read whole.
fn is_whole(rt: &(impl Abort + AllocGlobal), file: &FileRec) {
    let core = (file.core.size, file.core.nextents, file.core.nblocks);
    tells(rt, &core, "(2449508, 300, 302)", "core");
    tells(rt, &file.rest.tree(), "[300, 301]", "tree");
    equal(rt, file.extents.as_slice().len(), 300);
    for (i, found) in file.extents.as_slice().iter().enumerate() {
        let i = i as u64;
        sure(rt, i < EXTENTS, "an extent too many");
        equal(rt, *found, extent(i));
    }
}

/// Tests what the slot of the file names.
fn is_named(rt: &(impl Abort + AllocGlobal)) {
    let slot = slot_with(rt, "194 012c");
    match needs(rt.alloc(), &geometry(), 131, &slot) {
        Ok(
            Needs {
                top: Some(top),
                attr_leaf: None,
                link: None,
            },
        ) => {
            let named = (top.places.as_slice(), top.lows.as_slice(), top.level);
            tells(rt, &named, "([300, 301], [0, 300], 0)", "needs");
        }
        _ => panic!(rt; "a tree is named"),
    }
}

/// The disk with the leaves of the file.
fn disk_of_leaves(rt: &(impl Abort + AllocGlobal)) -> MemoryDisk {
    let mut disk = must(rt, MemoryDisk::make(rt.alloc(), 2048));
    let first = leaf(
        rt,
        2400,
        "8 ffffffffffffffff 000000000000012d 0000000000000960",
        0,
    );
    let second = leaf(
        rt,
        2408,
        "8 000000000000012c ffffffffffffffff 0000000000000968",
        150,
    );
    assert!(rt; matches!(disk.blocks(), Ok(2048)));
    must(rt, disk.write(300, &first));
    must(rt, disk.write(301, &second));
    disk
}

/// Tests that the slot with a key reads as the whole file.
fn is_read(rt: &(impl Abort + AllocGlobal), disk: &mut MemoryDisk, key: &str) {
    match reads(rt, disk, key) {
        Ok(FileRead::File(file)) => is_whole(rt, file.as_file()),
        _ => panic!(rt; "the file is read"),
    }
}

/// Tests that the slot with a key reads as no file.
fn is_not_read(rt: &(impl Abort + AllocGlobal), disk: &mut MemoryDisk, key: &str, due: &str) {
    let read = reads(rt, disk, key);
    tells(rt, &read, due, key);
}

#[test]
fn a_file_of_two_leaves(rt: HostRuntime) {
    let rt = &rt;
    is_named(rt);
    let mut disk = disk_of_leaves(rt);
    is_read(rt, &mut disk, "194 012c");
    is_not_read(rt, &mut disk, "194 012d", "Ok(Unsound)");
    must(rt, disk.fail(2));
    is_not_read(rt, &mut disk, "194 012c", "Err(ReadFault)");
}
