//! Trees of two levels in a volume of two groups, whole and broken in one rule each.

ghost use Rattle.std.specs.Prelude.{◌≡◌, ◌+◌, ◌*◌, ◌<◌, ◌≤◌, ◌^◌, length};

use super::numbers::Numbers;
use crate::checks::{must, sure};
use crate::text::{Row, line_at, line_count, refuse, tells};
use std::alloc::Global;
use std::marker::Brand;
use std::process::Abort;
use std::sync::ledger::{Blank, Ledger};
use xfs_collections::Steps;
use xfs_disk::Disk;
use xfs_geom::Geometry;
use xfs_memory::MemoryDisk;
use xfs_tree::{Tree, TreeFault, read_tree};
use xfs_word::{Seal, SealKind, put_part, put16, put32, put64, seal};

/// The identifier of the volume.
const IDENTIFIER: [u8; 16] = [
    0x00, 0x11, 0x22, 0x33, 0x44, 0x55, 0x66, 0x77, 0x88, 0x99, 0xaa, 0xbb, 0xcc, 0xdd, 0xee, 0xff,
];

/// No sibling.
const NONE: u32 = u32::MAX;

/// The geometry of the volume; blocks 16 to 19 have the root inode.
pub(super) fn volume() -> Geometry
    ensures { result.dblocks ≡ 2048 }
{
    Geometry {
        dblocks: 2048,
        agblocks: 1024,
        agcount: 2,
        agblklog: 10,
        log: 1030,
        logblocks: 512,
        rootino: 128,
        logsectlog: 0,
        uuid: IDENTIFIER,
    }
}

/// A block of a tree of the first group: its place, its level, how many it holds, its siblings, and at most eight numbers
/// of four bytes behind the header.
fn block(rt: &impl Abort, alloc: Global, text: &str) -> [u8; 4096] {
    let mut row = Row::new(text);
    let place = 8 * u64::from(row.number::<u32>(rt));
    let mut bytes = [0; 4096];
    put32(&mut bytes, 0, 7);
    put16(&mut bytes, 4, row.number(rt));
    put16(&mut bytes, 6, row.number(rt));
    put32(&mut bytes, 8, row.optional(rt).unwrap_or(NONE));
    put32(&mut bytes, 12, row.optional(rt).unwrap_or(NONE));
    put64(&mut bytes, 16, place);
    put_part(&mut bytes, 32, &IDENTIFIER);
    let numbers: Vec<u32> = row.numbers(rt, alloc);
    assert!(rt; numbers.len() <= 8, "{text}");
    for (i, number) in numbers.iter().enumerate() {
        put32(&mut bytes, 56 + 4 * i, *number);
    }
    let what = Seal {
        kind: SealKind::ShortTree { magic: 7 },
        place,
        owner: Some(0),
        uuid: IDENTIFIER,
    };
    seal(&what, &mut bytes);
    bytes
}

/// What the tree of two levels at block 20 reads as, with its steps counted.
fn read<D: Disk, L: Ledger>(
    alloc: Global,
    disk: &mut D,
    blank: Blank,
) -> Result<Tree<Numbers>, TreeFault>
    requires name { blank.name ≡ L.name }
    requires parts { blank.parts ≡ L.parts }
    requires some { 0 < blank.parts }
    requires inside { 2048 ≤ D.size disk.old }
    ensures { D.size disk.new ≡ D.size disk.old }
{
    let mut steps = Steps::<L>::from_blank(blank);
    read_tree(
        alloc,
        &Numbers { ag: 0 },
        &volume(),
        disk,
        20,
        2,
        &mut steps,
    )
}

/// What the tree reads as.
fn reading(
    rt: &impl Abort,
    alloc: Global,
    disk: &mut MemoryDisk,
) -> Result<Tree<Numbers>, TreeFault> {
    assert!(rt; matches!(disk.blocks(), Ok(count) if 2048 <= count));
    read::<MemoryDisk, Brand>(alloc, disk, Blank::new(1))
}

/// The disk with these three blocks, at blocks 20 to 22, of which the last may have a wrong byte.
pub(super) fn disk_of(rt: &impl Abort, alloc: Global, blocks: [&str; 3], wrong: u8) -> MemoryDisk {
    let mut disk = must(rt, MemoryDisk::make(alloc, 2048));
    put(rt, &mut disk, 20, &block(rt, alloc, blocks[0]));
    put(rt, &mut disk, 21, &block(rt, alloc, blocks[1]));
    let mut right = block(rt, alloc, blocks[2]);
    right[4000] = wrong;
    put(rt, &mut disk, 22, &right);
    disk
}

/// Writes a block.
fn put(rt: &impl Abort, disk: &mut MemoryDisk, place: u64, block: &[u8; 4096]) {
    assert!(rt; matches!(disk.blocks(), Ok(count) if place < count));
    must(rt, disk.write(place, block));
}

/// The root and its two leaves, and the block and the rule that is broken.
pub(super) const BROKEN: &str = "\
outside the group | 20 1 2 - - 10 30 21 5000 | 21 0 2 - 5000 10 20 | 22 0 1 21 - 30 | Unread { block: 5000, rule: 1 }
the root's cluster | 20 1 2 - - 10 30 21 16 | 21 0 2 - 16 10 20 | 22 0 1 21 - 30 | Unread { block: 16, rule: 1 }
a shared child | 20 1 2 - - 10 30 21 21 | 21 0 2 - 21 10 20 | 22 0 1 21 - 30 | Unread { block: 21, rule: 2 }
parent as child | 20 1 2 - - 10 30 21 20 | 21 0 2 - 20 10 20 | 22 0 1 21 - 30 | Unread { block: 20, rule: 2 }
checksum | 20 1 2 - - 10 30 21 22 | 21 0 2 - 22 10 20 | 22 0 1 21 - 30 | Unread { block: 22, rule: 3 }
wrong level | 20 1 2 - - 10 30 21 22 | 21 0 2 - 22 10 20 | 22 1 1 21 - 30 | Unread { block: 22, rule: 4 }
no record | 20 1 2 - - 10 30 21 22 | 21 0 2 - 22 10 20 | 22 0 0 21 - 30 | Unread { block: 22, rule: 5 }
too many records | 20 1 2 - - 10 30 21 22 | 21 0 4 - 22 10 20 21 22 | 22 0 1 21 - 30 | Unread { block: 21, rule: 5 }
keys descend | 20 1 2 - - 30 10 21 22 | 21 0 2 - 22 10 20 | 22 0 1 21 - 30 | Unread { block: 20, rule: 6 }
records descend | 20 1 2 - - 10 30 21 22 | 21 0 2 - 22 20 10 | 22 0 1 21 - 30 | Unread { block: 21, rule: 6 }
records descend across leaves | 20 1 2 - - 10 30 21 22 | 21 0 2 - 22 10 35 | 22 0 1 21 - 30 | Unread { block: 22, rule: 6 }
low key of the first | 20 1 2 - - 11 30 21 22 | 21 0 2 - 22 10 20 | 22 0 1 21 - 30 | Unread { block: 21, rule: 7 }
low key of the second | 20 1 2 - - 10 31 21 22 | 21 0 2 - 22 10 20 | 22 0 1 21 - 30 | Unread { block: 22, rule: 7 }
itself as sibling | 20 1 2 - - 10 30 21 22 | 21 0 2 - 21 10 20 | 22 0 1 21 - 30 | Unread { block: 21, rule: 8 }
sibling left of all | 20 1 2 - - 10 30 21 22 | 21 0 2 22 22 10 20 | 22 0 1 21 - 30 | Unread { block: 21, rule: 8 }
sibling right of all | 20 1 2 - - 10 30 21 22 | 21 0 2 - 22 10 20 | 22 0 1 21 21 30 | Unread { block: 22, rule: 8 }
";

#[test]
fn hostile(rt: HostRuntime) {
    for i in 0..line_count(BROKEN) {
        let line = line_at(BROKEN, i);
        try_broken(&rt, line);
    }
}

fn try_broken(rt: &(impl Abort + AllocGlobal), line: &str) {
    let alloc = rt.alloc();
    let mut row = Row::new(line);
    let what = row.text();
    let blocks = [row.text(), row.text(), row.text()];
    let wrong = (what == "checksum") as u8;
    let mut disk = disk_of(rt, alloc, blocks, wrong);
    match reading(rt, alloc, &mut disk) {
        Err(TreeFault::Unread(fault)) => tells(rt, &fault, row.text(), what),
        _ => refuse(rt, "this is not found", what),
    }
}

/// A tree that is whole.
pub(super) const WHOLE: [&str; 3] = [
    "20 1 2 - - 10 30 21 22",
    "21 0 2 - 22 10 20",
    "22 0 1 21 - 30",
];

#[test]
fn each_block_is_read_once(rt: HostRuntime) {
    let rt = &rt;
    let alloc = rt.alloc();
    let mut disk = disk_of(rt, alloc, WHOLE, 0);
    must(rt, disk.fail(4));
    match reading(rt, alloc, &mut disk) {
        Ok(tree) => {
            tells(rt, &tree.records.as_slice(), "[10, 20, 30]", "records");
            tells(rt, &tree.blocks.as_slice(), "[20, 21, 22]", "blocks");
        }
        Err(_) => refuse(rt, "the tree is not read", ""),
    }
    let failed = reading(rt, alloc, &mut disk);
    sure(
        rt,
        matches!(failed, Err(TreeFault::ReadFault)),
        "the fourth read fails",
    );
}
