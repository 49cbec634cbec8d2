//! Slots of a volume of two groups of 1024 blocks, with its log at AG block 6 of the second.

ghost use Rattle.std.specs.Prelude.{◌≡◌, ◌<◌, ◌≤◌, length};

mod cuts;
mod disks;
mod files;
mod real;

use crate::checks::{equal, equal_at, must, sure};
use crate::text::{Row, line_at, line_count, part_at, part_count, put_parts, tells};
use std::alloc::Global;
use std::process::Abort;
use std::sync::ledger::{Blank, Ledger};
use xfs_collections::Steps;
use xfs_disk::{Disk, Stamp, Word};
use xfs_geom::Geometry;
use xfs_inode::*;
use xfs_inodebuild::*;
use xfs_volume::Core;
use xfs_word::{get8, put_part, seal, sealed, stored_checksum};

/// The identifier of the volume.
const IDENTIFIER: [u8; 16] = [
    0x00, 0x11, 0x22, 0x33, 0x44, 0x55, 0x66, 0x77, 0x88, 0x99, 0xaa, 0xbb, 0xcc, 0xdd, 0xee, 0xff,
];

/// The core of a fresh file of one block.
const FRESH: Core = Core {
    magic: 0x494e,
    mode: 0x81a4,
    version: 3,
    format: 2,
    uid: 1,
    gid: 2,
    nlink: 3,
    projid_lo: 0,
    projid_hi: 0,
    atime: 0x10_0000_0005,
    mtime: 0x10_0000_0005,
    ctime: 0x10_0000_0005,
    size: 4096,
    nblocks: 1,
    extsize: 0,
    nextents: 1,
    anextents: 0,
    forkoff: 0,
    aformat: 2,
    flags: 0,
    generation: 7,
    next_unlinked: u32::MAX,
    crc: 0,
    changecount: 0,
    lsn: 0,
    flags2: 0,
    cowextsize: 0,
    crtime: 0x10_0000_0005,
    ino: 131,
    uuid: IDENTIFIER,
};

/// The slot of a fresh file of one block, inode 131, as the core above and the extent of block 24 at file block 0 make it,
/// but for its checksum: byte offsets and the bytes from there on.
const SLOT: &str = "\
0 494e 81a4 03 02, 8 00000001 00000002 00000003
32 0000001000000005 0000001000000005 0000001000000005
56 0000000000001000 0000000000000001, 76 00000001 0000 00 02
92 00000007 ffffffff, 144 0000001000000005 0000000000000083
160 00112233445566778899aabbccddeeff, 188 03000001";

/// The geometry of a volume with this identifier.
fn volume(uuid: [u8; 16]) -> Geometry
    ensures identifier { result.uuid ≡ uuid }
    ensures dblocks { result.dblocks ≡ 2048 }
{
    Geometry {
        dblocks: 2048,
        agblocks: 1024,
        agcount: 2,
        agblklog: 10,
        log: 1030,
        logblocks: 512,
        rootino: 128,
        logsectlog: 0,
        uuid,
    }
}

/// The geometry of the volume.
fn geometry() -> Geometry {
    volume(IDENTIFIER)
}

/// The slot of the fresh file with these parts written into it, sealed as inode 131.
fn file_with(rt: &(impl Abort + AllocGlobal), parts: &str) -> [u8; 512] {
    let mut slot = [0; 512];
    put_parts(rt, &mut slot, SLOT);
    put_parts(rt, &mut slot, parts);
    seal_file(&mut slot);
    slot
}

/// Writes the checksum of a slot.
fn seal_file(slot: &mut [u8; 512]) {
    seal(&slot_seal(&geometry(), 131), slot);
}

/// What the slot of an inode reads as, with the steps counted.
fn read_counted<D: Disk, L: Ledger>(
    alloc: Global,
    uuid: [u8; 16],
    disk: &mut D,
    ino: u64,
    slot: &[u8; 512],
    blank: Blank,
) -> Result<FileRead, InodeFault>
    requires name { blank.name ≡ L.name }
    requires parts { blank.parts ≡ L.parts }
    requires some { 0 < blank.parts }
    requires inside { 2048 ≤ D.size disk.old }
{
    let mut steps = Steps::<L>::from_blank(blank);
    read_file(alloc, &volume(uuid), disk, ino, slot, &mut steps)
}

/// How a slot reads that is not in use.
fn refused(read: SlotRead) -> Option<SlotRead> {
    match read {
        SlotRead::InUse(_) => None,
        other => Some(other),
    }
}

/// The inode that the slot is read as, the case, how it reads if not as in use, the bytes that differ from the fresh
/// file's, and those that differ behind the seal.
const SLOTS: &str = "\
131 | none | None
131 | real-time | Some(Unsupported { what: 3 }) | 90 0001
131 | other flags | None | 90 fffe
131 | shared blocks | Some(Unsupported { what: 4 }) | 127 02
131 | long times | Some(Unsupported { what: 5 }) | 127 08
131 | long counts | Some(Unsupported { what: 6 }) | 127 10
131 | other new flags | None | 120 ffffffffffffffe5
131 | all but the first | Some(Unsupported { what: 4 }) | 82 1803, 127 1a
131 | counts and attributes | Some(Unsupported { what: 6 }) | 82 1803, 127 10
131 | a tree | Some(Unsupported { what: 2 }) | 82 1803
131 | no fork | None | 80 00020003
131 | two extents | Some(Unsupported { what: 2 }) | 80 00021802
131 | two extents, short | None | 80 00021801
131 | one block | None | 80 00011802, 381 e00001
131 | two blocks | Some(Unsupported { what: 2 }) | 80 00012802, 509 e00002
131 | an extent past the slot | None | 80 00012902, 508 00000002
131 | free | Some(Free) | 2 0000
131 | free, with a flag | Some(Free) | 2 0000, 90 0001
132 | another inode | Some(Unsound)
131 | another magic number | Some(Unsound) | 0 494d
131 | another version | Some(Unsound) | 4 02
131 | a position of no log | Some(Unsound) | 112 7fffffff
131 | another volume | Some(Unsound) | 160 01
131 | another byte | Some(Unsound) | | 511 01
";

#[test]
fn slots(rt: HostRuntime) {
    let rt = &rt;
    let g = geometry();
    for i in 0..line_count(SLOTS) {
        let line = line_at(SLOTS, i);
        let mut row = Row::new(line);
        let ino = row.number(rt);
        let (case, due) = (row.text(), row.text());
        let mut slot = file_with(rt, row.text());
        put_parts(rt, &mut slot, row.text());
        tells(rt, &refused(read_slot(&g, ino, &slot)), due, case);
    }
}

#[test]
fn blank_slots(rt: HostRuntime) {
    let rt = &rt;
    let g = volume(IDENTIFIER);
    let stamp = Stamp {
        seconds: 16,
        nanos: 5,
        generation: 7,
        uuid: [0; 16],
    };
    let mut slot = [0xff; 512];
    free_slot(&g, 131, &stamp, &mut slot);
    equal(rt, read_slot(&g, 131, &slot), SlotRead::Free);
    let mut due = [0; 512];
    put_parts(
        rt,
        &mut due,
        "0 494e, 4 03, 95 07ffffffff, 159 83, 160 00112233445566778899aabbccddeeff",
    );
    seal_file(&mut due);
    equal(rt, slot, due);
    due = file_with(rt, "");
    slot = [0xff; 512];
    fresh_slot(&g, &FRESH, &due[176..192], &mut slot);
    let crc = stored_checksum(&slot, 100);
    equal(
        rt,
        read_slot(&g, 131, &slot),
        SlotRead::InUse(Core { crc, ..FRESH }),
    );
    equal(rt, slot, due);
}

/// Tests that a slot is what is due, with zero from a byte on, these parts and its seal.
fn is_due(
    rt: &(impl Abort + AllocGlobal),
    slot: &[u8; 512],
    due: &mut [u8; 512],
    end: usize,
    parts: &str,
) {
    sure(rt, end <= 512, parts);
    due[end..].fill(0);
    put_parts(rt, due, parts);
    seal_file(due);
    equal_at(rt, *slot, *due, parts);
}

/// Where the attribute fork begins, in units of 8 bytes behind byte 176, and the byte behind the data fork.
const FORKS: &str = "0 512, 6 224, 41 504";

#[test]
fn changed_slots(rt: HostRuntime) {
    let rt = &rt;
    let g = geometry();
    let wanted = ForkWanted {
        format: 1,
        size: 2,
        nblocks: 5,
        nextents: 6,
        bytes: Word::from_vec(must(rt, vec![in rt.alloc(); 0xab, 0xcd])),
    };
    for i in 0..part_count(FORKS) {
        let mut row = part_at(FORKS, i);
        let mut slot = [0x5a; 512];
        let parts = "0 494e, 4 03, 152 0000000000000083, 160 00112233445566778899aabbccddeeff";
        put_parts(rt, &mut slot, parts);
        slot[82] = row.number(rt);
        let mut due = slot;
        seal_file(&mut slot);
        assert!(rt; sealed(&slot_seal(&g, 131), &slot));
        set_links(&g, 131, 9, &mut slot);
        is_due(rt, &slot, &mut due, 512, "16 00000009, 96 ffffffff");
        sure(rt, get8(&slot, 82) <= 41, parts);
        drop_attrs(&g, 131, 3, &mut slot);
        let end = row.number(rt);
        is_due(
            rt,
            &slot,
            &mut due,
            end,
            "64 0000000000000003, 80 0000, 83 02",
        );
        sure(rt, get8(&slot, 82) <= 41, parts);
        set_fork(&g, 131, &wanted, &mut slot);
        let parts = "5 01, 56 0000000000000002, 71 05, 76 00000006, 176 abcd";
        is_due(rt, &slot, &mut due, 176, parts);
    }
}
