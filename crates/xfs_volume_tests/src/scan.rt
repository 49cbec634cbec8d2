//! The evidence of a volume whose groups do not read: two groups of 1024 blocks, the root's cluster at block 16, one more that is
//! found by its bytes at block 24.

ghost use Rattle.std.specs.Prelude.{◌≡◌, ◌<◌, ◌≤◌};

use crate::checks::{compare_at, equal, must, sure};
use crate::small_volume::{ROOT, put, volume};
use crate::text::{Row, line_at, line_count, refuse, tells};
use std::alloc::Global;
use std::marker::Brand;
use std::process::Abort;
use std::sync::ledger::{Blank, Ledger};
use std::thread::Threads;
use xfs_collections::Steps;
use xfs_disk::{BLOCK_SIZE, Disk, Gate, NoGate};
use xfs_image::Finding;
use xfs_inodebuild::fresh_slot;
use xfs_log::LogState;
use xfs_memory::{HoldingGate, MemoryDisk};
use xfs_scan::*;
use xfs_volume::{Catalog, Core, FileRec};
use xfs_word::{put_checksum, put_part, put16};

/// The identifier of the volume.
const IDENTIFIER: [u8; 16] = [7; 16];

/// The bytes of the root's one entry `a` of inode 131.
pub const ENTRY: [u8; 15] = [1, 0, 0, 0, 0, 128, 1, 0, 0x60, b'a', 1, 0, 0, 0, 131];

/// An extent of block 30, the first of its file.
pub const EXTENT: [u8; 16] = [0, 0, 0, 0, 0, 0, 0, 0, 0, 0, 0, 0, 3, 0xc0, 0, 1];

/// A regular file of one block.
pub fn file(ino: u64) -> Core {
    Core {
        mode: 0x81a4,
        format: 2,
        nlink: 1,
        size: 4096,
        nblocks: 1,
        nextents: 1,
        ino,
        ..ROOT
    }
}

/// Two bytes of a slot: their offset, and the number that they are.
pub type Change = (usize, u16);

/// No feature: the last bytes of the second flags, of which nothing is set.
pub const PLAIN: Change = (126, 0);

/// An attribute fork in the slot itself that states no size.
pub const LOST_ATTRIBUTES: Change = (82, 0x1e01);

/// Writes the slot of an inode with two bytes changed into a block.
pub fn put_slot(
    rt: &impl Abort,
    block: &mut [u8; BLOCK_SIZE],
    core: &Core,
    fork: &[u8],
    change: Change,
) {
    let core = Core {
        uuid: IDENTIFIER,
        ..*core
    };
    let mut slot = [0; 512];
    assert!(rt; core.magic == 0x494e && core.version == 3 && core.mode != 0);
    assert!(rt; core.lsn == 0 && core.forkoff == 0 && core.flags == 0 && core.flags2 == 0);
    assert!(rt; fork.len() <= 336 && core.ino < 1024);
    fresh_slot(&volume(IDENTIFIER), &core, fork, &mut slot);
    sure(rt, change.0 <= 510, "a place");
    put16(&mut slot, change.0, change.1);
    put_checksum(&mut slot, 100);
    put_part(block, core.ino as usize % 8 * 512, &slot);
}

/// The volume, with files whose slots are changed so in block 17.
fn disk(rt: &impl Abort, alloc: Global, changed: &[(u64, Change)]) -> MemoryDisk {
    let mut disk = must(rt, MemoryDisk::make(alloc, 2048));
    let mut block = [0; BLOCK_SIZE];
    put_slot(rt, &mut block, &ROOT, &ENTRY, PLAIN);
    put_slot(rt, &mut block, &file(131), &EXTENT, PLAIN);
    put(rt, &mut disk, 16, &block);
    block = [0; BLOCK_SIZE];
    for (ino, change) in changed {
        put_slot(rt, &mut block, &file(*ino), &EXTENT, *change);
    }
    put(rt, &mut disk, 17, &block);
    block = [0; BLOCK_SIZE];
    put_slot(rt, &mut block, &file(192), &EXTENT, PLAIN);
    put(rt, &mut disk, 24, &block);
    disk
}

/// The evidence of a disk, with the steps counted.
pub fn gather_counted<R: Threads + Sync, D: Disk, G: Gate, L: Ledger>(
    rt: &R,
    alloc: Global,
    disk: &mut D,
    gate: &G,
    blank: Blank,
) -> Result<Evidence, ScanFault>
    requires name { blank.name ≡ L.name }
    requires parts { blank.parts ≡ L.parts }
    requires some { 0 < blank.parts }
    requires inside { 2048 ≤ D.size disk.old }
{
    let mut steps = Steps::<L>::from_blank(blank);
    gather(rt, alloc, &volume(IDENTIFIER), disk, 4, gate, &mut steps)
}

/// The evidence of the disk.
fn seen<R: Abort + Threads + Sync>(
    alloc: Global,
    rt: &R,
    disk: &mut MemoryDisk,
) -> Result<Evidence, ScanFault> {
    assert!(rt; matches!(disk.blocks(), Ok(count) if 2048 <= count));
    gather_counted::<R, MemoryDisk, NoGate, Brand>(rt, alloc, disk, &NoGate, Blank::new(1))
}

/// The evidence of the volume with these files, which is not refused.
fn seen_with<R: Abort + Threads + Sync>(
    rt: &R,
    alloc: Global,
    changed: &[(u64, Change)],
) -> Evidence {
    let mut disk = disk(rt, alloc, changed);
    match seen(alloc, rt, &mut disk) {
        Ok(found) => found,
        Err(_) => refuse(rt, "the volume is refused", ""),
    }
}

/// What the whole image says, or the first part that does not read.
pub fn view_of(found: Evidence) -> Result<Catalog, Finding> {
    found.seen.into_seen().into_view()
}

/// The clusters, the entries and the directories.
const CLUSTERS: &str =
    "[ClusterRec { block: 16, recorded: true }, ClusterRec { block: 24, recorded: false }]";

const ENTRIES: &str = "[EntryRec { dir: 128, name: Word { bytes: [97] }, ino: 131, ftype: 1 }]";

const DIRECTORIES: &str = "[DirRec { ino: 128, parent: 128, whole: true }]";

#[test]
fn evidence(rt: HostRuntime) {
    let rt = &rt;
    let found = seen_with(rt, rt.alloc(), &[(137, LOST_ATTRIBUTES)]);
    tells(rt, &found.clusters.as_slice(), CLUSTERS, "clusters");
    equal(rt, found.slots.as_slice().len(), 64);
    are_files(rt, found.seen.as_seen().files());
    tells(rt, &found.bare.as_slice(), "[137]", "bare files");
    tells(rt, &found.seen.as_seen().entries(), ENTRIES, "entries");
    tells(rt, &found.seen.as_seen().dirs(), DIRECTORIES, "directories");
    equal(rt, found.trees.as_slice().len(), 2);
    equal(rt, found.log, LogState::Clean { head: 1 << 32 });
    let view = view_of(found);
    sure(
        rt,
        matches!(view, Err(Finding::Part { part: 1, place: 0 })),
        "the first part that does not read",
    );
    drop(view);
}

/// Fails where the files are not the root and the three others.
fn are_files(rt: &impl Abort, files: &[FileRec]) {
    equal(rt, files.len(), 4);
    for (file, ino) in files.iter().zip([128, 131, 137, 192]) {
        equal(rt, file.ino, ino);
    }
}

/// What is kept of some of the 64 slots of the candidate clusters.
const SLOTS: &str = "\
0 | SlotFact { reading: InUse, lsn: 0 }
1 | SlotFact { reading: Unsound, lsn: 0 }
3 | SlotFact { reading: InUse, lsn: 0 }
9 | SlotFact { reading: InUse, lsn: 0 }
11 | SlotFact { reading: InUse, lsn: 7 }
12 | SlotFact { reading: Free, lsn: 0 }
31 | SlotFact { reading: Unsound, lsn: 0 }
32 | SlotFact { reading: InUse, lsn: 0 }
63 | SlotFact { reading: Unsound, lsn: 0 }
";

#[test]
fn slots(rt: HostRuntime) {
    let rt = &rt;
    let changed = [(137, LOST_ATTRIBUTES), (139, (118, 7)), (140, (2, 0))];
    let found = seen_with(rt, rt.alloc(), &changed);
    let slots = found.slots.as_slice();
    for i in 0..line_count(SLOTS) {
        let line = line_at(SLOTS, i);
        let mut row = Row::new(line);
        let place: usize = row.number(rt);
        sure(rt, place < slots.len(), line);
        tells(rt, &slots[place], row.text(), line);
    }
    drop(found);
}

#[test]
fn least_feature(rt: HostRuntime) {
    let rt = &rt;
    let alloc = rt.alloc();
    let changed = [(136, PLAIN), (138, (126, 2)), (141, (126, 8))];
    let mut disk = disk(rt, alloc, &changed);
    let refused = seen(alloc, rt, &mut disk);
    let least = matches!(
        refused,
        Err(ScanFault::UnsupportedFile { ino: 138, what: 4 })
    );
    sure(rt, least, "the least inode");
    drop(refused);
}

#[test]
fn failing_reads(rt: HostRuntime) {
    for call in [1, 10, 40, 560] {
        try_failing(&rt, rt.alloc(), call);
    }
}

fn try_failing<R: Abort + Threads + Sync>(rt: &R, alloc: Global, call: u64) {
    let mut disk = disk(rt, alloc, &[]);
    must(rt, disk.fail(call));
    let refused = seen(alloc, rt, &mut disk);
    compare_at(
        rt,
        &matches!(refused, Err(ScanFault::ReadFault)),
        &true,
        &call,
    );
    drop(refused);
}

#[test]
fn pieces_run_at_once(rt: HostRuntime) {
    let rt = &rt;
    let alloc = rt.alloc();
    let mut disk = disk(rt, alloc, &[]);
    assert!(rt; matches!(disk.blocks(), Ok(count) if 2048 <= count));
    let gate = HoldingGate::new(1_000_000_000);
    let gathered = gather_counted::<HostRuntime, MemoryDisk, HoldingGate, Brand>(
        rt,
        alloc,
        &mut disk,
        &gate,
        Blank::new(1),
    );
    sure(rt, gathered.is_ok(), "the volume is not refused");
    sure(
        rt,
        gate.has_met(),
        "the second piece came while the first was held",
    );
    drop(gathered);
}
