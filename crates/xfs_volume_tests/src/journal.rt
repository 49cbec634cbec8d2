//! The log and the log sequence numbers of a volume of two groups of 1024 blocks, with its log at AG block 6 of the second.

ghost use Rattle.std.specs.Prelude.{◌≡◌, ◌<◌, ◌≤◌};

use crate::checks::{equal_at, must};
use crate::small_volume::{ROOT, put, volume};
use crate::text::{Row, line_at, line_count, refuse, tells};
use std::alloc::Global;
use std::marker::Brand;
use std::process::Abort;
use std::sync::ledger::{Blank, Ledger};
use xfs_collections::Steps;
use xfs_disk::{BLOCK_SIZE, Disk};
use xfs_journal::*;
use xfs_log::LogState;
use xfs_memory::MemoryDisk;
use xfs_volume::{BlockLsn, Core, Extents, FileRec, Records, Rest};
use xfs_word::{Extent, put64};

/// An extent of two blocks.
fn extent(offset: u64, start: u64) -> Extent {
    Extent {
        offset,
        start,
        count: 2,
        unwritten: false,
    }
}

/// A file of this mode with data at block 40 and on, a tree of extents at block 30, and attributes at block 50 and on.
fn file(rt: &impl Abort, alloc: Global, mode: u16, offset: u64) -> FileRec {
    let data = must(rt, vec![in alloc; extent(offset, 40)]);
    let attr_extents = must(rt, vec![in alloc; extent(0, 50)]);
    let tree = must(rt, vec![in alloc; 30]);
    let (attrs, target) = (Vec::new(alloc), Vec::new(alloc));
    let rest = Rest::new(alloc, attr_extents, tree, attrs, target, 0);
    FileRec {
        ino: 128,
        core: Core {
            mode,
            format: 2,
            nlink: 1,
            size: 0,
            uuid: [0; 16],
            ..ROOT
        },
        extents: must(rt, Extents::from_vec(alloc, data)),
        rest: must(rt, rest),
    }
}

/// A disk each of whose first blocks has at each eighth byte this byte's offset.
fn disk(rt: &impl Abort, alloc: Global) -> MemoryDisk {
    let mut disk = must(rt, MemoryDisk::make(alloc, 2048));
    let mut block = [0; BLOCK_SIZE];
    for i in 0..512usize {
        put64(&mut block, 8 * i, 8 * i as u64);
    }
    for place in [0, 30, 40, 41, 50, 51] {
        put(rt, &mut disk, place, &block);
    }
    disk
}

/// The numbers of files, with the steps counted.
#[tactic(auto, unfolding(xfs_image::specs::Files::clusters_of))]
fn numbers_of<D: Disk, L: Ledger>(
    alloc: Global,
    disk: &mut D,
    files: &[FileRec],
    blank: Blank,
) -> Result<Records<BlockLsn>, JournalFault>
    requires name { blank.name ≡ L.name }
    requires parts { blank.parts ≡ L.parts }
    requires some { 0 < blank.parts }
{
    let mut steps = Steps::<L>::from_blank(blank);
    read_lsns(
        alloc,
        &volume([0; 16]),
        disk,
        &[],
        &[],
        &[],
        files,
        &mut steps,
    )
}

/// The mode of a file, the offset of its data, and the blocks that have a number, with the number.
const NUMBERS: &str = "\
0x41ed 0 | [(0, 240), (30, 32), (40, 16), (41, 16), (50, 24), (51, 24)]
0x41ed 0xffffff | [(0, 240), (30, 32), (40, 24), (41, 16), (50, 24), (51, 24)]
0xa1ff 0 | [(0, 240), (30, 32), (40, 48), (41, 48), (50, 24), (51, 24)]
0x81a4 0 | [(0, 240), (30, 32), (50, 24), (51, 24)]
";

#[test]
fn numbers(rt: HostRuntime) {
    for i in 0..line_count(NUMBERS) {
        let line = line_at(NUMBERS, i);
        try_numbers(&rt, line);
    }
}

fn try_numbers(rt: &(impl Abort + AllocGlobal), line: &str) {
    let alloc = rt.alloc();
    let mut row = Row::new(line);
    let files = [file(rt, alloc, row.number(rt), row.number(rt))];
    let lsns = numbers_in(rt, alloc, &files, line);
    let mut found = Vec::new(alloc);
    for number in lsns.as_slice() {
        must(rt, found.push((number.block, number.lsn)));
    }
    tells(rt, &found, row.text(), line);
}

/// The numbers of files on the disk, which are read.
fn numbers_in(rt: &impl Abort, alloc: Global, files: &[FileRec], line: &str) -> Records<BlockLsn> {
    let mut disk = disk(rt, alloc);
    match numbers_of::<MemoryDisk, Brand>(alloc, &mut disk, files, Blank::new(1)) {
        Ok(lsns) => lsns,
        Err(_) => refuse(rt, "the numbers are not read", line),
    }
}

/// The state of the log, with the steps counted.
fn state_of<D: Disk, L: Ledger>(
    alloc: Global,
    disk: &mut D,
    blank: Blank,
) -> Result<LogState, JournalFault>
    requires name { blank.name ≡ L.name }
    requires parts { blank.parts ≡ L.parts }
    requires some { 0 < blank.parts }
    requires inside { 2048 ≤ D.size disk.old }
{
    let mut steps = Steps::<L>::from_blank(blank);
    read_log(alloc, &volume([0; 16]), disk, &mut steps)
}

/// The block of a sector of cycle 1, and whether the log is clean.
const LOGS: &str = "\
1029 true
1030 false
1541 false
1542 true
";

#[test]
fn logs(rt: HostRuntime) {
    let rt = &rt;
    for i in 0..line_count(LOGS) {
        let line = line_at(LOGS, i);
        let mut row = Row::new(line);
        let state = state_with(rt, rt.alloc(), row.number(rt), line);
        equal_at(
            rt,
            state == LogState::Clean { head: 1 << 32 },
            row.flag(rt),
            line,
        );
    }
}

/// The state of the log of a disk that has a sector of cycle 1 in this block.
fn state_with(rt: &impl Abort, alloc: Global, place: u64, line: &str) -> LogState {
    let mut disk = must(rt, MemoryDisk::make(alloc, 2048));
    let mut block = [0; BLOCK_SIZE];
    put64(&mut block, 3584, 1 << 32);
    put(rt, &mut disk, place, &block);
    assert!(rt; matches!(disk.blocks(), Ok(count) if 2048 <= count));
    match state_of::<MemoryDisk, Brand>(alloc, &mut disk, Blank::new(1)) {
        Ok(state) => state,
        Err(_) => refuse(rt, "the log is not read", line),
    }
}
