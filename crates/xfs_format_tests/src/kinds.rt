//! The six kinds over a volume of two groups of 1024 blocks, with its log at AG blocks 6 to 517 of the second.

ghost use Rattle.std.specs.Prelude.{◌≡◌};
ghost use Rattle.xfs_kinds.specs.FreeRuns.{span};

mod hostile;

use crate::checks::{compare_at, equal, equal_at, must};
use crate::text::{Row, line_at, line_count, put_parts, tells};
use std::cmp::Ordering;
use std::process::Abort;
use xfs_geom::{Geometry, InoRec, RmapRec, Run, Span};
use xfs_kinds::*;
use xfs_tree::{Kind, tree_layout};
use xfs_word::Extent;

/// The owners of the first block of a group, of the blocks of its trees and of its free list, of the inode
/// trees, and of inodes.
const FS: u64 = u64::MAX - 2;

const AG: u64 = u64::MAX - 4;

const INOBT: u64 = u64::MAX - 5;

const INODES: u64 = u64::MAX - 6;

/// The flags of an offset word.
const ATTRIBUTES: u64 = 1 << 63;

const TREE_BLOCK: u64 = 1 << 62;

const UNWRITTEN: u64 = 1 << 61;

fn volume() -> Geometry
    ensures { result.dblocks ≡ 2048 }
{
    Geometry {
        dblocks: 2048,
        agblocks: 1024,
        agcount: 2,
        agblklog: 10,
        log: 1030,
        logblocks: 512,
        rootino: 128,
        logsectlog: 0,
        uuid: [7; 16],
    }
}

fn span(start: u32, count: u32) -> Span
    ensures { result ≡ span start count }
{
    Span { start, count }
}

/// The layouts of the kinds of trees: of free space by start and by length, of inodes, of free inodes, of owners and of
/// extents.
const LAYOUTS: &str = "\
Layout { magic: 1094857538, long: false, high: false, record_len: 8, key_len: 8, leaf_cap: 505, node_cap: 336 }
Layout { magic: 1094857539, long: false, high: false, record_len: 8, key_len: 8, leaf_cap: 505, node_cap: 336 }
Layout { magic: 1229013555, long: false, high: false, record_len: 16, key_len: 4, leaf_cap: 252, node_cap: 505 }
Layout { magic: 1179206195, long: false, high: false, record_len: 16, key_len: 4, leaf_cap: 252, node_cap: 505 }
Layout { magic: 1380794931, long: false, high: true, record_len: 24, key_len: 20, leaf_cap: 168, node_cap: 91 }
Layout { magic: 1112359219, long: true, high: false, record_len: 16, key_len: 8, leaf_cap: 251, node_cap: 251 }
";

#[test]
fn layouts_of_kinds(rt: HostRuntime) {
    let rt = &rt;
    let layouts = [
        tree_layout(&Bno { ag: 1 }),
        tree_layout(&Cnt { ag: 1 }),
        tree_layout(&Ino { ag: 1 }),
        tree_layout(&Fino { ag: 1 }),
        tree_layout(&Rmap { ag: 1 }),
        tree_layout(&Bmbt { ino: 9 }),
    ];
    equal(rt, line_count(LAYOUTS), layouts.len());
    for (i, layout) in layouts.iter().enumerate() {
        tells(rt, layout, line_at(LAYOUTS, i), "a layout");
    }
    equal(rt, Rmap { ag: 1 }.owner(), 1);
    equal(rt, Bmbt { ino: 9 }.owner(), 9);
}

/// A run behind seven blocks from block 5 on, and whether both are lawful by their starts and by their lengths.
const FREE_RUNS: &str = "\
24 1000 true true
24 1001 false false
24 0 false false
12 7 false true
13 6 true false
4 7 false false
4 8 false true
4294967295 4294967295 false false
";

#[test]
fn free_trees(rt: HostRuntime) {
    let rt = &rt;
    let g = volume();
    let (bno, cnt) = (Bno { ag: 0 }, Cnt { ag: 0 });
    let mut bytes = [0; 8];
    bno.put_record(&span(0x0102_0304, 5), &mut bytes);
    tells(rt, &bytes, "[1, 2, 3, 4, 0, 0, 0, 5]", "a run");
    equal(rt, cnt.read_key(&bytes), span(0x0102_0304, 5));
    equal(rt, bno.order(&span(7, 9), &span(8, 1)), Ordering::Less);
    equal(rt, cnt.order(&span(7, 9), &span(8, 1)), Ordering::Greater);
    equal(rt, cnt.order(&span(7, 9), &span(8, 9)), Ordering::Less);
    for i in 0..line_count(FREE_RUNS) {
        let line = line_at(FREE_RUNS, i);
        let mut row = Row::new(line);
        let run = span(row.number(rt), row.number(rt));
        equal_at(
            rt,
            bno.lawful(&g, Some(&span(5, 7)), &run),
            row.flag(rt),
            line,
        );
        equal_at(
            rt,
            cnt.lawful(&g, Some(&span(5, 7)), &run),
            row.flag(rt),
            line,
        );
    }
    equal(rt, bno.lawful(&g, None, &span(1, 1023)), true);
    equal(rt, cnt.lawful(&g, None, &span(0, 4)), false);
    equal(rt, Bno { ag: 2 }.lawful(&g, None, &span(12, 4)), false);
}

/// The bytes of a whole chunk and of half a chunk.
const WHOLE: &str = "[0, 0, 0, 128, 0, 0, 64, 61, 255, 255, 255, 255, 255, 255, 255, 248]";

const HALF: &str = "[0, 0, 0, 64, 255, 0, 32, 3, 255, 255, 255, 255, 0, 0, 0, 7]";

/// The group, the first inode, the holes and the number of inodes of a chunk, and whether it is lawful.
const CHUNKS: &str = "\
0 64 0x00ff 32 true
0 64 0x00f0 32 false
0 64 0xff00 64 false
0 0 0x0000 64 false
0 96 0x0000 64 false
0 8128 0x0000 64 true
0 8192 0x0000 64 false
1 4096 0x0000 64 false
1 4160 0x0000 64 true
1 4096 0x00ff 32 false
1 64 0x0000 64 false
2 64 0x0000 64 false
";

#[test]
fn inode_trees(rt: HostRuntime) {
    let rt = &rt;
    let g = volume();
    let whole = InoRec {
        startino: 128,
        holemask: 0,
        count: 64,
        freecount: 61,
        free: 0xffff_ffff_ffff_fff8,
    };
    let half = InoRec {
        startino: 64,
        holemask: 0xff00,
        count: 32,
        freecount: 3,
        free: 7,
    };
    let mut bytes = [0; 16];
    Ino { ag: 0 }.put_record(&whole, &mut bytes);
    tells(rt, &bytes, WHOLE, "a whole chunk");
    equal(rt, Fino { ag: 0 }.read_record(&bytes), whole);
    Fino { ag: 0 }.put_record(&half, &mut bytes);
    tells(rt, &bytes, HALF, "half a chunk");
    let mut key = [0; 4];
    Ino { ag: 0 }.put_key(&half.startino, &mut key);
    equal(rt, Ino { ag: 0 }.read_key(&key), 64);
    equal(rt, Ino { ag: 0 }.lawful(&g, Some(&half), &whole), true);
    equal(rt, Ino { ag: 0 }.lawful(&g, Some(&whole), &half), false);
    for i in 0..line_count(CHUNKS) {
        let line = line_at(CHUNKS, i);
        let mut row = Row::new(line);
        let (ag, startino) = (row.number(rt), row.number(rt));
        let (holemask, count) = (row.number(rt), row.number(rt));
        let chunk = InoRec {
            startino,
            holemask,
            count,
            ..half
        };
        equal_at(rt, Fino { ag }.lawful(&g, None, &chunk), row.flag(rt), line);
    }
}

/// The bytes of a record of owners and of its high key.
const RECORD: &str = "\
[0, 0, 0, 24, 0, 0, 0, 3, 0, 0, 0, 0, 0, 0, 0, 131, 160, 0, 0, 0, 0, 0, 0, 5]";

const HIGH_KEY: &str = "\
[0, 0, 0, 26, 0, 0, 0, 0, 0, 0, 0, 131, 128, 0, 0, 0, 0, 0, 0, 7]";

/// The start, the length, the owner and the offset word of a run, and whether it is lawful behind another. The owners are
/// an inode, the group's trees (ending in fb), the file system (fd) and one that is none (ff).
const OWNED_RUNS: &str = "\
27 1 0xfffffffffffffffb 0 true
26 1 0xfffffffffffffffb 0 false
27 0 0xfffffffffffffffb 0 false
27 997 0xfffffffffffffffd 0 true
27 998 0xfffffffffffffffd 0 false
27 1 0xffffffffffffffff 0 false
27 1 132 0x803fffffffffffff true
27 1 132 0x40000000000000 false
4294967295 1 0xfffffffffffffffb 0 false
";

/// The record, which is of a fork of attributes.
const DATA: RmapRec = RmapRec {
    start: 24,
    count: 3,
    owner: 131,
    offset_word: ATTRIBUTES + UNWRITTEN + 5,
};

#[test]
fn owner_trees(rt: HostRuntime) {
    let rt = &rt;
    let g = volume();
    owner_records(rt);
    ends_at(rt, 131, 5, 7);
    ends_at(rt, 131, TREE_BLOCK, TREE_BLOCK);
    ends_at(rt, AG, 0, 0);
    for i in 0..line_count(OWNED_RUNS) {
        let line = line_at(OWNED_RUNS, i);
        try_owned_run(rt, &g, line);
    }
}

/// Compares the bytes of the record and of its high key.
fn owner_records(rt: &(impl Abort + AllocGlobal)) {
    let rmap = Rmap { ag: 0 };
    let mut bytes = [0; 24];
    rmap.put_record(&DATA, &mut bytes);
    tells(rt, &bytes, RECORD, "a record");
    equal(rt, rmap.read_record(&bytes), DATA);
    let high = rmap.high_key(&DATA);
    let mut key = [0; 20];
    rmap.put_key(&high, &mut key);
    tells(rt, &key, HIGH_KEY, "a high key");
    key[12] = 160;
    equal(rt, rmap.read_key(&key), high);
}

/// Compares the offset word of the high key of three blocks of an owner from an offset word on.
fn ends_at(rt: &impl Abort, owner: u64, word: u64, last: u64) {
    let run = RmapRec {
        owner,
        offset_word: word,
        ..DATA
    };
    compare_at(
        rt,
        &Rmap { ag: 0 }.high_key(&run).offset_word,
        &last,
        &(owner, word),
    );
}

/// Tries a run of a line behind the record.
fn try_owned_run(rt: &impl Abort, g: &Geometry, line: &str) {
    let rmap = Rmap { ag: 0 };
    let mut row = Row::new(line);
    let next = RmapRec {
        start: row.number(rt),
        count: row.number(rt),
        owner: row.number(rt),
        offset_word: row.number(rt),
    };
    row.tells_flag(rt, rmap.lawful(g, Some(&DATA), &next), line);
    let order = rmap.order(&rmap.low_key(&DATA), &rmap.low_key(&next));
    equal_at(rt, order, Ordering::Less, line);
}

/// Records and keys that a kernel wrote. It leaves the flag of unwritten blocks in some keys.
const UNWRITTEN_RECORD: &str = "0 0000058a00000004000000000000008f200000000000002e";

const ITS_HIGH_KEY: &str = "[0, 0, 5, 141, 0, 0, 0, 0, 0, 0, 0, 143, 0, 0, 0, 0, 0, 0, 0, 49]";

const WRITTEN_RECORD: &str = "0 0000023d000000010000000000000094000000000000002c";

const ITS_LOW_KEY: &str = "0 0000023d0000000000000094200000000000002c";

#[test]
fn keys_of_a_kernel(rt: HostRuntime) {
    let rt = &rt;
    let rmap = Rmap { ag: 0 };
    let mut record = [0; 24];
    let mut key = [0; 20];
    put_parts(rt, &mut record, UNWRITTEN_RECORD);
    rmap.put_key(&rmap.high_key(&rmap.read_record(&record)), &mut key);
    tells(rt, &key, ITS_HIGH_KEY, "the high key");
    put_parts(rt, &mut record, WRITTEN_RECORD);
    put_parts(rt, &mut key, ITS_LOW_KEY);
    let run = rmap.read_record(&record);
    equal(rt, rmap.read_key(&key), rmap.low_key(&run));
}

/// The bytes of an extent.
const EXTENT: &str = "[0, 0, 0, 0, 0, 0, 6, 0, 0, 0, 0, 0, 2, 128, 0, 5]";

/// The offset, the start and the length of an extent, and whether it is lawful behind another.
const EXTENTS: &str = "\
8 1000 24 true
8 1000 25 false
8 1024 1024 true
8 2047 1 true
8 2048 1 false
7 30 1 false
8 30 0 false
0x3ffffffffffffe 30 1 true
0x3fffffffffffff 30 1 false
0xffffffffffffffff 0xffffffffffffffff 0xffffffffffffffff false
";

/// The extent.
const FIRST: Extent = Extent {
    offset: 3,
    start: 20,
    count: 5,
    unwritten: false,
};

#[test]
fn extent_trees(rt: HostRuntime) {
    let rt = &rt;
    let g = volume();
    extent_records(rt);
    for i in 0..line_count(EXTENTS) {
        let line = line_at(EXTENTS, i);
        try_extent(rt, &g, line);
    }
}

/// Compares the bytes of the extent and its key.
fn extent_records(rt: &(impl Abort + AllocGlobal)) {
    let bmbt = Bmbt { ino: 131 };
    let mut bytes = [0; 16];
    bmbt.put_record(&FIRST, &mut bytes);
    tells(rt, &bytes, EXTENT, "an extent");
    equal(rt, bmbt.read_record(&bytes), FIRST);
    let mut key = [0; 8];
    bmbt.put_key(&bmbt.low_key(&FIRST), &mut key);
    equal(rt, bmbt.read_key(&key), 3);
    equal(rt, bmbt.order(&3, &4), Ordering::Less);
}

/// Tries an extent of a line behind the first.
fn try_extent(rt: &impl Abort, g: &Geometry, line: &str) {
    let mut row = Row::new(line);
    let next = Extent {
        offset: row.number(rt),
        start: row.number(rt),
        count: row.number(rt),
        unwritten: false,
    };
    row.tells_flag(rt, Bmbt { ino: 131 }.lawful(g, Some(&FIRST), &next), line);
}

#[test]
fn free_runs_of_a_group(rt: HostRuntime) {
    let rt = &rt;
    let alloc = rt.alloc();
    let used = [
        span(0, 1),
        span(1, 1),
        span(2, 1),
        span(3, 1),
        span(4, 1),
        span(5, 1),
        span(6, 6),
        span(16, 4),
        span(20, 4),
    ];
    let free = must(rt, free_runs(alloc, &used, 1024));
    equal(
        rt,
        free.as_slice(),
        [span(12, 4), span(24, 1000)].as_slice(),
    );
    let used = [span(3, 0), span(5, 2), span(9, u32::MAX)];
    let free = must(rt, free_runs(alloc, &used, 8));
    equal(rt, free.as_slice(), [span(0, 5), span(7, 1)].as_slice());
}

/// The offset words of a run of two blocks and of the block behind it, and how many blocks the first merged run has.
const PAIRS: &str = "\
5 7 3
5 8 2
5 5 2
5 0x2000000000000007 2
0x4000000000000000 0x4000000000000000 3
0x8000000000000000 0x8000000000000002 3
";

#[test]
fn merged_runs_of_a_group(rt: HostRuntime) {
    let rt = &rt;
    let alloc = rt.alloc();
    let run = |start, count, owner, offset| Run {
        start,
        count,
        owner,
        offset_word: offset,
    };
    let runs = [
        run(0, 1, FS, 0),
        run(1, 1, AG, 0),
        run(2, 1, AG, 0),
        run(3, 1, INOBT, 0),
        run(4, 1, INOBT, 0),
        run(5, 1, AG, 0),
        run(6, 6, AG, 0),
        run(16, 4, INODES, 0),
        run(20, 4, INODES, 0),
    ];
    let merged = must(rt, merge_runs(alloc, &runs));
    let expected = [
        run(0, 1, FS, 0),
        run(1, 2, AG, 0),
        run(3, 2, INOBT, 0),
        run(5, 7, AG, 0),
        run(16, 8, INODES, 0),
    ];
    equal(rt, merged.as_slice(), expected.as_slice());
    for i in 0..line_count(PAIRS) {
        let line = line_at(PAIRS, i);
        let mut row = Row::new(line);
        let (offset, next) = (row.number(rt), row.number(rt));
        let pair = [run(24, 2, 131, offset), run(26, 1, 131, next)];
        let merged = must(rt, merge_runs(alloc, &pair));
        equal_at(
            rt,
            merged.first(),
            Some(&run(24, row.number(rt), 131, offset)),
            line,
        );
    }
}
