//! How often each block of a volume is read while its evidence is gathered. The volume is that of `groups`, whose chunk has the root, a
//! directory with one block and a file with one; its other slots are free.

use crate::checks::{equal_at, must};
use crate::groups::{self, IDENTIFIER, leaf};
use crate::scan::{ENTRY, EXTENT, LOST_ATTRIBUTES, PLAIN, file, gather_counted, put_slot, view_of};
use crate::small_volume::{ROOT, put, volume};
use crate::text::{Row, line_at, line_count, part_at, part_count, put_parts, refuse};
use std::alloc::Global;
use std::marker::Brand;
use std::process::Abort;
use std::sync::ledger::Blank;
use std::thread::Threads;
use xfs_dirdata::{EntryRec, put_data};
use xfs_disk::{BLOCK_SIZE, Disk, NoGate, Stamp, Word};
use xfs_inodebuild::free_slot;
use xfs_memory::{MemoryDisk, NotedDisk};
use xfs_scan::Evidence;
use xfs_volume::Core;
use xfs_word::{Seal, SealKind, put_part, put32, put64, seal};

/// Directory 131, with one block at block 24.
const DIRECTORY: Core = Core {
    format: 2,
    size: 4096,
    nblocks: 1,
    nextents: 1,
    ino: 131,
    ..ROOT
};

/// Its extent.
const BLOCK: [u8; 16] = [0, 0, 0, 0, 0, 0, 0, 0, 0, 0, 0, 0, 3, 0, 0, 1];

/// The tail and the index of its block: three pairs and a stale one.
const INDEX: &str =
    "4056 0000002e00000008 000000610000000c 0000006100000000 0000172e0000000a 0000000400000001";

/// Writes the directory's block, with one entry.
fn put_directory(rt: &(impl Abort + AllocGlobal), alloc: Global, disk: &mut MemoryDisk) {
    let entry = EntryRec {
        dir: 131,
        name: Word::from_vec(must(rt, Vec::from_slice(alloc, b"a"))),
        ino: 132,
        ftype: 1,
    };
    let mut block = [0; BLOCK_SIZE];
    put_data(&[entry], Some((131, 128)), &mut block[..4056]);
    put_parts(rt, &mut block, INDEX);
    put32(&mut block, 0, 0x5844_4233);
    put64(&mut block, 8, 8 * 24);
    put_part(&mut block, 24, &IDENTIFIER);
    put64(&mut block, 40, 131);
    let wanted = Seal {
        kind: SealKind::DirData,
        place: 8 * 24,
        owner: Some(131),
        uuid: IDENTIFIER,
    };
    seal(&wanted, &mut block);
    put(rt, disk, 24, &block);
}

/// Writes the slot of an inode of the chunk into its block; one may have lost its attributes.
fn put_inode(rt: &impl Abort, block: &mut [u8; BLOCK_SIZE], ino: u64, lost: Option<u64>) {
    match ino {
        128 => put_slot(rt, block, &ROOT, &ENTRY, PLAIN),
        131 => put_slot(rt, block, &DIRECTORY, &BLOCK, PLAIN),
        132 => put_slot(rt, block, &file(132), &EXTENT, PLAIN),
        _ if lost == Some(ino) => put_slot(rt, block, &file(ino), &EXTENT, LOST_ATTRIBUTES),
        _ => {
            let stamp = Stamp {
                seconds: 0,
                nanos: 0,
                generation: 0,
                uuid: [0; 16],
            };
            let mut slot = [0; 512];
            free_slot(&volume(IDENTIFIER), ino, &stamp, &mut slot);
            put_part(block, ino as usize % 8 * 512, &slot);
        }
    }
}

/// Writes the chunk.
fn put_chunk(rt: &impl Abort, disk: &mut MemoryDisk, lost: Option<u64>) {
    for place in 16..24u64 {
        let mut block = [0; BLOCK_SIZE];
        for slot in 0..8u64 {
            put_inode(rt, &mut block, 8 * place + slot, lost);
        }
        put(rt, disk, place, &block);
    }
}

/// The tree of owners of the first group, which gives blocks 40 to 43 to inodes too.
const OWNERS: &str =
    "524d4233 00000006 | 00000000 00000001 ffffffff fffffffd 00000000 00000000 00000001 00000002 ffffffff fffffffb 00000000 00000000 00000003 00000002 ffffffff fffffffa 00000000 00000000 00000005 00000007 ffffffff fffffffb 00000000 00000000 00000010 00000008 ffffffff fffffff9 00000000 00000000 00000028 00000004 ffffffff fffffff9 00000000 00000000";

/// What is wrong with the volume: the blocks of trees that are lost, an inode that lost its attributes, whether the tree of owners names
/// one cluster more. Then whether all parts read, and how often blocks are read: from a block on, before another, so many times, each
/// part of the line over those before it.
///
/// Where all reads, the header of a group and the blocks of its trees are read once for what they say and once for their log sequence
/// numbers, block 0 once more for its counters. Blocks of clusters are read once, for their slots and the numbers in these. A directory's
/// block is read for its entries and for its number, the log once, a file's data not at all. Where a part does not read, no numbers and no
/// counters are read. A group whose trees do not name the same clusters is looked at block by block, and where the chunks are not the
/// clusters whose slots are read, the slots of the chunks are read once more, with their directories, and then for their numbers. Where a
/// block of a cluster does not begin as a slot does, as the zeros of blocks 40 to 43, the groups, the slots and the directories are read
/// anew: the first time clusters that are named were not looked at.
const CASES: &str = "\
nothing | | - false | true | 0 1 3, 1 6 2, 16 24 1, 24 25 2, 1024 1030 2, 1030 1542 1
a slot | | 140 false | false | 0 6 1, 16 25 1, 1024 1542 1
a tree of inodes | 3 | - false | false | 0 1024 1, 0 6 2, 16 25 2, 1024 1542 1
both trees that name clusters | 3 5 | - false | false | 0 1024 1, 0 6 2, 16 20 2, 24 25 2, 1024 1542 1
a tree of the second group | 1027 | - false | false | 0 6 1, 16 25 1, 1024 2048 1, 1024 1542 2
one cluster more | | - true | true | 0 1024 2, 0 1 6, 1 6 5, 16 25 6, 40 44 4, 1024 1030 3, 1030 1542 1
";

#[test]
fn reads(rt: HostRuntime) {
    for i in 0..line_count(CASES) {
        let line = line_at(CASES, i);
        try_reads(&rt, line);
    }
}

fn try_reads<R: Abort + AllocGlobal + Threads + Sync>(rt: &R, line: &str) {
    let alloc = rt.alloc();
    let mut row = Row::new(line);
    let case = row.text();
    let disk = disk_of(rt, &mut row);
    let mut noted = NotedDisk::new(alloc, disk);
    let found = gathered(rt, alloc, &mut noted, case);
    equal_at(rt, found.seen.as_seen().dirs().len(), 2, case);
    let view = view_of(found);
    equal_at(rt, view.is_ok(), row.flag(rt), case);
    are_counted(rt, &counts_of(rt, noted.reads(), 2048), row.text(), case);
    drop(view);
}

/// The disk of a line.
fn disk_of(rt: &(impl Abort + AllocGlobal), row: &mut Row<'_>) -> MemoryDisk {
    let alloc = rt.alloc();
    let lost = row.numbers::<u64>(rt, alloc);
    let mut disk = groups::disk(rt, alloc, &lost);
    put_chunk(rt, &mut disk, row.optional(rt));
    put_directory(rt, alloc, &mut disk);
    if row.flag(rt) {
        put(rt, &mut disk, 5, &leaf(rt, 5, &mut Row::new(OWNERS)));
    }
    disk
}

/// The evidence of the disk, which is not refused.
fn gathered<R: Abort + Threads + Sync>(
    rt: &R,
    alloc: Global,
    noted: &mut NotedDisk,
    case: &str,
) -> Evidence {
    assert!(rt; matches!(noted.blocks(), Ok(count) if 2048 <= count));
    match gather_counted::<R, NotedDisk, NoGate, Brand>(rt, alloc, noted, &NoGate, Blank::new(1)) {
        Ok(found) => found,
        Err(_) => refuse(rt, "the volume is refused", case),
    }
}

/// Fails where blocks were not read as often as is due.
fn are_counted(rt: &(impl Abort + AllocGlobal), reads: &[u32], due: &str, case: &str) {
    let wanted = wanted_counts(rt, due);
    equal_at(rt, reads, wanted.as_slice(), case);
}

/// How often each block is to be read.
fn wanted_counts(rt: &(impl Abort + AllocGlobal), due: &str) -> Vec<u32> {
    let mut wanted = must(rt, vec![in rt.alloc(); 0u32; 2048]);
    for i in 0..part_count(due) {
        let part = part_at(due, i);
        put_counts(rt, &mut wanted, part);
    }
    wanted
}

/// Writes how often the blocks of a part are to be read: from a block on, before another, so many times.
fn put_counts(rt: &impl Abort, wanted: &mut [u32], mut part: Row) {
    let (first, end): (usize, usize) = (part.number(rt), part.number(rt));
    let times = part.number(rt);
    for block in first..end {
        if let Some(count) = wanted.get_mut(block) {
            *count = times;
        }
    }
}

/// How often each of so many blocks was read.
fn counts_of(rt: &(impl Abort + AllocGlobal), reads: &[u64], blocks: usize) -> Vec<u32> {
    let mut counts = must(rt, vec![in rt.alloc(); 0u32; blocks]);
    for block in reads {
        count(&mut counts, *block as usize);
    }
    counts
}

/// Counts one more.
fn count(counts: &mut [u32], place: usize) {
    if let Some(count) = counts.get_mut(place) {
        *count = count.saturating_add(1);
    }
}
