//! In which order the blocks of the trees of all groups are read: the trees of a kind level by level, those of all groups together, and
//! the trees of owners last.

use crate::checks::{compare_at, equal, must};
use crate::groups::{self, leaf, seal, see};
use crate::small_volume::put;
use crate::text::{Row, line_at, line_count, refuse};
use std::alloc::Global;
use std::marker::Brand;
use std::process::Abort;
use std::sync::ledger::Blank;
use std::thread::Threads;
use xfs_disk::{BLOCK_SIZE, Disk};
use xfs_groups::Groups;
use xfs_memory::{MemoryDisk, NotedDisk};
use xfs_word::put32;

/// The tree of owners of the first group, of two levels: the block of each of its blocks, what stands left and right of it, its first
/// words, and its keys or records.
const OWNERS: &str = "\
5 0xffffffff 0xffffffff 524d4233 00010002 | 00000000 ffffffff fffffffd 00000000 00000000 00000004 ffffffff fffffffa 00000000 00000000 00000005 ffffffff fffffffb 00000000 00000000 00000017 ffffffff fffffff9 00000000 00000000
12 0xffffffff 13 524d4233 00000003 | 00000000 00000001 ffffffff fffffffd 00000000 00000000 00000001 00000002 ffffffff fffffffb 00000000 00000000 00000003 00000002 ffffffff fffffffa 00000000 00000000
13 12 0xffffffff 524d4233 00000002 | 00000005 00000007 ffffffff fffffffb 00000000 00000000 00000010 00000008 ffffffff fffffff9 00000000 00000000
";

/// The leaves of the tree, and where its root names them.
const LEAVES: [u64; 2] = [12, 13];

const POINTERS: usize = 3696;

/// The roots of all trees.
const ROOTS: [u64; 10] = [1, 2, 3, 4, 5, 1025, 1026, 1027, 1028, 1029];

#[test]
fn roots_come_first(rt: HostRuntime) {
    let rt = &rt;
    let alloc = rt.alloc();
    let mut noted = NotedDisk::new(alloc, tall(rt, alloc));
    let seen = seen(rt, alloc, &mut noted);
    equal(rt, seen.groups.is_ok(), true);
    drop(seen);
    for leaf in LEAVES {
        for root in ROOTS {
            compare_at(
                rt,
                &(first_read(rt, &noted, root) < first_read(rt, &noted, leaf)),
                &true,
                &(leaf, root),
            );
        }
    }
}

/// The groups of the disk, which can be read.
fn seen<R: Abort + Threads + Sync>(rt: &R, alloc: Global, noted: &mut NotedDisk) -> Groups {
    assert!(rt; matches!(noted.blocks(), Ok(count) if 2048 <= count));
    match see::<R, NotedDisk, Brand>(rt, alloc, noted, Blank::new(1)) {
        Ok(seen) => seen,
        Err(_) => refuse(rt, "the groups are not seen", ""),
    }
}

/// Which of all reads is the first of a block.
fn first_read(rt: &impl Abort, noted: &NotedDisk, block: u64) -> usize {
    match noted.first_read(block) {
        Some(first) => first,
        None => refuse(rt, "a block is not read", ""),
    }
}

/// The volume whose first group has a tree of owners of two levels.
fn tall(rt: &(impl Abort + AllocGlobal), alloc: Global) -> MemoryDisk {
    let mut disk = groups::disk(rt, alloc, &[5]);
    for i in 0..line_count(OWNERS) {
        let line = line_at(OWNERS, i);
        put_owners(rt, &mut disk, line);
    }
    put_levels(rt, &mut disk);
    disk
}

/// Writes a block of the tree of owners.
fn put_owners(rt: &(impl Abort + AllocGlobal), disk: &mut MemoryDisk, line: &str) {
    let mut row = Row::new(line);
    let place = row.number(rt);
    let (left, right) = (row.number(rt), row.number(rt));
    let mut block = leaf(rt, place, &mut row);
    put32(&mut block, 8, left);
    put32(&mut block, 12, right);
    if place == 5 {
        put32(&mut block, POINTERS, 12);
        put32(&mut block, POINTERS + 4, 13);
    }
    seal(rt, &mut block, 32, 52);
    put(rt, disk, place, &block);
}

/// Writes into the header of the first group that its tree of owners has two levels.
fn put_levels(rt: &impl Abort, disk: &mut MemoryDisk) {
    let mut block = [0; BLOCK_SIZE];
    assert!(rt; matches!(disk.blocks(), Ok(count) if 0 < count));
    must(rt, disk.read(0, &mut block));
    put32(&mut block, 512 + 36, 2);
    seal(rt, &mut block[512..1024], 64, 216);
    put(rt, disk, 0, &block);
}
